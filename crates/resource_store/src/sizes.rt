//! What instances add up to.
ghost use Rattle.std.specs.Prelude.{◌≡◌, ◌<◌, ◌+◌, ◌^◌, [], ◌∷◌};
ghost use Rattle.m2m_names.specs.Ids.{count_bound};
ghost use Rattle.tree_model.specs.Tree.{is_kin, sizes_of};
ghost use Rattle.m2m_names.specs.declared.types.Ty.TheVariants.{ContentInstance};

use crate::kin_row::size_in_bytes;
use crate::store::Store;
use m2m_names::Ty;
use resource_model::Resource;

fn is_instance(resource: &Resource, container: u64) -> bool
    ensures { result ≡ is_kin ContentInstance container resource.now }
{
    resource.parent() == container && resource.is(Ty::ContentInstance)
}

// The size of an instance of a container; that of what is none is 0.
fn size_below(resource: &Resource, container: u64) -> u64
    ensures value { result ≡ sizes_of container (resource.now ∷ []) }
    ensures bound { result < count_bound }
{
    if is_instance(resource, container) {
        size_in_bytes(resource)
    } else {
        0
    }
}

/// The sum of the sizes of a container's instances, in bytes. It looks at each resource.
pub fn instance_sizes(store: &Store, container: u64) -> u128
    ensures value { result ≡ sizes_of container store.now }
    ensures bound { result < 2 ^ 127 }
{
    let mut sizes = 0u128;
    let mut last = 0;
    while let Some(resource) = store.after(last) {
        sizes += size_below(resource, container) as u128;
        last = resource.number();
    }
    sizes
}

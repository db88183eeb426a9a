//! What a list of resources has, found by a walk.
ghost use Rattle.std.specs.Prelude.{◌≡◌, ◌^◌, ◌<◌, length, find, reverse};
ghost use Rattle.m2m_names.specs.Ids.{count_bound};
ghost use Rattle.tree_model.specs.Tree.{is_child, is_kin, is_ae, is_cse, resource_number};
ghost use Rattle.tree_model.specs.Tree.{last_number, children_of, child_of, ae_of, cse_of, kin_of};
ghost use Rattle.tree_model.specs.Tree.{instances_of, instance_size, number_at, sizes_of};
ghost use Rattle.tree_model.specs.Tree.{channel_of};

use m2m_names::{Attr, Ty};
use resource_model::Resource;

/// Whether a resource is the child of a name.
pub fn is_child(resource: &Resource, parent: u64, name: &[u8]) -> bool
    ensures { result ≡ is_child parent name.now resource.now }
{
    resource.parent() == parent && resource.name().entries() == name
}

fn is_kin(resource: &Resource, ty: Ty, parent: u64) -> bool
    ensures { result ≡ is_kin ty parent resource.now }
{
    resource.parent() == parent && resource.is(ty)
}

/// Whether a resource has this AE-ID.
pub fn is_ae(resource: &Resource, aei: &[u8]) -> bool
    ensures { result ≡ is_ae aei.now resource.now }
{
    match resource.ae_id() {
        Some(id) => id.entries() == aei,
        None => false,
    }
}

/// Whether a resource has this CSE-ID.
pub fn is_cse(resource: &Resource, csi: &[u8]) -> bool
    ensures { result ≡ is_cse csi.now resource.now }
{
    match resource.cse_id() {
        Some(id) => id.entries() == csi,
        None => false,
    }
}

fn size_in_bytes(resource: &Resource) -> u64
    ensures value { result ≡ instance_size resource.now }
    ensures bound { result < count_bound }
{
    resource.attrs().count(Attr::Cs).unwrap_or(0)
}

/// The child of a name.
pub(crate) fn child_in(resources: &[Resource], parent: u64, name: &[u8]) -> Option<u64>
    ensures { result ≡ child_of parent name.now resources.now }
{
    let found = resources.iter().find(|r| is_child(r, parent, name))?;
    Some(found.number())
}

/// The application entity of an AE-ID.
pub(crate) fn ae_in(resources: &[Resource], aei: &[u8]) -> Option<u64>
    ensures { result ≡ ae_of aei.now resources.now }
{
    let found = resources.iter().find(|r| is_ae(r, aei))?;
    Some(found.number())
}

/// The remote CSE of a CSE-ID.
pub(crate) fn cse_in(resources: &[Resource], csi: &[u8]) -> Option<u64>
    ensures { result ≡ cse_of csi.now resources.now }
{
    let found = resources.iter().find(|r| is_cse(r, csi))?;
    Some(found.number())
}

/// The polling channel of a resource.
pub(crate) fn channel_in(resources: &[Resource], parent: u64) -> Option<u64>
    ensures { result ≡ channel_of parent resources.now }
{
    first_kin_in(resources, Ty::PollingChannel, parent)
}

// The first child of a type.
fn first_kin_in(resources: &[Resource], ty: Ty, parent: u64) -> Option<u64>
    ensures { result ≡ resource_number (find (is_kin ty parent) resources.now) }
{
    let found = resources.iter().find(|r| is_kin(r, ty, parent))?;
    Some(found.number())
}

/// The child at a place, from 0.
pub(crate) fn kid_in(resources: &[Resource], parent: u64, k: u64) -> Option<u64>
    ensures { result ≡ number_at k (children_of parent resources.now) }
{
    let mut left = k;
    for resource in resources {
        if resource.parent() == parent {
            if left == 0 {
                return Some(resource.number());
            }
            left -= 1;
        }
    }
    None
}

/// The child of a type at a place, from 0.
pub(crate) fn kin_in(resources: &[Resource], ty: Ty, parent: u64, k: u64) -> Option<u64>
    ensures { result ≡ number_at k (kin_of ty parent resources.now) }
{
    let mut left = k;
    for resource in resources {
        if is_kin(resource, ty, parent) {
            if left == 0 {
                return Some(resource.number());
            }
            left -= 1;
        }
    }
    None
}

/// The last child of a type.
pub(crate) fn last_kin_in(resources: &[Resource], ty: Ty, parent: u64) -> Option<u64>
    ensures { result ≡ last_number (kin_of ty parent resources.now) }
{
    first_from_the_end(resources, ty, parent)
}

fn first_from_the_end(resources: &[Resource], ty: Ty, parent: u64) -> Option<u64>
    ensures { result ≡ resource_number (find (is_kin ty parent) (reverse resources.now)) }
{
    let found = resources.iter().rev().find(|r| is_kin(r, ty, parent))?;
    Some(found.number())
}

/// How many instances a container has.
pub(crate) fn count_of_instances(resources: &[Resource], container: u64) -> u64
    ensures { result ≡ length (instances_of container resources.now) }
{
    let mut count = 0;
    for resource in resources {
        if is_kin(resource, Ty::ContentInstance, container) {
            count += 1;
        }
    }
    count
}

/// The sum of the sizes of a container's instances, in bytes.
pub(crate) fn sizes_in(resources: &[Resource], container: u64) -> u128
    ensures value { result ≡ sizes_of container resources.now }
    ensures bound { result < 2 ^ 127 }
{
    let mut sizes = 0u128;
    for resource in resources {
        if is_kin(resource, Ty::ContentInstance, container) {
            sizes += size_in_bytes(resource) as u128;
        }
    }
    sizes
}

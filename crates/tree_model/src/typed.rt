//! Resources by their types.
ghost use Rattle.std.specs.Prelude.{◌≡◌, option_map};
ghost use Rattle.tree_model.specs.Tree as spec;

use crate::tree::Tree;
use m2m_names::{Ty, read_id};
use resource_model::Resource;

/// The resource, where it is of this type.
pub fn of_type(resource: &Resource, ty: Ty) -> Option<&Resource>
    ensures { option_map (λ r. r.now) result ≡ spec.of_type ty resource.now }
{
    if resource.is(ty) {
        Some(resource)
    } else {
        None
    }
}

/// The resource of a number, where it is of this type: one look-up.
pub fn typed_at<T: Tree>(tree: &T, ty: Ty, number: u64) -> Option<&Resource>
    ensures { option_map (λ r. r.now) result ≡ spec.typed_at ty number (T.nodes tree.now) }
{
    of_type(tree.get(number)?, ty)
}

/// The resource that a resource id names: one look-up.
pub fn resource_of_id<'a, T: Tree>(tree: &'a T, id: &[u8]) -> Option<&'a Resource>
    ensures { option_map (λ r. r.now) result ≡ spec.resource_of_id id.now (T.nodes tree.now) }
{
    let (ty, number) = read_id(id)?;
    typed_at(tree, ty, number)
}

//! What a parent has to know of a resource that stands below it.
ghost use Rattle.std.specs.Prelude.{◌≡◌, ◌<◌};
ghost use Rattle.m2m_names.specs.Ids.{count_bound};
ghost use Rattle.resource_store.specs.KinRows as spec;
ghost use Rattle.tree_model.specs.Tree.{instance_size};

use m2m_names::{Attr, Ty};
use resource_model::Resource;

/// Of a resource its number, that of its parent, its type, and of an instance its size in bytes.
#[derive(Clone, Copy)]
pub struct KinRow {
    pub number: u64,
    pub parent: u64,
    pub ty: Ty,
    pub size: u64,
}

/// The row of a resource. It looks for the size of an instance among its attributes.
pub fn row_of(resource: &Resource) -> KinRow
    ensures { result ≡ spec.row_of resource.now }
{
    row_with(resource, row_size(resource))
}

/// The row of a resource whose size is known.
pub(crate) fn row_with(resource: &Resource, size: u64) -> KinRow
    requires { size ≡ spec.row_size resource.now }
    ensures { result ≡ spec.row_of resource.now }
{
    KinRow {
        number: resource.number(),
        parent: resource.parent(),
        ty: resource.ty(),
        size,
    }
}

/// The size in the row of a resource.
pub(crate) fn row_size(resource: &Resource) -> u64
    ensures { result ≡ spec.row_size resource.now }
{
    if resource.is(Ty::ContentInstance) {
        size_in_bytes(resource)
    } else {
        0
    }
}

/// The size of an instance in bytes, or 0 where it tells none.
pub fn size_in_bytes(resource: &Resource) -> u64
    ensures value { result ≡ instance_size resource.now }
    ensures bound { result < count_bound }
{
    resource.attrs().count(Attr::Cs).unwrap_or(0)
}

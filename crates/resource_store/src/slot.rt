//! A slot of the table of resources.
ghost use Rattle.std.specs.Prelude.{◌≡◌, ◌<◌, ◌≤◌, IsSome, Some, None, option_map};
ghost use Rattle.m2m_names.specs.Ids.{count_bound};
ghost use Rattle.m2m_names.specs.Stamps.{last_moment};
ghost use Rattle.m2m_names.specs.declared.attributes.Attr.TheVariants.{Exc, St};
ghost use Rattle.resource_model.specs.Attributes.{value_of};
ghost use Rattle.resource_model.specs.Resource.{ResourceData};
ghost use Rattle.resource_store.specs.KinRows as spec;
ghost use Rattle.resource_store.specs.KinRows.{IsSizeBeside};
ghost use Rattle.tree_model.specs.Tree.{recounted, restamped};

use crate::kin_row::{KinRow, row_size, row_with};
use m2m_names::Attr;
use m2m_value::Val;
use resource_model::Resource;

// This size and what is greater isn't kept beside a resource.
const NOT_KEPT: u32 = u32::MAX;

/// A resource, its size, and whether it was taken out. Attributes may lie in memory that wasn't
/// used for long. Since the size stands here too, taking out looks at none of them.
#[derive(Drop)]
pub(crate) struct Slot {
    pub(crate) resource: Resource,
    pub(crate) size: u32,
    pub(crate) is_gone: bool,
    ghost sized: { IsSizeBeside size resource },
}

impl Slot {
    ghost use Rattle.resource_store.specs.Slots.{seen};

    /// The slot of a resource that is seen.
    pub(crate) fn of(resource: Resource) -> Slot
        ensures resource { result.resource ≡ resource }
        ensures seen { seen result ≡ Some resource }
    {
        let size = size_beside(&resource);
        Slot {
            resource,
            size,
            is_gone: false,
        }
    }

    /// Its resource isn't seen from then on. The row of what was seen is told.
    pub(crate) fn hide(&mut self) -> Option<KinRow>
        ensures row { result ≡ option_map spec.row_of (seen self.old) }
        ensures hidden { seen self.new ≡ None }
    {
        let row = self.row();
        self.is_gone = true;
        row
    }

    // The row of the resource that is seen.
    fn row(&self) -> Option<KinRow>
        ensures { result ≡ option_map spec.row_of (seen self.now) }
    {
        if self.is_gone {
            return None;
        }
        Some(row_with(&self.resource, self.known_size()))
    }

    // The size of its resource. Where it isn't kept here, it is sought among the attributes.
    fn known_size(&self) -> u64
        ensures { result ≡ spec.row_size self.now.resource }
    {
        if self.size < NOT_KEPT {
            self.size as u64
        } else {
            row_size(&self.resource)
        }
    }

    /// Puts a resource in the place of its own.
    pub(crate) fn write_over(&mut self, resource: Resource)
        ensures { seen self.new ≡ option_map (λ r. resource) (seen self.old) }
    {
        self.size = size_beside(&resource);
        self.resource = resource;
    }

    /// Sets the moment of the last change and the state tag of its resource, which has one.
    pub(crate) fn restamp(&mut self, lt: u64, st: u64)
        requires there { (r : ResourceData) → seen self.old ≡ Some r
            → IsSome (value_of St r.attrs) }
        requires lt { lt ≤ last_moment }
        requires st { st < count_bound }
        ensures { seen self.new ≡ option_map (restamped lt st) (seen self.old) }
    {
        if !self.is_gone {
            restamp(&mut self.resource, lt, st);
        }
    }

    /// Sets how many notifications are left to its resource, which counts them.
    pub(crate) fn recount(&mut self, left: u64)
        requires there { (r : ResourceData) → seen self.old ≡ Some r
            → IsSome (value_of Exc r.attrs) }
        requires left { left < count_bound }
        ensures { seen self.new ≡ option_map (recounted left) (seen self.old) }
    {
        if !self.is_gone {
            recount(&mut self.resource, left);
        }
    }
}

// The size of a resource, as it is kept beside it.
fn size_beside(resource: &Resource) -> u32
    ensures { IsSizeBeside result resource.now }
{
    let size = row_size(resource);
    if size < NOT_KEPT as u64 {
        size as u32
    } else {
        NOT_KEPT
    }
}

fn restamp(resource: &mut Resource, lt: u64, st: u64)
    requires there { IsSome (value_of St resource.old.attrs) }
    requires lt { lt ≤ last_moment }
    requires st { st < count_bound }
    ensures { resource.new ≡ restamped lt st resource.old }
{
    resource.set_lt(lt);
    // It has a value, so that this takes no memory.
    let _set = resource.set(Attr::St, Val::of_num(st as i64));
}

fn recount(resource: &mut Resource, left: u64)
    requires there { IsSome (value_of Exc resource.old.attrs) }
    requires left { left < count_bound }
    ensures { resource.new ≡ recounted left resource.old }
{
    // It has a value, so that this takes no memory.
    let _set = resource.set(Attr::Exc, Val::of_num(left as i64));
}

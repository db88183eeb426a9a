//! The table of resources by number.
ghost use Rattle.std.specs.Prelude.{◌≡◌, ◌<◌, ◌≤◌, ℕ, nat_eq, if◌then◌else◌, is_some};
ghost use Rattle.std.specs.Prelude.{option_map, IfErr, IsSome, IsTrue, OnErr, OnOk, None, Some};
ghost use Rattle.std.specs.HashMap.{get};
ghost use Rattle.m2m_names.specs.Ids.{count_bound};
ghost use Rattle.m2m_names.specs.Stamps.{last_moment};
ghost use Rattle.m2m_names.specs.declared.attributes.Attr.TheVariants.{Exc, St};
ghost use Rattle.resource_model.specs.Attributes.{value_of};
ghost use Rattle.resource_model.specs.Resource.{ResourceData};
ghost use Rattle.resource_store.specs.KinRows.{row_of};
ghost use Rattle.resource_store.specs.Slots.{held};
ghost use Rattle.tree_model.specs.Tree.{recounted, restamped};

use crate::kin_row::KinRow;
use crate::seeded::{NumberMap, Seeded};
use crate::slot::Slot;
use resource_model::Resource;
use std::alloc::{AllocError as OutOfMemory, Global};

// So many are freed at once.
const SOME: usize = 16;

/// Resources by their numbers. One that is taken out isn't seen from then on; it stays in its slot
/// until it is freed by what is done later. So taking out many is quick: none is moved, and freeing
/// one, which takes as long, is done later.
#[derive(Drop)]
pub(crate) struct Slots {
    table: NumberMap<Slot>,
    // The numbers of those that were taken out. One may stand twice, or have another resource by
    // now.
    gone: Vec<u64>,
}

impl Slots {
    /// No resource; it takes no memory.
    pub(crate) fn new(alloc: Global, seeded: Seeded) -> Slots
        ensures { (n : ℕ) → held result.table n ≡ None }
    {
        Slots {
            table: NumberMap::with_hasher(alloc, seeded),
            gone: Vec::new(alloc),
        }
    }

    /// The resource of a number.
    #[inline(always)]
    pub(crate) fn get(&self, number: u64) -> Option<&Resource>
        ensures { option_map (λ r. r.now) result ≡ held self.now.table number }
    {
        match self.table.get(&number) {
            Some(slot) if !slot.is_gone => Some(&slot.resource),
            _ => None,
        }
    }

    /// Whether there is a resource of a number.
    #[inline(always)]
    pub(crate) fn has(&self, number: u64) -> bool
        ensures { result ≡ is_some (held self.now.table number) }
    {
        self.get(number).is_some()
    }

    /// With a resource, in the place of any other of its number.
    pub(crate) fn insert(&mut self, resource: Resource) -> Result<(), (Resource, OutOfMemory)>
        ensures ok { (n : ℕ) → OnOk result (held self.new.table n
            ≡ if nat_eq resource.number n then Some resource else held self.old.table n) }
        ensures err { (n : ℕ) → OnErr result (held self.new.table n ≡ held self.old.table n) }
        ensures back { IfErr result (λ e. e.0 ≡ resource) }
    {
        let slot = Slot::of(resource);
        match self.table.insert(slot.resource.number(), slot) {
            Ok(_) => Ok(()),
            Err(refused) => Err((refused.value.1.resource, OutOfMemory)),
        }
    }

    /// Takes out the resource of a number, and tells its row. Where there is no room to note that,
    /// it is freed at once.
    pub(crate) fn take_out(&mut self, number: u64) -> Option<KinRow>
        ensures row { result ≡ option_map row_of (held self.old.table number) }
        ensures left { (n : ℕ) → held self.new.table n
            ≡ if nat_eq number n then None else held self.old.table n }
    {
        let row = hide(&mut self.table, number)?;
        if let Err(_) = self.gone.push(number) {
            let _freed = self.table.remove(&number);
        }
        Some(row)
    }

    /// Frees some of those that were taken out, the last first, and behind the last one the room
    /// for many numbers.
    pub(crate) fn free_some(&mut self)
        ensures { (n : ℕ) → held self.new.table n ≡ held self.old.table n }
    {
        for _ in 0..SOME {
            let Some(number) = self.gone.pop() else {
                break;
            };
            free(&mut self.table, number);
        }
        if self.gone.is_empty() && self.gone.capacity() > SOME {
            self.gone.shrink_to_fit();
        }
    }

    /// Puts the resource in the place of the one of its number, where there is one.
    pub(crate) fn write_over(&mut self, resource: Resource)
        ensures { (n : ℕ) → held self.new.table n ≡ option_map (λ r. if nat_eq resource.number n
            then resource else r) (held self.old.table n) }
    {
        let number = resource.number();
        if let Some(slot) = self.table.get_mut(&number) {
            slot.write_over(resource);
        }
    }

    /// Sets the moment of the last change and the state tag of the resource of a number.
    pub(crate) fn restamp(&mut self, number: u64, lt: u64, st: u64)
        requires there { (r : ResourceData) → held self.old.table number ≡ Some r
            → IsSome (value_of St r.attrs) }
        requires lt { lt ≤ last_moment }
        requires st { st < count_bound }
        ensures { (n : ℕ) → held self.new.table n ≡ option_map (λ r. if nat_eq number n
            then restamped lt st r else r) (held self.old.table n) }
    {
        if let Some(slot) = self.table.get_mut(&number) {
            slot.restamp(lt, st);
        }
    }

    /// Sets how many notifications are left to the subscription of a number.
    pub(crate) fn recount(&mut self, number: u64, left: u64)
        requires there { (r : ResourceData) → held self.old.table number ≡ Some r
            → IsSome (value_of Exc r.attrs) }
        requires left { left < count_bound }
        ensures { (n : ℕ) → held self.new.table n ≡ option_map (λ r. if nat_eq number n
            then recounted left r else r) (held self.old.table n) }
    {
        if let Some(slot) = self.table.get_mut(&number) {
            slot.recount(left);
        }
    }
}

// The resource of a number isn't seen from then on. Its row is told.
fn hide(table: &mut NumberMap<Slot>, number: u64) -> Option<KinRow>
    ensures row { result ≡ option_map row_of (held table.old number) }
    ensures left { (n : ℕ) → held table.new n
        ≡ if nat_eq number n then None else held table.old n }
{
    match table.get_mut(&number) {
        Some(slot) => slot.hide(),
        None => None,
    }
}

// Frees the resource of a number, where it was taken out; another may have come in its place.
fn free(table: &mut NumberMap<Slot>, number: u64)
    ensures { (n : ℕ) → held table.new n ≡ held table.old n }
{
    match table.get(&number) {
        Some(slot) if slot.is_gone => {
            let _freed = table.remove(&number);
        }
        _ => {}
    }
}

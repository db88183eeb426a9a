//! The children of each parent.
ghost use Rattle.std.specs.Prelude.{◌≡◌, ℕ, ◌++◌, ◌-◌, [], ◌∷◌, OnOk, OnErr, length, nat_lt};
ghost use Rattle.std.specs.Prelude.{IsTrue, nat_eq, slice_get, ◌&&◌, if◌then◌else◌, None, Some};
ghost use Rattle.std.specs.Prelude.{filter, not, option_map, List};
ghost use Rattle.std.specs.HashMap.{get};
ghost use Rattle.std.specs.List.{list_all};
ghost use Rattle.std.specs.Option.{option_map_or};
ghost use Rattle.resource_model.specs.Resource.{ResourceData, has_number, is_ty};
ghost use Rattle.m2m_names.specs.declared.types.Ty.TheVariants.{ContentInstance, PollingChannel};
ghost use Rattle.m2m_names.specs.declared.types.Ty.TheVariants.{Subscription};
ghost use Rattle.tree_model.specs.Tree.{at, instance_size, is_tree, may_stand, replaced, standing};
ghost use Rattle.resource_store.specs.KinRows.{row_of};
ghost use Rattle.resource_store.specs.declared.kin_row.KinRow.{KinRow};
ghost use Rattle.resource_tree.specs.Index as spec;
ghost use Rattle.resource_tree.specs.Index.{HasTypes, HasKin};
ghost use Rattle.resource_tree.specs.Queue.{queue_at, without_number};

use crate::queue::Queue;
use crate::sums::{add_sum, forget_sum, take_sum};
use m2m_names::Ty;
use resource_model::Resource;
use resource_store::{KinRow, NumberMap, Seeded, Store, row_of, size_in_bytes};
use std::alloc::{AllocError as OutOfMemory, Global};

/// Whether it is that of a resource of this type.
pub(crate) fn is_of(row: KinRow, ty: Ty) -> bool
    ensures { result ≡ is_ty row.ty ty }
{
    row.ty.number() == ty.number()
}

/// Of each parent the numbers of its children, and those of its instances, its subscriptions and
/// its polling channels; and what the sizes of its instances add up to.
#[derive(Drop)]
pub(crate) struct Kin {
    pub(crate) children: NumberMap<Queue>,
    pub(crate) instances: NumberMap<Queue>,
    pub(crate) subs: NumberMap<Queue>,
    pub(crate) channels: NumberMap<Queue>,
    // A container whose sum isn't here has no instance, or else they are added up when it is asked.
    pub(crate) sums: NumberMap<u128>,
}

impl Kin {
    /// That of no resource; it takes no memory.
    pub(crate) fn new(alloc: Global, seeded: Seeded) -> Kin
        ensures { HasKin [] result }
    {
        Kin {
            children: NumberMap::with_hasher(alloc, seeded),
            instances: NumberMap::with_hasher(alloc, seeded),
            subs: NumberMap::with_hasher(alloc, seeded),
            channels: NumberMap::with_hasher(alloc, seeded),
            sums: NumberMap::with_hasher(alloc, seeded),
        }
    }

    /// With a resource that comes last in this list. Where memory runs out, it is that of the list.
    pub(crate) fn add(
        &mut self,
        alloc: Global,
        list: &Store,
        resource: &Resource,
    ) -> Result<(), OutOfMemory>
        requires kin { HasKin list.now self.old }
        requires next { IsTrue (may_stand list.now resource.now) }
        ensures ok { OnOk result (HasKin (list.now ++ resource.now ∷ []) self.new) }
        ensures err { OnErr result (HasKin list.now self.new) }
    {
        let number = resource.number();
        let parent = resource.parent();
        let is_first = count_of_kin(&self.instances, parent) == 0;
        add_kin(alloc, &mut self.children, parent, number)?;
        if let Err(_) = self.add_by_type(alloc, list, resource) {
            take_kin(&mut self.children, parent, number);
            return Err(OutOfMemory);
        }
        self.add_sum(resource, is_first);
        Ok(())
    }

    // With the size of a resource, where it is an instance.
    fn add_sum(&mut self, resource: &Resource, is_first: bool)
        ensures children { self.new.children ≡ self.old.children }
        ensures instances { self.new.instances ≡ self.old.instances }
        ensures subs { self.new.subs ≡ self.old.subs }
        ensures channels { self.new.channels ≡ self.old.channels }
        ensures sums { (p s : ℕ) → get nat_eq self.new.sums p ≡ Some s
            → (if is_ty resource.now.ty ContentInstance && nat_eq resource.now.parent p
            then spec.grown_sum is_first (instance_size resource.now) (get nat_eq self.old.sums p)
            else get nat_eq self.old.sums p) ≡ Some s }
    {
        if resource.is(Ty::ContentInstance) {
            add_sum(
                &mut self.sums,
                resource.parent(),
                is_first,
                size_in_bytes(resource),
            );
        }
    }

    // The same among the children of its type.
    fn add_by_type(
        &mut self,
        alloc: Global,
        list: &Store,
        resource: &Resource,
    ) -> Result<(), OutOfMemory>
        requires types { HasTypes list.now self.old }
        requires next { IsTrue (may_stand list.now resource.now) }
        ensures children { self.new.children ≡ self.old.children }
        ensures sums { self.new.sums ≡ self.old.sums }
        ensures ok { OnOk result (HasTypes (list.now ++ resource.now ∷ []) self.new) }
        ensures err { OnErr result (HasTypes list.now self.new) }
    {
        let number = resource.number();
        let parent = resource.parent();
        let is_instance = resource.is(Ty::ContentInstance);
        add_if(alloc, &mut self.instances, is_instance, parent, number)?;
        let is_sub = resource.is(Ty::Subscription);
        if let Err(_) = add_if(alloc, &mut self.subs, is_sub, parent, number) {
            take_kin(&mut self.instances, parent, number);
            return Err(OutOfMemory);
        }
        let is_channel = resource.is(Ty::PollingChannel);
        if let Err(_) = add_if(alloc, &mut self.channels, is_channel, parent, number) {
            take_kin(&mut self.instances, parent, number);
            take_kin(&mut self.subs, parent, number);
            return Err(OutOfMemory);
        }
        Ok(())
    }

    /// Without the resource that came last behind this list.
    pub(crate) fn take_back(&mut self, list: &Store, resource: &Resource)
        requires kin { HasKin (list.now ++ resource.now ∷ []) self.old }
        requires next { IsTrue (may_stand list.now resource.now) }
        ensures { HasKin list.now self.new }
    {
        self.take(row_of(resource));
    }

    /// In this list a resource takes the place of another that stood as it does. The sizes of a
    /// container's instances are added up anew, when they are asked for, where it is an instance.
    pub(crate) fn replace(&mut self, list: &Store, resource: &Resource)
        requires kin { HasKin list.now self.old }
        requires stood { option_map standing (at resource.now.number list.now)
            ≡ Some (standing resource.now) }
        ensures { HasKin (replaced resource.now list.now) self.new }
    {
        if resource.is(Ty::ContentInstance) {
            forget_sum(&mut self.sums, resource.parent());
        }
    }

    /// Without the resource of a number, which goes alone. This is its row, where it was there. The
    /// row is told; that of none has no parent.
    pub(crate) fn remove(&mut self, number: u64, row: Option<KinRow>) -> KinRow
        ensures kin { (nodes : List ResourceData) → IsTrue (is_tree nodes) → HasKin nodes self.old
            → row ≡ option_map row_of (at number nodes)
            → HasKin (filter (λ r. not (has_number number r)) nodes) self.new }
        ensures parent { result.parent ≡ option_map_or (λ (r : KinRow). r.parent) row 0 }
    {
        match row {
            Some(row) => {
                self.take(row);
                row
            }
            None => KinRow {
                number,
                parent: 0,
                ty: Ty::CseBase,
                size: 0,
            },
        }
    }

    /// Takes a resource from its parent.
    pub(crate) fn take(&mut self, row: KinRow)
        ensures children { (p : ℕ) → queue_at self.new.children p
            ≡ if nat_eq row.parent p then without_number row.number (queue_at self.old.children p)
            else queue_at self.old.children p }
        ensures instances { (p : ℕ) → queue_at self.new.instances p
            ≡ if nat_eq row.parent p && is_ty row.ty ContentInstance
            then without_number row.number (queue_at self.old.instances p)
            else queue_at self.old.instances p }
        ensures subs { (p : ℕ) → queue_at self.new.subs p
            ≡ if nat_eq row.parent p && is_ty row.ty Subscription
            then without_number row.number (queue_at self.old.subs p)
            else queue_at self.old.subs p }
        ensures channels { (p : ℕ) → queue_at self.new.channels p
            ≡ if nat_eq row.parent p && is_ty row.ty PollingChannel
            then without_number row.number (queue_at self.old.channels p)
            else queue_at self.old.channels p }
        ensures sums { (p s : ℕ) → get nat_eq self.new.sums p ≡ Some s
            → option_map (λ t. t - (if nat_eq row.parent p && is_ty row.ty ContentInstance
            then row.size else 0)) (get nat_eq self.old.sums p) ≡ Some s }
    {
        take_kin(&mut self.children, row.parent, row.number);
        self.take_instance(row);
        take_if(&mut self.subs, is_of(row, Ty::Subscription), row);
        take_if(&mut self.channels, is_of(row, Ty::PollingChannel), row);
    }

    // Where it is an instance, it is taken from those of its parent, and its size from their sum.
    fn take_instance(&mut self, row: KinRow)
        ensures children { self.new.children ≡ self.old.children }
        ensures instances { (p : ℕ) → queue_at self.new.instances p
            ≡ if nat_eq row.parent p && is_ty row.ty ContentInstance
            then without_number row.number (queue_at self.old.instances p)
            else queue_at self.old.instances p }
        ensures subs { self.new.subs ≡ self.old.subs }
        ensures channels { self.new.channels ≡ self.old.channels }
        ensures sums { (p s : ℕ) → get nat_eq self.new.sums p ≡ Some s
            → option_map (λ t. t - (if nat_eq row.parent p && is_ty row.ty ContentInstance
            then row.size else 0)) (get nat_eq self.old.sums p) ≡ Some s }
    {
        if !is_of(row, Ty::ContentInstance) {
            return;
        }
        if takes_last(&mut self.instances, row.parent, row.number) {
            forget_sum(&mut self.sums, row.parent);
        } else {
            take_sum(&mut self.sums, row.parent, row.size);
        }
    }
}

/// The number of the child of a parent at a place, from 0.
pub(crate) fn kin_at(kin: &NumberMap<Queue>, parent: u64, k: u64) -> Option<u64>
    ensures { result ≡ slice_get (queue_at kin.now parent) k }
{
    match kin.get(&parent) {
        Some(queue) => queue.get(k),
        None => None,
    }
}

/// The number of the last child of a parent.
pub(crate) fn kin_last(kin: &NumberMap<Queue>, parent: u64) -> Option<u64>
    ensures { result
        ≡ slice_get (queue_at kin.now parent) (length (queue_at kin.now parent) - 1) }
{
    match kin.get(&parent) {
        Some(queue) => queue.get(queue.len().saturating_sub(1)),
        None => None,
    }
}

/// How many children a parent has.
pub(crate) fn count_of_kin(kin: &NumberMap<Queue>, parent: u64) -> u64
    ensures { result ≡ length (queue_at kin.now parent) }
{
    match kin.get(&parent) {
        Some(queue) => queue.len(),
        None => 0,
    }
}

/// One more child of a parent, whose number is greater than those of all others.
pub(crate) fn add_kin(
    alloc: Global,
    kin: &mut NumberMap<Queue>,
    parent: u64,
    number: u64,
) -> Result<(), OutOfMemory>
    requires { IsTrue (list_all (λ m. nat_lt m number) (queue_at kin.old parent)) }
    ensures ok { (p : ℕ) → OnOk result (queue_at kin.new p
        ≡ if nat_eq parent p then queue_at kin.old p ++ number ∷ [] else queue_at kin.old p) }
    ensures err { (p : ℕ) → OnErr result (queue_at kin.new p ≡ queue_at kin.old p) }
{
    if let Some(queue) = kin.get_mut(&parent) {
        return queue.push(number);
    }
    let mut queue = Queue::new(alloc);
    queue.push(number)?;
    kin.insert(parent, queue)?;
    Ok(())
}

/// The same, where it is one of these.
pub(crate) fn add_if(
    alloc: Global,
    kin: &mut NumberMap<Queue>,
    is_one: bool,
    parent: u64,
    number: u64,
) -> Result<(), OutOfMemory>
    requires { IsTrue (list_all (λ m. nat_lt m number) (queue_at kin.old parent)) }
    ensures ok { (p : ℕ) → OnOk result (queue_at kin.new p ≡ if nat_eq parent p && is_one
        then queue_at kin.old p ++ number ∷ [] else queue_at kin.old p) }
    ensures err { (p : ℕ) → OnErr result (queue_at kin.new p ≡ queue_at kin.old p) }
{
    if is_one {
        return add_kin(alloc, kin, parent, number);
    }
    Ok(())
}

/// One child of a parent less, where it is there. A parent without any takes no room.
pub(crate) fn take_kin(kin: &mut NumberMap<Queue>, parent: u64, number: u64)
    ensures { (p : ℕ) → queue_at kin.new p
        ≡ if nat_eq parent p then without_number number (queue_at kin.old p)
        else queue_at kin.old p }
{
    let _last = takes_last(kin, parent, number);
}

// Takes a number from those of a parent, as take_kin does, and tells whether none is left.
fn takes_last(kin: &mut NumberMap<Queue>, parent: u64, number: u64) -> bool
    ensures { (p : ℕ) → queue_at kin.new p
        ≡ if nat_eq parent p then without_number number (queue_at kin.old p)
        else queue_at kin.old p }
{
    let is_last = take_from(kin, parent, number);
    if is_last {
        let _empty = kin.remove(&parent);
    }
    is_last
}

// Takes a row's number from those of its parent, where the row is one of these.
fn take_if(kin: &mut NumberMap<Queue>, is_one: bool, row: KinRow)
    ensures { (p : ℕ) → queue_at kin.new p ≡ if nat_eq row.parent p && is_one
        then without_number row.number (queue_at kin.old p) else queue_at kin.old p }
{
    if is_one {
        take_kin(kin, row.parent, row.number);
    }
}

// Whether none is left then.
fn take_from(kin: &mut NumberMap<Queue>, parent: u64, number: u64) -> bool
    ensures queues { (p : ℕ) → queue_at kin.new p
        ≡ if nat_eq parent p then without_number number (queue_at kin.old p)
        else queue_at kin.old p }
    ensures none { IsTrue result → length (queue_at kin.new parent) ≡ 0 }
{
    match kin.get_mut(&parent) {
        Some(queue) => {
            queue.remove(number);
            queue.len() == 0
        }
        None => false,
    }
}

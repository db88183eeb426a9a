//! The outbox.
ghost use Rattle.std.specs.Prelude.{◌≡◌, ◌+◌, ◌<◌, ◌≤◌, true, min, [], ◌∷◌, ◌++◌, length, find};
ghost use Rattle.std.specs.Prelude.{IfOk, OnErr, OnOk, option_map};
ghost use Rattle.m2m_value.specs.Shapes.{largest_count};
ghost use Rattle.std.specs.List.{AllByRecursion};
ghost use Rattle.notify_outbox.specs.Items.{is_item, is_to_send, waits_for};
ghost use Rattle.notify_outbox.specs.Outbox.{appended, dropped, first_note, taken};
ghost use Rattle.notify_outbox.specs.declared.item.Item.{Item};

use crate::aging::{drop_front, drop_until};
use crate::copying::{copied_items, copied_queues};
use crate::item::Item;
use crate::late::{late_for, late_to_send, take_late, take_late_for, take_late_to_send};
use crate::numbering::{note_channel, under_id};
use crate::places::{first_for, first_of_all, first_to_send};
use crate::queues::{Queue, count_all, front_at, join_items, pop, put};
use crate::stock::{LAST_NUMBER, next_id, node_of, stock_ids, stock_nodes};
use m2m_value::Text;
use primitive_json::Note;
use std::alloc::{AllocError as OutOfMemory, Global};
use std::collections::{LinkedList, VecDeque};
use std::marker::Model;
use tree_model::Tree;

/// For how long an item is kept, in seconds.
pub const KEEPING_TIME: u64 = 86400;

/// The items that wait to be sent or polled.
#[derive(Drop)]
pub struct Outbox {
    queues: Vec<Queue>,
    // Those that have the last number, but for the first of them, which is in its queue.
    late: LinkedList<Item>,
    // No item was appended before this moment.
    oldest: u64,
    // How many items were ever numbered.
    count: u64,
    // The identifiers of the requests to come, and nodes for their items.
    ids: VecDeque<Text>,
    nodes: LinkedList<Item>,
}

impl Model for Outbox {
    ghost use Rattle.std.specs.Prelude.{◌+◌, ◌≤◌, ◌++◌, length, vec_capacity};
    ghost use Rattle.m2m_value.specs.Code.{data_code};
    ghost use Rattle.std.specs.Coded.{codes};
    ghost use Rattle.notify_outbox.specs.Outbox.{OutboxData};

    ghost Value = { OutboxData };

    ghost coded = { Prim.hlevel (codes, data_code) };

    ghost use Rattle.m2m_value.specs.Shapes.{largest_count};
    ghost use Rattle.notify_outbox.specs.Queues.{joined, in_order, AreKept, AreIds, AreLate};

    ghost view = { λ o. record {
      items = in_order (joined o.queues.items) ++ o.late;
      count = o.count;
      room = length o.nodes;
    } };

    ghost invariant = { λ o. AreKept o.queues.items o.count o.oldest
        × AreIds o.count o.ids.items
        × (length o.nodes ≤ length o.ids.items)
        × (length (joined o.queues.items) + length o.late + length o.nodes ≤ largest_count)
        × (length o.queues.items + length o.nodes ≤ vec_capacity o.queues)
        × (o.count ≤ largest_count)
        × AreLate o.late o.count o.oldest };
}

fn least_of(a: u64, b: u64) -> u64
    ensures { result ≡ min a b }
{
    a.min(b)
}

// The note of an item that was taken.
#[inline(always)]
fn note_of(item: Option<Item>) -> Option<Note>
    ensures { result ≡ option_map (λ (i : Item). i.note) item }
{
    match item {
        Some(item) => Some(item.note),
        None => None,
    }
}

// The note of an item, where there is one.
fn noted(item: Option<&Item>) -> Option<&Note>
    ensures { option_map (λ n. n.now) result ≡ option_map (λ i. i.now.note) item.entry }
{
    match item {
        Some(item) => Some(&item.note),
        None => None,
    }
}

impl Outbox {
    /// No items; no memory is taken.
    pub fn new(alloc: Global) -> Outbox
        ensures { result ≡ record { items = []; count = 0; room = 0 } }
    {
        Outbox {
            queues: Vec::new(alloc),
            late: LinkedList::new(alloc),
            oldest: 0,
            count: 0,
            ids: VecDeque::new(alloc),
            nodes: LinkedList::new(alloc),
        }
    }

    /// Room for so many items and for the identifiers of their requests.
    pub fn reserve(&mut self, alloc: Global, n: u64) -> Result<(), OutOfMemory>
        ensures room { OnOk result (n ≤ self.new.room) }
        ensures more { self.old.room ≤ self.new.room }
        ensures items { self.new.items ≡ self.old.items }
        ensures count { self.new.count ≡ self.old.count }
    {
        if !self.can_hold(n) {
            return Err(OutOfMemory);
        }
        if n <= self.nodes.len() as u64 {
            return Ok(());
        }
        self.queues.reserve(n as usize)?;
        stock_ids(alloc, &mut self.ids, self.count, n)?;
        stock_nodes(alloc, &mut self.nodes, n)
    }

    // Whether there can be so many items more: no memory is for more than 2^63 - 1.
    fn can_hold(&self, n: u64) -> bool
        ensures { result ≡ true → length self.now.items + n ≤ largest_count }
    {
        n <= LAST_NUMBER - self.count || n <= LAST_NUMBER - self.len()
    }

    /// Appends a note at a moment, which isn't before that of any item; its request gets the next
    /// number as its identifier. No memory is taken.
    #[inline(always)]
    pub fn append(&mut self, note: Note, since: u64)
        requires room { 0 < self.old.room }
        requires order { AllByRecursion (λ (i : Item). i.since ≤ since) self.old.items }
        ensures { self.new ≡ appended note since self.old }
    {
        if self.count < LAST_NUMBER {
            self.append_next(note, since);
        } else {
            self.append_late(note, since);
        }
    }

    // Appends it under a number that no item had before. A note is large: it isn't moved to a call of
    // its own.
    #[inline(always)]
    fn append_next(&mut self, note: Note, since: u64)
        requires room { 0 < self.old.room }
        requires order { AllByRecursion (λ (i : Item). i.since ≤ since) self.old.items }
        requires more { self.old.count < largest_count }
        ensures { self.new ≡ appended note since self.old }
    {
        let number = self.count + 1;
        let channel = note_channel(&note);
        let id = next_id(&mut self.ids);
        let known = under_id(note, id);
        let item = Item {
            number,
            since,
            note: known,
        };
        let node = node_of(&mut self.nodes, item);
        put(&mut self.queues, channel, node);
        self.count = number;
        let oldest = least_of(self.oldest, since);
        self.oldest = oldest;
    }

    // Appends it under the last number, which was given already.
    #[cold]
    fn append_late(&mut self, note: Note, since: u64)
        requires room { 0 < self.old.room }
        requires order { AllByRecursion (λ (i : Item). i.since ≤ since) self.old.items }
        requires full { self.old.count ≡ largest_count }
        ensures { self.new ≡ appended note since self.old }
    {
        let id = next_id(&mut self.ids);
        let known = under_id(note, id);
        let item = Item {
            number: LAST_NUMBER,
            since,
            note: known,
        };
        let node = node_of(&mut self.nodes, item);
        join_items(&mut self.late, node);
        let oldest = least_of(self.oldest, since);
        self.oldest = oldest;
    }

    /// Takes the first item that isn't for a polling channel of the tree.
    pub fn take_next<T: Tree>(&mut self, tree: &T) -> Option<Note>
        ensures note { result ≡ first_note (is_to_send (T.nodes tree.now)) self.old }
        ensures rest { self.new ≡ taken (is_to_send (T.nodes tree.now)) self.old }
    {
        note_of(self.take_item_to_send(tree))
    }

    /// Takes the first item, wherever it leads.
    pub fn take_first(&mut self) -> Option<Note>
        ensures note { result ≡ first_note is_item self.old }
        ensures rest { self.new ≡ taken is_item self.old }
    {
        note_of(self.take_item())
    }

    /// Takes the first item for a polling channel.
    pub fn take_for(&mut self, channel: u64) -> Option<Note>
        ensures note { result ≡ first_note (waits_for channel) self.old }
        ensures rest { self.new ≡ taken (waits_for channel) self.old }
    {
        note_of(self.take_item_for(channel))
    }

    /// Takes the first item, wherever it leads, with its number and its moment.
    #[inline(always)]
    pub fn take_item(&mut self) -> Option<Item>
        ensures item { result ≡ find is_item self.old.items }
        ensures rest { self.new ≡ taken is_item self.old }
    {
        match first_of_all(&self.queues) {
            Some(best) => Some(pop(&mut self.queues, best.0)),
            None => take_late(&mut self.late),
        }
    }

    // The same for a polling channel.
    fn take_item_for(&mut self, channel: u64) -> Option<Item>
        ensures item { result ≡ find (waits_for channel) self.old.items }
        ensures rest { self.new ≡ taken (waits_for channel) self.old }
    {
        match first_for(&self.queues, channel) {
            Some(best) => Some(pop(&mut self.queues, best.0)),
            None => take_late_for(&mut self.late, channel),
        }
    }

    // The same for no polling channel of the tree.
    #[inline(always)]
    fn take_item_to_send<T: Tree>(&mut self, tree: &T) -> Option<Item>
        ensures item { result ≡ find (is_to_send (T.nodes tree.now)) self.old.items }
        ensures rest { self.new ≡ taken (is_to_send (T.nodes tree.now)) self.old }
    {
        match first_to_send(&self.queues, tree) {
            Some(best) => Some(pop(&mut self.queues, best.0)),
            None => take_late_to_send(&mut self.late, tree),
        }
    }

    /// Drops what has waited the keeping time at a moment. No memory is taken.
    pub fn drop_old(&mut self, moment: u64)
        ensures { self.new ≡ dropped moment self.old }
    {
        if moment < KEEPING_TIME {
            return;
        }
        let limit = moment - KEEPING_TIME;
        if limit < self.oldest {
            return;
        }
        drop_until(&mut self.queues, limit);
        drop_front(&mut self.late, limit);
        self.oldest = limit + 1;
    }

    /// How many items there are.
    pub fn len(&self) -> u64
        ensures { result ≡ length self.now.items }
    {
        count_all(&self.queues) + self.late.len() as u64
    }

    /// How many items were ever numbered.
    pub fn count(&self) -> u64
        ensures value { result ≡ self.now.count }
        ensures bound { result ≤ largest_count }
    {
        self.count
    }

    /// The note that `take_for` would give, which stays.
    pub fn first_for(&self, channel: u64) -> Option<&Note>
        ensures { option_map (λ n. n.now) result ≡ first_note (waits_for channel) self.now }
    {
        match first_for(&self.queues, channel) {
            Some(best) => Some(&front_at(&self.queues, best.0).note),
            None => noted(late_for(&self.late, channel)),
        }
    }

    /// The item whose note `take_next` would give, which stays.
    pub fn first_to_send<T: Tree>(&self, tree: &T) -> Option<&Item>
        ensures { option_map (λ i. i.now) result
            ≡ find (is_to_send (T.nodes tree.now)) self.now.items }
    {
        match first_to_send(&self.queues, tree) {
            Some(best) => Some(front_at(&self.queues, best.0)),
            None => late_to_send(&self.late, tree),
        }
    }

    /// An equal outbox, in which there is no room.
    pub fn copy(&self, alloc: Global) -> Result<Outbox, OutOfMemory>
        ensures { IfOk result (λ o. o ≡ record self.now { room = 0 }) }
    {
        Ok(Outbox {
            queues: copied_queues(alloc, &self.queues)?,
            late: copied_items(alloc, &self.late)?,
            oldest: self.oldest,
            count: self.count,
            ids: VecDeque::new(alloc),
            nodes: LinkedList::new(alloc),
        })
    }

    /// Puts an item behind the others that had its number and its moment before. More were numbered
    /// than before, and none was appended after it. Then there is no room.
    pub fn put_back(&mut self, alloc: Global, item: Item) -> Result<(), OutOfMemory>
        requires number { self.old.count < item.number }
        requires top { item.number ≤ largest_count }
        requires order { AllByRecursion (λ (i : Item). i.since ≤ item.since) self.old.items }
        ensures ok { OnOk result (self.new ≡ record {
          items = self.old.items ++ item ∷ [];
          count = item.number;
          room = 0;
        }) }
        ensures err { OnErr result (self.new ≡ self.old) }
    {
        let (own, moment) = (item.number, item.since);
        let channel = note_channel(&item.note);
        let mut node = LinkedList::new(alloc);
        node.push_back(item)?;
        self.queues.reserve(1)?;
        put(&mut self.queues, channel, node);
        self.ids = VecDeque::new(alloc);
        self.nodes = LinkedList::new(alloc);
        self.count = own;
        let oldest = least_of(self.oldest, moment);
        self.oldest = oldest;
        Ok(())
    }

    /// So many items were numbered, which isn't fewer than before. Then there is no room.
    pub fn count_up_to(&mut self, alloc: Global, count: u64)
        requires more { self.old.count ≤ count }
        requires top { count ≤ largest_count }
        ensures { self.new ≡ record { items = self.old.items; count = count; room = 0 } }
    {
        self.ids = VecDeque::new(alloc);
        self.nodes = LinkedList::new(alloc);
        self.count = count;
    }
}

//! Items that came when the last number was given already, and have it too: in one list, in the
//! order in which they were appended.
ghost use Rattle.std.specs.Prelude.{◌≡◌, ◌+◌, ◌≤◌, ◌++◌, length, take, drop, find, option_map};
ghost use Rattle.std.specs.Prelude.{slice_get};
ghost use Rattle.std.specs.List.{position_or_len};
ghost use Rattle.m2m_value.specs.Shapes.{largest_count};
ghost use Rattle.notify_outbox.specs.Items as spec;
ghost use Rattle.notify_outbox.specs.Items.{is_item, waits_for};
ghost use Rattle.notify_outbox.specs.Outbox.{without_first};
ghost use Rattle.notify_outbox.specs.declared.item.Item.{Item};

use crate::item::Item;
use crate::numbering::note_channel;
use crate::places::{is_numbered, is_open};
use crate::queues::join_items;
use std::collections::LinkedList;
use tree_model::Tree;

fn does_wait_for(item: &Item, channel: u64) -> bool
    ensures { result ≡ waits_for channel item.now }
{
    is_numbered(note_channel(&item.note), channel)
}

fn is_to_send<T: Tree>(item: &Item, tree: &T) -> bool
    ensures { result ≡ spec.is_to_send (T.nodes tree.now) item.now }
{
    is_open(note_channel(&item.note), tree)
}

/// The first that waits for a channel, which stays.
pub(crate) fn late_for(late: &LinkedList<Item>, channel: u64) -> Option<&Item>
    ensures { option_map (λ i. i.now) result ≡ find (waits_for channel) late.now }
{
    late.iter().find(|item| does_wait_for(item, channel))
}

/// The first that waits for no channel of the tree, which stays.
pub(crate) fn late_to_send<'a, T: Tree>(late: &'a LinkedList<Item>, tree: &T) -> Option<&'a Item>
    ensures { option_map (λ i. i.now) result
        ≡ find (spec.is_to_send (T.nodes tree.now)) late.now }
{
    late.iter().find(|item| is_to_send(item, tree))
}

// The place of the first that waits for a channel, or the length where none does.
fn place_for(late: &LinkedList<Item>, channel: u64) -> usize
    ensures value { result ≡ position_or_len (waits_for channel) late.now }
    ensures bound { result ≤ length late.now }
{
    late.iter()
        .take_while(|item| !does_wait_for(item, channel))
        .count()
}

// The same of the first that waits for no channel of the tree.
fn place_to_send<T: Tree>(late: &LinkedList<Item>, tree: &T) -> usize
    ensures value { result ≡ position_or_len (spec.is_to_send (T.nodes tree.now)) late.now }
    ensures bound { result ≤ length late.now }
{
    late.iter()
        .take_while(|item| !is_to_send(item, tree))
        .count()
}

// What stands behind the first so many.
fn cut_behind(late: &mut LinkedList<Item>, place: usize) -> LinkedList<Item>
    requires { place ≤ length late.old }
    ensures front { late.new ≡ take place late.old }
    ensures behind { result ≡ drop place late.old }
{
    match late.split_off(place) {
        Ok(behind) => behind,
        Err(_) => unreachable!(),
    }
}

// Takes the item at a place, where one stands there.
fn take_at(late: &mut LinkedList<Item>, place: usize) -> Option<Item>
    requires within { place ≤ length late.old }
    requires short { length late.old ≤ largest_count }
    ensures item { result ≡ slice_get late.old place }
    ensures rest { late.new ≡ take place late.old ++ drop (place + 1) late.old }
{
    let mut behind = cut_behind(late, place);
    let item = behind.pop_front();
    join_items(late, behind);
    item
}

/// Takes the first.
#[tactic(auto, using(crate::proofs::LateLemmas::taken_at))]
pub(crate) fn take_late(late: &mut LinkedList<Item>) -> Option<Item>
    requires { length late.old ≤ largest_count }
    ensures item { result ≡ find is_item late.old }
    ensures rest { late.new ≡ without_first is_item late.old }
{
    take_at(late, 0)
}

/// Takes the first that waits for a channel.
#[tactic(auto, using(crate::proofs::LateLemmas::taken_at))]
pub(crate) fn take_late_for(late: &mut LinkedList<Item>, channel: u64) -> Option<Item>
    requires { length late.old ≤ largest_count }
    ensures item { result ≡ find (waits_for channel) late.old }
    ensures rest { late.new ≡ without_first (waits_for channel) late.old }
{
    let place = place_for(late, channel);
    take_at(late, place)
}

/// Takes the first that waits for no channel of the tree.
#[tactic(auto, using(crate::proofs::LateLemmas::taken_at))]
pub(crate) fn take_late_to_send<T: Tree>(late: &mut LinkedList<Item>, tree: &T) -> Option<Item>
    requires { length late.old ≤ largest_count }
    ensures item { result ≡ find (spec.is_to_send (T.nodes tree.now)) late.old }
    ensures rest { late.new ≡ without_first (spec.is_to_send (T.nodes tree.now)) late.old }
{
    let place = place_to_send(late, tree);
    take_at(late, place)
}

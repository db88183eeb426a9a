//! Items in queues, one for each channel and one for no channel.
ghost use Rattle.std.specs.Prelude.{◌≡◌, ◌+◌, ◌^◌, ◌<◌, ◌≤◌, [], ◌∷◌, ◌++◌, length, take};
ghost use Rattle.std.specs.Prelude.{slice_index_or, true, false, vec_capacity, IfSome};
ghost use Rattle.std.specs.List.{AllByRecursion};
ghost use Rattle.notify_outbox.specs.Queues.{joined, IsQueue, Pops, Puts};
ghost use Rattle.notify_outbox.specs.declared.queues.Queue.{Queue};

use crate::item::Item;
use std::collections::LinkedList;

/// Items that wait for one channel, or for none, in the order in which they were appended.
#[derive(Drop)]
pub(crate) struct Queue {
    pub(crate) channel: Option<u64>,
    pub(crate) items: LinkedList<Item>,
}

fn is_of(queue: &Queue, channel: Option<u64>) -> bool
    ensures { result ≡ true → queue.now.channel ≡ channel }
{
    queue.channel == channel
}

// The place of a queue of this channel.
fn place_of(queues: &[Queue], channel: Option<u64>) -> Option<usize>
    ensures { IfSome result (λ i. (i < length queues.now) × ((d : Queue)
        → (slice_index_or queues.now i d).channel ≡ channel)) }
{
    for (i, queue) in queues.iter().enumerate() {
        if is_of(queue, channel) {
            return Some(i);
        }
    }
    None
}

/// Puts items behind others. No memory is taken.
pub(crate) fn join_items(items: &mut LinkedList<Item>, behind: LinkedList<Item>)
    requires { length items.old + length behind < 2 ^ 63 }
    ensures { items.new ≡ items.old ++ behind }
{
    let mut behind = behind;
    let _joined = items.append(&mut behind);
}

// Puts items behind those of a queue.
fn join(queue: &mut Queue, node: LinkedList<Item>)
    requires { length queue.old.items + length node < 2 ^ 63 }
    ensures channel { queue.new.channel ≡ queue.old.channel }
    ensures items { queue.new.items ≡ queue.old.items ++ node }
{
    join_items(&mut queue.items, node);
}

// Puts items behind those of the queue at a place.
fn put_at(queues: &mut Vec<Queue>, place: usize, node: LinkedList<Item>)
    requires within { place < length queues.old.items }
    requires short { length (joined queues.old.items) + length node < 2 ^ 63 }
    ensures put { (d : Queue) → Puts (slice_index_or queues.old.items place d).channel node
        queues.old.items queues.new.items }
    ensures room { vec_capacity queues.new ≡ vec_capacity queues.old }
    ensures many { length queues.new.items ≡ length queues.old.items }
{
    let queue = &mut queues[place];
    join(queue, node);
}

// Puts a queue behind the others.
fn push(queues: &mut Vec<Queue>, queue: Queue)
    requires { length queues.old.items < vec_capacity queues.old }
    ensures items { queues.new.items ≡ queues.old.items ++ queue ∷ [] }
    ensures room { vec_capacity queues.old ≤ vec_capacity queues.new }
{
    let _pushed = queues.push(queue);
}

/// Puts items behind the others of their channel.
pub(crate) fn put(queues: &mut Vec<Queue>, channel: Option<u64>, node: LinkedList<Item>)
    requires room { length queues.old.items < vec_capacity queues.old }
    requires short { length (joined queues.old.items) + length node < 2 ^ 63 }
    ensures put { Puts channel node queues.old.items queues.new.items }
    ensures room { vec_capacity queues.old ≤ vec_capacity queues.new }
    ensures many { length queues.new.items ≤ length queues.old.items + 1 }
{
    match place_of(queues, channel) {
        Some(place) => put_at(queues, place, node),
        None => push(
            queues,
            Queue {
                channel,
                items: node,
            },
        ),
    }
}

// Takes the first item of a queue.
fn first_of(queue: &mut Queue) -> Item
    requires { 0 < length queue.old.items }
    ensures channel { queue.new.channel ≡ queue.old.channel }
    ensures items { queue.old.items ≡ result ∷ queue.new.items }
{
    match queue.items.pop_front() {
        Some(item) => item,
        None => unreachable!(),
    }
}

// Takes the first item of the queue at a place.
fn shift(queues: &mut Vec<Queue>, place: usize) -> Item
    requires within { place < length queues.old.items }
    requires some { (d : Queue) → 0 < length (slice_index_or queues.old.items place d).items }
    ensures popped { Pops place queues.old.items queues.new.items result }
    ensures room { vec_capacity queues.new ≡ vec_capacity queues.old }
    ensures many { length queues.new.items ≡ length queues.old.items }
{
    let queue = &mut queues[place];
    first_of(queue)
}

fn is_filled_at(queues: &Vec<Queue>, place: usize) -> bool
    requires { place < length queues.now.items }
    ensures { result ≡ false → (d : Queue)
        → (slice_index_or queues.now.items place d).items ≡ [] }
{
    !queues[place].items.is_empty()
}

/// Removes the queue at a place, where it is empty.
pub(crate) fn tidy(queues: &mut Vec<Queue>, place: usize)
    requires { place < length queues.old.items }
    ensures same { joined queues.new.items ≡ joined queues.old.items }
    ensures each { AllByRecursion IsQueue queues.old.items
        → AllByRecursion IsQueue queues.new.items }
    ensures room { vec_capacity queues.new ≡ vec_capacity queues.old }
    ensures many { length queues.new.items ≤ length queues.old.items }
    ensures less { length queues.old.items ≤ length queues.new.items + 1 }
{
    if is_filled_at(queues, place) {
        return;
    }
    let _empty = queues.remove(place);
}

/// Takes the first item of the queue at a place.
pub(crate) fn pop(queues: &mut Vec<Queue>, place: usize) -> Item
    requires within { place < length queues.old.items }
    requires some { (d : Queue) → 0 < length (slice_index_or queues.old.items place d).items }
    ensures popped { Pops place queues.old.items queues.new.items result }
    ensures room { vec_capacity queues.new ≡ vec_capacity queues.old }
    ensures many { length queues.new.items ≤ length queues.old.items }
{
    let item = shift(queues, place);
    tidy(queues, place);
    item
}

// The first item of a queue.
fn front_of(queue: &Queue) -> &Item
    requires { 0 < length queue.now.items }
    ensures { take 1 queue.now.items ≡ result.now ∷ [] }
{
    match queue.items.front() {
        Some(item) => item,
        None => unreachable!(),
    }
}

/// The first item of the queue at a place.
pub(crate) fn front_at(queues: &Vec<Queue>, place: usize) -> &Item
    requires within { place < length queues.now.items }
    requires some { (d : Queue) → 0 < length (slice_index_or queues.now.items place d).items }
    ensures { (d : Queue)
        → take 1 (slice_index_or queues.now.items place d).items ≡ result.now ∷ [] }
{
    front_of(&queues[place])
}

/// How many items there are in all.
pub(crate) fn count_all(queues: &[Queue]) -> u64
    requires { length (joined queues.now) < 2 ^ 63 }
    ensures { result ≡ length (joined queues.now) }
{
    let mut count = 0;
    for queue in queues {
        count += queue.items.len() as u64;
    }
    count
}

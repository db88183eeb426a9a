//! What has waited too long.
ghost use Rattle.std.specs.Prelude.{◌≡◌, ◌<◌, ◌≤◌, length, map, drop, true, false, vec_capacity};
ghost use Rattle.std.specs.List.{AllByRecursion};
ghost use Rattle.notify_outbox.specs.Queues.{fresh, freshened, joined, IsQueue};

use crate::item::Item;
use crate::queues::{Queue, tidy};
use std::collections::LinkedList;

// Whether the first item was appended at this moment or before.
fn is_old(items: &LinkedList<Item>, limit: u64) -> bool
    ensures some { result ≡ true → 0 < length items.now }
    ensures drops { result ≡ true → fresh limit items.now ≡ fresh limit (drop 1 items.now) }
    ensures keeps { result ≡ false → fresh limit items.now ≡ items.now }
{
    match items.front() {
        Some(item) => item.since <= limit,
        None => false,
    }
}

/// Takes those from the front that were appended at this moment or before.
pub(crate) fn drop_front(items: &mut LinkedList<Item>, limit: u64)
    ensures { items.new ≡ fresh limit items.old }
{
    'front: while is_old(items, limit) {
        let _old = items.pop_front();
    }
}

fn freshen(queue: &mut Queue, limit: u64)
    ensures channel { queue.new.channel ≡ queue.old.channel }
    ensures items { queue.new.items ≡ fresh limit queue.old.items }
{
    drop_front(&mut queue.items, limit);
}

// Does so in each queue.
fn drop_fronts(queues: &mut Vec<Queue>, limit: u64)
    ensures items { queues.new.items ≡ map (freshened limit) queues.old.items }
    ensures room { vec_capacity queues.new ≡ vec_capacity queues.old }
{
    let mut place = 0;
    'each: while place < queues.len() {
        let queue = &mut queues[place];
        freshen(queue, limit);
        place += 1;
    }
}

// Removes the queues that are empty.
fn tidy_all(queues: &mut Vec<Queue>)
    ensures same { joined queues.new.items ≡ joined queues.old.items }
    ensures each { AllByRecursion IsQueue queues.old.items
        → AllByRecursion IsQueue queues.new.items }
    ensures room { vec_capacity queues.new ≡ vec_capacity queues.old }
    ensures many { length queues.new.items ≤ length queues.old.items }
{
    let mut place = queues.len();
    'places: while 0 < place {
        place -= 1;
        tidy(queues, place);
    }
}

/// Drops what was appended at this moment or before.
pub(crate) fn drop_until(queues: &mut Vec<Queue>, limit: u64)
    ensures same { joined queues.new.items ≡ joined (map (freshened limit) queues.old.items) }
    ensures each { AllByRecursion IsQueue (map (freshened limit) queues.old.items)
        → AllByRecursion IsQueue queues.new.items }
    ensures room { vec_capacity queues.new ≡ vec_capacity queues.old }
    ensures many { length queues.new.items ≤ length queues.old.items }
{
    drop_fronts(queues, limit);
    tidy_all(queues);
}

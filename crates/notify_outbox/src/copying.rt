//! Copies of items and queues.
ghost use Rattle.std.specs.Prelude.{◌≡◌, IfOk};

use crate::item::Item;
use crate::queues::Queue;
use std::alloc::{AllocError as OutOfMemory, Global};
use std::collections::LinkedList;

fn copied_item(alloc: Global, item: &Item) -> Result<Item, OutOfMemory>
    ensures { IfOk result (λ i. i ≡ item.now) }
{
    Ok(Item {
        number: item.number,
        since: item.since,
        note: item.note.copy(alloc)?,
    })
}

/// Equal items.
pub(crate) fn copied_items(
    alloc: Global,
    items: &LinkedList<Item>,
) -> Result<LinkedList<Item>, OutOfMemory>
    ensures { IfOk result (λ l. l ≡ items.now) }
{
    let mut copies = LinkedList::new(alloc);
    for item in items.iter() {
        copies.push_back(copied_item(alloc, item)?)?;
    }
    Ok(copies)
}

fn copied_queue(alloc: Global, queue: &Queue) -> Result<Queue, OutOfMemory>
    ensures { IfOk result (λ q. q ≡ queue.now) }
{
    Ok(Queue {
        channel: queue.channel,
        items: copied_items(alloc, &queue.items)?,
    })
}

/// Equal queues.
pub(crate) fn copied_queues(alloc: Global, queues: &[Queue]) -> Result<Vec<Queue>, OutOfMemory>
    ensures { IfOk result (λ v. v.items ≡ queues.now) }
{
    let mut copies = Vec::with_capacity(alloc, queues.len())?;
    for queue in queues {
        copies.push(copied_queue(alloc, queue)?)?;
    }
    Ok(copies)
}

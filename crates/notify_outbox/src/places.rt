//! The queue whose first item comes first.
ghost use Rattle.std.specs.Prelude.{◌≡◌, None};
ghost use Rattle.notify_outbox.specs.Items.{is_any, is_numbered, is_open};
ghost use Rattle.notify_outbox.specs.Queues as spec;
ghost use Rattle.notify_outbox.specs.Queues.{least_from};

use crate::queues::Queue;
use m2m_names::Ty;
use tree_model::{Tree, typed_at};

// The better of the best so far, a place and a number, and the first item of a queue at this place.
fn better(best: Option<(usize, u64)>, place: usize, queue: &Queue) -> Option<(usize, u64)>
    ensures { result ≡ spec.better best place queue.now.items }
{
    let Some(item) = queue.items.front() else {
        return best;
    };
    match best {
        Some((_, number)) if number <= item.number => best,
        _ => Some((place, item.number)),
    }
}

/// Whether it is the channel of a number.
pub(crate) fn is_numbered(channel: Option<u64>, number: u64) -> bool
    ensures { result ≡ is_numbered number channel }
{
    match channel {
        Some(n) => number == n,
        None => false,
    }
}

/// Whether it isn't a polling channel of the tree.
pub(crate) fn is_open<T: Tree>(channel: Option<u64>, tree: &T) -> bool
    ensures { result ≡ is_open (T.nodes tree.now) channel }
{
    match channel {
        Some(n) => typed_at(tree, Ty::PollingChannel, n).is_none(),
        None => true,
    }
}

/// The place of the queue of a channel whose first item has the least number, and that number.
pub(crate) fn first_for(queues: &[Queue], channel: u64) -> Option<(usize, u64)>
    ensures { result ≡ least_from (is_numbered channel) None 0 queues.now }
{
    let mut best = None;
    for (place, queue) in queues.iter().enumerate() {
        if is_numbered(queue.channel, channel) {
            best = better(best, place, queue);
        }
    }
    best
}

/// The place of the queue for no channel of the tree whose first item has the least number, and
/// that number.
pub(crate) fn first_to_send<T: Tree>(queues: &[Queue], tree: &T) -> Option<(usize, u64)>
    ensures { result ≡ least_from (is_open (T.nodes tree.now)) None 0 queues.now }
{
    let mut best = None;
    for (place, queue) in queues.iter().enumerate() {
        if is_open(queue.channel, tree) {
            best = better(best, place, queue);
        }
    }
    best
}

/// The place of the queue whose first item has the least number, and that number.
pub(crate) fn first_of_all(queues: &[Queue]) -> Option<(usize, u64)>
    ensures { result ≡ least_from is_any None 0 queues.now }
{
    let mut best = None;
    for (place, queue) in queues.iter().enumerate() {
        best = better(best, place, queue);
    }
    best
}

//! The item that is sent next.
ghost use Rattle.std.specs.Prelude.{◌≡◌, IfOk, option_map};
ghost use Rattle.journal_events.specs.Steps as spec;

use entity_model::{Entity, take_next};
use notify_outbox::Item;
use std::alloc::{AllocError as OutOfMemory, Global};
use tree_model::Tree;

/// The item that is sent next.
fn next_item<T: Tree>(entity: &Entity<T>) -> Option<&Item>
    ensures { option_map (λ i. i.now) result ≡ spec.next_item entity.now }
{
    entity.outbox.first_to_send(&entity.tree)
}

/// An equal item.
fn copied(alloc: Global, item: &Item) -> Result<Item, OutOfMemory>
    ensures { IfOk result (λ i. i ≡ item.now) }
{
    Ok(Item {
        number: item.number,
        since: item.since,
        note: item.note.copy(alloc)?,
    })
}

/// An item that equals the one that is sent next.
pub(crate) fn copied_next<T: Tree>(
    alloc: Global,
    entity: &Entity<T>,
) -> Result<Option<Item>, OutOfMemory>
    ensures { IfOk result (λ given. given ≡ spec.next_item entity.now) }
{
    match next_item(entity) {
        Some(item) => Ok(Some(copied(alloc, item)?)),
        None => Ok(None),
    }
}

/// Whether the item that is sent next has this number.
fn is_next<T: Tree>(entity: &Entity<T>, number: u64) -> bool
    ensures { result ≡ spec.is_next number entity.now }
{
    match next_item(entity) {
        Some(item) => item.number == number,
        None => false,
    }
}

/// Takes the item that is sent next, if it has this number, and tells whether it has.
pub(crate) fn take_numbered<T: Tree>(entity: &mut Entity<T>, number: u64) -> bool
    ensures found { result ≡ spec.is_next number entity.old }
    ensures rest { entity.new ≡ spec.without_sent number entity.old }
{
    if !is_next(entity, number) {
        return false;
    }
    drop(take_next(entity));
    true
}

//! The snapshot of an entity is written.
ghost use Rattle.std.specs.Prelude.{◌≡◌, ◌++◌, ◌<◌, ◌≤◌, false, flat_map, length, IfOk, IsErrOf};
ghost use Rattle.std.specs.Prelude.{OnOk};
ghost use Rattle.std.specs.List.{AllByRecursion, list_all};
ghost use Rattle.m2m_value.specs.Shapes.{largest_count};
ghost use Rattle.entity_lines.specs.Heads.{SpellsHead, head_line};
ghost use Rattle.entity_lines.specs.Items.{CanBeKept, SpellsItem, item_lines};
ghost use Rattle.entity_lines.specs.Resources.{SpellsResource, is_readable, resource_line};
ghost use Rattle.entity_model.specs.Sound.{IsSoundEntity};
ghost use Rattle.entity_soundness.specs.Laws.{AreNumbered};
ghost use Rattle.entity_snapshot.specs.Snapshots as spec;
ghost use Rattle.entity_snapshot.specs.Snapshots.{HasSnapshot, SpellsEach, SpellsEntity};

use entity_lines::{Head, LineFault, push_head, push_item, push_resource};
use entity_model::Entity;
use m2m_names::LARGEST_COUNT;
use notify_outbox::{Item, Outbox};
use std::alloc::Global;
use tree_model::{Tree, over};

/// What the first line says of an entity.
fn head_of<T: Tree>(entity: &Entity<T>) -> Head
    ensures value { result ≡ spec.entity_head entity.now }
    ensures sound { IsSoundEntity entity.now }
    ensures most { entity.now.numbered ≤ largest_count }
{
    Head {
        next: entity.next,
        last: entity.last,
        numbered: entity.outbox.count(),
        resources: entity.tree.len(),
        items: entity.outbox.len(),
    }
}

/// The lines of all resources.
fn push_resources<T: Tree>(alloc: Global, text: &mut Vec<u8>, tree: &T) -> Result<(), LineFault>
    ensures written { OnOk result
        (text.new.items ≡ text.old.items ++ flat_map resource_line (T.nodes tree.now)) }
    ensures spells { OnOk result (SpellsEach SpellsResource (T.nodes tree.now)
        (flat_map resource_line (T.nodes tree.now))) }
    ensures unkept { IsErrOf result LineFault.Unkept
        → list_all is_readable (T.nodes tree.now) ≡ false }
{
    for resource in over(tree) {
        push_resource(alloc, text, resource)?;
    }
    Ok(())
}

/// The lines of an item, whose number is above that of the one before it, and at most this one.
fn push_next(
    alloc: Global,
    text: &mut Vec<u8>,
    item: &Item,
    number: u64,
    most: u64,
) -> Result<(), LineFault>
    ensures written { OnOk result (text.new.items ≡ text.old.items ++ item_lines item.now) }
    ensures spells { OnOk result (SpellsItem item.now (item_lines item.now)) }
    ensures above { OnOk result (number < item.now.number) }
    ensures within { OnOk result (item.now.number ≤ most) }
    ensures unkept { IsErrOf result LineFault.Unkept → number < item.now.number
        → item.now.number ≤ most → ¬ CanBeKept item.now }
{
    if item.number <= number || item.number > most {
        return Err(LineFault::Unkept);
    }
    push_item(alloc, text, item)
}

/// The lines of all items that wait in an outbox, of which so many were numbered.
fn push_rest(alloc: Global, text: &mut Vec<u8>, rest: Outbox, most: u64) -> Result<(), LineFault>
    ensures written { OnOk result
        (text.new.items ≡ text.old.items ++ flat_map item_lines rest.items) }
    ensures spells { OnOk result
        (SpellsEach SpellsItem rest.items (flat_map item_lines rest.items)) }
    ensures numbered { OnOk result (AreNumbered 0 most rest.items) }
    ensures unkept { IsErrOf result LineFault.Unkept → AreNumbered 0 most rest.items
        → ¬ AllByRecursion CanBeKept rest.items }
{
    let mut rest = rest;
    let mut number = 0;
    'items: while let Some(item) = rest.take_item() {
        push_next(alloc, text, &item, number, most)?;
        number = item.number;
    }
    Ok(())
}

/// The lines of all items.
fn push_items(alloc: Global, text: &mut Vec<u8>, outbox: &Outbox) -> Result<(), LineFault>
    ensures written { OnOk result
        (text.new.items ≡ text.old.items ++ flat_map item_lines outbox.now.items) }
    ensures spells { OnOk result
        (SpellsEach SpellsItem outbox.now.items (flat_map item_lines outbox.now.items)) }
    ensures numbered { OnOk result (AreNumbered 0 outbox.now.count outbox.now.items) }
    ensures unkept { IsErrOf result LineFault.Unkept
        → AreNumbered 0 outbox.now.count outbox.now.items
        → ¬ AllByRecursion CanBeKept outbox.now.items }
{
    let rest = outbox.copy(alloc)?;
    push_rest(alloc, text, rest, outbox.count())?;
    Ok(())
}

/// The head.
fn push_first<T: Tree>(
    alloc: Global,
    text: &mut Vec<u8>,
    entity: &Entity<T>,
) -> Result<(), LineFault>
    ensures written { OnOk result (text.new.items
        ≡ text.old.items ++ head_line entity.now.home (spec.entity_head entity.now)) }
    ensures spells { OnOk result (SpellsHead entity.now.home (spec.entity_head entity.now)
        (head_line entity.now.home (spec.entity_head entity.now))) }
    ensures sound { IsSoundEntity entity.now }
    ensures most { entity.now.numbered ≤ largest_count }
    ensures unkept { IsErrOf result LineFault.Unkept → largest_count < length entity.now.items }
{
    let head = head_of(entity);
    if head.items > LARGEST_COUNT {
        return Err(LineFault::Unkept);
    }
    push_head(alloc, text, &entity.home, head)?;
    Ok(())
}

/// The lines of the resources and items.
fn push_behind<T: Tree>(
    alloc: Global,
    text: &mut Vec<u8>,
    entity: &Entity<T>,
) -> Result<(), LineFault>
    ensures written { OnOk result (text.new.items ≡ text.old.items
        ++ (flat_map resource_line entity.now.nodes ++ flat_map item_lines entity.now.items)) }
    ensures resources { OnOk result (SpellsEach SpellsResource entity.now.nodes
        (flat_map resource_line entity.now.nodes)) }
    ensures each { OnOk result
        (SpellsEach SpellsItem entity.now.items (flat_map item_lines entity.now.items)) }
    ensures numbered { OnOk result (AreNumbered 0 entity.now.numbered entity.now.items) }
    ensures unkept { IsErrOf result LineFault.Unkept → ¬ HasSnapshot entity.now }
{
    push_resources(alloc, text, &entity.tree)?;
    push_items(alloc, text, &entity.outbox)?;
    Ok(())
}

/// The snapshot of an entity. An entity is unkept where a resource or an item of it wouldn't be
/// read back: one with a value that is too deep, or a request that no journal keeps.
pub fn snapshot_text<T: Tree>(alloc: Global, entity: &Entity<T>) -> Result<Vec<u8>, LineFault>
    ensures written { IfOk result (λ text. text.items ≡ spec.snapshot_of entity.now) }
    ensures spells { IfOk result (λ text. SpellsEntity entity.now text.items) }
    ensures unkept { IsErrOf result LineFault.Unkept → ¬ HasSnapshot entity.now }
{
    let mut text = Vec::new(alloc);
    push_first(alloc, &mut text, entity)?;
    push_behind(alloc, &mut text, entity)?;
    Ok(text)
}

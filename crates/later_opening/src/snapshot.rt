//! The journal of a CSE that answers later, at its shortest.
ghost use Rattle.std.specs.Prelude.{◌≡◌, ◌&&◌, ◌++◌, ℕ, false, flat_map, is_some, nat_le, nat_lt};
ghost use Rattle.std.specs.Prelude.{true, IfOk, IsErrOf, OnOk};
ghost use Rattle.std.specs.Option.{option_map_or};
ghost use Rattle.entity_model.specs.Entity.{EntityData};
ghost use Rattle.later_lines.specs.Keeping.{ran_value};
ghost use Rattle.later_opening.specs.Making.{later_of};
ghost use Rattle.later_opening.specs.Snapshots as spec;
ghost use Rattle.later_opening.specs.Snapshots.{AppendsWords, CanBeKeptAt, HasLaterSnapshot};
ghost use Rattle.later_opening.specs.Snapshots.{IsLaterSnapshot};

use accepted_requests::{LaterEntry, LaterRequests};
use entity_model::Entity;
use entity_snapshot::snapshot_text;
use later_lines::{LineFault, push_accepted, push_given, push_ran};
use std::alloc::Global;
use tree_model::Tree;

/// Puts the lines of the result of an accepted request behind others, where it has one.
fn push_result(alloc: Global, text: &mut Vec<u8>, entry: &LaterEntry) -> Result<(), LineFault>
    ensures put { OnOk result (spec.AppendsResult entry.now text.old.items text.new.items) }
    ensures unkept { IsErrOf result LineFault.Unkept → option_map_or
        (λ reply. is_some (ran_value entry.now.number reply)) entry.now.reply true ≡ false }
{
    match entry.reply() {
        Some(reply) => push_ran(alloc, text, entry.number(), reply),
        None => Ok(()),
    }
}

/// Whether its number is above the last one, and it wasn't accepted later than at a moment.
fn fits_behind(entry: &LaterEntry, moment: u64, last: u64) -> bool
    ensures { result ≡ nat_lt last entry.now.number && nat_le entry.now.accepted moment }
{
    last < entry.number() && entry.accepted() <= moment
}

/// Puts the lines of an accepted request behind those of others, the last of which has a lower
/// number.
fn push_entry(
    alloc: Global,
    text: &mut Vec<u8>,
    moment: u64,
    last: u64,
    entry: &LaterEntry,
) -> Result<(), LineFault>
    ensures put { OnOk result
        (spec.AppendsEntry moment last entry.now text.old.items text.new.items) }
    ensures unkept { IsErrOf result LineFault.Unkept → nat_lt last entry.now.number
        && nat_le entry.now.accepted moment && spec.is_readable entry.now ≡ false }
{
    if !fits_behind(entry, moment, last) {
        return Err(LineFault::Unkept);
    }
    push_accepted(alloc, text, entry)?;
    push_result(alloc, text, entry)
}

/// Puts the lines of accepted requests behind others, in order, and tells the last number. None was
/// accepted later than at this moment.
fn push_entries(
    alloc: Global,
    text: &mut Vec<u8>,
    moment: u64,
    entries: &[LaterEntry],
) -> Result<u64, LineFault>
    ensures put { IfOk result (λ last. (e : EntityData) → e.last ≡ moment
        → AppendsWords e (record { entries = entries.now; given = last }) text.old.items
        text.new.items) }
    ensures lines { OnOk result
        (text.new.items ≡ text.old.items ++ flat_map spec.entry_lines entries.now) }
    ensures last { IfOk result (λ last. last ≡ spec.last_of 0 entries.now) }
    ensures unkept { IsErrOf result LineFault.Unkept → (given : ℕ)
        → ¬ CanBeKeptAt moment (record { entries = entries.now; given = given }) }
{
    let mut last = 0;
    let mut place = 0;
    'each: while place < entries.len() {
        let entry = &entries[place];
        push_entry(alloc, text, moment, last, entry)?;
        last = entry.number();
        place += 1;
    }
    Ok(last)
}

/// Puts the lines of words behind others that make these accepted requests. Some are unkept where
/// one of them wouldn't be read back, or where numbers or moments don't fit.
fn push_requests(
    alloc: Global,
    text: &mut Vec<u8>,
    moment: u64,
    requests: &LaterRequests,
) -> Result<(), LineFault>
    ensures put { OnOk result ((e : EntityData) → e.last ≡ moment
        → AppendsWords e requests.now text.old.items text.new.items) }
    ensures lines { OnOk result
        (text.new.items ≡ text.old.items ++ spec.requests_lines requests.now) }
    ensures unkept { IsErrOf result LineFault.Unkept → ¬ CanBeKeptAt moment requests.now }
{
    let last = push_entries(alloc, text, moment, &requests.entries)?;
    if requests.given == last {
        return Ok(());
    }
    if requests.given < last {
        return Err(LineFault::Unkept);
    }
    push_given(alloc, text, requests.given)
}

/// The bytes of a file at rest whose journal makes an entity and its accepted requests at once. It
/// has none where something of them wouldn't be read back as it is.
pub fn later_snapshot<T: Tree>(
    alloc: Global,
    entity: &Entity<T>,
    requests: &LaterRequests,
) -> Result<Vec<u8>, LineFault>
    ensures snapshot { IfOk result
        (λ bytes. IsLaterSnapshot (later_of entity.now requests.now) bytes.items) }
    ensures unkept { IsErrOf result LineFault.Unkept
        → ¬ HasLaterSnapshot (later_of entity.now requests.now) }
{
    let mut text = snapshot_text(alloc, entity)?;
    push_requests(alloc, &mut text, entity.last, requests)?;
    text.extend_from_slice(b"\n")?;
    Ok(text)
}

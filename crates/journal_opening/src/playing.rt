//! The lines of a journal, played one after another.
ghost use Rattle.std.specs.Prelude.{◌≡◌, ◌≤◌, ◌<◌, IfOk, IfErr, IfSome, IfNone, OnOk, length, drop};
ghost use Rattle.std.specs.Prelude.{true, ◌==◌, count_by};
ghost use Rattle.journal_file.specs.Gates as gates;
ghost use Rattle.journal_lines.specs.Lines.{first_deed};
ghost use Rattle.journal_opening.specs.Journals as spec;
ghost use Rattle.entity_snapshot.specs.Reading.{line_number};
ghost use Rattle.journal_opening.specs.Playing.{HaltsPlaying, Plays, PlaysFirst, begins_later};
ghost use Rattle.journal_opening.specs.Playing.{fault_at};

use crate::fault::OpeningFault;
use cse_machine::{Event, Outcome, step};
use entity_model::Entity;
use journal_lines::{Dated, Deed, begins_unmarked, first_deed};
use m2m_value::Scratch;
use std::alloc::{AllocError as OutOfMemory, Global};
use tree_model::Tree;

/// A deed as an event of the machine.
fn event_of(deed: Deed) -> Event
    ensures { result ≡ spec.deed_event deed }
{
    match deed {
        Deed::Ask(request) => Event::Ask(request),
        Deed::Take => Event::Take,
        Deed::Tick => Event::Tick,
    }
}

/// Does a deed again.
pub fn play<T: Tree>(alloc: Global, entity: &mut Entity<T>, dated: Dated) -> Result<(), OutOfMemory>
    ensures { OnOk result (entity.new ≡ spec.made_by dated entity.old) }
{
    let Dated { moment, deed } = dated;
    let event = event_of(deed);
    match step(alloc, entity, moment, &event) {
        Outcome::Starved { .. } => Err(OutOfMemory),
        _ => Ok(()),
    }
}

/// Does the deed again whose lines stand at the front of the bytes, and tells how many bytes these
/// have; None where no deed begins there.
fn play_first<T: Tree>(
    alloc: Global,
    scratch: &mut Scratch,
    entity: &mut Entity<T>,
    bytes: &[u8],
) -> Result<Option<usize>, OutOfMemory>
    ensures played { IfOk result (λ len.
        IfSome len (λ n. PlaysFirst bytes.now n entity.old entity.new)) }
    ensures none { IfOk result (λ len. IfNone len (first_deed bytes.now ≡ None)) }
{
    let found = first_deed(alloc, scratch, bytes)?;
    let Some((dated, len)) = found else {
        return Ok(None);
    };
    play(alloc, entity, dated)?;
    Ok(Some(len))
}

/// Whether these bytes count for nothing behind a text.
pub fn is_shut(bytes: &[u8]) -> bool
    ensures { result ≡ gates.is_shut bytes.now }
{
    match bytes {
        [gate, _, ..] => *gate != b'@',
        _ => true,
    }
}

/// How many lines end in these bytes.
fn ends_in(bytes: &[u8]) -> usize
    ensures value { result ≡ count_by (λ b. b == 10) bytes.now }
    ensures bound { result ≤ length bytes.now }
{
    bytes.iter().filter(|byte| **byte == b'\n').count()
}

/// The number of the line that begins at a place.
pub(crate) fn line_number(bytes: &[u8], place: usize) -> usize
    requires { place < length bytes.now }
    ensures { result ≡ line_number bytes.now place }
{
    ends_in(&bytes[..place]) + 1
}

/// Whether a word on requests that are answered later begins these bytes.
fn begins_later(bytes: &[u8]) -> bool
    ensures { result ≡ begins_later bytes.now }
{
    bytes.starts_with(b"@3:")
}

/// Why no deed begins at a place.
pub fn fault_at(bytes: &[u8], place: usize) -> OpeningFault
    requires { place < length bytes.now }
    ensures { result ≡ fault_at bytes.now place }
{
    let number = line_number(bytes, place);
    if begins_unmarked(&bytes[place..]) {
        OpeningFault::OldDeed(number)
    } else if begins_later(&bytes[place..]) {
        OpeningFault::LaterWord(number)
    } else {
        OpeningFault::BadLine(number)
    }
}

/// Does what the lines say that stand in the bytes from a place on, until the text ends; and tells
/// the place where it ends.
pub(crate) fn play_lines<T: Tree>(
    alloc: Global,
    scratch: &mut Scratch,
    entity: &mut Entity<T>,
    bytes: &[u8],
    from: usize,
) -> Result<usize, OpeningFault>
    requires { from ≤ length bytes.now }
    ensures played { IfOk result (λ end. Plays bytes.now from end entity.old entity.new) }
    ensures shut { IfOk result (λ end. gates.is_shut (drop end bytes.now) ≡ true) }
    ensures fault { IfErr result (HaltsPlaying bytes.now from) }
{
    let mut at = from;
    'deeds: while !is_shut(&bytes[at..]) {
        let Some(len) = play_first(alloc, scratch, entity, &bytes[at..])? else {
            return Err(fault_at(bytes, at));
        };
        at += len;
    }
    Ok(at)
}

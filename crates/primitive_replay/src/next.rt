//! Lines, one after another, out of what a source gives.
ghost use Rattle.std.specs.Prelude.{◌≡◌, ◌≢◌, ◌+◌, ◌<◌, ◌≤◌, ℕ, List, [], Option, None, Ok, Err};
ghost use Rattle.std.specs.Prelude.{IfOk, IsSome, length};
ghost use Rattle.std.specs.Io.KnownBytes.{IsAtEnd, Keeps, prepend_known};
ghost use Rattle.std.specs.Str.Lines.{strip_carriage_return};
ghost use Rattle.m2m_io.specs.Counts.{CountsFault};
ghost use Rattle.primitive_replay.specs.Front.{HasNoEnd, IsFront, end_of, held_limit};
ghost use Rattle.primitive_replay.specs.Lines.{most_lines};
ghost use Rattle.primitive_replay.specs.Stream.{NextIs};

use crate::fault::LineFault;
use crate::front::{Front, settle};
use crate::line::{LineForm, line_at};
use crate::line_buffer::LineBuffer;
use m2m_io::Source;
use m2m_value::Scratch;
use std::alloc::Global;

/// The text of a line before its LF, without the CR that may stand there.
fn without_return(text: &[u8]) -> &[u8]
    ensures { result.now ≡ strip_carriage_return text.now }
{
    if !text.is_empty() && text[text.len() - 1] == b'\r' {
        &text[..text.len() - 1]
    } else {
        text
    }
}

/// Takes the line that ends at this place of the bytes held, behind which anything may be left.
pub(crate) fn take_ended<F: LineForm>(
    alloc: Global,
    form: &F,
    scratch: &mut Scratch,
    held: &mut LineBuffer,
    place: u64,
    end: usize,
) -> Result<Option<F::Line>, LineFault>
    requires end { end ≡ end_of held.old }
    requires within { end < length held.old }
    ensures next { (stream left : Option (List ℕ)) → Keeps stream (prepend_known held.old left)
        → NextIs (F.reads form.now) place result stream (prepend_known held.new left) }
    ensures place { IfOk result (λ line. IsSome line → place ≤ most_lines) }
    ensures some { result ≢ Ok None }
    ensures few { length held.new ≤ held_limit }
    ensures other { result ≢ Err LineFault.ReadFault }
{
    match line_at(
        alloc,
        form,
        scratch,
        place,
        without_return(&held.bytes()[..end]),
    ) {
        Ok(line) => {
            held.skip(end + 1);
            Ok(Some(line))
        }
        Err(fault) => Err(fault),
    }
}

/// Takes all bytes held as the last line, behind which nothing is left.
fn take_last<F: LineForm>(
    alloc: Global,
    form: &F,
    scratch: &mut Scratch,
    held: &mut LineBuffer,
    place: u64,
) -> Result<Option<F::Line>, LineFault>
    requires none { HasNoEnd held.old }
    requires some { held.old ≢ [] }
    ensures next { (stream left : Option (List ℕ)) → Keeps stream (prepend_known held.old left)
        → IsAtEnd left
        → NextIs (F.reads form.now) place result stream (prepend_known held.new left) }
    ensures place { IfOk result (λ line. IsSome line → place ≤ most_lines) }
    ensures some { result ≢ Ok None }
    ensures few { length held.new ≤ held_limit }
    ensures other { result ≢ Err LineFault.ReadFault }
{
    let text = held.bytes();
    let len = text.len();
    match line_at(alloc, form, scratch, place, text) {
        Ok(line) => {
            held.skip(len);
            Ok(Some(line))
        }
        Err(fault) => Err(fault),
    }
}

/// Takes the line that stands at the front.
fn take_front<F: LineForm>(
    alloc: Global,
    form: &F,
    scratch: &mut Scratch,
    held: &mut LineBuffer,
    place: u64,
    front: Front,
) -> Result<Option<F::Line>, LineFault>
    requires front { (left : Option (List ℕ)) × IsFront (Ok front) held.old left }
    requires few { length held.old ≤ held_limit }
    ensures next { (stream left : Option (List ℕ)) → Keeps stream (prepend_known held.old left)
        → IsFront (Ok front) held.old left
        → NextIs (F.reads form.now) place result stream (prepend_known held.new left) }
    ensures place { IfOk result (λ line. IsSome line → place ≤ most_lines) }
    ensures end { result ≡ Ok None → front ≡ Front.End }
    ensures few { length held.new ≤ held_limit }
    ensures other { result ≢ Err LineFault.ReadFault }
{
    match front {
        Front::Whole(end) => take_ended(alloc, form, scratch, held, place, end),
        Front::Last => take_last(alloc, form, scratch, held, place),
        Front::TooLong => Err(LineFault::Bad),
        Front::End => Ok(None),
    }
}

/// Takes the line of this form that stands next on a stream, at this place, from 1; none at the
/// end. The stream is the bytes held, and then those that the source has left. A read is made only
/// while the bytes held have no whole line.
pub fn next_line<F: LineForm, S: Source>(
    alloc: Global,
    form: &F,
    scratch: &mut Scratch,
    held: &mut LineBuffer,
    src: &mut S,
    place: u64,
) -> Result<Option<F::Line>, LineFault>
    ensures next { NextIs (F.reads form.now) place result (prepend_known held.old (S.left src.old))
        (prepend_known held.new (S.left src.new)) }
    ensures place { IfOk result (λ line. IsSome line → place ≤ most_lines) }
    ensures end { result ≡ Ok None → IsAtEnd (S.left src.new) }
    ensures few { length held.new ≤ held_limit }
    ensures waiting { result ≡ Err LineFault.ReadFault → HasNoEnd held.new }
    ensures faults { CountsFault LineFault.ReadFault result (S.faults src.old) (S.faults src.new) }
{
    match settle(held, src) {
        Ok(front) => take_front(alloc, form, scratch, held, place, front),
        Err(fault) => Err(fault),
    }
}

//! Lines, taken one after another by both sides.
ghost use Rattle.std.specs.Prelude.{◌≡◌, ◌≢◌, ◌+◌, ◌≤◌, None, Some, MatchOption};
ghost use Rattle.std.specs.Io.KnownBytes.{prepend_known};
ghost use Rattle.cse_server.specs.Outside.{EndsByFault, sink_told};
ghost use Rattle.primitive_replay.specs.Lines.{most_lines};
ghost use Rattle.twin_replay.specs.Twins as spec;
ghost use Rattle.twin_replay.specs.Twins.{SaysLine, Twins, TwinsFrom, TwinsUpTo, told};

use crate::lines::{Part, TwinLine};
use crate::sides::{Sides, starting, take_line};
use m2m_io::{Sink, Source, Status};
use m2m_value::Scratch;
use primitive_replay::{LineBuffer, MOST_LINES, fault_status, next_line, put_line};
use std::alloc::Global;
use tree_model::Home;

/// Takes a line, and writes what is written for it by one call of the sink. None where the lines go
/// on.
fn say_line<O: Sink>(
    alloc: Global,
    sides: &mut Sides,
    out: &mut O,
    line: TwinLine,
) -> Option<Status>
    ensures says { SaysLine result line sides.old sides.new
        (sink_told (O.written out.old) (O.puts out.old))
        (sink_told (O.written out.new) (O.puts out.new)) }
    ensures writes { EndsByFault (Some Status.WriteFault) result
        (O.faults out.old) (O.faults out.new) }
    ensures read { result ≢ Some Status.ReadFault }
{
    match take_line(alloc, sides, line) {
        Ok(Some(text)) => put_line(out, &text),
        Ok(None) => None,
        Err(_) => Some(Status::Memory),
    }
}

/// How it ends where no line is left at this place.
fn end_status(part: &Part, place: u64) -> Status
    ensures { result ≡ spec.end_status part.now place }
{
    match part {
        Part::Asking(_) => Status::Done,
        Part::Before | Part::LeftSide | Part::RightSide => Status::BadLine(place),
    }
}

/// Takes the line that stands next, at this place, from 1. None where the lines go on.
fn twin_next<S: Source, O: Sink>(
    alloc: Global,
    scratch: &mut Scratch,
    held: &mut LineBuffer,
    sides: &mut Sides,
    input: &mut S,
    out: &mut O,
    place: u64,
) -> Option<Status>
    ensures next { let old = told (prepend_known held.old (S.left input.old))
        (sink_told (O.written out.old) (O.puts out.old)) in
        let said = sink_told (O.written out.new) (O.puts out.new) in
        MatchOption result
        (TwinsUpTo place (place + 1) sides.old sides.new old
        (told (prepend_known held.new (S.left input.new)) said))
        (TwinsFrom place sides.old old (told (S.left input.new) said)) }
    ensures place { result ≡ None → place ≤ most_lines }
    ensures reads { EndsByFault (Some Status.ReadFault) result
        (S.faults input.old) (S.faults input.new) }
    ensures writes { EndsByFault (Some Status.WriteFault) result
        (O.faults out.old) (O.faults out.new) }
{
    match next_line(alloc, &*sides, scratch, held, input, place) {
        Ok(Some(line)) => say_line(alloc, sides, out, line),
        Ok(None) => Some(end_status(&sides.part, place)),
        Err(fault) => Some(fault_status(fault, place)),
    }
}

/// Takes the lines of `input` by these sides, and writes to `out` what is written for them.
fn twin_lines<S: Source, O: Sink>(
    alloc: Global,
    sides: &mut Sides,
    input: &mut S,
    out: &mut O,
) -> Status
    ensures lines { TwinsFrom 1 sides.old
        (told (S.left input.old) (sink_told (O.written out.old) (O.puts out.old)))
        (told (S.left input.new) (sink_told (O.written out.new) (O.puts out.new))) result }
    ensures reads { EndsByFault Status.ReadFault result (S.faults input.old) (S.faults input.new) }
    ensures writes { EndsByFault Status.WriteFault result (O.faults out.old) (O.faults out.new) }
{
    let Ok(mut held) = LineBuffer::new(alloc) else {
        return Status::Memory;
    };
    let mut scratch = Scratch::new(alloc);
    for place in 1..MOST_LINES + 2 {
        if let Some(status) = twin_next(alloc, &mut scratch, &mut held, sides, input, out, place) {
            return status;
        }
    }
    Status::Done
}

/// Prepares two entities with this home by the lines of `input`, each from the reading 0 on, and
/// compares them for an originator; then asks both each request of that originator. What comes of
/// that is written to `out`.
///
/// The lines are `!left`, lines as `replay` has them, `!right`, such lines again, `!as ` and an
/// originator in its own short form, and then requests that say they are that originator's. Any
/// other line is bad, and so is the end before an originator is named. Nothing is written for what
/// prepares a side, and a request that goes on to another CSE isn't carried there. Behind `!as` the
/// time passes on both sides up to the later one of their last moments, and `sights agree` or
/// `sights differ` is written: whether the originator has the same sight of both. Then each request
/// is asked on both sides at that moment: one line, `same` and the reply, where what comes of it
/// reads the same, and else `left` and `right`, a line each. What goes on is written as `forward`,
/// the URL where it goes, and the request that is sent there. What is written for a line is written
/// by one call of the sink. Where memory runs out for a line that prepares a side, or for the
/// comparison, nothing is written.
///
/// A line takes time linear in it beside its events, and the bytes held and the room for reading
/// one, which is kept from line to line, are at most some multiple of the longest line.
pub fn twin<S: Source, O: Sink>(alloc: Global, home: Home, input: &mut S, out: &mut O) -> Status
    ensures twins { Twins home
        (told (S.left input.old) (sink_told (O.written out.old) (O.puts out.old)))
        (told (S.left input.new) (sink_told (O.written out.new) (O.puts out.new))) result }

    // A fault is answered where the stream failed in this call, and only there.
    ensures reads { EndsByFault Status.ReadFault result (S.faults input.old) (S.faults input.new) }
    ensures writes { EndsByFault Status.WriteFault result (O.faults out.old) (O.faults out.new) }
{
    let Ok(mut sides) = starting(alloc, home) else {
        return Status::Memory;
    };
    twin_lines(alloc, &mut sides, input, out)
}

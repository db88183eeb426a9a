//! Lines, answered one after another.
ghost use Rattle.std.specs.Prelude.{◌≡◌, ◌≢◌, ◌+◌, ◌<◌, ◌≤◌, ℕ, List, [], Option, None, Some};
ghost use Rattle.std.specs.Prelude.{IfOk, MatchOption, length};
ghost use Rattle.std.specs.Io.KnownBytes.{prepend_known};
ghost use Rattle.cse_server.specs.Outside.{EndsByFault, link_told, outside, sink_told};
ghost use Rattle.entity_model.specs.Opening.{opening};
ghost use Rattle.primitive_replay.specs.Front.{end_of};
ghost use Rattle.primitive_replay.specs.Lines.{most_lines};
ghost use Rattle.primitive_replay.specs.Script.{Replays};
ghost use Rattle.primitive_replay.specs.Way.{ReplaysFrom, ReplaysUpTo, StopsFrom, TakesLine};
ghost use Rattle.primitive_replay.specs.Way.{fault_status};

use crate::answer::{put_request, say_reply};
use crate::fault::LineFault;
use crate::front::end_held;
use crate::items::finish;
use crate::line::{Line, MOST_LINES, ReplayForm};
use crate::line_buffer::LineBuffer;
use crate::next::{next_line, take_ended};
use crate::waiting::put_last;
use cse_server::put_waiting;
use entity_model::Entity;
use m2m_io::{Link, Sink, Source, Status};
use m2m_value::Scratch;
use notify_outbox::Outbox;
use resource_tree::IndexTree;
use std::alloc::{AllocError as OutOfMemory, Global};
use tree_model::{Home, Tree};

/// Does what a line says: its reply waits, or is put with those that wait. None where the lines go
/// on.
fn take_line<T: Tree, O: Sink, L: Link>(
    alloc: Global,
    entity: &mut Entity<T>,
    reading: &mut u64,
    waiting: &mut Vec<u8>,
    out: &mut O,
    link: &mut L,
    line: Line,
) -> Option<Status>
    ensures takes { TakesLine reading.old reading.new entity.old entity.new
        (link_told (L.exchanges link.old) (L.faults link.old))
        (link_told (L.exchanges link.new) (L.faults link.new))
        waiting.old.items waiting.new.items
        (sink_told (O.written out.old) (O.puts out.old))
        (sink_told (O.written out.new) (O.puts out.new)) line result }
    ensures writes { EndsByFault (Some Status.WriteFault) result
        (O.faults out.old) (O.faults out.new) }
    ensures read { result ≢ Some Status.ReadFault }
{
    match line {
        Line::Empty => None,
        Line::Reading(moment) => {
            *reading = moment;
            None
        }
        Line::Ask(request) => {
            let reply = put_request(alloc, entity, link, *reading, request);
            say_reply(alloc, waiting, out, reply)
        }
    }
}

/// How it ends where no line was read at this place.
pub fn fault_status(fault: LineFault, place: u64) -> Status
    ensures { result ≡ fault_status fault place }
{
    match fault {
        LineFault::Bad => Status::BadLine(place),
        LineFault::ReadFault => Status::ReadFault,
        LineFault::OutOfMemory => Status::Memory,
    }
}

/// Replays the line that ends at this place of the bytes held; it is the line `place`, from 1. None
/// where the lines go on.
fn replay_held<T: Tree, O: Sink, L: Link>(
    alloc: Global,
    entity: &mut Entity<T>,
    scratch: &mut Scratch,
    held: &mut LineBuffer,
    reading: &mut u64,
    waiting: &mut Vec<u8>,
    out: &mut O,
    link: &mut L,
    place: u64,
    end: usize,
) -> Option<Status>
    requires end { end ≡ end_of held.old }
    requires within { end < length held.old }
    ensures next { (left : Option (List ℕ))
        → let old = outside (prepend_known held.old left)
        (sink_told (O.written out.old) (O.puts out.old)) None
        (link_told (L.exchanges link.old) (L.faults link.old)) in
        let new = outside left
        (sink_told (O.written out.new) (O.puts out.new)) None
        (link_told (L.exchanges link.new) (L.faults link.new)) in
        let on = record new { left = prepend_known held.new left } in
        MatchOption result
        (ReplaysUpTo place (place + 1) reading.old reading.new entity.old entity.new
        waiting.old.items waiting.new.items old on)
        (StopsFrom place reading.old entity.old entity.new
        waiting.old.items waiting.new.items old new) }
    ensures place { result ≡ None → place ≤ most_lines }
    ensures writes { EndsByFault (Some Status.WriteFault) result
        (O.faults out.old) (O.faults out.new) }
    ensures read { result ≢ Some Status.ReadFault }
{
    match take_ended(alloc, &ReplayForm, scratch, held, place, end) {
        Ok(Some(line)) => take_line(alloc, entity, reading, waiting, out, link, line),
        Ok(None) => unreachable!(),
        Err(fault) => Some(fault_status(fault, place)),
    }
}

/// Replays the line that stands next, the line `place`, from 1, once more is read for it. Nothing
/// waits meanwhile. None where the lines go on.
fn replay_read<T: Tree, S: Source, O: Sink, L: Link>(
    alloc: Global,
    entity: &mut Entity<T>,
    scratch: &mut Scratch,
    held: &mut LineBuffer,
    reading: &mut u64,
    waiting: &mut Vec<u8>,
    input: &mut S,
    out: &mut O,
    link: &mut L,
    place: u64,
) -> Option<Status>
    requires put { waiting.old.items ≡ [] }
    ensures next { let old = outside (prepend_known held.old (S.left input.old))
        (sink_told (O.written out.old) (O.puts out.old)) None
        (link_told (L.exchanges link.old) (L.faults link.old)) in
        let new = outside (S.left input.new)
        (sink_told (O.written out.new) (O.puts out.new)) None
        (link_told (L.exchanges link.new) (L.faults link.new)) in
        let on = record new { left = prepend_known held.new (S.left input.new) } in
        MatchOption result
        (ReplaysUpTo place (place + 1) reading.old reading.new entity.old entity.new
        waiting.old.items waiting.new.items old on)
        (StopsFrom place reading.old entity.old entity.new
        waiting.old.items waiting.new.items old new) }
    ensures place { result ≡ None → place ≤ most_lines }
    ensures reads { EndsByFault (Some Status.ReadFault) result
        (S.faults input.old) (S.faults input.new) }
    ensures writes { EndsByFault (Some Status.WriteFault) result
        (O.faults out.old) (O.faults out.new) }
{
    match next_line(alloc, &ReplayForm, scratch, held, input, place) {
        Ok(Some(line)) => take_line(alloc, entity, reading, waiting, out, link, line),
        Ok(None) => Some(Status::Done),
        Err(fault) => Some(fault_status(fault, place)),
    }
}

/// Replays the line that stands next, the line `place`, from 1. Where none ends in the bytes held,
/// all that waits is put before more is read. None where the lines go on.
fn replay_next<T: Tree, S: Source, O: Sink, L: Link>(
    alloc: Global,
    entity: &mut Entity<T>,
    scratch: &mut Scratch,
    held: &mut LineBuffer,
    reading: &mut u64,
    waiting: &mut Vec<u8>,
    input: &mut S,
    out: &mut O,
    link: &mut L,
    place: u64,
) -> Option<Status>
    ensures next { let old = outside (prepend_known held.old (S.left input.old))
        (sink_told (O.written out.old) (O.puts out.old)) None
        (link_told (L.exchanges link.old) (L.faults link.old)) in
        let new = outside (S.left input.new)
        (sink_told (O.written out.new) (O.puts out.new)) None
        (link_told (L.exchanges link.new) (L.faults link.new)) in
        let on = record new { left = prepend_known held.new (S.left input.new) } in
        MatchOption result
        (ReplaysUpTo place (place + 1) reading.old reading.new entity.old entity.new
        waiting.old.items waiting.new.items old on)
        (StopsFrom place reading.old entity.old entity.new
        waiting.old.items waiting.new.items old new) }
    ensures place { result ≡ None → place ≤ most_lines }
    ensures reads { EndsByFault (Some Status.ReadFault) result
        (S.faults input.old) (S.faults input.new) }
    ensures writes { EndsByFault (Some Status.WriteFault) result
        (O.faults out.old) (O.faults out.new) }
{
    match end_held(held) {
        Some(end) => replay_held(
            alloc, entity, scratch, held, reading, waiting, out, link, place, end,
        ),
        None => match put_waiting(waiting, out) {
            Ok(()) => replay_read(
                alloc, entity, scratch, held, reading, waiting, input, out, link, place,
            ),
            Err(_) => Some(Status::WriteFault),
        },
    }
}

/// An entity as it opens at the reading 0.
fn opened(alloc: Global, home: Home) -> Result<Entity<IndexTree>, OutOfMemory>
    ensures { IfOk result (λ entity. entity ≡ opening home 0) }
{
    Entity::open(alloc, home, IndexTree::new(alloc), 0)
}

/// The outbox of an entity that is let go.
fn outbox_of<T: Tree>(entity: Entity<T>) -> Outbox
    ensures { result.items ≡ entity.items }
{
    let Entity { outbox, .. } = entity;
    outbox
}

/// Replays the lines of `input`, and writes the replies to their requests to `out`, a line each.
fn replay_lines<T: Tree, S: Source, O: Sink, L: Link>(
    alloc: Global,
    entity: &mut Entity<T>,
    input: &mut S,
    out: &mut O,
    link: &mut L,
) -> Status
    ensures lines { let old = outside (S.left input.old)
        (sink_told (O.written out.old) (O.puts out.old)) None
        (link_told (L.exchanges link.old) (L.faults link.old)) in
        let new = outside (S.left input.new)
        (sink_told (O.written out.new) (O.puts out.new)) None
        (link_told (L.exchanges link.new) (L.faults link.new)) in
        ReplaysFrom 1 0 entity.old entity.new old new result }
    ensures reads { EndsByFault Status.ReadFault result (S.faults input.old) (S.faults input.new) }
    ensures writes { EndsByFault Status.WriteFault result (O.faults out.old) (O.faults out.new) }
{
    let Ok(mut held) = LineBuffer::new(alloc) else {
        return Status::Memory;
    };
    let mut scratch = Scratch::new(alloc);
    let mut waiting = Vec::new(alloc);
    let mut reading = 0;
    for place in 1..MOST_LINES + 2 {
        if let Some(status) = replay_next(
            alloc,
            entity,
            &mut scratch,
            &mut held,
            &mut reading,
            &mut waiting,
            input,
            out,
            link,
            place,
        ) {
            return put_last(&mut waiting, out, status);
        }
    }
    Status::Done
}

/// Replays the lines of `input` against an entity that opens at the reading 0, and writes the
/// replies to their requests to `out`, a line each.
///
/// A line ends with LF; one CR before it isn't part of the line, and the last line may lack its
/// end. It is empty; or it is `@` and 1 to 18 digits, which is the reading of the clock from there
/// on, in seconds since 1970; or it is a request in JSON. Any other line is bad, and so is one of
/// more than 131,072 bytes, and the 1,000,001st. Lines are read as they come: whenever more is read,
/// the replies to all lines that have ended are written. While such a line stands to be answered,
/// the replies before it wait, fewer than 16,384 bytes of them, and one call of the sink writes all
/// that wait, with the last one behind them. Behind a bad line nothing is read or answered. Behind
/// the last line the items that are left in the outbox are written, in order, a line each: where
/// the item is to go (`direct` or `peer` and the URL, `channel` and its id, `nowhere`), a blank,
/// and its request in JSON. Each item is written by one call of the sink. A line for which memory
/// ran out isn't begun, and the replies before it are written. A request that goes on to another
/// CSE is carried over the link, and its exchange gives its reply.
///
/// A line is answered in time linear in it beside its event, and the bytes held and the room for
/// reading one, which is kept from line to line, are at most some multiple of the longest line. So
/// is the room for replies, of the longest reply and 16,384 bytes.
pub fn replay<S: Source, O: Sink, L: Link>(
    alloc: Global,
    home: Home,
    input: &mut S,
    out: &mut O,
    link: &mut L,
) -> Status
    ensures replays { let old = outside (S.left input.old)
        (sink_told (O.written out.old) (O.puts out.old)) None
        (link_told (L.exchanges link.old) (L.faults link.old)) in
        let new = outside (S.left input.new)
        (sink_told (O.written out.new) (O.puts out.new)) None
        (link_told (L.exchanges link.new) (L.faults link.new)) in
        Replays (opening home 0) old new result }

    // A fault is answered where the stream failed in this call, and only there.
    ensures reads { EndsByFault Status.ReadFault result (S.faults input.old) (S.faults input.new) }
    ensures writes { EndsByFault Status.WriteFault result (O.faults out.old) (O.faults out.new) }
{
    let Ok(mut entity) = opened(alloc, home) else {
        return Status::Memory;
    };
    let ended = replay_lines(alloc, &mut entity, input, out, link);
    let mut outbox = outbox_of(entity);
    finish(alloc, &mut outbox, out, ended)
}

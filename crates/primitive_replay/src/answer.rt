//! What a request on a line is answered, and its way to the sink.
ghost use Rattle.std.specs.Prelude.{◌≡◌, ◌++◌, Some, OnErr, OnOk};
ghost use Rattle.cse_server.specs.Outside.{EndsByFault, link_told, sink_told};
ghost use Rattle.primitive_json.specs.declared.request.RequestParts.{RequestParts};
ghost use Rattle.cse_machine.specs.Answer.{starved};
ghost use Rattle.primitive_replay.specs.Script.{reply_line};
ghost use Rattle.primitive_replay.specs.Together.{SaysText};
ghost use Rattle.primitive_replay.specs.Way.{RepliesTo, WritesText};

use cse_machine::{Event, Outcome, step};
use cse_server::put_if_much;
use desk_replies::{bare_reply, reply_onward};
use entity_model::Entity;
use m2m_io::{Link, Sink, Status};
use m2m_names::Rsc;
use m2m_value::write;
use primitive_json::{Reply, Request, RequestParts, reply_into};
use std::alloc::{AllocError as OutOfMemory, Global};
use tree_model::Tree;

/// Most replies have at most so many bytes; for a longer one the room grows.
const REPLY_ROOM: usize = 512;

/// The reply to the request of an event for which memory ran out.
fn starved_reply(event: Event) -> Reply
    ensures { (request : RequestParts) → event ≡ Event.Ask request → result ≡ starved request }
{
    match event {
        Event::Ask(request) => {
            let RequestParts { rqi, .. } = request.into_parts();
            bare_reply(Rsc::Internal, Some(rqi))
        }
        Event::Take | Event::Tick => bare_reply(Rsc::Internal, None),
    }
}

/// Puts a request to an entity at a reading of the clock, and gives the reply. The link is for a
/// request that goes on to another CSE.
pub(crate) fn put_request<T: Tree, L: Link>(
    alloc: Global,
    entity: &mut Entity<T>,
    link: &mut L,
    reading: u64,
    request: Request,
) -> Reply
    ensures { RepliesTo reading entity.old request result entity.new
        (link_told (L.exchanges link.old) (L.faults link.old))
        (link_told (L.exchanges link.new) (L.faults link.new)) }
{
    let event = Event::Ask(request);
    match step(alloc, entity, reading, &event) {
        Outcome::Done(reply) => reply,
        Outcome::Forward { poa, request } => reply_onward(alloc, link, &poa, request),
        Outcome::Item(_) | Outcome::Ticked => unreachable!(),
        Outcome::Starved { .. } => starved_reply(event),
    }
}

/// Appends the reply as a line, or leaves the text as it was.
fn push_reply_line(alloc: Global, text: &mut Vec<u8>, reply: Reply) -> Result<(), OutOfMemory>
    ensures ok { OnOk result (text.new.items ≡ text.old.items ++ reply_line reply) }
    ensures err { OnErr result (text.new.items ≡ text.old.items) }
{
    let value = reply_into(alloc, reply)?;
    text.reserve(REPLY_ROOM)?;
    let before = text.len();
    write(&value, text)?;
    let Ok(()) = text.push(b'\n') else {
        text.truncate(before);
        return Err(OutOfMemory);
    };
    Ok(())
}

/// Writes a line by one call of the sink. None where it was written.
pub fn put_line<O: Sink>(out: &mut O, line: &[u8]) -> Option<Status>
    ensures said { WritesText result line.now
        (sink_told (O.written out.old) (O.puts out.old))
        (sink_told (O.written out.new) (O.puts out.new)) }
    ensures writes { EndsByFault (Some Status.WriteFault) result
        (O.faults out.old) (O.faults out.new) }
{
    match out.put(line) {
        Ok(()) => None,
        Err(_) => Some(Status::WriteFault),
    }
}

/// Says a reply: its line waits behind what waits, and all is put once it is much. None where the
/// replies go on. Where memory runs out, the line isn't begun.
pub(crate) fn say_reply<O: Sink>(
    alloc: Global,
    waiting: &mut Vec<u8>,
    out: &mut O,
    reply: Reply,
) -> Option<Status>
    ensures says { SaysText result (reply_line reply) waiting.old.items waiting.new.items
        (sink_told (O.written out.old) (O.puts out.old))
        (sink_told (O.written out.new) (O.puts out.new)) }
    ensures writes { EndsByFault (Some Status.WriteFault) result
        (O.faults out.old) (O.faults out.new) }
{
    let Ok(()) = push_reply_line(alloc, waiting, reply) else {
        return Some(Status::Memory);
    };
    match put_if_much(waiting, out) {
        Ok(()) => None,
        Err(_) => Some(Status::WriteFault),
    }
}

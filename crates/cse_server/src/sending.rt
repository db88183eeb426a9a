//! Items of the outbox, and their way out.
ghost use Rattle.std.specs.Prelude.{ℕ, List, Option, [], OnOk, OnErr};
ghost use Rattle.primitive_json.specs.Notes.{IsSomeUrl};
ghost use Rattle.cse_server.specs.Outside.{Carries, link_told};
ghost use Rattle.cse_server.specs.Sending.{SendsItems, TakesItem, carried_for, carried_to};

use cse_machine::{Event, Outcome};
use http_client_binding::{Aim, host_of, request_bytes};
use m2m_io::{Clock, Link, LinkFault};
use primitive_json::{Dest, Note, NoteParts, Request};
use service_observer::ItemObserver;
use std::alloc::{AllocError as OutOfMemory, Global};
use turn_desk::Desk;

/// The most items that one call sends.
pub const MOST_ITEMS: u64 = 100_000;

/// Exchanges a request with the host of a URL, once. What is answered is let go.
fn exchange_once<L: Link>(
    alloc: Global,
    link: &mut L,
    url: &[u8],
    aim: Aim,
    request: &Request,
) -> Result<(), OutOfMemory>
    requires { IsSomeUrl url.now }
    ensures ok { OnOk result ((answer : Option (List ℕ))
        × Carries (carried_to url.now aim request.now answer)
        (link_told (L.exchanges link.old) (L.faults link.old))
        (link_told (L.exchanges link.new) (L.faults link.new))) }
    ensures err { OnErr result (Carries []
        (link_told (L.exchanges link.old) (L.faults link.old))
        (link_told (L.exchanges link.new) (L.faults link.new))) }
{
    let text = request_bytes(alloc, request, url, aim)?;
    let mut reply = Vec::new(alloc);
    match link.exchange(alloc, host_of(url), &text, &mut reply) {
        Ok(()) => Ok(()),
        Err(LinkFault::Failed) => Ok(()),
        Err(LinkFault::OutOfMemory) => Err(OutOfMemory),
    }
}

/// Sends an item where it is to go: over the link to the host of its URL, once, whatever is
/// answered. One for a polling channel that is gone, or for what can't be reached, is let go; of the
/// latter the link is told. Where memory runs out, nothing was sent.
pub fn send_to<L: Link + ItemObserver>(
    alloc: Global,
    link: &mut L,
    note: &Note,
) -> Result<(), OutOfMemory>
    ensures ok { OnOk result ((answer : Option (List ℕ))
        × Carries (carried_for note.now.dest note.now.request answer)
        (link_told (L.exchanges link.old) (L.faults link.old))
        (link_told (L.exchanges link.new) (L.faults link.new))) }
    ensures err { OnErr result (Carries []
        (link_told (L.exchanges link.old) (L.faults link.old))
        (link_told (L.exchanges link.new) (L.faults link.new))) }
{
    let NoteParts { dest, request, .. } = note.parts();
    match dest {
        Dest::Direct(url) => exchange_once(alloc, link, url.entries(), Aim::Direct, request),
        Dest::Peer(url) => exchange_once(alloc, link, url.entries(), Aim::Peer, request),
        Dest::Nowhere => {
            link.let_go(request);
            Ok(())
        }
        Dest::Channel(_) => Ok(()),
    }
}

/// Sends an item, and lets it go.
fn send_note<L: Link + ItemObserver>(
    alloc: Global,
    link: &mut L,
    note: Note,
) -> Result<(), OutOfMemory>
    ensures ok { OnOk result ((answer : Option (List ℕ))
        × Carries (carried_for note.dest note.request answer)
        (link_told (L.exchanges link.old) (L.faults link.old))
        (link_told (L.exchanges link.new) (L.faults link.new))) }
    ensures err { OnErr result (Carries []
        (link_told (L.exchanges link.old) (L.faults link.old))
        (link_told (L.exchanges link.new) (L.faults link.new))) }
{
    send_to(alloc, link, &note)
}

/// Asks for the next item, at a reading of the clock. None where none is left.
fn take_note<D, C>(desk: &D, seat: &mut D::Seat, clock: &mut C) -> Result<Option<Note>, OutOfMemory>
where
    D: Desk<Event = Event, Outcome = Outcome>,
    C: Clock,
    requires { D.seats desk.now seat.old }
    ensures seats { D.seats desk.now seat.new }
    ensures takes { TakesItem D.grown seat.old seat.new
        (C.readings clock.old) (C.readings clock.new) result }
{
    let reading = clock.now();
    match desk.ask(seat, reading, Event::Take) {
        Outcome::Item(note) => Ok(note),
        Outcome::Done(_) | Outcome::Forward { .. } | Outcome::Ticked | Outcome::Starved { .. } =>
            Err(OutOfMemory),
    }
}

/// Takes items out of the outbox, one after another, until none is left or 100,000 were sent, and
/// says how many were sent.
///
/// Each that goes to a URL is exchanged with its host once, whatever is answered. One for a polling
/// channel that is gone, or for what can't be reached, is let go. Each is taken by a question of
/// its own at the desk, at a reading of the clock, and nothing is sent within one. Where memory
/// runs out in a question, all items before it were sent; where it does in sending an item, all
/// before that one were.
pub fn send_notes<D, C, L>(
    alloc: Global,
    desk: &D,
    seat: &mut D::Seat,
    clock: &mut C,
    link: &mut L,
) -> Result<u64, OutOfMemory>
where
    D: Desk<Event = Event, Outcome = Outcome>,
    C: Clock,
    L: Link + ItemObserver,
    requires { D.seats desk.now seat.old }
    ensures seats { D.seats desk.now seat.new }
    ensures sends { SendsItems D.grown seat.old seat.new
        (C.readings clock.old) (C.readings clock.new)
        (link_told (L.exchanges link.old) (L.faults link.old))
        (link_told (L.exchanges link.new) (L.faults link.new)) result }
{
    let mut sent = 0;
    'items: while sent < MOST_ITEMS {
        let Some(note) = take_note(desk, seat, clock)? else {
            return Ok(sent);
        };
        send_note(alloc, link, note)?;
        sent += 1;
    }
    Ok(sent)
}

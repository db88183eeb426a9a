//! Items of the outbox of an entity that is kept, and their way out.
ghost use Rattle.std.specs.Prelude.{◌≡◌, ◌⊎◌, true, false, OnOk, OnErr};
ghost use Rattle.cse_server.specs.Outside.{LinkTold, link_told};
ghost use Rattle.journaled_server.specs.Sending.{LooksNext, SaysSent, SendsLooked};
ghost use Rattle.journaled_server.specs.Sending.{SendsThenTakes, TellsTaken, sender};
ghost use Rattle.kept_desk.specs.declared.turn.Answer.TheVariants.{Kept};

use crate::LossSignal;
use crate::carrying::{Carried, carry};
use cse_server::MOST_ITEMS;
use journal_events::{Came, KeptEvent, KeptOutcome};
use kept_desk::Answer;
use m2m_io::{Clock, Link};
use notify_outbox::Item;
use service_observer::ItemObserver;
use std::alloc::{AllocError as OutOfMemory, Global};
use turn_desk::Desk;

/// Asks which item is to be sent next, at a reading of the clock. None where none is left.
fn look<D, C>(
    desk: &D,
    losses: &LossSignal,
    seat: &mut D::Seat,
    clock: &mut C,
) -> Result<Option<Item>, OutOfMemory>
where
    D: Desk<Event = KeptEvent, Outcome = Answer<Came>>,
    C: Clock,
    requires { D.seats desk.now seat.old }
    ensures seats { D.seats desk.now seat.new }
    ensures looks { (link : LinkTold) → LooksNext D.grown
        (sender seat.old (C.readings clock.old) link)
        (sender seat.new (C.readings clock.new) link) result }
{
    let reading = clock.now();
    match desk.ask(seat, reading, KeptEvent::Next) {
        Answer::Kept(came) => match came.into_outcome() {
            KeptOutcome::Next(item) => Ok(item),
            KeptOutcome::OfMachine(_) | KeptOutcome::Taken => Err(OutOfMemory),
        },
        Answer::Lost => {
            losses.raise();
            Err(OutOfMemory)
        }
    }
}

/// Whether it came that the item is taken.
fn is_taken(came: Came) -> bool
    ensures { TellsTaken result (Kept came) }
{
    match came.into_outcome() {
        KeptOutcome::Taken => true,
        KeptOutcome::OfMachine(_) | KeptOutcome::Next(_) => false,
    }
}

/// Says that an item is sent, at a reading of the clock, and tells whether it is taken.
fn say_sent<D, C>(
    desk: &D,
    losses: &LossSignal,
    seat: &mut D::Seat,
    clock: &mut C,
    carried: &Carried,
) -> bool
where
    D: Desk<Event = KeptEvent, Outcome = Answer<Came>>,
    C: Clock,
    requires { D.seats desk.now seat.old }
    ensures seats { D.seats desk.now seat.new }
    ensures says { (link : LinkTold) → SaysSent D.grown carried.now.number
        (sender seat.old (C.readings clock.old) link)
        (sender seat.new (C.readings clock.new) link) result }
{
    let reading = clock.now();
    match desk.ask(seat, reading, KeptEvent::Sent(carried.number())) {
        Answer::Kept(came) => is_taken(came),
        Answer::Lost => {
            losses.raise();
            false
        }
    }
}

/// What comes of sending an item.
fn all_well(is_whole: bool, is_taken: bool) -> Result<(), OutOfMemory>
    ensures ok { OnOk result ((is_whole ≡ true) × (is_taken ≡ true)) }
    ensures err { OnErr result ((is_whole ≡ false) ⊎ (is_taken ≡ false)) }
{
    if is_whole && is_taken {
        Ok(())
    } else {
        Err(OutOfMemory)
    }
}

/// Sends an item that was looked at, and says that it is sent.
fn send_item<D, C, L>(
    alloc: Global,
    desk: &D,
    losses: &LossSignal,
    seat: &mut D::Seat,
    clock: &mut C,
    link: &mut L,
    item: Item,
) -> Result<(), OutOfMemory>
where
    D: Desk<Event = KeptEvent, Outcome = Answer<Came>>,
    C: Clock,
    L: Link + ItemObserver,
    requires { D.seats desk.now seat.old }
    ensures seats { D.seats desk.now seat.new }
    ensures sends { SendsLooked D.grown item
        (sender seat.old (C.readings clock.old)
        (link_told (L.exchanges link.old) (L.faults link.old)))
        (sender seat.new (C.readings clock.new)
        (link_told (L.exchanges link.new) (L.faults link.new))) result }
{
    let carried = carry(alloc, link, item);
    let is_taken = say_sent(desk, losses, seat, clock, &carried);
    all_well(carried.is_whole(), is_taken)
}

/// Sends the items of an outbox, one after another, until none is left or 100,000 were sent, and
/// says how many were sent.
///
/// Each is looked at first, and stays in the outbox. Then it is sent as by `send_notes` of the
/// crate cse_server, and then it is taken. So a crash in between leaves it there, and it is sent
/// once more. Each question is asked at a reading of the clock, and nothing is sent within one.
/// Where memory runs out in sending an item, this one is let go, and no more are sent. No more are
/// where an answer is lost, which raises the signal, or memory runs out for it.
pub fn send_kept<D, C, L>(
    alloc: Global,
    desk: &D,
    losses: &LossSignal,
    seat: &mut D::Seat,
    clock: &mut C,
    link: &mut L,
) -> Result<u64, OutOfMemory>
where
    D: Desk<Event = KeptEvent, Outcome = Answer<Came>>,
    C: Clock,
    L: Link + ItemObserver,
    requires { D.seats desk.now seat.old }
    ensures seats { D.seats desk.now seat.new }
    ensures sends { SendsThenTakes D.grown
        (sender seat.old (C.readings clock.old)
        (link_told (L.exchanges link.old) (L.faults link.old)))
        (sender seat.new (C.readings clock.new)
        (link_told (L.exchanges link.new) (L.faults link.new))) result }
{
    let mut sent = 0;
    'items: while sent < MOST_ITEMS {
        let Some(item) = look(desk, losses, seat, clock)? else {
            return Ok(sent);
        };
        send_item(alloc, desk, losses, seat, clock, link, item)?;
        sent += 1;
    }
    Ok(sent)
}

//! What an entity that is kept is asked, and what comes of it.
use cse_machine::{Event, Outcome};
use notify_outbox::Item;

/// What an entity that is kept is asked at one moment.
#[derive(Drop)]
pub enum KeptEvent {
    /// An event of the machine.
    OfMachine(Event),
    /// Which item is to be sent next, once what is due is gone. It stays in the outbox.
    Next,
    /// The item of this number was sent: it is taken, if it is still the next one.
    Sent(u64),
}

/// What comes of it.
#[derive(Drop)]
pub enum KeptOutcome {
    /// What came of an event of the machine; or `Starved`, whatever was asked: memory ran out.
    OfMachine(Outcome),
    /// The item that is to be sent next; None where each waits for a polling channel.
    Next(Option<Item>),
    /// The item that was sent isn't the next one any more.
    Taken,
}

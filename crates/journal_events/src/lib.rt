//! What a CSE is asked that keeps a journal, and what comes of it: the events of the machine, and
//! two of who sends what waits in the outbox.
//!
//! An item that was taken from the outbox before it is sent would be lost by a crash in between.
//! So `Next` tells which item is to be sent, and leaves it in the outbox. Once it was sent,
//! `Sent` with its number takes it. A crash in between leaves it there, and it is sent once more.
//! If it isn't the next item any more, as it has waited too long or its channel was made, `Sent`
//! takes nothing, and who sends looks again (specs/Steps). What came of an event is handed on as a
//! `Came`, which has few bytes.
//!
//! Laws say which events of the machine have to be kept, so that playing them again makes the
//! entity that all of them made. An event is kept with the moment that the entity has after it, and
//! not with the reading of the clock, which may lie before an earlier one. An event is left out
//! only where it changed nothing but the moment (specs/Kept). No program calls these laws; the
//! proofs of journaled_entity stand on them.
//!
//! ```text
//! KeptEvent::Next             // KeptOutcome::Next(Some(item)): send item.note
//! KeptEvent::Sent(item.number) // KeptOutcome::Taken
//! KeptEvent::OfMachine(Event::Ask(request)) // KeptOutcome::OfMachine(Outcome::Done(reply))
//! ```
#![tactic(auto)]

mod came;
mod event;
mod laws;

pub use came::Came;
pub use event::{KeptEvent, KeptOutcome};
pub use laws::{
    a_sweep_that_takes_nothing_changes_nothing, an_item_stays_until_it_was_sent,
    each_event_is_one_of_the_machine, what_is_kept_makes_the_entity, what_is_told_stays,
};

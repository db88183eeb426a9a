//! A CSE that answers later: requests that ask for it are accepted at once, run afterwards, and
//! their results are kept for who asked (TS-0001, 8.2.1 and 9.6.12). The crate accepted_requests
//! keeps them, and says what is answered for them.
//!
//! `LaterEntity` is an entity beside the requests that it accepted, as an object of the crate
//! turn_desk over the machine's events and outcomes. `later_step` is its step, and exactly the
//! relation `LaterStep` of `specs/Step`. An event first runs the accepted requests that wait, each
//! as one step of the machine: those that were accepted at an earlier moment, and all of them where
//! no request is asked. Then those that are due go, a day behind their acceptance. Then the event
//! is a step of the machine.
//!
//! Its outcome stands but in two cases (`specs/Effects`). A request with response type 1 that is
//! sent to this CSE, and to no accepted request, is accepted under the next number, while there is
//! room. A request to an accepted request, as `req1`, is answered to its originator alone: a
//! Retrieve shows it with its result, a Delete takes it away. For these replies
//! memory may run out, and then nothing is accepted, shown or taken away.
//!
//! A run takes no memory beside the machine's: an accepted request is kept ready to be asked, with
//! the reply for which memory runs out.
//!
//! ```text
//! let mut state = LaterEntity::new(alloc, entity);
//! later_step(&mut state, 1_700_000_000, &Event::Ask(request)) // Outcome::Done(reply)
//! ```
#![tactic(auto)]

mod entity;
mod object;
mod running;
mod stepping;

pub use entity::LaterEntity;
pub use stepping::{answer, asked_by, later_step};

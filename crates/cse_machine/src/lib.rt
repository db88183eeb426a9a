//! The oneM2M machine: what a CSE answers one event after another (TS-0001, 10; TS-0004, 7).
//!
//! Callers hand `step` an entity, a reading of the clock and an event, and get the outcome; the
//! entity is then the one after it. An event is a request, the wish for the next item of the
//! outbox, or that time has passed. Outcome and entity are exactly the relation `Step` of
//! `specs/Step`: one function of the event and of the entity without what is due, and want of
//! memory as the one free answer. What an expiry or a request changes is told to the subscriptions
//! that look for it, as items of the outbox, those of the expiry first.
//!
//! Every request may be asked. An announced resource, which stands for one of another CSE, is
//! created, read, updated and deleted as any other. A resource of this CSE that is announced
//! elsewhere has copies there: what its changes send to them stands in the outbox, behind what they
//! tell. A Notify to an AE is handed on by an item of the outbox. A Retrieve of a poll point gives
//! the first item that waits for its channel, which is then taken; a Notify to it is the answer of
//! who polled, and isn't kept. A request to a fan-out point is done on each member of its group, by
//! the crate group_fanout; where memory runs out in that, the outcome says how many members are
//! done. A request to another CSE goes on to it where the crate retarget knows a way: the outcome
//! is where it goes and what is sent there, and no right is judged here.
//!
//! `observe_step` tells besides whether the event took an item of the outbox (`took` of
//! `specs/Step`): who keeps a journal has to know that of a poll.
//!
//! The laws of these definitions stand in guard_laws and machine_laws.
//!
//! ```text
//! match step(alloc, entity, 1_700_000_000, &Event::Ask(request)) {
//!     Outcome::Done(reply) => Some(reply),
//!     Outcome::Forward { poa, request } => ask_there(poa, request),
//!     _ => None, // memory ran out
//! }
//! ```
#![tactic(auto)]

mod event;
mod judging;
mod machine;

pub use event::{Event, ObservedStep, Outcome};
pub use machine::{observe_step, step};

//! What serves connections of a CSE that is kept in a journal.
//!
//! A `PlainDesk` asks a desk that gives no answer before it is kept, and answers as a desk of the
//! machine does: where the answer is lost, that memory ran out, so that its client is answered
//! 5000. What is generic over desks, as an `Answerer` or a `Binding`, serves over it unchanged. It
//! raises a `LossSignal` then, and a `LossDoor` gives no more connections once that is raised.
//!
//! An item of the outbox is looked at, sent, and then taken (specs/Sending). So a crash in between
//! leaves it there, and it is sent once more: none is lost.
//!
//! `serve_kept_alone` and `send_kept_alone` are for who holds the object; `serve_journaled` has
//! workers attend to the connections of a door by a binding, at a shared desk of a kept object.
//! They do what `serve_alone`, `send_alone` and `serve_by` of the crate cse_server do at a desk of
//! the machine's.
//!
//! ```text
//! let object = KeptObject::new(alloc, recorder, journal, first);
//! let mut seat = OwnSeat::new(object);
//! serve_kept_alone(alloc, &mut seat, &mut conn, clock, link, &Plainly);
//! send_kept_alone(alloc, &mut seat, clock, link)
//! ```
#![tactic(auto)]

mod alone;
mod carrying;
mod door;
mod plain;
mod sending;
mod serving;
mod signal;

pub use alone::{send_kept_alone, serve_kept_alone};
pub use door::LossDoor;
pub use plain::PlainDesk;
pub use sending::send_kept;
pub use serving::serve_journaled;
pub use signal::LossSignal;

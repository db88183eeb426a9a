//! A desk that gives no answer before what it tells is kept.
//!
//! An object that keeps what it does is asked a `Turn`: an event, or to put on the disk what it has
//! done so far. Its `Report` on an event is the outcome, and whether all that it did up to then is
//! on the disk. A `KeptDesk` asks such an object at any desk. It gives the outcome as `Kept` where
//! the object reports that it is on the disk, at the event's own turn or at a turn to settle that
//! it asks for behind it. Else the answer is `Lost`. Turns of others may come between the two, and
//! share what is put on the disk.
//!
//! Callers see a `KeptDesk` as any desk. Its seat grew by an event and its answer only where the
//! object's own reports stand behind that answer (specs/Kept). Whether an object puts on the disk
//! what it reports is a matter of its steps.
//!
//! ```text
//! let desk = KeptDesk::new(&turns); // a desk of an object that keeps what it does
//! match desk.ask(&mut seat, reading, event) {
//!     Answer::Kept(outcome) => Some(outcome), // a crash from now on leaves it done
//!     Answer::Lost => None,
//! }
//! ```
#![tactic(auto)]

mod kept;
mod turn;

pub use kept::KeptDesk;
pub use turn::{Answer, Report, Turn};

//! Who may ask an object, and what those who ask know of the answers.
//!
//! An `Object` changes by events and answers each; its ghost relation `step` says which steps there
//! are. It is asked at a `Desk`, by those who have a seat. Of a desk callers see two things: the
//! fact `seats`, that a seat is of this desk and stands between two questions, and the relation
//! `grown`, that a seat grew by a list of entries, each of which is a reading of the clock, an
//! event and its outcome, marked as the seat's own or as another's. `ask` makes the seat grow by
//! others' entries and then by one own entry, which has this reading, this event and this answer.
//!
//! Callers owe `seats` at each question, and get it back. Who asks several times says by `Grew`
//! which own entries its seat grew by, or by `AsksAll` the same as three lists (specs/Growth), and
//! goes on by the lemmas of proofs/GrowthLemmas, which need no more of a desk than its two laws.
//!
//! At an `OwnDesk` each seat holds an object of its own: nobody else asks it, and its entries are a
//! run of the object's steps (`an_owner_sees_a_run`). It takes no memory and never waits.
//!
//! At a `TurnDesk` several seats ask one object, one after another, from threads of their own if
//! need be. What each seat has seen begins one log (specs/Shared), each entry of which is one
//! seat's own. A seat is split into two and two are joined into one; who has the whole desk closes
//! it and gets the object back, as the log leaves it. A question waits for its turn, so it owes no
//! return.
//!
//! ```text
//! let (desk, mut seat) = (OwnDesk::new(), OwnSeat::new(object));
//! let outcome = desk.ask(&mut seat, reading, event); // one step of the object
//! (seat.into_object(), outcome)
//! ```
#![tactic(auto)]

mod desk;
mod entry;
mod laws;
mod object;
mod own;
mod shared;
mod turnstile;
mod view;

pub use desk::Desk;
pub use entry::Entry;
pub use laws::an_owner_sees_a_run;
pub use object::Object;
pub use own::{OwnDesk, OwnSeat};
pub use shared::{DeskSeat, TurnDesk, Turns};
pub use view::View;

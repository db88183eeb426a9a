//! A CSE that answers later, and whose journal makes it again: what is written down of each event.
//!
//! `JournaledLater` is a `Journaled` entity beside the requests that it accepted. An event first
//! runs those that wait, drops those that are due, and is taken then, as by the crate later_replies
//! (specs/Steps). Each step of the entity inside is written down by `Journaled` itself: its deed, or
//! none where nothing changed. Words on the accepted requests are written behind it: the result of
//! a run behind its deed; which went; and which was accepted, behind the deed of an expiry at that
//! moment, so that what is played has the moment of the acceptance. All that is written of an event
//! is one piece, so that a crash keeps a run with its result, and no answer without what it says.
//!
//! A request that wouldn't be read back isn't accepted, as for want of memory. A result that
//! wouldn't be read back, or a run that was cut short, gives the journal up.
//!
//! `open_later` opens such a CSE at its journal, as an object that is kept in it; a file that is
//! refused is given back. The laws say what a crash leaves (specs/Crashes): each request whose
//! acceptance was answered is there, waiting or with its result, unless it was due or deleted by its
//! originator. That it is run once is a law of later_laws.
//!
//! ```text
//! let object = open_later(alloc, home, IndexTree::new(alloc), file)?; // or why not
//! let (desk, mut seat) = (OwnDesk::new(), OwnSeat::new(object));
//! let kept = KeptDesk::new(&desk);
//! kept.ask(&mut seat, reading, KeptEvent::OfMachine(event)) // no answer before it is kept
//! ```
#![tactic(auto)]

mod answering;
mod inside;
mod laws;
mod opening;
mod recorder;
mod running;

pub use journaled_entity::Unopened;
pub use laws::{
    each_event_is_one_of_later, turns_are_histories, what_was_accepted_is_opened_again,
};
pub use opening::open_later;
pub use recorder::JournaledLater;

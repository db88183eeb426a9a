//! A CSE whose journal makes it again: what is written down of each event.
//!
//! `Journaled` is an entity that takes one event at a time by the machine's step, as the object of
//! the crate cse_server does, and writes down the deed that has to be done again for it. A text
//! keeps an entity where it is the journal of a home, as the crate journal_opening has it, and what
//! the journal makes is that entity at the same moment or an earlier one (specs/Keeping).
//!
//! What may have changed something more than an expiry does is written down as itself, at the
//! moment that the entity has after it: what was served and is no Retrieve, and what took an item
//! of the outbox, as the machine tells (specs/Changes). An expiry by which resources or items came
//! or went is written down as such. Nothing else is written. In the second of the last event
//! nothing expires, and a Retrieve changes nothing unless it takes an item. So there only the items
//! are counted, before and after it. A request that wouldn't be read back as it is isn't done, and
//! is answered as one for which memory ran out. `open_kept` opens an entity at its journal, as an
//! object that is kept in it; a file that is refused is given back.
//!
//! Its events are those of the crate journal_events. To tell which item is to be sent writes
//! nothing of it, so that a crash leaves the item in the outbox. Its taking is written down once it
//! was sent.
//!
//! ```text
//! let object = open_kept(alloc, home, IndexTree::new(alloc), file)?; // or why not
//! let (desk, mut seat) = (OwnDesk::new(), OwnSeat::new(object));
//! let kept = KeptDesk::new(&desk);
//! kept.ask(&mut seat, reading, KeptEvent::OfMachine(event)) // no answer before it is kept
//! ```
#![tactic(auto)]

mod changes;
mod handing;
mod laws;
mod lines;
mod opening;
mod recording;
mod sending;

pub use changes::may_change;
pub use handing::hand_on;
pub use laws::{
    no_item_is_lost, what_may_not_change_is_an_expiry, what_was_answered_is_opened_again,
};
pub use opening::{Unopened, open_kept};
pub use recording::Journaled;

//! An object that keeps what it does in the file of a journal.
//!
//! A `Recorder` takes steps as an object does, and writes down what has to be played again for each
//! of them: nothing where nothing has to be. A `KeptObject` is a recorder, a journal, and the lines
//! that wait to be put behind the journal's text. It is asked turns, as the crate kept_desk has
//! them. On an event the recorder takes a step and its lines wait; `Settle` puts all that waits
//! behind the text as one batch, and reports so once that is on the disk. Where the text has grown
//! to four times what it began with, `Settle` also replaces it by a snapshot of the recorder, if
//! the recorder has one. Where the file fails, or what was done can't be written down, the journal
//! has failed: nothing more is done from then on.
//!
//! Callers see the steps of a `KeptObject` (specs/Steps), and by a law what a crash leaves of them
//! (specs/Crashing): the text of an object that the first of the turns made, among which is each
//! one that was reported to be on the disk, with all before it. A `KeptDesk` gives no answer before
//! such a report.
//!
//! ```text
//! let object = KeptObject::new(alloc, recorder, journal, first);
//! let (desk, mut seat) = (OwnDesk::new(), OwnSeat::new(object));
//! let kept = KeptDesk::new(&desk);
//! kept.ask(&mut seat, reading, event) // Kept where each crash from then on leaves it done
//! ```
#![tactic(auto)]

mod laws;
mod object;
mod recorder;

pub use laws::no_answer_is_lost;
pub use object::KeptObject;
pub use recorder::Recorder;

//! A CSE that answers later is opened at the journal of what was done at it.
//!
//! Such a journal has words on accepted requests between the lines of its deeds, as the crate
//! later_lines has them. An `Act` is a deed or a word. `play_later_back` opens the entity inside
//! and the accepted requests at a file: a deed is done again as the crate journal_opening does it,
//! and a word does to the accepted requests what it says (specs/Making). A word has to fit: what is
//! accepted has a number above the last that was given. A line that begins no act, or a word that
//! doesn't fit, is refused as one that begins no deed is.
//!
//! Callers get both, and the file ready for what is done next (specs/Journals). A journal without a
//! word opens as it does for a CSE that answers at once, with no accepted request. What is refused
//! has each byte that it had. Opening may be cut off at any moment: the file keeps the same journal.
//! `later_snapshot` gives the bytes of a file whose journal makes the two at once.
//!
//! ```text
//! let played = play_later_back(alloc, &mut file, home, IndexTree::new(alloc))?; // or why not
//! let journal = Journal::new(file, played.len);
//! ```
#![tactic(auto)]

mod act;
mod laws;
mod making;
mod opening;
mod playing;
mod snapshot;

pub use act::Act;
pub use journal_opening::{LineFault, OpeningFault};
pub use laws::{a_journal_opens_as_its_acts, journals_grow, numbers_rise};
pub use opening::{PlayedLater, play_later_back, play_later_file};
pub use snapshot::later_snapshot;

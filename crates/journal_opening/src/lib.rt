//! A CSE is opened at the journal of what was done at it.
//!
//! `play_back` reads a file of which contracts see what a crash may leave, and does again what its
//! lines say, each deed by the machine's step at its own moment. Callers get the entity that the
//! deeds make, and the file ready for what is done next (specs/Journals). A journal of another home
//! or of another format, and one with a line that is no deed or a deed of the format 1, is refused;
//! its file then has each byte that it had. Opening may be cut off at any moment: the file keeps
//! the same journal.
//!
//! A journal begins with a header, and with the entity of a home that opens; or it begins with the
//! snapshot of an entity of that home, which whoever replaced it by a shorter one has written. The
//! lines of deeds stand behind either. `play_file` gives the entity and leaves the file as it is.
//!
//! `first_text` gives what a new journal's file has in it, and `snapshot_bytes` what one has in it
//! that was replaced by the snapshot of an entity. Who appends the lines of a deed to a journal has
//! a journal of one deed more; the laws of this crate say so.
//!
//! `begin`, `play`, `is_shut`, `read_bytes` and `set_aside` are the pieces of an opening, for who
//! plays lines of other kinds between those of deeds.
//!
//! ```text
//! let first = first_text(alloc, &home, clock.now())?;
//! let mut file = DiskFile::open(rt, "journal", &first)?;
//! let played = play_back(alloc, &mut file, home, IndexTree::new(alloc))?; // or why not
//! let journal = Journal::new(file, played.len);
//! ```
#![tactic(auto)]

mod aside;
mod fault;
mod first;
mod laws;
mod opening;
mod playing;

pub use aside::set_aside;
pub use entity_snapshot::LineFault;
pub use fault::OpeningFault;
pub use first::{first_text, snapshot_bytes};
pub use laws::{
    a_journal_opens_as_its_deeds, a_journal_stays_at_its_home, a_snapshot_is_a_journal,
    deeds_make_an_entity, journals_grow,
};
pub use opening::{Played, begin, play_back, play_file, read_bytes};
pub use playing::{fault_at, is_shut, play};

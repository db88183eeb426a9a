//! The file of a journal: a text that grows by batches, each of which is kept whole or not at all.
//!
//! The first byte of a batch is its gate: `@` where it is open, and LF where it is closed. Behind
//! the text stands a closed gate. A batch is written behind it, and its gate is opened by a write
//! of its own once the batch is on the disk. So whatever a crash leaves of either write, the file
//! keeps the text from before the batch or the text with it (specs/Gates), and no checksum is
//! trusted for it.
//!
//! `close_behind` makes a file ready of which callers know how long its text is: it cuts away what
//! stands behind the text, and closes the gate there. A crash in it leaves the same text. A
//! `Journal` that has failed does nothing more, as nobody knows what its file holds until it is
//! opened again.
//!
//! ```text
//! close_behind(&mut file, text.len())?; // what a crash left behind the text is cut away
//! let mut journal = Journal::new(file, text.len());
//! journal.append(b"@1700000000\n{\"fr\":\"C1\"}\n")?; // from then on each crash leaves it
//! ```
#![tactic(auto)]

mod calls;
mod journal;

pub use journal::{Journal, close_behind};

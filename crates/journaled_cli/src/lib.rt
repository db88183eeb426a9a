//! The program's commands over a journal: `http` and `serve` with an entity that is kept in a file.
//!
//! `run_journaled` does a command whose line names a journal, as the crate command_words reads it:
//! it opens the entity at the file, and then does what `http` or `serve` does, but that no answer is
//! given before what it tells is kept. Where the file fails, everything from then on is answered
//! 5000 and not done, and the status is that writing failed.
//!
//! `run_snapshot` does the command `snapshot`: it replaces a journal by the snapshot of the entity
//! that it makes, so that it opens fast again.
//!
//! ```text
//! Asked::RunOver(name, command) => run_journaled(
//!     rt, alloc, command, name, file, &mut streams, server,
//! ) // Status::Done where all is well
//! ```
#![tactic(auto)]

mod command;
mod http;
mod observed;
mod serve;
mod snapshot;
mod streams;

pub use command::run_journaled;
pub use snapshot::run_snapshot;
pub use streams::CommandStreams;

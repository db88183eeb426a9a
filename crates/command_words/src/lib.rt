//! The words of a command line, as they stand behind the program's name: what they ask for.
//!
//! `read_line` reads them once. The first is the name of a command, and behind it stand the options
//! that this command takes, in any order, each at most once, with the value behind an equals sign or
//! in a word of its own that begins with no dash. `clap` reads these. `gen` has one number behind
//! it, and `snapshot` the name of a file before its options. What is read is a command with the home
//! of its entity, alone or over a journal, or a question about the program itself (`asked_in` of
//! specs/Line). A list of words asks for something exactly where `read_line` gives it, unless memory
//! runs out. Of all others it says which word can't stand there, and what was wanted.
//!
//! ```text
//! match read_line(alloc, words) {
//!     Ok(Asked::Run(command)) => run(command.task, command.home),
//!     Err(LineFault::Words(fault)) => say(fault), // `--workers 0: a number from 1 to 4096`
//!     ..
//! }
//! ```
#![tactic(auto)]

mod command;
mod faults;
mod help;
mod home;
mod line;
mod names;
mod options;
mod program;

pub use command::{Bind, Command, Logged, Serving, Task};
pub use faults::{LineFault, Wanted, WordFault};
pub use help::{HELP, VERSION};
pub use line::{Asked, answers_later, may_keep, read_command, read_line};

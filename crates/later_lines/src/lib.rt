//! The words of a journal on requests that are answered later: what was done with the requests that
//! a CSE accepted, as text.
//!
//! A `Word` says that a request was accepted, that it was run and what its reply was, that it went
//! since its originator deleted it, that those went which were due at a moment, or which number was
//! given last. It has two lines: the mark `@3:` with the word's name, and a value in JSON
//! (specs/Words). The mark of a deed has another number, so that who plays deeds alone reads no
//! deed there. What is written of a word is read back as it. A request or a reply that wouldn't be
//! read back, since it is too deep or its expiry too long, is refused before anything of it is
//! written.
//!
//! `first_word` reads the lines at the front of a text and tells how many bytes they have. It gives
//! none where they are no such lines.
//!
//! ```text
//! push_accepted(alloc, &mut text, &entry)?; // @3:accepted and its members
//! push_ran(alloc, &mut text, 1, &reply)?; // @3:ran, the number and the reply
//! push_gone(alloc, &mut text, 1)?; // @3:gone and the number
//! let word = first_word(alloc, &mut scratch, &text)?; // with the length of its lines
//! ```
#![tactic(auto)]

mod keeping;
mod laws;
mod reading;
mod word;
mod writing;

pub use journal_lines::LineFault;
pub use laws::{what_is_read_is_spelled, words_are_no_deeds, words_are_read_back};
pub use reading::first_word;
pub use std::alloc::AllocError as OutOfMemory;
pub use word::Word;
pub use writing::{push_accepted, push_due, push_given, push_gone, push_ran};

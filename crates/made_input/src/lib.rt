//! A made input: a list of requests of one originator, of which each is put to an entity of its
//! own, and one line on what they were answered.
//!
//! Callers say how many requests are counted, and hand in a sink. `generate` opens an entity with
//! the default home at the reading 0, and puts to it the requests of `specs/Requests`, one after
//! another, each at its reading: first those that make an AE, four containers, a subscription and
//! a group, and then those that are counted. What it writes is the line of `specs/Counts` for the
//! run of the machine over them.
//!
//! ```text
//! match generate(alloc, 10, out) {
//!     Status::Done => {} // one line was written
//!     other => return Ok(other), // no line, or a part of it
//! }
//! ```
#![tactic(auto)]

mod contents;
mod line;
mod making;
mod requests;
mod tally;

pub use making::generate;

//! A link in memory to another CSE, which lives behind it: an exchange serves the bytes of the
//! request as one connection of that CSE, and what this writes is the answer. The CSE behind it has
//! a link of its own, which fails at each exchange, so that no request goes on from there.
//!
//! Callers see the entity behind the link, its clock, the exchanges, and those that are to fail
//! (`PeerLink`), and of an answer that it is the talk of that entity with the request's bytes
//! (`specs/PeerTalk`), in which nothing went on.
//!
//! ```text
//! let clock = MemClock::new(readings);
//! let mut link = PeerLink::new(alloc, entity, clock, Vec::new(alloc));
//! let reply = carry(alloc, &mut link, b"http://127.0.0.1:8081", &request)?;
//! ```
#![tactic(auto)]

mod conn;
mod link;
mod nowhere;

pub use link::PeerLink;

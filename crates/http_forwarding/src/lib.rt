//! Requests that are forwarded to another CSE by the HTTP binding (TS-0004, 7.3.2.6; TS-0009), over
//! a link, at its point of access.
//!
//! `carry` sends a request to the CSE at a URL, by one exchange with the host of the URL, and gives
//! the reply that the caller gets: the other's status and content, with the identifier of the
//! request; or TARGET_NOT_REACHABLE, where the exchange failed or its answer isn't one reply and
//! nothing else. Callers owe a URL, as `m2m_names::read_url` tells one. They see what was exchanged
//! as a `Carrying`, which is marked where memory ran out. Where a request goes is told by the crate
//! retarget.
//!
//! ```text
//! let reply = carry(alloc, link, b"http://127.0.0.1:8081", &request)?;
//! ```
#![tactic(auto)]

mod answer;
mod carrying;
mod laws;
mod sending;

pub use carrying::carry;
pub use laws::{an_answer_gives_one_reply, what_is_told_is_carried};
pub use std::alloc::AllocError as OutOfMemory;

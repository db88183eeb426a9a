//! What the operations of a CSE are for announced copies (TS-0001, 9.6.26 and 10.2.18).
//!
//! No program stands on it. Each law is the clause of a function without a body. An Update that
//! names nothing that copies follow leaves what they have. Subscriptions that are lowered or go
//! change nothing for copies. Creations, Updates, deletions and expiries that are told are
//! operations.
//!
//! ```text
//! what_is_not_followed_stays(); // each call has its law as its contract
//! marks_are_quiet();
//! ```
#![tactic(auto)]

mod laws;

pub use laws::{marks_are_quiet, what_is_not_followed_stays, what_is_told_is_an_operation};

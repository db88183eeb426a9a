//! The law of announced copies along the histories of a CSE (TS-0001, 9.6.26 and 10.2.18).
//!
//! No program stands on it. It is the clause of a function without a body. From a sound CSE of
//! which nothing is announced, whatever requests come and whatever expires: once all that was ever
//! sent to another CSE is carried out there, in order, each resource that is announced there has
//! one entry, with its values, and no other entry stands there.
//!
//! ```text
//! copies_follow_histories(); // the call has its law as its contract
//! ```
#![tactic(auto)]

mod laws;

pub use laws::copies_follow_histories;

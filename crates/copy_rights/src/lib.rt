//! By what right something is sent about announced copies (TS-0001, 9.6.2 and 9.6.26).
//!
//! No program stands on it. The law is the clause of a function without a body, over the
//! definitions of create_delete. What an operation sends about copies goes to a CSE that `at` of
//! the resource listed before, or that it lists now by a right of the originator: CREATE on the
//! parent, or UPDATE on the resource. Nothing is sent but the content of a copy of that resource.
//!
//! ```text
//! what_is_sent_about_copies_is_announced_by_right(); // the law is its contract
//! ```
#![tactic(auto)]

mod laws;

pub use laws::what_is_sent_about_copies_is_announced_by_right;

//! Laws of what a Retrieve shows and what a discovery finds, over every list of resources.
//!
//! No program stands on them, but the proofs of guard_laws do. Each is the clause of a function
//! without a body, about the definitions of addressing and retrieve_discover. Nothing is shown or
//! found without a grant, and what a reply tells of other resources is told by right.
//!
//! ```text
//! nothing_is_shown_or_found_without_a_grant(); // each call has its law as its contract
//! what_is_shown_is_a_filter();
//! others_are_shown_and_found_by_right();
//! ```
#![tactic(auto)]

mod rights;

pub use rights::{
    nothing_is_shown_or_found_without_a_grant, others_are_shown_and_found_by_right,
    what_is_shown_is_a_filter,
};

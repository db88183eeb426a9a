//! Laws of announced copies: those at another CSE follow their originals (TS-0001, 9.6.26 and
//! 10.2.18).
//!
//! No program stands on them. Each is the clause of a function without a body, over every list of
//! resources. What stands at a CSE is what the operations that are sent there leave, carried out
//! one after another from nothing (`replica` of `specs/Replica`). After an operation each resource
//! that is announced there has one entry, with its values, and no other entry stands there; an
//! instance has one where its container was announced at its creation and ever since.
//!
//! ```text
//! copies_follow(); // each call has its law as its contract
//! copies_follow_an_operation();
//! ```
#![tactic(auto)]

mod laws;

pub use laws::{
    copies_follow, copies_follow_an_operation, creations_and_updates_are_operations,
    quiet_changes_belong_to_operations, removals_are_operations,
};

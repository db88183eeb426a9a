//! Laws of the machine, over the definitions of cse_machine.
//!
//! No program stands on them. Each is the clause of a function without a body. A request changes
//! what it asks for and nothing else. One that nothing speaks against is served, unless memory
//! runs out. An originator is answered by no more than it sees, but for what polls show. From a CSE
//! with an empty outbox on, the outbox holds what was appended since, less what was given away or
//! dropped. That nothing is shown or changed without a grant, and what a history leaves, stands in
//! guard_laws. And in the tree with an index an address names its resource by at most one counted
//! look-up for each of its segments (`resolve_by_index`).
//!
//! ```text
//! what_may_be_served_is_served(); // each call has its law as its contract
//! equal_sights_are_answered_alike();
//! a_step_changes_what_is_asked_alone();
//! ```
#![tactic(auto)]

mod laws;
mod resolving;

pub use laws::{
    a_poll_has_the_segment_of_a_poll_point, a_retrieve_is_refused_in_order,
    a_sight_has_the_shape_of_its_entity, a_step_changes_what_is_asked_alone,
    an_originator_is_answered_by_what_it_sees, equal_sights_are_answered_alike,
    the_outbox_holds_what_was_appended, what_is_of_its_kinds_has_the_form,
    what_may_be_served_is_served,
};
pub use resolving::resolve_by_index;

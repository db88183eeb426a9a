//! What holds of every Create, Update and Delete of a resource: laws on the definitions of the
//! crate create_delete, on which no program stands.
//!
//! An operation that no place refuses is served, and no place refuses what an originator may do. A
//! Create that is served adds one resource, an Update changes its target alone, and a Delete takes
//! its target with all that stands below it. A Create and an Update remove besides at most
//! instances that a container pushes out. In each operation the next number rises by exactly as
//! many as are new. The changes that an operation makes, one after another, are those that it
//! prepares. A group keeps each member that it is asked to have once, and none of another type than
//! its own. All this is said of what an operation does before anybody is told (`effect_at`); what
//! is told comes behind, with the same reply.
//!
//! ```text
//! what_may_be_done_is_served(); // each call has its law as its contract
//! a_creation_adds_one_resource();
//! an_update_changes_its_target_alone();
//! ```
#![tactic(auto)]

mod changes;
mod groups;
mod laws;

pub use changes::the_changes_are_those_that_are_prepared;
pub use groups::a_group_keeps_its_members_once;
pub use laws::{
    a_creation_adds_one_resource, a_deletion_takes_what_stands_at_or_below_its_target,
    an_update_changes_its_target_alone, the_next_number_rises_by_what_is_new,
    what_is_done_is_told_behind, what_may_be_done_is_served, what_no_place_refuses_is_served,
};

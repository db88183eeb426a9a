//! Laws of what the machine shows and changes, and of what a history leaves, over the definitions
//! of cse_machine.
//!
//! No program stands on them. Each is the clause of a function without a body. What is shown or
//! changed is so by a grant to the originator. What is refused or read changes nothing, nor does
//! want of memory. Each entry of a legal history is such a step, and a history goes one way.
//!
//! ```text
//! nothing_is_shown_or_changed_without_a_grant(); // each call has its law as its contract
//! what_is_refused_or_read_changes_nothing();
//! a_history_goes_one_way();
//! ```
#![tactic(auto)]

mod laws;

pub use laws::{
    a_history_goes_one_way, nothing_is_shown_or_changed_without_a_grant,
    steps_make_a_legal_history, the_entries_of_a_history_are_its_steps,
    what_is_refused_or_read_changes_nothing,
};

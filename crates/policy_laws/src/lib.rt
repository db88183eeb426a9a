//! Laws of who may do what, and of what an originator sees, over every list of resources.
//!
//! No program stands on them. Each is the clause of a function without a body, about the
//! definitions of policy_eval. A removal grants nothing to anyone. Lists that are alike for an
//! originator give it the same rights. The list as an originator sees it gives it the same
//! resources and the same rights, at once and after the removal of what is due. Two lists of which
//! an originator sees the same show it the same. They stay equal to its eyes under a removal, an
//! append, changes of a resource that show nothing but themselves, and where subscriptions are
//! counted anew.
//!
//! Whatever its rights, an originator sees of each resource the number, type, name and parent, when
//! it is due, `acpi`, `macp` and whether it owns it; the `aei` of an AE; the `csi` of a remote CSE
//! and the first http URL of its `poa`; the `enc` and the `exc` of a subscription; and of a policy
//! the bits that it has by `pv` and by `pvs`. That is the shape of the list (`specs/Shape` of
//! equal_sights). Besides, it sees what its rights show, and nothing else. The shape alone gives
//! the same rights, and two lists of one shape keep one shape under a removal, where subscriptions
//! are counted anew, and under changes of a resource by which others are judged anew.
//!
//! ```text
//! removal_grants_nothing(); // each call has its law as its contract
//! sight_keeps_rights();
//! equal_sights_show_the_same();
//! ```
#![tactic(auto)]

mod rights;
mod shapes;
mod sight;
mod sights_kept;

pub use rights::{alike_lists_give_the_same_rights, removal_grants_nothing};
pub use shapes::{
    a_shape_keeps_rights, equal_shapes_stay_equal_under_a_count,
    equal_shapes_stay_equal_under_a_removal, equal_shapes_stay_equal_under_a_replacement,
};
pub use sight::{sight_has_the_shape_of_the_list, sight_keeps_rights, sight_keeps_what_is_live};
pub use sights_kept::{
    equal_sights_show_the_same, equal_sights_stay_equal_under_a_count,
    equal_sights_stay_equal_under_a_removal, equal_sights_stay_equal_under_a_replacement,
    equal_sights_stay_equal_under_an_append,
};

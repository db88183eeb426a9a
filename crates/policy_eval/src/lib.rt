//! Who may do what: the rights of an originator on the resources of a tree, by its access control
//! policies (TS-0001, 9.6.2).
//!
//! Callers ask `granted` for an operation, or `granted_on` where they hold the resource,
//! `may_relink` for a change of `acpi`, and `fan_granted` for a fan-out to a group. Each answers
//! exactly its definition over the plain list of resources and the home (`grants`, `relinks` and
//! `fan_grants` of `specs/Rights`), takes no memory, and looks up the resource, the one that stands
//! for it where it is a content instance or a polling channel, and each policy that is named.
//! Callers owe that the tree has the resource, and that the originator is one. Full forms are
//! compared without being built. `bits` and `fan_bits` give all bits of `acop` that are granted so,
//! and `with_rules` those that rules give; their callers owe nothing.
//!
//! That a policy's resource id names that policy is a law on a function without a body. The laws on
//! what an originator sees, and on removals, stand in policy_laws.
//!
//! ```text
//! let reads = granted(tree, home, b"CDev", Op::Retrieve.bit(), number);
//! let relinks = may_relink(tree, home, b"CDev", number); // may change `acpi`
//! reads && relinks
//! ```
#![tactic(auto)]

mod laws;
mod originators;
mod policies;
mod rights;

pub use laws::a_policy_is_named_by_its_id;
pub use originators::{is_same, last_byte, may_name};
pub use policies::{
    bits_of, entries_of, listed_in, policy_at, policy_named, policy_number, rules_in,
};
pub use rights::{
    bits, fan_bits, fan_granted, granted, granted_on, has_bits, may_relink, with_rules,
};

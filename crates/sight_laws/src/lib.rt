//! What an originator sees of an entity, and that it decides what is named, shown and found and
//! what comes of its operations on a resource: laws on the definitions of the crates addressing,
//! retrieve_discover, request_rules and create_delete, on which no program stands.
//!
//! What is named, shown and found is the same on the list as the originator sees it (`seen_list` of
//! equal_sights). A Create and an Update are refused by the same place on what their originator
//! sees. In two sound entities, of which its originator sees the same, a Create is answered alike,
//! and an Update that names no policies and no rules; and the originator sees the same of what they
//! leave. One that names them is answered alike in two that have one shape for its originator, and
//! leaves one shape. So it does after subscriptions are told of what was created, changed or
//! removed: who is told, and how often, is seen by everyone.
//!
//! ```text
//! a_refusal_is_seen(); // each call has its law as its contract
//! a_create_is_seen_alike();
//! an_update_is_seen_alike();
//! a_rule_update_keeps_one_shape();
//! ```
#![tactic(auto)]

mod laws;
mod sight;

pub use laws::{
    a_create_is_seen_alike, a_refusal_is_seen, a_rule_update_keeps_one_shape,
    an_update_is_seen_alike,
};
pub use sight::{sight_keeps_what_is_found, sight_keeps_what_is_named, sight_keeps_what_is_shown};

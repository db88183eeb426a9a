//! The tests of trees of resources and of items: of the libraries `tree_model`, `resource_tree`,
//! `container_limits`, `policy_eval`, `addressing` and `notify_outbox`, over those of their public
//! calls that cases don't show. Their answers, most on one small tree, were worked out by hand.
//! Without its tests this library is empty, and no crate stands on it.
#![tactic(auto)]

#[cfg(test)]
mod lines;
#[cfg(test)]
mod of_addressing;
#[cfg(test)]
mod of_container_limits;
#[cfg(test)]
mod of_notify_outbox;
#[cfg(test)]
mod of_policy_eval;
#[cfg(test)]
mod of_resource_tree;
#[cfg(test)]
mod of_tree_model;
#[cfg(test)]
mod samples;

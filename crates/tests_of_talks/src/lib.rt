//! Talks with an entity over a talker in memory: which payloads are said to which. No clause says that
//! the payloads of a given talk are these bytes. Without its tests this library is empty, and no crate
//! stands on it.
#![tactic(auto)]

#[cfg(test)]
mod of_payloads;

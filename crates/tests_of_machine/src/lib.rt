//! The tests that compile the machine: what a request asks of its tree, by the plain tree beside
//! that of the program; and a CSE that is kept in a journal, over the public calls of the libraries
//! `kept_object` and `journaled_entity`. What no clause says is here: that each kind of request
//! makes few calls of a tree of 20,000 containers, and that both trees give equal replies; and of a
//! session of fifty requests, whichever call of its file fails, the CSE that opens again at
//! whatever a crash may leave. Without its tests this library is empty, and no crate stands on it.
#![tactic(auto)]

#[cfg(test)]
mod of_requests;
#[cfg(test)]
mod of_sessions;
#[cfg(test)]
mod pictures;
#[cfg(test)]
mod session;

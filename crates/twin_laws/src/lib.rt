//! A law of the command `twin`: where it says that an originator has the same sight of both CSEs,
//! what they answer to that originator reads the same.
//!
//! The law speaks of the lines that `twin` of the crate twin_replay takes, and stands on the laws
//! of equal sights of the crate machine_laws.
//!
//! ```text
//! agreeing_sides_answer_the_same(); // the law is its contract
//! ```
#![tactic(auto)]

mod laws;

pub use laws::agreeing_sides_answer_the_same;

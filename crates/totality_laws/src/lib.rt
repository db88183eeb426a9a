//! Laws of what ends and of what is refused.
//!
//! That a loop over a stream ends stands on two facts: each message and each line takes bytes of
//! it, and only so many of them are heard. What is refused is so by a status that the profile
//! names. No program calls these laws; each is the clause of a function without a body, over the
//! definitions of http_frames, cse_server, primitive_replay and cse_machine.
//!
//! ```text
//! what_is_read_takes_bytes(); // each call has its law as its contract
//! what_is_read_is_limited();
//! each_reply_has_a_named_status();
//! ```
#![tactic(auto)]

mod laws;

pub use laws::{each_reply_has_a_named_status, what_is_read_is_limited, what_is_read_takes_bytes};

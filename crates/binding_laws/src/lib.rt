//! Laws of the two sides of the HTTP binding together: what one writes of a request, the other
//! reads; the bytes that one writes are one message of the other, or begin with none; what can't be
//! told says no reply; and what is read has what these laws ask of a request. No program stands on
//! them; they are the clauses of functions without a body.
//!
//! ```text
//! let frame = of_request(alloc, &request, url, Aim::Peer)?; // one CSE writes the request
//! a_request_is_bound_back(); // the law, as its contract: where the frame says all of a request,
//! to_request(alloc, &frame) // the other one reads that request
//! ```
#![tactic(auto)]

mod laws;

pub use laws::{
    a_request_is_bound_back, bytes_are_the_message_or_none, what_can_not_be_told_says_none,
    what_is_read_is_as_read,
};

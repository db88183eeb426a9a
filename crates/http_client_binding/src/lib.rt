//! The HTTP binding of oneM2M (TS-0009) on the side that asks: `of_request` gives the frame of a
//! request to a URL, `request_bytes` its text, which is for the host that `host_of` tells, and
//! `to_reply` the reply that a frame says, or the first fault of the frame.
//! Callers see the frame of a request as a function of the request, of the URL and of what the URL
//! stands for (`request_frame`), and a reply as a function of its frame (`reply_in`). They owe a
//! URL, as `m2m_names::read_url` tells one. Each request closes its connection behind the reply.
//!
//! ```text
//! let url = b"http://127.0.0.1:8081";
//! let frame = of_request(alloc, request, url, Aim::Peer)?;
//! let bytes = request_bytes(alloc, request, url, Aim::Peer)?; // its text
//! to_reply(alloc, answer)
//! ```
#![tactic(auto)]

mod laws;
mod query;
mod reply;
mod request;
mod target;

pub use http_binding::BindFault;
pub use laws::{
    a_reply_is_said_by_its_frame, a_request_is_read_back, an_address_is_read_back,
    each_condition_is_written,
};
pub use reply::to_reply;
pub use request::{of_request, request_bytes};
pub use std::alloc::AllocError as OutOfMemory;
pub use target::{Aim, host_of};

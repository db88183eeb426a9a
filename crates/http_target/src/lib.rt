//! What the target of a request over HTTP says (TS-0009, 6.2.2): the address that its path is, and
//! what the pairs of its query say on an operation; and why a frame binds to no request. Callers
//! see both as functions of the bytes (`target_of`, `query_said`), which answer the first fault,
//! and nothing else of the frame is read.
//!
//! ```text
//! let target = target_of(alloc, start)?; // of GET /cse-in?fu=1: cse-in and fu=1
//! let address = &target.to;
//! query_said(alloc, Op::Retrieve, target.query)
//! ```
#![tactic(auto)]

mod absolute;
mod fault;
mod laws;
mod query;
mod target;

pub use fault::BindFault;
pub use laws::{authorities_are_of_uris, targets_are_of_uris};
pub use query::{Query, query_said};
pub use std::alloc::AllocError as OutOfMemory;
pub use target::{Target, before, behind, index_of, target_of};

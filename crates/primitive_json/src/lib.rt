//! The primitives of oneM2M as types: requests with their filters, replies, and the items of the
//! outbox; and requests and replies as JSON values.
//!
//! Each of `Request`, `Filter`, `Reply` and `Note` is a struct of public fields (`RequestParts`
//! and its kin) that keeps a fact: callers build the parts, owe the fact to `of`, read the fields
//! by `parts`, and take the whole apart by `into_parts`, all without copies. Clauses see a value
//! as the plain record of its parts, in which a text is the list of its bytes and content is
//! data; so equal values are equal records, and definitions are written over the records. What
//! the parts must keep (`IsSoundRequest` and its kin) can be tested: texts by `str::from_utf8`,
//! request identifiers by `is_request_id`, moments by `is_moment`, counts by `is_count`, URLs by
//! `m2m_names::read_url`.
//!
//! `read_request` and `read_reply` read a value that is lent, and copy what they keep;
//! `request_from` and `reply_into` move texts, labels and content. The members of a request and the
//! conditions of a filter stand in one table each, in byte order of their names, in which a name
//! is looked up; a request is judged member by member before anything is copied, so that a fault
//! takes memory for its name alone. Reading and writing are linear in the value.
//!
//! ```text
//! let request = request_from(alloc, value)?; // or the first fault of the value
//! let operation = request.parts().op;
//! Ok(write_request(alloc, &request)?)
//! ```
#![tactic(auto)]

mod bounds;
mod fault;
mod form;
mod judging;
mod kept;
mod kinds;
mod laws;
mod member;
mod note;
mod reading;
mod reply;
mod request;
mod writing;

pub use bounds::is_request_id;
pub use fault::{Fault, PrimFault};
pub use filter_criteria::{Filter, FilterParts, FilterUsage, is_count, is_moment};
pub use form::has_form;
pub use judging::{reply_fault, request_fault};
pub use kinds::{TARGET_LIMIT, address_forms, expiry_spelled, is_among, result_contents};
pub use laws::{replies_are_read_back, requests_are_read_back};
pub use m2m_names::{digits_number, is_numeral, number_spelled};
pub use m2m_value::Labels;
pub use member::{Member, creates, has_content, has_result, retrieves};
pub use note::{Dest, Kind, Note, NoteParts};
pub use reading::{read_reply, read_request, request_from};
pub use reply::{Reply, ReplyParts};
pub use request::{Request, RequestParts, When};
pub use std::alloc::AllocError as OutOfMemory;
pub use writing::{expiry_text, reply_into, write_reply, write_request};

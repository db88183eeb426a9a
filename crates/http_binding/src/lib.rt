//! The HTTP binding of oneM2M (TS-0009), between frames and primitives: `to_request` gives the
//! request that a frame binds to, or the first fault of the frame; `echo_id` the identifier that a
//! reply to it repeats, also where it binds to none; `of_reply` the frame of a reply, and
//! `write_reply_text` its bytes. Callers see the binding as a function of the frame (`binding`, the
//! chain of the parts of a request in the order of their faults), and the bytes of a reply as those
//! of its frame (`reply_text`). They answer a frame that binds to nothing themselves, and say
//! whether the connection closes behind a reply.
//!
//! The parts of a request each have a module: the method, the header fields with the type of the
//! content, and the body; the target, with the address that a path is, and the query, with the
//! conditions of a filter, stand in the crate http_target.
//!
//! ```text
//! let request = to_request(alloc, frame)?; // or the first fault of the frame
//! let identifier = echo_id(frame); // that the reply repeats
//! Ok(of_reply(alloc, reply, false)?)
//! ```
#![tactic(auto)]

mod headers;
mod laws;
mod lines;
mod media_type;
mod method;
mod names;
mod reply;
mod request;
mod room;
mod writing;

pub use headers::echo_id;
pub use http_target::{BindFault, authorities_are_of_uris, index_of};
pub use laws::{
    a_frame_binds_to_one_request, a_frame_binds_to_requests_of_their_kinds, a_reply_is_read_back,
    an_operation_is_read_back, the_echo_is_the_request_id,
};
pub use lines::{body_of, push_close, push_field, push_length};
pub use method::method_text;
pub use names::{
    CODE_FIELD, EXPIRY_FIELD, ID_FIELD, JSON_TYPE, ORIGIN_FIELD, TYPE_FIELD, WRITTEN_MINOR,
};
pub use reply::of_reply;
pub use request::{created_type, to_request, to_request_in, value_in};
pub use room::{BodyRoom, ReplyRoom};
pub use std::alloc::AllocError as OutOfMemory;
pub use writing::{push_reply_text, write_reply_text};

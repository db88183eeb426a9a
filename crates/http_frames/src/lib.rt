//! HTTP/1.x messages on a stream of bytes (RFC 9112): an `Inbox` cuts what a source gives into
//! frames, however the bytes come, and `write_frame` writes one. A frame is a head of at most
//! 16,384 bytes and 64 lines, and a body: as long as Content-Length says, in chunks, or empty.
//! Callers see the frames of the stream one after another, and that its end comes, or that no frame
//! can stand there. They decide when a connection closes, since the line `Connection` is left to
//! them, and look lines up by name with `Lines::find`.
//!
//! ```text
//! let mut inbox = Inbox::new(alloc)?;
//! let Next::Message(frame) = inbox.next_request(alloc, source)? else { return Ok(()) };
//! let host = frame.lines.find(b"host"); // absent, one, or repeated
//! Ok(())
//! ```
#![tactic(auto)]

mod body;
mod chunks;
mod fault;
mod frame;
mod head;
mod held;
mod inbox;
mod laws;
mod lines;
mod look;
mod parts;
mod rooms;
mod write;

pub use fault::{FrameFault, PutFault};
pub use frame::{Frame, Next, Side, Start};
pub use held::PIECE;
pub use inbox::Inbox;
pub use laws::{
    frames_are_unique, no_frame_begins_another, what_is_written_is_read,
    whole_chunk_lines_are_judged, whole_heads_are_judged,
};
pub use lines::{Found, Lines, is_same_name};
pub use write::{frame_bytes, phrase_of, write_frame};

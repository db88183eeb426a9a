//! Talks of messages, each of which is one request or its reply in JSON, as a WebSocket carries them
//! (TS-0020). A `Talker` gives the payloads of a talk and takes its replies; `serve_talk` answers them
//! at a desk. A payload that is no request is refused, and the talk goes on.
//!
//! ```text
//! let mut talker = MemTalker::new(payloads, Vec::new(alloc));
//! let ended = serve_talk(alloc, &desk, &mut seat, &mut talker, &mut clock, &mut link, &Plainly);
//! let replies = talker.said(); // one to each payload, in order
//! ```
#![tactic(auto)]

mod binding;
mod laws;
mod memory;
mod payload;
mod room;
mod socket;
mod stream;
mod subprotocol;
mod talk;
mod talker;

pub use binding::{Talked, WsBinding};
pub use laws::a_closed_talk_has_all_that_was_to_come;
pub use memory::MemTalker;
pub use socket::WsTalker;
pub use talk::{TalkEnded, serve_talk};
pub use talker::{Got, TalkFault, Talker};

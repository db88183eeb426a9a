//! Replies to requests that are put to a desk, and what attends to a connection by them.
//!
//! A `Replier` answers a request by what a desk answers it, and perhaps by what other requests are
//! answered that it asks behind it; its `ReplyRule` (`specs/Rule`) says which these are, and which
//! reply comes of all. `Plainly` asks the request alone, and its outcome gives the reply
//! (`specs/Replies`): the entity's own, or that of another CSE, to which the request is carried
//! over a link once the desk has answered. A `Binding` attends to one connection, by whatever
//! protocol. Callers see what it asked at the desk (`specs/Asking`), and how that belongs to what
//! the connection said and was told (`talks`).
//!
//! As neither relation speaks of the desk, both fit each desk that answers as the machine does.
//!
//! ```text
//! let id = b"r1"; // the identifier of the request
//! let reply = Plainly.reply(alloc, &desk, &mut seat, &mut clock, &mut link, id, request)?;
//! ```
#![tactic(auto)]

mod binding;
mod replier;
mod replying;

pub use binding::Binding;
pub use replier::{Plainly, Replier};
pub use replying::{bare_reply, reply_onward, reply_over};

//! What a server tells of its work to whoever writes it down.
//!
//! A connection is a `ReplyObserver`, and what sends items is an `ItemObserver`. Each is told what
//! was done once it was done, and answers nothing; no clause says what comes of it. The objects in
//! memory let it pass.
//!
//! ```text
//! conn.replied(&frame, None, &reply, text); // once the reply was said
//! conn.answered(payload, Rsc::Ok); // once the reply to a message of JSON was
//! link.let_go(&request); // for which no host is known
//! ```
#![tactic(auto)]

mod items;
mod replies;

pub use items::ItemObserver;
pub use replies::ReplyObserver;

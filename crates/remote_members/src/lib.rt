//! Members of a group at other CSEs (TS-0001, 10.2.7): the entity answers for its own members in one
//! event, and each member at another CSE is asked behind that, outside the turn, by a request of its
//! own, whose reply takes the place of what the entity told of that member.
//!
//! `Widely` is the `Replier` that does so, for the CSE of a home; its rule is `wide`
//! (`specs/Wide`): what is asked behind a request, and which reply comes of all. Callers hand it to
//! whatever attends to connections, as HTTP (`WideService`) or otherwise. `answer_wide` answers one
//! request so, and `serve_wide` one connection. Members aren't asked at one moment: each request has
//! a reading of its own.
//!
//! ```text
//! let replier = Widely::new(home);
//! let ended = serve_alone(alloc, &mut seat, &mut conn, clock, link, &replier);
//! let reply = answer_wide(alloc, &desk, &mut seat, clock, link, &home, request)?;
//! ```
#![tactic(auto)]

mod asking;
mod members;
mod replier;
mod serving;

pub use cse_server::Ended as WideEnded;
pub use replier::{Wide, Widely};
pub use serving::{WideService, answer_wide, serve_wide};

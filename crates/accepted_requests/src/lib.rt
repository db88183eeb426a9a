//! Requests that were accepted, to be answered later, and what is answered for them (TS-0001, 8.2.1
//! and 9.6.12).
//!
//! `LaterRequests` is the list of those that are kept, each a `LaterEntry`, and the last number
//! that was given to one. Contracts see both as data (`specs/Entries`). Who runs an entry takes its
//! request by `begin`, and gives it back with the reply by `finish`. Neither takes memory, since
//! the reply for which memory runs out is kept ready. `results_size` tells how many bytes of results
//! are kept, and `leave_no_room` whether these are more than the 64 MiB behind which nothing is run
//! (`specs/Sizes`).
//!
//! `Asked::of` reads what a request says before the CSE answers it: who asks, where it is sent, and
//! which accepted request it names. `LaterRequests::answer` then gives another reply in two cases
//! (`specs/Effects`). A request that was refused since it isn't blocking is accepted under the next
//! number, if it has response type 1, is sent to this CSE and to no accepted request, and there is
//! room. A request to what isn't there, that names an accepted request as `req1`, is answered to
//! its originator alone: a Retrieve shows it with its result (`specs/Form`), a Delete takes it
//! away. Where memory runs out for such a reply, nothing is accepted or taken away.
//!
//! ```text
//! let asked = Asked::of(&request, home, &requests);
//! requests.answer(alloc, &request, asked, moment, Rsc::NotFound) // None: that reply stands
//! ```
#![tactic(auto)]

mod answering;
mod asked;
mod entry;
mod form;
mod list;
mod naming;

pub use asked::Asked;
pub use entry::{LaterEntry, leave_no_room};
pub use list::{LaterRequests, results_size};

//! What serves connections: `serve_connection` answers the frames of one connection, in order, by
//! what a desk answers their requests (TS-0009, 6; RFC 9112), and `serve` has workers take the
//! connections of a door and serve each so.
//!
//! Callers hand in a desk with a seat at it, the connection, a clock and a link. The contract says
//! which frames were read, which entries the seat added, and that the output is the replies which
//! their outcomes give, in order, some of them by each put. It also says what was carried over the
//! link, and why the connection ended (`specs/Connection`). An `Answerer` does so by any `Replier`
//! (desk_replies), whose rule says what is asked for a request and how it is answered by that.
//! `HttpBinding` is HTTP as a `Binding`. `serve_by` takes a door, benches and a binding: the seat
//! which comes back has gained what attending to connections gave (`specs/Attending`), and the
//! result says why the door gave no more (workers/specs). `Served` is an entity as an object of a
//! desk, whose steps are those of the machine. `serve_alone` and `send_alone` are for an object
//! that nobody else asks. A bench is what each worker of a server is handed, and a `Wire` makes one
//! connection of two streams that were lent.
//!
//! The laws on what a connection shows, changes and is answered stand in service_laws.
//!
//! ```text
//! let mut seat = OwnSeat::new(Served::new(alloc, entity));
//! let mut conn = Wire::new(input, out);
//! serve_alone(alloc, &mut seat, &mut conn, clock, link, &Plainly)
//! ```
#![tactic(auto)]

mod alone;
mod bench;
mod binding;
mod closing;
mod connection;
mod replying;
mod sending;
mod served;
mod serving;
mod waiting;
mod wire;

pub use alone::{send_alone, serve_alone};
pub use bench::Bench;
pub use binding::{Attended, HttpBinding};
pub use closing::MOST_FRAMES;
pub use connection::{Answerer, Ended, serve_connection};
pub use sending::{MOST_ITEMS, send_notes, send_to};
pub use served::Served;
pub use serving::{OfRequests, serve, serve_by};
pub use waiting::{put_if_much, put_waiting};
pub use wire::Wire;
pub use workers::ServeFault;

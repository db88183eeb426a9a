//! The world outside the server: where bytes come from and go to, what tells the time, what carries
//! a request to a neighbour, and what accepts connections. Each is a trait whose ghost members say
//! what it has given and taken, where it tells that, and how often it has failed. A caller may rest
//! on an object failing where its count of faults rose, and only there, and on nothing that an
//! object doesn't tell. Beside each trait stands an object in memory that tells all of it, made
//! without memory, and the status with which the program ends.
//!
//! ```text
//! let n = source.read(buf)?; // 0 at the end of the source
//! sink.put(&buf[..n])?;
//! Status::Done.put_line(sink)
//! ```
#![tactic(auto)]

mod calls;
mod clock;
mod conn;
mod door;
mod exchanges;
mod fault;
mod link;
mod sink;
mod source;
mod status;

pub use calls::Calls;
pub use clock::{Clock, MemClock};
pub use conn::{Connection, MemConn};
pub use door::{Door, MemDoor};
pub use exchanges::{Exchanged, Exchanges};
pub use fault::{Failed, LinkFault};
pub use link::{Link, MemLink};
pub use sink::{MemSink, Sink};
pub use source::{MemSource, Source};
pub use status::Status;

//! The devices of the system, as the server sees them: the standard streams, the system's clock, a
//! listening socket as a door, its connections, and the log that a server writes.
//!
//! An adapter counts the errors of its device, and tells what the device tells: streams, sockets
//! and clocks of the system tell nothing of what they give and take. A connection gives its client
//! up who says nothing for `PATIENCE` seconds, or takes longer than that for one message or for one
//! reply. A door that parks gives an idle connection no worker until something comes on it. Where
//! all workers are busy and another client waits, another door's idle connection is closed for it,
//! and a message that is unfinished for two seconds is ended. A door passes over what befalls one
//! client, and waits where descriptors or memory are wanting.
//!
//! ```text
//! let log = Log::new(rt, alloc, LogLevel::Faults, home)?;
//! let mut door = TcpDoor::parking(log, whom); // for the CSE that is called so
//! door.open(b"127.0.0.1:8080") // says on standard error that it listens
//! ```
#![tactic(auto)]

mod boundary;
mod clock;
mod conn;
mod door;
mod doorway;
mod figures;
mod log;
mod lot;
mod nowhere;
mod own_calls;
mod printing;
mod reasons;
mod replies;
mod streams;
mod told;
mod watch;

pub use clock::{SystemClock, millis_now, time_left};
pub use conn::{PATIENCE, TcpConn};
pub use door::TcpDoor;
pub use figures::Figures;
pub use log::{Log, LogLevel};
pub use own_calls::OwnCall;
pub use printing::printable;
pub use streams::{StdIn, StdOut, words};

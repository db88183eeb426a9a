//! A link over TCP: each exchange has a connection of its own, and reads one answer.
//!
//! The first addresses of a host are tried, IPv4 and IPv6, and all of them within `PATIENCE`. An
//! answer ends where its head says so; where the head says nothing of its length, it ends with the
//! connection. No read waits longer than `PATIENCE`, no exchange takes longer than `LONGEST`, and an
//! answer has at most `MOST_BYTES` bytes.
//!
//! Names of hosts are looked up by the system's resolver, each in a thread of its own. An exchange
//! waits for that as long as for an answer, and the addresses are used for a minute. Where the
//! resolver takes longer, the exchange fails; what it says later is for those that follow. Where it
//! has no answer any more, the addresses that were found last are used on.
//!
//! An impatient link holds nobody up for longer than `SHORT_PATIENCE`: an answer that hasn't come
//! by then is awaited beside the exchanges that follow. It is for requests whose answers nobody
//! reads. A destination that was mute or slow the last time is waited for 100 ms. Where much time
//! was spent on such destinations, the mute ones aren't asked, and the slow ones not waited for:
//! so these take a quarter of the link's time, however many they are.
//!
//! A destination is mute where it takes no connection and gives no answer in time, and slow where
//! it takes longer than half a second, or only begins to answer. A link that sends what waits
//! leaves a mute destination alone for a second: each exchange with it fails at once. Where it is
//! mute again after that, it is left alone for twice as long, up to a minute. One that refuses a
//! connection, or breaks it off, is asked again at the next exchange. How many exchanges failed is
//! said for each destination, once a minute at most, on the log.
//!
//! Each connection that is opened is noted for the door of this program: where one comes in over
//! it, a request goes round. It is ended unread, and the exchange fails.
//!
//! ```text
//! let log = Log::new(rt, alloc, LogLevel::Faults, home)?;
//! let mut link = TcpLink::new(log, system);
//! link.exchange(alloc, b"127.0.0.1:8081", request, &mut answer)?;
//! ```
#![tactic(auto)]

mod answering;
mod awaiting;
mod connecting;
mod failing;
mod link;
mod names;
mod spending;

pub use answering::{LONGEST, MOST_BYTES, PATIENCE, SHORT_PATIENCE};
pub use link::TcpLink;

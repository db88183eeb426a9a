//! Workers at a shared desk, who serve the connections of one door.
//!
//! `serve_with` splits a seat into one for each worker, takes connections from the door one at a
//! time, under a lock that is held for one of them, and has a `Service` attend to each. Beside the
//! workers it has an `Errand` run in rounds, at a seat and a bench of its own: as soon as somebody
//! gives the errand's signal, and now and then, until no worker is left. It hands back one seat,
//! into which all others are joined, and the door, behind one round more. Callers see that this
//! seat went on from the one that they gave and has its part again (`specs/Shares`), what it has
//! gained (`specs/Serving`), and why the door gave no more connections (`specs/Gate`). Nothing is
//! said of when a round is.
//!
//! ```text
//! let accept = Some(2); // so many connections, and then no more
//! let served = serve_with(rt, alloc, desk, seat, door, accept, first, benches, service, errand);
//! served.is_ok() // and then the seat and the door are back
//! ```
#![tactic(auto)]

mod arrival;
mod errand;
mod gate;
mod service;
mod serving;
mod sharing;

pub use errand::Errand;
pub use gate::Ending;
pub use service::Service;
pub use serving::{ServeFault, serve_with};

//! A signal that something may have changed, and a desk that gives it.
//!
//! Who is to act on changes waits at a `ChangeSignal`, for a tenth of a second at most. A wait
//! begins with a rest of 0.2 milliseconds, so that changes that come together end it once. Those
//! who ask an object do so at a `SignallingDesk`, which asks the desk behind it, and signals then:
//! the wait ends, behind its rest, where an event may change something, as a `Watch` says. It ends
//! at once when it is said that nobody asks any more.
//!
//! To who asks, the desk is the one behind it: a seat is of both or of neither, and grows alike
//! (`seats`, `grown`). Nothing is stated of the signal itself, as other threads may change it.
//!
//! ```text
//! let signal = ChangeSignal::new();
//! let desk = SignallingDesk::new(&behind, &signal, watch);
//! let outcome = desk.ask(&mut seat, reading, event); // as `behind` answers
//! signal.end();
//! signal.wait(&rt) // nobody asks any more
//! ```
#![tactic(auto)]

mod desk;
mod signal;

pub use desk::{SignallingDesk, Watch};
pub use signal::ChangeSignal;

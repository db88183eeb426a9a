//! A desk at which those who wait for the disk share what is put there.
//!
//! An object that keeps what it does is asked for events, and to put on the disk what it has done
//! so far, as the crate kept_desk has it. Where each who asks for an event also settles it, each
//! waits for the disk alone. At a `GatheringDesk` those who ask go in groups. All of a group have
//! their event done, one settles for all, and the others find then that nothing is left to settle.
//! Events that change nothing, as a `Watch` says, are asked for at once.
//!
//! To who asks, the desk is the one behind it: a seat is of both or of neither, and grows alike
//! (`seats`, `grown`). Nothing is stated of a `Gathering`: it only decides who waits where, and
//! nobody waits for others there longer than some seconds.
//!
//! ```text
//! let gathering = Gathering::new(); // one for all who share the desk
//! let gathered = GatheringDesk::new(&turns, &gathering, &rt, watch);
//! let kept = KeptDesk::new(&gathered);
//! let answer = kept.ask(&mut seat, reading, event); // on the disk, with those of others
//! ```
#![tactic(auto)]

mod desk;
mod gathering;
mod group;

pub use desk::GatheringDesk;
pub use gathering::Gathering;

//! The program's command line over the world outside: `run` takes the words, the streams, the door
//! and the benches, and answers with the status. The commands are `http`, which serves the input
//! and the output as one connection of an entity, `replay`, which answers the lines of the input,
//! `twin`, which compares two entities that the lines of the input prepare, `serve`, which serves
//! the connections of the door, and `gen`, which makes requests of its own and writes one line on
//! what they are answered. Over HTTP `http` and `serve` ask members of groups at other CSEs as
//! well; over WebSocket, and in lines, the machine alone answers. Callers see of each what
//! `RunsCommand` says (specs/Running). A program that has read its words itself hands `run_command`
//! the command, of which `RunsTask` says the same, with the `Server` for one that serves. Commands
//! over a journal share `told`, which says how a command ended, `benches_for`, which are the
//! benches of a server, and `seed`, by which the tables of a tree hash and which clients don't
//! know.
//!
//! ```text
//! let words = ["serve", "--listen", "127.0.0.1:8080"];
//! let (status, door) = run(rt, alloc, &words, input, out, err, door, first, benches);
//! status.number() // 0 where all is well
//! ```
#![tactic(auto)]

mod command;
mod http;
mod observed;
mod replay;
mod seeding;
mod serve;
mod server;
mod twin;

pub use command::{run, run_command, told};
pub use observed::{NoObserver, RunObserver, tell_runs};
pub use seeding::seed;
pub use serve::benches_for;
pub use server::Server;

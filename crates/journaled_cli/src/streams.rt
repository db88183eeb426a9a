//! What a command over a journal reads and writes.
use cse_server::Bench;
use m2m_io::{Clock, Link};

/// The streams of a command, and the bench of one that has a single connection. `err` gets the text
/// of the status as a line, and before it why a file isn't opened.
#[derive(Drop)]
pub struct CommandStreams<S, O, E, C: Clock, L: Link> {
    pub input: S,
    pub out: O,
    pub err: E,
    pub first: Bench<C, L>,
}

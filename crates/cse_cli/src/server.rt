//! What a server works with.
ghost use Rattle.std.specs.Prelude.{◌≤◌, vec_len};

use cse_server::Bench;
use m2m_io::{Clock, Link};

/// What a server works with: a door, a bench for each worker, and behind these the bench of the
/// sender; and who is told of the requests that it runs later.
#[derive(Drop)]
pub struct Server<D, C: Clock, L: Link, W> {
    pub door: D,
    pub benches: Vec<Bench<C, L>>,
    pub observer: W,
    pub ghost benches_are_two: { 2 ≤ vec_len benches },
}

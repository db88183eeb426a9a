//! What a worker works with.
use m2m_io::{Clock, Link};

/// What one worker works with: a clock to tell the time, and a link to the neighbours.
#[derive(Debug, Drop)]
pub struct Bench<C: Clock, L: Link> {
    pub clock: C,
    pub link: L,
}

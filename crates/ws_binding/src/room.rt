//! Room in which one reply after another is written.
ghost use Rattle.std.specs.Prelude.{◌≤◌, vec_capacity};
ghost use Rattle.http_binding.specs.Rooms.{kept_limit};

use std::alloc::Global;
use std::mem::replace;

/// A buffer that is kept from one reply to the next has room for at most so many bytes.
const KEPT_LIMIT: usize = 4_096;

/// Room in which one reply after another is written, so that a reply needs memory only where it is
/// long. What is kept between two of them is little.
#[derive(Drop)]
pub(crate) struct PayloadRoom {
    text: Vec<u8>,
    ghost little: { vec_capacity text ≤ kept_limit },
}

/// The buffer, if it is small, and else an empty one.
fn small_only(alloc: Global, buffer: Vec<u8>) -> Vec<u8>
    ensures { vec_capacity result ≤ kept_limit }
{
    if buffer.capacity() <= KEPT_LIMIT {
        buffer
    } else {
        Vec::new(alloc)
    }
}

impl PayloadRoom {
    /// Room that takes no memory until the first reply.
    pub(crate) fn new(alloc: Global) -> PayloadRoom {
        PayloadRoom {
            text: Vec::new(alloc),
        }
    }

    /// The buffer. There is none until some is kept again.
    pub(crate) fn take(&mut self, alloc: Global) -> Vec<u8> {
        replace(&mut self.text, Vec::new(alloc))
    }

    /// Keeps the buffer, if it is small.
    pub(crate) fn keep(&mut self, alloc: Global, text: Vec<u8>) {
        self.text = small_only(alloc, text);
    }
}

//! Room in which one body after another is read, and one reply after another written.
ghost use Rattle.std.specs.Prelude.{◌≤◌, vec_capacity};
ghost use Rattle.http_binding.specs.Rooms.{kept_limit};

use crate::OutOfMemory;
use m2m_value::Scratch;
use std::alloc::Global;
use std::mem::replace;

/// A buffer that is kept from one reply to the next has room for at most so many bytes.
const KEPT_LIMIT: usize = 4_096;

/// Room in which one reply after another is written, so that a reply needs memory only where it is
/// long. What is kept between two of them is little.
#[derive(Debug, Drop)]
pub struct ReplyRoom {
    text: Vec<u8>,
    head: Vec<u8>,
    ghost little_text: { vec_capacity text ≤ kept_limit },
    ghost little_head: { vec_capacity head ≤ kept_limit },
}

/// The buffer, if it is small, and else an empty one.
fn small_only(alloc: Global, buffer: Vec<u8>) -> Vec<u8>
    ensures { vec_capacity result ≤ kept_limit }
{
    if buffer.capacity() <= KEPT_LIMIT {
        buffer
    } else {
        Vec::new(alloc)
    }
}

impl ReplyRoom {
    /// Room that takes no memory until the first reply.
    pub fn new(alloc: Global) -> ReplyRoom {
        ReplyRoom {
            text: Vec::new(alloc),
            head: Vec::new(alloc),
        }
    }

    /// The buffers of the text and of the head. There are none until some are kept again.
    pub(crate) fn take(&mut self, alloc: Global) -> (Vec<u8>, Vec<u8>) {
        let text = replace(&mut self.text, Vec::new(alloc));
        let head = replace(&mut self.head, Vec::new(alloc));
        (text, head)
    }

    /// Keeps these buffers, if they are small.
    pub(crate) fn keep(&mut self, alloc: Global, text: Vec<u8>, head: Vec<u8>) {
        self.text = small_only(alloc, text);
        self.head = small_only(alloc, head);
    }
}

/// Room in which one body after another is read. It takes no memory until the first one, since it
/// is large, and many connections have no bodies.
#[derive(Drop)]
pub struct BodyRoom {
    kept: Option<Box<Scratch>>,
}

// It stands apart, so that its large value is nowhere on the stack but here.
#[inline(never)]
fn new_scratch(alloc: Global) -> Result<Box<Scratch>, OutOfMemory> {
    match Box::new(alloc, Scratch::new(alloc)) {
        Ok(scratch) => Ok(scratch),
        Err(_) => Err(OutOfMemory),
    }
}

impl BodyRoom {
    /// Room for which no memory was taken yet.
    pub fn new() -> BodyRoom {
        BodyRoom { kept: None }
    }

    /// The room, which is made here where there is none.
    pub(crate) fn lend(&mut self, alloc: Global) -> Result<&mut Scratch, OutOfMemory> {
        let scratch = match self.kept.take() {
            Some(scratch) => scratch,
            None => new_scratch(alloc)?,
        };
        Ok(self.kept.insert(scratch))
    }
}

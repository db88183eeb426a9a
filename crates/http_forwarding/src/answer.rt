//! What the bytes of an answer say.
ghost use Rattle.std.specs.Prelude.{◌≡◌, ◌<◌, ◌≤◌, IfOk, length, take, drop};
ghost use Rattle.http_forwarding.specs.Answers.{IsLoneFrame, ReadsAnswer, SaysIn};

use crate::OutOfMemory;
use http_client_binding::{BindFault, to_reply};
use http_frames::{Frame, FrameFault, Inbox, Next};
use m2m_io::{Failed, Source};
use primitive_json::Reply;
use std::alloc::Global;
use std::marker::Model;

/// The bytes of an answer, which are read from their front, and never fail.
#[derive(Drop)]
struct Answer {
    bytes: Vec<u8>,
    taken: usize,
}

impl Model for Answer {
    ghost use Rattle.std.specs.Prelude.{◌≤◌, ℕ, List, length, drop};

    ghost Value = { List ℕ };

    ghost view = { λ a. drop a.taken a.bytes.items };

    ghost invariant = { λ a. a.taken ≤ length a.bytes.items };
}

impl Answer {
    fn new(bytes: Vec<u8>) -> Answer
        ensures { result ≡ bytes.items }
    {
        Answer { bytes, taken: 0 }
    }

    /// The bytes that are left.
    fn left(&self) -> &[u8]
        ensures { result.now ≡ self.now }
    {
        &self.bytes[self.taken..]
    }
}

/// Copies the first `n` bytes of one slice to the front of another.
fn copy_front(from: &[u8], to: &mut [u8], n: usize)
    requires from { n ≤ length from.now }
    requires to { n ≤ length to.old }
    ensures front { take n to.new ≡ take n from.now }
    ensures len { length to.new ≡ length to.old }
{
    to[..n].copy_from_slice(&from[..n]);
}

impl Source for Answer {
    ghost use Rattle.std.specs.Prelude.{Some};
    ghost use Rattle.m2m_io.specs.Sides.{no_side};

    ghost left = { λ a. Some a };

    ghost faults = { λ _. 0 };

    ghost kept_by_read = { λ _. no_side };

    fn read(&mut self, buf: &mut [u8]) -> Result<usize, Failed> {
        let n = buf.len().min(self.left().len());
        copy_front(self.left(), buf, n);
        self.taken += n;
        Ok(n)
    }
}

/// The one message that the bytes are, if they are one and nothing else.
fn lone_frame(alloc: Global, bytes: Vec<u8>) -> Result<Option<Frame>, OutOfMemory>
    ensures { IfOk result (IsLoneFrame bytes.items) }
{
    let mut answer = Answer::new(bytes);
    let mut inbox = Inbox::new(alloc)?;
    let frame = match inbox.next_reply(alloc, &mut answer) {
        Ok(Next::Message(frame)) => frame,
        Ok(Next::End) => return Ok(None),
        Err(FrameFault::NoFrame) => return Ok(None),
        Err(FrameFault::OutOfMemory) => return Err(OutOfMemory),
        Err(FrameFault::ReadFault) => unreachable!(),
    };
    match inbox.next_reply(alloc, &mut answer) {
        Ok(Next::End) => Ok(Some(frame)),
        Ok(Next::Message(_)) => Ok(None),
        Err(FrameFault::NoFrame) => Ok(None),
        Err(FrameFault::OutOfMemory) => Err(OutOfMemory),
        Err(FrameFault::ReadFault) => unreachable!(),
    }
}

/// The reply that a message says, if it says one.
fn reply_in(alloc: Global, frame: &Frame) -> Result<Option<Reply>, OutOfMemory>
    ensures { IfOk result (SaysIn frame.now) }
{
    match to_reply(alloc, frame) {
        Ok(reply) => Ok(Some(reply)),
        Err(BindFault::OutOfMemory) => Err(OutOfMemory),
        Err(_) => Ok(None),
    }
}

/// The reply that the bytes of an answer say, if they are one message and nothing else, and it says
/// one.
pub(crate) fn reply_said(alloc: Global, bytes: Vec<u8>) -> Result<Option<Reply>, OutOfMemory>
    ensures { IfOk result (ReadsAnswer bytes.items) }
{
    let Some(frame) = lone_frame(alloc, bytes)? else {
        return Ok(None);
    };
    reply_in(alloc, &frame)
}

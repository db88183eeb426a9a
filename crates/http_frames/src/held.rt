//! The bytes that were read and are not yet given.
ghost use Rattle.std.specs.Prelude.{◌≡◌, ◌≢◌, ◌+◌, ◌<◌, ◌≤◌, [], Ok, Err, false, IsTrue, IfOk};
ghost use Rattle.std.specs.Prelude.{OnOk, OnErr, length, take, drop};
ghost use Rattle.std.specs.Io.KnownBytes.{IsAtEnd};
ghost use Rattle.m2m_io.specs.Counts.{CountsFault};
ghost use Rattle.http_frames.specs.Inbox.{Reads};
ghost use Rattle.http_frames.specs.Rooms.{room_limit};
ghost use Rattle.http_frames.specs.Waiting.{EndsBelow, piece_limit};

use crate::FrameFault;
use crate::look::HEAD_LIMIT;
use m2m_io::Source;
use std::alloc::{AllocError, Global};
use std::marker::Model;

/// A read gives at most so many bytes.
pub const PIECE: usize = 4_096;

/// Room for the longest head and a piece, so that few streams need more.
const ROOM: usize = HEAD_LIMIT + PIECE;

/// The bytes that were read and are not yet given: those of `bytes` from `start` to `end`. What
/// stands behind them is room that reads write to, so that what they give needs no copy there. Of
/// the bytes that are given some stay in front of them, and some in the room until it is written to
/// anew. In front there is no more than the longest head and a piece, and no more behind.
#[derive(Debug, Drop)]
pub(crate) struct ReadBuffer {
    bytes: Vec<u8>,
    start: usize,
    end: usize,
}

impl Model for ReadBuffer {
    ghost use Rattle.std.specs.Prelude.{◌+◌, ◌≤◌, List, ℕ, length, take, drop};
    ghost use Rattle.http_frames.specs.Rooms.{room_limit};

    ghost Value = { List ℕ };

    ghost view = { λ h. drop h.start (take h.end h.bytes.items) };

    ghost invariant = { λ h. (h.start ≤ h.end) × (h.end ≤ length h.bytes.items)
        × (h.start ≤ room_limit) × (length h.bytes.items ≤ h.end + room_limit) };
}

/// Moves the bytes from `start` to `end` to the front. What stands behind them stays room.
#[tactic(auto, using(crate::proofs::HeldLemmas::front_moved))]
fn move_to_front(bytes: &mut Vec<u8>, start: &mut usize, end: &mut usize)
    requires ordered { start.old ≤ end.old }
    requires within { end.old ≤ length bytes.old.items }
    ensures bytes { take end.new bytes.new.items ≡ drop start.old (take end.old bytes.old.items) }
    ensures start { start.new ≡ 0 }
    ensures within { end.new ≤ length bytes.new.items }
{
    bytes.copy_within(*start..*end, 0);
    *end -= *start;
    *start = 0;
}

/// Moves the bytes to the front, where there is some room there, as much is used as a head needs,
/// and there is none for a piece behind them. What stands there then is no more than a head and a
/// piece need.
#[tactic(auto, using(crate::proofs::HeldLemmas::front_cut))]
fn use_front(bytes: &mut Vec<u8>, start: &mut usize, end: &mut usize)
    requires ordered { start.old ≤ end.old }
    requires within { end.old ≤ length bytes.old.items }
    requires room { length bytes.old.items ≤ end.old + room_limit }
    ensures bytes { drop start.new (take end.new bytes.new.items)
        ≡ drop start.old (take end.old bytes.old.items) }
    ensures ordered { start.new ≤ end.new }
    ensures within { end.new ≤ length bytes.new.items }
    ensures given { start.new ≤ start.old }
    ensures room { length bytes.new.items ≤ end.new + room_limit }
{
    if 0 < *start && HEAD_LIMIT < bytes.len() && bytes.len() - *end < PIECE {
        move_to_front(bytes, start, end);
        bytes.truncate(*end + ROOM);
    }
}

/// Makes room for a piece behind the first `end` bytes, where there isn't any.
#[tactic(auto, using(crate::proofs::HeldLemmas::front_kept))]
fn add_room(bytes: &mut Vec<u8>, end: usize) -> Result<(), AllocError>
    requires within { end ≤ length bytes.old.items }
    requires room { length bytes.old.items ≤ end + room_limit }
    ensures bytes { take end bytes.new.items ≡ take end bytes.old.items }
    ensures within { end ≤ length bytes.new.items }
    ensures ok { OnOk result (end + piece_limit ≤ length bytes.new.items) }
    ensures room { length bytes.new.items ≤ end + room_limit }
{
    if bytes.len() - end < PIECE {
        bytes.extend_from_slice(&[0; PIECE])
    } else {
        Ok(())
    }
}

/// Reads once, right behind the bytes, where there is room for a piece.
fn read_behind<S: Source>(
    bytes: &mut [u8],
    end: &mut usize,
    src: &mut S,
) -> Result<usize, FrameFault>
    requires { end.old + piece_limit ≤ length bytes.old }
    ensures reads { Reads (S.left src.old) (S.left src.new) (take end.old bytes.old)
        (take end.new bytes.new) }
    ensures len { length bytes.new ≡ length bytes.old }
    ensures end { end.new ≤ length bytes.new }
    ensures further { end.old ≤ end.new }
    ensures count { IfOk result (λ n. end.new ≡ end.old + n) }
    ensures most { IfOk result (λ n. n ≤ piece_limit) }
    ensures at_end { result ≡ Ok 0 → IsAtEnd (S.left src.new) }
    ensures err { OnErr result (take end.new bytes.new ≡ take end.old bytes.old) }
    ensures beside { S.kept_by_read src.new ≡ S.kept_by_read src.old }
    ensures faults { CountsFault FrameFault.ReadFault result (S.faults src.old) (S.faults src.new) }
    ensures other { result ≢ Err FrameFault.NoFrame }
{
    let n = src.read(&mut bytes[*end..*end + PIECE])?;
    *end += n;
    Ok(n)
}

impl ReadBuffer {
    pub(crate) fn new(alloc: Global) -> Result<ReadBuffer, AllocError>
        ensures { IfOk result (λ held. held ≡ []) }
    {
        Ok(ReadBuffer {
            bytes: Vec::with_capacity(alloc, ROOM)?,
            start: 0,
            end: 0,
        })
    }

    #[tactic(auto, using(crate::proofs::HeldLemmas::moved))]
    pub(crate) fn bytes(&self) -> &[u8]
        ensures { result.now ≡ self.now }
    {
        &self.bytes[self.start..self.end]
    }

    /// Gives the first `n` bytes away, and after a long message the room that it needed.
    #[tactic(auto, using(crate::proofs::HeldLemmas::front_cut))]
    pub(crate) fn skip(&mut self, n: usize)
        requires { n ≤ length self.old }
        ensures { self.new ≡ drop n self.old }
    {
        self.start += n;
        if self.start > ROOM {
            move_to_front(&mut self.bytes, &mut self.start, &mut self.end);
            self.bytes.truncate(self.end);
            self.bytes.shrink_to(ROOM);
        }
    }

    /// Reads once, and answers how many bytes came: 0 only at the end.
    fn read_once<S: Source>(&mut self, src: &mut S) -> Result<usize, FrameFault>
        ensures reads { Reads (S.left src.old) (S.left src.new) self.old self.new }
        ensures count { IfOk result (λ n. length self.new ≡ length self.old + n) }
        ensures most { IfOk result (λ n. n ≤ piece_limit) }
        ensures end { result ≡ Ok 0 → IsAtEnd (S.left src.new) }
        ensures err { OnErr result (self.new ≡ self.old) }
        ensures beside { S.kept_by_read src.new ≡ S.kept_by_read src.old }
        ensures faults { CountsFault FrameFault.ReadFault result (S.faults src.old)
            (S.faults src.new) }
        ensures other { result ≢ Err FrameFault.NoFrame }
    {
        use_front(&mut self.bytes, &mut self.start, &mut self.end);
        add_room(&mut self.bytes, self.end)?;
        read_behind(&mut self.bytes, &mut self.end, src)
    }

    /// Reads until so many bytes are held, and answers whether they are: they aren't only at the
    /// end.
    pub(crate) fn fill<S: Source>(&mut self, src: &mut S, need: usize) -> Result<bool, FrameFault>
        requires { length self.old < need }
        ensures reads { Reads (S.left src.old) (S.left src.new) self.old self.new }
        ensures enough { IfOk result (λ enough. IsTrue enough → need ≤ length self.new) }
        ensures ends { EndsBelow need self.old self.new }
        ensures ended { result ≡ Ok false → (length self.new < need) × IsAtEnd (S.left src.new) }
        ensures err { OnErr result (length self.new < need) }
        ensures beside { S.kept_by_read src.new ≡ S.kept_by_read src.old }
        ensures faults { CountsFault FrameFault.ReadFault result (S.faults src.old)
            (S.faults src.new) }
        ensures other { result ≢ Err FrameFault.NoFrame }
    {
        while self.bytes().len() < need {
            if self.read_once(src)? == 0 {
                return Ok(false);
            }
        }
        Ok(true)
    }
}

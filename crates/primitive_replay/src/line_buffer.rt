//! The bytes that were read and are not yet taken.
ghost use Rattle.std.specs.Prelude.{◌≡◌, ◌≢◌, ◌+◌, ◌-◌, ◌≤◌, [], Ok, Err, IfOk, OnOk, OnErr};
ghost use Rattle.std.specs.Prelude.{length, drop, vec_len, vec_capacity};
ghost use Rattle.std.specs.Io.{StartsWith};
ghost use Rattle.std.specs.Io.KnownBytes.{IsAtEnd, Keeps, prepend_known};
ghost use Rattle.m2m_io.specs.Counts.{CountsFault};
ghost use Rattle.primitive_replay.specs.Front.{piece_limit, short_limit, held_limit};

use crate::fault::LineFault;
use crate::line::LINE_LIMIT;
use http_frames::PIECE;
use m2m_io::Source;
use std::alloc::{AllocError, Global};
use std::marker::Model;

/// Bytes without LF that may begin a line are at most so many: those of the longest, and CR.
pub(crate) const SHORT: usize = LINE_LIMIT + 1;

/// Room for what a read may find, and for what it gives.
const ROOM: usize = SHORT + PIECE;

/// The bytes that were read and are not yet taken. Of those that are taken some stay at the front
/// until room is needed. There is room for all of them from the start.
#[derive(Debug, Drop)]
pub struct LineBuffer {
    bytes: Vec<u8>,
    start: usize,
    piece: Vec<u8>,
}

impl Model for LineBuffer {
    ghost use Rattle.std.specs.Prelude.{◌≡◌, ◌≤◌, List, ℕ, length, drop};
    ghost use Rattle.primitive_replay.specs.Front.{held_limit, piece_limit};

    ghost Value = { List ℕ };

    ghost view = { λ h. drop h.start h.bytes.items };

    ghost invariant = { λ h. (h.start ≤ length h.bytes.items)
        × (length h.bytes.items ≤ held_limit) × (length h.piece.items ≡ piece_limit) };
}

/// Moves the bytes from `start` on to the front.
fn move_to_front(bytes: &mut Vec<u8>, start: &mut usize)
    requires { start.old ≤ length bytes.old.items }
    ensures bytes { bytes.new.items ≡ drop start.old bytes.old.items }
    ensures start { start.new ≡ 0 }
{
    let len = bytes.len() - *start;
    bytes.copy_within(*start.., 0);
    bytes.truncate(len);
    *start = 0;
}

/// Makes room for a piece behind the bytes.
fn make_room(bytes: &mut Vec<u8>, start: &mut usize) -> Result<(), AllocError>
    requires within { start.old ≤ length bytes.old.items }
    requires most { length bytes.old.items ≤ held_limit }
    requires short { length bytes.old.items ≤ short_limit + start.old }
    ensures bytes { drop start.new bytes.new.items ≡ drop start.old bytes.old.items }
    ensures start { start.new ≤ length bytes.new.items }
    ensures most { length bytes.new.items ≤ held_limit }
    ensures room { OnOk result (vec_len bytes.new + piece_limit ≤ vec_capacity bytes.new) }
    ensures short { OnOk result (length bytes.new.items ≤ short_limit) }
{
    if bytes.len() > SHORT {
        move_to_front(bytes, start);
    }
    bytes.reserve(PIECE)
}

impl LineBuffer {
    /// With room for the longest line.
    pub fn new(alloc: Global) -> Result<LineBuffer, AllocError>
        ensures { IfOk result (λ held. held ≡ []) }
    {
        Ok(LineBuffer {
            bytes: Vec::with_capacity(alloc, ROOM)?,
            start: 0,
            piece: vec![in alloc; 0; PIECE]?,
        })
    }

    pub(crate) fn bytes(&self) -> &[u8]
        ensures value { result.now ≡ self.now }
        ensures few { length self.now ≤ held_limit }
    {
        &self.bytes[self.start..]
    }

    /// Takes the first `n` bytes.
    pub(crate) fn skip(&mut self, n: usize)
        requires { n ≤ length self.old }
        ensures taken { self.new ≡ drop n self.old }
        ensures few { length self.new ≤ held_limit }
    {
        self.start += n;
    }

    /// Reads once, and answers how many bytes came: 0 only at the end.
    pub(crate) fn read_once<S: Source>(&mut self, src: &mut S) -> Result<usize, LineFault>
        requires { length self.old ≤ short_limit }
        ensures stream { Keeps (prepend_known self.old (S.left src.old))
            (prepend_known self.new (S.left src.new)) }
        ensures front { StartsWith self.new self.old }
        ensures count { IfOk result (λ n. length self.new ≡ length self.old + n) }
        ensures end { result ≡ Ok 0 → IsAtEnd (S.left src.new) }
        ensures none { result ≡ Ok 0 → self.new ≡ self.old }
        ensures err { OnErr result (self.new ≡ self.old) }
        ensures few { length self.new ≤ held_limit }
        ensures faults { CountsFault LineFault.ReadFault result
            (S.faults src.old) (S.faults src.new) }
        ensures other { result ≢ Err LineFault.Bad }
    {
        make_room(&mut self.bytes, &mut self.start)?;
        let n = src.read(&mut self.piece)?;
        self.bytes.extend_from_slice(&self.piece[..n]).unwrap();
        Ok(n)
    }
}

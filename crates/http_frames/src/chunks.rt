//! Chunked bodies on the stream (RFC 9112, section 7.1).
ghost use Rattle.std.specs.Prelude.{◌≡◌, ◌+◌, ◌-◌, ◌<◌, ◌≤◌, ◌++◌, ℕ, IfOk, OnOk, OnErr};
ghost use Rattle.std.specs.Prelude.{[], length, take, drop, None};
ghost use Rattle.httparse.specs.Grammar.{HasNoChunkLine, MayBecomeChunkLine};
ghost use Rattle.http_frames.specs.Chunks.{chunk_line_limit};
ghost use Rattle.http_frames.specs.ChunkLooks.{IsEndLook, IsLineAt, IsChunkLook, GoesOnBy};
ghost use Rattle.http_frames.specs.ChunkLooks.{AreChunksAt, IsStop};
ghost use Rattle.http_frames.specs.Frame.{largest_body};

use crate::head::HeadSpans;
use httparse::{Status, parse_chunk_size};
use std::alloc::{AllocError, Global};

/// A chunk line has at most so many bytes, its CR LF counted.
const LINE_LIMIT: usize = 256;

/// What stands at the front of bytes where a chunk or the end of the body is wanted.
#[derive(Clone, Copy)]
pub(crate) enum ChunkLook {
    /// A chunk: its line ends there, and it has so many bytes of the body.
    Chunk(usize, usize),
    /// No chunk.
    Rest(Stop),
}

/// What stands behind the last whole chunk.
#[derive(Clone, Copy)]
pub(crate) enum Stop {
    /// The end of the body, whose line ends there.
    End(usize),
    /// Neither that nor a chunk so far: until so many bytes are there, nothing is settled.
    Short(usize),
    /// Neither, whatever follows.
    Never,
}

/// What stands at the front of bytes where some of the body and CR LF are wanted.
#[derive(Clone, Copy)]
pub(crate) enum EndLook {
    Whole,
    /// A front of them: until so many bytes are there, nothing is settled.
    Short(usize),
    Never,
}

/// Whether `n` bytes and CR LF stand at the front.
#[tactic(auto, using(crate::proofs::ChunkLemmas::end_cases))]
fn look_for_end(text: &[u8], n: usize) -> EndLook
    requires { n ≤ largest_body }
    ensures { IsEndLook text.now n result }
{
    if text.len() <= n {
        return EndLook::Short(n + 1);
    }
    if text[n] != b'\r' {
        return EndLook::Never;
    }
    if text.len() == n + 1 {
        return EndLook::Short(n + 2);
    }
    if text[n + 1] == b'\n' {
        EndLook::Whole
    } else {
        EndLook::Never
    }
}

/// The first bytes, of which a chunk line is no longer.
#[tactic(auto, using(crate::proofs::ChunkLemmas::front_is))]
fn front_of(text: &[u8]) -> &[u8]
    ensures { result.now ≡ take chunk_line_limit text.now }
{
    &text[..text.len().min(LINE_LIMIT)]
}

/// What stands behind a chunk line that ends at `start` and says that so many bytes follow.
#[tactic(auto, using(crate::proofs::ChunkLemmas::behind_line_cases))]
fn look_behind_line(text: &[u8], most: usize, start: usize, size: usize) -> ChunkLook
    requires line { IsLineAt text.now start size }
    requires fits { size ≤ most }
    requires most { most ≤ largest_body }
    ensures { IsChunkLook most text.now result }
{
    match look_for_end(&text[start..], size) {
        EndLook::Whole if size == 0 => ChunkLook::Rest(Stop::End(start)),
        EndLook::Whole => ChunkLook::Chunk(start, size),
        EndLook::Short(need) => ChunkLook::Rest(Stop::Short(start + need)),
        EndLook::Never => ChunkLook::Rest(Stop::Never),
    }
}

/// What stands there where a chunk line does.
#[tactic(auto, using(crate::proofs::ChunkLemmas::size_too_large))]
fn look_at_line(text: &[u8], most: usize, start: usize, size: u64) -> ChunkLook
    requires line { IsLineAt text.now start size }
    requires most { most ≤ largest_body }
    ensures { IsChunkLook most text.now result }
{
    if size > most as u64 {
        return ChunkLook::Rest(Stop::Never);
    }
    look_behind_line(text, most, start, size as usize)
}

/// What stands there where no whole chunk line does.
#[tactic(auto, using(crate::proofs::ChunkLemmas::no_line_cases))]
fn look_without_line(text: &[u8], most: usize) -> Stop
    requires none { HasNoChunkLine (take chunk_line_limit text.now) }
    requires may { MayBecomeChunkLine (take chunk_line_limit text.now) }
    ensures { IsStop most text.now result }
{
    if text.len() < LINE_LIMIT {
        Stop::Short(text.len() + 1)
    } else {
        Stop::Never
    }
}

/// What stands at the front, where at most `most` bytes of the body may come.
fn look_for_chunk(text: &[u8], most: usize) -> ChunkLook
    requires { most ≤ largest_body }
    ensures { IsChunkLook most text.now result }
{
    match parse_chunk_size(front_of(text)) {
        Ok(Status::Complete((start, size))) => look_at_line(text, most, start, size),
        Ok(Status::Partial) => ChunkLook::Rest(look_without_line(text, most)),
        Err(_) => ChunkLook::Rest(Stop::Never),
    }
}

/// How far a message in chunks was read: its head, once that is found, and behind it whole chunks,
/// of `at` bytes in all, with this part of the body.
#[derive(Drop)]
pub(crate) struct Walked {
    pub(crate) head: Option<HeadSpans>,
    pub(crate) at: usize,
    pub(crate) body: Vec<u8>,
}

impl Walked {
    /// Nothing so far.
    pub(crate) fn new(alloc: Global) -> Walked
        ensures head { result.head ≡ None }
        ensures at { result.at ≡ 0 }
        ensures body { result.body.items ≡ [] }
    {
        Walked {
            head: None,
            at: 0,
            body: Vec::new(alloc),
        }
    }

    /// Walks over one more chunk, whose line ends `start` bytes behind those that were walked.
    #[tactic(auto, using(crate::proofs::ChunkLemmas::passing))]
    fn pass(&mut self, carried: &[u8], start: usize, size: usize) -> Result<(), AllocError>
        requires chunks { AreChunksAt carried.now self.old.at self.old.body.items }
        requires within { self.old.at ≤ length carried.now }
        requires chunk { GoesOnBy (drop self.old.at carried.now) start size }
        requires some { 0 < size }
        ensures chunks { AreChunksAt carried.now self.new.at self.new.body.items }
        ensures within { self.new.at ≤ length carried.now }
        ensures ok { OnOk result (self.new.at ≡ self.old.at + (start + size + 2)) }
        ensures len { OnOk result
            (length self.new.body.items ≡ length self.old.body.items + size) }
        ensures err { OnErr result (self.new.body.items ≡ self.old.body.items) }
        ensures head { self.new.head ≡ self.old.head }
    {
        let from = self.at + start;
        self.body.extend_from_slice(&carried[from..from + size])?;
        self.at = from + size + 2;
        Ok(())
    }

    /// Walks on over the whole chunks that are there, in a body of at most `limit` bytes, and
    /// answers what stands behind them.
    pub(crate) fn walk(&mut self, carried: &[u8], limit: usize) -> Result<Stop, AllocError>
        requires chunks { AreChunksAt carried.now self.old.at self.old.body.items }
        requires within { self.old.at ≤ length carried.now }
        requires fits { length self.old.body.items ≤ limit }
        requires limit { limit ≤ largest_body }
        ensures chunks { AreChunksAt carried.now self.new.at self.new.body.items }
        ensures within { self.new.at ≤ length carried.now }
        ensures fits { length self.new.body.items ≤ limit }
        ensures stop { IfOk result (IsStop (limit - length self.new.body.items)
            (drop self.new.at carried.now)) }
        ensures head { self.new.head ≡ self.old.head }
    {
        'chunks: loop {
            match look_for_chunk(&carried[self.at..], limit - self.body.len()) {
                ChunkLook::Chunk(start, size) => self.pass(carried, start, size)?,
                ChunkLook::Rest(stop) => return Ok(stop),
            }
        }
    }
}

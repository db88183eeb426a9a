//! A look for a frame at the front of some bytes.
ghost use Rattle.std.specs.Prelude.{◌≡◌, ◌-◌, ◌≤◌, ℕ, List, [], None, IfOk, length, drop};
ghost use Rattle.http_frames.specs.ChunkLooks.{IsStop};
ghost use Rattle.http_frames.specs.Body.{counted};
ghost use Rattle.http_frames.specs.Frame.{lines_limit, body_limit, largest_body};
ghost use Rattle.http_frames.specs.Looks.{IsLook};
ghost use Rattle.http_frames.specs.Spans.{IsGoodHead, IsWalked, AreBehind, framing_at};

use crate::Side;
use crate::body::{Coding, coding_of};
use crate::chunks::{Stop, Walked};
use crate::head::{HeadLook, HeadSpans, StartSpans, look_for_head};
use httparse::spans::HeaderSpan;
use std::alloc::AllocError;

/// A head has at most so many bytes.
pub(crate) const HEAD_LIMIT: usize = 16_384;

/// A head has at most so many lines.
pub(crate) const LINES_LIMIT: usize = 64;

/// The body of a request has at most so many bytes.
const REQUEST_BODY_LIMIT: usize = 65_536;

/// The body of a reply has at most so many bytes.
const REPLY_BODY_LIMIT: usize = 1_048_576;

/// Where the parts of a frame are.
#[derive(Clone, Copy)]
pub(crate) struct FrameSpans {
    pub(crate) start: StartSpans,
    /// How many lines it has.
    pub(crate) lines: usize,
    /// Where what carries the body begins.
    pub(crate) body: usize,
    /// Whether the body comes in chunks.
    pub(crate) chunked: bool,
    /// Where the frame ends.
    pub(crate) end: usize,
}

/// What stands at the front of the bytes.
#[derive(Clone, Copy)]
pub(crate) enum FrameStatus {
    Whole(FrameSpans),
    /// No whole frame so far: until so many bytes are there, nothing is settled.
    Short(usize),
    /// No frame, whatever follows.
    Never,
}

fn body_limit(side: Side) -> usize
    ensures limit { result ≡ body_limit side }
    ensures small { result ≤ largest_body }
{
    match side {
        Side::Request => REQUEST_BODY_LIMIT,
        Side::Reply => REPLY_BODY_LIMIT,
    }
}

/// What frame has this head and a body of so many bytes.
#[tactic(auto, using(crate::proofs::WaitLemmas::body_cases))]
fn look_for_body(
    side: Side,
    bytes: &[u8],
    headers: &[HeaderSpan],
    head: HeadSpans,
    n: u64,
) -> FrameStatus
    requires good { IsGoodHead side bytes.now headers.now head }
    requires framing { framing_at bytes.now headers.now head ≡ counted n }
    ensures { (body : List ℕ) → IsLook side bytes.now headers.now body result }
{
    if n > body_limit(side) as u64 {
        return FrameStatus::Never;
    }
    let end = head.len + n as usize;
    if bytes.len() < end {
        return FrameStatus::Short(end);
    }
    FrameStatus::Whole(FrameSpans {
        start: head.start,
        lines: head.lines,
        body: head.len,
        chunked: false,
        end,
    })
}

/// What frame has this head and the chunks that were walked, behind which a walk stopped.
#[tactic(auto, using(crate::proofs::WaitLemmas::chunks_cases))]
fn look_behind_chunks(
    side: Side,
    bytes: &[u8],
    headers: &[HeaderSpan],
    head: HeadSpans,
    walked: &Walked,
    stop: Stop,
) -> FrameStatus
    requires behind { AreBehind side bytes.now headers.now head walked.now.at
        walked.now.body.items }
    requires stop { IsStop (body_limit side - length walked.now.body.items)
        (drop walked.now.at (drop head.len bytes.now)) stop }
    ensures { IsLook side bytes.now headers.now walked.now.body.items result }
{
    let at = head.len + walked.at;
    match stop {
        Stop::End(start) => FrameStatus::Whole(FrameSpans {
            start: head.start,
            lines: head.lines,
            body: head.len,
            chunked: true,
            end: at + start + 2,
        }),
        Stop::Short(need) => FrameStatus::Short(at + need),
        Stop::Never => FrameStatus::Never,
    }
}

/// What frame has this head and chunks, of which some were walked.
#[tactic(auto, using(crate::proofs::LookLemmas::behind_on))]
fn look_for_chunks(
    side: Side,
    bytes: &[u8],
    headers: &[HeaderSpan],
    head: HeadSpans,
    walked: &mut Walked,
) -> Result<FrameStatus, AllocError>
    requires { AreBehind side bytes.now headers.now head walked.old.at walked.old.body.items }
    ensures walked { AreBehind side bytes.now headers.now head walked.new.at
        walked.new.body.items }
    ensures head { walked.new.head ≡ walked.old.head }
    ensures look { IfOk result
        (IsLook side bytes.now headers.now walked.new.body.items) }
{
    let stop = walked.walk(&bytes[head.len..], body_limit(side))?;
    Ok(look_behind_chunks(side, bytes, headers, head, walked, stop))
}

/// What frame has this head. One that announces chunks is kept.
#[tactic(auto, using(crate::proofs::LookLemmas::behind_head_cases))]
fn look_behind(
    side: Side,
    bytes: &[u8],
    headers: &[HeaderSpan],
    head: HeadSpans,
    walked: &mut Walked,
) -> Result<FrameStatus, AllocError>
    requires good { IsGoodHead side bytes.now headers.now head }
    requires head { walked.old.head ≡ None }
    requires at { walked.old.at ≡ 0 }
    requires body { walked.old.body.items ≡ [] }
    ensures walked { IsWalked side bytes.now headers.now walked.new.head walked.new.at
        walked.new.body.items }
    ensures look { IfOk result (IsLook side bytes.now headers.now walked.new.body.items) }
{
    match coding_of(bytes, head.start, &headers[..head.lines]) {
        None => Ok(FrameStatus::Never),
        Some(Coding::Counted(n)) => Ok(look_for_body(side, bytes, headers, head, n)),
        Some(Coding::Chunked) => {
            walked.head = Some(head);
            look_for_chunks(side, bytes, headers, head, walked)
        }
    }
}

/// What frame stands at the front, where no head was found yet. Where its lines are is written to
/// `headers`. A head that is still coming is parsed anew after each read, since a read is made only
/// where the bytes held may still become one, and that httparse tells of all of them alone.
#[tactic(auto, using(crate::proofs::WaitLemmas::start_cases))]
fn look_from_start(
    side: Side,
    bytes: &[u8],
    headers: &mut [HeaderSpan],
    walked: &mut Walked,
) -> Result<FrameStatus, AllocError>
    requires room { length headers.old ≡ lines_limit }
    requires head { walked.old.head ≡ None }
    requires at { walked.old.at ≡ 0 }
    requires body { walked.old.body.items ≡ [] }
    ensures walked { IsWalked side bytes.now headers.new walked.new.head walked.new.at
        walked.new.body.items }
    ensures look { IfOk result (IsLook side bytes.now headers.new walked.new.body.items) }
{
    if bytes.is_empty() {
        return Ok(FrameStatus::Short(1));
    }
    match look_for_head(side, bytes, headers) {
        HeadLook::Whole(head) if head.len > HEAD_LIMIT => Ok(FrameStatus::Never),
        HeadLook::Whole(head) => look_behind(side, bytes, headers, head, walked),
        HeadLook::NotYet if bytes.len() < HEAD_LIMIT => Ok(FrameStatus::Short(bytes.len() + 1)),
        HeadLook::NotYet | HeadLook::Never => Ok(FrameStatus::Never),
    }
}

/// What frame of that side stands at the front of the bytes. A head in `walked` isn't parsed again,
/// and its lines are where `headers` has them; nor are chunks in it walked again.
pub(crate) fn look_for_frame(
    side: Side,
    bytes: &[u8],
    headers: &mut [HeaderSpan],
    walked: &mut Walked,
) -> Result<FrameStatus, AllocError>
    requires room { length headers.old ≡ lines_limit }
    requires walked { IsWalked side bytes.now headers.old walked.old.head walked.old.at
        walked.old.body.items }
    ensures walked { IsWalked side bytes.now headers.new walked.new.head walked.new.at
        walked.new.body.items }
    ensures look { IfOk result (IsLook side bytes.now headers.new walked.new.body.items) }
{
    match walked.head {
        Some(head) => look_for_chunks(side, bytes, headers, head, walked),
        None => look_from_start(side, bytes, headers, walked),
    }
}

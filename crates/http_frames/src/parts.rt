//! A frame out of the spans of its parts.
ghost use Rattle.std.specs.Prelude.{◌≡◌, ◌≤◌, All, IfOk, length, map, slice_range};
ghost use Rattle.std.specs.Prelude.{if◌then◌else◌};
ghost use Rattle.httparse.specs.Spans.{IsWithin, IsHeaderWithin, header_bytes, span_bytes};
ghost use Rattle.http_frames.specs.Spans.{IsStartWithin, AreWithin, frame_at, start_at};

use crate::head::StartSpans;
use crate::look::FrameSpans;
use crate::rooms::Rooms;
use crate::{Frame, Lines, Start};
use httparse::spans::{HeaderSpan, Span};
use m2m_value::Text;
use std::alloc::{AllocError, Global};

/// The text that a span covers.
fn span_text(rooms: &mut Rooms, alloc: Global, bytes: &[u8], span: Span) -> Result<Text, AllocError>
    requires { IsWithin (length bytes.now) span }
    ensures { IfOk result (λ text. text ≡ span_bytes bytes.now span) }
{
    rooms.text(alloc, span.of(bytes))
}

fn start_of(
    rooms: &mut Rooms,
    alloc: Global,
    bytes: &[u8],
    start: StartSpans,
) -> Result<Start, AllocError>
    requires { IsStartWithin (length bytes.now) start }
    ensures { IfOk result (λ begin. begin ≡ start_at bytes.now start) }
{
    Ok(match start {
        StartSpans::Ask {
            method,
            target,
            minor,
        } => Start::Ask {
            method: span_text(rooms, alloc, bytes, method)?,
            target: span_text(rooms, alloc, bytes, target)?,
            minor,
        },
        StartSpans::Answer { status, minor } => Start::Answer { status, minor },
    })
}

fn lines_of(
    rooms: &mut Rooms,
    alloc: Global,
    bytes: &[u8],
    headers: &[HeaderSpan],
) -> Result<Lines, AllocError>
    requires { All (IsHeaderWithin (length bytes.now)) headers.now }
    ensures { IfOk result (λ lines. lines ≡ map (header_bytes bytes.now) headers.now) }
{
    let mut lines = rooms.lines(alloc, headers.len())?;
    for header in headers {
        let name = span_text(rooms, alloc, bytes, header.name)?;
        lines.push((name, span_text(rooms, alloc, bytes, header.value)?))?;
    }
    Ok(Lines::of(lines))
}

/// The body that the spans cover, where `chunks` is what its chunks carry, if it has any.
fn body_at(
    rooms: &mut Rooms,
    alloc: Global,
    bytes: &[u8],
    spans: FrameSpans,
    chunks: Vec<u8>,
) -> Result<Text, AllocError>
    requires ordered { spans.body ≤ spans.end }
    requires within { spans.end ≤ length bytes.now }
    ensures { IfOk result (λ body. body ≡ (if spans.chunked then chunks.items
        else slice_range bytes.now spans.body spans.end)) }
{
    if spans.chunked {
        Ok(Text::of(chunks))
    } else {
        rooms.text(alloc, &bytes[spans.body..spans.end])
    }
}

/// The frame that the spans cover. Its texts stand in room that frames before it gave back, where
/// there is some. Its body is copied once, and what its chunks carry never.
pub(crate) fn frame_of(
    rooms: &mut Rooms,
    alloc: Global,
    bytes: &[u8],
    headers: &[HeaderSpan],
    spans: FrameSpans,
    chunks: Vec<u8>,
) -> Result<Frame, AllocError>
    requires { AreWithin bytes.now headers.now spans }
    ensures { IfOk result (λ frame. frame ≡ frame_at bytes.now headers.now chunks.items spans) }
{
    Ok(Frame {
        start: start_of(rooms, alloc, bytes, spans.start)?,
        lines: lines_of(rooms, alloc, bytes, &headers[..spans.lines])?,
        body: body_at(rooms, alloc, bytes, spans, chunks)?,
    })
}

//! How a body stands on the stream, by the lines of its head.
ghost use Rattle.std.specs.Prelude.{◌≡◌, ℕ, List, [], ◌∷◌, All, length, map};
ghost use Rattle.httparse.specs.Spans.{IsWithin, IsHeaderWithin, header_bytes, span_bytes};
ghost use Rattle.http_frames.specs.Lines.{IfOne, IsFound, values_named};
ghost use Rattle.http_frames.specs.Body.{framing_of_lengths, framing_of_coding};
ghost use Rattle.http_frames.specs.Body.{framing_of_values, framing_of, minor_of};
ghost use Rattle.http_frames.specs.Spans.{framing_as, start_at};

use crate::head::StartSpans;
use crate::{Found, is_same_name};
use httparse::spans::{HeaderSpan, Span};
use m2m_names::number_spelled;

/// What the lines at these spans have of this name.
fn find_span(buf: &[u8], headers: &[HeaderSpan], name: &[u8]) -> Found<Span>
    requires { All (IsHeaderWithin (length buf.now)) headers.now }
    ensures found { IsFound (span_bytes buf.now) result
        (values_named name.now (map (header_bytes buf.now) headers.now)) }
    ensures within { IfOne result (IsWithin (length buf.now)) }
{
    let mut found = Found::Absent;
    for header in headers {
        if is_same_name(header.name.of(buf), name) {
            found = found.and(header.value);
        }
    }
    found
}

/// How a body stands on the stream.
#[derive(Clone, Copy)]
pub(crate) enum Coding {
    /// As it is, with so many bytes.
    Counted(u64),
    /// In chunks.
    Chunked,
}

/// What a lone Content-Length says, or that there is none.
fn length_coding(buf: &[u8], found: Found<Span>) -> Option<Coding>
    requires { IfOne found (IsWithin (length buf.now)) }
    ensures { (values : List (List ℕ)) → IsFound (span_bytes buf.now) found values
        → framing_of_lengths values ≡ framing_as result }
{
    match found {
        Found::Absent => Some(Coding::Counted(0)),
        Found::One(value) => Some(Coding::Counted(number_spelled(value.of(buf))?)),
        Found::Repeated => None,
    }
}

/// What a lone Transfer-Encoding says in a message of HTTP/1.`minor`.
fn named_coding(buf: &[u8], minor: u8, coding: Span) -> Option<Coding>
    requires { IsWithin (length buf.now) coding }
    ensures { framing_of_coding minor (span_bytes buf.now coding) ≡ framing_as result }
{
    if minor == 1 && coding.of(buf).eq_ignore_ascii_case(b"chunked") {
        Some(Coding::Chunked)
    } else {
        None
    }
}

/// What a lone Transfer-Encoding says beside what there is of Content-Length.
fn lone_coding(buf: &[u8], minor: u8, coding: Span, size: Found<Span>) -> Option<Coding>
    requires { IsWithin (length buf.now) coding }
    ensures { (lengths : List (List ℕ)) → IsFound (span_bytes buf.now) size lengths
        → framing_of_values minor (span_bytes buf.now coding ∷ []) lengths ≡ framing_as result }
{
    match size {
        Found::Absent => named_coding(buf, minor, coding),
        Found::One(_) | Found::Repeated => None,
    }
}

/// The last digit of the version of HTTP.
fn minor_of(start: StartSpans) -> u8
    ensures { (bytes : List ℕ) → result ≡ minor_of (start_at bytes start) }
{
    match start {
        StartSpans::Ask { minor, .. } | StartSpans::Answer { minor, .. } => minor,
    }
}

/// How the body of a message stands on the stream, or None where no message has such a head.
pub(crate) fn coding_of(buf: &[u8], start: StartSpans, headers: &[HeaderSpan]) -> Option<Coding>
    requires { All (IsHeaderWithin (length buf.now)) headers.now }
    ensures { framing_of (start_at buf.now start) (map (header_bytes buf.now) headers.now)
        ≡ framing_as result }
{
    let size = find_span(buf, headers, b"Content-Length");
    match find_span(buf, headers, b"Transfer-Encoding") {
        Found::Absent => length_coding(buf, size),
        Found::One(coding) => lone_coding(buf, minor_of(start), coding, size),
        Found::Repeated => None,
    }
}

//! When a connection ends behind a reply.
ghost use Rattle.std.specs.Prelude.{◌≡◌};
ghost use Rattle.std.specs.List.{list_all, list_any};
ghost use Rattle.httparse.specs.Grammar.{is_ows, skip_ows};
ghost use Rattle.http_frames.specs.Body.{minor_of};
ghost use Rattle.cse_server.specs.Closing as spec;

use http_frames::{Frame, Lines, Start, is_same_name};
use m2m_value::Text;

/// The most frames that a connection has: behind the reply to the last of them it closes.
pub const MOST_FRAMES: u64 = 10_000;

/// Whether the connection closes behind the reply to the frame at this place, from 1.
pub(crate) fn closes(place: u64, frame: &Frame) -> bool
    ensures { result ≡ spec.closes place frame.now }
{
    asks_to_close(&frame.lines) || minor_of(&frame.start) == 0 || MOST_FRAMES <= place
}

fn minor_of(start: &Start) -> u8
    ensures { result ≡ minor_of start.now }
{
    match start {
        Start::Ask { minor, .. } | Start::Answer { minor, .. } => *minor,
    }
}

/// Whether a line `Connection` has the option `close`.
fn asks_to_close(lines: &Lines) -> bool
    ensures { result ≡ spec.asks_to_close lines.now }
{
    some_asks(lines.entries())
}

fn some_asks(lines: &[(Text, Text)]) -> bool
    ensures { result ≡ list_any spec.asks_by lines.now }
{
    lines.iter().any(|line| asks_by(line))
}

/// Whether the line is one `Connection` that has the option `close`.
fn asks_by(line: &(Text, Text)) -> bool
    ensures { result ≡ spec.asks_by line.now }
{
    is_same_name(line.0.entries(), b"Connection") && lists_close(line.1.entries())
}

/// Whether the list, whose elements stand between commas, has the option `close`.
fn lists_close(value: &[u8]) -> bool
    ensures { result ≡ spec.lists_close value.now }
{
    value
        .split(|byte| *byte == b',')
        .any(|element| is_close(element))
}

fn is_close(element: &[u8]) -> bool
    ensures { result ≡ spec.is_close element.now }
{
    is_close_word(behind_blanks(element))
}

fn is_close_word(text: &[u8]) -> bool
    ensures { result ≡ spec.is_close_word text.now }
{
    let (word, blanks) = text.split_at(text.len().min(5));
    is_same_name(word, b"close") && are_blank(blanks)
}

fn are_blank(text: &[u8]) -> bool
    ensures { result ≡ list_all is_ows text.now }
{
    text.iter().all(|byte| is_blank(*byte))
}

fn behind_blanks(text: &[u8]) -> &[u8]
    ensures { result.now ≡ skip_ows text.now }
{
    for (at, byte) in text.iter().enumerate() {
        if !is_blank(*byte) {
            return &text[at..];
        }
    }
    &[]
}

fn is_blank(byte: u8) -> bool
    ensures { result ≡ is_ows byte }
{
    byte == b' ' || byte == b'\t'
}

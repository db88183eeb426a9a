//! What stands at the front of a stream of lines.
ghost use Rattle.std.specs.Prelude.{◌≡◌, ◌≢◌, ◌<◌, ◌≤◌, Err, IfSome, None, length, take};
ghost use Rattle.std.specs.Io.KnownBytes.{Keeps, prepend_known};
ghost use Rattle.m2m_io.specs.Counts.{CountsFault};
ghost use Rattle.primitive_replay.specs.Front.{HasNoEnd, IsFront, IsFrontAtEnd, end_of};
ghost use Rattle.primitive_replay.specs.Front.{held_limit};

use crate::fault::LineFault;
use crate::line_buffer::{LineBuffer, SHORT};
use m2m_io::Source;
use memchr::memchr;

/// What stands at the front of a stream of lines, once that is settled.
#[derive(Clone, Copy)]
pub(crate) enum Front {
    /// A line, whose LF stands at this place.
    Whole(usize),
    /// The last line, without LF: all that is left.
    Last,
    /// A line that is longer than any may be.
    TooLong,
    /// Nothing.
    End,
}

/// How many bytes stand before the first LF, or how many there are where none stands there.
fn end_of(bytes: &[u8]) -> usize
    ensures value { result ≡ end_of bytes.now }
    ensures bound { result ≤ length bytes.now }
{
    match memchr(b'\n', bytes) {
        Some(end) => end,
        None => bytes.len(),
    }
}

/// Where the first line that ends in the bytes held has its LF.
pub(crate) fn end_held(held: &LineBuffer) -> Option<usize>
    ensures found { IfSome result (λ end. (end ≡ end_of held.now) × (end < length held.now)) }
    ensures none { result ≡ None → HasNoEnd held.now }
    ensures few { length held.now ≤ held_limit }
{
    let bytes = held.bytes();
    let end = end_of(bytes);
    if end < bytes.len() { Some(end) } else { None }
}

/// The same, where none of the first `seen` bytes is one.
fn end_behind(bytes: &[u8], seen: usize) -> usize
    requires within { seen ≤ length bytes.now }
    requires none { HasNoEnd (take seen bytes.now) }
    ensures value { result ≡ end_of bytes.now }
    ensures bound { result ≤ length bytes.now }
{
    seen + end_of(&bytes[seen..])
}

/// What stands there once nothing more comes.
fn front_at_end(held: &LineBuffer) -> Front
    ensures { IsFrontAtEnd held.now result }
{
    if held.bytes().is_empty() {
        Front::End
    } else {
        Front::Last
    }
}

/// Reads until it is settled what stands at the front: only while no LF is held and fewer bytes
/// than are too many. Each byte is looked at once.
pub(crate) fn settle<S: Source>(held: &mut LineBuffer, src: &mut S) -> Result<Front, LineFault>
    ensures stream { Keeps (prepend_known held.old (S.left src.old))
        (prepend_known held.new (S.left src.new)) }
    ensures front { IsFront result held.new (S.left src.new) }
    ensures few { length held.new ≤ held_limit }
    ensures faults { CountsFault LineFault.ReadFault result (S.faults src.old) (S.faults src.new) }
    ensures other { result ≢ Err LineFault.Bad }
{
    let mut seen = 0;
    'reads: loop {
        let bytes = held.bytes();
        let end = end_behind(bytes, seen);
        if end < bytes.len() {
            return Ok(Front::Whole(end));
        }
        seen = bytes.len();
        if seen > SHORT {
            return Ok(Front::TooLong);
        }
        if held.read_once(src)? == 0 {
            return Ok(front_at_end(held));
        }
    }
}

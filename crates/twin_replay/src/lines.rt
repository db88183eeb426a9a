//! What a line is, by where it stands.
ghost use Rattle.std.specs.Prelude.{◌≡◌, IfOk};
ghost use Rattle.twin_replay.specs.Forms as spec;

use addressing::short_fr;
use m2m_value::{Scratch, Text};
use primitive_json::Request;
use primitive_replay::{Line, line_read};
use std::alloc::{AllocError as OutOfMemory, Global};
use tree_model::Home;

/// The line that opens the left side.
const LEFT: &str = "!left";

/// The line that opens the right side.
const RIGHT: &str = "!right";

/// What stands before the originator that asks both sides.
const AS: &str = "!as ";

/// Which lines come next.
#[derive(Drop)]
pub enum Part {
    /// The one that opens the left side.
    Before,
    /// Those that prepare the left side, and the one that opens the right side.
    LeftSide,
    /// Those that prepare the right side, and the one that names the originator.
    RightSide,
    /// The requests of this originator.
    Asking(Text),
}

/// What a line is.
#[derive(Drop)]
pub enum TwinLine {
    OpensLeft,
    PreparesLeft(Line),
    OpensRight,
    PreparesRight(Line),
    /// Both sides are compared for this originator.
    Compares(Text),
    /// Both sides are asked.
    AsksBoth(Request),
}

/// What a text is before both sides.
pub(crate) fn opening_line(text: &[u8]) -> Option<TwinLine>
    ensures { result ≡ spec.opening_line text.now }
{
    if text == LEFT.as_bytes() {
        Some(TwinLine::OpensLeft)
    } else {
        None
    }
}

/// What a text is on the left side.
pub(crate) fn left_line(
    alloc: Global,
    scratch: &mut Scratch,
    text: &[u8],
) -> Result<Option<TwinLine>, OutOfMemory>
    ensures { IfOk result (λ line. line ≡ spec.left_line text.now) }
{
    if text == RIGHT.as_bytes() {
        return Ok(Some(TwinLine::OpensRight));
    }
    match line_read(alloc, scratch, text)? {
        Some(line) => Ok(Some(TwinLine::PreparesLeft(line))),
        None => Ok(None),
    }
}

/// A text is an originator that is spelled in its own short form.
fn is_own_short(home: &Home, text: &[u8]) -> bool
    ensures { result ≡ spec.is_own_short home.now text.now }
{
    match short_fr(text, home) {
        Some(short) => short == text,
        None => false,
    }
}

/// The line that names an originator.
fn comparing_line(alloc: Global, home: &Home, name: &[u8]) -> Result<Option<TwinLine>, OutOfMemory>
    ensures { IfOk result (λ line. line ≡ spec.comparing_line home.now name.now) }
{
    if is_own_short(home, name) {
        Ok(Some(TwinLine::Compares(Text::from_slice(alloc, name)?)))
    } else {
        Ok(None)
    }
}

/// What a text is on the right side.
pub(crate) fn right_line(
    alloc: Global,
    home: &Home,
    scratch: &mut Scratch,
    text: &[u8],
) -> Result<Option<TwinLine>, OutOfMemory>
    ensures { IfOk result (λ line. line ≡ spec.right_line home.now text.now) }
{
    let mark = AS.as_bytes();
    if text.starts_with(mark) {
        return comparing_line(alloc, home, &text[mark.len()..]);
    }
    match line_read(alloc, scratch, text)? {
        Some(line) => Ok(Some(TwinLine::PreparesRight(line))),
        None => Ok(None),
    }
}

/// A request says that it is this originator's.
fn is_from(originator: &Text, request: &Request) -> bool
    ensures { result ≡ spec.is_from originator.now request.now }
{
    match &request.parts().fr {
        Some(fr) => fr.entries() == originator.entries(),
        None => false,
    }
}

/// A line with a request of this originator.
fn request_line(originator: &Text, request: Request) -> Option<TwinLine>
    ensures { result ≡ spec.request_line originator.now request }
{
    if is_from(originator, &request) {
        Some(TwinLine::AsksBoth(request))
    } else {
        None
    }
}

/// What a text is behind both sides.
pub(crate) fn asking_line(
    alloc: Global,
    originator: &Text,
    scratch: &mut Scratch,
    text: &[u8],
) -> Result<Option<TwinLine>, OutOfMemory>
    ensures { IfOk result (λ line. line ≡ spec.asking_line originator.now text.now) }
{
    match line_read(alloc, scratch, text)? {
        Some(Line::Ask(request)) => Ok(request_line(originator, request)),
        Some(Line::Empty | Line::Reading(_)) | None => Ok(None),
    }
}

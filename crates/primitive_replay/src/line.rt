//! What a line is.
ghost use Rattle.std.specs.Prelude.{◌≡◌, ℕ, IfOk, List, Option, option_map};
ghost use Rattle.primitive_json.specs.Kinds.{number_spelled};
ghost use Rattle.primitive_replay.specs.Lines as spec;
ghost use Rattle.primitive_replay.specs.Lines.{GivesLine};

use crate::fault::LineFault;
use m2m_value::{Scratch, Val, ValFault, read_in};
use primitive_json::{PrimFault, Request, number_spelled, request_from};
use std::alloc::{AllocError as OutOfMemory, Global};

/// The most lines.
pub const MOST_LINES: u64 = 1_000_000;

/// The most bytes of a line, its end not counted.
pub const LINE_LIMIT: usize = 131_072;

/// The form that lines have.
pub trait LineForm {
    type Line: Drop;

    /// What a text is as a line; none where it hasn't the form.
    ghost reads: { Self → List ℕ → Option Self.Line };

    fn read_line(
        &self,
        alloc: Global,
        scratch: &mut Scratch,
        text: &[u8],
    ) -> Result<Option<Self::Line>, OutOfMemory>
        ensures { IfOk result (λ line. line ≡ reads self.now text.now) };
}

/// What a line is that is replayed.
#[derive(Drop)]
pub enum Line {
    /// Nothing stands on it.
    Empty,
    /// The reading of the clock from there on, in seconds since 1970.
    Reading(u64),
    /// A request.
    Ask(Request),
}

/// A line `@` with these digits behind it.
fn reading_line(digits: &[u8]) -> Option<Line>
    ensures { result ≡ option_map Line.Reading (number_spelled digits.now) }
{
    Some(Line::Reading(number_spelled(digits)?))
}

/// A line with the request that a value is, if it is one.
fn line_in(alloc: Global, value: Val) -> Result<Option<Line>, OutOfMemory>
    ensures { IfOk result (λ line. line ≡ option_map Line.Ask (spec.request_of_value value)) }
{
    match request_from(alloc, value) {
        Ok(request) => Ok(Some(Line::Ask(request))),
        Err(PrimFault::OutOfMemory) => Err(OutOfMemory),
        Err(_) => Ok(None),
    }
}

/// A line with the request that a JSON text is, if it is one.
fn request_line(
    alloc: Global,
    scratch: &mut Scratch,
    text: &[u8],
) -> Result<Option<Line>, OutOfMemory>
    ensures { IfOk result (λ line. line ≡ option_map Line.Ask (spec.request_of_text text.now)) }
{
    match read_in(alloc, scratch, text) {
        Ok(value) => line_in(alloc, value),
        Err(ValFault::OutOfMemory) => Err(OutOfMemory),
        Err(_) => Ok(None),
    }
}

/// What a text is as a line that is replayed.
pub fn line_read(
    alloc: Global,
    scratch: &mut Scratch,
    text: &[u8],
) -> Result<Option<Line>, OutOfMemory>
    ensures { IfOk result (λ line. line ≡ spec.line_read text.now) }
{
    if text.is_empty() {
        return Ok(Some(Line::Empty));
    }
    if text[0] == b'@' {
        Ok(reading_line(&text[1..]))
    } else {
        request_line(alloc, scratch, text)
    }
}

/// The form of the lines that are replayed.
#[derive(Clone, Copy, Debug)]
pub(crate) struct ReplayForm;

impl LineForm for ReplayForm {
    type Line = Line;

    ghost reads = { λ _ text. spec.line_read text };

    fn read_line(
        &self,
        alloc: Global,
        scratch: &mut Scratch,
        text: &[u8],
    ) -> Result<Option<Line>, OutOfMemory> {
        line_read(alloc, scratch, text)
    }
}

/// What the line at this place is, if it isn't bad.
pub(crate) fn line_at<F: LineForm>(
    alloc: Global,
    form: &F,
    scratch: &mut Scratch,
    place: u64,
    text: &[u8],
) -> Result<F::Line, LineFault>
    ensures { GivesLine result (spec.line_at (F.reads form.now) place text.now) }
{
    if place > MOST_LINES || text.len() > LINE_LIMIT {
        return Err(LineFault::Bad);
    }
    match form.read_line(alloc, scratch, text)? {
        Some(line) => Ok(line),
        None => Err(LineFault::Bad),
    }
}

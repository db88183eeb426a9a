//! The frame of a reply.
ghost use Rattle.std.specs.Prelude.{◌≡◌, ◌++◌, ◌∷◌, [], IfOk, None, OnOk, length};
ghost use Rattle.std.specs.Fmt.{decimal};
ghost use Rattle.m2m_names.specs.StatusCodes.{rsc_row};
ghost use Rattle.http_binding.specs.Headers.{code_field, length_field};
ghost use Rattle.http_binding.specs.Replying.{body_of, content_lines, id_lines};
ghost use Rattle.http_binding.specs.Replying.{reply_lines, reply_frame};

use crate::OutOfMemory;
use crate::lines::{Line, body_of, push_close, push_field, push_length, push_number_field};
use crate::names::{CODE_FIELD, ID_FIELD, JSON_TYPE, TYPE_FIELD, WRITTEN_MINOR};
use http_frames::{Frame, Lines, Start};
use m2m_value::{Text, Val};
use primitive_json::{Reply, ReplyParts};
use std::alloc::Global;

/// A reply has at most so many lines.
const MOST_LINES: usize = 5;

/// Puts the line with the number of a status code behind the others.
fn push_code(alloc: Global, lines: &mut Vec<Line>, code: u16) -> Result<(), OutOfMemory>
    ensures { OnOk result (lines.new.items ≡ lines.old.items ++ (code_field, decimal code) ∷ []) }
{
    push_number_field(alloc, lines, CODE_FIELD, usize::from(code))
}

/// Puts the line with the request's identifier behind the others, where there is one.
fn push_request_id(
    alloc: Global,
    lines: &mut Vec<Line>,
    id: &Option<Text>,
) -> Result<(), OutOfMemory>
    ensures { OnOk result (lines.new.items ≡ lines.old.items ++ id_lines id.now) }
{
    match id {
        Some(id) => push_field(alloc, lines, ID_FIELD, id.entries()),
        None => Ok(()),
    }
}

/// Puts the line with the type of the content behind the others, where there is some.
fn push_type(alloc: Global, lines: &mut Vec<Line>, content: &Option<Val>) -> Result<(), OutOfMemory>
    ensures { OnOk result (lines.new.items ≡ lines.old.items ++ content_lines None content.now) }
{
    match content {
        Some(_) => push_field(alloc, lines, TYPE_FIELD, JSON_TYPE.as_bytes()),
        None => Ok(()),
    }
}

/// The lines that speak of the primitive.
fn push_primitive(
    alloc: Global,
    lines: &mut Vec<Line>,
    reply: &ReplyParts,
) -> Result<(), OutOfMemory>
    ensures { OnOk result (lines.new.items
        ≡ lines.old.items
        ++ ((code_field, decimal (rsc_row reply.now.rsc).number) ∷ id_lines reply.now.rqi)) }
{
    push_code(alloc, lines, reply.rsc.number())?;
    push_request_id(alloc, lines, &reply.rqi)
}

/// The lines that speak of the body.
fn push_body(
    alloc: Global,
    lines: &mut Vec<Line>,
    reply: &ReplyParts,
    len: usize,
) -> Result<(), OutOfMemory>
    ensures { OnOk result (lines.new.items
        ≡ lines.old.items
        ++ (content_lines None reply.now.pc ++ (length_field, decimal len) ∷ [])) }
{
    push_type(alloc, lines, &reply.pc)?;
    push_length(alloc, lines, len)
}

/// The lines of a reply whose body has so many bytes.
fn lines_of(
    alloc: Global,
    reply: &ReplyParts,
    len: usize,
    close: bool,
) -> Result<Vec<Line>, OutOfMemory>
    requires { len ≡ length (body_of reply.now.pc) }
    ensures { IfOk result (λ lines. lines.items ≡ reply_lines reply.now close) }
{
    let mut lines = Vec::with_capacity(alloc, MOST_LINES)?;
    push_primitive(alloc, &mut lines, reply)?;
    push_body(alloc, &mut lines, reply, len)?;
    push_close(alloc, &mut lines, close)?;
    Ok(lines)
}

/// The frame of a reply (TS-0009, 6.3 to 6.5). It says whether the connection closes behind it. Its
/// content is written once, into the body.
pub fn of_reply(alloc: Global, reply: &Reply, close: bool) -> Result<Frame, OutOfMemory>
    ensures { IfOk result (λ frame. frame ≡ reply_frame reply.now close) }
{
    let parts = reply.parts();
    let body = body_of(alloc, &parts.pc)?;
    let lines = lines_of(alloc, parts, body.len(), close)?;
    Ok(Frame {
        start: Start::Answer {
            status: parts.rsc.http_status(),
            minor: WRITTEN_MINOR,
        },
        lines: Lines::of(lines),
        body: Text::of(body),
    })
}

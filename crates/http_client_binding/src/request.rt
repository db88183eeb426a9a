//! The frame of a request.
ghost use Rattle.std.specs.Prelude.{◌≡◌, ◌++◌, ◌∷◌, true, IfOk, OnOk, length, string_bytes};
ghost use Rattle.std.specs.Fmt.{decimal};
ghost use Rattle.std.specs.Option.{ForSome};
ghost use Rattle.http_binding.specs.Headers.{length_field};
ghost use Rattle.http_binding.specs.Replying.{body_of, close_lines, content_lines, content_type};
ghost use Rattle.primitive_json.specs.Notes.{IsSomeUrl};
ghost use Rattle.primitive_json.specs.Requests.{IsSoundRequest, IsSoundWhen};
ghost use Rattle.http_client_binding.specs.Asking as spec;

use crate::OutOfMemory;
use crate::target::{Aim, host_of, target_text};
use http_binding::{
    EXPIRY_FIELD, ID_FIELD, JSON_TYPE, ORIGIN_FIELD, TYPE_FIELD, WRITTEN_MINOR, body_of,
    created_type, method_text, push_close, push_field, push_length,
};
use http_frames::{Frame, Lines, Start, frame_bytes};
use m2m_value::{Text, Val};
use primitive_json::{Request, RequestParts, When, expiry_text};
use std::alloc::Global;

/// A line of a head, with a name and a value.
type Line = (Text, Text);

/// The name of the field that says which host is asked (RFC 9110, section 7.2).
const HOST_FIELD: &str = "Host";

/// A request has at most so many lines.
const MOST_LINES: usize = 7;

/// What a message begins with that asks for a target.
fn start_of(
    alloc: Global,
    request: &RequestParts,
    url: &[u8],
    aim: Aim,
) -> Result<Start, OutOfMemory>
    requires { IsSomeUrl url.now }
    ensures { IfOk result (λ start. start
        ≡ (spec.request_frame request.now url.now aim).start) }
{
    Ok(Start::Ask {
        method: Text::from_slice(alloc, method_text(request.op).as_bytes())?,
        target: target_text(alloc, request, url, aim)?,
        minor: WRITTEN_MINOR,
    })
}

/// Puts the line with the originator behind the others, where there is one.
fn push_origin(
    alloc: Global,
    lines: &mut Vec<Line>,
    originator: &Option<Text>,
) -> Result<(), OutOfMemory>
    ensures { OnOk result (lines.new.items
        ≡ lines.old.items ++ spec.origin_lines originator.now) }
{
    match originator {
        Some(originator) => push_field(alloc, lines, ORIGIN_FIELD, originator.entries()),
        None => Ok(()),
    }
}

/// Puts the line that says when a request expires behind the others, where that is said.
fn push_expiry(alloc: Global, lines: &mut Vec<Line>, when: Option<When>) -> Result<(), OutOfMemory>
    requires { ForSome when IsSoundWhen }
    ensures { OnOk result (lines.new.items ≡ lines.old.items ++ spec.expiry_lines when) }
{
    match when {
        Some(when) => {
            let text = expiry_text(alloc, when)?;
            push_field(alloc, lines, EXPIRY_FIELD, text.entries())
        }
        None => Ok(()),
    }
}

/// Puts the lines that speak of host and caller behind the others.
fn push_caller(
    alloc: Global,
    lines: &mut Vec<Line>,
    request: &RequestParts,
    url: &[u8],
) -> Result<(), OutOfMemory>
    requires url { IsSomeUrl url.now }
    requires sound { IsSoundRequest request.now }
    ensures { OnOk result (lines.new.items
        ≡ lines.old.items ++ spec.caller_lines request.now url.now) }
{
    push_field(alloc, lines, HOST_FIELD, host_of(url))?;
    push_origin(alloc, lines, &request.fr)?;
    push_field(alloc, lines, ID_FIELD, request.rqi.entries())?;
    push_expiry(alloc, lines, request.rqet)
}

/// The type of the content, with the number of the type that is to be created.
fn content_type(alloc: Global, number: Option<u32>) -> Result<String, OutOfMemory>
    ensures { IfOk result (λ text. string_bytes text ≡ content_type number) }
{
    match number {
        Some(number) => format!(in alloc; "application/json;ty={number}"),
        None => String::from_str(alloc, JSON_TYPE),
    }
}

/// Puts the line with the type of the content behind the others, where there is some.
fn push_type(
    alloc: Global,
    lines: &mut Vec<Line>,
    number: Option<u32>,
    content: &Option<Val>,
) -> Result<(), OutOfMemory>
    ensures { OnOk result (lines.new.items
        ≡ lines.old.items ++ content_lines number content.now) }
{
    match content {
        Some(_) => {
            let text = content_type(alloc, number)?;
            push_field(alloc, lines, TYPE_FIELD, text.as_bytes())
        }
        None => Ok(()),
    }
}

/// Puts the lines that say how long the body is, and that the connection closes, behind the others.
fn push_ending(alloc: Global, lines: &mut Vec<Line>, len: usize) -> Result<(), OutOfMemory>
    ensures { OnOk result (lines.new.items
        ≡ lines.old.items ++ ((length_field, decimal len) ∷ close_lines true)) }
{
    push_length(alloc, lines, len)?;
    push_close(alloc, lines, true)
}

/// Puts the lines that speak of a body of so many bytes behind the others.
fn push_body(
    alloc: Global,
    lines: &mut Vec<Line>,
    request: &RequestParts,
    len: usize,
) -> Result<(), OutOfMemory>
    requires { len ≡ length (body_of request.now.pc) }
    ensures { OnOk result (lines.new.items ≡ lines.old.items ++ spec.ending_lines request.now) }
{
    push_type(
        alloc,
        lines,
        created_type(request.op, request.ty),
        &request.pc,
    )?;
    push_ending(alloc, lines, len)
}

/// The lines of a request with a body of so many bytes.
fn lines_of(
    alloc: Global,
    request: &RequestParts,
    url: &[u8],
    len: usize,
) -> Result<Lines, OutOfMemory>
    requires url { IsSomeUrl url.now }
    requires sound { IsSoundRequest request.now }
    requires len { len ≡ length (body_of request.now.pc) }
    ensures { IfOk result (λ lines. lines
        ≡ spec.caller_lines request.now url.now ++ spec.ending_lines request.now) }
{
    let mut lines = Vec::with_capacity(alloc, MOST_LINES)?;
    push_caller(alloc, &mut lines, request, url)?;
    push_body(alloc, &mut lines, request, len)?;
    Ok(Lines::of(lines))
}

/// The frame of a request to a URL (TS-0009, 6.2 to 6.5), which asks that the connection closes
/// behind the reply. The content is written once, into the body.
pub fn of_request(
    alloc: Global,
    request: &Request,
    url: &[u8],
    aim: Aim,
) -> Result<Frame, OutOfMemory>
    requires { IsSomeUrl url.now }
    ensures { IfOk result (λ frame. frame ≡ spec.request_frame request.now url.now aim) }
{
    let parts = request.parts();
    let body = body_of(alloc, &parts.pc)?;
    let lines = lines_of(alloc, parts, url, body.len())?;
    Ok(Frame {
        start: start_of(alloc, parts, url, aim)?,
        lines,
        body: Text::of(body),
    })
}

/// The text of the frame of a request to a URL.
pub fn request_bytes(
    alloc: Global,
    request: &Request,
    url: &[u8],
    aim: Aim,
) -> Result<Vec<u8>, OutOfMemory>
    requires { IsSomeUrl url.now }
    ensures { IfOk result (λ text. text.items ≡ spec.request_text request.now url.now aim) }
{
    let frame = of_request(alloc, request, url, aim)?;
    frame_bytes(alloc, &frame)
}

//! The reply that a frame says.
ghost use Rattle.std.specs.Prelude.{◌≡◌, ◌==◌, IfOk, IfSome, IsTrue, IsUtf8, length};
ghost use Rattle.std.specs.Str.Parse.{digits_value};
ghost use Rattle.http_binding.specs.Binding.{echo_of};
ghost use Rattle.http_target.specs.Chain.{ReadsAs};
ghost use Rattle.http_binding.specs.Headers.{code_field};
ghost use Rattle.http_frames.specs.Lines.{values_named};
ghost use Rattle.http_client_binding.specs.ReplyReading as spec;

use crate::{BindFault, OutOfMemory};
use http_binding::{CODE_FIELD, echo_id, value_in};
use http_frames::{Found, Frame, Lines};
use m2m_names::{Rsc, are_digits, digits_number};
use m2m_value::{Scratch, Text, Val};
use primitive_json::{Reply, ReplyParts};
use std::alloc::Global;

fn are_four(text: &[u8]) -> bool
    ensures { result ≡ (length text.now == 4) }
{
    text.len() == 4
}

/// Whether the text is four digits.
fn is_code_text(text: &[u8]) -> bool
    ensures { result ≡ spec.is_code_text text.now }
{
    are_four(text) && are_digits(text)
}

/// The number that such a text writes.
fn code_number(text: &[u8]) -> u16
    requires { IsTrue (spec.is_code_text text.now) }
    ensures { result ≡ digits_value 10 text.now }
{
    digits_number(text) as u16
}

/// The status code that four digits write.
fn code_spelled(text: &[u8]) -> Option<Rsc>
    ensures { result ≡ spec.code_spelled text.now }
{
    if is_code_text(text) {
        Rsc::from_number(code_number(text))
    } else {
        None
    }
}

/// The status code of the only line that tells one.
fn lone_code(lines: &Lines) -> Option<Rsc>
    ensures { result ≡ spec.lone_code (values_named code_field lines.now) }
{
    match lines.find(CODE_FIELD.as_bytes()) {
        Found::One(value) => code_spelled(value),
        Found::Absent | Found::Repeated => None,
    }
}

/// The status code that the lines tell.
fn code_in(alloc: Global, lines: &Lines) -> Result<Rsc, BindFault>
    ensures { ReadsAs (λ code. code) result (spec.code_in lines.now) }
{
    match lone_code(lines) {
        Some(code) => Ok(code),
        None => Err(BindFault::Header(Text::from_slice(alloc, CODE_FIELD.as_bytes())?)),
    }
}

/// The content that a body is, which isn't empty: any value.
fn some_content(alloc: Global, body: &[u8]) -> Result<Option<Val>, BindFault>
    ensures { ReadsAs (λ content. content) result (spec.some_content body.now) }
{
    Ok(Some(value_in(alloc, &mut Scratch::new(alloc), body)?))
}

/// The content that a body is, and none where it is empty.
fn content_said(alloc: Global, body: &[u8]) -> Result<Option<Val>, BindFault>
    ensures { ReadsAs (λ content. content) result (spec.content_said body.now) }
{
    if body.is_empty() {
        Ok(None)
    } else {
        some_content(alloc, body)
    }
}

/// The identifier that the frame repeats.
fn id_in(alloc: Global, frame: &Frame) -> Result<Option<Text>, OutOfMemory>
    ensures value { IfOk result (λ id. id ≡ echo_of frame.now) }
    ensures utf8 { IfOk result (λ id. IfSome id IsUtf8) }
{
    match echo_id(frame) {
        Some(id) => Ok(Some(Text::from_slice(alloc, id)?)),
        None => Ok(None),
    }
}

/// The reply that a frame says (TS-0009, 6.3 to 6.5), or why it says none: first its status code,
/// by the only line that tells one, then its body. The identifier is left out where it is none, or
/// stands twice; the status of HTTP and every other line are unread.
pub fn to_reply(alloc: Global, frame: &Frame) -> Result<Reply, BindFault>
    ensures { ReadsAs (λ reply. reply) result (spec.reply_in frame.now) }
{
    let rsc = code_in(alloc, &frame.lines)?;
    let pc = content_said(alloc, frame.body.entries())?;
    let rqi = id_in(alloc, frame)?;
    Ok(Reply::of(ReplyParts { rsc, rqi, pc }))
}

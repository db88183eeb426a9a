//! The request that a frame binds to.
ghost use Rattle.std.specs.Prelude.{◌≡◌, Ok, IfOk, IfSome, IsUtf8};
ghost use Rattle.std.specs.Option.{ForSome, option_copied};
ghost use Rattle.filter_criteria.specs.Filters.{IsSoundFilter};
ghost use Rattle.m2m_value.specs.Reading.{reading};
ghost use Rattle.primitive_json.specs.Requests.{IsSoundWhen};
ghost use Rattle.http_binding.specs.Binding as spec;
ghost use Rattle.http_binding.specs.Binding.{binding};
ghost use Rattle.http_target.specs.Chain.{ReadsAs};
ghost use Rattle.http_binding.specs.Seen.{seen_caller};

use crate::headers::{Caller, caller_of};
use crate::method::Method;
use crate::room::BodyRoom;
use crate::{BindFault, OutOfMemory};
use filter_criteria::{Filter, FilterParts};
use http_frames::Frame;
use http_target::{Query, query_said, target_of};
use m2m_names::Op;
use m2m_value::{Scratch, Text, Val, ValFault, read_in};
use primitive_json::{Member, Request, RequestParts};
use std::alloc::Global;

/// The text, where there is one, as one of its own.
fn copy_of(alloc: Global, text: Option<&[u8]>) -> Result<Option<Text>, OutOfMemory>
    ensures { IfOk result (λ copy. copy ≡ option_copied text.entry) }
{
    match text {
        Some(text) => Ok(Some(Text::from_slice(alloc, text)?)),
        None => Ok(None),
    }
}

/// The value that a body is.
pub fn value_in(alloc: Global, scratch: &mut Scratch, body: &[u8]) -> Result<Val, BindFault>
    ensures { ReadsAs (λ value. value) result (spec.value_in (reading body.now)) }
{
    match read_in(alloc, scratch, body) {
        Ok(value) => Ok(value),
        Err(ValFault::OutOfMemory) => Err(BindFault::OutOfMemory),
        Err(fault) => Err(BindFault::Body(fault)),
    }
}

/// The value, which has to be an object.
fn object_only(value: Val) -> Result<Option<Val>, BindFault>
    ensures { ReadsAs (λ content. content) result (spec.object_only value) }
{
    if value.as_obj().is_some() {
        Ok(Some(value))
    } else {
        Err(BindFault::Body(ValFault::NotJson))
    }
}

/// The content that a body has, on an operation that has one.
fn content_of(
    alloc: Global,
    room: &mut BodyRoom,
    op: Op,
    body: &[u8],
) -> Result<Option<Val>, BindFault>
    ensures { ReadsAs (λ content. content) result (spec.content_of op body.now) }
{
    if !primitive_json::has_content(op) {
        return Ok(None);
    }
    if body.is_empty() {
        return Err(BindFault::Missing(Text::from_slice(alloc, Member::Content.name().as_bytes())?));
    }
    object_only(value_in(alloc, room.lend(alloc)?, body)?)
}

/// The number of the type that is to be created, on a Create.
pub fn created_type(op: Op, ty: Option<u32>) -> Option<u32>
    ensures { result ≡ spec.created_type op ty }
{
    if primitive_json::creates(op) {
        ty
    } else {
        None
    }
}

/// The content of the result, on an operation that has any.
fn kept_result(op: Op, number: Option<i64>) -> Option<i64>
    ensures { result ≡ spec.kept_result op number }
{
    if primitive_json::has_result(op) {
        number
    } else {
        None
    }
}

/// The filter of conditions, where there are any.
fn filter_of(alloc: Global, conditions: Option<FilterParts>) -> Result<Option<Filter>, OutOfMemory>
    requires { ForSome conditions IsSoundFilter }
    ensures { IfOk result (λ f. f ≡ conditions) }
{
    match conditions {
        Some(parts) => Ok(Some(Filter::of(alloc, parts)?)),
        None => Ok(None),
    }
}

/// The request of these parts.
fn request_of(
    alloc: Global,
    op: Op,
    to: Text,
    caller: Caller<'_>,
    query: Query,
    content: Option<Val>,
) -> Result<Request, BindFault>
    requires to { IsUtf8 to }
    requires originator { IfSome (option_copied caller.originator) IsUtf8 }
    requires id { IsUtf8 caller.id.now }
    requires expiry { IfSome caller.expiry IsSoundWhen }
    requires filter { ForSome query.fc IsSoundFilter }
    ensures { ReadsAs (λ request. request) result
        (Ok (spec.request_of op to (seen_caller caller.entry) query content)) }
{
    Ok(Request::of(RequestParts {
        op,
        to,
        fr: copy_of(alloc, caller.originator)?,
        rqi: Text::from_slice(alloc, caller.id)?,
        ty: created_type(op, caller.ty),
        pc: content,
        rqet: caller.expiry,
        rt: query.rt,
        rcn: kept_result(op, query.rcn),
        fc: filter_of(alloc, query.fc)?,
        drt: query.drt,
    }))
}

/// The request that a frame binds to (TS-0009, 6.2 to 6.5), or why it binds to none: the first of
/// its faults, in the order of method, target, header fields as they stand in the table, the
/// identifier where it is missing, the pairs of the query, and the body. The texts that the request
/// keeps are copied, the body is read into its content, and nothing else of the frame is kept.
pub fn to_request(alloc: Global, frame: &Frame) -> Result<Request, BindFault>
    ensures { ReadsAs (λ request. request) result (binding frame.now) }
{
    to_request_in(alloc, &mut BodyRoom::new(), frame)
}

/// The same, where a body is read in the room of those before it.
pub fn to_request_in(
    alloc: Global,
    room: &mut BodyRoom,
    frame: &Frame,
) -> Result<Request, BindFault>
    ensures { ReadsAs (λ request. request) result (binding frame.now) }
{
    let method = Method::of(&frame.start)?;
    let target = target_of(alloc, &frame.start)?;
    let caller = caller_of(alloc, method, &frame.lines)?;
    let op = method.operation(caller.ty);
    let query = query_said(alloc, op, target.query)?;
    let content = content_of(alloc, room, op, frame.body.entries())?;
    request_of(alloc, op, target.to, caller, query, content)
}

//! Requests and replies as values.
ghost use Rattle.std.specs.Prelude.{◌≡◌, IfOk, IsUtf8, option_map};
ghost use Rattle.std.specs.Fmt.{decimal};
ghost use Rattle.std.specs.Option.{ForSome};
ghost use Rattle.m2m_names.specs.StatusCodes.{rsc_row};
ghost use Rattle.m2m_value.specs.Data as plain;
ghost use Rattle.filter_criteria.specs.Values.{count_data};
ghost use Rattle.primitive_json.specs.Requests.{IsSoundRequest, IsSoundWhen};
ghost use Rattle.primitive_json.specs.Writing as spec;

use crate::member::Member;
use crate::reply::{PC, RQI, RSC, Reply, ReplyParts};
use crate::request::{Request, RequestParts, When, copied_content};
use filter_criteria::{moment_text, push_member, sorted_object, text_value, write_filter};
use m2m_names::{Op, Rsc};
use m2m_value::{Text, Val};
use std::alloc::{AllocError as OutOfMemory, Global};

fn numeral_text(alloc: Global, n: u64) -> Result<Text, OutOfMemory>
    ensures value { IfOk result (λ text. text ≡ decimal n) }
    ensures utf8 { IfOk result IsUtf8 }
{
    let numeral = format!(in alloc; "{n}")?;
    Ok(Text::of(numeral.into_bytes()))
}

/// When a request expires: a timestamp, or milliseconds by their digits.
pub fn expiry_text(alloc: Global, when: When) -> Result<Text, OutOfMemory>
    requires { IsSoundWhen when }
    ensures value { IfOk result (λ text. text ≡ spec.expiry_text when) }
    ensures utf8 { IfOk result IsUtf8 }
{
    match when {
        When::At(at) => moment_text(alloc, at),
        When::Millis(millis) => numeral_text(alloc, millis),
    }
}

fn when_value(alloc: Global, when: When) -> Result<Val, OutOfMemory>
    requires { IsSoundWhen when }
    ensures { IfOk result (λ v. v ≡ spec.expiry_data when) }
{
    Ok(Val::of_text(expiry_text(alloc, when)?))
}

fn expiry_value(alloc: Global, when: Option<When>) -> Result<Option<Val>, OutOfMemory>
    requires { ForSome when IsSoundWhen }
    ensures { IfOk result (λ v. v ≡ option_map spec.expiry_data when) }
{
    match when {
        Some(when) => Ok(Some(when_value(alloc, when)?)),
        None => Ok(None),
    }
}

fn status_value(rsc: Rsc) -> Val
    ensures { result ≡ count_data (rsc_row rsc).number }
{
    Val::of_num(i64::from(rsc.number()))
}

fn originator_value(alloc: Global, request: &RequestParts) -> Result<Option<Val>, OutOfMemory>
    requires { IsSoundRequest request.now }
    ensures { IfOk result (λ v. v ≡ option_map plain.text request.now.fr) }
{
    match &request.fr {
        Some(originator) => Ok(Some(text_value(alloc, originator)?)),
        None => Ok(None),
    }
}

fn content_value(alloc: Global, request: &RequestParts) -> Result<Option<Val>, OutOfMemory>
    ensures { IfOk result (λ v. v ≡ spec.content_value request.now) }
{
    match request.op {
        Op::Create | Op::Update | Op::Notify => copied_content(alloc, request.pc.as_ref()),
        Op::Retrieve | Op::Delete => Ok(None),
    }
}

fn filter_value(alloc: Global, request: &RequestParts) -> Result<Option<Val>, OutOfMemory>
    ensures { IfOk result (λ v. v ≡ spec.filter_value request.now) }
{
    match (request.op, &request.fc) {
        (Op::Retrieve, Some(filter)) => Ok(Some(write_filter(alloc, filter.parts())?)),
        _ => Ok(None),
    }
}

fn type_value(request: &RequestParts) -> Option<Val>
    ensures { result ≡ spec.type_value request.now }
{
    match (request.op, request.ty) {
        (Op::Create, Some(number)) => Some(Val::of_num(i64::from(number))),
        _ => None,
    }
}

/// What is written of a member.
fn member_value(
    alloc: Global,
    request: &RequestParts,
    member: Member,
) -> Result<Option<Val>, OutOfMemory>
    requires { IsSoundRequest request.now }
    ensures { IfOk result (λ v. v ≡ spec.member_value request.now member) }
{
    match member {
        Member::DesiredForm => Ok(request.drt.map(Val::of_num)),
        Member::FilterCriteria => filter_value(alloc, request),
        Member::Originator => originator_value(alloc, request),
        Member::Operation => Ok(Some(Val::of_num(request.op.number()))),
        Member::Content => content_value(alloc, request),
        Member::ResultContent => Ok(request.rcn.map(Val::of_num)),
        Member::Expiry => expiry_value(alloc, request.rqet),
        Member::RequestId => Ok(Some(text_value(alloc, &request.rqi)?)),
        Member::ResponseType => Ok(request.rt.map(Val::of_num)),
        Member::Target => Ok(Some(text_value(alloc, &request.to)?)),
        Member::ResourceType => Ok(type_value(request)),
    }
}

/// The request as a value: an object of the parameters that are there and that its operation
/// reads.
pub fn write_request(alloc: Global, request: &Request) -> Result<Val, OutOfMemory>
    ensures { IfOk result (λ v. v ≡ spec.written_request request.now) }
{
    let parts = request.parts();
    let mut entries = Vec::with_capacity(alloc, Member::ALL.len())?;
    for member in Member::ALL {
        let value = member_value(alloc, parts, member)?;
        push_member(&mut entries, member.name(), value)?;
    }
    Ok(sorted_object(entries))
}

/// The reply as a value: an object of its status code, and of its request identifier and content
/// where they are there. The content is moved.
pub fn reply_into(alloc: Global, reply: Reply) -> Result<Val, OutOfMemory>
    ensures { IfOk result (λ v. v ≡ spec.written_reply reply) }
{
    let ReplyParts { rsc, rqi, pc } = reply.into_parts();
    let mut entries = Vec::with_capacity(alloc, 3)?;
    push_member(&mut entries, PC, pc)?;
    push_member(&mut entries, RQI, rqi.map(Val::of_text))?;
    push_member(&mut entries, RSC, Some(status_value(rsc)))?;
    Ok(sorted_object(entries))
}

/// The same of a copy of the reply.
pub fn write_reply(alloc: Global, reply: &Reply) -> Result<Val, OutOfMemory>
    ensures { IfOk result (λ v. v ≡ spec.written_reply reply.now) }
{
    reply_into(alloc, reply.copy(alloc)?)
}

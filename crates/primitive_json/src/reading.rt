//! Reading requests and replies.
ghost use Rattle.std.specs.Prelude.{◌≡◌, ◌⊎◌, Some, None, IfOk, IfSome, IsSome, OnErr, MatchResult};
ghost use Rattle.std.specs.Prelude.{unwrap_or};
ghost use Rattle.std.specs.Option.{ForSome, option_copied};
ghost use Rattle.m2m_names.specs.declared.operations.Op.TheVariants.{Create};
ghost use Rattle.m2m_value.specs.View.{member_of};
ghost use Rattle.filter_criteria.specs.Values.{members_in};
ghost use Rattle.primitive_json.specs.Reading as spec;
ghost use Rattle.primitive_json.specs.Requests.{IsSoundWhen};
ghost use Rattle.primitive_json.specs.declared.fault.PrimFault.TheVariants as fault;

use crate::fault::PrimFault;
use crate::judging::*;
use crate::kept::*;
use crate::kinds::*;
use crate::member::Member;
use crate::reply::{PC, RQI, RSC, Reply, ReplyParts};
use crate::request::{Request, RequestParts, When, copied_content};
use filter_criteria::{
    Filter, labelled, labels_from, owned_text, plain_filter, read_type_number, value_at,
};
use m2m_names::{Op, Rsc};
use m2m_value::{Text, Val};
use std::alloc::{AllocError as OutOfMemory, Global};

fn type_number_in(op: Op, value: &Val) -> Option<u32>
    ensures { result ≡ (spec.request_made op (members_in value.now)).ty }
{
    read_type_number(value_read(op, Member::ResourceType, value)?)
}

fn expiry_in(op: Op, value: &Val) -> Option<When>
    ensures value { result ≡ (spec.request_made op (members_in value.now)).rqet }
    ensures sound { IfSome result IsSoundWhen }
{
    read_expiry(value_read(op, Member::Expiry, value)?)
}

fn response_type_in(op: Op, value: &Val) -> Option<i64>
    ensures { result ≡ (spec.request_made op (members_in value.now)).rt }
{
    read_response_type(value_read(op, Member::ResponseType, value)?)
}

fn result_content_in(op: Op, value: &Val) -> Option<i64>
    ensures { result ≡ (spec.request_made op (members_in value.now)).rcn }
{
    value_read(op, Member::ResultContent, value)?.as_num()
}

fn address_form_in(op: Op, value: &Val) -> Option<i64>
    ensures { result ≡ (spec.request_made op (members_in value.now)).drt }
{
    value_read(op, Member::DesiredForm, value)?.as_num()
}

fn plain_filter_in(alloc: Global, op: Op, value: &Val) -> Result<Option<Filter>, OutOfMemory>
    ensures value { IfOk result (λ f. f ≡ (spec.plain_in op (members_in value.now)).fc) }
    ensures memory { OnErr result (IsSome (spec.request_made op (members_in value.now)).fc) }
{
    match value_read(op, Member::FilterCriteria, value) {
        Some(filter) => Ok(Some(plain_filter(alloc, filter)?)),
        None => Ok(None),
    }
}

/// A request with all but the values that it keeps.
fn plain_parts(alloc: Global, op: Op, value: &Val) -> Result<RequestParts, OutOfMemory>
    ensures value { IfOk result (λ r. r ≡ spec.plain_in op (members_in value.now)) }
    ensures sound { IfOk result (λ r. IfSome r.rqet IsSoundWhen) }
    ensures memory { OnErr result (IsSome (spec.request_made op (members_in value.now)).fc) }
{
    Ok(RequestParts {
        op,
        to: Text::of(Vec::new(alloc)),
        fr: None,
        rqi: Text::of(Vec::new(alloc)),
        ty: type_number_in(op, value),
        pc: None,
        rqet: expiry_in(op, value),
        rt: response_type_in(op, value),
        rcn: result_content_in(op, value),
        fc: plain_filter_in(alloc, op, value)?,
        drt: address_form_in(op, value),
    })
}

/// The same of a value that has no fault.
fn judged_parts(alloc: Global, value: &Val) -> Result<RequestParts, PrimFault>
    ensures value { let es = members_in value.now in let op = spec.operation_in es in
        MatchResult result
        (λ r. (spec.request_fault op es ≡ None) × (r ≡ spec.plain_in (unwrap_or op Create) es))
        (λ e. (e ≡ fault.OutOfMemory) ⊎ (spec.request_fault op es ≡ Some e)) }
    ensures sound { IfOk result (λ r. IfSome r.rqet IsSoundWhen) }
    ensures memory { let es = members_in value.now in let op = spec.operation_in es in
        OnErr result (spec.request_fault op es ≡ None
        → IsSome (spec.request_made (unwrap_or op Create) es).fc) }
{
    if let Some(fault) = request_fault(value) {
        return Err(fault.kept(alloc)?);
    }
    let op = operation_in(value).unwrap_or(Op::Create);
    Ok(plain_parts(alloc, op, value)?)
}

/// The request with these values.
fn request_with(alloc: Global, plain: RequestParts, kept: Kept) -> Result<Request, OutOfMemory>
    requires { ForSome plain.rqet IsSoundWhen }
    ensures value { IfOk result (λ r. r ≡ spec.with_kept plain kept) }
    ensures memory { OnErr result (IsSome kept.lbl) }
{
    let labels = labels_from(alloc, kept.lbl)?;
    Ok(Request::of(RequestParts {
        to: text_or_empty(alloc, kept.to),
        fr: owned_text(kept.fr),
        rqi: text_or_empty(alloc, kept.rqi),
        pc: kept.pc,
        fc: labelled(plain.fc, labels),
        ..plain
    }))
}

/// The request that a value is (TS-0004, 8.2.2), or the first fault: a member that is missing
/// before one that is bad, and among equals the first in byte order of the names. Of the value
/// only what the request keeps is copied.
pub fn read_request(alloc: Global, value: &Val) -> Result<Request, PrimFault>
    ensures { spec.Answers result (spec.read_request value.now) }
{
    let plain = judged_parts(alloc, value)?;
    let kept = copied_values(alloc, plain.op, value)?;
    Ok(request_with(alloc, plain, kept)?)
}

/// The request that a value is, as `read_request` reads it: its texts, its content and the labels
/// of its filter are moved, and nothing is copied.
pub fn request_from(alloc: Global, value: Val) -> Result<Request, PrimFault>
    ensures value { spec.Answers result (spec.read_request value) }
    // A request without a filter takes no memory.
    ensures memory { OnErr result (IfOk (spec.read_request value) (λ r. IsSome r.fc)) }
{
    let plain = judged_parts(alloc, &value)?;
    let kept = taken_values(alloc, plain.op, value);
    Ok(request_with(alloc, plain, kept)?)
}

fn status_in(value: &Val) -> Rsc
    ensures { result ≡ (spec.reply_made (members_in value.now)).rsc }
{
    match value_at(value, RSC) {
        Some(status) => read_status(status).unwrap_or(Rsc::Internal),
        None => Rsc::Internal,
    }
}

/// The reply of a value that has no fault.
fn reply_in(alloc: Global, value: &Val) -> Result<Reply, OutOfMemory>
    ensures { IfOk result (λ r. r ≡ spec.reply_made (members_in value.now)) }
{
    Ok(Reply::of(ReplyParts {
        rsc: status_in(value),
        rqi: owned_text(copied_content(alloc, value_at(value, RQI))?),
        pc: copied_content(alloc, value_at(value, PC))?,
    }))
}

/// The reply that a value is (TS-0004, 8.2.2), or the first fault; any other members are unread.
pub fn read_reply(alloc: Global, value: &Val) -> Result<Reply, PrimFault>
    ensures { spec.Answers result (spec.read_reply value.now) }
{
    match reply_fault(value) {
        Some(fault) => Err(fault.kept(alloc)?),
        None => Ok(reply_in(alloc, value)?),
    }
}

//! The reply to a fan-out.
ghost use Rattle.std.specs.Prelude.{◌≡◌, IfOk, IsUtf8, Some};
ghost use Rattle.m2m_names.specs.declared.codes.Rsc.TheVariants as status;
ghost use Rattle.m2m_names.specs.StatusCodes.{rsc_row};
ghost use Rattle.filter_criteria.specs.Values.{count_data};
ghost use Rattle.entity_model.specs.Places as places;
ghost use Rattle.group_fanout.specs.Fan as spec;

use entity_model::{object_of_one, reply_to};
use filter_criteria::{push_member, sorted_object};
use m2m_names::Rsc;
use m2m_value::{Items, Text, Val};
use primitive_json::{Reply, ReplyParts, Request};
use std::alloc::{AllocError as OutOfMemory, Global};

fn status_value(rsc: Rsc) -> Val
    ensures { result ≡ count_data (rsc_row rsc).number }
{
    Val::of_num(i64::from(rsc.number()))
}

/// What is told of the operation on one member: its reply, which is moved, and the address that its
/// request was sent to.
pub(crate) fn gathered_one(alloc: Global, reply: Reply, address: Text) -> Result<Val, OutOfMemory>
    requires { IsUtf8 address }
    ensures { IfOk result (λ v. v ≡ spec.told_of reply address) }
{
    let ReplyParts { rsc, rqi, pc } = reply.into_parts();
    let mut entries = Vec::with_capacity(alloc, 4)?;
    push_member(&mut entries, "pc", pc)?;
    push_member(&mut entries, "rqi", rqi.map(Val::of_text))?;
    push_member(&mut entries, "rsc", Some(status_value(rsc)))?;
    push_member(&mut entries, "to", Some(Val::of_text(address)))?;
    Ok(sorted_object(entries))
}

/// The reply to a fan-out: it was done, and what is told of each operation, which is moved.
pub(crate) fn reply_of(
    alloc: Global,
    request: &Request,
    replies: Vec<Val>,
) -> Result<Reply, OutOfMemory>
    ensures { IfOk result (λ r. r
        ≡ places.reply_to request.now status.Ok (Some (spec.gathering replies.items))) }
{
    let list = object_of_one(alloc, "m2m:rsp", Val::of_list(Items::of(replies)))?;
    let content = object_of_one(alloc, "m2m:agr", list)?;
    reply_to(alloc, request, Rsc::Ok, Some(content))
}

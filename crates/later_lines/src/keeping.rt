//! Which accepted requests and which replies can be kept, and what is written of them.
ghost use Rattle.std.specs.Prelude.{◌≡◌, ◌≤◌, ◌++◌, ◌∷◌, [], pos, true, IfOk, IfSome, OnOk};
ghost use Rattle.filter_criteria.specs.Filters.{IsSoundFilter};
ghost use Rattle.m2m_value.specs.Data as plain;
ghost use Rattle.m2m_value.specs.Shapes.{largest_count};
ghost use Rattle.primitive_json.specs.Laws.{HasShortExpiry, IsOfKinds};
ghost use Rattle.later_lines.specs.Keeping as spec;
ghost use Rattle.later_lines.specs.Words as words;
ghost use Rattle.later_lines.specs.declared.word.Word.TheVariants as word;

use crate::reading::is_moment;
use accepted_requests::LaterEntry;
use filter_criteria::{push_member, sorted_object, text_value};
use journal_lines::{can_be_kept, is_within};
use m2m_names::{LARGEST_COUNT, is_originator};
use m2m_value::{MemberKey, Val};
use primitive_json::{
    Reply, Request, RequestParts, has_form, is_request_id, write_reply, write_request,
};
use std::alloc::{AllocError as OutOfMemory, Global};

/// The depth to which a text is read.
const READING_DEPTH: u64 = 127;

/// The request without its filter.
fn unfiltered(alloc: Global, request: &Request) -> Result<Request, OutOfMemory>
    ensures { IfOk result (λ r. r ≡ spec.unfiltered request.now) }
{
    let mut parts = request.copy(alloc)?.into_parts();
    parts.fc = None;
    Ok(Request::of(parts))
}

/// The filter of a request keeps its own: nothing is done.
fn filter_is_sound(request: &RequestParts)
    ensures { IfSome request.now.fc IsSoundFilter }
{
    if let Some(filter) = &request.fc {
        let _ = filter.parts();
    }
}

/// Whether the request can be kept. Then each of its parameters is of its kind.
fn is_request_kept(alloc: Global, request: &Request) -> Result<bool, OutOfMemory>
    ensures kept { IfOk result (λ is. is ≡ spec.is_request_kept request.now) }
    ensures kinds { IfOk result
        (λ is. is ≡ true → IsOfKinds request.now × HasShortExpiry request.now) }
{
    filter_is_sound(request.parts());
    if !has_form(request) {
        return Ok(false);
    }
    let plain = unfiltered(alloc, request)?;
    if !can_be_kept(&plain) {
        return Ok(false);
    }
    Ok(request.parts().rt.is_none())
}

/// Whether the accepted request can be kept.
fn is_entry_kept(alloc: Global, entry: &LaterEntry) -> Result<bool, OutOfMemory>
    ensures kept { IfOk result (λ is. is ≡ spec.is_entry_kept entry.now) }
    ensures kinds { IfOk result
        (λ is. is ≡ true → IsOfKinds entry.now.request × HasShortExpiry entry.now.request) }
{
    let is_kept = is_request_kept(alloc, entry.request())?;
    Ok(
        is_kept
            && is_originator(entry.originator().entries())
            && entry.number() <= LARGEST_COUNT
            && is_moment(entry.accepted()),
    )
}

/// Puts a number behind other members.
fn push_count(
    entries: &mut Vec<(MemberKey, Val)>,
    name: &'static str,
    number: u64,
) -> Result<(), OutOfMemory>
    requires { number ≤ largest_count }
    ensures { OnOk result (entries.new.items
        ≡ entries.old.items ++ (name.now, plain.number (pos number)) ∷ []) }
{
    push_member(entries, name, Some(Val::of_num(number as i64)))
}

/// What is written of an accepted request.
fn accepted_members(alloc: Global, entry: &LaterEntry) -> Result<Val, OutOfMemory>
    requires { entry.now.number ≤ largest_count }
    ensures { IfOk result (λ v. v ≡ words.value_of (word.Accepted entry.now)) }
{
    let who = text_value(alloc, entry.originator())?;
    let request = write_request(alloc, entry.request())?;
    let mut entries = Vec::with_capacity(alloc, 4)?;
    push_count(&mut entries, "ct", entry.accepted())?;
    push_count(&mut entries, "number", entry.number())?;
    push_member(&mut entries, "org", Some(who))?;
    push_member(&mut entries, "req", Some(request))?;
    Ok(sorted_object(entries))
}

/// What is written of a run.
fn ran_members(alloc: Global, number: u64, reply: &Reply) -> Result<Val, OutOfMemory>
    requires { number ≤ largest_count }
    ensures { IfOk result (λ v. v ≡ words.value_of (word.Ran number reply.now)) }
{
    let told = write_reply(alloc, reply)?;
    let mut entries = Vec::with_capacity(alloc, 2)?;
    push_count(&mut entries, "number", number)?;
    push_member(&mut entries, "rsp", Some(told))?;
    Ok(sorted_object(entries))
}

/// The value, where it is no deeper than a text is read.
fn shallow(value: Val) -> Option<Val>
    ensures { result ≡ spec.shallow_only value }
{
    if is_within(&value, READING_DEPTH) {
        Some(value)
    } else {
        None
    }
}

/// What is written of an accepted request, if it can be kept.
pub(crate) fn accepted_value(alloc: Global, entry: &LaterEntry) -> Result<Option<Val>, OutOfMemory>
    ensures value { IfOk result (λ v. v ≡ spec.accepted_value entry.now) }
    ensures kinds { IfOk result (λ v. IfSome v
        (λ _. IsOfKinds entry.now.request × HasShortExpiry entry.now.request)) }
{
    let is_kept = is_entry_kept(alloc, entry)?;
    if !is_kept {
        return Ok(None);
    }
    let value = accepted_members(alloc, entry)?;
    Ok(shallow(value))
}

/// Whether the reply can be kept.
fn is_reply_kept(reply: &Reply) -> bool
    ensures { result ≡ spec.is_reply_kept reply.now }
{
    match &reply.parts().rqi {
        Some(rqi) => is_request_id(rqi.entries()),
        None => true,
    }
}

/// What is written of a run, if its reply can be kept.
pub(crate) fn ran_value(
    alloc: Global,
    number: u64,
    reply: &Reply,
) -> Result<Option<Val>, OutOfMemory>
    ensures { IfOk result (λ v. v ≡ spec.ran_value number reply.now) }
{
    if !is_reply_kept(reply) || number > LARGEST_COUNT {
        return Ok(None);
    }
    Ok(shallow(ran_members(alloc, number, reply)?))
}

/// What is written of a number or a moment, if a number in JSON has it.
pub(crate) fn count_value(number: u64) -> Option<Val>
    ensures { result ≡ spec.count_value number }
{
    if number <= LARGEST_COUNT {
        Some(Val::of_num(number as i64))
    } else {
        None
    }
}

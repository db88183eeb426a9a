//! What is shown of an accepted request.
ghost use Rattle.std.specs.Prelude.{◌≡◌, ◌++◌, [], ◌∷◌, codes, pos, Some, IfOk, OnOk, option_map};
ghost use Rattle.m2m_names.specs.Operations.{op_row};
ghost use Rattle.m2m_names.specs.StatusCodes as status;
ghost use Rattle.m2m_value.specs.Data as plain;
ghost use Rattle.filter_criteria.specs.Values.{count_data, moment_data, present};
ghost use Rattle.primitive_json.specs.Writing.{written_reply};
ghost use Rattle.accepted_requests.specs.Entries.{due_of};
ghost use Rattle.accepted_requests.specs.Form as spec;
ghost use Rattle.accepted_requests.specs.Names.{entry_name};

use crate::entry::LaterEntry;
use entity_model::object_of_one;
use filter_criteria::{moment_value, push_member, sorted_object, text_value};
use m2m_names::{Op, Rsc};
use m2m_value::{MemberKey, Val};
use primitive_json::{Reply, write_reply};
use resource_model::numbered;
use std::alloc::{AllocError as OutOfMemory, Global};

// The number of the type of an accepted request.
const REQUEST_TYPE: i64 = 17;

// Its states: it was served, it was refused, and it waits.
const SERVED: i64 = 1;

const REFUSED: i64 = 2;

const WAITING: i64 = 3;

// The name of the accepted request of a number.
fn name_value(alloc: Global, number: u64) -> Result<Val, OutOfMemory>
    ensures { IfOk result (λ v. v ≡ plain.text (entry_name number)) }
{
    Ok(Val::of_text(numbered(alloc, "req", "", number)?))
}

/// The content that says under which number a request was accepted.
pub(crate) fn uri_content(alloc: Global, number: u64) -> Result<Val, OutOfMemory>
    ensures { IfOk result (λ v. v ≡ spec.uri_content number) }
{
    let name = name_value(alloc, number)?;
    object_of_one(alloc, "m2m:uri", name)
}

// Whether the status says that a request was served.
fn is_success(rsc: Rsc) -> bool
    ensures { result ≡ status.is_success rsc }
{
    let number = rsc.number();
    2000 <= number && number <= 2999
}

// The state of an accepted request by its reply.
fn state_of(reply: Option<&Reply>) -> i64
    ensures { result ≡ pos (spec.state_of (option_map (λ r. r.now) reply.entry)) }
{
    match reply {
        Some(reply) => replied_state(reply),
        None => WAITING,
    }
}

fn replied_state(reply: &Reply) -> i64
    ensures { result ≡ pos (spec.state_of (Some reply.now)) }
{
    if is_success(reply.parts().rsc) {
        SERVED
    } else {
        REFUSED
    }
}

// Its reply as it is shown.
fn reply_value(alloc: Global, reply: Option<&Reply>) -> Result<Option<Val>, OutOfMemory>
    ensures { IfOk result (λ v. v
        ≡ option_map written_reply (option_map (λ r. r.now) reply.entry)) }
{
    match reply {
        Some(reply) => Ok(Some(write_reply(alloc, reply)?)),
        None => Ok(None),
    }
}

// The number of an operation.
fn op_value(op: Op) -> Val
    ensures { result ≡ plain.number (op_row op).number }
{
    Val::of_num(op.number())
}

// The number of the state.
fn state_value(reply: Option<&Reply>) -> Val
    ensures { result ≡ count_data (spec.state_of (option_map (λ r. r.now) reply.entry)) }
{
    Val::of_num(state_of(reply))
}

// The moments of its acceptance and of its end.
fn push_moments(
    alloc: Global,
    entry: &LaterEntry,
    members: &mut Vec<(MemberKey, Val)>,
) -> Result<(), OutOfMemory>
    ensures { OnOk result (members.new.items ≡ members.old.items ++ present (
        (codes "ct", Some (moment_data entry.now.accepted)) ∷
        (codes "et", Some (moment_data (due_of entry.now))) ∷ [])) }
{
    let accepted = moment_value(alloc, entry.accepted())?;
    let due = moment_value(alloc, entry.due())?;
    push_member(members, "ct", Some(accepted))?;
    push_member(members, "et", Some(due))
}

// What was asked, and by whom.
fn push_asking(
    alloc: Global,
    entry: &LaterEntry,
    members: &mut Vec<(MemberKey, Val)>,
) -> Result<(), OutOfMemory>
    ensures { OnOk result (members.new.items ≡ members.old.items ++ present (
        (codes "op", Some (plain.number (op_row entry.now.request.op).number)) ∷
        (codes "org", Some (plain.text entry.now.originator)) ∷ [])) }
{
    let op = op_value(entry.request().parts().op);
    let originator = text_value(alloc, entry.originator())?;
    push_member(members, "op", Some(op))?;
    push_member(members, "org", Some(originator))
}

// Its reply, and its name.
fn push_reply(
    alloc: Global,
    entry: &LaterEntry,
    members: &mut Vec<(MemberKey, Val)>,
) -> Result<(), OutOfMemory>
    ensures { OnOk result (members.new.items ≡ members.old.items ++ present (
        (codes "ors", option_map written_reply entry.now.reply) ∷
        (codes "ri", Some (plain.text (entry_name entry.now.number))) ∷ [])) }
{
    let reply = reply_value(alloc, entry.reply())?;
    let name = name_value(alloc, entry.number())?;
    push_member(members, "ors", reply)?;
    push_member(members, "ri", Some(name))
}

// The identifier of the request, and how it stands.
fn push_state(
    alloc: Global,
    entry: &LaterEntry,
    members: &mut Vec<(MemberKey, Val)>,
) -> Result<(), OutOfMemory>
    ensures { OnOk result (members.new.items ≡ members.old.items ++ present (
        (codes "rid", Some (plain.text entry.now.request.rqi)) ∷
        (codes "rs", Some (count_data (spec.state_of entry.now.reply))) ∷ [])) }
{
    let id = text_value(alloc, &entry.request().parts().rqi)?;
    let state = state_value(entry.reply());
    push_member(members, "rid", Some(id))?;
    push_member(members, "rs", Some(state))
}

// Where it was sent, and of which type it is.
fn push_target(
    alloc: Global,
    entry: &LaterEntry,
    members: &mut Vec<(MemberKey, Val)>,
) -> Result<(), OutOfMemory>
    ensures { OnOk result (members.new.items ≡ members.old.items ++ present (
        (codes "tg", Some (plain.text entry.now.request.to)) ∷
        (codes "ty", Some (count_data spec.request_type)) ∷ [])) }
{
    let target = text_value(alloc, &entry.request().parts().to)?;
    push_member(members, "tg", Some(target))?;
    push_member(members, "ty", Some(Val::of_num(REQUEST_TYPE)))
}

// Its members, in byte order of their names.
fn members_of(alloc: Global, entry: &LaterEntry) -> Result<Vec<(MemberKey, Val)>, OutOfMemory>
    ensures { IfOk result (λ members. members.items ≡ present (spec.entry_rows entry.now)) }
{
    let mut members = Vec::with_capacity(alloc, 10)?;
    push_moments(alloc, entry, &mut members)?;
    push_asking(alloc, entry, &mut members)?;
    push_reply(alloc, entry, &mut members)?;
    push_state(alloc, entry, &mut members)?;
    push_target(alloc, entry, &mut members)?;
    Ok(members)
}

/// The content that shows an accepted request.
pub(crate) fn entry_content(alloc: Global, entry: &LaterEntry) -> Result<Val, OutOfMemory>
    ensures { IfOk result (λ v. v ≡ spec.entry_content entry.now) }
{
    let members = members_of(alloc, entry)?;
    let shown = sorted_object(members);
    object_of_one(alloc, "m2m:req", shown)
}

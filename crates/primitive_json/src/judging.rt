//! The first fault of a value that is no request, or no reply.
ghost use Rattle.std.specs.Prelude.{◌≡◌, Some, None, false, not, option_map};
ghost use Rattle.std.specs.List.{find};
ghost use Rattle.std.specs.Option.{option_copied, option_map_or};
ghost use Rattle.filter_criteria.specs.Values as shared;
ghost use Rattle.primitive_json.specs.Members as members;
ghost use Rattle.primitive_json.specs.Reading as spec;

use crate::fault::Fault;
use crate::kinds::*;
use crate::member::{Member, MemberKind, is_unread, retrieves};
use crate::reply::{RQI, RSC};
use filter_criteria::{is_filter, members_in, read_type_number, value_at};
use m2m_names::Op;
use m2m_value::{MemberKey, Val};

/// Whether the operation is known, and retrieves.
fn does_retrieve(op: Option<Op>) -> bool
    ensures { result ≡ option_map_or members.retrieves op false }
{
    match op {
        Some(op) => retrieves(op),
        None => false,
    }
}

/// Whether the value is of the kind, on the operation as far as that is known.
fn is_of_kind(op: Option<Op>, kind: MemberKind, value: &Val) -> bool
    ensures { result ≡ spec.is_of_kind op kind value.now }
{
    match kind {
        MemberKind::AddressForm => is_number_among(address_forms(), value),
        MemberKind::FilterObject => does_retrieve(op) && is_filter(value),
        MemberKind::OriginatorText => is_originator_text(value),
        MemberKind::OperationNumber => read_operation(value).is_some(),
        MemberKind::AnyObject => value.as_obj().is_some(),
        MemberKind::ResultNumber => match op {
            Some(op) => is_number_among(result_contents(op), value),
            None => false,
        },
        MemberKind::ExpiryTime => read_expiry(value).is_some(),
        MemberKind::IdText => is_id_text(value),
        MemberKind::ResponseForm => read_response_type(value).is_some(),
        MemberKind::AddressText => is_address_text(value),
        MemberKind::TypeNumber => read_type_number(value).is_some(),
    }
}

fn is_good(op: Option<Op>, entry: &(MemberKey, Val)) -> bool
    ensures { result ≡ spec.is_good op entry.now }
{
    match Member::named(entry.0.entries()) {
        Some(member) => !member.is_read(op) || is_of_kind(op, member.kind(), &entry.1),
        None => is_unread(entry.0.entries()),
    }
}

/// The first member that is none, or whose value is outside its kind.
fn bad_entry(op: Option<Op>, value: &Val) -> Option<&(MemberKey, Val)>
    ensures { option_copied result ≡ spec.bad_entry op (shared.members_in value.now) }
{
    members_in(value).iter().find(|entry| !is_good(op, entry))
}

fn is_missing(op: Option<Op>, member: Member, value: &Val) -> bool
    ensures { result ≡ spec.is_missing op (shared.members_in value.now) member }
{
    member.is_needed(op) && value_at(value, member.name()).is_none()
}

/// The first member that must be there and is not.
fn missing_member(op: Option<Op>, value: &Val) -> Option<Member>
    ensures { result ≡ spec.missing_member op (shared.members_in value.now) }
{
    Member::ALL
        .iter()
        .copied()
        .find(|member| is_missing(op, *member, value))
}

/// The operation of a request, where it is one.
pub fn operation_in(value: &Val) -> Option<Op>
    ensures { result ≡ spec.operation_in (shared.members_in value.now) }
{
    read_operation(value_at(value, Member::Operation.name())?)
}

/// Why a value is no request; none where it is one. This takes no memory.
pub fn request_fault(value: &Val) -> Option<Fault<'_>>
    ensures { let es = shared.members_in value.now in
        option_map spec.kept_fault result ≡ spec.request_fault (spec.operation_in es) es }
{
    let op = operation_in(value);
    match missing_member(op, value) {
        Some(member) => Some(Fault::Missing(member.name().as_bytes())),
        None => Some(Fault::Bad(bad_entry(op, value)?.0.entries())),
    }
}

/// Why a value is no reply; none where it is one. This takes no memory.
pub fn reply_fault(value: &Val) -> Option<Fault<'_>>
    ensures { option_map spec.kept_fault result ≡ spec.reply_fault (shared.members_in value.now) }
{
    let Some(status) = value_at(value, RSC) else {
        return Some(Fault::Missing(RSC.as_bytes()));
    };
    if let Some(id) = value_at(value, RQI)
        && !is_id_text(id)
    {
        return Some(Fault::Bad(RQI.as_bytes()));
    }
    if read_status(status).is_some() {
        None
    } else {
        Some(Fault::Bad(RSC.as_bytes()))
    }
}

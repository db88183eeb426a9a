//! The values that a request keeps: copied from a value that is lent, or taken out of one that is
//! given away.
ghost use Rattle.std.specs.Prelude.{◌≡◌, ℕ, List, [], false, bytes_eq, IfOk, IsUtf8};
ghost use Rattle.std.specs.Prelude.{option_and_then};
ghost use Rattle.std.specs.Option.{option_copied};
ghost use Rattle.m2m_value.specs.View.{member_of, text_or_empty};
ghost use Rattle.filter_criteria.specs.Conditions as conditions;
ghost use Rattle.filter_criteria.specs.Values.{members_in};
ghost use Rattle.filter_criteria.specs.declared.condition.Condition.TheVariants.{OneLabel};
ghost use Rattle.primitive_json.specs.Members.{name_of_member};
ghost use Rattle.primitive_json.specs.Reading as spec;

use crate::member::Member;
use crate::request::copied_content;
use filter_criteria::{Condition, owned_text, value_at};
use m2m_names::Op;
use m2m_value::{Members, Node, Text, Val};
use std::alloc::{AllocError as OutOfMemory, Global};

/// The values of the members whose texts and content a request keeps, and of the labels of its
/// filter.
#[derive(Drop)]
pub struct Kept {
    pub to: Option<Val>,
    pub fr: Option<Val>,
    pub rqi: Option<Val>,
    pub pc: Option<Val>,
    pub lbl: Option<Val>,
}

/// The value of a member that is read on the operation.
pub fn value_read(op: Op, member: Member, value: &Val) -> Option<&Val>
    ensures { option_copied result ≡ spec.value_read op member (members_in value.now) }
{
    if member.is_read(Some(op)) {
        value_at(value, member.name())
    } else {
        None
    }
}

fn labels_read(op: Op, value: &Val) -> Option<&Val>
    ensures { option_copied result ≡ (spec.kept_in op (members_in value.now)).lbl }
{
    value_at(
        value_read(op, Member::FilterCriteria, value)?,
        Condition::OneLabel.name(),
    )
}

/// Copies of the values.
pub fn copied_values(alloc: Global, op: Op, value: &Val) -> Result<Kept, OutOfMemory>
    ensures { IfOk result (λ kept. kept ≡ spec.kept_in op (members_in value.now)) }
{
    Ok(Kept {
        to: copied_content(alloc, value_read(op, Member::Target, value))?,
        fr: copied_content(alloc, value_read(op, Member::Originator, value))?,
        rqi: copied_content(alloc, value_read(op, Member::RequestId, value))?,
        pc: copied_content(alloc, value_read(op, Member::Content, value))?,
        lbl: copied_content(alloc, labels_read(op, value))?,
    })
}

/// The members of an object; any other value has none.
fn members_into(alloc: Global, value: Val) -> Members
    ensures { result ≡ members_in value }
{
    match value.into_node() {
        Node::Obj(members) => members,
        _ => Members::new(alloc),
    }
}

/// The value of a member, taken out of the members.
fn take_at(member: Member, members: &mut Members) -> Option<Val>
    ensures value { result ≡ member_of (name_of_member member) members.old }
    ensures others { (key : List ℕ) → bytes_eq key (name_of_member member) ≡ false
        → member_of key members.new ≡ member_of key members.old }
{
    members.take(member.name().as_bytes())
}

/// The value of a member that is read on the operation, taken out of the members.
fn take_read(op: Op, member: Member, members: &mut Members) -> Option<Val>
    ensures value { result ≡ spec.value_read op member members.old }
    ensures others { (key : List ℕ) → bytes_eq key (name_of_member member) ≡ false
        → member_of key members.new ≡ member_of key members.old }
{
    if member.is_read(Some(op)) {
        take_at(member, members)
    } else {
        None
    }
}

fn labels_into(alloc: Global, filter: Option<Val>) -> Option<Val>
    ensures { result ≡ option_and_then
        (λ d. member_of (conditions.name_of_condition OneLabel) (members_in d)) filter }
{
    let mut conditions = members_into(alloc, filter?);
    conditions.take(Condition::OneLabel.name().as_bytes())
}

/// The values themselves; nothing is copied.
pub fn taken_values(alloc: Global, op: Op, value: Val) -> Kept
    ensures { result ≡ spec.kept_in op (members_in value) }
{
    let mut members = members_into(alloc, value);
    Kept {
        to: take_read(op, Member::Target, &mut members),
        fr: take_read(op, Member::Originator, &mut members),
        rqi: take_read(op, Member::RequestId, &mut members),
        pc: take_read(op, Member::Content, &mut members),
        lbl: labels_into(alloc, take_read(op, Member::FilterCriteria, &mut members)),
    }
}

/// The text that a value is, and an empty one where it is none.
pub fn text_or_empty(alloc: Global, value: Option<Val>) -> Text
    ensures value { result ≡ text_or_empty value }
    ensures utf8 { IsUtf8 result }
{
    match owned_text(value) {
        Some(text) => text,
        None => Text::of(Vec::new(alloc)),
    }
}

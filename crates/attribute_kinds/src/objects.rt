//! Values that are objects.
ghost use Rattle.std.specs.Prelude.{◌≡◌, ◌∷◌, [], codes};
ghost use Rattle.std.specs.Int.{is_in_range};
ghost use Rattle.std.specs.List.{list_all};
ghost use Rattle.m2m_names.specs.Name as names;
ghost use Rattle.m2m_names.specs.Operations.{all_bits};
ghost use Rattle.m2m_value.specs.Shapes as shapes;
ghost use Rattle.attribute_kinds.specs.Kinds as spec;

use crate::lists::{is_event_kinds, is_labels, is_originators};
use crate::values::{is_number_within, list_in};
use m2m_names::ALL_BITS;
use m2m_value::{MemberKey, Members, Val};

fn is_rule_key(key: &MemberKey) -> bool
    ensures { result ≡ names.is_one_of (codes "acor" ∷ codes "acop" ∷ []) key.now }
{
    matches!(key.entries(), b"acor" | b"acop")
}

fn is_rules_key(key: &MemberKey) -> bool
    ensures { result ≡ names.is_one_of (codes "acr" ∷ []) key.now }
{
    matches!(key.entries(), b"acr")
}

fn is_criteria_key(key: &MemberKey) -> bool
    ensures { result ≡ names.is_one_of (codes "net" ∷ codes "atr" ∷ []) key.now }
{
    matches!(key.entries(), b"net" | b"atr")
}

fn have_rule_keys(members: &Members) -> bool
    ensures { result ≡ shapes.are_keys_among (codes "acor" ∷ codes "acop" ∷ []) members.now }
{
    members.entries().iter().all(|entry| is_rule_key(&entry.0))
}

fn have_rules_keys(members: &Members) -> bool
    ensures { result ≡ shapes.are_keys_among (codes "acr" ∷ []) members.now }
{
    members.entries().iter().all(|entry| is_rules_key(&entry.0))
}

fn have_criteria_keys(members: &Members) -> bool
    ensures { result ≡ shapes.are_keys_among (codes "net" ∷ codes "atr" ∷ []) members.now }
{
    members
        .entries()
        .iter()
        .all(|entry| is_criteria_key(&entry.0))
}

fn have_originators(members: &Members) -> bool
    ensures { result ≡ shapes.has_member (codes "acor")
        (shapes.is_some_of (shapes.is_text_of names.is_originator)) members.now }
{
    match members.get(b"acor") {
        Some(value) => is_originators(value),
        None => false,
    }
}

fn have_bits(members: &Members) -> bool
    ensures { result ≡ shapes.has_member (codes "acop")
        (shapes.is_count_of (is_in_range 0 all_bits)) members.now }
{
    match members.get(b"acop") {
        Some(value) => is_number_within(0, u64::from(ALL_BITS), value),
        None => false,
    }
}

fn make_rule(members: &Members) -> bool
    ensures { result ≡ spec.is_rule members.now }
{
    have_rule_keys(members) && have_originators(members) && have_bits(members)
}

fn is_rule(value: &Val) -> bool
    ensures { result ≡ shapes.is_object_of spec.is_rule value.now }
{
    match value.as_obj() {
        Some(members) => make_rule(members),
        None => false,
    }
}

fn are_rules(values: &[Val]) -> bool
    ensures { result ≡ list_all (shapes.is_object_of spec.is_rule) values.now }
{
    values.iter().all(|value| is_rule(value))
}

fn is_rule_list(value: &Val) -> bool
    ensures { result ≡ shapes.is_list_of (shapes.is_object_of spec.is_rule) value.now }
{
    match list_in(value) {
        Some(values) => are_rules(values),
        None => false,
    }
}

fn have_rules(members: &Members) -> bool
    ensures { result ≡ shapes.has_member (codes "acr")
        (shapes.is_list_of (shapes.is_object_of spec.is_rule)) members.now }
{
    match members.get(b"acr") {
        Some(value) => is_rule_list(value),
        None => false,
    }
}

/// The rules of a policy: an object of a list of rules.
pub fn is_rules(value: &Val) -> bool
    ensures { result ≡ shapes.is_object_of spec.is_rules value.now }
{
    match value.as_obj() {
        Some(members) => have_rules_keys(members) && have_rules(members),
        None => false,
    }
}

fn may_have_event_kinds(members: &Members) -> bool
    ensures { result ≡ shapes.may_have_member (codes "net")
        (shapes.is_some_of (shapes.is_count_of spec.is_event_kind)) members.now }
{
    match members.get(b"net") {
        Some(value) => is_event_kinds(value),
        None => true,
    }
}

fn may_have_labels(members: &Members) -> bool
    ensures { result ≡ shapes.may_have_member (codes "atr")
        (shapes.is_list_of shapes.is_label) members.now }
{
    match members.get(b"atr") {
        Some(value) => is_labels(value),
        None => true,
    }
}

fn make_criteria(members: &Members) -> bool
    ensures { result ≡ spec.is_criteria members.now }
{
    have_criteria_keys(members) && may_have_event_kinds(members) && may_have_labels(members)
}

/// What a subscription looks for: kinds of event and names of attributes, each if it has them.
pub fn is_criteria(value: &Val) -> bool
    ensures { result ≡ shapes.is_object_of spec.is_criteria value.now }
{
    match value.as_obj() {
        Some(members) => make_criteria(members),
        None => false,
    }
}

//! Which contents are admitted, and what is wrong with the others.
ghost use Rattle.std.specs.Prelude.{◌≡◌, Some, None, IfOk, OnOk, OnErr, IfErr, IsTrue, false};
ghost use Rattle.std.specs.Prelude.{bytes_eq, option_map};
ghost use Rattle.std.specs.List.{filter_map, list_all};
ghost use Rattle.std.specs.Option.{option_map_or};
ghost use Rattle.m2m_names.specs.Attributes.{attr_of_short, attr_short};
ghost use Rattle.m2m_names.specs.declared.attributes.Attr.TheVariants.{Con};
ghost use Rattle.m2m_value.specs.View as views;
ghost use Rattle.m2m_value.specs.View.{member_of};
ghost use Rattle.attribute_rules.specs.Admission as spec;

use crate::faults::AttrFault;
use crate::table::{Rule, Writing, mandatory, rule_of};
use filter_criteria::value_among;
use m2m_names::{Attr, Ty};
use m2m_value::{MemberKey, Members, Node, OutOfMemory, Val};
use std::alloc::Global;

// The value of the one member, where it has this name.
fn only_value<'a>(name: &str, entries: &'a [(MemberKey, Val)]) -> Option<&'a Val>
    ensures { option_map (λ v. v.now) result ≡ spec.only_value name.now entries.now }
{
    match entries {
        [entry] if entry.0.entries() == name.as_bytes() => Some(&entry.1),
        _ => None,
    }
}

/// The attributes that a content names, with their values.
pub fn attributes_in(ty: Ty, content: &Val) -> Option<&Members>
    ensures { option_map (λ m. m.now) result ≡ spec.attributes_in ty content.now }
{
    only_value(ty.member(), content.as_obj()?.entries())?.as_obj()
}

fn into_members(value: Val) -> Option<Members>
    ensures { result ≡ views.as_object value }
{
    match value.into_node() {
        Node::Obj(members) => Some(members),
        _ => None,
    }
}

fn take_only(name: &str, members: Members) -> Option<Val>
    ensures { result ≡ spec.only_value name.now members }
{
    let mut entries = members.into_vec();
    if entries.len() != 1 {
        return None;
    }
    let (key, value) = entries.pop()?;
    if key.entries() == name.as_bytes() {
        Some(value)
    } else {
        None
    }
}

/// The same attributes, taken out of the content.
fn take_attributes(ty: Ty, content: Val) -> Option<Members>
    ensures { result ≡ spec.attributes_in ty content }
{
    into_members(take_only(ty.member(), into_members(content)?)?)
}

/// The value that is named at an attribute.
pub fn value_named(attr: Attr, members: &Members) -> Option<&Val>
    ensures { option_map (λ v. v.now) result ≡ member_of (attr_short attr) members.now }
{
    value_among(members.entries(), attr.short().as_bytes())
}

/// Whether an attribute is named.
pub fn is_named(attr: Attr, members: &Members) -> bool
    ensures { result ≡ spec.is_named attr members.now }
{
    value_named(attr, members).is_some()
}

fn is_alone(members: &Members) -> bool
    ensures { result ≡ spec.is_alone members.now }
{
    matches!(members.entries(), [_])
}

// Whether a key is the short name of the attribute that the content of an instance has.
fn is_con(key: &MemberKey) -> bool
    ensures { result ≡ bytes_eq key.now (attr_short Con) }
{
    matches!(key.entries(), b"con")
}

/// The attribute of a key. Most contents are those of instances, so that what these have is tried
/// first.
pub fn attribute_at(key: &MemberKey) -> Option<Attr>
    ensures { result ≡ attr_of_short key.now }
{
    if is_con(key) {
        Some(Attr::Con)
    } else {
        Attr::from_short_bytes(key.entries())
    }
}

fn rule_at(ty: Ty, key: &MemberKey) -> Option<(Attr, Rule)>
    ensures { result ≡ spec.rule_at ty key.now }
{
    let attr = attribute_at(key)?;
    Some((attr, rule_of(ty, attr)?))
}

fn is_fit(writing: Writing, ty: Ty, entry: &(MemberKey, Val)) -> bool
    ensures { result ≡ spec.is_fit writing ty entry.now }
{
    match rule_at(ty, &entry.0) {
        Some((_, rule)) => rule.permits(writing) && rule.allows_value(writing, &entry.1),
        None => false,
    }
}

fn are_fit(writing: Writing, ty: Ty, entries: &[(MemberKey, Val)]) -> bool
    ensures { result ≡ list_all (spec.is_fit writing ty) entries.now }
{
    entries.iter().all(|entry| is_fit(writing, ty, entry))
}

fn are_named(attrs: &[Attr], members: &Members) -> bool
    ensures { result ≡ list_all (λ attr. spec.is_named attr members.now) attrs.now }
{
    attrs.iter().all(|attr| is_named(*attr, members))
}

fn is_complete(writing: Writing, ty: Ty, members: &Members) -> bool
    ensures { result ≡ spec.is_complete writing ty members.now }
{
    match writing {
        Writing::Create => are_named(mandatory(ty), members),
        Writing::Update => !is_named(Attr::Acpi, members) || is_alone(members),
    }
}

/// Whether a content of the type that names these attributes is admitted.
pub fn are_admitted(writing: Writing, ty: Ty, members: &Members) -> bool
    ensures { result ≡ spec.are_admitted writing ty members.now }
{
    are_fit(writing, ty, members.entries()) && is_complete(writing, ty, members)
}

// What is wrong with a member. Memory may run out for the name of an attribute that is unknown.
fn key_fault(
    alloc: Global,
    writing: Writing,
    ty: Ty,
    key: MemberKey,
    value: &Val,
) -> Result<Option<AttrFault>, OutOfMemory>
    ensures value { IfOk result (λ fault. fault ≡ spec.key_fault writing ty (key, value.now)) }
    ensures memory { OnErr result (spec.key_fault writing ty (key, value.now)
        ≡ Some (AttrFault.Unknown key)) }
{
    match rule_at(ty, &key) {
        None => Ok(Some(AttrFault::Unknown(key.into_text(alloc)?))),
        Some((attr, rule)) => Ok(value_fault(writing, attr, rule, value)),
    }
}

// What is wrong at an attribute that the type has.
fn value_fault(writing: Writing, attr: Attr, rule: Rule, value: &Val) -> Option<AttrFault>
    ensures { result ≡ spec.value_fault writing attr rule value.now }
{
    if !rule.permits(writing) {
        Some(AttrFault::NotAllowed(attr))
    } else if !rule.allows_value(writing, value) {
        Some(AttrFault::Kind(attr))
    } else {
        None
    }
}

fn is_unknown(fault: &Option<AttrFault>) -> bool
    ensures { result ≡ option_map_or spec.is_unknown fault.now false }
{
    matches!(fault, Some(AttrFault::Unknown(_)))
}

fn is_not_allowed(fault: &Option<AttrFault>) -> bool
    ensures { result ≡ option_map_or spec.is_not_allowed fault.now false }
{
    matches!(fault, Some(AttrFault::NotAllowed(_)))
}

// Of each kind of fault that a key may have, the first.
#[derive(Drop)]
struct Firsts {
    unknown: Option<AttrFault>,
    not_allowed: Option<AttrFault>,
    wrong: Option<AttrFault>,
}

// The same after the next key, which has this fault or none.
fn with_fault(firsts: Firsts, fault: Option<AttrFault>) -> Firsts
    ensures { result ≡ spec.with_fault firsts fault }
{
    let Firsts {
        unknown,
        not_allowed,
        wrong,
    } = firsts;
    if is_unknown(&fault) {
        Firsts {
            unknown: unknown.or(fault),
            not_allowed,
            wrong,
        }
    } else if is_not_allowed(&fault) {
        Firsts {
            unknown,
            not_allowed: not_allowed.or(fault),
            wrong,
        }
    } else {
        Firsts {
            unknown,
            not_allowed,
            wrong: wrong.or(fault),
        }
    }
}

fn with_entry(
    alloc: Global,
    writing: Writing,
    ty: Ty,
    firsts: Firsts,
    entry: (MemberKey, Val),
) -> Result<Firsts, OutOfMemory>
    ensures value { IfOk result (λ f.
        f ≡ spec.with_fault firsts (spec.key_fault writing ty entry)) }
    ensures memory { OnErr result (spec.key_fault writing ty entry
        ≡ Some (AttrFault.Unknown entry.0)) }
{
    let (key, value) = entry;
    Ok(with_fault(firsts, key_fault(alloc, writing, ty, key, &value)?))
}

fn first_key_fault(
    alloc: Global,
    writing: Writing,
    ty: Ty,
    members: Members,
) -> Result<Option<AttrFault>, OutOfMemory>
    ensures value { IfOk result (λ fault.
        fault ≡ spec.leading_fault (filter_map (spec.key_fault writing ty) members)) }
    ensures memory { OnErr result (IsTrue (spec.has_unknown
        (spec.leading_fault (filter_map (spec.key_fault writing ty) members)))) }
{
    let mut firsts = Firsts {
        unknown: None,
        not_allowed: None,
        wrong: None,
    };
    for entry in members.into_vec() {
        firsts = with_entry(alloc, writing, ty, firsts, entry)?;
    }
    Ok(firsts.unknown.or(firsts.not_allowed.or(firsts.wrong)))
}

fn missing_attr(ty: Ty, members: &Members) -> Option<Attr>
    ensures { result ≡ spec.missing_attr ty members.now }
{
    mandatory(ty)
        .iter()
        .copied()
        .find(|attr| !is_named(*attr, members))
}

fn rest_fault(writing: Writing, ty: Ty, members: &Members) -> Option<AttrFault>
    ensures { result ≡ spec.rest_fault writing ty members.now }
{
    match writing {
        Writing::Create => Some(AttrFault::Missing(missing_attr(ty, members)?)),
        Writing::Update if is_named(Attr::Acpi, members) && !is_alone(members) => {
            Some(AttrFault::AcpiNotAlone)
        }
        Writing::Update => None,
    }
}

fn fault_in(
    alloc: Global,
    writing: Writing,
    ty: Ty,
    members: Members,
) -> Result<Option<AttrFault>, OutOfMemory>
    ensures value { IfOk result (λ fault. fault ≡ spec.fault_in writing ty members) }
    ensures memory { OnErr result (IsTrue (spec.has_unknown (spec.fault_in writing ty members))) }
{
    let rest = rest_fault(writing, ty, &members);
    Ok(first_key_fault(alloc, writing, ty, members)?.or(rest))
}

/// The attributes that an admitted content names; of any other content its first fault.
pub fn sort_out(alloc: Global, writing: Writing, ty: Ty, content: Val) -> Result<Members, AttrFault>
    ensures attributes { IfOk result (λ es. spec.attributes_in ty content ≡ Some es) }
    ensures fit { IfOk result (λ es. IsTrue (spec.are_admitted writing ty es)) }
    ensures admitted { OnOk result (spec.fault_of writing ty content ≡ None) }
    ensures refused { IfErr result (spec.IsTold (spec.fault_of writing ty content)) }
{
    let Some(members) = take_attributes(ty, content) else {
        return Err(AttrFault::Shape);
    };
    if are_admitted(writing, ty, &members) {
        return Ok(members);
    }
    match fault_in(alloc, writing, ty, members)? {
        Some(fault) => Err(fault),
        None => unreachable!(),
    }
}

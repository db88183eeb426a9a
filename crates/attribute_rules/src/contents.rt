//! What a creation wants and what an update changes, copied out of the content.
ghost use Rattle.std.specs.Prelude.{◌≡◌, ◌≤◌, ◌++◌, IfOk, IfSome, OnOk, IsTrue, IsUtf8};
ghost use Rattle.std.specs.Prelude.{option_and_then, option_map};
ghost use Rattle.std.specs.List.{filter_map};
ghost use Rattle.std.specs.Option.{option_to_list};
ghost use Rattle.m2m_names.specs.Name.{is_free_name};
ghost use Rattle.m2m_names.specs.Stamps.{last_moment};
ghost use Rattle.m2m_names.specs.StampReading.{moment_at};
ghost use Rattle.m2m_names.specs.declared.attributes.Attr.TheVariants.{Et, Rn};
ghost use Rattle.resource_model.specs.Attributes.{value_of};
ghost use Rattle.attribute_kinds.specs.Kinds.{has_kind};
ghost use Rattle.attribute_kinds.specs.declared.kinds.Kind.TheVariants.{Stamp};
ghost use Rattle.attribute_rules.specs.Admission.{are_admitted};
ghost use Rattle.attribute_rules.specs.Contents as spec;
ghost use Rattle.attribute_rules.specs.declared.table.Writing.TheVariants.{Create, Update};

use crate::admission::{attribute_at, is_named, value_named};
use m2m_names::{Attr, Ty, read_stamp};
use m2m_value::{MemberKey, Members, OutOfMemory, Text, Val};
use resource_model::{AttrSet, Attrs};
use std::alloc::Global;

/// What a creation wants: the name and the moment of expiry, in seconds since 1970, where it names
/// them; the attributes as the resource keeps them; and whether it keeps the originator as well.
#[derive(Drop)]
pub struct Wanted {
    pub name: Option<Text>,
    pub et: Option<u64>,
    pub attrs: Attrs,
    pub creator: bool,
}

/// What an update changes: the attributes that it gives a value, among them `et` as a timestamp,
/// and those that it clears.
#[derive(Drop)]
pub struct Edit {
    pub sets: Attrs,
    pub clears: AttrSet,
}

// A resource keeps at most two attributes that the CSE assigns.
const ASSIGNED: usize = 2;

fn is_apart(attr: Attr) -> bool
    ensures { result ≡ spec.is_apart attr }
{
    matches!(attr, Attr::Cr | Attr::Et | Attr::Rn)
}

fn is_empty_list(value: &Val) -> bool
    ensures { result ≡ spec.is_empty_list value.now }
{
    match value.as_list() {
        Some(items) => items.entries().is_empty(),
        None => false,
    }
}

fn is_no_policy(attr: Attr, value: &Val) -> bool
    ensures { result ≡ spec.is_no_policy attr value.now }
{
    match attr {
        Attr::Acpi | Attr::Macp => is_empty_list(value),
        _ => false,
    }
}

fn does_clear(attr: Attr, value: &Val) -> bool
    ensures { result ≡ spec.does_clear attr value.now }
{
    value.is_null() || is_no_policy(attr, value)
}

// The moment of expiry that a creation names.
fn moment_in(members: &Members) -> Option<u64>
    ensures value { result ≡ option_and_then moment_at (spec.named_text Et members.now) }
    ensures last { IfSome result (λ m. m ≤ last_moment) }
{
    read_stamp(value_named(Attr::Et, members)?.as_text()?.entries())
}

// The name that a creation names.
fn name_in(members: &Members) -> Option<&Text>
    ensures value { option_map (λ t. t.now) result ≡ spec.named_text Rn members.now }
    ensures utf8 { IfSome result (λ t. IsUtf8 t.now) }
{
    value_named(Attr::Rn, members)?.as_text()
}

fn copied_name(alloc: Global, members: &Members) -> Result<Option<Text>, OutOfMemory>
    ensures value { IfOk result (λ name. name ≡ spec.named_text Rn members.now) }
    ensures utf8 { IfOk result (λ name. IfSome name (λ t. IsUtf8 t)) }
{
    match name_in(members) {
        Some(name) => Ok(Some(name.copy(alloc)?)),
        None => Ok(None),
    }
}

// The attribute at which a member of a creation gives the resource its value.
fn kept_attr(key: &MemberKey, value: &Val) -> Option<Attr>
    ensures { option_map (λ attr. (attr, value.now)) result
        ≡ spec.kept_row (key.now, value.now) }
{
    let attr = attribute_at(key)?;
    if is_apart(attr) || is_no_policy(attr, value) {
        None
    } else {
        Some(attr)
    }
}

// Puts the row that a member of a creation gives the resource behind others.
fn copy_kept(
    alloc: Global,
    key: &MemberKey,
    value: &Val,
    rows: &mut Vec<(Attr, Val)>,
) -> Result<(), OutOfMemory>
    ensures { OnOk result (rows.new.items
        ≡ rows.old.items ++ option_to_list (spec.kept_row (key.now, value.now))) }
{
    if let Some(attr) = kept_attr(key, value) {
        rows.push((attr, value.copy(alloc)?))?;
    }
    Ok(())
}

/// The attributes that a creation which names these gives the resource, but for those that stand
/// apart from them: its name, its expiry and its originator. Their values are copied.
pub fn kept_attrs(alloc: Global, members: &Members) -> Result<Attrs, OutOfMemory>
    ensures { IfOk result (λ rows. rows ≡ filter_map spec.kept_row members.now) }
{
    let mut rows = Vec::with_capacity(alloc, members.entries().len() + ASSIGNED)?;
    for (key, value) in members.entries() {
        copy_kept(alloc, key, value, &mut rows)?;
    }
    Ok(Attrs::of(rows))
}

/// What a creation wants of a resource of the type that names these attributes, which are admitted.
/// Their values are copied.
pub fn wanted_in(alloc: Global, ty: Ty, members: &Members) -> Result<Wanted, OutOfMemory>
    requires { IsTrue (are_admitted Create ty members.now) }
    ensures value { IfOk result (λ w. w ≡ spec.wanted_in members.now) }
    ensures name { IfOk result (λ w. IfSome w.name (λ t. IsTrue (is_free_name t))) }
    ensures utf8 { IfOk result (λ w. IfSome w.name (λ t. IsUtf8 t)) }
    ensures last { IfOk result (λ w. IfSome w.et (λ m. m ≤ last_moment)) }
{
    Ok(Wanted {
        name: copied_name(alloc, members)?,
        et: moment_in(members),
        attrs: kept_attrs(alloc, members)?,
        creator: is_named(Attr::Cr, members),
    })
}

/// What an update of a resource of the type changes that names these attributes, which are
/// admitted. Their values are copied.
pub fn edit_in(alloc: Global, ty: Ty, members: &Members) -> Result<Edit, OutOfMemory>
    requires { IsTrue (are_admitted Update ty members.now) }
    ensures value { IfOk result (λ e. e ≡ spec.edit_in members.now) }
    ensures expiry { IfOk result (λ e.
        IfSome (value_of Et e.sets) (λ d. IsTrue (has_kind Stamp d))) }
{
    let mut sets = Vec::with_capacity(alloc, members.entries().len())?;
    let mut clears = Vec::new(alloc);
    for (key, value) in members.entries() {
        if let Some(attr) = attribute_at(key) {
            if does_clear(attr, value) {
                clears.push(attr)?;
            } else {
                sets.push((attr, value.copy(alloc)?))?;
            }
        }
    }
    Ok(Edit {
        sets: Attrs::of(sets),
        clears: AttrSet::of(clears),
    })
}

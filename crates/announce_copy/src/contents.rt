//! What operations on copies carry.
ghost use Rattle.std.specs.Prelude.{◌≡◌, ◌≤◌, ◌∷◌, [], IfOk, OnOk, filter_map, map, unwrap_or};
ghost use Rattle.m2m_names.specs.Stamps.{last_moment};
ghost use Rattle.m2m_names.specs.declared.attributes.Attr.TheVariants.{Lbl};
ghost use Rattle.m2m_value.specs.Data.{text};
ghost use Rattle.resource_model.specs.Attributes.{value_of};
ghost use Rattle.tree_model.specs.Shown.{shown_moment, with_rows};
ghost use Rattle.announce_copy.specs.Announced as spec;

use crate::announced::{announceable, copy_type, is_announced};
use crate::naming::copy_name;
use m2m_names::{Attr, write_stamp};
use m2m_value::{Text, Val};
use std::alloc::{AllocError as OutOfMemory, Global};
use subscription_match::reference_of;
use tree_model::{Attrs, Home, Resource, content};

// ---- values

fn stamp(alloc: Global, moment: u64) -> Result<Val, OutOfMemory>
    requires { moment ≤ last_moment }
    ensures { IfOk result (λ v. v ≡ shown_moment moment) }
{
    let mut bytes = [0; 15];
    let _written = write_stamp(moment, &mut bytes);
    Ok(Val::of_text(Text::from_slice(alloc, &bytes)?))
}

fn default_value(attr: Attr) -> Option<Val>
    ensures { result ≡ spec.default_value attr }
{
    if attr.order(Attr::Csy).is_eq() {
        Some(Val::of_num(1))
    } else {
        None
    }
}

fn announced_value(
    alloc: Global,
    resource: &Resource,
    attr: Attr,
) -> Result<Option<Val>, OutOfMemory>
    ensures { IfOk result (λ d. d ≡ spec.announced_value resource.now attr) }
{
    if !is_announced(resource, attr) {
        return Ok(None);
    }
    match resource.attrs().get(attr) {
        Some(value) => Ok(Some(value.copy(alloc)?)),
        None => Ok(default_value(attr)),
    }
}

fn or_null(value: Option<Val>) -> Val
    ensures { result ≡ spec.or_null value }
{
    match value {
        Some(value) => value,
        None => Val::null(),
    }
}

fn labels(alloc: Global, resource: &Resource) -> Result<Option<Val>, OutOfMemory>
    ensures { IfOk result (λ d. d ≡ value_of Lbl resource.now.attrs) }
{
    match resource.attrs().get(Attr::Lbl) {
        Some(value) => Ok(Some(value.copy(alloc)?)),
        None => Ok(None),
    }
}

// ---- of a Create

fn add_labels(alloc: Global, resource: &Resource, attrs: &mut Attrs) -> Result<(), OutOfMemory>
    ensures { OnOk result (attrs.new ≡ with_rows (spec.label_rows resource.now) attrs.old) }
{
    match labels(alloc, resource)? {
        Some(value) => attrs.set(Attr::Lbl, value),
        None => Ok(()),
    }
}

fn add_names(
    alloc: Global,
    home: &Home,
    resource: &Resource,
    attrs: &mut Attrs,
) -> Result<(), OutOfMemory>
    ensures { OnOk result (attrs.new
        ≡ with_rows (spec.name_rows home.now resource.now) attrs.old) }
{
    let name = copy_name(alloc, resource.ty(), resource.number())?;
    attrs.set(
        Attr::Lnk,
        Val::of_text(reference_of(alloc, home, resource)?),
    )?;
    attrs.set(Attr::Rn, Val::of_text(name))
}

fn add_announced(alloc: Global, resource: &Resource, attrs: &mut Attrs) -> Result<(), OutOfMemory>
    ensures { OnOk result (attrs.new ≡ with_rows (filter_map (spec.announced_row resource.now)
        (spec.announceable_attrs resource.now.ty)) attrs.old) }
{
    let all = announceable(resource.ty());
    for attr in all {
        if let Some(value) = announced_value(alloc, resource, *attr)? {
            attrs.set(*attr, value)?;
        }
    }
    Ok(())
}

fn created_attrs(alloc: Global, home: &Home, resource: &Resource) -> Result<Attrs, OutOfMemory>
    ensures { IfOk result (λ a. a ≡ spec.created_rows home.now resource.now) }
{
    let mut attrs = Attrs::new(alloc);
    attrs.set(Attr::Et, stamp(alloc, resource.et())?)?;
    add_labels(alloc, resource, &mut attrs)?;
    add_names(alloc, home, resource, &mut attrs)?;
    add_announced(alloc, resource, &mut attrs)?;
    Ok(attrs)
}

/// The content of the Create of a resource's copy: its name, the original, the time of expiry, the
/// labels, and each announced attribute that has a value (TS-0001, 9.6.26).
pub fn copy_of(alloc: Global, resource: &Resource, home: &Home) -> Result<Val, OutOfMemory>
    ensures { IfOk result (λ v. v ≡ spec.copy_of home.now resource.now) }
{
    let attrs = created_attrs(alloc, home, resource)?;
    content(alloc, copy_type(resource.ty()), attrs)
}

// ---- of an Update

fn add_renewed(alloc: Global, resource: &Resource, attrs: &mut Attrs) -> Result<(), OutOfMemory>
    ensures { OnOk result (attrs.new ≡ with_rows (map (spec.renewed_row resource.now)
        (spec.announceable_attrs resource.now.ty)) attrs.old) }
{
    let all = announceable(resource.ty());
    for attr in all {
        attrs.set(*attr, or_null(announced_value(alloc, resource, *attr)?))?;
    }
    Ok(())
}

fn renewed_attrs(alloc: Global, resource: &Resource) -> Result<Attrs, OutOfMemory>
    ensures { IfOk result (λ a. a ≡ spec.renewed_rows resource.now) }
{
    let mut attrs = Attrs::new(alloc);
    attrs.set(Attr::Et, stamp(alloc, resource.et())?)?;
    attrs.set(Attr::Lbl, or_null(labels(alloc, resource)?))?;
    add_renewed(alloc, resource, &mut attrs)?;
    Ok(attrs)
}

/// The content of an Update of a resource's copy: the time of expiry, and the labels and every
/// attribute that can be announced, each with its value, or null where it isn't announced or has
/// none.
pub(crate) fn renewal_of(alloc: Global, resource: &Resource) -> Result<Val, OutOfMemory>
    ensures { IfOk result (λ v. v ≡ spec.renewal_of resource.now) }
{
    let attrs = renewed_attrs(alloc, resource)?;
    content(alloc, copy_type(resource.ty()), attrs)
}

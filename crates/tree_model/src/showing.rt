//! The attributes of a resource as they are shown.
ghost use Rattle.std.specs.Prelude.{◌≡◌, ◌≤◌, ◌++◌, map, take, IfOk, OnOk, IsUtf8};
ghost use Rattle.m2m_names.specs.Attributes.{attr_short};
ghost use Rattle.m2m_names.specs.declared.attributes.Attr.TheVariants.{Ct, Lt};
ghost use Rattle.m2m_names.specs.Stamps.{last_moment};
ghost use Rattle.m2m_names.specs.Types as types;
ghost use Rattle.m2m_value.specs.Data.{text, number, list, elements_of};
ghost use Rattle.m2m_value.specs.Node.{AreSorted, HaveTextKeys};
ghost use Rattle.resource_model.specs.Attributes.{with_value};
ghost use Rattle.resource_model.specs.Resource.{is_ty};
ghost use Rattle.tree_model.specs.Shown.{shown_types, shown_moment, shown_ty, shown_count};
ghost use Rattle.tree_model.specs.Shown.{parent_id, common_rows, base_rows, expiry_rows};
ghost use Rattle.tree_model.specs.Shown.{own_cse_id};
ghost use Rattle.tree_model.specs.Shown.{container_rows, default_row, group_rows, added_rows};
ghost use Rattle.tree_model.specs.Shown.{with_rows, shown_rows, wrapped, attributes_of};
ghost use Rattle.tree_model.specs.Shown as spec;

use crate::tree::Tree;
use m2m_names::{Attr, LARGEST_COUNT, Ty, write_stamp};
use m2m_value::{Items, MemberKey, Members, Text, Val};
use resource_model::{Attrs, Home, Resource};
use std::alloc::{AllocError as OutOfMemory, Global};

// The CSEBase has as many attributes added, and no other resource more.
const MOST_ADDED: usize = 9;

/// The object of a resource: one member, named by its type, with all attributes that are shown.
/// Its parent and its instances are read from the tree, in which it needn't stand itself.
pub fn attributes<T: Tree>(
    alloc: Global,
    tree: &T,
    home: &Home,
    resource: &Resource,
) -> Result<Val, OutOfMemory>
    ensures { IfOk result (λ v. v ≡ attributes_of home.now (T.nodes tree.now) resource.now) }
{
    content(alloc, resource.ty(), shown(alloc, tree, home, resource)?)
}

/// The attributes of a resource that are shown.
pub fn shown<T: Tree>(
    alloc: Global,
    tree: &T,
    home: &Home,
    resource: &Resource,
) -> Result<Attrs, OutOfMemory>
    ensures { IfOk result (λ a. a ≡ shown_rows home.now (T.nodes tree.now) resource.now) }
{
    let mut attrs = copied(alloc, resource.attrs())?;
    if resource.is(Ty::CseBase) {
        add_to_base(alloc, tree, home, resource, &mut attrs)?;
    } else {
        add_common(alloc, tree, resource, &mut attrs)?;
        set_moment(alloc, &mut attrs, Attr::Et, resource.et())?;
    }
    if resource.is(Ty::Container) {
        add_counts(tree, resource, &mut attrs)?;
    }
    if resource.is(Ty::Group) {
        add_defaults(resource, &mut attrs)?;
    }
    Ok(attrs)
}

// Equal attributes, with room for all that are added.
fn copied(alloc: Global, attrs: &Attrs) -> Result<Attrs, OutOfMemory>
    ensures { IfOk result (λ a. a ≡ attrs.now) }
{
    Ok(Attrs::of(copied_rows(alloc, attrs.entries())?))
}

fn copied_rows(alloc: Global, rows: &[(Attr, Val)]) -> Result<Vec<(Attr, Val)>, OutOfMemory>
    ensures { IfOk result (λ v. v.items ≡ rows.now) }
{
    let mut copies = Vec::with_capacity(alloc, rows.len().saturating_add(MOST_ADDED))?;
    for row in rows {
        copies.push((row.0, row.1.copy(alloc)?))?;
    }
    Ok(copies)
}

/// The object of these attributes: one member, named by the type.
pub fn content(alloc: Global, ty: Ty, attrs: Attrs) -> Result<Val, OutOfMemory>
    ensures { IfOk result (λ v. v ≡ wrapped ty attrs) }
{
    under_type(alloc, ty, members_of(alloc, attrs)?)
}

/// One member, named by the type, that has the object of these.
pub fn under_type(alloc: Global, ty: Ty, members: Members) -> Result<Val, OutOfMemory>
    requires { HaveTextKeys members }
    ensures { IfOk result (λ v. v ≡ spec.under_type ty members) }
{
    let name = MemberKey::named(ty.member());
    let mut whole = Vec::with_capacity(alloc, 1)?;
    whole.push((name, Val::of_obj(members)))?;
    Ok(Val::of_obj(Members::of(whole)))
}

/// The members of the object of these attributes.
pub fn members_of(alloc: Global, attrs: Attrs) -> Result<Members, OutOfMemory>
    ensures value { IfOk result (λ m. m ≡ spec.members_of attrs) }
    ensures keys { IfOk result (λ m. HaveTextKeys m) }
{
    Ok(Members::of(named(alloc, attrs)?))
}

// The keys are names that stand in the program, so that none takes memory.
fn named(alloc: Global, attrs: Attrs) -> Result<Vec<(MemberKey, Val)>, OutOfMemory>
    ensures value { IfOk result (λ v. v.items ≡ spec.members_of attrs) }
    ensures order { IfOk result (λ v. AreSorted v.items) }
{
    let mut members = Vec::with_capacity(alloc, attrs.entries().len())?;
    for (attr, value) in attrs.into_vec() {
        members.push((key(attr), value))?;
    }
    Ok(members)
}

fn key(attr: Attr) -> MemberKey
    ensures { result ≡ attr_short attr }
{
    MemberKey::named(attr.short())
}

// What every resource shows, but for its type, which stands last.
fn add_before_type<T: Tree>(
    alloc: Global,
    tree: &T,
    resource: &Resource,
    attrs: &mut Attrs,
) -> Result<(), OutOfMemory>
    ensures { OnOk result (attrs.new ≡ with_rows (take 5 (common_rows
        (T.nodes tree.now) resource.now)) attrs.old) }
{
    set_changes(alloc, resource, attrs)?;
    attrs.set(Attr::Pi, Val::of_text(id_of_parent(alloc, tree, resource)?))?;
    attrs.set(Attr::Ri, Val::of_text(resource.id(alloc)?))?;
    attrs.set(Attr::Rn, Val::of_text(resource.name().copy(alloc)?))
}

fn add_common<T: Tree>(
    alloc: Global,
    tree: &T,
    resource: &Resource,
    attrs: &mut Attrs,
) -> Result<(), OutOfMemory>
    ensures { OnOk result (attrs.new ≡ with_rows (common_rows
        (T.nodes tree.now) resource.now) attrs.old) }
{
    add_before_type(alloc, tree, resource, attrs)?;
    attrs.set(Attr::Ty, shown_ty(resource.ty()))
}

// What the CSEBase shows, put in the order of the names, so that little is moved.
fn add_to_base<T: Tree>(
    alloc: Global,
    tree: &T,
    home: &Home,
    base: &Resource,
    attrs: &mut Attrs,
) -> Result<(), OutOfMemory>
    ensures { OnOk result (attrs.new ≡ with_rows
        (common_rows (T.nodes tree.now) base.now ++ base_rows home.now) attrs.old) }
{
    attrs.set(Attr::Csi, Val::of_text(own_cse_id(alloc, home)?))?;
    attrs.set(Attr::Cst, Val::of_num(home.cst()))?;
    add_before_type(alloc, tree, base, attrs)?;
    attrs.set(Attr::Srt, shown_types(alloc)?)?;
    attrs.set(Attr::Ty, shown_ty(base.ty()))
}

fn add_counts<T: Tree>(tree: &T, resource: &Resource, attrs: &mut Attrs) -> Result<(), OutOfMemory>
    ensures { OnOk result (attrs.new ≡ with_rows (container_rows
        (T.nodes tree.now) resource.now) attrs.old) }
{
    let sizes = tree.instance_sizes(resource.number());
    let count = tree.instance_count(resource.number());
    attrs.set(Attr::Cbs, count_val(sizes))?;
    attrs.set(Attr::Cni, count_val(count as u128))
}

fn count_val(n: u128) -> Val
    ensures { result ≡ shown_count n }
{
    Val::of_num(n.min(LARGEST_COUNT as u128) as i64)
}

fn add_defaults(resource: &Resource, attrs: &mut Attrs) -> Result<(), OutOfMemory>
    ensures { OnOk result (attrs.new ≡ with_rows (group_rows resource.now) attrs.old) }
{
    add_default(resource, attrs, Attr::Csy, 1)?;
    add_default(resource, attrs, Attr::Mt, 0)
}

fn add_default(
    resource: &Resource,
    attrs: &mut Attrs,
    attr: Attr,
    n: u32,
) -> Result<(), OutOfMemory>
    ensures { OnOk result (attrs.new ≡ with_rows
        (default_row attr n resource.now.attrs) attrs.old) }
{
    match resource.attrs().get(attr) {
        Some(_) => Ok(()),
        None => attrs.set(attr, Val::of_num(n as i64)),
    }
}

fn set_moment(alloc: Global, attrs: &mut Attrs, attr: Attr, moment: u64) -> Result<(), OutOfMemory>
    requires { moment ≤ last_moment }
    ensures { OnOk result (attrs.new ≡ with_value attr (shown_moment moment) attrs.old) }
{
    attrs.set(attr, stamp(alloc, moment)?)
}

// When it was created, and last changed.
fn set_changes(alloc: Global, resource: &Resource, attrs: &mut Attrs) -> Result<(), OutOfMemory>
    ensures { OnOk result (attrs.new ≡ with_value Lt (shown_moment resource.now.lt)
        (with_value Ct (shown_moment resource.now.ct) attrs.old)) }
{
    let created = stamp(alloc, resource.ct())?;
    let changed = stamp_beside(alloc, resource.lt(), resource.ct(), &created)?;
    attrs.set(Attr::Ct, created)?;
    attrs.set(Attr::Lt, changed)
}

// The timestamp of a moment, beside one that is known, which often is the same.
fn stamp_beside(alloc: Global, moment: u64, other: u64, known: &Val) -> Result<Val, OutOfMemory>
    requires moment { moment ≤ last_moment }
    requires known { known.now ≡ shown_moment other }
    ensures { IfOk result (λ v. v ≡ shown_moment moment) }
{
    if moment == other {
        known.copy(alloc)
    } else {
        stamp(alloc, moment)
    }
}

fn stamp(alloc: Global, moment: u64) -> Result<Val, OutOfMemory>
    requires { moment ≤ last_moment }
    ensures { IfOk result (λ v. v ≡ shown_moment moment) }
{
    let mut bytes = [0; 15];
    let _written = write_stamp(moment, &mut bytes);
    Ok(Val::of_text(Text::from_slice(alloc, &bytes)?))
}

fn id_of_parent<T: Tree>(alloc: Global, tree: &T, resource: &Resource) -> Result<Text, OutOfMemory>
    ensures value { IfOk result (λ t. t ≡ parent_id (T.nodes tree.now) resource.now) }
    ensures utf8 { IfOk result (λ t. IsUtf8 t) }
{
    if resource.is(Ty::CseBase) {
        return Ok(Text::of(Vec::new(alloc)));
    }
    match tree.get(resource.parent()) {
        Some(parent) => parent.id(alloc),
        None => Ok(Text::of(Vec::new(alloc))),
    }
}

/// The CSE-ID of this CSE, with its slash (TS-0001, 7.2).
pub fn own_cse_id(alloc: Global, home: &Home) -> Result<Text, OutOfMemory>
    ensures value { IfOk result (λ t. t ≡ own_cse_id home.now) }
    ensures utf8 { IfOk result (λ t. IsUtf8 t) }
{
    Text::from_parts(alloc, b"/", home.csi().entries(), b"")
}

fn shown_ty(ty: Ty) -> Val
    ensures { result ≡ shown_ty ty }
{
    Val::of_num(ty.number() as i64)
}

fn shown_types(alloc: Global) -> Result<Val, OutOfMemory>
    ensures { IfOk result (λ v. v ≡ shown_types) }
{
    Ok(Val::of_list(Items::of(all_numbers(alloc)?)))
}

fn all_numbers(alloc: Global) -> Result<Vec<Val>, OutOfMemory>
    ensures { IfOk result (λ v. v.items ≡ map shown_ty types.all_types) }
{
    let mut numbers = Vec::with_capacity(alloc, Ty::ALL.len())?;
    for ty in &Ty::ALL {
        numbers.push_reserved(shown_ty(*ty));
    }
    Ok(numbers)
}

//! The resource that a Create makes.
ghost use Rattle.std.specs.Prelude.{◌≡◌, ◌==◌, ◌<◌, ◌∷◌, [], IfOk, IsTrue, IsUtf8, List, OnOk};
ghost use Rattle.std.specs.Prelude.{if◌then◌else◌, length, pos};
ghost use Rattle.m2m_names.specs.Ids.{count_bound};
ghost use Rattle.m2m_names.specs.Name.{is_originator};
ghost use Rattle.m2m_names.specs.declared.attributes.Attr.TheVariants.{Acpi, Macp};
ghost use Rattle.m2m_value.specs.Data as json;
ghost use Rattle.m2m_value.specs.Data.{Entry};
ghost use Rattle.resource_model.specs.Attributes.{with_value};
ghost use Rattle.tree_model.specs.Shown.{with_rows};
ghost use Rattle.entity_model.specs.Entity.{EntityData};
ghost use Rattle.request_rules.specs.Creation as spec;
ghost use Rattle.request_rules.specs.Judged.{AreLinksOf, IsCreateBy, creation_for};
ghost use Rattle.request_rules.specs.Policies.{link_row, links_live};
ghost use Rattle.create_delete.specs.Joining.{IsAllowed};

use attribute_rules::{is_named, kept_attrs};
use entity_model::Entity;
use m2m_names::{Attr, LARGEST_COUNT, Ty};
use m2m_value::{Items, Members, Text, Val};
use request_rules::{AllowedCreate, Links, new_ae_id, new_owner};
use std::alloc::{AllocError as OutOfMemory, Global};
use tree_model::{Attrs, Moments, Resource, Tree};

/// The state tag of a resource after one more change.
pub(crate) fn next_state(resource: &Resource) -> u64
    ensures value { result ≡ spec.next_state resource.now }
    ensures bound { result < count_bound }
{
    let state = resource.attrs().count(Attr::St).unwrap_or(0);
    (state + 1).min(LARGEST_COUNT)
}

pub(crate) fn set_count(attrs: &mut Attrs, attr: Attr, n: u64) -> Result<(), OutOfMemory>
    requires { n < count_bound }
    ensures { OnOk result (attrs.new ≡ with_value attr (json.number (pos n)) attrs.old) }
{
    attrs.set(attr, Val::of_num(n as i64))
}

fn set_text(attrs: &mut Attrs, attr: Attr, text: Text) -> Result<(), OutOfMemory>
    requires { IsUtf8 text }
    ensures { OnOk result (attrs.new ≡ with_value attr (json.text text) attrs.old) }
{
    attrs.set(attr, Val::of_text(text))
}

/// Puts in what a group keeps of its members.
pub(crate) fn keep_members(
    alloc: Global,
    members: &[(Attr, Val)],
    attrs: &mut Attrs,
) -> Result<(), OutOfMemory>
    ensures { OnOk result (attrs.new ≡ with_rows members.now attrs.old) }
{
    for (attr, value) in members {
        attrs.set(*attr, value.copy(alloc)?)?;
    }
    Ok(())
}

// What the CSE gives a new resource besides.
fn give<T: Tree>(
    alloc: Global,
    entity: &Entity<T>,
    originator: &[u8],
    create: &AllowedCreate,
    attrs: &mut Attrs,
) -> Result<(), OutOfMemory>
    requires originator { IsTrue (is_originator originator.now) }
    requires allowed { IsAllowed (creation_for entity.now originator.now create.now) }
    requires parts { IsCreateBy entity.now create.now.ty create.now.parent.now create.now.named.now
        create.now }
    ensures { OnOk result (attrs.new ≡ with_rows (spec.given_rows create.now.ty
        (creation_for entity.now originator.now create.now)) attrs.old) }
{
    match create.ty {
        Ty::Ae => set_text(attrs, Attr::Aei, new_ae_id(alloc, originator, entity.next)?),
        Ty::Container => set_count(attrs, Attr::St, 0),
        Ty::ContentInstance => {
            set_count(attrs, Attr::Cs, create.size)?;
            set_count(attrs, Attr::St, next_state(create.parent))
        }
        Ty::Group => keep_members(alloc, &create.members, attrs),
        _ => Ok(()),
    }
}

/// The originator as a text.
pub(crate) fn originator_text(alloc: Global, originator: &[u8]) -> Result<Text, OutOfMemory>
    requires { IsTrue (is_originator originator.now) }
    ensures value { IfOk result (λ t. t ≡ originator.now) }
    ensures utf8 { IfOk result (λ t. IsUtf8 t) }
{
    Text::from_slice(alloc, originator)
}

// The originator, where `cr` asks for it.
fn sign(
    alloc: Global,
    originator: &[u8],
    members: &Members,
    attrs: &mut Attrs,
) -> Result<(), OutOfMemory>
    requires { IsTrue (is_originator originator.now) }
    ensures { OnOk result (attrs.new ≡ with_rows
        (spec.creator_rows originator.now members.now) attrs.old) }
{
    if is_named(Attr::Cr, members) {
        set_text(attrs, Attr::Cr, originator_text(alloc, originator)?)
    } else {
        Ok(())
    }
}

// The policies that an attribute names, by their resource ids; where it names none, it isn't kept.
fn link(attr: Attr, ids: Vec<Val>, attrs: &mut Attrs) -> Result<(), OutOfMemory>
    ensures { OnOk result (attrs.new ≡ with_rows (if length ids.items == 0 then []
        else (attr, json.list (json.elements_of ids.items)) ∷ []) attrs.old) }
{
    if ids.is_empty() {
        return Ok(());
    }
    let alloc = *ids.allocator();
    attrs.set(attr, Val::of_shared_list(alloc, Items::of(ids)))
}

/// Puts in the policies that a content names, which are live.
pub(crate) fn link_all(links: Links, attrs: &mut Attrs) -> Result<(), OutOfMemory>
    ensures { (e : EntityData) (es : List Entry) → AreLinksOf e es links → IsTrue (links_live e es)
        → OnOk result (attrs.new
        ≡ with_rows (link_row e es Macp) (with_rows (link_row e es Acpi) attrs.old)) }
{
    link(Attr::Acpi, links.acpi, attrs)?;
    link(Attr::Macp, links.macp, attrs)?;
    Ok(())
}

// What it keeps beside what the content gives it, but for the policies that are named.
fn add_besides<T: Tree>(
    alloc: Global,
    entity: &Entity<T>,
    originator: &[u8],
    create: &AllowedCreate,
    attrs: &mut Attrs,
) -> Result<(), OutOfMemory>
    requires originator { IsTrue (is_originator originator.now) }
    requires allowed { IsAllowed (creation_for entity.now originator.now create.now) }
    requires parts { IsCreateBy entity.now create.now.ty create.now.parent.now create.now.named.now
        create.now }
    ensures { OnOk result (attrs.new
        ≡ with_rows (spec.creator_rows originator.now create.now.named.now)
        (with_rows (spec.given_rows create.now.ty
        (creation_for entity.now originator.now create.now)) attrs.old)) }
{
    give(alloc, entity, originator, create, attrs)?;
    sign(alloc, originator, create.named, attrs)
}

/// The resource that a Create makes which no place refuses.
#[tactic(auto, using(crate::proofs::CreatedLemmas::parts_of_the_created))]
pub(crate) fn new_resource<T: Tree>(
    alloc: Global,
    entity: &Entity<T>,
    originator: &[u8],
    create: AllowedCreate<'_>,
) -> Result<Resource, OutOfMemory>
    requires originator { IsTrue (is_originator originator.now) }
    requires allowed { IsAllowed (creation_for entity.now originator.now create) }
    requires parts { IsCreateBy entity.now create.ty create.parent.now create.named.now create }
    ensures { IfOk result (λ r.
        r ≡ spec.new_resource (creation_for entity.now originator.now create.entry)) }
{
    let moments = Moments {
        ct: entity.last,
        lt: entity.last,
        et: create.et,
    };
    let owner = new_owner(alloc, originator, create.ty, entity.next)?;
    let mut attrs = kept_attrs(alloc, create.named)?;
    add_besides(alloc, entity, originator, &create, &mut attrs)?;
    link_all(create.links, &mut attrs)?;
    Ok(Resource::of(
        entity.next,
        create.ty,
        create.name,
        create.parent.number(),
        owner,
        moments,
        attrs,
    ))
}

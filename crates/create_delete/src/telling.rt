//! The contents of replies (TS-0001, 8.1.2; TS-0004, 7.5.2).
ghost use Rattle.std.specs.Prelude.{◌≡◌, ◌++◌, [], ◌∷◌, codes, IfOk, IsTrue, IsUtf8, filter};
ghost use Rattle.m2m_names.specs.Types.{ty_member};
ghost use Rattle.m2m_value.specs.Data as json;
ghost use Rattle.tree_model.specs.Shown.{wrapped};
ghost use Rattle.tree_model.specs.Tree.{has};
ghost use Rattle.addressing.specs.Names.{structured_of};
ghost use Rattle.entity_model.specs.Places as places;
ghost use Rattle.create_delete.specs.Changing as spec;

use addressing::structured;
use attribute_rules::is_named;
use entity_model::{Entity, object_of_one, wanted_content};
use m2m_names::{Attr, Ty};
use m2m_value::{MemberKey, Members, Text, Val};
use primitive_json::Request;
use std::alloc::{AllocError as OutOfMemory, Global};
use tree_model::{Attrs, Resource, Tree, attributes, content, members_of, shown};

// The result content of the attributes.
const ATTRIBUTES: i64 = 1;

// The structured address that a resource has when it comes last.
fn path_to_last<T: Tree>(
    alloc: Global,
    entity: &Entity<T>,
    resource: &Resource,
) -> Result<Text, OutOfMemory>
    requires { IsTrue (has resource.now.parent entity.now.nodes) }
    ensures value { IfOk result (λ t. t
        ≡ structured_of resource.now.number (entity.now.nodes ++ resource.now ∷ [])) }
    ensures utf8 { IfOk result (λ t. IsUtf8 t) }
{
    let above = structured(alloc, &entity.tree, resource.parent())?;
    Text::from_parts(alloc, above.entries(), b"/", resource.name().entries())
}

fn address_last<T: Tree>(
    alloc: Global,
    entity: &Entity<T>,
    resource: &Resource,
) -> Result<Val, OutOfMemory>
    requires { IsTrue (has resource.now.parent entity.now.nodes) }
    ensures { IfOk result (λ v. v ≡ spec.address_last entity.now resource.now) }
{
    Ok(Val::of_text(path_to_last(alloc, entity, resource)?))
}

// The attributes of a resource of the type, and its address.
#[tactic(auto, using(crate::proofs::TellingLemmas::sorted_with_address))]
fn object_with_address(
    alloc: Global,
    ty: Ty,
    attributes: Val,
    address: Val,
) -> Result<Val, OutOfMemory>
    ensures { IfOk result (λ v. v ≡ json.object (json.pairs_of
        ((ty_member ty, attributes) ∷ (codes "uri", address) ∷ []))) }
{
    let mut members = Vec::with_capacity(alloc, 2)?;
    members.push((MemberKey::named(ty.member()), attributes))?;
    members.push((MemberKey::named("uri"), address))?;
    Ok(Val::of_obj(Members::of(members)))
}

fn address_alone<T: Tree>(
    alloc: Global,
    entity: &Entity<T>,
    resource: &Resource,
) -> Result<Val, OutOfMemory>
    requires { IsTrue (has resource.now.parent entity.now.nodes) }
    ensures { IfOk result (λ v. v ≡ json.object (json.pairs_of
        ((codes "m2m:uri", spec.address_last entity.now resource.now) ∷ []))) }
{
    object_of_one(alloc, "m2m:uri", address_last(alloc, entity, resource)?)
}

fn attributes_and_address<T: Tree>(
    alloc: Global,
    entity: &Entity<T>,
    resource: &Resource,
) -> Result<Val, OutOfMemory>
    requires { IsTrue (has resource.now.parent entity.now.nodes) }
    ensures { IfOk result (λ v. v ≡ spec.attributes_and_address entity.now resource.now) }
{
    let rows = shown(alloc, &entity.tree, &entity.home, resource)?;
    let all = Val::of_obj(members_of(alloc, rows)?);
    let address = address_last(alloc, entity, resource)?;
    object_of_one(
        alloc,
        "m2m:rce",
        object_with_address(alloc, resource.ty(), all, address)?,
    )
}

/// The content of the reply to a Create that made a resource.
pub(crate) fn created_content<T: Tree>(
    alloc: Global,
    entity: &Entity<T>,
    request: &Request,
    resource: &Resource,
) -> Result<Option<Val>, OutOfMemory>
    requires { IsTrue (has resource.now.parent entity.now.nodes) }
    ensures { IfOk result (λ c. c ≡ spec.created_content (places.wanted_content request.now.rcn)
        entity.now resource.now) }
{
    let asked = wanted_content(request);
    if asked == 0 {
        return Ok(None);
    }
    if asked == ATTRIBUTES {
        return Ok(Some(attributes(alloc, &entity.tree, &entity.home, resource)?));
    }
    if asked == 2 {
        return Ok(Some(address_alone(alloc, entity, resource)?));
    }
    Ok(Some(attributes_and_address(alloc, entity, resource)?))
}

// ---- of an Update

fn is_told(members: &Members, attr: Attr) -> bool
    ensures { result ≡ spec.is_told_at members.now attr }
{
    is_named(attr, members) || attr.order(Attr::Lt).is_eq()
}

// The named attributes that have a value, and `lt`.
fn told_attrs(members: &Members, attrs: Attrs) -> Attrs
    ensures { result ≡ filter (spec.is_told members.now) attrs }
{
    let mut rows = attrs.into_vec();
    rows.retain(|row| is_told(members, row.0));
    Attrs::of(rows)
}

// What the named attributes are after the update.
fn told_content<T: Tree>(
    alloc: Global,
    entity: &Entity<T>,
    members: &Members,
    resource: &Resource,
) -> Result<Val, OutOfMemory>
    ensures { IfOk result (λ v. v
        ≡ wrapped resource.now.ty (spec.told_rows entity.now members.now resource.now)) }
{
    let all = shown(alloc, &entity.tree, &entity.home, resource)?;
    content(alloc, resource.ty(), told_attrs(members, all))
}

/// The content of the reply to an Update that named these attributes and left a resource so.
pub(crate) fn updated_content<T: Tree>(
    alloc: Global,
    entity: &Entity<T>,
    request: &Request,
    members: &Members,
    resource: &Resource,
) -> Result<Option<Val>, OutOfMemory>
    ensures { IfOk result (λ c. c ≡ spec.updated_content (places.wanted_content request.now.rcn)
        entity.now members.now resource.now) }
{
    if wanted_content(request) == 0 {
        return Ok(None);
    }
    Ok(Some(told_content(alloc, entity, members, resource)?))
}

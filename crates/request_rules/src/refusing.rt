//! What a content names, and what it would create, in the order in which it is refused.
ghost use Rattle.std.specs.Prelude.{◌≡◌, IsTrue, Some};
ghost use Rattle.m2m_names.specs.Name.{is_originator};
ghost use Rattle.tree_model.specs.Tree.{at};
ghost use Rattle.entity_model.specs.Places.{first_fault};
ghost use Rattle.request_rules.specs.Asked.{creation_of};
ghost use Rattle.request_rules.specs.Judged.{AreLinksOf, IsCreateBy, IsUpdateBy, Judges};
ghost use Rattle.request_rules.specs.Order as spec;

use crate::allowed::{AllowedCreate, AllowedUpdate, Links};
use crate::contents::{admits, expiry_for, named_expiry};
use crate::groups::{have_addresses, judge_group, membership_edited, membership_new};
use crate::judging::Refusal;
use crate::limiting::{has_room, size_named};
use crate::naming::new_name;
use crate::policies::links_named;
use crate::uniqueness::is_unique;
use attribute_rules::Writing;
use entity_model::Entity;
use m2m_names::{Rsc, Ty};
use m2m_value::Members;
use std::alloc::Global;
use tree_model::{Resource, Tree};

fn expires_later<T: Tree>(entity: &Entity<T>, members: &Members) -> bool
    ensures { result ≡ spec.expires_later entity.now members.now }
{
    match named_expiry(members) {
        Some(et) => entity.last < et,
        None => true,
    }
}

/// Judges an operation that writes this by its content: that it is admitted, and by what it names.
/// What isn't refused gives the policies that the content names.
pub(crate) fn judge_content<T: Tree>(
    alloc: Global,
    entity: &Entity<T>,
    writing: Writing,
    ty: Ty,
    named: &Members,
) -> Result<Links, Refusal>
    ensures { Judges result (spec.fault_content writing entity.now ty named.now)
        (AreLinksOf entity.now named.now) }
{
    if !admits(writing, ty, named) || !expires_later(entity, named) {
        return Err(Refusal::Fault(Rsc::BadRequest));
    }
    match links_named(alloc, entity, named)? {
        Some(links) => Ok(links),
        None => Err(Refusal::Fault(Rsc::BadRequest)),
    }
}

/// Judges a creation below a resource that was found: by the members that a group is to have, by
/// what stands there, and by limits. What isn't refused hands on what was learned of it.
pub(crate) fn judge_creation<'a, T: Tree>(
    alloc: Global,
    entity: &Entity<T>,
    originator: &[u8],
    ty: Ty,
    parent: &'a Resource,
    named: &'a Members,
    links: Links,
) -> Result<AllowedCreate<'a>, Refusal>
    requires originator { IsTrue (is_originator originator.now) }
    requires stands { at parent.now.number entity.now.nodes ≡ Some parent.now }
    requires links { AreLinksOf entity.now named.now links }
    ensures { Judges result
        (spec.fault_new (creation_of entity.now originator.now ty parent.now named.now))
        (IsCreateBy entity.now ty parent.now named.now) }
{
    let group = membership_new(ty, named);
    if !have_addresses(alloc, &entity.home, group)? {
        return Err(Refusal::Fault(Rsc::BadRequest));
    }
    let name = new_name(alloc, ty, entity.next, named)?;
    if !is_unique(alloc, entity, originator, ty, parent, named, &name)? {
        return Err(Refusal::Fault(Rsc::Conflict));
    }
    let size = size_named(named);
    if !has_room(entity, ty, parent, size) {
        return Err(Refusal::Fault(Rsc::NotAcceptable));
    }
    match judge_group(alloc, entity, group) {
        Ok(members) => Ok(AllowedCreate {
            parent,
            ty,
            named,
            name,
            et: expiry_for(named),
            size,
            members,
            links,
        }),
        Err(refusal) => Err(refusal),
    }
}

/// Judges an Update by the members that a group is to have. What isn't refused hands on what was
/// learned of it.
pub(crate) fn judge_edition<'a, T: Tree>(
    alloc: Global,
    entity: &Entity<T>,
    target: &'a Resource,
    named: &'a Members,
    links: Links,
) -> Result<AllowedUpdate<'a>, Refusal>
    requires { AreLinksOf entity.now named.now links }
    ensures { Judges result (first_fault (spec.edit_places entity.now target.now named.now))
        (IsUpdateBy entity.now target.now named.now) }
{
    let group = membership_edited(target, named);
    if !have_addresses(alloc, &entity.home, group)? {
        return Err(Refusal::Fault(Rsc::BadRequest));
    }
    match judge_group(alloc, entity, group) {
        Ok(members) => Ok(AllowedUpdate {
            target,
            named,
            members,
            links,
        }),
        Err(refusal) => Err(refusal),
    }
}

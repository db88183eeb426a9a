//! The resource that an Update leaves.
ghost use Rattle.std.specs.Prelude.{◌≡◌, ◌≤◌, IfOk, IsTrue, OnOk, Some};
ghost use Rattle.m2m_names.specs.Stamps.{last_moment};
ghost use Rattle.m2m_names.specs.declared.attributes.Attr.TheVariants.{Et};
ghost use Rattle.resource_model.specs.Attributes as rows;
ghost use Rattle.attribute_rules.specs.Admission.{are_admitted};
ghost use Rattle.attribute_rules.specs.Contents as contents;
ghost use Rattle.attribute_rules.specs.declared.table.Writing.TheVariants.{Update};
ghost use Rattle.tree_model.specs.Shown.{with_rows};
ghost use Rattle.request_rules.specs.Judged.{IsUpdateBy};
ghost use Rattle.request_rules.specs.Policies.{links_live};
ghost use Rattle.entity_model.specs.Entity.{EntityData};
ghost use Rattle.create_delete.specs.Changing as spec;

use crate::building::{keep_members, link_all, next_state, set_count};
use attribute_rules::{Edit, edit_in, is_named};
use entity_model::Entity;
use m2m_names::{Attr, Ty};
use m2m_value::Members;
use request_rules::{AllowedUpdate, expiry_for};
use resource_model::AttrSet;
use std::alloc::{AllocError as OutOfMemory, Global};
use tree_model::{Attrs, Moments, Resource, Tree};

fn is_expiry(attr: Attr) -> bool
    ensures { result ≡ rows.is_attr attr Et }
{
    attr.order(Attr::Et).is_eq()
}

fn set_all(sets: Attrs, attrs: &mut Attrs) -> Result<(), OutOfMemory>
    ensures { OnOk result (attrs.new ≡ contents.set_all sets attrs.old) }
{
    for (attr, value) in sets.into_vec() {
        if !is_expiry(attr) {
            attrs.set(attr, value)?;
        }
    }
    Ok(())
}

fn clear_all(clears: AttrSet, attrs: &mut Attrs)
    ensures { attrs.new ≡ contents.clear_all clears attrs.old }
{
    for attr in clears.into_vec() {
        attrs.clear(attr);
    }
}

// Does to attributes what an update says; the moment of expiry is kept beside them.
fn edit(edit: Edit, attrs: &mut Attrs) -> Result<(), OutOfMemory>
    ensures { OnOk result (attrs.new ≡ contents.edited edit attrs.old) }
{
    set_all(edit.sets, attrs)?;
    clear_all(edit.clears, attrs);
    Ok(())
}

// A container counts its changes.
fn count_change(resource: &Resource, attrs: &mut Attrs) -> Result<(), OutOfMemory>
    ensures { OnOk result (attrs.new ≡ with_rows (spec.state_row resource.now) attrs.old) }
{
    if resource.is(Ty::Container) {
        set_count(attrs, Attr::St, next_state(resource))
    } else {
        Ok(())
    }
}

// The attributes after an update.
fn updated_attrs(alloc: Global, update: AllowedUpdate<'_>) -> Result<Attrs, OutOfMemory>
    requires admitted { IsTrue (are_admitted Update update.target.now.ty update.named.now) }
    ensures { (e : EntityData) → IsUpdateBy e update.entry.target.now update.entry.named.now
        update.entry → IsTrue (links_live e update.entry.named.now)
        → IfOk result (λ a. a ≡ (spec.updated_resource e update.entry.named.now
        update.entry.target.now).attrs) }
{
    let mut attrs = update.target.attrs().copy(alloc)?;
    edit(
        edit_in(alloc, update.target.ty(), update.named)?,
        &mut attrs,
    )?;
    count_change(update.target, &mut attrs)?;
    keep_members(alloc, &update.members, &mut attrs)?;
    link_all(update.links, &mut attrs)?;
    Ok(attrs)
}

// The moment of expiry after an update that names these attributes.
fn expiry_after(members: &Members, et: u64) -> u64
    requires { et ≤ last_moment }
    ensures value { result ≡ spec.expiry_after members.now et }
    ensures bound { result ≤ last_moment }
{
    if is_named(Attr::Et, members) {
        expiry_for(members)
    } else {
        et
    }
}

/// The resource after an update.
#[tactic(auto, using(crate::proofs::CreatedLemmas::last_is_moment))]
pub(crate) fn updated_resource<T: Tree>(
    alloc: Global,
    entity: &Entity<T>,
    update: AllowedUpdate<'_>,
) -> Result<Resource, OutOfMemory>
    requires admitted { IsTrue (are_admitted Update update.target.now.ty update.named.now) }
    requires live { IsTrue (links_live entity.now update.named.now) }
    requires parts { IsUpdateBy entity.now update.target.now update.named.now update }
    ensures { IfOk result (λ r. r ≡ spec.updated_resource entity.now
        update.entry.named.now update.entry.target.now) }
{
    let resource = update.target;
    let name = resource.name().copy(alloc)?;
    let owner = resource.owner().copy(alloc)?;
    let moments = Moments {
        ct: resource.ct(),
        lt: entity.last,
        et: expiry_after(update.named, resource.et()),
    };
    let attrs = updated_attrs(alloc, update)?;
    Ok(Resource::of(
        resource.number(),
        resource.ty(),
        name,
        resource.parent(),
        owner,
        moments,
        attrs,
    ))
}

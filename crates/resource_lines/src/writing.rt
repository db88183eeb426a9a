//! From a resource to a value.
ghost use Rattle.std.specs.Prelude.{◌≡◌, ◌<◌, ◌≤◌, ◌++◌, IfOk, IsUtf8, OnOk, Some};
ghost use Rattle.m2m_names.specs.Ids.{count_bound};
ghost use Rattle.m2m_names.specs.Stamps.{last_moment};
ghost use Rattle.resource_model.specs.Attributes.{AreInOrder};
ghost use Rattle.resource_lines.specs.Read.{resource_in};
ghost use Rattle.resource_lines.specs.Written as spec;

use filter_criteria::text_value;
use m2m_value::{Items, OutOfMemory, Val};
use resource_model::{Attrs, Resource};
use std::alloc::Global;
use tree_model::members_of;

fn count_value(count: u64) -> Val
    requires { count < count_bound }
    ensures { result ≡ spec.count_data count }
{
    Val::of_num(count as i64)
}

/// Three counts as a list.
fn three(alloc: Global, first: u64, second: u64, third: u64) -> Result<Val, OutOfMemory>
    requires first { first < count_bound }
    requires second { second < count_bound }
    requires third { third < count_bound }
    ensures { IfOk result (λ v. v ≡ spec.three_counts first second third) }
{
    let mut items = Vec::with_capacity(alloc, 3)?;
    items.push(count_value(first))?;
    items.push(count_value(second))?;
    items.push(count_value(third))?;
    Ok(Val::of_list(Items::of(items)))
}

/// The attributes as an object.
fn attrs_value(alloc: Global, attrs: &Attrs) -> Result<Val, OutOfMemory>
    ensures value { IfOk result (λ v. v ≡ spec.attrs_data attrs.now) }
    ensures order { AreInOrder attrs.now }
{
    let _rows = attrs.entries();
    Ok(Val::of_obj(members_of(alloc, attrs.copy(alloc)?)?))
}

fn place_value(alloc: Global, resource: &Resource) -> Result<Val, OutOfMemory>
    ensures value { IfOk result (λ v. v ≡ spec.place_data resource.now) }
    ensures number { resource.now.number < count_bound }
    ensures parent { resource.now.parent < count_bound }
{
    let ty = u64::from(resource.ty().number());
    three(alloc, resource.number(), ty, resource.parent())
}

fn moments_value(alloc: Global, resource: &Resource) -> Result<Val, OutOfMemory>
    ensures value { IfOk result (λ v. v ≡ spec.moments_data resource.now) }
    ensures ct { resource.now.ct ≤ last_moment }
    ensures lt { resource.now.lt ≤ last_moment }
    ensures et { resource.now.et ≤ last_moment }
{
    three(alloc, resource.ct(), resource.lt(), resource.et())
}

/// The name and the owner.
fn push_texts(alloc: Global, items: &mut Vec<Val>, resource: &Resource) -> Result<(), OutOfMemory>
    ensures texts { OnOk result
        (items.new.items ≡ items.old.items ++ spec.text_items resource.now) }
    ensures name { OnOk result (IsUtf8 resource.now.name) }
    ensures owner { OnOk result (IsUtf8 resource.now.owner) }
{
    items.push(text_value(alloc, resource.name())?)?;
    items.push(text_value(alloc, resource.owner())?)?;
    Ok(())
}

/// A resource as a list, by all that it keeps, which is read back as it.
pub fn resource_value(alloc: Global, resource: &Resource) -> Result<Val, OutOfMemory>
    ensures value { IfOk result (λ v. v ≡ spec.resource_data resource.now) }
    ensures back { OnOk result (resource_in (spec.resource_data resource.now) ≡ Some resource.now) }
{
    let mut items = Vec::with_capacity(alloc, 5)?;
    items.push(place_value(alloc, resource)?)?;
    push_texts(alloc, &mut items, resource)?;
    items.push(moments_value(alloc, resource)?)?;
    items.push(attrs_value(alloc, resource.attrs())?)?;
    Ok(Val::of_list(Items::of(items)))
}

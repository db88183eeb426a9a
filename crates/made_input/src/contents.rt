//! The contents of the requests.
ghost use Rattle.std.specs.Prelude.{◌≡◌, IfOk};
ghost use Rattle.m2m_value.specs.Data as json;
ghost use Rattle.made_input.specs.Requests as spec;

use entity_model::object_of_one;
use itoa::Buffer;
use m2m_names::Ty;
use m2m_value::{Items, MemberKey, Members, Text, Val};
use std::alloc::{AllocError as OutOfMemory, Global};

fn text_of(alloc: Global, text: &str) -> Result<Val, OutOfMemory>
    ensures { IfOk result (λ v. v ≡ json.text text.now) }
{
    Ok(Val::of_text(Text::from_slice(alloc, text.as_bytes())?))
}

/// The content that creates a resource of a type with these attributes.
pub(crate) fn content_of(alloc: Global, ty: Ty, attributes: Val) -> Result<Val, OutOfMemory>
    ensures { IfOk result (λ v. v ≡ spec.content_of ty attributes) }
{
    object_of_one(alloc, ty.member(), attributes)
}

/// The attributes of the AE.
#[tactic(auto, using(crate::proofs::ContentLemmas::sorted_ae))]
pub(crate) fn ae_attributes(alloc: Global) -> Result<Val, OutOfMemory>
    ensures { IfOk result (λ v. v ≡ spec.ae_attributes) }
{
    let mut members = Vec::with_capacity(alloc, 3)?;
    members.push((MemberKey::named("api"), text_of(alloc, "N1")?))?;
    members.push((MemberKey::named("rn"), text_of(alloc, "gen")?))?;
    members.push((MemberKey::named("rr"), Val::of_bool(true)))?;
    Ok(Val::of_obj(Members::of(members)))
}

/// The attributes of the container of this name.
#[tactic(auto, using(crate::proofs::ContentLemmas::sorted_container))]
pub(crate) fn container_attributes(alloc: Global, name: &str) -> Result<Val, OutOfMemory>
    ensures { IfOk result (λ v. v ≡ spec.container_attributes name.now) }
{
    let mut members = Vec::with_capacity(alloc, 2)?;
    members.push((MemberKey::named("mni"), Val::of_num(10)))?;
    members.push((MemberKey::named("rn"), text_of(alloc, name)?))?;
    Ok(Val::of_obj(Members::of(members)))
}

// Events of which the subscription is told: that a child is created, and that one is deleted.
fn criteria(alloc: Global) -> Result<Val, OutOfMemory>
    ensures { IfOk result (λ v. v ≡ spec.criteria) }
{
    let mut kinds = Vec::with_capacity(alloc, 2)?;
    kinds.push(Val::of_num(3))?;
    kinds.push(Val::of_num(4))?;
    object_of_one(alloc, "net", Val::of_list(Items::of(kinds)))
}

// Where the subscription is told.
fn listeners(alloc: Global) -> Result<Val, OutOfMemory>
    ensures { IfOk result (λ v. v ≡ spec.listeners) }
{
    let mut urls = Vec::with_capacity(alloc, 1)?;
    urls.push(text_of(alloc, "http://127.0.0.1:9000/n")?)?;
    Ok(Val::of_list(Items::of(urls)))
}

/// The attributes of the subscription.
#[tactic(auto, using(crate::proofs::ContentLemmas::sorted_subscription))]
pub(crate) fn subscription_attributes(alloc: Global) -> Result<Val, OutOfMemory>
    ensures { IfOk result (λ v. v ≡ spec.subscription_attributes) }
{
    let mut members = Vec::with_capacity(alloc, 3)?;
    members.push((MemberKey::named("enc"), criteria(alloc)?))?;
    members.push((MemberKey::named("nct"), Val::of_num(3)))?;
    members.push((MemberKey::named("nu"), listeners(alloc)?))?;
    Ok(Val::of_obj(Members::of(members)))
}

// The members of the group: the four containers.
fn members_listed(alloc: Global) -> Result<Val, OutOfMemory>
    ensures { IfOk result (λ v. v ≡ spec.members_listed) }
{
    let mut ids = Vec::with_capacity(alloc, 4)?;
    ids.push(text_of(alloc, "cnt4")?)?;
    ids.push(text_of(alloc, "cnt5")?)?;
    ids.push(text_of(alloc, "cnt6")?)?;
    ids.push(text_of(alloc, "cnt7")?)?;
    Ok(Val::of_list(Items::of(ids)))
}

/// The attributes of the group.
#[tactic(auto, using(crate::proofs::ContentLemmas::sorted_group))]
pub(crate) fn group_attributes(alloc: Global) -> Result<Val, OutOfMemory>
    ensures { IfOk result (λ v. v ≡ spec.group_attributes) }
{
    let mut members = Vec::with_capacity(alloc, 2)?;
    members.push((MemberKey::named("mid"), members_listed(alloc)?))?;
    members.push((MemberKey::named("mnm"), Val::of_num(4)))?;
    Ok(Val::of_obj(Members::of(members)))
}

/// The attributes of the instance of a number: its content is the number in decimal.
pub(crate) fn instance_attributes(alloc: Global, number: u64) -> Result<Val, OutOfMemory>
    ensures { IfOk result (λ v. v ≡ spec.instance_attributes number) }
{
    object_of_one(alloc, "con", text_of(alloc, Buffer::new().format(number))?)
}

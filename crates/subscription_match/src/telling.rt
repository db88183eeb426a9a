//! What a subscription is told.
ghost use Rattle.std.specs.Prelude.{◌≡◌, ◌∷◌, [], codes, filter, IfOk, IsUtf8, true};
ghost use Rattle.m2m_value.specs.Data as json;
ghost use Rattle.m2m_value.specs.View.{text_or_empty};
ghost use Rattle.policy_eval.specs.Rules.{is_attr_in};
ghost use Rattle.subscription_match.specs.Notices as spec;
ghost use Rattle.tree_model.specs.Changes.{change_of};

use crate::drafts::{Draft, DraftParts};
use crate::events::EventKind;
use crate::naming::reference_of;
use m2m_names::{Attr, Ty};
use m2m_value::{MemberKey, Members, Text, Val};
use policy_eval::listed_in;
use std::alloc::{AllocError as OutOfMemory, Global};
use tree_model::{AttrSet, Attrs, Change, Home, Resource, Tree, attributes, content, shown};

// ---- objects

// An object of one member.
#[tactic(auto, using(crate::proofs::TellingLemmas::sorted_alone))]
fn object_of_one(alloc: Global, key: &'static str, value: Val) -> Result<Val, OutOfMemory>
    ensures { IfOk result (λ v. v ≡ json.object (json.pairs_of ((key.now, value) ∷ []))) }
{
    let mut members = Vec::with_capacity(alloc, 1)?;
    members.push_reserved((MemberKey::named(key), value));
    Ok(Val::of_obj(Members::of(members)))
}

// The kind of an event, and what is shown of it.
#[tactic(auto, using(crate::proofs::TellingLemmas::sorted_event))]
fn event_told(alloc: Global, kind: EventKind, shown: Val) -> Result<Val, OutOfMemory>
    ensures { IfOk result (λ v. v ≡ spec.event_told kind shown) }
{
    let mut members = Vec::with_capacity(alloc, 2)?;
    let number = Val::of_num(kind.number() as i64);
    members.push_reserved((MemberKey::named("net"), number));
    members.push_reserved((MemberKey::named("rep"), shown));
    Ok(Val::of_obj(Members::of(members)))
}

// What is told of a subscription, behind one member.
#[tactic(auto, using(crate::proofs::TellingLemmas::sorted_framed))]
fn framed_event(alloc: Global, event: Val, reference: Text) -> Result<Val, OutOfMemory>
    requires { IsUtf8 reference }
    ensures { IfOk result (λ v. v ≡ spec.framed
        ((codes "nev", event) ∷ (codes "sur", json.text reference) ∷ [])) }
{
    let mut members = Vec::with_capacity(alloc, 2)?;
    members.push_reserved((MemberKey::named("nev"), event));
    members.push_reserved((MemberKey::named("sur"), Val::of_text(reference)));
    object_of_one(alloc, "m2m:sgn", Val::of_obj(Members::of(members)))
}

#[tactic(auto, using(crate::proofs::TellingLemmas::sorted_deletion))]
fn framed_deletion(alloc: Global, reference: Text) -> Result<Val, OutOfMemory>
    requires { IsUtf8 reference }
    ensures { IfOk result (λ v. v ≡ spec.framed
        ((codes "sud", json.boolean true) ∷ (codes "sur", json.text reference) ∷ [])) }
{
    let mut members = Vec::with_capacity(alloc, 2)?;
    members.push_reserved((MemberKey::named("sud"), Val::of_bool(true)));
    members.push_reserved((MemberKey::named("sur"), Val::of_text(reference)));
    object_of_one(alloc, "m2m:sgn", Val::of_obj(Members::of(members)))
}

// ---- the subscription

// The text of the target of its notifications.
fn target_of(alloc: Global, sub: &Resource) -> Result<Text, OutOfMemory>
    ensures value { IfOk result (λ t. t ≡ spec.target_of sub.now) }
    ensures utf8 { IfOk result (λ t. IsUtf8 t) }
{
    match listed_in(sub.attrs().get(Attr::Nu)) {
        [target, ..] => text_or_empty(alloc, target),
        [] => Ok(Text::of(Vec::new(alloc))),
    }
}

fn text_or_empty(alloc: Global, value: &Val) -> Result<Text, OutOfMemory>
    ensures value { IfOk result (λ t. t ≡ text_or_empty (Some value.now)) }
    ensures utf8 { IfOk result (λ t. IsUtf8 t) }
{
    match value.as_text() {
        Some(text) => text.copy(alloc),
        None => Ok(Text::of(Vec::new(alloc))),
    }
}

// ---- the resource that was changed

fn id_alone(alloc: Global, resource: &Resource) -> Result<Val, OutOfMemory>
    ensures { IfOk result (λ v. v ≡ spec.id_alone resource.now) }
{
    object_of_one(alloc, "m2m:uri", Val::of_text(resource.id(alloc)?))
}

fn is_among(named: &[Attr], attr: Attr) -> bool
    ensures { result ≡ is_attr_in named.now attr }
{
    named.iter().any(|name| attr.order(*name).is_eq())
}

fn is_modified(named: &AttrSet, attr: Attr) -> bool
    ensures { result ≡ spec.is_modified_at named.now attr }
{
    is_among(named.entries(), attr) || Attr::Lt.order(attr).is_eq()
}

// The attributes that an update named, and `lt`.
fn modified(named: &AttrSet, attrs: Attrs) -> Attrs
    ensures { result ≡ filter (spec.is_modified named.now) attrs }
{
    let mut rows = attrs.into_vec();
    rows.retain(|row| is_modified(named, row.0));
    Attrs::of(rows)
}

fn modified_attributes<T: Tree>(
    alloc: Global,
    tree: &T,
    home: &Home,
    named: &AttrSet,
    resource: &Resource,
) -> Result<Val, OutOfMemory>
    ensures { IfOk result (λ v. v ≡ spec.modified_attributes home.now (T.nodes tree.now)
        named.now resource.now) }
{
    let all = shown(alloc, tree, home, resource)?;
    content(alloc, resource.ty(), modified(named, all))
}

// The resource of a change, as it is after a creation or an update and was before a deletion.
fn resource_of(change: Change<'_>) -> &Resource
    ensures { result.now ≡ spec.resource_of (change_of change.entry) }
{
    match change {
        Change::Created(new) => new,
        Change::Updated { after, .. } => after,
        Change::Deleted(gone) => gone,
    }
}

// What is shown of an update, where the attributes are wanted that it named.
fn shown_of_update<T: Tree>(
    alloc: Global,
    tree: &T,
    home: &Home,
    change: Change<'_>,
) -> Result<Val, OutOfMemory>
    ensures { IfOk result (λ v. v ≡ spec.modified_attributes home.now (T.nodes tree.now)
        (spec.named_in (change_of change.entry)) (spec.resource_of (change_of change.entry))) }
{
    match change {
        Change::Updated { after, named, .. } => {
            modified_attributes(alloc, tree, home, named, after)
        }
        Change::Created(resource) | Change::Deleted(resource) => {
            modified_attributes(alloc, tree, home, &AttrSet::of(Vec::new(alloc)), resource)
        }
    }
}

fn representation<T: Tree>(
    alloc: Global,
    tree: &T,
    home: &Home,
    change: Change<'_>,
    kind: EventKind,
    wanted: u64,
) -> Result<Val, OutOfMemory>
    ensures { IfOk result (λ v. v ≡ spec.representation home.now (T.nodes tree.now)
        (change_of change.entry) kind wanted) }
{
    if wanted == 3 {
        return id_alone(alloc, resource_of(change));
    }
    if wanted == 2 && kind.is_update() {
        return shown_of_update(alloc, tree, home, change);
    }
    attributes(alloc, tree, home, resource_of(change))
}

// ---- drafts

/// What a subscription is told of a change, as this kind of event.
pub(crate) fn told_as<T: Tree>(
    alloc: Global,
    tree: &T,
    home: &Home,
    change: Change<'_>,
    sub: &Resource,
    kind: EventKind,
) -> Result<Draft, OutOfMemory>
    ensures { IfOk result (λ d. d ≡ spec.told_as home.now (T.nodes tree.now)
        (change_of change.entry) sub.now kind) }
{
    // It is shown all where it doesn't say what it wants.
    let wanted = sub.attrs().count(Attr::Nct).unwrap_or(1);
    let shown = representation(alloc, tree, home, change, kind, wanted)?;
    let event = event_told(alloc, kind, shown)?;
    let content = framed_event(alloc, event, reference_of(alloc, home, sub)?)?;
    Ok(Draft::of(DraftParts {
        subscription: Some(sub.number()),
        target: target_of(alloc, sub)?,
        content,
    }))
}

/// The notice of the deletion of a resource: of a subscription that has `su`.
pub(crate) fn notice_of(
    alloc: Global,
    home: &Home,
    gone: &Resource,
) -> Result<Option<Draft>, OutOfMemory>
    ensures { IfOk result (λ d. d ≡ spec.notice_of home.now gone.now) }
{
    if !gone.is(Ty::Subscription) {
        return Ok(None);
    }
    match gone.attrs().text(Attr::Su) {
        Some(su) => Ok(Some(notice_to(alloc, home, gone, su)?)),
        None => Ok(None),
    }
}

fn notice_to(alloc: Global, home: &Home, gone: &Resource, su: &Text) -> Result<Draft, OutOfMemory>
    requires { IsUtf8 su.now }
    ensures { IfOk result (λ d. d ≡ spec.notice_to home.now gone.now su.now) }
{
    Ok(Draft::of(DraftParts {
        subscription: None,
        target: su.copy(alloc)?,
        content: framed_deletion(alloc, reference_of(alloc, home, gone)?)?,
    }))
}

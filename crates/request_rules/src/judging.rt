//! The order in which a request to a resource is refused, and what one asks for that isn't.
ghost use Rattle.std.specs.Prelude.{◌≡◌, ◌++◌, None, Some, IfErr, IfOk, IsTrue, OnOk};
ghost use Rattle.std.specs.Prelude.{option_map};
ghost use Rattle.m2m_names.specs.Name.{is_originator};
ghost use Rattle.m2m_names.specs.declared.operations.Op.TheVariants as ops;
ghost use Rattle.tree_model.specs.Tree.{at, has};
ghost use Rattle.entity_model.specs.Places.{first_fault};
ghost use Rattle.entity_model.specs.Sound.{IsSoundEntity};
ghost use Rattle.request_rules.specs.Asked.{creation_of};
ghost use Rattle.request_rules.specs.Judged.{IsCreateBy, IsCreateOf, IsUpdateBy, IsUpdateOf, Judges};
ghost use Rattle.request_rules.specs.Order as spec;
ghost use Rattle.request_rules.specs.Requests as requests;

use crate::allowed::{AllowedCreate, AllowedUpdate};
use crate::asking::{child_ty, find, is_for, takes_child};
use crate::refusing::{judge_content, judge_creation, judge_edition};
use crate::rights::{is_subscribing, may_do_on};
use attribute_rules::{Writing, attributes_in};
use entity_model::Entity;
use m2m_names::{Op, Rsc, Ty};
use m2m_value::Members;
use primitive_json::Request;
use std::alloc::{AllocError as OutOfMemory, Global};
use tree_model::{Resource, Tree};

/// Why a request isn't done: by the first place that refuses it, with its status, or for want of
/// memory.
#[derive(Clone, Copy)]
pub enum Refusal {
    Fault(Rsc),
    OutOfMemory,
}

impl From<OutOfMemory> for Refusal {
    ghost use Rattle.std.specs.Prelude.{◌≡◌};
    ghost use Rattle.request_rules.specs.declared.judging.Refusal.{Refusal};

    ghost from_gives = { λ _ e. e ≡ Refusal.OutOfMemory };

    fn from(_: OutOfMemory) -> Self {
        Refusal::OutOfMemory
    }
}

// ---- the target

fn child_fault(request: &Request) -> Rsc
    ensures { result ≡ spec.child_fault request.now }
{
    if is_subscribing(request) {
        Rsc::NotSubscribable
    } else {
        Rsc::BadChild
    }
}

/// The status with which the right, or the types of target and child, refuse an operation, which
/// takes no memory to say.
pub fn judge_target<T: Tree>(
    op: Op,
    entity: &Entity<T>,
    originator: &[u8],
    request: &Request,
    target: &Resource,
) -> Option<Rsc>
    requires originator { IsTrue (is_originator originator.now) }
    requires there { IsTrue (has target.now.number entity.now.nodes) }
    requires stands { at target.now.number entity.now.nodes ≡ Some target.now }
    ensures { result ≡ first_fault
        (spec.target_places op entity.now originator.now request.now target.now) }
{
    if !may_do_on(op, entity, originator, request, target) {
        return Some(Rsc::NoPrivilege);
    }
    if !is_for(op, target.ty()) {
        return Some(Rsc::NotAllowed);
    }
    if !takes_child(op, request, target) {
        return Some(child_fault(request));
    }
    None
}

// The type of the child that a parent takes, or the status with which the right or the types refuse
// a Create.
fn judge_parent<T: Tree>(
    entity: &Entity<T>,
    originator: &[u8],
    request: &Request,
    parent: &Resource,
) -> Result<Ty, Rsc>
    requires originator { IsTrue (is_originator originator.now) }
    requires there { IsTrue (has parent.now.number entity.now.nodes) }
    requires stands { at parent.now.number entity.now.nodes ≡ Some parent.now }
    ensures ok { OnOk result (first_fault
        (spec.target_places ops.Create entity.now originator.now request.now parent.now) ≡ None) }
    ensures child { IfOk result (λ ty. requests.child_ty request.now ≡ Some ty) }
    ensures err { IfErr result (λ fault. first_fault
        (spec.target_places ops.Create entity.now originator.now request.now parent.now)
        ≡ Some fault) }
{
    if !may_do_on(Op::Create, entity, originator, request, parent) {
        return Err(Rsc::NoPrivilege);
    }
    match child_ty(request) {
        Some(ty) if parent.ty().takes(ty) => Ok(ty),
        _ => Err(child_fault(request)),
    }
}

// ---- the content

// The attributes that a content for a resource of the type names.
fn content_for(request: &Request, ty: Ty) -> Option<&Members>
    ensures { option_map (λ m. m.now) result ≡ requests.content_for request.now ty }
{
    attributes_in(ty, request.parts().pc.as_ref()?)
}

// ---- a Create

/// Judges a Create under the resource of a number, for an originator in its short form. Nothing is
/// changed.
pub fn judge_create<'a, T: Tree>(
    alloc: Global,
    entity: &'a Entity<T>,
    originator: &[u8],
    request: &'a Request,
    parent: u64,
) -> Result<AllowedCreate<'a>, Refusal>
    requires { IsTrue (is_originator originator.now) }
    ensures { Judges result (spec.fault_at ops.Create entity.now originator.now request.now parent)
        (IsCreateOf entity.now request.now parent) }
{
    let Some(parent) = find(entity, parent) else {
        return Err(Refusal::Fault(Rsc::NotFound));
    };
    match judge_parent(entity, originator, request, parent) {
        Ok(ty) => judge_child(alloc, entity, originator, request, parent, ty),
        Err(fault) => Err(Refusal::Fault(fault)),
    }
}

// By the content, and by what would be created.
fn judge_child<'a, T: Tree>(
    alloc: Global,
    entity: &Entity<T>,
    originator: &[u8],
    request: &'a Request,
    parent: &'a Resource,
    ty: Ty,
) -> Result<AllowedCreate<'a>, Refusal>
    requires originator { IsTrue (is_originator originator.now) }
    requires sound { IsSoundEntity entity.now }
    requires stands { at parent.now.number entity.now.nodes ≡ Some parent.now }
    requires child { requests.child_ty request.now ≡ Some ty }
    ensures { Judges result (first_fault
        (spec.content_places ops.Create entity.now request.now parent.now
        ++ spec.creation_places ops.Create entity.now originator.now request.now parent.now))
        (IsCreateOf entity.now request.now parent.now.number) }
{
    let Some(named) = content_for(request, ty) else {
        return Err(Refusal::Fault(Rsc::BadRequest));
    };
    judge_named(alloc, entity, originator, parent, ty, named)
}

// By the attributes that it names, and by what would be created.
fn judge_named<'a, T: Tree>(
    alloc: Global,
    entity: &Entity<T>,
    originator: &[u8],
    parent: &'a Resource,
    ty: Ty,
    named: &'a Members,
) -> Result<AllowedCreate<'a>, Refusal>
    requires originator { IsTrue (is_originator originator.now) }
    requires stands { at parent.now.number entity.now.nodes ≡ Some parent.now }
    ensures { Judges result
        (spec.fault_creation (creation_of entity.now originator.now ty parent.now named.now))
        (IsCreateBy entity.now ty parent.now named.now) }
{
    let links = judge_content(alloc, entity, Writing::Create, ty, named)?;
    judge_creation(alloc, entity, originator, ty, parent, named, links)
}

// ---- an Update

/// Judges an Update of the resource of a number, for an originator in its short form. Nothing is
/// changed.
pub fn judge_update<'a, T: Tree>(
    alloc: Global,
    entity: &'a Entity<T>,
    originator: &[u8],
    request: &'a Request,
    target: u64,
) -> Result<AllowedUpdate<'a>, Refusal>
    requires { IsTrue (is_originator originator.now) }
    ensures { Judges result (spec.fault_at ops.Update entity.now originator.now request.now target)
        (IsUpdateOf entity.now request.now target) }
{
    match find(entity, target) {
        Some(target) => judge_on(alloc, entity, originator, request, target),
        None => Err(Refusal::Fault(Rsc::NotFound)),
    }
}

fn judge_on<'a, T: Tree>(
    alloc: Global,
    entity: &Entity<T>,
    originator: &[u8],
    request: &'a Request,
    target: &'a Resource,
) -> Result<AllowedUpdate<'a>, Refusal>
    requires originator { IsTrue (is_originator originator.now) }
    requires sound { IsSoundEntity entity.now }
    requires stands { at target.now.number entity.now.nodes ≡ Some target.now }
    ensures { Judges result
        (spec.fault_on ops.Update entity.now originator.now request.now target.now)
        (IsUpdateOf entity.now request.now target.now.number) }
{
    match judge_target(Op::Update, entity, originator, request, target) {
        Some(fault) => Err(Refusal::Fault(fault)),
        None => judge_edit(alloc, entity, originator, request, target),
    }
}

// By the content.
fn judge_edit<'a, T: Tree>(
    alloc: Global,
    entity: &Entity<T>,
    originator: &[u8],
    request: &'a Request,
    target: &'a Resource,
) -> Result<AllowedUpdate<'a>, Refusal>
    requires sound { IsSoundEntity entity.now }
    requires stands { at target.now.number entity.now.nodes ≡ Some target.now }
    ensures { Judges result (first_fault
        (spec.content_places ops.Update entity.now request.now target.now
        ++ spec.creation_places ops.Update entity.now originator.now request.now target.now))
        (IsUpdateOf entity.now request.now target.now.number) }
{
    let Some(named) = content_for(request, target.ty()) else {
        return Err(Refusal::Fault(Rsc::BadRequest));
    };
    judge_edits(alloc, entity, target, named)
}

// By the attributes that it names.
fn judge_edits<'a, T: Tree>(
    alloc: Global,
    entity: &Entity<T>,
    target: &'a Resource,
    named: &'a Members,
) -> Result<AllowedUpdate<'a>, Refusal>
    ensures { Judges result (spec.fault_edit entity.now target.now named.now)
        (IsUpdateBy entity.now target.now named.now) }
{
    let links = judge_content(alloc, entity, Writing::Update, target.ty(), named)?;
    judge_edition(alloc, entity, target, named, links)
}

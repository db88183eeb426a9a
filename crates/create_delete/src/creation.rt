//! Creation (TS-0001, 10.2.1): what it prepares, and what it then does.
ghost use Rattle.std.specs.Prelude.{◌≡◌, ℕ, List, [], false, IfOk, IfErr, OnOk, OnErr, IsTrue};
ghost use Rattle.m2m_names.specs.Name.{is_originator};
ghost use Rattle.m2m_names.specs.declared.operations.Op.TheVariants.{Create};
ghost use Rattle.tree_model.specs.Changes.{creation_changes};
ghost use Rattle.entity_model.specs.Entity.{copy_requests};
ghost use Rattle.entity_model.specs.Places.{ComesTo};
ghost use Rattle.entity_model.specs.Sound.{IsSoundEntity};
ghost use Rattle.request_rules.specs.Creation.{size_named};
ghost use Rattle.request_rules.specs.Judged.{IsCreateBy, Judges, creation_for};
ghost use Rattle.request_rules.specs.Order.{fault_at};
ghost use Rattle.request_rules.specs.declared.judging.Refusal.{Refusal};
ghost use Rattle.create_delete.specs.Changing.{after_joining, create_effect, container_update_of};
ghost use Rattle.create_delete.specs.Joining.{IsAllowed, MayJoin, gone_by};
ghost use Rattle.create_delete.specs.Prepared.{IsPreparedCreate};
ghost use Rattle.create_delete.specs.Telling.{joined_told, told_effect_at};

use crate::building::{new_resource, next_state};
use crate::joining::{ContainerUpdate, put_new_resource};
use crate::notifying::{copies_may_follow, prepare_creation};
use crate::pushing::pushed_out;
use crate::telling::created_content;
use entity_model::{Entity, refuse, reply_to, tell};
use m2m_names::{Rsc, Ty};
use primitive_json::{Reply, Request};
use request_rules::{AllowedCreate, Refusal, judge_create};
use std::alloc::{AllocError as OutOfMemory, Global};
use tree_model::{Resource, Tree};

/// What a creation does, for which all memory is taken but that of the insert.
#[derive(Drop)]
pub(crate) struct PreparedCreate {
    pub(crate) resource: Resource,
    pub(crate) update: Option<ContainerUpdate>,
    /// Whether a copy may follow it.
    pub(crate) is_copied: bool,
    pub(crate) reply: Reply,
}

/// Creates a resource under the one of a number, for an originator in its short form, and tells
/// those who subscribed to that, or refuses to; 4004 where there is none. Where memory runs out,
/// nothing has changed.
#[tactic(auto, using(crate::proofs::EffectLemmas::told_refused_at))]
pub fn create<T: Tree>(
    alloc: Global,
    entity: &mut Entity<T>,
    originator: &[u8],
    request: &Request,
    parent: u64,
) -> Result<Reply, OutOfMemory>
    requires { IsTrue (is_originator originator.now) }
    ensures gives { ComesTo result entity.new
        (told_effect_at Create entity.old originator.now request.now parent) }
    ensures err { OnErr result (entity.new ≡ entity.old) }
{
    match plan(alloc, entity, originator, request, parent) {
        Ok(prepared) => apply(alloc, entity, prepared),
        Err(Refusal::Fault(fault)) => refuse(alloc, request, fault),
        Err(Refusal::OutOfMemory) => Err(OutOfMemory),
    }
}

// Judges it, and prepares what it does where no place refuses it.
fn plan<T: Tree>(
    alloc: Global,
    entity: &Entity<T>,
    originator: &[u8],
    request: &Request,
    parent: u64,
) -> Result<PreparedCreate, Refusal>
    requires { IsTrue (is_originator originator.now) }
    ensures { Judges result (fault_at Create entity.now originator.now request.now parent)
        (IsPreparedCreate entity.now originator.now request.now parent) }
{
    let create = judge_create(alloc, entity, originator, request, parent)?;
    prepare(alloc, entity, originator, request, create)
}

// The resource, what it does besides, and the reply.
fn prepare<T: Tree>(
    alloc: Global,
    entity: &Entity<T>,
    originator: &[u8],
    request: &Request,
    create: AllowedCreate<'_>,
) -> Result<PreparedCreate, Refusal>
    requires originator { IsTrue (is_originator originator.now) }
    requires sound { IsSoundEntity entity.now }
    requires allowed { IsAllowed (creation_for entity.now originator.now create) }
    requires parts { IsCreateBy entity.now create.ty create.parent.now create.named.now create }
    ensures may { IfOk result (λ p. MayJoin entity.now p.resource p.update) }
    ensures reply { IfOk result (λ p. p.reply
        ≡ (create_effect request.now (creation_for entity.now originator.now create.entry)).reply) }
    ensures unsent { IfOk result (λ p. p.is_copied ≡ false → copy_requests entity.now.home
        entity.now.nodes (creation_changes entity.now.nodes p.resource (gone_by p.update)) ≡ []) }
    ensures after { IfOk result (λ p. after_joining entity.now p.resource p.update
        ≡ (create_effect request.now (creation_for entity.now originator.now create.entry)).after) }
    ensures memory { IfErr result (λ f. f ≡ Refusal.OutOfMemory) }
{
    let update = container_update(alloc, entity, &create)?;
    let parent = create.parent;
    let resource = new_resource(alloc, entity, originator, create)?;
    let is_copied = copies_may_follow(parent, &resource);
    let told = created_content(alloc, entity, request, &resource)?;
    let reply = reply_to(alloc, request, Rsc::Created, told)?;
    Ok(PreparedCreate {
        resource,
        update,
        is_copied,
        reply,
    })
}

fn container_update<T: Tree>(
    alloc: Global,
    entity: &Entity<T>,
    create: &AllowedCreate,
) -> Result<Option<ContainerUpdate>, OutOfMemory>
    requires { create.now.size ≡ size_named create.now.named.now }
    ensures { IfOk result (λ f. (originator : List ℕ) →
        f ≡ container_update_of (creation_for entity.now originator create.now)) }
{
    if create.ty.number() != Ty::ContentInstance.number() {
        return Ok(None);
    }
    let container = create.parent;
    Ok(Some(ContainerUpdate {
        container: container.number(),
        state: next_state(container),
        gone: pushed_out(alloc, entity, container, Some(create.size))?,
    }))
}

// What it tells is prepared, with room in the outbox; then the insert alone takes memory, and comes
// first.
fn apply<T: Tree>(
    alloc: Global,
    entity: &mut Entity<T>,
    prepared: PreparedCreate,
) -> Result<Reply, OutOfMemory>
    requires may { MayJoin entity.old prepared.resource prepared.update }
    requires unsent { prepared.is_copied ≡ false → copy_requests entity.old.home entity.old.nodes
        (creation_changes entity.old.nodes prepared.resource (gone_by prepared.update)) ≡ [] }
    ensures reply { IfOk result (λ r. r ≡ prepared.reply) }
    ensures after { OnOk result
        (entity.new ≡ joined_told entity.old prepared.resource prepared.update) }
    ensures err { OnErr result (entity.new ≡ entity.old) }
{
    let told = prepare_creation(
        alloc,
        &entity.tree,
        &entity.home,
        &mut entity.outbox,
        &prepared.resource,
        &prepared.update,
        prepared.is_copied,
    )?;
    put_new_resource(
        &mut entity.tree,
        entity.last,
        prepared.resource,
        prepared.update,
    )?;
    entity.next += 1;
    tell(&mut entity.tree, &mut entity.outbox, entity.last, told);
    Ok(prepared.reply)
}

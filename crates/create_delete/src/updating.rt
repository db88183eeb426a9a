//! Updates (TS-0001, 10.2.4).
ghost use Rattle.std.specs.Prelude.{◌≡◌, IfOk, IfErr, OnOk, OnErr, IsTrue, Some};
ghost use Rattle.resource_model.specs.Resource.{ResourceData};
ghost use Rattle.tree_model.specs.Tree.{at};
ghost use Rattle.m2m_names.specs.Name.{is_originator};
ghost use Rattle.m2m_names.specs.declared.operations.Op.TheVariants.{Update};
ghost use Rattle.entity_model.specs.Places.{ComesTo};
ghost use Rattle.entity_model.specs.Sound.{IsSoundEntity};
ghost use Rattle.request_rules.specs.Judged.{IsUpdateBy, Judges};
ghost use Rattle.request_rules.specs.Order.{fault_at};
ghost use Rattle.request_rules.specs.declared.judging.Refusal.{Refusal};
ghost use Rattle.create_delete.specs.Changes.{attrs_of};
ghost use Rattle.create_delete.specs.Changing as spec;
ghost use Rattle.create_delete.specs.NewResource.{IsReplacement};
ghost use Rattle.create_delete.specs.Prepared.{IsPreparedUpdate};
ghost use Rattle.create_delete.specs.Telling.{told_effect_at, updated_told};
ghost use Rattle.create_delete.specs.Updating.{IsUpdatable};

use crate::editing::updated_resource;
use crate::listing::named_attrs;
use crate::notifying::prepare_update;
use crate::pushing::pushed_by;
use crate::telling::updated_content;
use entity_model::{Entity, refuse, reply_to, tell};
use m2m_names::Rsc;
use m2m_value::Numbers;
use primitive_json::{Reply, Request};
use request_rules::{AllowedUpdate, Refusal, judge_update};
use std::alloc::{AllocError as OutOfMemory, Global};
use tree_model::{AttrSet, Resource, Tree};

// What an update does, for which all memory is taken.
#[derive(Drop)]
pub(crate) struct PreparedUpdate {
    pub(crate) resource: Resource,
    pub(crate) named: AttrSet,
    pub(crate) gone: Numbers,
    pub(crate) reply: Reply,
}

/// Updates the resource of a number, for an originator in its short form, and tells those who
/// subscribed to that, or refuses to; 4004 where there is none. Where memory runs out, nothing has
/// changed.
#[tactic(auto, using(crate::proofs::EffectLemmas::told_refused_at))]
pub fn update<T: Tree>(
    alloc: Global,
    entity: &mut Entity<T>,
    originator: &[u8],
    request: &Request,
    target: u64,
) -> Result<Reply, OutOfMemory>
    requires { IsTrue (is_originator originator.now) }
    ensures gives { ComesTo result entity.new
        (told_effect_at Update entity.old originator.now request.now target) }
    ensures err { OnErr result (entity.new ≡ entity.old) }
{
    match plan(alloc, entity, originator, request, target) {
        Ok(prepared) => apply(alloc, entity, prepared),
        Err(Refusal::Fault(fault)) => refuse(alloc, request, fault),
        Err(Refusal::OutOfMemory) => Err(OutOfMemory),
    }
}

// Judges it, and prepares what it does where no place refuses it.
fn plan<T: Tree>(
    alloc: Global,
    entity: &Entity<T>,
    originator: &[u8],
    request: &Request,
    target: u64,
) -> Result<PreparedUpdate, Refusal>
    requires { IsTrue (is_originator originator.now) }
    ensures { Judges result (fault_at Update entity.now originator.now request.now target)
        (IsPreparedUpdate entity.now originator.now request.now target) }
{
    let update = judge_update(alloc, entity, originator, request, target)?;
    prepare(alloc, entity, request, update)
}

// The resource, what was named of it, what it pushes out, and the reply.
fn prepare<T: Tree>(
    alloc: Global,
    entity: &Entity<T>,
    request: &Request,
    update: AllowedUpdate<'_>,
) -> Result<PreparedUpdate, Refusal>
    requires sound { IsSoundEntity entity.now }
    requires allowed { IsUpdatable entity.now update.named.now update.target.now }
    requires parts { IsUpdateBy entity.now update.target.now update.named.now update }
    ensures may { IfOk result (λ p. IsReplacement entity.now p.resource) }
    ensures same { IfOk result (λ p. p.resource.number ≡ update.entry.target.now.number) }
    ensures named { IfOk result (λ p. p.named ≡ attrs_of update.entry.named.now) }
    ensures gone { IfOk result (λ p. p.gone ≡ spec.pushed_by entity.now p.resource) }
    ensures reply { IfOk result (λ p. p.reply ≡ (spec.update_effect entity.now request.now
        update.entry.named.now update.entry.target.now).reply) }
    ensures after { IfOk result (λ p.
        record entity.now { nodes = spec.nodes_updated entity.now p.resource }
        ≡ (spec.update_effect entity.now request.now
        update.entry.named.now update.entry.target.now).after) }
    ensures memory { IfErr result (λ f. f ≡ Refusal.OutOfMemory) }
{
    let members = update.named;
    let resource = updated_resource(alloc, entity, update)?;
    let named = named_attrs(alloc, members)?;
    let gone = pushed_by(alloc, entity, &resource)?;
    let told = updated_content(alloc, entity, request, members, &resource)?;
    let reply = reply_to(alloc, request, Rsc::Updated, told)?;
    Ok(PreparedUpdate {
        resource,
        named,
        gone,
        reply,
    })
}

// What it tells is prepared, with room in the outbox; then nothing can fail.
fn apply<T: Tree>(
    alloc: Global,
    entity: &mut Entity<T>,
    prepared: PreparedUpdate,
) -> Result<Reply, OutOfMemory>
    requires may { IsReplacement entity.old prepared.resource }
    requires gone { prepared.gone ≡ spec.pushed_by entity.old prepared.resource }
    ensures reply { IfOk result (λ r. r ≡ prepared.reply) }
    ensures after { (r : ResourceData) → at prepared.resource.number entity.old.nodes ≡ Some r
        → OnOk result (entity.new
        ≡ updated_told entity.old r prepared.resource prepared.named prepared.gone) }
    ensures err { OnErr result (entity.new ≡ entity.old) }
{
    let told = prepare_update(
        alloc,
        &entity.tree,
        &entity.home,
        &mut entity.outbox,
        &prepared.resource,
        &prepared.named,
        prepared.gone.entries(),
    )?;
    entity.tree.replace(prepared.resource);
    entity.tree.remove_all(prepared.gone.entries());
    tell(&mut entity.tree, &mut entity.outbox, entity.last, told);
    Ok(prepared.reply)
}

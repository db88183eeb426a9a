//! Deletion (TS-0001, 10.2.5).
ghost use Rattle.std.specs.Prelude.{◌≡◌, false, None, Some, IfOk, OnOk, OnErr, IsTrue};
ghost use Rattle.std.specs.Option.{option_map_or};
ghost use Rattle.m2m_names.specs.Name.{is_originator};
ghost use Rattle.m2m_names.specs.declared.codes.Rsc.TheVariants.{Deleted};
ghost use Rattle.m2m_names.specs.declared.operations.Op.TheVariants.{Delete};
ghost use Rattle.resource_model.specs.Resource.{ResourceData};
ghost use Rattle.tree_model.specs.Tree.{at};
ghost use Rattle.create_delete.specs.Telling.{removed_told, told_effect_at};
ghost use Rattle.request_rules.specs.Order.{fault_at};
ghost use Rattle.entity_model.specs.Places.{ComesTo};
ghost use Rattle.entity_model.specs.Places as places;
ghost use Rattle.entity_model.specs.Sound.{IsSoundEntity};
ghost use Rattle.request_rules.specs.Requests.{is_for};

use crate::notifying::prepare_deletion;
use entity_model::{Entity, refuse, reply_to, tell};
use m2m_names::{Op, Rsc};
use primitive_json::{Reply, Request};
use request_rules::{find, judge_target};
use std::alloc::{AllocError as OutOfMemory, Global};
use tree_model::Tree;

/// Deletes the resource of a number, with all that stands below it, for an originator in its short
/// form, and tells those who subscribed to that, or refuses to; 4004 where there is none. Where
/// memory runs out, nothing has changed.
#[tactic(auto, using(crate::proofs::PlannedLemmas::deletion_cases))]
pub fn delete<T: Tree>(
    alloc: Global,
    entity: &mut Entity<T>,
    originator: &[u8],
    request: &Request,
    target: u64,
) -> Result<Reply, OutOfMemory>
    requires { IsTrue (is_originator originator.now) }
    ensures gives { ComesTo result entity.new
        (told_effect_at Delete entity.old originator.now request.now target) }
    ensures err { OnErr result (entity.new ≡ entity.old) }
{
    if let Some(fault) = judge(entity, originator, request, target) {
        return refuse(alloc, request, fault);
    }
    let reply = prepare(alloc, request)?;
    apply(alloc, entity, target)?;
    Ok(reply)
}

// The status of the first place that refuses it.
fn judge<T: Tree>(
    entity: &Entity<T>,
    originator: &[u8],
    request: &Request,
    target: u64,
) -> Option<Rsc>
    requires { IsTrue (is_originator originator.now) }
    ensures fault { result ≡ fault_at Delete entity.now originator.now request.now target }
    ensures sound { IsSoundEntity entity.now }
{
    match find(entity, target) {
        Some(resource) => judge_target(Op::Delete, entity, originator, request, resource),
        None => Some(Rsc::NotFound),
    }
}

// The reply.
fn prepare(alloc: Global, request: &Request) -> Result<Reply, OutOfMemory>
    ensures { IfOk result (λ r. r ≡ places.reply_to request.now Deleted None) }
{
    reply_to(alloc, request, Rsc::Deleted, None)
}

// What the removal of a resource tells that may be deleted is prepared, with room in the outbox;
// then nothing can fail.
fn apply<T: Tree>(alloc: Global, entity: &mut Entity<T>, target: u64) -> Result<(), OutOfMemory>
    requires { IsTrue (option_map_or (λ (r : ResourceData). is_for Delete r.ty)
        (at target entity.old.nodes) false) }
    ensures ok { OnOk result (entity.new ≡ removed_told entity.old target) }
    ensures err { OnErr result (entity.new ≡ entity.old) }
{
    let told = prepare_deletion(
        alloc,
        &entity.tree,
        &entity.home,
        &mut entity.outbox,
        target,
    )?;
    entity.tree.remove_subtree(target);
    tell(&mut entity.tree, &mut entity.outbox, entity.last, told);
    Ok(())
}

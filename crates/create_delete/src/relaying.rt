//! A Notify to an application entity, which is handed on (TS-0001, 10.2.10).
ghost use Rattle.std.specs.Prelude.{◌≡◌, ℕ, List, [], ◌∷◌, IfOk, IsTrue, OnErr, OnOk};
ghost use Rattle.m2m_names.specs.Name.{is_originator};
ghost use Rattle.m2m_names.specs.StatusCodes.{is_success};
ghost use Rattle.m2m_names.specs.declared.operations.Op.TheVariants.{Notify};
ghost use Rattle.policy_eval.specs.Rights.{notify_bit};
ghost use Rattle.primitive_json.specs.declared.request.RequestParts.{RequestParts};
ghost use Rattle.entity_model.specs.Entity.{EntityData, with_notes};
ghost use Rattle.entity_model.specs.Places.{ComesTo};
ghost use Rattle.entity_model.specs.Sound.{IsSoundEntity};
ghost use Rattle.request_rules.specs.Order.{fault_at};
ghost use Rattle.request_rules.specs.Rights.{is_granted};
ghost use Rattle.create_delete.specs.Relaying as spec;
ghost use Rattle.create_delete.specs.Relaying.{notify_at};

use crate::building::originator_text;
use entity_model::{Entity, refuse, reply_to};
use m2m_names::{Op, Rsc};
use m2m_value::{Text, Val};
use primitive_json::{Kind, Note, NoteParts, Reply, Request, RequestParts};
use request_rules::{find, judge_target};
use std::alloc::{AllocError as OutOfMemory, Global};
use subscription_match::aim;
use tree_model::Tree;

/// Hands a Notify on to the application entity of a number, for an originator in its short form, or
/// refuses to: it is appended to the outbox, and no resource changes; 4004 where there is none, and
/// 4005 where it is another resource. Where memory runs out, nothing has changed.
#[tactic(auto, using(crate::proofs::RelayingLemmas::notify_cases))]
pub fn notify<T: Tree>(
    alloc: Global,
    entity: &mut Entity<T>,
    originator: &[u8],
    request: &Request,
    target: u64,
) -> Result<Reply, OutOfMemory>
    requires { IsTrue (is_originator originator.now) }
    ensures gives { ComesTo result entity.new
        (notify_at entity.old originator.now request.now target) }
    ensures err { OnErr result (entity.new ≡ entity.old) }
{
    if let Some(fault) = judge(entity, originator, request, target) {
        return refuse(alloc, request, fault);
    }
    let note = relayed(alloc, entity, originator, request)?;
    let reply = reply_to(alloc, request, Rsc::Ok, None)?;
    append(alloc, entity, note)?;
    Ok(reply)
}

// The status of the first place that refuses it.
fn judge<T: Tree>(
    entity: &Entity<T>,
    originator: &[u8],
    request: &Request,
    target: u64,
) -> Option<Rsc>
    requires { IsTrue (is_originator originator.now) }
    ensures { result ≡ fault_at Notify entity.now originator.now request.now target }
{
    match find(entity, target) {
        Some(resource) => judge_target(Op::Notify, entity, originator, request, resource),
        None => Some(Rsc::NotFound),
    }
}

// An equal content, where there is one.
fn copied_content(alloc: Global, request: &Request) -> Result<Option<Val>, OutOfMemory>
    ensures { IfOk result (λ c. c ≡ request.now.pc) }
{
    match &request.parts().pc {
        Some(content) => Ok(Some(content.copy(alloc)?)),
        None => Ok(None),
    }
}

// The request that is handed on.
fn request_relayed(
    alloc: Global,
    originator: &[u8],
    request: &Request,
) -> Result<Request, OutOfMemory>
    requires { IsTrue (is_originator originator.now) }
    ensures { IfOk result (λ r. r ≡ spec.request_relayed originator.now request.now) }
{
    let to = request.parts().to.copy(alloc)?;
    let fr = originator_text(alloc, originator)?;
    let pc = copied_content(alloc, request)?;
    Ok(Request::of(RequestParts {
        op: Op::Notify,
        to,
        fr: Some(fr),
        rqi: Text::of(Vec::new(alloc)),
        ty: None,
        pc,
        rqet: None,
        rt: None,
        rcn: None,
        fc: None,
        drt: None,
    }))
}

// The item that it becomes.
fn relayed<T: Tree>(
    alloc: Global,
    entity: &Entity<T>,
    originator: &[u8],
    request: &Request,
) -> Result<Note, OutOfMemory>
    requires { IsTrue (is_originator originator.now) }
    ensures { IfOk result (λ n. n ≡ spec.relayed entity.now originator.now request.now) }
{
    let to = request.parts().to.entries();
    let dest = aim(alloc, &entity.tree, &entity.home, to)?;
    let request = request_relayed(alloc, originator, request)?;
    Ok(Note::of(NoteParts {
        kind: Kind::Relay,
        dest,
        request,
    }))
}

// Room for one item is all that is taken.
fn append<T: Tree>(alloc: Global, entity: &mut Entity<T>, note: Note) -> Result<(), OutOfMemory>
    ensures ok { OnOk result (entity.new ≡ with_notes (note ∷ []) entity.old) }
    ensures err { OnErr result (entity.new ≡ entity.old) }
{
    entity.outbox.reserve(alloc, 1)?;
    entity.outbox.append(note, entity.last);
    Ok(())
}

/// A Notify changes no resource, and an entity stays sound; it succeeds only where the originator
/// may notify the target.
pub fn a_notify_changes_no_resource()
    ensures nodes { (e : EntityData) (originator : List ℕ) (request : RequestParts) (n : ℕ)
        → (notify_at e originator request n).after.nodes ≡ e.nodes }
    ensures sound { (e : EntityData) (originator : List ℕ) (request : RequestParts) (n : ℕ)
        → IsSoundEntity e → IsSoundEntity (notify_at e originator request n).after }
    ensures right { (e : EntityData) (originator : List ℕ) (request : RequestParts) (n : ℕ)
        → IsTrue (is_success (notify_at e originator request n).reply.rsc)
        → IsTrue (is_granted e originator notify_bit n) }
{}

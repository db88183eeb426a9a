//! Polls.
ghost use Rattle.std.specs.Prelude.{◌≡◌, IfOk, OnErr, IsTrue, option_map};
ghost use Rattle.m2m_names.specs.Name.{is_originator};
ghost use Rattle.tree_model.specs.Tree.{has};
ghost use Rattle.policy_eval.specs.Rights.{grants, retrieve_bit};
ghost use Rattle.entity_model.specs.Places.{ComesTo};
ghost use Rattle.retrieve_discover.specs.Polling as spec;

use crate::replies::succeed;
use entity_model::{Entity, object_of_one, refuse};
use m2m_names::{Op, Rsc};
use m2m_value::Val;
use policy_eval::granted;
use primitive_json::{Note, Reply, Request, write_request};
use std::alloc::{AllocError as OutOfMemory, Global};
use tree_model::Tree;

/// Answers a poll of the polling channel of a number: gives the request of the first item that
/// waits for the channel, and removes that item. Where none waits, it is refused with 4008 at once;
/// without RETRIEVE on the channel, which its owner alone has, with 4103. Where memory runs out,
/// nothing has changed.
pub fn poll<T: Tree>(
    alloc: Global,
    entity: &mut Entity<T>,
    originator: &[u8],
    request: &Request,
    channel: u64,
) -> Result<Reply, OutOfMemory>
    requires originator { IsTrue (is_originator originator.now) }
    requires resource { IsTrue (has channel entity.old.nodes) }
    ensures gives { ComesTo result entity.new
        (spec.polled entity.old originator.now request.now channel) }
    ensures err { OnErr result (entity.new ≡ entity.old) }
{
    if !may_poll(entity, originator, channel) {
        return refuse(alloc, request, Rsc::NoPrivilege);
    }
    give_first(alloc, entity, request, channel)
}

fn may_poll<T: Tree>(entity: &Entity<T>, originator: &[u8], channel: u64) -> bool
    requires originator { IsTrue (is_originator originator.now) }
    requires resource { IsTrue (has channel entity.now.nodes) }
    ensures { result
        ≡ grants entity.now.home entity.now.nodes originator.now retrieve_bit channel }
{
    let bit = Op::Retrieve.bit();
    granted(&entity.tree, &entity.home, originator, bit, channel)
}

// Gives the first item that waits for the channel. All memory is taken before the item is.
fn give_first<T: Tree>(
    alloc: Global,
    entity: &mut Entity<T>,
    request: &Request,
    channel: u64,
) -> Result<Reply, OutOfMemory>
    ensures gives { ComesTo result entity.new
        (spec.given_first channel entity.old request.now) }
    ensures err { OnErr result (entity.new ≡ entity.old) }
{
    let Some(content) = first_content(alloc, entity, channel)? else {
        return refuse(alloc, request, Rsc::RequestTimeout);
    };
    let reply = succeed(alloc, request, content)?;
    take_first(entity, channel);
    Ok(reply)
}

// The content that hands on the first item that waits for the channel.
fn first_content<T: Tree>(
    alloc: Global,
    entity: &Entity<T>,
    channel: u64,
) -> Result<Option<Val>, OutOfMemory>
    ensures { IfOk result (λ v. v
        ≡ option_map spec.handed_on (spec.first_waiting channel entity.now)) }
{
    match entity.outbox.first_for(channel) {
        Some(note) => Ok(Some(handed_on(alloc, note)?)),
        None => Ok(None),
    }
}

fn handed_on(alloc: Global, note: &Note) -> Result<Val, OutOfMemory>
    ensures { IfOk result (λ v. v ≡ spec.handed_on note.now) }
{
    let request = write_request(alloc, &note.parts().request)?;
    object_of_one(alloc, "m2m:rqp", request)
}

// Removes the first item that waits for the channel.
fn take_first<T: Tree>(entity: &mut Entity<T>, channel: u64)
    ensures { entity.new ≡ spec.without_waiting channel entity.old }
{
    let _note = entity.outbox.take_for(channel);
}

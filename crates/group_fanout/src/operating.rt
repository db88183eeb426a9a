//! One operation on one resource.
ghost use Rattle.std.specs.Prelude.{◌≡◌, IfOk, IsTrue, OnErr};
ghost use Rattle.m2m_names.specs.Name.{is_originator};
ghost use Rattle.m2m_names.specs.declared.operations.Op.TheVariants.{Retrieve};
ghost use Rattle.tree_model.specs.Tree.{at, has};
ghost use Rattle.entity_model.specs.Places.{ComesTo};
ghost use Rattle.group_fanout.specs.Operations.{found_effect, reading_reply, resource_effect};
ghost use Rattle.group_fanout.specs.Rights.{claimed_originator};

use create_delete::{create, delete, notify, update};
use entity_model::{Entity, refuse};
use m2m_names::{Op, Rsc};
use primitive_json::{Reply, Request};
use request_rules::{find, is_discovery};
use retrieve_discover::{discover, retrieve};
use std::alloc::{AllocError as OutOfMemory, Global};
use tree_model::Tree;

/// What a request of this originator gives on the resource of a number: the reply of its operation,
/// which changes the entity and tells of that, or a refusal; 4004 where there is none. Where memory
/// runs out, nothing has changed.
pub fn operate<T: Tree>(
    alloc: Global,
    entity: &mut Entity<T>,
    request: &Request,
    originator: &[u8],
    number: u64,
) -> Result<Reply, OutOfMemory>
    requires originator { IsTrue (is_originator originator.now) }
    requires claimed { claimed_originator entity.old.home request.now ≡ originator.now }
    ensures gives { ComesTo result entity.new
        (resource_effect entity.old request.now (at number entity.old.nodes)) }
    ensures err { OnErr result (entity.new ≡ entity.old) }
{
    match request.parts().op {
        Op::Create => create(alloc, entity, originator, request, number),
        Op::Retrieve => read_target(alloc, entity, request, originator, number),
        Op::Update => update(alloc, entity, originator, request, number),
        Op::Delete => delete(alloc, entity, originator, request, number),
        Op::Notify => notify(alloc, entity, originator, request, number),
    }
}

// What reading it gives.
fn read_target<T: Tree>(
    alloc: Global,
    entity: &Entity<T>,
    request: &Request,
    originator: &[u8],
    number: u64,
) -> Result<Reply, OutOfMemory>
    requires originator { IsTrue (is_originator originator.now) }
    requires claimed { claimed_originator entity.now.home request.now ≡ originator.now }
    ensures { IfOk result (λ r. r
        ≡ (found_effect Retrieve entity.now request.now (at number entity.now.nodes)).reply) }
{
    match find(entity, number) {
        Some(target) => read_resource(alloc, entity, request, originator, target.number()),
        None => refuse(alloc, request, Rsc::NotFound),
    }
}

fn read_resource<T: Tree>(
    alloc: Global,
    entity: &Entity<T>,
    request: &Request,
    originator: &[u8],
    number: u64,
) -> Result<Reply, OutOfMemory>
    requires originator { IsTrue (is_originator originator.now) }
    requires claimed { claimed_originator entity.now.home request.now ≡ originator.now }
    requires resource { IsTrue (has number entity.now.nodes) }
    ensures { IfOk result (λ r. r ≡ reading_reply entity.now request.now number) }
{
    let tree = &entity.tree;
    let home = &entity.home;
    if is_discovery(request) {
        discover(alloc, tree, home, originator, request, number)
    } else {
        retrieve(alloc, tree, home, originator, request, number)
    }
}

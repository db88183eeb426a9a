//! Retrieve.
ghost use Rattle.std.specs.Prelude.{◌≡◌, IfOk, IsTrue, Some};
ghost use Rattle.m2m_names.specs.Name.{is_originator};
ghost use Rattle.tree_model.specs.Tree.{at, has, is_tree};
ghost use Rattle.retrieve_discover.specs.Replies.{retrieved, retrieved_of};

use crate::conditions::meets_any;
use crate::contents::content_of_reply;
use crate::replies::succeed;
use entity_model::refuse;
use m2m_names::{Op, Rsc};
use policy_eval::granted_on;
use primitive_json::{Reply, Request};
use std::alloc::{AllocError as OutOfMemory, Global};
use tree_model::{Home, Resource, Tree};

/// Answers a Retrieve of the target: its attributes (result content 1, which is the default), these
/// and its descendants (4), these and references to its children (5), or the references alone (6).
/// Others than the target are shown with RETRIEVE on them, descendants with RETRIEVE on all
/// between, too. References have structured addresses, or resource ids where `drt` is 2. It is
/// refused without RETRIEVE on the target, and then where the target fails a condition of the
/// filter.
pub fn retrieve<T: Tree>(
    alloc: Global,
    tree: &T,
    home: &Home,
    originator: &[u8],
    request: &Request,
    target: u64,
) -> Result<Reply, OutOfMemory>
    requires originator { IsTrue (is_originator originator.now) }
    requires resource { IsTrue (has target (T.nodes tree.now)) }
    ensures { IfOk result (λ r. r
        ≡ retrieved home.now (T.nodes tree.now) originator.now request.now target) }
{
    match tree.get(target) {
        Some(resource) => retrieve_of(alloc, tree, home, originator, request, resource),
        None => refuse(alloc, request, Rsc::NotFound),
    }
}

fn retrieve_of<T: Tree>(
    alloc: Global,
    tree: &T,
    home: &Home,
    originator: &[u8],
    request: &Request,
    target: &Resource,
) -> Result<Reply, OutOfMemory>
    requires tree { IsTrue (is_tree (T.nodes tree.now)) }
    requires originator { IsTrue (is_originator originator.now) }
    requires target { at target.now.number (T.nodes tree.now) ≡ Some target.now }
    ensures { IfOk result (λ r. r
        ≡ retrieved_of home.now (T.nodes tree.now) originator.now request.now target.now) }
{
    if !granted_on(tree, home, originator, Op::Retrieve.bit(), target) {
        return refuse(alloc, request, Rsc::NoPrivilege);
    }
    if !meets_any(alloc, tree, request.parts().fc.as_ref(), target)? {
        return refuse(alloc, request, Rsc::NotFound);
    }
    let shown = content_of_reply(alloc, tree, home, originator, request, target)?;
    succeed(alloc, request, shown)
}

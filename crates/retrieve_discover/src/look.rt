//! By whom resources are looked at, and where.
ghost use Rattle.std.specs.Prelude.{◌≡◌, IfOk, IsTrue, Some};
ghost use Rattle.m2m_names.specs.Name.{is_originator};
ghost use Rattle.m2m_value.specs.Node.{HaveTextKeys};
ghost use Rattle.tree_model.specs.Tree.{at};
ghost use Rattle.known_rights.specs.Known.{IsKnown};
ghost use Rattle.retrieve_discover.specs.Contents as spec;

use known_rights::{Asker, Known, granted_besides};
use m2m_names::Op;
use m2m_value::Members;
use std::alloc::{AllocError as OutOfMemory, Global};
use tree_model::{Resource, Tree, shown};

/// By whom resources are looked at, where, and in which form they are addressed.
#[derive(Drop)]
pub(crate) struct Viewer<'a, T: Tree> {
    pub tree: &'a T,
    pub asker: &'a Asker<'a>,
    pub by_id: bool,
}

/// Whether the originator may retrieve the resource.
pub(crate) fn may_retrieve<T: Tree>(
    look: &Viewer<T>,
    resource: &Resource,
    known: &mut Known,
) -> bool
    requires originator { IsTrue (is_originator look.now.asker.now.originator) }
    requires resource { at resource.now.number (T.nodes look.now.tree.now) ≡ Some resource.now }
    requires known { IsKnown look.now.asker.now.home (T.nodes look.now.tree.now)
        look.now.asker.now.originator known.old }
    ensures value { result ≡ spec.may_retrieve look.now.asker.now.home (T.nodes look.now.tree.now)
        look.now.asker.now.originator resource.now }
    ensures known { IsKnown look.now.asker.now.home (T.nodes look.now.tree.now)
        look.now.asker.now.originator known.new }
{
    let bit = Op::Retrieve.bit();
    granted_besides(look.tree, look.asker, bit, resource, known)
}

/// The members of a resource's object: its attributes.
pub(crate) fn object_members<T: Tree>(
    alloc: Global,
    look: &Viewer<T>,
    resource: &Resource,
) -> Result<Members, OutOfMemory>
    ensures value { IfOk result (λ m. m
        ≡ spec.members look.now.asker.now.home (T.nodes look.now.tree.now) resource.now) }
    ensures keys { IfOk result (λ m. HaveTextKeys m) }
{
    let attrs = shown(alloc, look.tree, look.asker.home(), resource)?;
    tree_model::members_of(alloc, attrs)
}

//! The descendants that a Retrieve shows.
ghost use Rattle.std.specs.Prelude.{◌≡◌, ◌-◌, ◌<◌, IfOk, OnOk, IsTrue, Some};
ghost use Rattle.m2m_names.specs.Name.{is_originator};
ghost use Rattle.m2m_names.specs.Types.{ty_member};
ghost use Rattle.m2m_value.specs.Node.{HaveTextKeys};
ghost use Rattle.m2m_value.specs.View.{as_list};
ghost use Rattle.known_rights.specs.Known.{IsKnown};
ghost use Rattle.policy_eval.specs.Rules.{listed_in};
ghost use Rattle.tree_model.specs.Tree.{at, is_tree};
ghost use Rattle.retrieve_discover.specs.Contents as spec;
ghost use Rattle.retrieve_discover.specs.Descendants.{cut_forest, forest_size, forest_of};
ghost use Rattle.retrieve_discover.specs.Descendants.{reached_forest};

use crate::look::{Viewer, may_retrieve, object_members};
use known_rights::Known;
use m2m_names::Ty;
use m2m_value::{Items, MemberKey, Members, Val};
use std::alloc::{AllocError as OutOfMemory, Global};
use tree_model::{Resource, Tree, child_at};

/// Adds the objects of those descendants of a resource that are shown to the members of its own, as
/// many as are left.
#[cycle(descendants)]
pub(crate) fn add_descendants<T: Tree>(
    alloc: Global,
    look: &Viewer<T>,
    parent: u64,
    left: &mut usize,
    members: &mut Members,
    known: &mut Known,
) -> Result<(), OutOfMemory>
    requires tree { IsTrue (is_tree (T.nodes look.now.tree.now)) }
    requires originator { IsTrue (is_originator look.now.asker.now.originator) }
    requires known { IsKnown look.now.asker.now.home (T.nodes look.now.tree.now)
        look.now.asker.now.originator known.old }
    ensures members { OnOk result (members.new
        ≡ spec.with_forest (spec.members look.now.asker.now.home (T.nodes look.now.tree.now))
        (cut_forest (forest_of
        (spec.may_retrieve look.now.asker.now.home (T.nodes look.now.tree.now)
        look.now.asker.now.originator)
        parent (T.nodes look.now.tree.now)) left.old) members.old) }
    ensures left { OnOk result (left.new ≡ left.old - forest_size
        (forest_of
        (spec.may_retrieve look.now.asker.now.home (T.nodes look.now.tree.now)
        look.now.asker.now.originator)
        parent (T.nodes look.now.tree.now))) }
    ensures keys { OnOk result (HaveTextKeys members.old → HaveTextKeys members.new) }
    ensures known { OnOk result (IsKnown look.now.asker.now.home (T.nodes look.now.tree.now)
        look.now.asker.now.originator known.new) }
{
    for k in 0..look.tree.len() {
        if *left == 0 {
            return Ok(());
        }
        match child_at(look.tree, parent, k) {
            Some(child) => add_child(alloc, look, child, left, members, known)?,
            None => return Ok(()),
        }
    }
    Ok(())
}

// The same of a child and its descendants.
#[cycle(descendants)]
fn add_child<T: Tree>(
    alloc: Global,
    look: &Viewer<T>,
    child: &Resource,
    left: &mut usize,
    members: &mut Members,
    known: &mut Known,
) -> Result<(), OutOfMemory>
    requires tree { IsTrue (is_tree (T.nodes look.now.tree.now)) }
    requires originator { IsTrue (is_originator look.now.asker.now.originator) }
    requires child { at child.now.number (T.nodes look.now.tree.now) ≡ Some child.now }
    requires left { 0 < left.old }
    requires known { IsKnown look.now.asker.now.home (T.nodes look.now.tree.now)
        look.now.asker.now.originator known.old }
    ensures members { OnOk result (members.new
        ≡ spec.with_forest (spec.members look.now.asker.now.home (T.nodes look.now.tree.now))
        (cut_forest (reached_forest
        (spec.may_retrieve look.now.asker.now.home (T.nodes look.now.tree.now)
        look.now.asker.now.originator)
        (T.nodes look.now.tree.now) child.now) left.old) members.old) }
    ensures left { OnOk result (left.new ≡ left.old - forest_size (reached_forest
        (spec.may_retrieve look.now.asker.now.home (T.nodes look.now.tree.now)
        look.now.asker.now.originator)
        (T.nodes look.now.tree.now) child.now)) }
    ensures keys { OnOk result (HaveTextKeys members.old → HaveTextKeys members.new) }
    ensures known { OnOk result (IsKnown look.now.asker.now.home (T.nodes look.now.tree.now)
        look.now.asker.now.originator known.new) }
{
    if !may_retrieve(look, child, known) {
        return Ok(());
    }
    *left -= 1;
    let mut inner = object_members(alloc, look, child)?;
    add_descendants(alloc, look, child.number(), left, &mut inner, known)?;
    add_last(alloc, members, child.ty(), Val::of_obj(inner))
}

// Adds an object at the end of the list that the member of its type has.
fn add_last(alloc: Global, members: &mut Members, ty: Ty, object: Val) -> Result<(), OutOfMemory>
    ensures value { OnOk result (members.new
        ≡ spec.with_last (ty_member ty) object members.old) }
    ensures keys { OnOk result (HaveTextKeys members.old → HaveTextKeys members.new) }
{
    let key = MemberKey::named(ty.member());
    let mut objects = taken_elements(alloc, members.take(key.entries()))?;
    objects.push(object)?;
    members.put(key, Val::of_list(Items::of(objects)))
}

// The elements of a list; of what is no list none.
fn taken_elements(alloc: Global, value: Option<Val>) -> Result<Vec<Val>, OutOfMemory>
    ensures { IfOk result (λ vs. vs.items ≡ listed_in value) }
{
    match value {
        Some(value) => into_elements(alloc, value),
        None => Ok(Vec::new(alloc)),
    }
}

#[tactic(auto, using(crate::proofs::MemberLemmas::listed_rules))]
fn into_elements(alloc: Global, value: Val) -> Result<Vec<Val>, OutOfMemory>
    ensures { IfOk result (λ vs. vs.items ≡ listed_in (Some value)) }
{
    match value.into_list(alloc)? {
        Ok(items) => Ok(items.into_vec()),
        Err(_) => Ok(Vec::new(alloc)),
    }
}

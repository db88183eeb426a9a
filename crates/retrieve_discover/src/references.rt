//! References to the children of a resource.
ghost use Rattle.std.specs.Prelude.{◌≡◌, ◌++◌, [], ◌∷◌, IfOk, OnOk, IsTrue, IsUtf8, Some, map};
ghost use Rattle.std.specs.Prelude.{filter};
ghost use Rattle.m2m_names.specs.Name.{is_originator};
ghost use Rattle.tree_model.specs.Tree.{at, has, is_tree};
ghost use Rattle.addressing.specs.Names.{structured_of};
ghost use Rattle.m2m_value.specs.Data as plain;
ghost use Rattle.known_rights.specs.Known.{IsKnown};
ghost use Rattle.retrieve_discover.specs.Contents as spec;

use crate::look::{Viewer, may_retrieve};
use crate::paths::{address, go_down, path_to};
use known_rights::Known;
use m2m_value::{Items, MemberKey, Members, Val};
use std::alloc::{AllocError as OutOfMemory, Global};
use tree_model::{Resource, Tree, child_at};

/// The most references, or addresses, that a reply lists.
pub(crate) const MOST_LISTED: usize = 4_096;

/// References to the first of those children of a resource that the originator may retrieve.
pub(crate) fn references<T: Tree>(
    alloc: Global,
    look: &Viewer<T>,
    target: &Resource,
) -> Result<Val, OutOfMemory>
    requires tree { IsTrue (is_tree (T.nodes look.now.tree.now)) }
    requires originator { IsTrue (is_originator look.now.asker.now.originator) }
    requires target { at target.now.number (T.nodes look.now.tree.now) ≡ Some target.now }
    ensures { IfOk result (λ v. v ≡ spec.references look.now.asker.now.home
        (T.nodes look.now.tree.now)
        look.now.asker.now.originator look.now.by_id target.now.number) }
{
    Ok(Val::of_list(Items::of(all_references(alloc, look, target)?)))
}

fn all_references<T: Tree>(
    alloc: Global,
    look: &Viewer<T>,
    target: &Resource,
) -> Result<Vec<Val>, OutOfMemory>
    requires tree { IsTrue (is_tree (T.nodes look.now.tree.now)) }
    requires originator { IsTrue (is_originator look.now.asker.now.originator) }
    requires target { at target.now.number (T.nodes look.now.tree.now) ≡ Some target.now }
    ensures { IfOk result (λ v. v.items
        ≡ map (spec.reference look.now.by_id (T.nodes look.now.tree.now))
        (spec.referred look.now.asker.now.home (T.nodes look.now.tree.now)
        look.now.asker.now.originator
        target.now.number)) }
{
    let mut path = path_to(alloc, look.tree, target)?;
    let mut references = Vec::new(alloc);
    let mut known = Known::nothing(alloc);
    for k in 0..look.tree.len() {
        if references.len() >= MOST_LISTED {
            return Ok(references);
        }
        match child_at(look.tree, target.number(), k) {
            Some(child) => {
                add_reference(alloc, look, child, &mut path, &mut references, &mut known)?
            }
            None => return Ok(references),
        }
    }
    Ok(references)
}

// Adds a reference to a child, behind whose parent's path this is, where it may be retrieved.
fn add_reference<T: Tree>(
    alloc: Global,
    look: &Viewer<T>,
    child: &Resource,
    path: &mut Vec<u8>,
    references: &mut Vec<Val>,
    known: &mut Known,
) -> Result<(), OutOfMemory>
    requires tree { IsTrue (is_tree (T.nodes look.now.tree.now)) }
    requires originator { IsTrue (is_originator look.now.asker.now.originator) }
    requires child { at child.now.number (T.nodes look.now.tree.now) ≡ Some child.now }
    requires parent { IsTrue (has child.now.parent (T.nodes look.now.tree.now)) }
    requires path { path.old.items ≡ structured_of child.now.parent (T.nodes look.now.tree.now) }
    requires utf8 { IsUtf8 path.old.items }
    requires known { IsKnown look.now.asker.now.home (T.nodes look.now.tree.now)
        look.now.asker.now.originator known.old }
    ensures value { OnOk result (references.new.items ≡ references.old.items
        ++ map (spec.reference look.now.by_id (T.nodes look.now.tree.now))
        (filter
        (spec.may_retrieve look.now.asker.now.home (T.nodes look.now.tree.now)
        look.now.asker.now.originator)
        (child.now ∷ []))) }
    ensures path { OnOk result (path.new.items ≡ path.old.items) }
    ensures known { OnOk result (IsKnown look.now.asker.now.home (T.nodes look.now.tree.now)
        look.now.asker.now.originator known.new) }
{
    if !may_retrieve(look, child, known) {
        return Ok(());
    }
    let above = path.len();
    go_down(path, child)?;
    references.push(reference(alloc, look.tree, look.by_id, child, path)?)?;
    path.truncate(above);
    Ok(())
}

// A reference to a resource, whose path this is.
fn reference<T: Tree>(
    alloc: Global,
    tree: &T,
    by_id: bool,
    resource: &Resource,
    path: &[u8],
) -> Result<Val, OutOfMemory>
    requires path { path.now ≡ structured_of resource.now.number (T.nodes tree.now) }
    requires utf8 { IsUtf8 path.now }
    ensures { IfOk result (λ v. v ≡ spec.reference by_id (T.nodes tree.now) resource.now) }
{
    let mut members = Vec::with_capacity(alloc, 3)?;
    members.push((MemberKey::named("nm"), name_of(alloc, resource)?))?;
    members.push((
        MemberKey::named("typ"),
        Val::of_num(resource.ty().number() as i64),
    ))?;
    members.push((
        MemberKey::named("val"),
        address(alloc, tree, by_id, resource, path)?,
    ))?;
    Ok(Val::of_obj(Members::of(members)))
}

fn name_of(alloc: Global, resource: &Resource) -> Result<Val, OutOfMemory>
    ensures { IfOk result (λ v. v ≡ plain.text resource.now.name) }
{
    Ok(Val::of_text(resource.name().copy(alloc)?))
}

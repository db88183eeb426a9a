//! The walk of a discovery.
ghost use Rattle.std.specs.Prelude.{◌≡◌, ◌≤◌, ◌<◌, [], ◌∷◌, ◌++◌, OnOk, IsTrue, IsUtf8, Some};
ghost use Rattle.std.specs.Prelude.{length, map, filter, take};
ghost use Rattle.m2m_names.specs.Name.{is_originator};
ghost use Rattle.tree_model.specs.Tree.{at, has, is_tree};
ghost use Rattle.addressing.specs.Names.{structured_of};
ghost use Rattle.known_rights.specs.Known.{IsKnown};
ghost use Rattle.policy_eval.specs.Rights.{grants, discovery_bit};
ghost use Rattle.retrieve_discover.specs.Descendants.{below};
ghost use Rattle.retrieve_discover.specs.Findings as spec;

use crate::asked::Asked;
use crate::conditions::meets;
use crate::paths::{address, go_down};
use known_rights::{Asker, Known, granted_besides};
use m2m_names::DISCOVERY_BIT;
use m2m_value::Val;
use std::alloc::{AllocError as OutOfMemory, Global};
use tree_model::{Resource, Tree, child_at};

/// What a discovery looks for, by whom, in which form, and how many at most.
#[derive(Drop)]
pub(crate) struct Discovery<'a, T: Tree> {
    pub tree: &'a T,
    pub asker: &'a Asker<'a>,
    pub filter: &'a Asked<'a>,
    pub by_id: bool,
    pub limit: usize,
}

/// Adds what is found below a resource, whose path this is, up to the limit.
#[cycle(finding)]
pub(crate) fn find_below<T: Tree>(
    alloc: Global,
    wanted: &Discovery<T>,
    parent: u64,
    path: &mut Vec<u8>,
    found: &mut Vec<Val>,
    known: &mut Known,
) -> Result<(), OutOfMemory>
    requires tree { IsTrue (is_tree (T.nodes wanted.now.tree.now)) }
    requires originator { IsTrue (is_originator wanted.now.asker.now.originator) }
    requires parent { IsTrue (has parent (T.nodes wanted.now.tree.now)) }
    requires path { path.old.items ≡ structured_of parent (T.nodes wanted.now.tree.now) }
    requires utf8 { IsUtf8 path.old.items }
    requires room { length found.old.items ≤ wanted.now.limit }
    requires known { IsKnown wanted.now.asker.now.home (T.nodes wanted.now.tree.now)
        wanted.now.asker.now.originator known.old }
    ensures found { OnOk result (found.new.items ≡ take wanted.now.limit
        (found.old.items ++ map (spec.address wanted.now.by_id (T.nodes wanted.now.tree.now))
        (spec.all_found wanted.now.asker.now.home (T.nodes wanted.now.tree.now)
        wanted.now.asker.now.originator
        wanted.now.filter.now parent))) }
    ensures path { OnOk result (path.new.items ≡ path.old.items) }
    ensures known { OnOk result (IsKnown wanted.now.asker.now.home (T.nodes wanted.now.tree.now)
        wanted.now.asker.now.originator known.new) }
{
    for k in 0..wanted.tree.len() {
        if found.len() >= wanted.limit {
            return Ok(());
        }
        match child_at(wanted.tree, parent, k) {
            Some(child) => visit(alloc, wanted, child, path, found, known)?,
            None => return Ok(()),
        }
    }
    Ok(())
}

// The same of a child and what stands below it.
#[cycle(finding)]
fn visit<T: Tree>(
    alloc: Global,
    wanted: &Discovery<T>,
    child: &Resource,
    path: &mut Vec<u8>,
    found: &mut Vec<Val>,
    known: &mut Known,
) -> Result<(), OutOfMemory>
    requires tree { IsTrue (is_tree (T.nodes wanted.now.tree.now)) }
    requires originator { IsTrue (is_originator wanted.now.asker.now.originator) }
    requires child { at child.now.number (T.nodes wanted.now.tree.now) ≡ Some child.now }
    requires parent { IsTrue (has child.now.parent (T.nodes wanted.now.tree.now)) }
    requires path { path.old.items
        ≡ structured_of child.now.parent (T.nodes wanted.now.tree.now) }
    requires utf8 { IsUtf8 path.old.items }
    requires room { length found.old.items < wanted.now.limit }
    requires known { IsKnown wanted.now.asker.now.home (T.nodes wanted.now.tree.now)
        wanted.now.asker.now.originator known.old }
    ensures found { OnOk result (found.new.items ≡ take wanted.now.limit
        (found.old.items ++ map (spec.address wanted.now.by_id (T.nodes wanted.now.tree.now))
        (filter (spec.is_found wanted.now.asker.now.home (T.nodes wanted.now.tree.now)
        wanted.now.asker.now.originator wanted.now.filter.now)
        (child.now ∷ below child.now.number (T.nodes wanted.now.tree.now))))) }
    ensures path { OnOk result (path.new.items ≡ path.old.items) }
    ensures known { OnOk result (IsKnown wanted.now.asker.now.home (T.nodes wanted.now.tree.now)
        wanted.now.asker.now.originator known.new) }
{
    add_found(alloc, wanted, child, path, found, known)?;
    let Some(_) = wanted.tree.kid(child.number(), 0) else {
        return Ok(());
    };
    let above = path.len();
    go_down(path, child)?;
    find_below(alloc, wanted, child.number(), path, found, known)?;
    path.truncate(above);
    Ok(())
}

// Adds the address of a child, behind whose parent's path this is, where it is found.
fn add_found<T: Tree>(
    alloc: Global,
    wanted: &Discovery<T>,
    child: &Resource,
    path: &mut Vec<u8>,
    found: &mut Vec<Val>,
    known: &mut Known,
) -> Result<(), OutOfMemory>
    requires tree { IsTrue (is_tree (T.nodes wanted.now.tree.now)) }
    requires originator { IsTrue (is_originator wanted.now.asker.now.originator) }
    requires child { at child.now.number (T.nodes wanted.now.tree.now) ≡ Some child.now }
    requires parent { IsTrue (has child.now.parent (T.nodes wanted.now.tree.now)) }
    requires path { path.old.items
        ≡ structured_of child.now.parent (T.nodes wanted.now.tree.now) }
    requires utf8 { IsUtf8 path.old.items }
    requires known { IsKnown wanted.now.asker.now.home (T.nodes wanted.now.tree.now)
        wanted.now.asker.now.originator known.old }
    ensures found { OnOk result (found.new.items ≡ found.old.items
        ++ map (spec.address wanted.now.by_id (T.nodes wanted.now.tree.now))
        (filter (spec.is_found wanted.now.asker.now.home (T.nodes wanted.now.tree.now)
        wanted.now.asker.now.originator wanted.now.filter.now) (child.now ∷ []))) }
    ensures path { OnOk result (path.new.items ≡ path.old.items) }
    ensures known { OnOk result (IsKnown wanted.now.asker.now.home (T.nodes wanted.now.tree.now)
        wanted.now.asker.now.originator known.new) }
{
    if !is_found(wanted, child, known) {
        return Ok(());
    }
    let above = path.len();
    go_down(path, child)?;
    found.push(address(alloc, wanted.tree, wanted.by_id, child, path)?)?;
    path.truncate(above);
    Ok(())
}

// Its filter is tried before the right, which costs more.
fn is_found<T: Tree>(wanted: &Discovery<T>, resource: &Resource, known: &mut Known) -> bool
    requires originator { IsTrue (is_originator wanted.now.asker.now.originator) }
    requires resource { at resource.now.number (T.nodes wanted.now.tree.now) ≡ Some resource.now }
    requires known { IsKnown wanted.now.asker.now.home (T.nodes wanted.now.tree.now)
        wanted.now.asker.now.originator known.old }
    ensures value { result ≡ spec.is_found wanted.now.asker.now.home (T.nodes wanted.now.tree.now)
        wanted.now.asker.now.originator wanted.now.filter.now resource.now }
    ensures known { IsKnown wanted.now.asker.now.home (T.nodes wanted.now.tree.now)
        wanted.now.asker.now.originator known.new }
{
    meets(wanted.tree, wanted.filter, resource) && may_discover(wanted, resource, known)
}

fn may_discover<T: Tree>(wanted: &Discovery<T>, resource: &Resource, known: &mut Known) -> bool
    requires originator { IsTrue (is_originator wanted.now.asker.now.originator) }
    requires resource { at resource.now.number (T.nodes wanted.now.tree.now) ≡ Some resource.now }
    requires known { IsKnown wanted.now.asker.now.home (T.nodes wanted.now.tree.now)
        wanted.now.asker.now.originator known.old }
    ensures value { result ≡ grants wanted.now.asker.now.home (T.nodes wanted.now.tree.now)
        wanted.now.asker.now.originator discovery_bit resource.now.number }
    ensures known { IsKnown wanted.now.asker.now.home (T.nodes wanted.now.tree.now)
        wanted.now.asker.now.originator known.new }
{
    granted_besides(wanted.tree, wanted.asker, DISCOVERY_BIT, resource, known)
}

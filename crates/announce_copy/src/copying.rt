//! Which operations on copies follow a change.
ghost use Rattle.std.specs.Prelude.{◌≡◌, ◌++◌, ◌∷◌, [], Some, None, false, IfOk, OnOk, IsUtf8};
ghost use Rattle.std.specs.Prelude.{List, map};
ghost use Rattle.std.specs.List.{filter_map};
ghost use Rattle.m2m_names.specs.declared.operations.Op.TheVariants.{Create, Delete, Update};
ghost use Rattle.announce_copy.specs.Announced as announced;
ghost use Rattle.announce_copy.specs.Copies as spec;
ghost use Rattle.announce_copy.specs.Copies.{AreAddressed};
ghost use Rattle.announce_copy.specs.Peers.{AreNoted};
ghost use Rattle.resource_model.specs.Home.{HomeData};
ghost use Rattle.resource_model.specs.Resource.{ResourceData};
ghost use Rattle.tree_model.specs.Changes.{change_of};

use crate::announced::{copy_type, does_renew};
use crate::below::lists_peers;
use crate::contents::{copy_of, renewal_of};
use crate::drafts::{CopyDraft, CopyDrafts};
use crate::naming::{address_at, copy_path, parent_path};
use crate::peers::{Known, Peers, peers_of};
use m2m_names::Op;
use m2m_value::Text;
use std::alloc::{AllocError as OutOfMemory, Global};
use std::collections::BTreeMap;
use tree_model::{AttrSet, Change, Changes, Home, Resource, Tree};

// ---- at one CSE, at the end of a path

fn creation_at(
    alloc: Global,
    home: &Home,
    resource: &Resource,
    peer: &Text,
    path: &Text,
) -> Result<CopyDraft, OutOfMemory>
    requires peer { IsUtf8 peer.now }
    requires path { IsUtf8 path.now }
    ensures value { IfOk result (λ d. d ≡ (
      Create,
      peer.now ++ path.now,
      Some (announced.copy_type resource.now.ty),
      Some (announced.copy_of home.now resource.now),
    )) }
    ensures utf8 { IfOk result (λ d. IsUtf8 d.1) }
{
    let target = address_at(alloc, peer, path)?;
    let content = copy_of(alloc, resource, home)?;
    Ok((
        Op::Create,
        target,
        Some(copy_type(resource.ty())),
        Some(content),
    ))
}

fn renewal_at(
    alloc: Global,
    resource: &Resource,
    peer: &Text,
    path: &Text,
) -> Result<CopyDraft, OutOfMemory>
    requires peer { IsUtf8 peer.now }
    requires path { IsUtf8 path.now }
    ensures value { IfOk result (λ d. d ≡ (
      Update,
      peer.now ++ path.now,
      None,
      Some (announced.renewal_of resource.now),
    )) }
    ensures utf8 { IfOk result (λ d. IsUtf8 d.1) }
{
    let target = address_at(alloc, peer, path)?;
    let content = renewal_of(alloc, resource)?;
    Ok((Op::Update, target, None, Some(content)))
}

fn deletion_at(alloc: Global, peer: &Text, path: &Text) -> Result<CopyDraft, OutOfMemory>
    requires peer { IsUtf8 peer.now }
    requires path { IsUtf8 path.now }
    ensures value { IfOk result (λ d. d ≡ (Delete, peer.now ++ path.now, None, None)) }
    ensures utf8 { IfOk result (λ d. IsUtf8 d.1) }
{
    Ok((Op::Delete, address_at(alloc, peer, path)?, None, None))
}

// Creates the copy, unless the CSE is among the ones known.
fn add_creation(
    alloc: Global,
    home: &Home,
    resource: &Resource,
    known: &Peers,
    peer: &Text,
    path: &Text,
    drafts: &mut Vec<CopyDraft>,
) -> Result<(), OutOfMemory>
    requires peer { IsUtf8 peer.now }
    requires path { IsUtf8 path.now }
    requires leads { path.now ≡ spec.parent_path home.now resource.now }
    ensures value { OnOk result (drafts.new.items ≡ drafts.old.items
        ++ map (spec.creation_at home.now resource.now)
        (spec.others_than known.now (peer.now ∷ []))) }
    ensures utf8 { OnOk result (AreAddressed drafts.old.items → AreAddressed drafts.new.items) }
{
    if known.has(peer.entries()) {
        return Ok(());
    }
    drafts.push(creation_at(alloc, home, resource, peer, path)?)?;
    Ok(())
}

// Renews the copy, or leaves it as it is, where the CSE is among these, and removes it where not.
fn add_followed(
    alloc: Global,
    resource: &Resource,
    after: &Peers,
    renews: bool,
    peer: &Text,
    path: &Text,
    drafts: &mut Vec<CopyDraft>,
) -> Result<(), OutOfMemory>
    requires peer { IsUtf8 peer.now }
    requires path { IsUtf8 path.now }
    ensures value { OnOk result (drafts.new.items ≡ drafts.old.items
        ++ filter_map (spec.followed_at path.now renews after.now resource.now)
        (peer.now ∷ [])) }
    ensures utf8 { OnOk result (AreAddressed drafts.old.items → AreAddressed drafts.new.items) }
{
    if !after.has(peer.entries()) {
        drafts.push(deletion_at(alloc, peer, path)?)?;
        return Ok(());
    }
    if renews {
        drafts.push(renewal_at(alloc, resource, peer, path)?)?;
    }
    Ok(())
}

// ---- at several CSEs

fn add_creations_at(
    alloc: Global,
    home: &Home,
    resource: &Resource,
    known: &Peers,
    peers: &Peers,
    path: &Text,
    drafts: &mut Vec<CopyDraft>,
) -> Result<(), OutOfMemory>
    requires path { IsUtf8 path.now }
    requires leads { path.now ≡ spec.parent_path home.now resource.now }
    ensures value { OnOk result (drafts.new.items ≡ drafts.old.items
        ++ map (spec.creation_at home.now resource.now) (spec.others_than known.now peers.now)) }
    ensures utf8 { OnOk result (AreAddressed drafts.old.items → AreAddressed drafts.new.items) }
{
    let listed = peers.entries();
    for peer in listed {
        add_creation(alloc, home, resource, known, peer, path, drafts)?;
    }
    Ok(())
}

// Creates the copies of a resource at those of these CSEs that aren't among the ones known.
fn add_creations(
    alloc: Global,
    home: &Home,
    resource: &Resource,
    known: &Peers,
    peers: &Peers,
    drafts: &mut Vec<CopyDraft>,
) -> Result<(), OutOfMemory>
    ensures value { OnOk result (drafts.new.items ≡ drafts.old.items
        ++ map (spec.creation_at home.now resource.now) (spec.others_than known.now peers.now)) }
    ensures utf8 { OnOk result (AreAddressed drafts.old.items → AreAddressed drafts.new.items) }
{
    if peers.is_empty() {
        return Ok(());
    }
    let path = parent_path(alloc, home, resource)?;
    add_creations_at(alloc, home, resource, known, peers, &path, drafts)
}

fn add_followed_at(
    alloc: Global,
    resource: &Resource,
    before: &Peers,
    after: &Peers,
    renews: bool,
    path: &Text,
    drafts: &mut Vec<CopyDraft>,
) -> Result<(), OutOfMemory>
    requires { IsUtf8 path.now }
    ensures value { OnOk result (drafts.new.items ≡ drafts.old.items
        ++ filter_map (spec.followed_at path.now renews after.now resource.now) before.now) }
    ensures utf8 { OnOk result (AreAddressed drafts.old.items → AreAddressed drafts.new.items) }
{
    let listed = before.entries();
    for peer in listed {
        add_followed(alloc, resource, after, renews, peer, path, drafts)?;
    }
    Ok(())
}

// Renews the copies of a resource, or leaves them as they are, at those of the first CSEs that are
// among the second, and removes them at the others.
fn add_all_followed(
    alloc: Global,
    home: &Home,
    named: &AttrSet,
    resource: &Resource,
    before: &Peers,
    after: &Peers,
    drafts: &mut Vec<CopyDraft>,
) -> Result<(), OutOfMemory>
    ensures value { OnOk result (drafts.new.items ≡ drafts.old.items
        ++ filter_map (spec.followed_at (spec.copy_path home.now resource.now)
        (announced.does_renew named.now resource.now) after.now resource.now) before.now) }
    ensures utf8 { OnOk result (AreAddressed drafts.old.items → AreAddressed drafts.new.items) }
{
    if before.is_empty() {
        return Ok(());
    }
    let renews = does_renew(named.entries(), resource);
    let path = copy_path(alloc, home, resource)?;
    add_followed_at(alloc, resource, before, after, renews, &path, drafts)
}

// Removes the copies of a resource.
fn add_deletions(
    alloc: Global,
    home: &Home,
    resource: &Resource,
    peers: &Peers,
    drafts: &mut Vec<CopyDraft>,
) -> Result<(), OutOfMemory>
    ensures value { OnOk result (drafts.new.items ≡ drafts.old.items
        ++ map (spec.deletion_at (spec.copy_path home.now resource.now)) peers.now) }
    ensures utf8 { OnOk result (AreAddressed drafts.old.items → AreAddressed drafts.new.items) }
{
    if peers.is_empty() {
        return Ok(());
    }
    let path = copy_path(alloc, home, resource)?;
    let listed = peers.entries();
    for peer in listed {
        drafts.push(deletion_at(alloc, peer, &path)?)?;
    }
    Ok(())
}

// ---- of a change

// What an Update of these attributes makes that leaves a resource so, where it was announced to the
// first CSEs and is announced to the second.
fn add_changed(
    alloc: Global,
    home: &Home,
    named: &AttrSet,
    resource: &Resource,
    before: &Peers,
    after: &Peers,
    drafts: &mut Vec<CopyDraft>,
) -> Result<(), OutOfMemory>
    ensures value { OnOk result (drafts.new.items ≡ drafts.old.items
        ++ (filter_map (spec.followed_at (spec.copy_path home.now resource.now)
        (announced.does_renew named.now resource.now) after.now resource.now) before.now
        ++ map (spec.creation_at home.now resource.now)
        (spec.others_than before.now after.now))) }
    ensures utf8 { OnOk result (AreAddressed drafts.old.items → AreAddressed drafts.new.items) }
{
    add_all_followed(alloc, home, named, resource, before, after, drafts)?;
    add_creations(alloc, home, resource, before, after, drafts)
}

#[tactic(auto, using(crate::proofs::PeerLemmas::others_than_none))]
fn add_copies<T: Tree>(
    alloc: Global,
    tree: &T,
    home: &Home,
    change: Change<'_>,
    known: &mut Known,
    drafts: &mut Vec<CopyDraft>,
) -> Result<(), OutOfMemory>
    requires { AreNoted (T.nodes tree.now) known.old.entries }
    ensures known { OnOk result (AreNoted (T.nodes tree.now) known.new.entries) }
    ensures value { OnOk result (drafts.new.items ≡ drafts.old.items
        ++ spec.copies_of home.now (T.nodes tree.now) (change_of change.entry)) }
    ensures utf8 { OnOk result (AreAddressed drafts.old.items → AreAddressed drafts.new.items) }
{
    match change {
        Change::Created(new) => {
            let peers = peers_of(alloc, tree, known, new)?;
            add_creations(alloc, home, new, &Peers::new(alloc), &peers, drafts)
        }
        Change::Updated {
            before,
            after,
            named,
        } => {
            let old = peers_of(alloc, tree, known, before)?;
            let new = peers_of(alloc, tree, known, after)?;
            add_changed(alloc, home, named, after, &old, &new, drafts)
        }
        Change::Deleted(gone) => {
            let peers = peers_of(alloc, tree, known, gone)?;
            add_deletions(alloc, home, gone, &peers, drafts)
        }
    }
}

/// What is sent for a change, to each CSE in the `at` of the resource once: first to those to which
/// it was announced before, then to those to which it is announced newly. The tree is the one
/// before the operation. A resource without `at` takes no memory.
#[tactic(auto, using(crate::proofs::PeerLemmas::none_noted))]
pub fn copies<T: Tree>(
    alloc: Global,
    tree: &T,
    home: &Home,
    change: Change<'_>,
) -> Result<CopyDrafts, OutOfMemory>
    ensures { IfOk result (λ d. d
        ≡ spec.copies_of home.now (T.nodes tree.now) (change_of change.entry)) }
{
    let mut known = BTreeMap::new(alloc);
    let mut drafts = Vec::new(alloc);
    add_copies(alloc, tree, home, change, &mut known, &mut drafts)?;
    Ok(CopyDrafts::of(drafts))
}

// Whether something may be sent for a change: what it found, or what it leaves, lists a CSE in
// `at`.
fn may_send(change: Change<'_>) -> bool
    ensures { result ≡ false → (home : HomeData) (nodes : List ResourceData)
        → spec.copies_of home nodes (change_of change.entry) ≡ [] }
{
    match change {
        Change::Created(new) => lists_peers(new),
        Change::Updated { before, after, .. } => lists_peers(before) || lists_peers(after),
        Change::Deleted(gone) => lists_peers(gone),
    }
}

// What is sent for a change, and for those behind it.
#[tactic(auto, using(crate::proofs::PeerLemmas::none_noted))]
fn copies_from<T: Tree>(
    alloc: Global,
    tree: &T,
    home: &Home,
    first: Change<'_>,
    others: Changes<'_, T>,
) -> Result<CopyDrafts, OutOfMemory>
    ensures { IfOk result (λ d. d
        ≡ spec.copies_of home.now (T.nodes tree.now) (change_of first.entry)
        ++ spec.copies_of_all home.now (T.nodes tree.now) others.entry) }
{
    let mut known = BTreeMap::new(alloc);
    let mut drafts = Vec::new(alloc);
    add_copies(alloc, tree, home, first, &mut known, &mut drafts)?;
    for change in others {
        add_copies(alloc, tree, home, change, &mut known, &mut drafts)?;
    }
    Ok(CopyDrafts::of(drafts))
}

/// What is sent for an operation's changes, in their order. The tree is the one before the
/// operation. It takes no memory before the first change of a resource that lists a CSE in `at`.
pub fn all_copies<T: Tree>(
    alloc: Global,
    tree: &T,
    home: &Home,
    changes: Changes<'_, T>,
) -> Result<CopyDrafts, OutOfMemory>
    ensures { IfOk result (λ d. d
        ≡ spec.copies_of_all home.now (T.nodes tree.now) changes.entry) }
{
    let mut left = changes;
    while let Some(change) = left.next() {
        if may_send(change) {
            return copies_from(alloc, tree, home, change, left);
        }
    }
    Ok(CopyDrafts::of(Vec::new(alloc)))
}

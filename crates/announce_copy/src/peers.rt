//! To which CSEs a resource is announced.
ghost use Rattle.std.specs.Prelude.{◌≡◌, ◌++◌, ◌∷◌, [], Some, IfOk, IfSome, IsSome, OnOk, filter};
ghost use Rattle.policy_eval.specs.Rules.{texts_of};
ghost use Rattle.announce_copy.specs.Peers as spec;

use m2m_names::{Attr, Ty};
use m2m_value::{Text, Val};
use policy_eval::listed_in;
use std::alloc::{AllocError as OutOfMemory, Global};
use std::collections::{BTreeMap, BTreeSet};
use std::marker::Model;
use tree_model::{Resource, Tree};

/// The CSE-IDs of some CSEs, each once, in order. They stand in a set too, so that one is compared
/// with few of them however many there are. Clauses see the list.
#[derive(Drop)]
pub(crate) struct Peers {
    listed: Vec<Text>,
    set: BTreeSet<Vec<u8>>,
}

impl Model for Peers {
    ghost use Rattle.std.specs.Prelude.{List, ℕ};
    ghost use Rattle.announce_copy.specs.Peers.{AreTexts};

    ghost Value = { List (List ℕ) };

    ghost view = { λ p. p.listed.items };

    ghost invariant = { λ p. AreTexts p.listed.items p.set };
}

impl Peers {
    ghost use Rattle.std.specs.Prelude.{◌≡◌, ◌++◌, ◌∷◌, [], IfOk, IsTrue, IsUtf8};
    ghost use Rattle.std.specs.Bool.{OnFalse};
    ghost use Rattle.std.specs.List.{AllByRecursion};
    ghost use Rattle.announce_copy.specs.Peers as spec;

    /// None; it takes no memory.
    pub(crate) fn new(alloc: Global) -> Peers
        ensures { result ≡ [] }
    {
        Peers {
            listed: Vec::new(alloc),
            set: BTreeSet::new(alloc),
        }
    }

    /// Whether there is none.
    pub(crate) fn is_empty(&self) -> bool
        ensures { IsTrue result → self.now ≡ [] }
    {
        self.listed.is_empty()
    }

    /// Their CSE-IDs.
    pub(crate) fn entries(&self) -> &[Text]
        ensures all { result.now ≡ self.now }
        ensures utf8 { AllByRecursion IsUtf8 self.now }
    {
        &self.listed
    }

    /// Whether one of them has this CSE-ID.
    pub(crate) fn has(&self, peer: &[u8]) -> bool
        ensures { result ≡ spec.is_one_of self.now peer.now }
    {
        self.set.contains(peer)
    }

    // These, and behind them one more, unless it is one of them.
    fn with(self, alloc: Global, peer: &Text) -> Result<Peers, OutOfMemory>
        requires { IsUtf8 peer.now }
        ensures { IfOk result (λ p. p ≡ self ++ spec.new_after self (peer.now ∷ [])) }
    {
        if self.has(peer.entries()) {
            return Ok(self);
        }
        let Peers {
            mut listed,
            mut set,
        } = self;
        set.insert(Vec::from_slice(alloc, peer.entries())?)?;
        listed.push(peer.copy(alloc)?)?;
        Ok(Peers { listed, set })
    }
}

/// What is known of containers: the CSEs to which those of some numbers are announced.
pub(crate) type Known = BTreeMap<u64, Peers>;

// These, and the one that a value names, unless it is one of them.
fn with_named(alloc: Global, peers: Peers, value: &Val) -> Result<Peers, OutOfMemory>
    ensures { IfOk result (λ p. p ≡ peers ++ spec.new_after peers (texts_of (value.now ∷ []))) }
{
    match value.as_text() {
        Some(peer) => peers.with(alloc, peer),
        None => Ok(peers),
    }
}

// Those that values name, each once.
fn all_named(alloc: Global, values: &[Val]) -> Result<Peers, OutOfMemory>
    ensures { IfOk result (λ p. p ≡ spec.each_once (texts_of values.now)) }
{
    let mut peers = Peers::new(alloc);
    for value in values {
        peers = with_named(alloc, peers, value)?;
    }
    Ok(peers)
}

// The same, where the container is announced to it.
fn with_admitted(
    alloc: Global,
    container: &Peers,
    peers: Peers,
    value: &Val,
) -> Result<Peers, OutOfMemory>
    ensures { IfOk result (λ p. p ≡ peers ++ spec.new_after peers
        (filter (spec.is_one_of container.now) (texts_of (value.now ∷ [])))) }
{
    match value.as_text() {
        Some(peer) if container.has(peer.entries()) => peers.with(alloc, peer),
        _ => Ok(peers),
    }
}

// Of those that values name the ones to which the container is announced, each once.
fn all_admitted(alloc: Global, container: &Peers, values: &[Val]) -> Result<Peers, OutOfMemory>
    ensures { IfOk result (λ p. p
        ≡ spec.each_once (filter (spec.is_one_of container.now) (texts_of values.now))) }
{
    let mut peers = Peers::new(alloc);
    for value in values {
        peers = with_admitted(alloc, container, peers, value)?;
    }
    Ok(peers)
}

// The same, where it is known to which CSEs the container is announced.
fn admitted_by(
    alloc: Global,
    known: &Known,
    container: u64,
    values: &[Val],
) -> Result<Peers, OutOfMemory>
    requires { IsSome (spec.noted_at known.now.entries container) }
    ensures { IfSome (spec.noted_at known.now.entries container) (λ listed. IfOk result (λ p. p
        ≡ spec.each_once (filter (spec.is_one_of listed) (texts_of values.now)))) }
{
    match known.get(&container) {
        Some(listed) => all_admitted(alloc, listed, values),
        None => Ok(Peers::new(alloc)),
    }
}

// Those that the resource of a number lists.
fn peers_at<T: Tree>(alloc: Global, tree: &T, number: u64) -> Result<Peers, OutOfMemory>
    ensures { IfOk result (λ p. p ≡ spec.peers_at number (T.nodes tree.now)) }
{
    match tree.get(number) {
        Some(resource) => all_named(alloc, listed_in(resource.attrs().get(Attr::At))),
        None => Ok(Peers::new(alloc)),
    }
}

// Notes to which CSEs a container is announced, once.
fn note_container<T: Tree>(
    alloc: Global,
    tree: &T,
    known: &mut Known,
    container: u64,
) -> Result<(), OutOfMemory>
    requires { spec.AreNoted (T.nodes tree.now) known.old.entries }
    ensures known { OnOk result (spec.AreNoted (T.nodes tree.now) known.new.entries) }
    ensures there { OnOk result (spec.noted_at known.new.entries container
        ≡ Some (spec.peers_at container (T.nodes tree.now))) }
{
    if known.contains_key(&container) {
        return Ok(());
    }
    let peers = peers_at(alloc, tree, container)?;
    known.insert(container, peers)?;
    Ok(())
}

/// The CSEs to which a resource is announced. What is known of containers grows by that of an
/// instance. Where the resource has no `at`, nothing else is looked at, and no memory is taken.
pub(crate) fn peers_of<T: Tree>(
    alloc: Global,
    tree: &T,
    known: &mut Known,
    resource: &Resource,
) -> Result<Peers, OutOfMemory>
    requires { spec.AreNoted (T.nodes tree.now) known.old.entries }
    ensures value { IfOk result (λ p. p ≡ spec.peers_of (T.nodes tree.now) resource.now) }
    ensures known { OnOk result (spec.AreNoted (T.nodes tree.now) known.new.entries) }
{
    let values = listed_in(resource.attrs().get(Attr::At));
    if values.is_empty() {
        return Ok(Peers::new(alloc));
    }
    if !resource.is(Ty::ContentInstance) {
        return all_named(alloc, values);
    }
    let container = resource.parent();
    note_container(alloc, tree, known, container)?;
    admitted_by(alloc, known, container, values)
}

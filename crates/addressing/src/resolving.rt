//! What an address names in a tree.
ghost use Rattle.std.specs.Prelude.{◌≡◌, ◌+◌, ◌*◌, ◌<◌, ◌≤◌, length, map, None, Ok, Some};
ghost use Rattle.std.specs.Prelude.{bytes_eq, if◌then◌else◌};
ghost use Rattle.addressing.specs.Laws.{named_here};
ghost use Rattle.addressing.specs.Names as spec;
ghost use Rattle.addressing.specs.Names.{IsLocal, segments_of};
ghost use Rattle.tree_model.specs.Tree.{child_of};

use crate::addr::Addr;
use crate::segments::Segments;
use crate::spot::Spot;
use m2m_names::Ty;
use std::marker::Brand;
use std::sync::ledger::{Blank, Ledger};
use tree_model::{Resource, Steps, Tree, resource_of_id, typed_at};

/// What a local address names. It asks for one child for each segment at most, and else looks up.
#[tactic(auto, using(crate::proofs::CostLemmas::cost_of_parts))]
pub fn resolve<T: Tree, L: Ledger>(tree: &T, addr: &Addr, steps: &mut Steps<L>) -> Option<Spot>
    requires { IsLocal addr.now }
    ensures value { result ≡ spec.spot_of (segments_of addr.now) (T.nodes tree.now) }
    ensures counted { steps.old ≤ steps.new }
    ensures cost { steps.new ≤ steps.old + T.child_steps * length (segments_of addr.now) }
{
    match addr {
        Addr::Local(segments) => spot_of(tree, segments.entries(), steps),
        _ => unreachable!(),
    }
}

/// What an address names here, for who counts no steps.
pub fn name_spot<T: Tree>(tree: &T, addr: &Addr) -> Option<Spot>
    ensures { result ≡ named_here (Ok addr.now) (T.nodes tree.now) }
{
    match addr {
        Addr::Local(segments) => name_segments(tree, segments),
        Addr::Foreign(_) | Addr::OtherProvider => None,
    }
}

/// What the segments of a local address name, for who counts no steps.
pub fn name_segments<T: Tree>(tree: &T, segments: &Segments) -> Option<Spot>
    ensures { result ≡ spec.spot_of segments.now (T.nodes tree.now) }
{
    named::<T, Brand>(tree, segments, Blank::new(1))
}

fn named<T: Tree, L: Ledger>(tree: &T, segments: &Segments, blank: Blank) -> Option<Spot>
    requires name { blank.name ≡ L.name }
    requires parts { blank.parts ≡ L.parts }
    requires some { 0 < blank.parts }
    ensures { result ≡ spec.spot_of segments.now (T.nodes tree.now) }
{
    let mut steps = Steps::<L>::new(blank);
    spot_of(tree, segments.entries(), &mut steps)
}

#[tactic(auto, using(crate::proofs::CostLemmas::costs_of_looking))]
fn spot_of<T: Tree, L: Ledger>(tree: &T, segments: &[&[u8]], steps: &mut Steps<L>) -> Option<Spot>
    ensures value { result ≡ spec.spot_of (map (λ s. s.now) segments.now) (T.nodes tree.now) }
    ensures counted { steps.old ≤ steps.new }
    ensures cost { steps.new ≤ steps.old + T.child_steps * length segments.now }
{
    match segments {
        [] => Some(Spot::Resource(tree.kid(0, 0)?)),
        [segment, names @ ..] => {
            let number = first_named(tree, segment, steps)?;
            spot_behind(tree, number, names, steps)
        }
    }
}

fn first_named<T: Tree, L: Ledger>(tree: &T, segment: &[u8], steps: &mut Steps<L>) -> Option<u64>
    ensures value { result ≡ spec.first_named segment.now (T.nodes tree.now) }
    ensures counted { steps.old ≤ steps.new }
    ensures cost { steps.new ≤ steps.old + T.child_steps }
{
    if let Some(base) = base_named(tree, segment) {
        return Some(base);
    }
    if let Some(number) = id_named(tree, segment) {
        return Some(number);
    }
    tree.ae(segment)
}

/// The CSEBase by its name or `-`.
fn base_named<T: Tree>(tree: &T, segment: &[u8]) -> Option<u64>
    ensures { result ≡ spec.base_named segment.now (T.nodes tree.now) }
{
    if segment == b"-".as_slice() {
        tree.kid(0, 0)
    } else {
        first_by_name(tree, segment)
    }
}

// The first resource, which alone stands under none, by its name. No name is looked up.
fn first_by_name<T: Tree>(tree: &T, name: &[u8]) -> Option<u64>
    ensures { result ≡ child_of 0 name.now (T.nodes tree.now) }
{
    if tree.len() == 0 {
        return None;
    }
    match tree.nth(0) {
        Some(base) => number_by_name(base, name),
        None => None,
    }
}

// The number of a resource that has this name.
fn number_by_name(resource: &Resource, name: &[u8]) -> Option<u64>
    ensures { result ≡ (if bytes_eq resource.now.name name.now
        then Some resource.now.number else None) }
{
    if resource.name().entries() == name {
        Some(resource.number())
    } else {
        None
    }
}

/// The resource of an id.
fn id_named<T: Tree>(tree: &T, segment: &[u8]) -> Option<u64>
    ensures { result ≡ spec.id_named segment.now (T.nodes tree.now) }
{
    let named = resource_of_id(tree, segment)?;
    Some(named.number())
}

fn is_at<T: Tree>(tree: &T, ty: Ty, number: u64) -> bool
    ensures { result ≡ spec.is_at ty number (T.nodes tree.now) }
{
    typed_at(tree, ty, number).is_some()
}

/// What names say from a resource on, the first of which has place 1.
#[tactic(auto, using(crate::proofs::CostLemmas::cost_so_far))]
fn spot_behind<T: Tree, L: Ledger>(
    tree: &T,
    number: u64,
    names: &[&[u8]],
    steps: &mut Steps<L>,
) -> Option<Spot>
    ensures value { result
        ≡ spec.spot_from 1 number (map (λ n. n.now) names.now) (T.nodes tree.now) }
    ensures counted { steps.old ≤ steps.new }
    ensures cost { steps.new ≤ steps.old + T.child_steps * length names.now }
{
    let mut at = number;
    for (place, name) in names.iter().enumerate() {
        if is_fan(tree, at, name) {
            return Some(Spot::Fan {
                group: at,
                rest: place as u64 + 2,
            });
        }
        if is_poll(tree, at, name) {
            return poll_point(at, &names[place + 1..]);
        }
        at = next_named(tree, at, name, steps)?;
    }
    Some(Spot::Resource(at))
}

fn is_fan<T: Tree>(tree: &T, number: u64, name: &[u8]) -> bool
    ensures { result ≡ spec.is_fan number name.now (T.nodes tree.now) }
{
    name == b"fopt".as_slice() && is_at(tree, Ty::Group, number)
}

fn is_poll<T: Tree>(tree: &T, number: u64, name: &[u8]) -> bool
    ensures { result ≡ spec.is_poll number name.now (T.nodes tree.now) }
{
    name == b"pcu".as_slice() && is_at(tree, Ty::PollingChannel, number)
}

fn poll_point(number: u64, behind: &[&[u8]]) -> Option<Spot>
    ensures { result ≡ spec.poll_point number (map (λ n. n.now) behind.now) }
{
    match behind {
        [] => Some(Spot::Poll(number)),
        _ => None,
    }
}

/// The newest or the oldest instance, or the child of a name.
fn next_named<T: Tree, L: Ledger>(
    tree: &T,
    number: u64,
    name: &[u8],
    steps: &mut Steps<L>,
) -> Option<u64>
    ensures value { result ≡ spec.next_named number name.now (T.nodes tree.now) }
    ensures counted { steps.old ≤ steps.new }
    ensures cost { steps.new ≤ steps.old + T.child_steps }
{
    if name == b"la".as_slice() {
        return tree.instance(number, true);
    }
    if name == b"ol".as_slice() {
        return tree.instance(number, false);
    }
    tree.child(number, name, steps)
}

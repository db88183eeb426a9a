//! Going over the subscriptions of two resources. Each look at a place among them is a step, also
//! where nothing stands at it.
ghost use Rattle.std.specs.Prelude.{◌≡◌, ◌∷◌, [], ◌+◌, ◌^◌, ◌<◌, filter, option_map};
ghost use Rattle.std.specs.Prelude.{slice_get, IfSome, IsTrue, MatchOption};
ghost use Rattle.subscription_match.specs.Matching.{is_sub_of_either};
ghost use Rattle.subscription_match.specs.Watching as spec;
ghost use Rattle.tree_model.specs.Tree.{is_tree};

use std::marker::Model;
use std::sync::ledger::Ledger;
use tree_model::{Resource, Steps, Tree, subscription_at};

/// The subscriptions under a resource, where one is given, seen as the list of those that are left.
#[derive(Drop)]
struct Under<'a, T: Tree> {
    tree: &'a T,
    parent: Option<u64>,
    // The first of those that are left, and its place.
    first: Option<&'a Resource>,
    place: u64,
}

impl<'a, T: Tree> Model for Under<'a, T> {
    ghost use Rattle.std.specs.Prelude.{◌≡◌, ◌+◌, ◌^◌, ◌<◌, List, drop, option_map, slice_get};
    ghost use Rattle.std.specs.Prelude.{IfSome};
    ghost use Rattle.std.specs.Coded.{coded_list};
    ghost use Rattle.resource_model.specs.Resource.{ResourceData};
    ghost use Rattle.resource_model.specs.Codes.{resource_code};
    ghost use Rattle.subscription_match.specs.Watching.{subs_under};

    ghost Value = { List ResourceData };

    ghost coded = { coded_list resource_code };

    ghost view = { λ o. drop o.place (subs_under o.parent (T.nodes o.tree.now)) };

    ghost invariant = { λ o. (option_map (λ r. r.now) o.first
        ≡ slice_get (subs_under o.parent (T.nodes o.tree.now)) o.place)
        × IfSome o.first (λ _. o.place + 1 < 2 ^ 64) };
}

impl<'a, T: Tree> Under<'a, T> {
    /// All of them.
    fn of<L: Ledger>(tree: &'a T, parent: Option<u64>, steps: &mut Steps<L>) -> Under<'a, T>
        ensures all { result ≡ spec.subs_under parent (T.nodes tree.now) }
        ensures tree { IfSome parent (λ _. IsTrue (is_tree (T.nodes tree.now))) }
        ensures cost { steps.new ≡ steps.old + 1 }
    {
        let first = sub_at(tree, parent, 0, steps);
        Under {
            tree,
            parent,
            first,
            place: 0,
        }
    }

    fn first(&self) -> Option<&'a Resource>
        ensures { option_map (λ r. r.now) result ≡ slice_get self.now 0 }
    {
        self.first
    }

    /// Takes the first.
    fn take<L: Ledger>(&mut self, steps: &mut Steps<L>) -> Option<&'a Resource>
        ensures taken { MatchOption result ((self.old ≡ []) × (self.new ≡ []))
            (λ r. self.old ≡ r.now ∷ self.new) }
        ensures cost { MatchOption result (steps.new ≡ steps.old)
            (λ _. steps.new ≡ steps.old + 1) }
    {
        let first = self.first?;
        self.place += 1;
        self.first = sub_at(self.tree, self.parent, self.place, steps);
        Some(first)
    }
}

/// The subscriptions under one of two resources, as far as these are given, in order of creation,
/// seen as the list of those that are left. The tree finds them, so that nothing else is visited.
#[derive(Drop)]
pub(crate) struct Watching<'a, T: Tree> {
    own: Under<'a, T>,
    above: Under<'a, T>,
}

impl<'a, T: Tree> Model for Watching<'a, T> {
    ghost use Rattle.std.specs.Prelude.{List};
    ghost use Rattle.std.specs.Coded.{coded_list};
    ghost use Rattle.resource_model.specs.Resource.{ResourceData};
    ghost use Rattle.resource_model.specs.Codes.{resource_code};
    ghost use Rattle.subscription_match.specs.Watching.{by_number};

    ghost Value = { List ResourceData };

    ghost coded = { coded_list resource_code };

    ghost view = { λ o. by_number o.own o.above };
}

/// Goes over the subscriptions under a resource and under another one, each where it is given.
pub(crate) fn over_watching<'a, T: Tree, L: Ledger>(
    tree: &'a T,
    own: Option<u64>,
    above: Option<u64>,
    steps: &mut Steps<L>,
) -> Watching<'a, T>
    ensures all { result ≡ filter (is_sub_of_either own above) (T.nodes tree.now) }
    ensures cost { steps.new ≡ steps.old + 2 }
{
    Watching {
        own: Under::of(tree, own, steps),
        above: Under::of(tree, unless_same(own, above), steps),
    }
}

// The second, unless it is the first too.
fn unless_same(one: Option<u64>, other: Option<u64>) -> Option<u64>
    ensures { result ≡ spec.unless_same one other }
{
    match (one, other) {
        (Some(n), Some(m)) if n == m => None,
        _ => other,
    }
}

// The subscription at a place under a resource, where one is given.
fn sub_at<'a, T: Tree, L: Ledger>(
    tree: &'a T,
    parent: Option<u64>,
    k: u64,
    steps: &mut Steps<L>,
) -> Option<&'a Resource>
    ensures value { option_map (λ r. r.now) result
        ≡ slice_get (spec.subs_under parent (T.nodes tree.now)) k }
    ensures few { IfSome result (λ _. k + 1 < 2 ^ 64) }
    ensures tree { IfSome parent (λ _. IsTrue (is_tree (T.nodes tree.now))) }
    ensures cost { steps.new ≡ steps.old + 1 }
{
    steps.tick();
    subscription_at(tree, parent?, k)
}

fn comes_next(one: Option<&Resource>, other: Option<&Resource>) -> bool
    ensures { result ≡ spec.comes_next (option_map (λ r. r.now) one.entry)
        (option_map (λ r. r.now) other.entry) }
{
    match (one, other) {
        (_, None) => true,
        (None, Some(_)) => false,
        (Some(one), Some(other)) => one.number() <= other.number(),
    }
}

impl<'a, T: Tree> Watching<'a, T> {
    /// Whether some are left under the other of the two resources.
    pub(crate) fn has_above(&self) -> bool {
        self.above.first().is_some()
    }

    /// Takes the next of them.
    pub(crate) fn take<L: Ledger>(&mut self, steps: &mut Steps<L>) -> Option<&'a Resource>
        ensures taken { MatchOption result ((self.old ≡ []) × (self.new ≡ []))
            (λ r. self.old ≡ r.now ∷ self.new) }
        ensures cost { MatchOption result (steps.new ≡ steps.old)
            (λ _. steps.new ≡ steps.old + 1) }
    {
        let own = self.own.first();
        let above = self.above.first();
        if comes_next(own, above) {
            self.own.take(steps)
        } else {
            self.above.take(steps)
        }
    }
}

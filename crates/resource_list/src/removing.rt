//! Removals in place, and when what is left is due.
ghost use Rattle.std.specs.Prelude.{◌≡◌, List, [], nat_eq, nat_le, false, IsTrue};
ghost use Rattle.std.specs.Prelude.{is_some, option_map};
ghost use Rattle.std.specs.List.{list_any};
ghost use Rattle.std.specs.Option.{option_map_or};
ghost use Rattle.resource_model.specs.Resource.{ResourceData, has_number};
ghost use Rattle.resource_list.specs.Removal.{picks_of, picks_under, IsInOrder};
ghost use Rattle.tree_model.specs.Tree as spec;
ghost use Rattle.tree_model.specs.Tree.{stays, without, is_tree, are_quiet, AreAscending};
ghost use Rattle.tree_model.specs.Tree.{without_all, DoAscend};

use crate::places::Places;
use crate::placing::{due_near, found_near};
use resource_model::Resource;
use tree_model::{due_under, earlier};

/// What a removal takes, besides all that stands below it.
#[derive(Clone, Copy)]
pub(crate) enum Removal<'a> {
    /// The resource of a number.
    Of(u64),
    /// The resources of these numbers, which ascend.
    Those(&'a [u64]),
    /// What is due at a moment.
    Due(u64),
}

fn is_due_under(parent: Option<&Resource>, resource: &Resource, moment: u64) -> bool
    ensures { result ≡ spec.is_due_under (option_map (λ r. r.now) parent.entry) moment
        resource.now }
{
    match due_under(parent, resource) {
        Some(at) => at <= moment,
        None => false,
    }
}

// Whether a number is one of these.
fn is_among(numbers: &[u64], number: u64) -> bool
    requires { DoAscend numbers.now }
    ensures { result ≡ list_any (nat_eq number) numbers.now }
{
    match numbers.binary_search(&number) {
        Ok(_) => true,
        Err(_) => false,
    }
}

fn is_picked(parent: Option<&Resource>, resource: &Resource, removal: Removal<'_>) -> bool
    requires { IsInOrder removal }
    ensures { result
        ≡ picks_under removal.entry (option_map (λ r. r.now) parent.entry) resource.now }
{
    match removal {
        Removal::Of(number) => resource.number() == number,
        Removal::Those(numbers) => is_among(numbers, resource.number()),
        Removal::Due(moment) => is_due_under(parent, resource, moment),
    }
}

fn is_there(parent: Option<&Resource>) -> bool
    ensures { result ≡ is_some (option_map (λ r. r.now) parent.entry) }
{
    match parent {
        Some(_) => true,
        None => false,
    }
}

// Whether the resource stays, where these before it did. Its parent is likely to stand near, or
// would stand there if it hadn't gone.
#[tactic(auto, using(tree_model::proofs::TreeLemmas::there))]
fn does_stay(stayed: &[Resource], near: usize, resource: &Resource, removal: Removal<'_>) -> bool
    requires order { AreAscending stayed.now }
    requires removal { IsInOrder removal }
    ensures { result ≡ stays (picks_of removal.entry stayed.now) stayed.now resource.now }
{
    let parent = found_near(stayed, resource.parent(), near);
    !is_picked(parent, resource, removal) && (resource.parent() == 0 || is_there(parent))
}

/// Removes what a removal takes, in one pass.
pub(crate) fn sweep_out(resources: &mut Vec<Resource>, places: &mut Places, removal: Removal<'_>)
    requires tree { IsTrue (is_tree resources.old.items) }
    requires removal { IsInOrder removal }
    ensures { resources.new.items ≡ without
        (picks_of removal.entry resources.old.items) resources.old.items }
{
    let mut stayed = 0;
    for at in 0..resources.len() {
        let parent = places.moved_parent(at);
        if does_stay(&resources[..stayed], parent, &resources[at], removal) {
            resources.swap(stayed, at);
            places.keep(at, stayed, parent);
            stayed += 1;
        } else {
            places.pass(at, stayed);
        }
    }
    resources.truncate(stayed);
    places.truncate(stayed);
}

/// Removes the resources of these numbers, with all that stands below them: of none it looks at
/// nothing.
pub(crate) fn sweep_out_all(resources: &mut Vec<Resource>, places: &mut Places, numbers: &[u64])
    requires tree { IsTrue (is_tree resources.old.items) }
    requires order { DoAscend numbers.now }
    ensures { resources.new.items ≡ without_all numbers.now resources.old.items }
{
    if numbers.is_empty() {
        return;
    }
    sweep_out(resources, places, removal_of(numbers));
}

// One number needs no search among numbers.
fn removal_of(numbers: &[u64]) -> Removal<'_>
    requires { DoAscend numbers.now }
    ensures order { IsInOrder result }
    ensures picks { (nodes : List ResourceData)
        → without (picks_of result nodes) nodes ≡ without_all numbers.now nodes }
{
    match numbers {
        [number] => Removal::Of(*number),
        _ => Removal::Those(numbers),
    }
}

/// The first moment at which one of them is due, or the last number.
pub(crate) fn quiet_in(resources: &[Resource], places: &Places) -> u64
    requires { AreAscending resources.now }
    ensures { IsTrue (are_quiet result resources.now) }
{
    let mut quiet = u64::MAX;
    for at in 0..resources.len() {
        let end = due_near(resources, &resources[at], places.parent(at));
        quiet = earlier(quiet, end);
    }
    quiet
}

//! What is told of changes.
ghost use Rattle.std.specs.Prelude.{◌≡◌, ℕ, ◌++◌, ◌+◌, ◌<◌, ◌≤◌, List, filter, length, IfOk};
ghost use Rattle.std.specs.Prelude.{IfSome, OnOk, true};
ghost use Rattle.std.specs.List.{filter_map};
ghost use Rattle.resource_model.specs.Resource.{ResourceData};
ghost use Rattle.subscription_match.specs.Matching as matching;
ghost use Rattle.subscription_match.specs.Matching.{is_sub_of_either, steps_of_all, watching};
ghost use Rattle.subscription_match.specs.Notices as spec;
ghost use Rattle.tree_model.specs.Changes.{change_of};
ghost use Rattle.tree_model.specs.Tree.{DoAscend};

use crate::criteria::{does_hear, event_for, is_sub_of};
use crate::drafts::Draft;
use crate::telling::{notice_of, told_as};
use crate::watching::over_watching;
use std::alloc::{AllocError as OutOfMemory, Global};
use std::collections::BTreeMap;
use std::marker::Brand;
use std::sync::ledger::{Blank, Ledger};
use tree_model::{Change, Changes, Home, Resource, Steps, Tree};

// The resource that was there before the change and is itself changed.
fn own_of(change: Change<'_>) -> Option<u64>
    ensures { result ≡ matching.own_of (change_of change.entry) }
{
    match change {
        Change::Created(_) => None,
        Change::Updated { after, .. } => Some(after.number()),
        Change::Deleted(gone) => Some(gone.number()),
    }
}

// Whether it is noted that no subscription under the resource of this number is told of the
// deletion of a child.
fn is_deaf(heard: &BTreeMap<u64, bool>, parent: u64) -> bool
    ensures { result ≡ matching.is_deaf heard.now.entries parent }
{
    match heard.get(&parent) {
        Some(hears) => !*hears,
        None => false,
    }
}

// The resource that gets or loses a child, unless it is noted that nobody under it is told so. So a
// removal of a subtree goes once over subscriptions that aren't told, and not once for each child.
fn heard_above(heard: &BTreeMap<u64, bool>, change: Change<'_>) -> Option<u64>
    ensures { result ≡ matching.heard_above heard.now.entries (change_of change.entry) }
{
    match change {
        Change::Created(new) => Some(new.parent()),
        Change::Updated { .. } => None,
        Change::Deleted(gone) => {
            if is_deaf(heard, gone.parent()) {
                None
            } else {
                Some(gone.parent())
            }
        }
    }
}

// Notes of the resource that loses a child whether a subscription under it is told so, where that
// was found.
#[tactic(auto, using(crate::proofs::HeardLemmas::one_noted))]
fn note_heard(
    heard: &mut BTreeMap<u64, bool>,
    change: Change<'_>,
    found: Option<bool>,
) -> Result<(), OutOfMemory>
    ensures { (going : List ℕ) (nodes : List ResourceData)
        → matching.AreHeard going nodes heard.old.entries
        → IfSome found (λ b. b
        ≡ matching.is_heard_above going nodes (matching.above_of (change_of change.entry)))
        → OnOk result (matching.AreHeard going nodes heard.new.entries) }
{
    if let (Change::Deleted(gone), Some(hears)) = (change, found) {
        heard.insert(gone.parent(), hears)?;
    }
    Ok(())
}

// Whether it is a subscription under the resource of this number, where one is given, that is told
// of the deletion of a child.
fn does_hear_under(going: &[u64], parent: Option<u64>, sub: &Resource) -> bool
    requires { DoAscend going.now }
    ensures { result ≡ matching.does_hear_under going.now parent sub.now }
{
    is_sub_of(sub, parent) && does_hear(going, sub)
}

// Whether a change is a deletion, which alone is told as that of a child.
fn is_deletion(change: Change<'_>) -> bool {
    match change {
        Change::Created(_) | Change::Updated { .. } => false,
        Change::Deleted(_) => true,
    }
}

// What was found, where something was sought.
fn found_of(is_sought: bool, found: bool) -> Option<bool>
    ensures { IfSome result (λ b. (is_sought ≡ true) × (b ≡ found)) }
{
    if is_sought { Some(found) } else { None }
}

// What is told to those of the subscriptions under the changed resource, and under another one
// where it is given, that match the change; and of a deletion, where some stand under that other
// one, whether one of these is told of the deletion of a child.
fn add_told<T: Tree, L: Ledger>(
    alloc: Global,
    tree: &T,
    home: &Home,
    going: &[u64],
    change: Change<'_>,
    above: Option<u64>,
    drafts: &mut Vec<Draft>,
    steps: &mut Steps<L>,
) -> Result<Option<bool>, OutOfMemory>
    requires { DoAscend going.now }
    ensures told { OnOk result (drafts.new.items ≡ drafts.old.items
        ++ filter_map (spec.told home.now (T.nodes tree.now) going.now (change_of change.entry))
        (filter (is_sub_of_either (matching.own_of (change_of change.entry)) above)
        (T.nodes tree.now))) }
    ensures found { IfOk result (λ found. IfSome found
        (λ b. b ≡ matching.is_heard_above going.now (T.nodes tree.now) above)) }
    ensures counted { steps.old ≤ steps.new }
    ensures cost { steps.new ≤ steps.old + length (filter (is_sub_of_either
        (matching.own_of (change_of change.entry)) above) (T.nodes tree.now)) + 2 }
{
    let mut subs = over_watching(tree, own_of(change), above, steps);
    let is_sought = is_deletion(change) && subs.has_above();
    let mut hears = false;
    'subs: while let Some(sub) = subs.take(steps) {
        hears = hears || (is_sought && does_hear_under(going, above, sub));
        if let Some(kind) = event_for(going, change, sub) {
            drafts.push(told_as(alloc, tree, home, change, sub, kind)?)?;
        }
    }
    Ok(found_of(is_sought, hears))
}

fn add_notices(
    alloc: Global,
    home: &Home,
    change: Change<'_>,
    drafts: &mut Vec<Draft>,
) -> Result<(), OutOfMemory>
    ensures { OnOk result (drafts.new.items ≡ drafts.old.items
        ++ spec.notices home.now (change_of change.entry)) }
{
    if let Change::Deleted(gone) = change {
        if let Some(notice) = notice_of(alloc, home, gone)? {
            drafts.push(notice)?;
        }
    }
    Ok(())
}

// What is told of a change, where it is noted of some resources whether anybody under them is told
// of the deletion of a child.
fn add_notes<T: Tree, L: Ledger>(
    alloc: Global,
    tree: &T,
    home: &Home,
    going: &[u64],
    change: Change<'_>,
    heard: &mut BTreeMap<u64, bool>,
    drafts: &mut Vec<Draft>,
    steps: &mut Steps<L>,
) -> Result<(), OutOfMemory>
    requires order { DoAscend going.now }
    requires heard { matching.AreHeard going.now (T.nodes tree.now) heard.old.entries }
    ensures heard { OnOk result
        (matching.AreHeard going.now (T.nodes tree.now) heard.new.entries) }
    ensures told { OnOk result (drafts.new.items ≡ drafts.old.items
        ++ spec.notes_of home.now (T.nodes tree.now) going.now (change_of change.entry)) }
    ensures counted { steps.old ≤ steps.new }
    ensures cost { steps.new ≤ steps.old
        + matching.steps_of (T.nodes tree.now) (change_of change.entry) }
{
    let above = heard_above(heard, change);
    let found = add_told(alloc, tree, home, going, change, above, drafts, steps)?;
    note_heard(heard, change, found)?;
    add_notices(alloc, home, change, drafts)
}

/// What is told of a change: what each matching subscription is told, in order of creation, and
/// then the notice of the deletion of a subscription. The tree is the one before the change, and
/// `going` are the numbers, which ascend, of what the same removal takes. It takes at most a step
/// for each subscription under the changed resource or its parent, and two more.
#[tactic(auto, using(crate::proofs::HeardLemmas::none_noted))]
pub fn notes<T: Tree, L: Ledger>(
    alloc: Global,
    tree: &T,
    home: &Home,
    going: &[u64],
    change: Change<'_>,
    steps: &mut Steps<L>,
) -> Result<Vec<Draft>, OutOfMemory>
    requires { DoAscend going.now }
    ensures value { IfOk result (λ v. v.items
        ≡ spec.notes_of home.now (T.nodes tree.now) going.now (change_of change.entry)) }
    ensures counted { steps.old ≤ steps.new }
    ensures cost { steps.new
        ≤ steps.old + length (watching (T.nodes tree.now) (change_of change.entry)) + 2 }
{
    let mut heard = BTreeMap::new(alloc);
    let mut drafts = Vec::new(alloc);
    add_notes(
        alloc,
        tree,
        home,
        going,
        change,
        &mut heard,
        &mut drafts,
        steps,
    )?;
    Ok(drafts)
}

/// What is told of an operation's changes, in their order. The tree is the one before the
/// operation, and `going` are the numbers, which ascend, of what it removes. For each change it
/// takes no more steps than `notes` does.
#[tactic(auto, using(crate::proofs::HeardLemmas::none_noted))]
pub fn counted_notes<T: Tree, L: Ledger>(
    alloc: Global,
    tree: &T,
    home: &Home,
    going: &[u64],
    changes: Changes<'_, T>,
    steps: &mut Steps<L>,
) -> Result<Vec<Draft>, OutOfMemory>
    requires { DoAscend going.now }
    ensures value { IfOk result (λ v. v.items
        ≡ spec.notes_of_all home.now (T.nodes tree.now) going.now changes.entry) }
    ensures counted { steps.old ≤ steps.new }
    ensures cost { steps.new ≤ steps.old + steps_of_all (T.nodes tree.now) changes.entry }
{
    let mut heard = BTreeMap::new(alloc);
    let mut drafts = Vec::new(alloc);
    for change in changes {
        add_notes(
            alloc,
            tree,
            home,
            going,
            change,
            &mut heard,
            &mut drafts,
            steps,
        )?;
    }
    Ok(drafts)
}

/// The same as `counted_notes`, for who counts no steps.
pub fn all_notes<T: Tree>(
    alloc: Global,
    tree: &T,
    home: &Home,
    going: &[u64],
    changes: Changes<'_, T>,
) -> Result<Vec<Draft>, OutOfMemory>
    requires { DoAscend going.now }
    ensures { IfOk result (λ v. v.items
        ≡ spec.notes_of_all home.now (T.nodes tree.now) going.now changes.entry) }
{
    notes_by::<T, Brand>(alloc, tree, home, going, changes, Blank::new(1))
}

fn notes_by<T: Tree, L: Ledger>(
    alloc: Global,
    tree: &T,
    home: &Home,
    going: &[u64],
    changes: Changes<'_, T>,
    blank: Blank,
) -> Result<Vec<Draft>, OutOfMemory>
    requires order { DoAscend going.now }
    requires name { blank.name ≡ L.name }
    requires parts { blank.parts ≡ L.parts }
    requires some { 0 < blank.parts }
    ensures { IfOk result (λ v. v.items
        ≡ spec.notes_of_all home.now (T.nodes tree.now) going.now changes.entry) }
{
    let mut steps = Steps::<L>::new(blank);
    counted_notes(alloc, tree, home, going, changes, &mut steps)
}

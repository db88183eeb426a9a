//! What is told of an operation.
ghost use Rattle.std.specs.Prelude.{◌≡◌, ◌<◌, ◌≤◌, ◌==◌, ◌++◌, [], length, true, IfOk, IsTrue};
ghost use Rattle.std.specs.Prelude.{if◌then◌else◌, List, ℕ};
ghost use Rattle.std.specs.List.{AllByRecursion};
ghost use Rattle.m2m_names.specs.Ids.{count_bound};
ghost use Rattle.notify_outbox.specs.declared.item.Item.{Item};
ghost use Rattle.resource_model.specs.Home.{HomeData};
ghost use Rattle.resource_model.specs.Resource.{ResourceData};
ghost use Rattle.subscription_match.specs.Notices.{notes_of_all};
ghost use Rattle.subscription_match.specs.Spending as spending;
ghost use Rattle.tree_model.specs.Changes.{ChangeData};
ghost use Rattle.tree_model.specs.Tree.{is_tree, without_all, DoAscend};
ghost use Rattle.entity_model.specs.Entity.{copy_requests, items_from, numbered_after};
ghost use Rattle.entity_model.specs.Lowering.{some_left, spent_numbers};
ghost use Rattle.entity_model.specs.Telling as spec;
ghost use Rattle.entity_model.specs.Telling.{IsTold};

use crate::told::Told;
use announce_copy::{all_copies, copy_notes};
use notify_outbox::Outbox;
use primitive_json::Note;
use std::alloc::{AllocError as OutOfMemory, Global};
use subscription_match::{Draft, all_notes, items_of, left_to, spend};
use tree_model::{Changes, Home, Tree};

/// What an operation tells that tells nobody, and of which no copy is made or changed.
pub fn nothing_told(alloc: Global) -> Told
    ensures told { (home : HomeData) (nodes : List ResourceData) (going : List ℕ)
        (changes : List ChangeData) → notes_of_all home nodes going changes ≡ []
        → copy_requests home nodes changes ≡ [] → IsTold home nodes going changes result }
    ensures notes { result.notes.items ≡ [] }
{
    Told {
        notes: Vec::new(alloc),
        left: Vec::new(alloc),
        spent: Vec::new(alloc),
    }
}

/// Prepares what an operation tells of its changes, and behind it what it sends to where copies
/// stand, and reserves room for both in the outbox. The tree is the one before the operation, and
/// `going` are the numbers, which ascend, of what it removes. The changes are handed over twice, as
/// each list of them is gone through once.
pub fn prepare_telling<T: Tree>(
    alloc: Global,
    tree: &T,
    home: &Home,
    outbox: &mut Outbox,
    going: &[u64],
    changes: Changes<'_, T>,
    again: Changes<'_, T>,
) -> Result<Told, OutOfMemory>
    requires ascend { DoAscend going.now }
    requires again { again ≡ changes }
    ensures told { IfOk result
        (IsTold home.now (T.nodes tree.now) going.now changes.entry) }
    ensures room { IfOk result (λ t. length t.notes.items ≤ outbox.new.room) }
    ensures items { outbox.new.items ≡ outbox.old.items }
    ensures count { outbox.new.count ≡ outbox.old.count }
{
    let requests = copy_requests(alloc, tree, home, again)?;
    prepare_with(alloc, tree, home, outbox, going, changes, requests)
}

/// The same for changes that no copy follows, as is known already.
pub fn prepare_uncopied<T: Tree>(
    alloc: Global,
    tree: &T,
    home: &Home,
    outbox: &mut Outbox,
    going: &[u64],
    changes: Changes<'_, T>,
) -> Result<Told, OutOfMemory>
    requires ascend { DoAscend going.now }
    requires unsent { copy_requests home.now (T.nodes tree.now) changes ≡ [] }
    ensures told { IfOk result
        (IsTold home.now (T.nodes tree.now) going.now changes.entry) }
    ensures room { IfOk result (λ t. length t.notes.items ≤ outbox.new.room) }
    ensures items { outbox.new.items ≡ outbox.old.items }
    ensures count { outbox.new.count ≡ outbox.old.count }
{
    prepare_with(alloc, tree, home, outbox, going, changes, Vec::new(alloc))
}

// The same, where these are the requests about copies that the changes ask for.
fn prepare_with<T: Tree>(
    alloc: Global,
    tree: &T,
    home: &Home,
    outbox: &mut Outbox,
    going: &[u64],
    changes: Changes<'_, T>,
    requests: Vec<Note>,
) -> Result<Told, OutOfMemory>
    requires ascend { DoAscend going.now }
    requires requests { requests.items ≡ copy_requests home.now (T.nodes tree.now) changes }
    ensures told { IfOk result
        (IsTold home.now (T.nodes tree.now) going.now changes.entry) }
    ensures room { IfOk result (λ t. length t.notes.items ≤ outbox.new.room) }
    ensures items { outbox.new.items ≡ outbox.old.items }
    ensures count { outbox.new.count ≡ outbox.old.count }
{
    let mut drafts = all_notes(alloc, tree, home, going, changes)?;
    if is_nothing(&drafts, &requests) {
        return Ok(nothing_told(alloc));
    }
    let left = spend(alloc, tree, &mut drafts)?;
    let told = items_of(alloc, tree, home, drafts)?;
    let notes = with_requests(told, requests)?;
    let spent = numbers_spent(alloc, &left)?;
    outbox.reserve(alloc, notes.len() as u64)?;
    Ok(Told { notes, left, spent })
}

// The requests about copies that the changes ask for.
#[tactic(auto, unfolding(crate::specs::Entity::copy_requests))]
fn copy_requests<T: Tree>(
    alloc: Global,
    tree: &T,
    home: &Home,
    changes: Changes<'_, T>,
) -> Result<Vec<Note>, OutOfMemory>
    ensures { IfOk result (λ v. v.items
        ≡ copy_requests home.now (T.nodes tree.now) changes.entry) }
{
    let copies = all_copies(alloc, tree, home, changes)?;
    copy_notes(alloc, tree, home, copies)
}

// Whether nobody is told, and nothing is sent to where copies stand.
fn is_nothing(drafts: &[Draft], requests: &[Note]) -> bool
    ensures drafts { IsTrue result → drafts.now ≡ [] }
    ensures requests { IsTrue result → requests.now ≡ [] }
{
    drafts.is_empty() && requests.is_empty()
}

// What is told, and behind it the requests about copies.
fn with_requests(told: Vec<Note>, requests: Vec<Note>) -> Result<Vec<Note>, OutOfMemory>
    ensures { IfOk result (λ v. v.items ≡ told.items ++ requests.items) }
{
    let mut notes = told;
    let mut behind = requests;
    notes.append(&mut behind)?;
    Ok(notes)
}

// The numbers of the subscriptions to which none is left.
fn numbers_spent(alloc: Global, rows: &[(u64, u64)]) -> Result<Vec<u64>, OutOfMemory>
    ensures { IfOk result (λ v. v.items ≡ spent_numbers rows.now) }
{
    let mut numbers = Vec::new(alloc);
    for row in rows {
        if row.1 == 0 {
            numbers.push(row.0)?;
        }
    }
    Ok(numbers)
}

/// Appends notes, for which there is room, at a moment before which each item was appended.
pub(crate) fn append_all(outbox: &mut Outbox, moment: u64, notes: Vec<Note>)
    requires room { length notes.items ≤ outbox.old.room }
    requires order { AllByRecursion (λ (i : Item). i.since ≤ moment) outbox.old.items }
    ensures items { outbox.new.items
        ≡ outbox.old.items ++ items_from outbox.old.count moment notes.items }
    ensures count { outbox.new.count ≡ numbered_after outbox.old.count notes.items }
{
    if notes.is_empty() {
        return;
    }
    append_each(outbox, moment, notes);
}

// Appends them one after another. Notes are large: what moves them stands apart, where nothing is
// prepared for it unless there are some.
#[inline(never)]
fn append_each(outbox: &mut Outbox, moment: u64, notes: Vec<Note>)
    requires room { length notes.items ≤ outbox.old.room }
    requires order { AllByRecursion (λ (i : Item). i.since ≤ moment) outbox.old.items }
    ensures items { outbox.new.items
        ≡ outbox.old.items ++ items_from outbox.old.count moment notes.items }
    ensures count { outbox.new.count ≡ numbered_after outbox.old.count notes.items }
{
    for note in notes {
        outbox.append(note, moment);
    }
}

fn has_more<T: Tree>(tree: &T, number: u64, left: u64) -> bool
    ensures value { result ≡ spec.has_more left (spending.left_at (T.nodes tree.now) number) }
    ensures bound { result ≡ true → left < count_bound }
{
    match tree.get(number) {
        Some(sub) => match left_to(sub) {
            Some(old) => left < old,
            None => false,
        },
        None => false,
    }
}

// Counts a subscription anew, where it has more left; one to which none is left stays as it is.
#[tactic(auto, using(crate::proofs::LoweringLemmas::more_counts))]
fn count_anew<T: Tree>(tree: &mut T, number: u64, left: u64)
    ensures { T.nodes tree.new ≡ (if left == 0 then T.nodes tree.old
        else spec.lowered_to number left (T.nodes tree.old)) }
{
    if left == 0 {
        return;
    }
    if has_more(tree, number, left) {
        tree.recount(number, left);
    }
}

// Counts subscriptions anew, one after another.
fn count_all_anew<T: Tree>(tree: &mut T, rows: Vec<(u64, u64)>)
    ensures { T.nodes tree.new ≡ spec.all_lowered_to (some_left rows.items) (T.nodes tree.old) }
{
    for row in rows {
        count_anew(tree, row.0, row.1);
    }
}

// Of these numbers, which ascend, those of subscriptions to which more than none is left.
fn numbers_gone<T: Tree>(tree: &T, numbers: Vec<u64>) -> Vec<u64>
    ensures { result.items ≡ spec.numbers_gone numbers.items (T.nodes tree.now) }
{
    let mut gone = numbers;
    gone.retain(|number| has_more(tree, *number, 0));
    gone
}

// Of the subscriptions of these numbers, which ascend, those to which more than none is left go, in
// one pass. Each of the numbers is looked up; where none goes, the tree isn't asked to remove any.
fn remove_spent<T: Tree>(tree: &mut T, numbers: Vec<u64>)
    requires order { DoAscend numbers.items }
    requires tree { IsTrue (is_tree (T.nodes tree.old)) }
    ensures { T.nodes tree.new ≡ without_all
        (spec.numbers_gone numbers.items (T.nodes tree.old)) (T.nodes tree.old) }
{
    let gone = numbers_gone(tree, numbers);
    if gone.is_empty() {
        return;
    }
    tree.remove_all(&gone);
}

/// Appends what is told to the outbox at a moment, and lowers the subscriptions: those to which
/// some are left are counted anew one after another, and those to which none is left go in one
/// pass. Where none that counts is told something, the tree isn't asked. It can't fail, as there is
/// room for the notes, and a removal needs no memory.
pub fn tell<T: Tree>(tree: &mut T, outbox: &mut Outbox, moment: u64, told: Told)
    requires tree { IsTrue (is_tree (T.nodes tree.old)) }
    requires room { length told.notes.items ≤ outbox.old.room }
    requires order { AllByRecursion (λ (i : Item). i.since ≤ moment) outbox.old.items }
    ensures nodes { T.nodes tree.new
        ≡ spec.all_lowered_to told.left.items (T.nodes tree.old) }
    ensures items { outbox.new.items
        ≡ outbox.old.items ++ items_from outbox.old.count moment told.notes.items }
    ensures count { outbox.new.count ≡ numbered_after outbox.old.count told.notes.items }
{
    append_all(outbox, moment, told.notes);
    if told.left.is_empty() {
        return;
    }
    count_all_anew(tree, told.left);
    remove_spent(tree, told.spent);
}

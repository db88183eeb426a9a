//! Subscriptions that count what they are told.
ghost use Rattle.std.specs.Prelude.{◌≡◌, ◌<◌, ◌≤◌, ℕ, [], nat_lt, length, true, vec_capacity};
ghost use Rattle.std.specs.Prelude.{IfOk, IfSome, OnOk, OnErr, is_some};
ghost use Rattle.std.specs.List.{items_where_true, list_any};
ghost use Rattle.std.specs.List.Sorted.{IsStrictlySortedBy};
ghost use Rattle.std.specs.Map.{keys_of};
ghost use Rattle.std.specs.Option.{option_map_or};
ghost use Rattle.std.specs.Ordering.{nat_cmp};
ghost use Rattle.m2m_names.specs.Ids.{count_bound};
ghost use Rattle.subscription_match.specs.Spending as spec;
ghost use Rattle.subscription_match.specs.Spending.{left_in};

use crate::drafts::Draft;
use m2m_names::Attr;
use std::alloc::{AllocError as OutOfMemory, Global};
use std::collections::BTreeMap;
use std::mem::replace;
use tree_model::{Resource, Tree};

/// How many notifications are left to a subscription, where it counts them.
pub fn left_to(sub: &Resource) -> Option<u64>
    ensures value { result ≡ spec.left_to sub.now }
    ensures bound { IfSome result (λ n. n < count_bound) }
{
    sub.attrs().count(Attr::Exc)
}

fn left_now<T: Tree>(tree: &T, left: &BTreeMap<u64, u64>, number: u64) -> Option<u64>
    ensures { result ≡ spec.left_now (T.nodes tree.now) left.now.entries number }
{
    match left.get(&number) {
        Some(count) => Some(*count),
        None => left_to(tree.get(number)?),
    }
}

// Takes one from what is left to a subscription, where it counts, and tells whether there was one.
fn take_one<T: Tree>(
    tree: &T,
    left: &mut BTreeMap<u64, u64>,
    number: u64,
) -> Result<bool, OutOfMemory>
    ensures kept { IfOk result (λ b. b ≡ option_map_or (nat_lt 0)
        (spec.left_now (T.nodes tree.now) left.old.entries number) true) }
    ensures left { (n : ℕ) → OnOk result (left_in left.new.entries n
        ≡ spec.left_taken (T.nodes tree.now) left.old.entries number n) }
{
    let Some(count) = left_now(tree, left, number) else {
        return Ok(true);
    };
    left.insert(number, count.saturating_sub(1))?;
    Ok(0 < count)
}

// Whether a draft is kept.
fn is_kept<T: Tree>(
    tree: &T,
    left: &mut BTreeMap<u64, u64>,
    draft: &Draft,
) -> Result<bool, OutOfMemory>
    ensures kept { IfOk result (λ b. b ≡ option_map_or
        (λ n. option_map_or (nat_lt 0) (spec.left_now (T.nodes tree.now) left.old.entries n) true)
        draft.now.subscription true) }
    ensures left { (n : ℕ) → OnOk result (left_in left.new.entries n
        ≡ option_map_or (λ m. spec.left_taken (T.nodes tree.now) left.old.entries m n)
        draft.now.subscription (left_in left.old.entries n)) }
{
    match draft.parts().subscription {
        Some(number) => take_one(tree, left, number),
        None => Ok(true),
    }
}

// Whether the subscription of a number counts.
fn is_counting<T: Tree>(tree: &T, number: u64) -> bool
    ensures { result ≡ is_some (spec.left_at (T.nodes tree.now) number) }
{
    match tree.get(number) {
        Some(sub) => left_to(sub).is_some(),
        None => false,
    }
}

// Whether a draft is for a subscription that counts.
fn is_counted<T: Tree>(tree: &T, draft: &Draft) -> bool
    ensures { result ≡ spec.is_counted (T.nodes tree.now) draft.now }
{
    match draft.parts().subscription {
        Some(number) => is_counting(tree, number),
        None => false,
    }
}

fn is_any_counted<T: Tree>(tree: &T, drafts: &[Draft]) -> bool
    ensures { result ≡ list_any (spec.is_counted (T.nodes tree.now)) drafts.now }
{
    drafts.iter().any(|draft| is_counted(tree, draft))
}

fn rows_of(alloc: Global, left: BTreeMap<u64, u64>) -> Result<Vec<(u64, u64)>, OutOfMemory>
    ensures rows { IfOk result (λ v. v.items ≡ left.entries) }
    ensures order { IfOk result (λ v. IsStrictlySortedBy nat_cmp (keys_of v.items)) }
{
    let mut rows = Vec::with_capacity(alloc, left.len())?;
    for row in left {
        rows.push(row)?;
    }
    Ok(rows)
}

// Whether each of the drafts is kept, and what is left then to each subscription that counts and is
// told something.
fn count<T: Tree>(
    alloc: Global,
    tree: &T,
    left: &mut BTreeMap<u64, u64>,
    drafts: &[Draft],
) -> Result<Vec<bool>, OutOfMemory>
    requires { left.old.entries ≡ [] }
    ensures marks { IfOk result (λ v. v.items ≡ spec.marks_after (T.nodes tree.now) [] drafts.now) }
    ensures left { (n : ℕ) → OnOk result (left_in left.new.entries n
        ≡ spec.spent (T.nodes tree.now) drafts.now n) }
{
    let mut marks = Vec::with_capacity(alloc, drafts.len())?;
    for draft in drafts {
        marks.push(is_kept(tree, left, draft)?)?;
    }
    Ok(marks)
}

// Puts those that are marked into an empty list that has room for all of them. No memory is taken.
fn put_marked(kept: &mut Vec<Draft>, drafts: Vec<Draft>, marks: &[bool])
    requires none { kept.old.items ≡ [] }
    requires room { length drafts.items ≤ vec_capacity kept.old }
    requires each { length marks.now ≡ length drafts.items }
    ensures { kept.new.items ≡ items_where_true marks.now drafts.items }
{
    let mut place = 0usize;
    for draft in drafts {
        if marks[place] {
            kept.push_reserved(draft);
        }
        place += 1;
    }
}

/// Keeps of an operation's drafts, in their order, those that are to be kept, and gives what is
/// left to each subscription that counts and is told something: the numbers of these, in order of
/// creation, each with how many notifications are left to it, none where it goes. The tree is the
/// one before the operation. Where memory runs out, the drafts are as they were. Where no
/// subscription counts, no memory is taken.
#[tactic(auto, using(crate::proofs::UncountedLemmas::none_counted))]
pub fn spend<T: Tree>(
    alloc: Global,
    tree: &T,
    drafts: &mut Vec<Draft>,
) -> Result<Vec<(u64, u64)>, OutOfMemory>
    ensures kept { OnOk result (drafts.new.items
        ≡ spec.kept (T.nodes tree.now) drafts.old.items) }
    ensures left { IfOk result (λ v. (n : ℕ) → left_in v.items n
        ≡ spec.spent (T.nodes tree.now) drafts.old.items n) }
    ensures order { IfOk result (λ v. IsStrictlySortedBy nat_cmp (keys_of v.items)) }
    ensures err { OnErr result (drafts.new.items ≡ drafts.old.items) }
{
    if !is_any_counted(tree, drafts) {
        return Ok(Vec::new(alloc));
    }
    let mut left = BTreeMap::new(alloc);
    let marks = count(alloc, tree, &mut left, drafts)?;
    let rows = rows_of(alloc, left)?;
    let room = Vec::with_capacity(alloc, drafts.len())?;
    let all = replace(drafts, room);
    put_marked(drafts, all, &marks);
    Ok(rows)
}

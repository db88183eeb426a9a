//! Resources and items, read one after another.
ghost use Rattle.std.specs.Prelude.{◌≡◌, ◌≤◌, ◌==◌, [], ◌∷◌, ◌++◌, true, IfOk, IfErr, IfSome};
ghost use Rattle.std.specs.Prelude.{IfNone, length, count_by};
ghost use Rattle.std.specs.List.{AllByRecursion};
ghost use Rattle.m2m_value.specs.Shapes.{largest_count};
ghost use Rattle.tree_model.specs.Tree.{fits_in};
ghost use Rattle.notify_outbox.specs.declared.item.Item.{Item};
ghost use Rattle.entity_snapshot.specs.Reading.{FitsNone, FollowsNone, HaltsItems, HaltsResources};
ghost use Rattle.entity_snapshot.specs.Reading.{PutsBack, PutsFirst, ReadsItems, ReadsResources};
ghost use Rattle.entity_snapshot.specs.Reading.{line_number};

use crate::fault::SnapshotFault;
use entity_lines::{first_item, first_resource};
use entity_soundness::{fits, follows};
use m2m_value::Scratch;
use notify_outbox::{Item, Outbox};
use std::alloc::{AllocError as OutOfMemory, Global};
use tree_model::{Resource, Tree};

/// How many lines end in these bytes.
fn ends_in(bytes: &[u8]) -> usize
    ensures value { result ≡ count_by (λ b. b == 10) bytes.now }
    ensures bound { result ≤ length bytes.now }
{
    bytes.iter().filter(|byte| **byte == b'\n').count()
}

/// The number of the line that begins at a place, from 1.
fn line_number(text: &[u8], place: usize) -> usize
    requires { place ≤ length text.now }
    ensures { result ≡ line_number text.now place }
{
    ends_in(&text[..place]) + 1
}

/// Puts a resource behind those of a tree, where it fits there, and tells whether it does.
fn put<T: Tree>(tree: &mut T, resource: Resource) -> Result<bool, OutOfMemory>
    ensures fits { IfOk result (λ is. is ≡ fits_in (T.nodes tree.old) resource) }
    ensures put { IfOk result (λ is. is ≡ true
        → T.nodes tree.new ≡ T.nodes tree.old ++ resource ∷ []) }
{
    if !fits(tree, &resource) {
        return Ok(false);
    }
    match tree.insert(resource) {
        Ok(()) => Ok(true),
        Err((_, fault)) => Err(fault),
    }
}

/// Puts the resource whose line is the first of a text behind those of a tree, and tells how many
/// bytes the line has; none where it is no line of a resource that fits there.
fn put_first<T: Tree>(
    alloc: Global,
    scratch: &mut Scratch,
    tree: &mut T,
    text: &[u8],
) -> Result<Option<usize>, OutOfMemory>
    ensures put { IfOk result (λ len. IfSome len
        (λ n. PutsFirst text.now n (T.nodes tree.old) (T.nodes tree.new))) }
    ensures none { IfOk result (λ len. IfNone len (FitsNone text.now (T.nodes tree.old))) }
{
    let found = first_resource(alloc, scratch, text)?;
    let Some((resource, len)) = found else {
        return Ok(None);
    };
    if put(tree, resource)? {
        Ok(Some(len))
    } else {
        Ok(None)
    }
}

/// Puts so many resources into a tree that has none yet, whose lines stand in a text from a place
/// on; and tells the place where they end.
pub(crate) fn put_resources<T: Tree>(
    alloc: Global,
    scratch: &mut Scratch,
    tree: &mut T,
    text: &[u8],
    from: usize,
    count: u64,
) -> Result<usize, SnapshotFault>
    requires none { T.nodes tree.old ≡ [] }
    requires within { from ≤ length text.now }
    ensures read { IfOk result
        (λ end. ReadsResources text.now from count end (T.nodes tree.new)) }
    ensures fault { IfErr result (HaltsResources text.now from count) }
{
    let mut at = from;
    for done in 0..count {
        let Some(len) = put_first(alloc, scratch, tree, &text[at..])? else {
            return Err(SnapshotFault::BadLine(line_number(text, at)));
        };
        at += len;
    }
    Ok(at)
}

/// What stands last in an outbox: the number of an item, and the moment at which it was appended.
#[derive(Clone, Copy)]
struct Behind {
    number: u64,
    since: u64,
}

/// Puts the item whose lines stand at the front of a text behind others.
fn put_back_first(
    alloc: Global,
    scratch: &mut Scratch,
    outbox: &mut Outbox,
    behind: Behind,
    most: u64,
    last: u64,
    text: &[u8],
) -> Result<Option<(Behind, usize)>, OutOfMemory>
    requires count { outbox.old.count ≡ behind.number }
    requires order { AllByRecursion (λ (i : Item). i.since ≤ behind.since) outbox.old.items }
    requires most { most ≤ largest_count }
    ensures put { IfOk result (λ found. IfSome found
        (λ f. PutsBack text.now f.1 most last behind f.0 outbox.old outbox.new)) }
    ensures none { IfOk result (λ found. IfNone found (FollowsNone text.now most last behind)) }
{
    let found = first_item(alloc, scratch, text)?;
    let Some((item, len)) = found else {
        return Ok(None);
    };
    if !follows(&item, behind.number, behind.since, most, last) {
        return Ok(None);
    }
    let (number, since) = (item.number, item.since);
    outbox.put_back(alloc, item)?;
    Ok(Some((Behind { number, since }, len)))
}

/// Puts so many items into an outbox that has none yet, whose lines stand in a text from a place
/// on; and tells the place where they end.
pub(crate) fn put_items(
    alloc: Global,
    scratch: &mut Scratch,
    outbox: &mut Outbox,
    text: &[u8],
    from: usize,
    count: u64,
    most: u64,
    last: u64,
) -> Result<usize, SnapshotFault>
    requires none { outbox.old.items ≡ [] }
    requires count { outbox.old.count ≡ 0 }
    requires most { most ≤ largest_count }
    requires within { from ≤ length text.now }
    ensures read { IfOk result
        (λ end. ReadsItems text.now from count end most last outbox.new.items) }
    ensures numbered { IfOk result (λ _. outbox.new.count ≡ most) }
    ensures fault { IfErr result (HaltsItems text.now from count most last) }
{
    let mut at = from;
    let mut behind = Behind {
        number: 0,
        since: 0,
    };
    for done in 0..count {
        let found = put_back_first(alloc, scratch, outbox, behind, most, last, &text[at..])?;
        let Some((next, len)) = found else {
            return Err(SnapshotFault::BadLine(line_number(text, at)));
        };
        behind = next;
        at += len;
    }
    outbox.count_up_to(alloc, most);
    Ok(at)
}

//! An entity is opened at its snapshot.
ghost use Rattle.std.specs.Prelude.{◌≡◌, ℕ, ◌+◌, ◌≤◌, [], ◌++◌, List, Ok, length, take, IfOk};
ghost use Rattle.std.specs.Prelude.{IfErr, MatchResult};
ghost use Rattle.journal_lines.specs.Lines.{line_len};
ghost use Rattle.entity_lines.specs.Heads.{first_head};
ghost use Rattle.entity_model.specs.Entity.{EntityData};
ghost use Rattle.entity_snapshot.specs.Opening.{HaltsBehind, IsUnopened, ReadsBehind};
ghost use Rattle.entity_snapshot.specs.Snapshots.{SpellsEntity};

use crate::fault::{SnapshotFault, snapshot_fault};
use crate::reading::{put_items, put_resources};
use entity_lines::{Head, first_head};
use entity_model::Entity;
use entity_soundness::are_sound;
use m2m_names::LARGEST_COUNT;
use m2m_value::Scratch;
use notify_outbox::Outbox;
use std::alloc::Global;
use tree_model::{Home, Tree};

/// What the head says, and how many bytes it has.
fn read_head(
    alloc: Global,
    scratch: &mut Scratch,
    text: &[u8],
    home: &Home,
) -> Result<(Head, usize), SnapshotFault>
    ensures head { IfOk result (λ h. first_head home.now text.now ≡ Ok h.0) }
    ensures len { IfOk result (λ h. h.1 ≡ line_len text.now + 1) }
    ensures within { IfOk result (λ h. h.1 ≤ length text.now) }
    ensures refused { IfErr result (IsUnopened home.now text.now) }
{
    match first_head(alloc, scratch, text, home) {
        Ok(found) => Ok(found),
        Err(fault) => Err(snapshot_fault(fault)),
    }
}

/// Puts the resources and items that stand behind the head into a tree and an outbox that have none
/// yet; and tells the place where their lines end.
fn read_behind<T: Tree>(
    alloc: Global,
    scratch: &mut Scratch,
    tree: &mut T,
    outbox: &mut Outbox,
    text: &[u8],
    head: Head,
    len: usize,
) -> Result<usize, SnapshotFault>
    requires tree { T.nodes tree.old ≡ [] }
    requires items { outbox.old.items ≡ [] }
    requires count { outbox.old.count ≡ 0 }
    requires len { len ≡ line_len text.now + 1 }
    requires within { len ≤ length text.now }
    ensures read { IfOk result
        (λ end. ReadsBehind text.now head end (T.nodes tree.new) outbox.new.items) }
    ensures numbered { IfOk result (λ _. outbox.new.count ≡ head.numbered) }
    ensures fault { IfErr result (HaltsBehind text.now head) }
{
    if head.numbered > LARGEST_COUNT {
        return Err(SnapshotFault::Unsound);
    }
    let at = put_resources(alloc, scratch, tree, text, len, head.resources)?;
    let Head {
        numbered,
        last,
        items,
        ..
    } = head;
    let end = put_items(alloc, scratch, outbox, text, at, items, numbered, last)?;
    Ok(end)
}

/// The entity whose resources and items stand behind a head.
fn open_behind<T: Tree>(
    alloc: Global,
    scratch: &mut Scratch,
    text: &[u8],
    home: Home,
    tree: T,
    head: Head,
    len: usize,
) -> Result<(Entity<T>, usize), SnapshotFault>
    requires tree { T.nodes tree ≡ [] }
    requires head { first_head home text.now ≡ Ok head }
    requires len { len ≡ line_len text.now + 1 }
    requires within { len ≤ length text.now }
    ensures opens { IfOk result (λ o. SpellsEntity o.0 (take o.1 text.now)) }
    ensures home { IfOk result (λ o. o.0.home ≡ home) }
    ensures end { IfOk result (λ o. o.1 ≤ length text.now) }
    ensures only { (e : EntityData) → (front back : List ℕ) → SpellsEntity e front → e.home ≡ home
        → text.now ≡ front ++ back
        → MatchResult result (λ o. (o.0 ≡ e) × (o.1 ≡ length front))
        (λ f. f ≡ SnapshotFault.OutOfMemory) }
    ensures refused { IfErr result (IsUnopened home text.now) }
{
    let mut tree = tree;
    let mut outbox = Outbox::new(alloc);
    let end = read_behind(alloc, scratch, &mut tree, &mut outbox, text, head, len)?;
    let Head { next, last, .. } = head;
    if !are_sound(&tree, &home, next, last) {
        return Err(SnapshotFault::Unsound);
    }
    let entity = Entity {
        home,
        tree,
        next,
        last,
        outbox,
    };
    Ok((entity, end))
}

/// The entity of a home whose snapshot stands at the front of a text, and how many bytes the
/// snapshot has. The resources are put into a tree that has none yet.
pub fn open_snapshot<T: Tree>(
    alloc: Global,
    scratch: &mut Scratch,
    text: &[u8],
    home: Home,
    tree: T,
) -> Result<(Entity<T>, usize), SnapshotFault>
    requires { T.nodes tree ≡ [] }

    // What is opened is the entity whose snapshot stands there.
    ensures opens { IfOk result (λ o. SpellsEntity o.0 (take o.1 text.now)) }
    ensures home { IfOk result (λ o. o.0.home ≡ home) }
    ensures end { IfOk result (λ o. o.1 ≤ length text.now) }

    // Where the snapshot of an entity of this home stands, it is opened, unless memory runs out.
    ensures only { (e : EntityData) → (front back : List ℕ) → SpellsEntity e front → e.home ≡ home
        → text.now ≡ front ++ back
        → MatchResult result (λ o. (o.0 ≡ e) × (o.1 ≡ length front))
        (λ f. f ≡ SnapshotFault.OutOfMemory) }

    // A text that is refused is refused for the reason that is told.
    ensures refused { IfErr result (IsUnopened home text.now) }
{
    let (head, len) = read_head(alloc, scratch, text, &home)?;
    open_behind(alloc, scratch, text, home, tree, head, len)
}

//! What an operation tells subscriptions (TS-0001, 9.6.8), and sends to where copies of resources
//! stand (9.6.26), before anything is changed.
ghost use Rattle.std.specs.Prelude.{◌≡◌, ℕ, ◌≤◌, List, [], length, false, IfOk, IsTrue, Some};
ghost use Rattle.announce_copy.specs.Below.{lists_peers};
ghost use Rattle.resource_model.specs.Home.{HomeData};
ghost use Rattle.resource_model.specs.Resource.{ResourceData};
ghost use Rattle.subscription_match.specs.Notices.{notes_of_all};
ghost use Rattle.tree_model.specs.Changes.{creation_changes, deletion_changes, update_changes};
ghost use Rattle.tree_model.specs.Tree.{at, children_of, has, is_well_formed, number_at, subs_of};
ghost use Rattle.tree_model.specs.Tree.{DoAscend};
ghost use Rattle.entity_model.specs.Entity.{copy_requests};
ghost use Rattle.entity_model.specs.Telling.{IsTold};
ghost use Rattle.create_delete.specs.Joining.{gone_by};
ghost use Rattle.create_delete.specs.Telling as spec;

use crate::gathering::numbers_below;
use crate::joining::ContainerUpdate;
use announce_copy::{announces_below, lists_peers};
use entity_model::{Told, nothing_told, prepare_telling, prepare_uncopied};
use m2m_names::Ty;
use notify_outbox::Outbox;
use std::alloc::{AllocError as OutOfMemory, Global};
use tree_model::{AttrSet, Changes, Home, Resource, Tree};

/// Whether a copy may follow where a resource joins under another one, and pushes instances out
/// there: of these and of a new instance none does, unless their container lists a CSE in `at`.
pub(crate) fn copies_may_follow(parent: &Resource, resource: &Resource) -> bool
    ensures { result ≡ spec.copies_may_follow parent.now resource.now }
{
    if resource.is(Ty::ContentInstance) {
        lists_peers(parent)
    } else {
        lists_peers(resource)
    }
}

/// What a creation tells, with room for it in the outbox. Where it isn't copied, no copy follows
/// it; and where no subscription stands under the parent, nobody is told of it.
pub(crate) fn prepare_creation<T: Tree>(
    alloc: Global,
    tree: &T,
    home: &Home,
    outbox: &mut Outbox,
    resource: &Resource,
    update: &Option<ContainerUpdate>,
    is_copied: bool,
) -> Result<Told, OutOfMemory>
    requires order { DoAscend (gone_by update.now) }
    requires unheard { subs_of resource.now.parent (T.nodes tree.now) ≡ []
        → notes_of_all home.now (T.nodes tree.now) (gone_by update.now)
        (creation_changes (T.nodes tree.now) resource.now (gone_by update.now)) ≡ [] }
    requires unsent { is_copied ≡ false → copy_requests home.now (T.nodes tree.now)
        (creation_changes (T.nodes tree.now) resource.now (gone_by update.now)) ≡ [] }
    ensures told { IfOk result (IsTold home.now (T.nodes tree.now) (gone_by update.now)
        (creation_changes (T.nodes tree.now) resource.now (gone_by update.now))) }
    ensures room { IfOk result (λ t. length t.notes.items ≤ outbox.new.room) }
    ensures items { outbox.new.items ≡ outbox.old.items }
    ensures count { outbox.new.count ≡ outbox.old.count }
{
    let gone: &[u64] = match update {
        Some(update) => update.gone.entries(),
        None => &[],
    };
    let changes = Changes::of_creation(tree, resource, gone);
    if is_copied {
        let again = Changes::of_creation(tree, resource, gone);
        return prepare_telling(alloc, tree, home, outbox, gone, changes, again);
    }
    if is_unwatched(tree, resource.parent()) {
        return Ok(nothing_told(alloc));
    }
    prepare_uncopied(alloc, tree, home, outbox, gone, changes)
}

// Whether no subscription stands under the resource of a number.
fn is_unwatched<T: Tree>(tree: &T, number: u64) -> bool
    ensures { IsTrue result → subs_of number (T.nodes tree.now) ≡ [] }
{
    match tree.sub(number, 0) {
        Some(_) => false,
        None => true,
    }
}

/// What an Update of these attributes tells that leaves a resource so and pushes out the instances
/// of these numbers, with room for it in the outbox: nothing, where the resource isn't there. Where
/// it lists no CSE in `at`, no copy follows it, nor what it pushes out; and where no subscription
/// stands under it, nobody is told of that.
pub(crate) fn prepare_update<T: Tree>(
    alloc: Global,
    tree: &T,
    home: &Home,
    outbox: &mut Outbox,
    resource: &Resource,
    named: &AttrSet,
    gone: &[u64],
) -> Result<Told, OutOfMemory>
    requires order { DoAscend gone.now }
    requires unheard { (r : ResourceData) → subs_of resource.now.number (T.nodes tree.now) ≡ []
        → notes_of_all home.now (T.nodes tree.now) gone.now
        (update_changes (T.nodes tree.now) r resource.now named.now gone.now) ≡ [] }
    requires unsent { spec.GoUnsent home.now (T.nodes tree.now) resource.now.number gone.now }
    ensures told { (r : ResourceData) → at resource.now.number (T.nodes tree.now) ≡ Some r
        → IfOk result (IsTold home.now (T.nodes tree.now) gone.now
        (update_changes (T.nodes tree.now) r resource.now named.now gone.now)) }
    ensures room { IfOk result (λ t. length t.notes.items ≤ outbox.new.room) }
    ensures items { outbox.new.items ≡ outbox.old.items }
    ensures count { outbox.new.count ≡ outbox.old.count }
{
    match tree.get(resource.number()) {
        Some(before) => {
            let changes = Changes::of_update(tree, before, resource, named, gone);
            if !is_unannounced(before, resource) {
                let again = Changes::of_update(tree, before, resource, named, gone);
                return prepare_telling(alloc, tree, home, outbox, gone, changes, again);
            }
            if is_unwatched(tree, resource.number()) {
                return Ok(nothing_told(alloc));
            }
            prepare_uncopied(alloc, tree, home, outbox, gone, changes)
        }
        None => Ok(nothing_told(alloc)),
    }
}

// Whether a resource lists no CSE in `at`, neither as it was nor as it is now.
fn is_unannounced(before: &Resource, after: &Resource) -> bool
    ensures before { IsTrue result → lists_peers before.now ≡ false }
    ensures after { IsTrue result → lists_peers after.now ≡ false }
{
    !lists_peers(before) && !lists_peers(after)
}

/// What the deletion of the resource of a number tells, with room for it in the outbox. Where no
/// subscription stands beside it or below, and nothing there is announced, nothing is sought and no
/// memory is taken.
pub(crate) fn prepare_deletion<T: Tree>(
    alloc: Global,
    tree: &T,
    home: &Home,
    outbox: &mut Outbox,
    target: u64,
) -> Result<Told, OutOfMemory>
    requires there { IsTrue (has target (T.nodes tree.now)) }
    requires formed { IsTrue (is_well_formed (T.nodes tree.now)) }
    ensures told { IfOk result (IsTold home.now (T.nodes tree.now)
        (spec.numbers_below target (T.nodes tree.now))
        (deletion_changes (T.nodes tree.now) target)) }
    ensures room { IfOk result (λ t. length t.notes.items ≤ outbox.new.room) }
    ensures items { outbox.new.items ≡ outbox.old.items }
    ensures count { outbox.new.count ≡ outbox.old.count }
{
    if is_unnoticed(tree, target) {
        return Ok(nothing_told(alloc));
    }
    let going = numbers_below(alloc, tree, target)?;
    let changes = Changes::of_removal(tree, going.entries());
    let again = Changes::of_removal(tree, going.entries());
    prepare_telling(alloc, tree, home, outbox, going.entries(), changes, again)
}

// Whether nobody is told of the deletion of the resource of a number, and no copy is taken away.
fn is_unnoticed<T: Tree>(tree: &T, target: u64) -> bool
    requires { IsTrue (is_well_formed (T.nodes tree.now)) }
    ensures told { IsTrue result → (home : HomeData) (going : List ℕ)
        → notes_of_all home (T.nodes tree.now) going (deletion_changes (T.nodes tree.now) target)
        ≡ [] }
    ensures sent { IsTrue result → (home : HomeData)
        → copy_requests home (T.nodes tree.now) (deletion_changes (T.nodes tree.now) target)
        ≡ [] }
{
    if !is_unheard(tree, target) {
        return false;
    }
    if announces_below(tree, target) {
        return false;
    }
    true
}

// Whether nobody is told of it.
fn is_unheard<T: Tree>(tree: &T, target: u64) -> bool
    requires { IsTrue (is_well_formed (T.nodes tree.now)) }
    ensures { IsTrue result → (home : HomeData) (going : List ℕ)
        → notes_of_all home (T.nodes tree.now) going (deletion_changes (T.nodes tree.now) target)
        ≡ [] }
{
    match tree.get(target) {
        Some(resource) => is_unheard_from(tree, resource),
        None => false,
    }
}

fn is_unheard_from<T: Tree>(tree: &T, resource: &Resource) -> bool
    requires formed { IsTrue (is_well_formed (T.nodes tree.now)) }
    requires stands { at resource.now.number (T.nodes tree.now) ≡ Some resource.now }
    ensures { IsTrue result → (home : HomeData) (going : List ℕ)
        → notes_of_all home (T.nodes tree.now) going
        (deletion_changes (T.nodes tree.now) resource.now.number) ≡ [] }
{
    if !is_unwatched(tree, resource.parent()) {
        return false;
    }
    is_silent(tree, resource.number())
}

// Whether it is sure that no subscription stands under the resource of a number, or below.
#[cycle(silent)]
fn is_silent<T: Tree>(tree: &T, number: u64) -> bool
    requires { IsTrue (is_well_formed (T.nodes tree.now)) }
    ensures { IsTrue result → spec.IsSilent number (T.nodes tree.now) }
{
    if let Some(_) = tree.sub(number, 0) {
        return false;
    }
    // More children than instances aren't all instances, under which nothing stands.
    match tree.kid(number, tree.instance_count(number)) {
        Some(_) => are_kids_silent(tree, number),
        None => true,
    }
}

#[cycle(silent)]
fn are_kids_silent<T: Tree>(tree: &T, number: u64) -> bool
    requires { IsTrue (is_well_formed (T.nodes tree.now)) }
    ensures { IsTrue result → (k m : ℕ)
        → Some m ≡ number_at k (children_of number (T.nodes tree.now))
        → spec.IsSilent m (T.nodes tree.now) }
{
    for place in 0..tree.len() {
        let Some(kid) = tree.kid(number, place) else {
            return true;
        };
        if !is_silent(tree, kid) {
            return false;
        }
    }
    true
}

//! The expiry.
ghost use Rattle.std.specs.Prelude.{◌≡◌, ℕ, ◌≤◌, List, [], length, false};
ghost use Rattle.std.specs.Prelude.{IfOk, IfSome, OnOk, OnErr, IsTrue};
ghost use Rattle.std.specs.Option.{option_map_or};
ghost use Rattle.announce_copy.specs.Below as below;
ghost use Rattle.announce_copy.specs.Copies.{copies_of_all};
ghost use Rattle.resource_model.specs.Home.{HomeData};
ghost use Rattle.subscription_match.specs.Notices.{notes_of, notes_of_all};
ghost use Rattle.notify_outbox.specs.Outbox.{dropped};
ghost use Rattle.tree_model.specs.Changes.{deleted, removal_changes};
ghost use Rattle.tree_model.specs.Tree.{at, is_instance, is_tree, is_well_formed, live};
ghost use Rattle.tree_model.specs.Tree.{overdue_numbers, subs_of, DoAscend};
ghost use Rattle.entity_model.specs.Entity as spec;
ghost use Rattle.entity_model.specs.Entity.{expired, expired_told, last_reading, swept};
ghost use Rattle.entity_model.specs.Telling.{IsTold};
ghost use Rattle.entity_model.specs.Expiry.{is_some_due};
ghost use Rattle.entity_model.specs.Unnoticed.{GoesUnnoticed, LosesUnnoticed};

use crate::entity::Entity;
use crate::moments::event_moment;
use crate::telling::{nothing_told, prepare_telling, tell};
use crate::told::Told;
use announce_copy::lists_peers;
use m2m_names::Ty;
use notify_outbox::Outbox;
use std::alloc::{AllocError as OutOfMemory, Global};
use tree_model::{Changes, Home, Resource, Tree};

/// Brings the entity to the moment of an event at which the clock reads so, in seconds since 1970:
/// what is due by then is removed, with all that stands below it, and so are the items that have
/// waited the keeping time; then what the expiry tells is appended to the outbox. It looks at no
/// resource where the moment stands still or the tree knows that nothing is due, and takes no
/// memory there. Where memory runs out, nothing has changed.
pub fn sweep<T: Tree>(
    alloc: Global,
    entity: &mut Entity<T>,
    reading: u64,
) -> Result<(), OutOfMemory>
    ensures ok { OnOk result (entity.new ≡ swept reading entity.old) }
    ensures err { OnErr result (entity.new ≡ entity.old) }
    // Memory runs out only where something is due.
    ensures memory { OnErr result
        (IsTrue (is_some_due entity.old.nodes (spec.event_moment entity.old.last reading))) }
{
    let moment = event_moment(entity.last, reading);
    if moment == entity.last {
        return Ok(());
    }
    settle(entity);
    expire_to(alloc, entity, moment)
}

// Where the tree can't say that nothing is due at the moment of the last event, it finds anew what
// is due next. So a lower age of a container's instances costs one pass over all resources, not two.
fn settle<T: Tree>(entity: &mut Entity<T>)
    ensures { entity.new ≡ entity.old }
{
    find_dues(&mut entity.tree, entity.last);
}

fn find_dues<T: Tree>(tree: &mut T, last: u64)
    requires { live last (T.nodes tree.old) ≡ T.nodes tree.old }
    ensures { T.nodes tree.new ≡ T.nodes tree.old }
{
    if tree.quiet_until() <= last {
        tree.expire(last);
    }
}

// A moment comes: what is due goes and is told, where anything is, and what has waited the keeping
// time goes.
fn expire_to<T: Tree>(alloc: Global, entity: &mut Entity<T>, moment: u64) -> Result<(), OutOfMemory>
    requires later { entity.old.last ≤ moment }
    requires last { moment ≤ last_reading }
    ensures ok { OnOk result (entity.new ≡ expired_told moment entity.old) }
    ensures err { OnErr result (entity.new ≡ entity.old) }
    ensures memory { OnErr result (IsTrue (is_some_due entity.old.nodes moment)) }
{
    let gone = entity.tree.due_numbers(alloc, moment)?;
    if gone.entries().is_empty() {
        pass(entity, moment);
        return Ok(());
    }
    expire_and_tell(alloc, entity, moment, gone.entries())
}

// What is due goes, and so does what has waited the keeping time; then what the removal of these
// tells is appended.
fn expire_and_tell<T: Tree>(
    alloc: Global,
    entity: &mut Entity<T>,
    moment: u64,
    gone: &[u64],
) -> Result<(), OutOfMemory>
    requires later { entity.old.last ≤ moment }
    requires last { moment ≤ last_reading }
    requires gone { gone.now ≡ overdue_numbers moment entity.old.nodes }
    ensures ok { OnOk result (entity.new ≡ expired_told moment entity.old) }
    ensures err { OnErr result (entity.new ≡ entity.old) }
{
    let told = prepare_expiry(alloc, &entity.tree, &entity.home, &mut entity.outbox, gone)?;
    age_without(&mut entity.tree, &mut entity.outbox, moment, gone);
    entity.last = moment;
    tell(&mut entity.tree, &mut entity.outbox, moment, told);
    Ok(())
}

// What the removal of these tells, and sends to where copies stand. Where they go unnoticed, they are
// gone through once.
fn prepare_expiry<T: Tree>(
    alloc: Global,
    tree: &T,
    home: &Home,
    outbox: &mut Outbox,
    gone: &[u64],
) -> Result<Told, OutOfMemory>
    requires ascend { DoAscend gone.now }
    requires formed { IsTrue (is_well_formed (T.nodes tree.now)) }
    ensures told { IfOk result (IsTold home.now (T.nodes tree.now) gone.now
        (removal_changes (T.nodes tree.now) gone.now)) }
    ensures room { IfOk result (λ t. length t.notes.items ≤ outbox.new.room) }
    ensures items { outbox.new.items ≡ outbox.old.items }
    ensures count { outbox.new.count ≡ outbox.old.count }
{
    if are_unnoticed(tree, gone) {
        return Ok(nothing_told(alloc));
    }
    let changes = Changes::of_removal(tree, gone);
    let again = Changes::of_removal(tree, gone);
    prepare_telling(alloc, tree, home, outbox, gone, changes, again)
}

// Whether it is sure that nobody is told that the resources of these numbers go, and that nothing is
// sent to where copies stand. Most of what expires are instances of one container: the last
// container whose instances go unnoticed is kept, and an instance of it isn't looked at any further.
fn are_unnoticed<T: Tree>(tree: &T, gone: &[u64]) -> bool
    requires { IsTrue (is_well_formed (T.nodes tree.now)) }
    ensures told { IsTrue result → (home : HomeData) (going : List ℕ)
        → notes_of_all home (T.nodes tree.now) going
        (removal_changes (T.nodes tree.now) gone.now) ≡ [] }
    ensures sent { IsTrue result → (home : HomeData) → copies_of_all home (T.nodes tree.now)
        (removal_changes (T.nodes tree.now) gone.now) ≡ [] }
{
    let mut container: Option<u64> = None;
    for number in gone {
        if !goes_unnoticed(tree, *number, &mut container) {
            return false;
        }
    }
    true
}

// The same of the resource of one number, and of that container the one to keep behind it.
fn goes_unnoticed<T: Tree>(tree: &T, number: u64, container: &mut Option<u64>) -> bool
    requires formed { IsTrue (is_well_formed (T.nodes tree.now)) }
    requires container { IfSome container.old (LosesUnnoticed (T.nodes tree.now)) }
    ensures unnoticed { IsTrue result
        → IfSome (at number (T.nodes tree.now)) (GoesUnnoticed (T.nodes tree.now)) }
    ensures container { IfSome container.new (LosesUnnoticed (T.nodes tree.now)) }
{
    let Some(gone) = tree.get(number) else {
        return true;
    };
    *container = unnoticed_container(tree, gone, *container);
    if container.is_some() {
        return true;
    }
    is_unnoticed(tree, gone)
}

// The container of an instance, where its instances go unnoticed. Nothing is asked where it is the
// one that is known.
fn unnoticed_container<T: Tree>(tree: &T, gone: &Resource, known: Option<u64>) -> Option<u64>
    requires { IfSome known (LosesUnnoticed (T.nodes tree.now)) }
    ensures { IfSome result (λ n.
        IsTrue (is_instance n gone.now) × LosesUnnoticed (T.nodes tree.now) n) }
{
    if is_instance_of(gone, known) {
        return known;
    }
    own_container(tree, gone)
}

// Whether a resource is an instance of this container.
fn is_instance_of(resource: &Resource, container: Option<u64>) -> bool
    ensures { result ≡ option_map_or (λ n. is_instance n resource.now) container false }
{
    match container {
        Some(number) => resource.parent() == number && resource.is(Ty::ContentInstance),
        None => false,
    }
}

fn own_container<T: Tree>(tree: &T, gone: &Resource) -> Option<u64>
    ensures { IfSome result (λ n.
        IsTrue (is_instance n gone.now) × LosesUnnoticed (T.nodes tree.now) n) }
{
    if !gone.is(Ty::ContentInstance) {
        return None;
    }
    if !loses_unnoticed(tree, gone.parent()) {
        return None;
    }
    Some(gone.parent())
}

// Whether the instances of the container of a number go unnoticed: no subscription stands under it,
// and it lists no CSE in `at`.
fn loses_unnoticed<T: Tree>(tree: &T, number: u64) -> bool
    ensures { IsTrue result → LosesUnnoticed (T.nodes tree.now) number }
{
    if !is_unwatched(tree, number) {
        return false;
    }
    lists_none(tree, number)
}

// Whether the resource of a number lists no CSE in `at`.
fn lists_none<T: Tree>(tree: &T, number: u64) -> bool
    ensures { IsTrue result
        → option_map_or below.lists_peers (at number (T.nodes tree.now)) false ≡ false }
{
    match tree.get(number) {
        Some(resource) => !lists_peers(resource),
        None => true,
    }
}

// Whether it is sure that a resource goes unnoticed, where nothing is known of its parent: nobody is
// told that it is gone, and it lists no CSE in `at`.
fn is_unnoticed<T: Tree>(tree: &T, gone: &Resource) -> bool
    ensures { IsTrue result → GoesUnnoticed (T.nodes tree.now) gone.now }
{
    if lists_peers(gone) {
        return false;
    }
    is_untold(tree, gone)
}

// Whether nobody is told that a resource is gone: it is no subscription, and none stands beside it or
// under it.
fn is_untold<T: Tree>(tree: &T, gone: &Resource) -> bool
    ensures { IsTrue result → (home : HomeData) (going : List ℕ)
        → notes_of home (T.nodes tree.now) going (deleted gone.now) ≡ [] }
{
    if gone.is(Ty::Subscription) {
        return false;
    }
    if !is_unwatched(tree, gone.parent()) {
        return false;
    }
    is_unwatched(tree, gone.number())
}

// Whether no subscription stands under the resource of a number.
fn is_unwatched<T: Tree>(tree: &T, number: u64) -> bool
    ensures { IsTrue result → subs_of number (T.nodes tree.now) ≡ [] }
{
    match tree.sub(number, 0) {
        Some(_) => false,
        None => true,
    }
}

// Time passes: what is due goes, and what has waited the keeping time.
fn pass<T: Tree>(entity: &mut Entity<T>, moment: u64)
    requires later { entity.old.last ≤ moment }
    requires last { moment ≤ last_reading }
    ensures { entity.new ≡ expired moment entity.old }
{
    age(&mut entity.tree, &mut entity.outbox, moment);
    entity.last = moment;
}

// The same, where these are the numbers of what is overdue: they go at once, and the rest is asked
// when it is due.
fn age_without<T: Tree>(tree: &mut T, outbox: &mut Outbox, moment: u64, gone: &[u64])
    requires tree { IsTrue (is_tree (T.nodes tree.old)) }
    requires gone { gone.now ≡ overdue_numbers moment (T.nodes tree.old) }
    ensures nodes { T.nodes tree.new ≡ live moment (T.nodes tree.old) }
    ensures items { outbox.new ≡ dropped moment outbox.old }
{
    tree.remove_all(gone);
    age(tree, outbox, moment);
}

// What is due at a moment goes, with all that stands below it, and so does what has waited the
// keeping time. The tree isn't asked to let anything expire where it knows that nothing is due.
fn age<T: Tree>(tree: &mut T, outbox: &mut Outbox, moment: u64)
    requires { IsTrue (is_tree (T.nodes tree.old)) }
    ensures nodes { T.nodes tree.new ≡ live moment (T.nodes tree.old) }
    ensures items { outbox.new ≡ dropped moment outbox.old }
{
    outbox.drop_old(moment);
    let quiet = tree.quiet_until();
    if moment < quiet {
        return;
    }
    tree.expire(moment);
}

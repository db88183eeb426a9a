//! What a Retrieve shows.
ghost use Rattle.std.specs.Prelude.{◌≡◌, IfOk, IsTrue, Some};
ghost use Rattle.m2m_names.specs.Name.{is_originator};
ghost use Rattle.tree_model.specs.Tree.{at, is_tree};
ghost use Rattle.retrieve_discover.specs.Contents as spec;
ghost use Rattle.retrieve_discover.specs.Replies.{is_by_id};

use crate::descendants::add_descendants;
use crate::look::{Viewer, object_members};
use crate::references::references;
use crate::replies;
use entity_model::{object_of_one, wanted_content};
use known_rights::{Asker, Known};
use m2m_value::{MemberKey, Val};
use primitive_json::Request;
use std::alloc::{AllocError as OutOfMemory, Global};
use tree_model::{Home, Resource, Tree, attributes, under_type};

/// The content of the reply to a Retrieve of the target, by its result content.
pub(crate) fn content_of_reply<T: Tree>(
    alloc: Global,
    tree: &T,
    home: &Home,
    originator: &[u8],
    request: &Request,
    target: &Resource,
) -> Result<Val, OutOfMemory>
    requires tree { IsTrue (is_tree (T.nodes tree.now)) }
    requires originator { IsTrue (is_originator originator.now) }
    requires target { at target.now.number (T.nodes tree.now) ≡ Some target.now }
    ensures { IfOk result (λ v. v ≡ spec.content home.now (T.nodes tree.now) originator.now
        (is_by_id request.now) request.now.rcn target.now) }
{
    match wanted_content(request) {
        4 | 5 | 6 => content_beyond(alloc, tree, home, originator, request, target),
        _ => attributes(alloc, tree, home, target),
    }
}

// The same where others than the target may be shown.
fn content_beyond<T: Tree>(
    alloc: Global,
    tree: &T,
    home: &Home,
    originator: &[u8],
    request: &Request,
    target: &Resource,
) -> Result<Val, OutOfMemory>
    requires tree { IsTrue (is_tree (T.nodes tree.now)) }
    requires originator { IsTrue (is_originator originator.now) }
    requires target { at target.now.number (T.nodes tree.now) ≡ Some target.now }
    ensures { IfOk result (λ v. v ≡ spec.content home.now (T.nodes tree.now) originator.now
        (is_by_id request.now) request.now.rcn target.now) }
{
    let asker = Asker::of(alloc, home, originator)?;
    content_for(alloc, tree, &asker, request, target)
}

fn content_for<T: Tree>(
    alloc: Global,
    tree: &T,
    asker: &Asker,
    request: &Request,
    target: &Resource,
) -> Result<Val, OutOfMemory>
    requires tree { IsTrue (is_tree (T.nodes tree.now)) }
    requires originator { IsTrue (is_originator asker.now.originator) }
    requires target { at target.now.number (T.nodes tree.now) ≡ Some target.now }
    ensures { IfOk result (λ v. v ≡ spec.content asker.now.home (T.nodes tree.now)
        asker.now.originator (is_by_id request.now) request.now.rcn target.now) }
{
    let look = Viewer {
        tree,
        asker,
        by_id: replies::is_by_id(request),
    };
    match wanted_content(request) {
        4 => whole(alloc, &look, target),
        5 => with_references(alloc, &look, target),
        6 => references_alone(alloc, &look, target),
        _ => attributes(alloc, tree, asker.home(), target),
    }
}

// The most descendants that are shown.
const MOST_SHOWN: usize = 128;

fn whole<T: Tree>(alloc: Global, look: &Viewer<T>, target: &Resource) -> Result<Val, OutOfMemory>
    requires tree { IsTrue (is_tree (T.nodes look.now.tree.now)) }
    requires originator { IsTrue (is_originator look.now.asker.now.originator) }
    ensures { IfOk result (λ v. v ≡ spec.whole look.now.asker.now.home (T.nodes look.now.tree.now)
        look.now.asker.now.originator target.now) }
{
    let mut shown = object_members(alloc, look, target)?;
    let mut left = MOST_SHOWN;
    let mut known = Known::nothing(alloc);
    add_descendants(
        alloc,
        look,
        target.number(),
        &mut left,
        &mut shown,
        &mut known,
    )?;
    under_type(alloc, target.ty(), shown)
}

fn with_references<T: Tree>(
    alloc: Global,
    look: &Viewer<T>,
    target: &Resource,
) -> Result<Val, OutOfMemory>
    requires tree { IsTrue (is_tree (T.nodes look.now.tree.now)) }
    requires originator { IsTrue (is_originator look.now.asker.now.originator) }
    requires target { at target.now.number (T.nodes look.now.tree.now) ≡ Some target.now }
    ensures { IfOk result (λ v. v ≡ spec.with_references look.now.asker.now.home
        (T.nodes look.now.tree.now) look.now.asker.now.originator look.now.by_id target.now) }
{
    let mut shown = object_members(alloc, look, target)?;
    let children = references(alloc, look, target)?;
    shown.put(MemberKey::named("ch"), children)?;
    under_type(alloc, target.ty(), shown)
}

fn references_alone<T: Tree>(
    alloc: Global,
    look: &Viewer<T>,
    target: &Resource,
) -> Result<Val, OutOfMemory>
    requires tree { IsTrue (is_tree (T.nodes look.now.tree.now)) }
    requires originator { IsTrue (is_originator look.now.asker.now.originator) }
    requires target { at target.now.number (T.nodes look.now.tree.now) ≡ Some target.now }
    ensures { IfOk result (λ v. v ≡ spec.references_alone look.now.asker.now.home
        (T.nodes look.now.tree.now) look.now.asker.now.originator look.now.by_id target.now) }
{
    let children = references(alloc, look, target)?;
    object_of_one(
        alloc,
        target.ty().member(),
        object_of_one(alloc, "ch", children)?,
    )
}

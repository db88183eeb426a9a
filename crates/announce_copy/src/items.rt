//! Operations on copies as items of the outbox.
ghost use Rattle.std.specs.Prelude.{◌≡◌, IfOk, IsUtf8};
ghost use Rattle.announce_copy.specs.Items as spec;

use crate::drafts::{CopyDraft, CopyDrafts};
use m2m_value::Text;
use primitive_json::{Dest, Kind, Note, NoteParts, Request, RequestParts};
use std::alloc::{AllocError as OutOfMemory, Global};
use subscription_match::aim;
use tree_model::{Home, Tree, own_cse_id};

fn request_of(alloc: Global, home: &Home, draft: CopyDraft) -> Result<Request, OutOfMemory>
    requires { IsUtf8 draft.1 }
    ensures { IfOk result (λ r. r ≡ spec.request_of home.now draft) }
{
    let fr = own_cse_id(alloc, home)?;
    let (op, to, ty, pc) = draft;
    Ok(Request::of(RequestParts {
        op,
        to,
        fr: Some(fr),
        rqi: Text::of(Vec::new(alloc)),
        ty: ty.map(|ty| ty.number()),
        pc,
        rqet: None,
        rt: None,
        rcn: Some(0),
        fc: None,
        drt: None,
    }))
}

fn copy_note<T: Tree>(
    alloc: Global,
    tree: &T,
    home: &Home,
    draft: CopyDraft,
) -> Result<Note, OutOfMemory>
    requires { IsUtf8 draft.1 }
    ensures { IfOk result (λ n. n ≡ spec.copy_note home.now (T.nodes tree.now) draft) }
{
    let dest = aim(alloc, tree, home, draft.1.entries())?;
    let request = request_of(alloc, home, draft)?;
    Ok(Note::of(NoteParts {
        kind: Kind::Copy,
        dest,
        request,
    }))
}

/// The items that drafts become, in their order, without their numbers: requests by this CSE that
/// want no content back. The tree is the one before the operation, on which it is settled where
/// each goes. No draft takes no memory.
pub fn copy_notes<T: Tree>(
    alloc: Global,
    tree: &T,
    home: &Home,
    drafts: CopyDrafts,
) -> Result<Vec<Note>, OutOfMemory>
    ensures { IfOk result (λ v. v.items
        ≡ spec.copy_notes home.now (T.nodes tree.now) drafts) }
{
    if drafts.entries().is_empty() {
        return Ok(Vec::new(alloc));
    }
    let mut items = Vec::with_capacity(alloc, drafts.entries().len())?;
    for draft in drafts.into_vec() {
        items.push(copy_note(alloc, tree, home, draft)?)?;
    }
    Ok(items)
}

//! Drafts as items of the outbox.
ghost use Rattle.std.specs.Prelude.{◌≡◌, ◌<◌, ◌∷◌, [], ◌++◌, length, vec_capacity, IfOk, OnOk};
ghost use Rattle.subscription_match.specs.Items as spec;

use crate::destinations::aim;
use crate::drafts::Draft;
use m2m_names::Op;
use m2m_value::Text;
use primitive_json::{Dest, Kind, Note, NoteParts, Request, RequestParts};
use std::alloc::{AllocError as OutOfMemory, Global};
use tree_model::{Home, Tree, own_cse_id};

// Puts the item that a draft becomes behind others, for which there is room.
fn add_item<T: Tree>(
    alloc: Global,
    tree: &T,
    home: &Home,
    draft: Draft,
    items: &mut Vec<Note>,
) -> Result<(), OutOfMemory>
    requires { length items.old.items < vec_capacity items.old }
    ensures item { OnOk result (items.new.items
        ≡ items.old.items ++ spec.item_of home.now (T.nodes tree.now) draft ∷ []) }
    ensures room { vec_capacity items.new ≡ vec_capacity items.old }
{
    let draft = draft.into_parts();
    let dest = aim(alloc, tree, home, draft.target.entries())?;
    let fr = own_cse_id(alloc, home)?;
    let request = Request::of(RequestParts {
        op: Op::Notify,
        to: draft.target,
        fr: Some(fr),
        rqi: Text::of(Vec::new(alloc)),
        ty: None,
        pc: Some(draft.content),
        rqet: None,
        rt: None,
        rcn: None,
        fc: None,
        drt: None,
    });
    items.push_reserved(Note::of(NoteParts {
        kind: Kind::Notification,
        dest,
        request,
    }));
    Ok(())
}

/// The items that drafts become, in their order, without their numbers. The tree is the one before
/// the operation, on which it is settled where each goes.
pub fn items_of<T: Tree>(
    alloc: Global,
    tree: &T,
    home: &Home,
    drafts: Vec<Draft>,
) -> Result<Vec<Note>, OutOfMemory>
    ensures { IfOk result (λ v. v.items
        ≡ spec.items_of home.now (T.nodes tree.now) drafts.items) }
{
    let mut items = Vec::with_capacity(alloc, drafts.len())?;
    for draft in drafts {
        add_item(alloc, tree, home, draft, &mut items)?;
    }
    Ok(items)
}

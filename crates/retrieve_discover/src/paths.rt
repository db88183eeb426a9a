//! Structured addresses that grow and are cut.
ghost use Rattle.std.specs.Prelude.{◌≡◌, ◌∷◌, ◌++◌, IfOk, OnOk, IsTrue, IsUtf8, Some};
ghost use Rattle.tree_model.specs.Tree.{at, is_tree};
ghost use Rattle.addressing.specs.Names.{structured_of};
ghost use Rattle.retrieve_discover.specs.Findings as spec;

use m2m_value::{Text, Val};
use std::alloc::{AllocError as OutOfMemory, Global};
use tree_model::{Resource, Tree};

/// Goes down from a resource to its child: a slash, and the name.
pub(crate) fn go_down(path: &mut Vec<u8>, child: &Resource) -> Result<(), OutOfMemory>
    ensures path { OnOk result (path.new.items ≡ path.old.items ++ 47 ∷ child.now.name) }
    ensures utf8 { OnOk result (IsUtf8 path.old.items → IsUtf8 path.new.items) }
{
    path.push(b'/')?;
    path.extend_from_slice(child.name().entries())?;
    Ok(())
}

/// The structured address of a resource of the tree.
pub(crate) fn path_to<T: Tree>(
    alloc: Global,
    tree: &T,
    resource: &Resource,
) -> Result<Vec<u8>, OutOfMemory>
    requires tree { IsTrue (is_tree (T.nodes tree.now)) }
    requires resource { at resource.now.number (T.nodes tree.now) ≡ Some resource.now }
    ensures value { IfOk result (λ p. p.items
        ≡ structured_of resource.now.number (T.nodes tree.now)) }
    ensures utf8 { IfOk result (λ p. IsUtf8 p.items) }
{
    match tree.get(resource.parent()) {
        Some(parent) => {
            let mut path = path_to(alloc, tree, parent)?;
            go_down(&mut path, resource)?;
            Ok(path)
        }
        None => Vec::from_slice(alloc, resource.name().entries()),
    }
}

/// The address of a resource, whose path this is: the path, or its resource id.
pub(crate) fn address<T: Tree>(
    alloc: Global,
    tree: &T,
    by_id: bool,
    resource: &Resource,
    path: &[u8],
) -> Result<Val, OutOfMemory>
    requires path { path.now ≡ structured_of resource.now.number (T.nodes tree.now) }
    requires utf8 { IsUtf8 path.now }
    ensures { IfOk result (λ v. v ≡ spec.address by_id (T.nodes tree.now) resource.now) }
{
    if by_id {
        Ok(Val::of_text(resource.id(alloc)?))
    } else {
        Ok(Val::of_text(Text::from_slice(alloc, path)?))
    }
}

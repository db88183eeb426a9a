//! Structured addresses.
ghost use Rattle.std.specs.Prelude.{◌≡◌, IfOk, IsTrue, map};
ghost use Rattle.tree_model.specs.Tree.{has, line_of};
ghost use Rattle.addressing.specs.Names.{structured_of};

use crate::addr::with_slashes;
use m2m_value::Text;
use std::alloc::{AllocError, Global};
use tree_model::Tree;

/// The structured address of a resource: the names from the CSEBase down to it, with a slash
/// between them. It may be longer than an address that is read.
#[tactic(auto, using(crate::proofs::NameLemmas::structured_from))]
pub fn structured<T: Tree>(alloc: Global, tree: &T, number: u64) -> Result<Text, AllocError>
    requires { IsTrue (has number (T.nodes tree.now)) }
    ensures { IfOk result (λ text. text ≡ structured_of number (T.nodes tree.now)) }
{
    let mut names = names_up(alloc, tree, number)?;
    names.reverse();
    with_slashes(alloc, &names)
}

/// The names of a resource, of its parent, and so on up to the CSEBase.
#[tactic(auto, using(crate::proofs::NameLemmas::names_upwards))]
fn names_up<T: Tree>(alloc: Global, tree: &T, number: u64) -> Result<Vec<&[u8]>, AllocError>
    ensures { IfOk result (λ names. map (λ t. t.now) names.items
        ≡ map (λ r. r.name) (line_of number (T.nodes tree.now))) }
{
    let mut names = Vec::new(alloc);
    if tree.len() == 0 {
        return Ok(names);
    }
    let mut at = number;
    while let Some(resource) = tree.get(at) {
        names.push(resource.name().entries())?;
        at = resource.parent();
    }
    Ok(names)
}

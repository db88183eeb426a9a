//! The numbers of a resource and of all that stands below it.
ghost use Rattle.std.specs.Prelude.{◌≡◌, IfOk, IsTrue, OnOk};
ghost use Rattle.tree_model.specs.Tree.{has, is_tree, Gathers};
ghost use Rattle.create_delete.specs.Telling as spec;

use m2m_value::Numbers;
use std::alloc::{AllocError as OutOfMemory, Global};
use tree_model::Tree;

/// The numbers of a resource and of all that stands below it, in order of creation. They are
/// gathered from child to child; nothing else is looked at.
pub(crate) fn numbers_below<T: Tree>(
    alloc: Global,
    tree: &T,
    target: u64,
) -> Result<Numbers, OutOfMemory>
    requires tree { IsTrue (is_tree (T.nodes tree.now)) }
    requires there { IsTrue (has target (T.nodes tree.now)) }
    ensures { IfOk result (λ n. n ≡ spec.numbers_below target (T.nodes tree.now)) }
{
    let mut numbers = Vec::new(alloc);
    gather(tree, target, &mut numbers)?;
    numbers.sort()?;
    numbers.dedup();
    Ok(Numbers::of(numbers))
}

// Puts the numbers of a resource and of all that stands below it behind others.
fn gather<T: Tree>(tree: &T, number: u64, numbers: &mut Vec<u64>) -> Result<(), OutOfMemory>
    requires tree { IsTrue (is_tree (T.nodes tree.now)) }
    requires there { IsTrue (has number (T.nodes tree.now)) }
    ensures { OnOk result
        (Gathers number (T.nodes tree.now) numbers.old.items numbers.new.items) }
{
    numbers.push(number)?;
    for place in 0..tree.len() {
        let Some(kid) = tree.kid(number, place) else {
            return Ok(());
        };
        gather(tree, kid, numbers)?;
    }
    Ok(())
}

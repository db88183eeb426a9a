//! What is overdue.
ghost use Rattle.std.specs.Prelude.{◌≡◌, ◌≢◌, [], IfOk, OnErr};
ghost use Rattle.container_limits.specs.Overdue.{overdue_numbers};

use m2m_value::Numbers;
use std::alloc::{AllocError as OutOfMemory, Global};
use tree_model::Tree;

/// The numbers of the resources that are overdue at a moment, in order of creation: those that are
/// due, and all that stand below one.
pub fn overdue<T: Tree>(alloc: Global, tree: &T, moment: u64) -> Result<Numbers, OutOfMemory>
    ensures value { IfOk result (λ n. n ≡ overdue_numbers moment (T.nodes tree.now)) }
    // No memory is taken where nothing is overdue.
    ensures memory { OnErr result (overdue_numbers moment (T.nodes tree.now) ≢ []) }
{
    tree.due_numbers(alloc, moment)
}

//! The children of a resource, one by one.
ghost use Rattle.std.specs.Prelude.{◌≡◌, ◌+◌, ◌^◌, ◌<◌, IfSome, IsTrue, Some, option_map};
ghost use Rattle.std.specs.Prelude.{slice_get};
ghost use Rattle.tree_model.specs.Tree.{at, children_of, instances_of, is_tree, subs_of};

use crate::tree::Tree;
use resource_model::Resource;

/// The child of a resource at place k in order of creation, from 0.
pub fn child_at<T: Tree>(tree: &T, parent: u64, k: u64) -> Option<&Resource>
    ensures value { option_map (λ r. r.now) result
        ≡ slice_get (children_of parent (T.nodes tree.now)) k }
    ensures stands { IfSome result (λ r. at r.now.number (T.nodes tree.now) ≡ Some r.now) }
    ensures under { IfSome result (λ r. r.now.parent ≡ parent) }
    ensures tree { IsTrue (is_tree (T.nodes tree.now)) }
{
    let number = tree.kid(parent, k)?;
    tree.get(number)
}

/// The same among its subscriptions.
pub fn subscription_at<T: Tree>(tree: &T, parent: u64, k: u64) -> Option<&Resource>
    ensures value { option_map (λ r. r.now) result
        ≡ slice_get (subs_of parent (T.nodes tree.now)) k }
    ensures stands { IfSome result (λ r. at r.now.number (T.nodes tree.now) ≡ Some r.now) }
    // A place is below the number of what stands there.
    ensures few { IfSome result (λ _. k + 1 < 2 ^ 64) }
    ensures tree { IsTrue (is_tree (T.nodes tree.now)) }
{
    let number = tree.sub(parent, k)?;
    tree.get(number)
}

/// The instance of a container at place k, the oldest first, from 0.
pub(crate) fn instance_at<T: Tree>(tree: &T, container: u64, k: u64) -> Option<&Resource>
    ensures value { option_map (λ r. r.now) result
        ≡ slice_get (instances_of container (T.nodes tree.now)) k }
    ensures few { IfSome result (λ _. k + 1 < 2 ^ 64) }
{
    let number = tree.nth_instance(container, k)?;
    tree.get(number)
}

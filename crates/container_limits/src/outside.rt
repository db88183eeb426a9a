//! How many of a container's instances are too many, or too large together, where none is due.
ghost use Rattle.std.specs.Prelude.{◌≡◌, ◌-◌, drop, length, option_to_list};
ghost use Rattle.std.specs.Option.{option_map_or};
ghost use Rattle.tree_model.specs.Tree.{instances_of};
ghost use Rattle.container_limits.specs.Limits.{longest_fit};

use crate::instances::{less, more, size_at, total, with_new};
use crate::limits::{Limits, Total, is_total_within};
use tree_model::Tree;

/// How many of a container's instances, the oldest first, stand outside the longest suffix that
/// fits, where one of this size follows them.
pub(crate) fn outside_count<T: Tree>(
    tree: &T,
    container: u64,
    limits: Limits,
    new_size: Option<u64>,
) -> u64
    ensures { longest_fit limits new_size (instances_of container (T.nodes tree.now))
        ≡ drop result (instances_of container (T.nodes tree.now)) }
{
    match limits.mbs {
        Some(_) => outside_by_size(tree, container, limits, new_size),
        None => excess(tree.instance_count(container), limits.mni, new_size),
    }
}

// Of so many instances, how many are too many.
fn excess(count: u64, mni: Option<u64>, new_size: Option<u64>) -> u64
    ensures { result
        ≡ option_map_or (λ most. count - (most - length (option_to_list new_size))) mni 0 }
{
    match mni {
        Some(most) => count.saturating_sub(room(most, new_size)),
        None => 0,
    }
}

// How many may stand before the new one.
fn room(most: u64, new_size: Option<u64>) -> u64
    ensures { result ≡ most - length (option_to_list new_size) }
{
    match new_size {
        Some(_) => most.saturating_sub(1),
        None => most,
    }
}

// The instances are looked at from both ends at once: of the oldest ones each is taken off the
// total until the rest fits, and of the newest ones each is added up until these don't fit. So at
// most one more is looked at than twice the fewer of those that go and of those that stay.
fn outside_by_size<T: Tree>(tree: &T, container: u64, limits: Limits, new_size: Option<u64>) -> u64
    ensures { longest_fit limits new_size (instances_of container (T.nodes tree.now))
        ≡ drop result (instances_of container (T.nodes tree.now)) }
{
    let count = tree.instance_count(container);
    let all = total(tree, container);
    let mut rest = with_new(all, new_size);
    let mut newest = with_new(Total { count: 0, sizes: 0 }, new_size);
    for k in 0..count {
        let fits = is_total_within(rest, limits);
        if fits {
            return k;
        }
        let last = size_at(tree, container, count - (k + 1));
        newest = more(newest, last);
        let stays = is_total_within(newest, limits);
        if !stays {
            return count - k;
        }
        let first = size_at(tree, container, k);
        rest = less(rest, first);
    }
    count
}

//! The instances of a container, one by one, and what they add up to.
ghost use Rattle.std.specs.Prelude.{◌≡◌, ◌+◌, ◌-◌, ◌^◌, ◌<◌, IsTrue, length, filter, sum_by};
ghost use Rattle.std.specs.Prelude.{option_map, option_to_list, slice_get, unwrap_or};
ghost use Rattle.tree_model.specs.Tree.{age_of, instances_of, instance_size, is_tree};
ghost use Rattle.container_limits.specs.Limits.{lasts, is_in_state, is_age, is_mia_of};
ghost use Rattle.container_limits.specs.Limits.{IsQuiet};

use crate::limits::{Total, is_due_by};
use m2m_names::Attr;
use resource_model::Resource;
use tree_model::{Tree, over_instances};

fn size(resource: &Resource) -> u64
    ensures { result ≡ instance_size resource.now }
{
    resource.attrs().count(Attr::Cs).unwrap_or(0)
}

/// The size of the instance of a container at a place, the oldest first, from 0. Where none stands
/// there, it is 0.
pub(crate) fn size_at<T: Tree>(tree: &T, container: u64, k: u64) -> u64
    ensures { result ≡ sum_by instance_size
        (option_to_list (slice_get (instances_of container (T.nodes tree.now)) k)) }
{
    size_if_any(instance_at(tree, container, k))
}

fn size_if_any(instance: Option<&Resource>) -> u64
    ensures { result ≡ sum_by instance_size
        (option_to_list (option_map (λ r. r.now) instance.entry)) }
{
    match instance {
        Some(instance) => size(instance),
        None => 0,
    }
}

fn instance_at<T: Tree>(tree: &T, container: u64, k: u64) -> Option<&Resource>
    ensures { option_map (λ r. r.now) result
        ≡ slice_get (instances_of container (T.nodes tree.now)) k }
{
    let number = tree.nth_instance(container, k)?;
    tree.get(number)
}

/// The total without one of this size.
pub(crate) fn less(total: Total, size: u64) -> Total
    ensures count { result.count ≡ total.count - 1 }
    ensures sizes { result.sizes ≡ total.sizes - size }
{
    Total {
        count: total.count.saturating_sub(1),
        sizes: total.sizes.saturating_sub(size as u128),
    }
}

/// The total with one of this size besides.
pub(crate) fn more(total: Total, size: u64) -> Total
    requires count { total.count + 1 < 2 ^ 128 }
    requires sizes { total.sizes + size < 2 ^ 128 }
    ensures count { result.count ≡ total.count + 1 }
    ensures sizes { result.sizes ≡ total.sizes + size }
{
    Total {
        count: total.count + 1,
        sizes: total.sizes + size as u128,
    }
}

fn is_in_state(resource: &Resource, due: bool, mia: Option<u64>, moment: u64) -> bool
    ensures { result ≡ is_in_state due mia moment resource.now }
{
    if due {
        is_due_by(resource, mia, moment)
    } else {
        !is_due_by(resource, mia, moment)
    }
}

/// The total without an instance, where it is due, or where it isn't.
pub(crate) fn without(
    total: Total,
    resource: Option<&Resource>,
    due: bool,
    mia: Option<u64>,
    moment: u64,
) -> Total
    ensures count { result.count
        ≡ total.count - length (filter (is_in_state due mia moment)
        (option_to_list (option_map (λ r. r.now) resource.entry))) }
    ensures sizes { result.sizes
        ≡ total.sizes - sum_by instance_size (filter (is_in_state due mia moment)
        (option_to_list (option_map (λ r. r.now) resource.entry))) }
{
    match resource {
        Some(resource) => {
            if is_in_state(resource, due, mia, moment) {
                less(total, size(resource))
            } else {
                total
            }
        }
        None => total,
    }
}

/// The total with one of this size besides, if any.
pub(crate) fn with_new(total: Total, new_size: Option<u64>) -> Total
    requires count { total.count < 2 ^ 64 }
    requires sizes { total.sizes < 2 ^ 127 }
    ensures count { result.count ≡ total.count + length (option_to_list new_size) }
    ensures sizes { result.sizes ≡ total.sizes + unwrap_or new_size 0 }
    ensures few { result.count < 2 ^ 128 }
    ensures small { result.sizes < 2 ^ 128 }
{
    match new_size {
        Some(size) => more(total, size),
        None => total,
    }
}

/// The total of a container's instances.
pub(crate) fn total<T: Tree>(tree: &T, container: u64) -> Total
    ensures count { result.count ≡ length (instances_of container (T.nodes tree.now)) }
    ensures sizes { result.sizes
        ≡ sum_by instance_size (instances_of container (T.nodes tree.now)) }
    ensures few { result.count < 2 ^ 64 }
    ensures small { result.sizes < 2 ^ 127 }
{
    Total {
        count: tree.instance_count(container) as u128,
        sizes: tree.instance_sizes(container),
    }
}

/// The total of those that aren't due.
pub(crate) fn lasting_total<T: Tree>(
    tree: &T,
    container: u64,
    mia: Option<u64>,
    moment: u64,
) -> Total
    ensures count { result.count
        ≡ length (filter (lasts mia moment) (instances_of container (T.nodes tree.now))) }
    ensures sizes { result.sizes ≡ sum_by instance_size
        (filter (lasts mia moment) (instances_of container (T.nodes tree.now))) }
    ensures few { result.count < 2 ^ 64 }
    ensures small { result.sizes < 2 ^ 127 }
{
    let mut total = total(tree, container);
    let mut oldest = over_instances(tree, container);
    for k in 0..tree.instance_count(container) {
        let instance = oldest.next();
        total = without(total, instance, true, mia, moment);
    }
    total
}

/// Whether the tree knows that none of a container's instances is due at the moment, where they may
/// reach this age.
pub(crate) fn is_quiet<T: Tree>(tree: &T, container: u64, mia: Option<u64>, moment: u64) -> bool
    ensures quiet { IsQuiet result mia moment (instances_of container (T.nodes tree.now)) }
    ensures tree { IsTrue (is_tree (T.nodes tree.now)) }
{
    is_mia_of(tree.get(container), mia) && moment < tree.quiet_until()
}

fn is_mia_of(container: Option<&Resource>, mia: Option<u64>) -> bool
    ensures { result ≡ is_mia_of (option_map (λ r. r.now) container.entry) mia }
{
    match mia {
        Some(age) => has_mia(container, age),
        None => true,
    }
}

fn has_mia(container: Option<&Resource>, age: u64) -> bool
    ensures { result ≡ is_age (age_of (option_map (λ r. r.now) container.entry)) age }
{
    match container {
        Some(container) => is_age(container.attrs().count(Attr::Mia), age),
        None => false,
    }
}

fn is_age(mia: Option<u64>, age: u64) -> bool
    ensures { result ≡ is_age mia age }
{
    match mia {
        Some(own) => own == age,
        None => false,
    }
}

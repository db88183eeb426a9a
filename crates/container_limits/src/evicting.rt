//! What the limits of a container push out.
ghost use Rattle.std.specs.Prelude.{◌≡◌, ◌≢◌, [], ◌∷◌, ◌++◌, filter, take};
ghost use Rattle.std.specs.Prelude.{option_map, option_to_list, IfOk, IsTrue, OnOk, OnErr};
ghost use Rattle.tree_model.specs.Tree.{instances_of, is_tree};
ghost use Rattle.container_limits.specs.Limits.{goes, evicted, numbers_of};
ghost use Rattle.container_limits.specs.Limits.{IsQuiet};

use crate::instances::{is_quiet, lasting_total, with_new, without};
use crate::limits::{Limits, is_due_by, is_total_within};
use crate::outside::outside_count;
use m2m_value::Numbers;
use resource_model::Resource;
use std::alloc::{AllocError as OutOfMemory, Global};
use tree_model::{Tree, over_instances};

/// The numbers of the instances of a container that these limits push out at a moment, oldest
/// first: those that are due, and then those outside the longest suffix that fits, where one of
/// this size follows them.
pub fn evictions<T: Tree>(
    alloc: Global,
    tree: &T,
    container: u64,
    limits: Limits,
    new_size: Option<u64>,
    moment: u64,
) -> Result<Numbers, OutOfMemory>
    ensures value { IfOk result (λ n. n
        ≡ evicted limits new_size moment (instances_of container (T.nodes tree.now))) }
    // No memory is taken where nothing goes.
    ensures memory { OnErr result
        (evicted limits new_size moment (instances_of container (T.nodes tree.now)) ≢ []) }
{
    let quiet = is_quiet(tree, container, limits.mia, moment);
    Ok(Numbers::of(gone(alloc, tree, container, limits, new_size, moment, quiet)?))
}

// Where it is known that none is due, the age of none is looked at.
fn gone<T: Tree>(
    alloc: Global,
    tree: &T,
    container: u64,
    limits: Limits,
    new_size: Option<u64>,
    moment: u64,
    quiet: bool,
) -> Result<Vec<u64>, OutOfMemory>
    requires tree { IsTrue (is_tree (T.nodes tree.now)) }
    requires quiet { IsQuiet quiet limits.mia moment (instances_of container (T.nodes tree.now)) }
    ensures value { IfOk result (λ v. v.items
        ≡ evicted limits new_size moment (instances_of container (T.nodes tree.now))) }
    ensures memory { OnErr result
        (evicted limits new_size moment (instances_of container (T.nodes tree.now)) ≢ []) }
{
    if quiet {
        let outside = outside_count(tree, container, limits, new_size);
        return oldest_numbers(alloc, tree, container, outside);
    }
    some_gone(alloc, tree, container, limits, new_size, moment)
}

// The numbers of so many of a container's instances, oldest first. None of them is looked at.
fn oldest_numbers<T: Tree>(
    alloc: Global,
    tree: &T,
    container: u64,
    count: u64,
) -> Result<Vec<u64>, OutOfMemory>
    ensures value { IfOk result (λ v. v.items
        ≡ numbers_of (take count (instances_of container (T.nodes tree.now)))) }
    ensures memory { OnErr result
        (numbers_of (take count (instances_of container (T.nodes tree.now))) ≢ []) }
{
    let mut numbers = Vec::new(alloc);
    for k in 0..count {
        let number = tree.nth_instance(container, k);
        push_some(&mut numbers, number)?;
    }
    Ok(numbers)
}

fn push_some(numbers: &mut Vec<u64>, number: Option<u64>) -> Result<(), OutOfMemory>
    ensures ok { OnOk result (numbers.new.items
        ≡ numbers.old.items ++ option_to_list number) }
    ensures memory { OnErr result (option_to_list number ≢ []) }
{
    match number {
        Some(number) => {
            numbers.push(number)?;
            Ok(())
        }
        None => Ok(()),
    }
}

// The same, where some may be due: the oldest ones go until the rest is within the limits, and of
// the rest those that are due.
fn some_gone<T: Tree>(
    alloc: Global,
    tree: &T,
    container: u64,
    limits: Limits,
    new_size: Option<u64>,
    moment: u64,
) -> Result<Vec<u64>, OutOfMemory>
    requires tree { IsTrue (is_tree (T.nodes tree.now)) }
    ensures value { IfOk result (λ v. v.items
        ≡ evicted limits new_size moment (instances_of container (T.nodes tree.now))) }
    ensures memory { OnErr result
        (evicted limits new_size moment (instances_of container (T.nodes tree.now)) ≢ []) }
{
    let lasting = lasting_total(tree, container, limits.mia, moment);
    let mut left = with_new(lasting, new_size);
    let mut numbers = Vec::new(alloc);
    let mut oldest = over_instances(tree, container);
    for k in 0..tree.instance_count(container) {
        let fits = is_total_within(left, limits);
        let instance = oldest.next();
        push_gone(&mut numbers, instance, !fits, limits.mia, moment)?;
        left = without(left, instance, false, limits.mia, moment);
    }
    Ok(numbers)
}

fn push_gone(
    numbers: &mut Vec<u64>,
    resource: Option<&Resource>,
    outside: bool,
    mia: Option<u64>,
    moment: u64,
) -> Result<(), OutOfMemory>
    ensures ok { OnOk result (numbers.new.items
        ≡ numbers.old.items
        ++ numbers_of (filter (goes outside mia moment)
        (option_to_list (option_map (λ r. r.now) resource.entry)))) }
    ensures memory { OnErr result (numbers_of (filter (goes outside mia moment)
        (option_to_list (option_map (λ r. r.now) resource.entry))) ≢ []) }
{
    match resource {
        Some(resource) => push_if_it_goes(numbers, resource, outside, mia, moment),
        None => Ok(()),
    }
}

fn push_if_it_goes(
    numbers: &mut Vec<u64>,
    resource: &Resource,
    outside: bool,
    mia: Option<u64>,
    moment: u64,
) -> Result<(), OutOfMemory>
    ensures ok { OnOk result (numbers.new.items
        ≡ numbers.old.items ++ numbers_of (filter (goes outside mia moment) (resource.now ∷ []))) }
    ensures memory { OnErr result
        (numbers_of (filter (goes outside mia moment) (resource.now ∷ [])) ≢ []) }
{
    if outside || is_due_by(resource, mia, moment) {
        numbers.push(resource.number())?;
    }
    Ok(())
}

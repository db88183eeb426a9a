//! What is overdue.
ghost use Rattle.std.specs.Prelude.{◌≡◌, ◌≢◌, ◌++◌, [], ◌∷◌, filter, slice_get, not, option_map};
ghost use Rattle.std.specs.Prelude.{option_to_list, Some, IsTrue, IfOk, OnOk, OnErr};
ghost use Rattle.tree_model.specs.Tree.{at, has, is_due, is_tree, live, numbers_of};
ghost use Rattle.tree_model.specs.Tree.{overdue_numbers, AreAscending};

use crate::placing::{at_place, due_in, found};
use resource_model::Resource;
use std::alloc::{AllocError as OutOfMemory, Global};

/// The numbers of the resources that are overdue at a moment, in order of creation: those that are
/// due, and all that stand below one.
pub(crate) fn overdue_in(
    alloc: Global,
    resources: &[Resource],
    moment: u64,
) -> Result<Vec<u64>, OutOfMemory>
    requires { IsTrue (is_tree resources.now) }
    ensures value { IfOk result (λ v. v.items ≡ overdue_numbers moment resources.now) }
    ensures memory { OnErr result (overdue_numbers moment resources.now ≢ []) }
{
    let mut numbers = Vec::new(alloc);
    for k in 0..resources.len() {
        push_overdue(&mut numbers, resources, k, moment)?;
    }
    Ok(numbers)
}

fn push_overdue(
    numbers: &mut Vec<u64>,
    resources: &[Resource],
    k: usize,
    moment: u64,
) -> Result<(), OutOfMemory>
    requires { IsTrue (is_tree resources.now) }
    ensures ok { OnOk result (numbers.new.items
        ≡ numbers.old.items
        ++ numbers_of
        (filter (λ r. not (has r.number (live moment resources.now)))
        (option_to_list (slice_get resources.now k)))) }
    ensures memory { OnErr result
        (numbers_of (filter (λ r. not (has r.number (live moment resources.now)))
        (option_to_list (slice_get resources.now k))) ≢ []) }
{
    match at_place(resources, k) {
        Some(resource) => push_if_overdue(numbers, resources, resource, moment),
        None => Ok(()),
    }
}

fn push_if_overdue(
    numbers: &mut Vec<u64>,
    resources: &[Resource],
    resource: &Resource,
    moment: u64,
) -> Result<(), OutOfMemory>
    requires tree { IsTrue (is_tree resources.now) }
    requires stands { at resource.now.number resources.now ≡ Some resource.now }
    ensures ok { OnOk result (numbers.new.items
        ≡ numbers.old.items
        ++ numbers_of
        (filter (λ r. not (has r.number (live moment resources.now))) (resource.now ∷ []))) }
    ensures memory { OnErr result
        (numbers_of (filter (λ r. not (has r.number (live moment resources.now)))
        (resource.now ∷ [])) ≢ []) }
{
    if is_overdue(resources, resource, moment) {
        numbers.push(resource.number())?;
    }
    Ok(())
}

fn is_due_in(resources: &[Resource], resource: &Resource, moment: u64) -> bool
    requires { AreAscending resources.now }
    ensures { result ≡ is_due resources.now moment resource.now }
{
    match due_in(resources, resource) {
        Some(at) => at <= moment,
        None => false,
    }
}

// Whether it is due, or something that it stands under.
fn is_overdue(resources: &[Resource], resource: &Resource, moment: u64) -> bool
    requires tree { IsTrue (is_tree resources.now) }
    requires stands { at resource.now.number resources.now ≡ Some resource.now }
    ensures { result ≡ not (has resource.now.number (live moment resources.now)) }
{
    if is_due_in(resources, resource, moment) {
        return true;
    }
    match found(resources, resource.parent()) {
        Some(parent) => is_overdue(resources, parent, moment),
        None => false,
    }
}

//! What is overdue.
ghost use Rattle.std.specs.Prelude.{◌≡◌, ◌≢◌, ◌++◌, [], ◌∷◌, filter, not, option_to_list, Some};
ghost use Rattle.std.specs.Prelude.{IsTrue, IfOk, OnOk, OnErr, nat_eq};
ghost use Rattle.std.specs.List.{list_any};
ghost use Rattle.resource_model.specs.Resource.{ResourceData};
ghost use Rattle.tree_model.specs.Tree as tree;
ghost use Rattle.tree_model.specs.Tree.{at, has, is_due, is_tree, live, numbers_of, DoAscend};
ghost use Rattle.resource_store.specs.Overdue as spec;

use crate::store::Store;
use resource_model::Resource;
use std::alloc::{AllocError as OutOfMemory, Global};

/// The numbers of the resources that are overdue at a moment, in order of creation: those that are
/// due, and all that stand below one. It looks at each resource once, and at none above it.
pub fn overdue_numbers(alloc: Global, store: &Store, moment: u64) -> Result<Vec<u64>, OutOfMemory>
    ensures value { IfOk result (λ v. v.items ≡ tree.overdue_numbers moment store.now) }
    ensures memory { OnErr result (tree.overdue_numbers moment store.now ≢ []) }
{
    let mut overdue = Vec::new(alloc);
    for number in store.numbers() {
        push_if_overdue(&mut overdue, store, *number, moment)?;
    }
    Ok(overdue)
}

// Pushes the number of a resource, where there is one and it is overdue, behind those of the
// resources before it that are.
fn push_if_overdue(
    overdue: &mut Vec<u64>,
    store: &Store,
    number: u64,
    moment: u64,
) -> Result<(), OutOfMemory>
    requires { IsTrue (is_tree store.now) → (r : ResourceData) → at number store.now ≡ Some r →
        spec.KnowsBefore moment store.now r.number overdue.old.items }
    ensures ok { OnOk result (overdue.new.items ≡ overdue.old.items ++ numbers_of
        (filter (λ r. not (has r.number (live moment store.now)))
        (option_to_list (at number store.now)))) }
    ensures memory { OnErr result
        (numbers_of (filter (λ r. not (has r.number (live moment store.now)))
        (option_to_list (at number store.now))) ≢ []) }
{
    if let Some(resource) = store.get(number) {
        if is_known_overdue(store, resource, overdue.as_slice(), moment) {
            overdue.push(number)?;
        }
    }
    Ok(())
}

// Whether it is due, or what it stands under is among these, which are overdue and stand before it.
fn is_known_overdue(store: &Store, resource: &Resource, overdue: &[u64], moment: u64) -> bool
    requires tree { IsTrue (is_tree store.now) }
    requires stands { at resource.now.number store.now ≡ Some resource.now }
    requires known { spec.KnowsBefore moment store.now resource.now.number overdue.now }
    ensures { result ≡ not (has resource.now.number (live moment store.now)) }
{
    if is_due_in(store, resource, moment) {
        return true;
    }
    is_among(overdue, resource.parent())
}

// Whether a number is one of these.
fn is_among(numbers: &[u64], number: u64) -> bool
    requires { DoAscend numbers.now }
    ensures { result ≡ list_any (nat_eq number) numbers.now }
{
    match numbers.binary_search(&number) {
        Ok(_) => true,
        Err(_) => false,
    }
}

fn is_due_in(store: &Store, resource: &Resource, moment: u64) -> bool
    ensures { result ≡ is_due store.now moment resource.now }
{
    match store.due(resource) {
        Some(at) => at <= moment,
        None => false,
    }
}

// Whether it is due, or something that it stands under.
fn is_overdue(store: &Store, resource: &Resource, moment: u64) -> bool
    requires tree { IsTrue (is_tree store.now) }
    requires stands { at resource.now.number store.now ≡ Some resource.now }
    ensures { result ≡ not (has resource.now.number (live moment store.now)) }
{
    if is_due_in(store, resource, moment) {
        return true;
    }
    match store.get(resource.parent()) {
        Some(parent) => is_overdue(store, parent, moment),
        None => false,
    }
}

/// Whether the resource of a number is due at a moment, and nothing that it stands under is.
pub fn is_first_overdue(store: &Store, number: u64, moment: u64) -> bool
    ensures { result ≡ spec.is_first_at moment store.now number }
{
    match store.get(number) {
        Some(resource) => is_first(store, resource, moment),
        None => false,
    }
}

fn is_first(store: &Store, resource: &Resource, moment: u64) -> bool
    ensures { result ≡ spec.is_first moment store.now resource.now }
{
    is_due_in(store, resource, moment) && !is_overdue_at(store, resource.parent(), moment)
}

fn is_overdue_at(store: &Store, number: u64, moment: u64) -> bool
    ensures { result ≡ spec.is_overdue moment store.now number }
{
    match store.get(number) {
        Some(resource) => is_overdue(store, resource, moment),
        None => false,
    }
}

//! Where a number stands among resources whose numbers ascend.
ghost use Rattle.std.specs.Prelude.{◌≡◌, ◌≤◌, ◌-◌, ◌==◌, ◌||◌, nat_le, nat_lt, true, false, None};
ghost use Rattle.std.specs.Prelude.{MatchResult, drop, length, option_map, slice_get};
ghost use Rattle.std.specs.Bool.{OnTrue};
ghost use Rattle.std.specs.Option.{option_map_or};
ghost use Rattle.std.specs.Ordering.{nat_cmp};
ghost use Rattle.resource_model.specs.Resource.{ResourceData, has_number};
ghost use Rattle.tree_model.specs.Tree as spec;
ghost use Rattle.tree_model.specs.Tree.{all_after, at, next_after, AreAscending, StandsAt};

use resource_model::Resource;
use std::cmp::Ordering;
use tree_model::due_under;

fn number_order(resource: &Resource, number: u64) -> Ordering
    ensures { result ≡ nat_cmp resource.now.number number }
{
    resource.number().cmp(&number)
}

/// Where the resource of a number stands, or else where one would stand.
pub(crate) fn place(resources: &[Resource], number: u64) -> Result<usize, usize>
    requires { AreAscending resources.now }
    ensures { MatchResult result (StandsAt number resources.now)
        (λ _. at number resources.now ≡ None) }
{
    resources.binary_search_by(|resource| number_order(resource, number))
}

fn halved(resources: &[Resource], number: u64) -> Option<&Resource>
    requires { AreAscending resources.now }
    ensures { option_map (λ r. r.now) result ≡ at number resources.now }
{
    match place(resources, number) {
        Ok(at) => Some(&resources[at]),
        Err(_) => None,
    }
}

/// The resource of a number. It is looked for first where it stands if no other has gone before it,
/// or none behind it.
pub(crate) fn found(resources: &[Resource], number: u64) -> Option<&Resource>
    requires { AreAscending resources.now }
    ensures { option_map (λ r. r.now) result ≡ at number resources.now }
{
    found_near(resources, number, likely_place(resources, number))
}

fn likely_place(resources: &[Resource], number: u64) -> usize {
    let from_first = place_from_first(resources, number);
    if is_number_at(resources, number, from_first) {
        from_first
    } else {
        place_from_last(resources, number)
    }
}

// As far behind the first one as their numbers lie apart.
fn place_from_first(resources: &[Resource], number: u64) -> usize {
    match resources.first() {
        Some(first) => number.saturating_sub(first.number()) as usize,
        None => 0,
    }
}

// As far before the last one.
fn place_from_last(resources: &[Resource], number: u64) -> usize {
    let last = resources.len().saturating_sub(1);
    match resources.get(last) {
        Some(resource) => last.saturating_sub(resource.number().saturating_sub(number) as usize),
        None => 0,
    }
}

/// The same, where it is likely to stand at a place, or else would stand there: that is looked at
/// first.
pub(crate) fn found_near(resources: &[Resource], number: u64, near: usize) -> Option<&Resource>
    requires { AreAscending resources.now }
    ensures { option_map (λ r. r.now) result ≡ at number resources.now }
{
    if is_number_at(resources, number, near) {
        at_place(resources, near)
    } else if is_gap(resources, number, near) {
        None
    } else {
        halved(resources, number)
    }
}

// Whether the numbers on both sides of a place tell that none is this one.
fn is_gap(resources: &[Resource], number: u64, place: usize) -> bool
    requires { AreAscending resources.now }
    ensures { OnTrue result (at number resources.now ≡ None) }
{
    is_above_last(resources, number, place) && is_below_next(resources, number, place)
}

// Whether the last one before a place has a smaller number; at the first place there is none.
fn is_above_last(resources: &[Resource], number: u64, place: usize) -> bool
    ensures { result ≡ ((place == 0) || option_map_or (λ (r : ResourceData). nat_lt r.number number)
        (slice_get resources.now (place - 1)) false) }
{
    place == 0 || is_smaller(at_place(resources, place - 1), number)
}

fn is_smaller(resource: Option<&Resource>, number: u64) -> bool
    ensures { result ≡ option_map_or (λ (r : ResourceData). nat_lt r.number number)
        (option_map (λ r. r.now) resource.entry) false }
{
    match resource {
        Some(resource) => resource.number() < number,
        None => false,
    }
}

// Whether the one at a place has a greater number; behind the last place there is none.
fn is_below_next(resources: &[Resource], number: u64, place: usize) -> bool
    ensures { result ≡ option_map_or (λ (r : ResourceData). nat_lt number r.number)
        (slice_get resources.now place) true }
{
    match at_place(resources, place) {
        Some(resource) => number < resource.number(),
        None => true,
    }
}

/// The resource at a place.
pub(crate) fn at_place(resources: &[Resource], at: usize) -> Option<&Resource>
    ensures { option_map (λ r. r.now) result ≡ slice_get resources.now at }
{
    resources.get(at)
}

fn is_number_at(resources: &[Resource], number: u64, at: usize) -> bool
    ensures { result ≡ option_map_or (has_number number) (slice_get resources.now at) false }
{
    match at_place(resources, at) {
        Some(resource) => resource.number() == number,
        None => false,
    }
}

fn is_until(resource: &Resource, number: u64) -> bool
    ensures { result ≡ nat_le resource.now.number number }
{
    resource.number() <= number
}

/// The place behind the resources with at most this number: those that come after it stand there.
pub(crate) fn place_after(resources: &[Resource], number: u64) -> usize
    requires { AreAscending resources.now }
    ensures bound { result ≤ length resources.now }
    ensures value { all_after number resources.now ≡ drop result resources.now }
{
    resources.partition_point(|resource| is_until(resource, number))
}

/// The first resource that comes after a number.
pub(crate) fn found_after(resources: &[Resource], number: u64) -> Option<&Resource>
    requires { AreAscending resources.now }
    ensures { option_map (λ r. r.now) result ≡ next_after number resources.now }
{
    at_place(resources, place_after(resources, number))
}

/// When a resource is due whose parent stands there.
pub(crate) fn due_in(resources: &[Resource], resource: &Resource) -> Option<u64>
    requires { AreAscending resources.now }
    ensures { result ≡ spec.due resources.now resource.now }
{
    due_under(found(resources, resource.parent()), resource)
}

/// The same, where its parent is likely to stand at a place.
pub(crate) fn due_near(resources: &[Resource], resource: &Resource, near: usize) -> Option<u64>
    requires { AreAscending resources.now }
    ensures { result ≡ spec.due resources.now resource.now }
{
    due_under(found_near(resources, resource.parent(), near), resource)
}

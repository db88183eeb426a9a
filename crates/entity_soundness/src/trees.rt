//! Tests of all resources.
ghost use Rattle.std.specs.Prelude.{◌≡◌};
ghost use Rattle.std.specs.List.{list_all};
ghost use Rattle.tree_model.specs.Tree.{fits_in, is_taken};
ghost use Rattle.entity_model.specs.Sound.{begins_with_base};
ghost use Rattle.entity_soundness.specs.Tested as spec;

use crate::resources::is_sound;
use m2m_names::{LARGEST_COUNT, LAST_MOMENT, Ty};
use tree_model::{Home, Resource, Tree, may_insert, over};

/// How many resources there are at most.
const GREATEST_COUNT: u64 = 100_000;

/// The last moment of an event, in seconds since 1970.
const LAST_READING: u64 = LAST_MOMENT - 1;

/// Whether the parent of a resource takes its type, where it is there.
fn is_taken<T: Tree>(tree: &T, resource: &Resource) -> bool
    ensures { result ≡ is_taken (T.nodes tree.now) resource.now }
{
    match tree.get(resource.parent()) {
        Some(parent) => parent.ty().takes(resource.ty()),
        None => true,
    }
}

/// Whether a resource may come behind those of a tree, under one that takes its type.
pub fn fits<T: Tree>(tree: &T, resource: &Resource) -> bool
    ensures { result ≡ fits_in (T.nodes tree.now) resource.now }
{
    may_insert(tree, resource) && is_taken(tree, resource)
}

/// Whether a resource is the CSEBase, named as the home says.
fn is_base(resource: &Resource, home: &Home) -> bool
    ensures { result ≡ spec.is_base home.now resource.now }
{
    resource.is(Ty::CseBase) && resource.name().entries() == home.base().entries()
}

/// Whether the first resource is so.
fn begins_with_base<T: Tree>(tree: &T, home: &Home) -> bool
    ensures { result ≡ begins_with_base home.now (T.nodes tree.now) }
{
    match tree.nth(0) {
        Some(first) => is_base(first, home),
        None => false,
    }
}

fn are_all_sound<T: Tree>(tree: &T, home: &Home, next: u64, last: u64) -> bool
    ensures { result ≡ list_all (spec.is_sound home.now (T.nodes tree.now) next last)
        (T.nodes tree.now) }
{
    for resource in over(tree) {
        if !is_sound(tree, home, next, last, resource) {
            return false;
        }
    }
    true
}

/// Whether the resources of a tree are those of a sound entity of a home that gives this number
/// next, and whose last moment is this one, in seconds since 1970.
pub fn are_sound<T: Tree>(tree: &T, home: &Home, next: u64, last: u64) -> bool
    ensures { result ≡ spec.are_sound home.now (T.nodes tree.now) next last }
{
    next <= LARGEST_COUNT
        && last <= LAST_READING
        && tree.len() <= GREATEST_COUNT
        && begins_with_base(tree, home)
        && are_all_sound(tree, home, next, last)
}

//! The changes of a tree, as a list that is gone through.
ghost use Rattle.std.specs.Prelude.{◌≡◌, [], ◌∷◌, filter, MatchOption};
ghost use Rattle.std.specs.Iterator.{YieldsFirstBy, item_count};
ghost use Rattle.std.specs.List.{list_any};
ghost use Rattle.resource_model.specs.Resource.{has_number};
ghost use Rattle.tree_model.specs.Changes as spec;
ghost use Rattle.tree_model.specs.Tree.{is_at_or_below, line_of};

use crate::tree::Tree;
use crate::walk::{Walk, over};
use resource_model::{AttrSet, Change, Resource};
use std::marker::Model;

/// The changes of a tree, one after another, seen as the list of those that are left. They lend
/// their resources, so that a list takes no memory: what is gone is found in the tree as it is
/// before the change.
#[derive(Drop)]
pub struct Changes<'a, T: Tree> {
    tree: &'a T,
    first: Option<Change<'a>>,
    pushed: &'a [u64],
    target: Option<u64>,
    left: Walk<'a, T>,
}

impl<'a, T: Tree> Model for Changes<'a, T> {
    ghost use Rattle.std.specs.Prelude.{List, ◌++◌, map};
    ghost use Rattle.std.specs.Coded.{coded_list};
    ghost use Rattle.tree_model.specs.Changes.{ChangeData, deleted, first_of, those_below};
    ghost use Rattle.tree_model.specs.Changes.{those_of};
    ghost use Rattle.tree_model.specs.Codes.{change_code};

    ghost Value = { List ChangeData };

    ghost coded = { coded_list change_code };

    ghost view = { λ c. first_of c.first
        ++ map deleted (those_of c.pushed.now (T.nodes c.tree.now)
        ++ those_below c.target (T.nodes c.tree.now) c.left) };
}

impl<'a, T: Tree> Changes<'a, T> {
    /// Those of a creation that pushes out the instances of these numbers.
    pub fn of_creation(tree: &'a T, resource: &'a Resource, pushed: &'a [u64]) -> Changes<'a, T>
        ensures { result
            ≡ spec.creation_changes (T.nodes tree.now) resource.now pushed.now }
    {
        Changes {
            tree,
            first: Some(Change::Created(resource)),
            pushed,
            target: None,
            left: over(tree),
        }
    }

    /// Those of an update that names these attributes and pushes out the instances of these
    /// numbers.
    pub fn of_update(
        tree: &'a T,
        before: &'a Resource,
        after: &'a Resource,
        named: &'a AttrSet,
        pushed: &'a [u64],
    ) -> Changes<'a, T>
        ensures { result
            ≡ spec.update_changes (T.nodes tree.now) before.now after.now named.now pushed.now }
    {
        let change = Change::Updated {
            before,
            after,
            named,
        };
        Changes {
            tree,
            first: Some(change),
            pushed,
            target: None,
            left: over(tree),
        }
    }

    /// Those of the deletion of the resource of a number. What stands below it is sought in the
    /// whole tree, as they are gone through.
    pub fn of_deletion(tree: &'a T, target: u64) -> Changes<'a, T>
        ensures { result ≡ spec.deletion_changes (T.nodes tree.now) target }
    {
        Changes {
            tree,
            first: None,
            pushed: &[],
            target: Some(target),
            left: over(tree),
        }
    }

    /// Those of the removal of the resources of these numbers.
    pub fn of_removal(tree: &'a T, gone: &'a [u64]) -> Changes<'a, T>
        ensures { result ≡ spec.removal_changes (T.nodes tree.now) gone.now }
    {
        Changes {
            tree,
            first: None,
            pushed: gone,
            target: None,
            left: over(tree),
        }
    }
}

impl<'a, T: Tree> Iterator for Changes<'a, T> {
    type Item = Change<'a>;

    ghost next_gives = { YieldsFirstBy spec.change_of (λ rest. rest) };

    ghost remaining = { item_count (λ rest. rest) };

    fn next(&mut self) -> Option<Change<'a>> {
        if let Some(change) = self.first.take() {
            return Some(change);
        }
        if let Some((resource, others)) = first_there(self.tree, self.pushed) {
            self.pushed = others;
            return Some(Change::Deleted(resource));
        }
        let target = self.target?;
        let resource = next_below(self.tree, target, &mut self.left)?;
        Some(Change::Deleted(resource))
    }
}

// The first resource of these numbers, and the numbers after its own.
fn first_there<'a, T: Tree>(tree: &'a T, numbers: &'a [u64]) -> Option<(&'a Resource, &'a [u64])>
    ensures { MatchOption result (spec.those_of numbers.now (T.nodes tree.now) ≡ [])
        (λ p. spec.those_of numbers.now (T.nodes tree.now)
        ≡ p.0.now ∷ spec.those_of p.1.now (T.nodes tree.now)) }
{
    let (number, others) = numbers.split_first()?;
    match tree.get(*number) {
        Some(resource) => Some((resource, others)),
        None => first_there(tree, others),
    }
}

// The next of these resources that is the one of a number, or stands below it.
fn next_below<'a, T: Tree>(tree: &T, target: u64, left: &mut Walk<'a, T>) -> Option<&'a Resource>
    ensures { MatchOption result
        ((filter (is_at_or_below target (T.nodes tree.now)) left.old ≡ [])
        × (filter (is_at_or_below target (T.nodes tree.now)) left.new ≡ []))
        (λ r. filter (is_at_or_below target (T.nodes tree.now)) left.old
        ≡ r.now ∷ filter (is_at_or_below target (T.nodes tree.now)) left.new) }
{
    while let Some(resource) = left.next() {
        if is_at_or_below(tree, target, resource.number()) {
            return Some(resource);
        }
    }
    None
}

// Whether a resource is the one of a number, or stands below it.
fn is_at_or_below<T: Tree>(tree: &T, target: u64, number: u64) -> bool
    ensures { result ≡ list_any (has_number target) (line_of number (T.nodes tree.now)) }
{
    match tree.get(number) {
        Some(resource) => {
            resource.number() == target || is_at_or_below(tree, target, resource.parent())
        }
        None => false,
    }
}

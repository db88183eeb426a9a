//! Going over a tree.
ghost use Rattle.std.specs.Prelude.{◌≡◌};
ghost use Rattle.std.specs.Iterator.{YieldsFirstRef, item_count};
ghost use Rattle.tree_model.specs.Tree.{instances_of};

use crate::placed::instance_at;
use crate::tree::Tree;
use resource_model::Resource;
use std::marker::Model;

/// The resources of a tree in order of creation, seen as the list of those that are left.
#[derive(Drop)]
pub struct Walk<'a, T: Tree> {
    tree: &'a T,
    // The number of the last one that was given.
    last: Option<u64>,
}

impl<'a, T: Tree> Model for Walk<'a, T> {
    ghost use Rattle.std.specs.Prelude.{List};
    ghost use Rattle.std.specs.Coded.{coded_list};
    ghost use Rattle.resource_model.specs.Resource.{ResourceData};
    ghost use Rattle.resource_model.specs.Codes.{resource_code};
    ghost use Rattle.tree_model.specs.Tree.{all_behind};

    ghost Value = { List ResourceData };

    ghost coded = { coded_list resource_code };

    ghost view = { λ o. all_behind o.last (T.nodes o.tree.now) };
}

/// Goes over the resources of a tree in order of creation.
pub fn over<T: Tree>(tree: &T) -> Walk<'_, T>
    ensures { result ≡ T.nodes tree.now }
{
    Walk { tree, last: None }
}

impl<'a, T: Tree> Iterator for Walk<'a, T> {
    type Item = &'a Resource;

    ghost next_gives = { YieldsFirstRef (λ rest. rest) };

    ghost remaining = { item_count (λ rest. rest) };

    fn next(&mut self) -> Option<&'a Resource> {
        let next = self.tree.after(self.last.unwrap_or(0))?;
        self.last = Some(next.number());
        Some(next)
    }
}

/// The instances of a container, oldest first, seen as the list of those that are left.
#[derive(Drop)]
pub struct Instances<'a, T: Tree> {
    tree: &'a T,
    container: u64,
    // The place of the first of them.
    place: u64,
}

impl<'a, T: Tree> Model for Instances<'a, T> {
    ghost use Rattle.std.specs.Prelude.{List, drop};
    ghost use Rattle.std.specs.Coded.{coded_list};
    ghost use Rattle.resource_model.specs.Resource.{ResourceData};
    ghost use Rattle.resource_model.specs.Codes.{resource_code};
    ghost use Rattle.tree_model.specs.Tree.{instances_of};

    ghost Value = { List ResourceData };

    ghost coded = { coded_list resource_code };

    ghost view = { λ o. drop o.place (instances_of o.container (T.nodes o.tree.now)) };
}

/// Goes over the instances of a container, oldest first: each is found by its place.
pub fn over_instances<T: Tree>(tree: &T, container: u64) -> Instances<'_, T>
    ensures { result ≡ instances_of container (T.nodes tree.now) }
{
    Instances {
        tree,
        container,
        place: 0,
    }
}

impl<'a, T: Tree> Iterator for Instances<'a, T> {
    type Item = &'a Resource;

    ghost next_gives = { YieldsFirstRef (λ rest. rest) };

    ghost remaining = { item_count (λ rest. rest) };

    fn next(&mut self) -> Option<&'a Resource> {
        let next = instance_at(self.tree, self.container, self.place)?;
        self.place += 1;
        Some(next)
    }
}

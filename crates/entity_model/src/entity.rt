//! The entity.
ghost use Rattle.std.specs.Prelude.{◌≡◌, [], IfOk};
ghost use Rattle.entity_model.specs.Opening.{opening};

use crate::moments::cut;
use crate::opening::put_opening;
use notify_outbox::Outbox;
use std::alloc::{AllocError as OutOfMemory, Global};
use std::marker::Model;
use tree_model::{Home, Tree};

/// An entity: its home, its resources, the number of the resource that is created next, the moment
/// of the last event, in seconds since 1970, and its outbox.
#[derive(Drop)]
pub struct Entity<T: Tree> {
    pub home: Home,
    pub tree: T,
    pub next: u64,
    pub last: u64,
    pub outbox: Outbox,
}

impl<T: Tree> Model for Entity<T> {
    ghost use Rattle.entity_model.specs.Entity.{EntityData, blank};
    ghost use Rattle.entity_model.specs.Codes.{entity_code};

    ghost Value = { EntityData };

    ghost coded = { entity_code };

    ghost use Rattle.entity_model.specs.Sound.{IsSoundEntity};

    ghost view = { λ e. record (blank e.home) {
      nodes = T.nodes e.tree;
      next = e.next;
      last = e.last;
      items = e.outbox.items;
      numbered = e.outbox.count;
    } };

    ghost invariant = { λ e. IsSoundEntity (record (blank e.home) {
      nodes = T.nodes e.tree;
      next = e.next;
      last = e.last;
      items = e.outbox.items;
      numbered = e.outbox.count;
    }) };
}

impl<T: Tree> Entity<T> {
    /// The entity as it opens, at the reading of a clock in seconds since 1970, in a tree that has
    /// no resource yet: the CSEBase, and the administrator's policy.
    pub fn open(alloc: Global, home: Home, tree: T, reading: u64) -> Result<Entity<T>, OutOfMemory>
        requires { T.nodes tree ≡ [] }
        ensures { IfOk result (λ entity. entity ≡ opening home reading) }
    {
        let mut tree = tree;
        let moment = cut(reading);
        put_opening(alloc, &home, &mut tree, moment)?;
        Ok(Entity {
            home,
            tree,
            next: 3,
            last: moment,
            outbox: Outbox::new(alloc),
        })
    }
}

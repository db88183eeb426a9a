//! An entity as an object that is asked.
ghost use Rattle.std.specs.Prelude.{◌≡◌};

use cse_machine::{Event, Outcome, step};
use entity_model::Entity;
use std::alloc::Global;
use std::marker::Model;
use tree_model::Tree;
use turn_desk::Object;

/// An entity that takes one event at a time; contracts see it as that entity. Its steps are those
/// of the machine.
#[derive(Drop)]
pub struct Served<T: Tree> {
    alloc: Global,
    entity: Entity<T>,
}

impl<T: Tree> Model for Served<T> {
    ghost use Rattle.entity_model.specs.Entity.{EntityData};
    ghost use Rattle.entity_model.specs.Codes.{entity_code};

    ghost Value = { EntityData };

    ghost coded = { entity_code };

    ghost view = { λ s. s.entity };
}

impl<T: Tree> Served<T> {
    /// The entity, which takes memory by `alloc` as it answers.
    pub fn new(alloc: Global, entity: Entity<T>) -> Served<T>
        ensures { result ≡ entity }
    {
        Served { alloc, entity }
    }

    /// The entity as it stands.
    pub fn into_entity(self) -> Entity<T>
        ensures { result ≡ self }
    {
        let Served { entity, .. } = self;
        entity
    }
}

impl<T: Tree> Object for Served<T> {
    ghost use Rattle.cse_machine.specs.Step.{Step};

    type Event = Event;

    type Outcome = Outcome;

    ghost step = { Step };

    fn turn(&mut self, reading: u64, event: &Event) -> Outcome {
        step(self.alloc, &mut self.entity, reading, event)
    }
}

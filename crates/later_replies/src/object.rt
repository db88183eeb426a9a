//! A CSE that answers later, as an object that is asked.
use crate::entity::LaterEntity;
use crate::stepping::later_step;
use cse_machine::{Event, Outcome};
use tree_model::Tree;
use turn_desk::Object;

impl<T: Tree> Object for LaterEntity<T> {
    ghost use Rattle.later_replies.specs.Step.{LaterStep};

    type Event = Event;

    type Outcome = Outcome;

    ghost step = { LaterStep };

    fn turn(&mut self, reading: u64, event: &Event) -> Outcome {
        later_step(self, reading, event)
    }
}

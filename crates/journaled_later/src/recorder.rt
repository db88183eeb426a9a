//! A CSE that answers later, and writes down what it does.
ghost use Rattle.std.specs.Prelude.{◌≡◌};
ghost use Rattle.filter_criteria.specs.Bounds.{IsMoment};
ghost use Rattle.entity_model.specs.Entity as entities;
ghost use Rattle.later_opening.specs.Making.{later_of};

use crate::answering::take_event;
use crate::running::{drop_due, run_requests};
use accepted_requests::LaterRequests;
use entity_model::{Entity, event_moment};
use journal_events::{Came, KeptEvent};
use journaled_entity::{Journaled, hand_on};
use kept_object::Recorder;
use later_opening::later_snapshot;
use std::alloc::Global;
use std::marker::Model;
use tree_model::Tree;

/// An entity that writes down what it does, and the requests that it accepted. Contracts see it as
/// these (`LaterData` of the crate later_replies).
#[derive(Drop)]
pub struct JournaledLater<T: Tree> {
    alloc: Global,
    entity: Journaled<T>,
    requests: LaterRequests,
}

impl<T: Tree> Model for JournaledLater<T> {
    ghost use Rattle.later_replies.specs.Entries.{LaterData};

    ghost Value = { LaterData };

    ghost use Rattle.entity_model.specs.Codes.{entity_code};
    ghost use Rattle.m2m_value.specs.Code.{data_code};
    ghost use Rattle.std.specs.Coded.{codes};

    ghost coded = { Prim.hlevel (codes, data_code, entity_code) };

    ghost view = { λ s. record {
      inner = s.entity;
      requests = s.requests;
    } };
}

/// The moment of an event at a reading of the clock.
fn moment_of<T: Tree>(entity: &Entity<T>, reading: u64) -> u64
    ensures value { result ≡ entities.event_moment entity.now.last reading }
    ensures moment { IsMoment result }
{
    event_moment(entity.last, reading)
}

impl<T: Tree> JournaledLater<T> {
    /// The entity with these accepted requests. It takes memory by `alloc` as it answers.
    pub fn new(alloc: Global, entity: Entity<T>, requests: LaterRequests) -> JournaledLater<T>
        ensures { result ≡ later_of entity requests }
    {
        JournaledLater {
            alloc,
            entity: Journaled::new(alloc, entity),
            requests,
        }
    }

    /// The requests that it accepted.
    pub fn requests(&self) -> &LaterRequests
        ensures { result.now ≡ self.now.requests }
    {
        &self.requests
    }
}

impl<T: Tree> Recorder for JournaledLater<T> {
    ghost use Rattle.journaled_later.specs.Keeping.{KeepsLater};
    ghost use Rattle.journaled_later.specs.Steps.{KeptLaterStep};

    type Event = KeptEvent;

    type Outcome = Came;

    ghost step = { KeptLaterStep };

    ghost keeps = { KeepsLater };

    fn record(&mut self, reading: u64, event: &KeptEvent, lines: &mut Vec<u8>) -> Option<Came> {
        let moment = moment_of(self.entity.entity(), reading);
        run_requests(
            &mut self.entity,
            self.alloc,
            reading,
            moment,
            event,
            &mut self.requests,
            lines,
        )?;
        drop_due(self.alloc, &mut self.requests, moment, lines)?;
        let outcome = take_event(
            &mut self.entity,
            self.alloc,
            &mut self.requests,
            reading,
            moment,
            event,
            lines,
        )?;
        hand_on(self.alloc, outcome)
    }

    fn snapshot(&self) -> Option<Vec<u8>> {
        match later_snapshot(self.alloc, self.entity.entity(), &self.requests) {
            Ok(bytes) => Some(bytes),
            Err(_) => None,
        }
    }
}

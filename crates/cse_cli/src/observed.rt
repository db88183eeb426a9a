//! A CSE that answers later, of whose runs somebody is told.
ghost use Rattle.std.specs.Prelude.{◌≡◌, ◌≤◌, length};

use accepted_requests::LaterEntry;
use cse_machine::{Event, Outcome};
use later_replies::{LaterEntity, later_step};
use primitive_json::{Reply, Request};
use std::marker::Model;
use tree_model::Tree;
use turn_desk::Object;

/// What is told of the accepted requests of a CSE that answers later.
pub trait RunObserver {
    /// The accepted request of this number was run, and has this reply.
    fn ran(&self, number: u64, request: &Request, reply: &Reply);

    /// So many accepted requests wait to be run.
    fn waiting(&self, count: usize);
}

/// An observer that lets all of that pass.
#[derive(Drop)]
pub struct NoObserver;

impl RunObserver for NoObserver {
    fn ran(&self, _: u64, _: &Request, _: &Reply) {}

    fn waiting(&self, _: usize) {}
}

/// A CSE that answers later, and who is told of what it runs. Contracts see it as the CSE.
#[derive(Drop)]
pub(crate) struct ObservedLater<T: Tree, W> {
    later: LaterEntity<T>,
    observer: W,
    /// The last number of an accepted request whose run was told.
    told: u64,
}

impl<T: Tree, W> Model for ObservedLater<T, W> {
    ghost use Rattle.later_replies.specs.Entries.{LaterData};
    ghost use Rattle.entity_model.specs.Codes.{entity_code};
    ghost use Rattle.m2m_value.specs.Code.{data_code};
    ghost use Rattle.std.specs.Coded.{codes};

    ghost Value = { LaterData };

    ghost coded = { Prim.hlevel (codes, data_code, entity_code) };

    ghost view = { λ s. s.later };
}

impl<T: Tree, W> ObservedLater<T, W> {
    /// A CSE of whose runs nothing was told yet.
    pub(crate) fn new(later: LaterEntity<T>, observer: W) -> ObservedLater<T, W>
        ensures { result ≡ later }
    {
        ObservedLater {
            later,
            observer,
            told: 0,
        }
    }
}

impl<T: Tree, W: RunObserver> Object for ObservedLater<T, W> {
    ghost use Rattle.later_replies.specs.Step.{LaterStep};

    type Event = Event;

    type Outcome = Outcome;

    ghost step = { LaterStep };

    fn turn(&mut self, reading: u64, event: &Event) -> Outcome {
        let outcome = later_step(&mut self.later, reading, event);
        self.told = tell_runs(&self.later.requests().entries, self.told, &self.observer);
        outcome
    }
}

/// How many of the accepted requests have at most this number. The last ones have the greatest.
fn count_up_to(entries: &[LaterEntry], number: u64) -> usize
    ensures { result ≤ length entries.now }
{
    let mut count = entries.len();
    while 0 < count && number < entries[count - 1].number() {
        count -= 1;
    }
    count
}

/// Tells of the runs behind this number, and how many accepted requests wait. The answer is the
/// last number whose run was told.
pub fn tell_runs<W: RunObserver>(entries: &[LaterEntry], told: u64, observer: &W) -> u64 {
    let mut last = told;
    let mut waiting = 0usize;
    for entry in entries.split_at(count_up_to(entries, told)).1 {
        match entry.reply() {
            Some(reply) => {
                last = entry.number();
                observer.ran(last, entry.request(), reply);
            }
            None => waiting = waiting.saturating_add(1),
        }
    }
    observer.waiting(waiting);
    last
}

//! A CSE that answers later and is kept, of whose runs somebody is told.
ghost use Rattle.std.specs.Prelude.{◌≡◌};

use cse_cli::{NoObserver, RunObserver, tell_runs};
use journal_events::{Came, KeptEvent};
use journaled_later::JournaledLater;
use kept_file::KeptFile;
use kept_object::{KeptObject, Recorder};
use std::marker::Model;
use tree_model::Tree;

/// A CSE that answers later and writes down what it does, and who is told of what it runs. Contracts
/// see it as the CSE.
#[derive(Drop)]
pub(crate) struct ObservedKept<T: Tree, W> {
    later: JournaledLater<T>,
    observer: W,
    /// The last number of an accepted request whose run was told, or had a reply at the start.
    told: u64,
}

impl<T: Tree, W> Model for ObservedKept<T, W> {
    ghost use Rattle.later_replies.specs.Entries.{LaterData};
    ghost use Rattle.entity_model.specs.Codes.{entity_code};
    ghost use Rattle.m2m_value.specs.Code.{data_code};
    ghost use Rattle.std.specs.Coded.{codes};

    ghost Value = { LaterData };

    ghost coded = { Prim.hlevel (codes, data_code, entity_code) };

    ghost view = { λ s. s.later };
}

impl<T: Tree, W> ObservedKept<T, W> {
    /// A CSE of whose runs from now on somebody is told.
    fn new(later: JournaledLater<T>, observer: W) -> ObservedKept<T, W>
        ensures { result ≡ later }
    {
        let told = tell_runs(&later.requests().entries, 0, &NoObserver);
        ObservedKept {
            later,
            observer,
            told,
        }
    }
}

impl<T: Tree, W: RunObserver> Recorder for ObservedKept<T, W> {
    ghost use Rattle.journaled_later.specs.Keeping.{KeepsLater};
    ghost use Rattle.journaled_later.specs.Steps.{KeptLaterStep};

    type Event = KeptEvent;

    type Outcome = Came;

    ghost step = { KeptLaterStep };

    ghost keeps = { KeepsLater };

    fn record(&mut self, reading: u64, event: &KeptEvent, lines: &mut Vec<u8>) -> Option<Came> {
        let came = self.later.record(reading, event, lines)?;
        self.told = tell_runs(&self.later.requests().entries, self.told, &self.observer);
        Some(came)
    }

    fn snapshot(&self) -> Option<Vec<u8>> {
        self.later.snapshot()
    }
}

/// What is kept, so that an observer is told of the runs from now on.
pub(crate) fn observe_runs<F: KeptFile, T: Tree, W>(
    object: KeptObject<JournaledLater<T>, F>,
    observer: W,
) -> KeptObject<ObservedKept<T, W>, F>
    ensures { result ≡ object }
{
    let (later, rest) = object.into_parts();
    rest.with_recorder(ObservedKept::new(later, observer))
}

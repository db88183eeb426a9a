//! The object that is kept.
ghost use Rattle.std.specs.Prelude.{◌≡◌, [], false};
ghost use Rattle.kept_object.specs.Records.{IsBatchOrNone};
ghost use Rattle.kept_object.specs.Steps.{MayReplace, OnEvent, OnSettle};
ghost use Rattle.journal_file.specs.Gates.{IsReady};

use crate::Recorder;
use journal_file::Journal;
use kept_desk::{Report, Turn};
use kept_file::{Failed, KeptFile, NamedFile};
use std::alloc::Global;
use std::marker::Model;
use turn_desk::Object;

/// A journal isn't replaced before its text has so many bytes.
const LEAST: usize = 1_048_576;

/// How often a journal has the bytes of the text that it began with when it is replaced.
const GROWTH: usize = 4;

/// A recorder, the journal in which its lines are kept, and the lines that wait to be put there.
/// The journal is replaced by a snapshot of the recorder once its text has `most` bytes.
#[derive(Drop)]
pub struct KeptObject<O, F: KeptFile> {
    object: O,
    journal: Journal<F>,
    pending: Vec<u8>,
    most: usize,
}

/// How many bytes the text of a journal has at most that began with so many.
fn most_behind(first: usize) -> usize {
    first.saturating_mul(GROWTH).max(LEAST)
}

impl<O, F: KeptFile> Model for KeptObject<O, F> {
    ghost use Rattle.std.specs.Prelude.{◌≡◌, false};
    ghost use Rattle.kept_object.specs.Records.{IsBatchOrNone};
    ghost use Rattle.kept_object.specs.State.{KeptData};
    ghost use Rattle.journal_file.specs.Gates.{IsReady};

    ghost Value = { KeptData O F };

    ghost view = { λ s. record {
      object = s.object;
      journal = s.journal;
      pending = s.pending.items;
    } };

    ghost invariant = { λ s. (F.tells → IsReady F.seen F.may_leave s.journal)
        × (s.journal.is_failed ≡ false → IsBatchOrNone s.pending.items) };
}

impl<O, F: KeptFile> KeptObject<O, F> {
    /// An object with the journal that makes it. Nothing waits. The text of the journal begins with
    /// a text of so many bytes that isn't to be made shorter.
    pub fn new(alloc: Global, object: O, journal: Journal<F>, first: usize) -> KeptObject<O, F>
        requires ready { F.tells → IsReady F.seen F.may_leave journal }
        ensures object { result.object ≡ object }
        ensures journal { result.journal ≡ journal }
        ensures pending { result.pending ≡ [] }
    {
        KeptObject {
            object,
            journal,
            pending: Vec::new(alloc),
            most: most_behind(first),
        }
    }

    /// Whether the file failed, or something was done that can't be kept. Then nothing more is
    /// done.
    pub fn is_failed(&self) -> bool
        ensures { result ≡ self.now.journal.is_failed }
    {
        self.journal.is_failed()
    }

    /// The file of the journal.
    pub fn file(&self) -> &F
        ensures { result.now ≡ self.now.journal.file }
    {
        self.journal.file()
    }

    /// The recorder, and what keeps it, without one.
    pub fn into_parts(self) -> (O, KeptObject<(), F>)
        ensures object { result.0 ≡ self.object }
        ensures journal { result.1.journal ≡ self.journal }
        ensures pending { result.1.pending ≡ self.pending }
    {
        let KeptObject {
            object,
            journal,
            pending,
            most,
        } = self;
        let rest = KeptObject {
            object: (),
            journal,
            pending,
            most,
        };
        (object, rest)
    }
}

impl<F: KeptFile> KeptObject<(), F> {
    /// A recorder that is kept by this from now on.
    pub fn with_recorder<O>(self, object: O) -> KeptObject<O, F>
        ensures object { result.object ≡ object }
        ensures journal { result.journal ≡ self.journal }
        ensures pending { result.pending ≡ self.pending }
    {
        let KeptObject {
            journal,
            pending,
            most,
            ..
        } = self;
        KeptObject {
            object,
            journal,
            pending,
            most,
        }
    }
}

impl<O: Recorder, F: NamedFile> KeptObject<O, F> {
    /// The recorder takes a step.
    #[inline(always)]
    fn take_step(&mut self, reading: u64, event: &O::Event) -> Report<O::Outcome>
        requires { self.old.journal.is_failed ≡ false }
        ensures { OnEvent O.step O.keeps reading event.now self.old result self.new }
    {
        let Some(outcome) = self.object.record(reading, event, &mut self.pending) else {
            self.journal.give_up();
            return Report::Failed;
        };
        Report::Done {
            outcome,
            settled: self.pending.is_empty(),
        }
    }

    /// Replaces the journal by a snapshot, where the recorder has one and the file can be made.
    fn replace(&mut self) -> Report<O::Outcome>
        requires works { self.old.journal.is_failed ≡ false }
        requires nothing { self.old.pending ≡ [] }
        ensures { MayReplace O.keeps F.tells F.seen F.may_leave F.moment F.left_since
            self.old result self.new }
    {
        self.most = self.journal.len().saturating_mul(2);
        let Some(bytes) = self.object.snapshot() else {
            return Report::Settled;
        };
        match self.journal.replace(&bytes) {
            Ok(true) => {
                self.most = most_behind(bytes.len());
                Report::Settled
            }
            Ok(false) => Report::Settled,
            Err(_) => Report::Failed,
        }
    }

    /// Puts what waits behind the text of the journal.
    #[inline(never)]
    fn settle(&mut self) -> Report<O::Outcome>
        requires { self.old.journal.is_failed ≡ false }
        ensures { OnSettle O.keeps F.tells F.seen F.may_leave F.moment F.left_since
            self.old result self.new }
    {
        if self.pending.is_empty() {
            return Report::Settled;
        }
        match self.journal.append(&self.pending) {
            Ok(()) => {
                self.pending.clear();
                if self.journal.len() < self.most {
                    return Report::Settled;
                }
                self.replace()
            }
            Err(Failed) => Report::Failed,
        }
    }
}

impl<O: Recorder, F: NamedFile> Object for KeptObject<O, F> {
    ghost use Rattle.kept_object.specs.Steps.{KeptStep};

    type Event = Turn<O::Event>;

    type Outcome = Report<O::Outcome>;

    ghost step = { KeptStep O.step O.keeps F.tells F.seen F.may_leave F.moment F.left_since };

    #[inline(never)]
    fn turn(&mut self, reading: u64, event: &Turn<O::Event>) -> Report<O::Outcome> {
        if self.journal.is_failed() {
            return Report::Failed;
        }
        if !self.journal.file().is_held() {
            self.journal.give_up();
            return Report::Failed;
        }
        match event {
            Turn::Do(event) => self.take_step(reading, event),
            Turn::Settle => self.settle(),
        }
    }
}

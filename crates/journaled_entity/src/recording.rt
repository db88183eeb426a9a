//! An entity that writes down what it does.
ghost use Rattle.std.specs.Prelude.{◌≡◌, ◌<◌, ◌≤◌, ◌++◌, List, ℕ, length, IfOk, IfSome, OnErr, true};
ghost use Rattle.std.specs.Prelude.{false};
ghost use Rattle.entity_model.specs.Entity.{EntityData, cut, event_moment, swept};
ghost use Rattle.entity_model.specs.Sound.{IsSoundEntity};
ghost use Rattle.cse_machine.specs.Step as steps;
ghost use Rattle.cse_machine.specs.Step.{Step};
ghost use Rattle.cse_machine.specs.declared.event.Event.TheVariants as events;
ghost use Rattle.cse_machine.specs.declared.event.Outcome.TheVariants.{Starved};
ghost use Rattle.journal_events.specs.Steps.{KeptEntityStep, Looks, OnlyExpires, StepsAsMachine};
ghost use Rattle.journal_events.specs.Steps.{TakesSent, is_next, without_sent};
ghost use Rattle.journal_events.specs.declared.event.KeptOutcome.TheVariants as outcomes;
ghost use Rattle.journal_lines.specs.Lines.{IsReadBack, lines_of, moment_bound};
ghost use Rattle.journal_opening.specs.Journals.{event_deed};
ghost use Rattle.kept_object.specs.Records.{Records};
ghost use Rattle.journal_lines.specs.declared.deed.Deed.TheVariants.{Take};
ghost use Rattle.journaled_entity.specs.Changes as spec;
ghost use Rattle.journaled_entity.specs.Changes.{differs, is_ticked};
ghost use Rattle.journaled_entity.specs.Changes.{machine_may_change, reads_alone};
ghost use Rattle.journaled_entity.specs.Keeping.{KeepsEntity};
ghost use Rattle.journaled_entity.specs.Written.{pushed};

use crate::changes::{is_cut_short, may_change};
use crate::handing::{hand_observed_on, hand_on, hand_unserved_on};
use crate::lines::{is_made_ready, push_event, push_expiry, push_taking};
use crate::sending::{copied_next, take_numbered};
use cse_machine::{Event, ObservedStep, Outcome, observe_step, step};
use entity_model::{Entity, event_moment};
use journal_events::{Came, KeptEvent, KeptOutcome};
use journal_opening::snapshot_bytes;
use kept_object::Recorder;
use notify_outbox::Item;
use primitive_json::Reply;
use std::alloc::{AllocError as OutOfMemory, Global};
use std::marker::Model;
use tree_model::Tree;

/// An entity that takes one event at a time, each by a step of the machine; contracts see it as
/// that entity.
#[derive(Drop)]
pub struct Journaled<T: Tree> {
    alloc: Global,
    entity: Entity<T>,
}

impl<T: Tree> Model for Journaled<T> {
    ghost use Rattle.entity_model.specs.Entity.{EntityData};
    ghost use Rattle.entity_model.specs.Codes.{entity_code};

    ghost Value = { EntityData };

    ghost coded = { entity_code };

    ghost view = { λ s. s.entity };
}

/// How many resources and how many items there are.
fn counts<T: Tree>(entity: &Entity<T>) -> (u64, u64)
    ensures nodes { result.0 ≡ length entity.now.nodes }
    ensures items { result.1 ≡ length entity.now.items }
    ensures sound { IsSoundEntity entity.now }
{
    (entity.tree.len(), entity.outbox.len())
}

/// How many items there are.
fn items_of<T: Tree>(entity: &Entity<T>) -> u64
    ensures items { result ≡ length entity.now.items }
    ensures sound { IsSoundEntity entity.now }
{
    entity.outbox.len()
}

/// The moment of an event at a reading of the clock.
fn moment_of<T: Tree>(entity: &Entity<T>, reading: u64) -> u64
    ensures value { result ≡ event_moment entity.now.last reading }
    ensures small { result < moment_bound }
{
    event_moment(entity.last, reading)
}

/// Whether it is sure that the moment of an event at a reading of the clock is that of the last
/// event.
fn stands_still<T: Tree>(entity: &Entity<T>, reading: u64) -> bool
    ensures { result ≡ true → cut reading ≤ entity.now.last }
{
    reading <= entity.last
}

/// Whether what was due is gone.
fn is_ticked(outcome: Outcome) -> bool
    ensures { result ≡ is_ticked outcome }
{
    let ticked = matches!(outcome, Outcome::Ticked);
    drop(outcome);
    ticked
}

/// Lets go what came of a step that can't be kept. It stands apart, as each part of all that may
/// come is looked at here.
#[inline(never)]
fn let_go(observed: ObservedStep) {
    drop(observed);
}

/// Lets go a reply that can't be kept. It stands apart, as each part of all that a reply may hold is
/// looked at here.
#[inline(never)]
fn let_reply_go(reply: Reply) {
    drop(reply);
}

/// Memory ran out.
fn starved() -> KeptOutcome
    ensures { result ≡ outcomes.OfMachine (Starved 0) }
{
    KeptOutcome::OfMachine(Outcome::Starved { done: 0 })
}

/// Tells the item that was copied, where there was memory for that.
fn told(copied: Result<Option<Item>, OutOfMemory>) -> KeptOutcome
    ensures told { IfOk copied (λ given. result ≡ outcomes.Next given) }
    ensures none { OnErr copied (result ≡ outcomes.OfMachine (Starved 0)) }
{
    match copied {
        Ok(given) => KeptOutcome::Next(given),
        Err(_) => starved(),
    }
}

impl<T: Tree> Journaled<T> {
    /// The entity, which takes memory by `alloc` as it answers.
    pub fn new(alloc: Global, entity: Entity<T>) -> Journaled<T>
        ensures { result ≡ entity }
    {
        Journaled { alloc, entity }
    }

    /// The entity.
    pub fn entity(&self) -> &Entity<T>
        ensures { result.now ≡ self.now }
    {
        &self.entity
    }

    /// Where it takes memory.
    fn alloc(&self) -> Global {
        self.alloc
    }

    /// The moment of an event at a reading of the clock.
    fn moment(&self, reading: u64) -> u64
        ensures value { result ≡ event_moment self.now.last reading }
        ensures small { result < moment_bound }
    {
        moment_of(&self.entity, reading)
    }

    /// Whether it is sure that the moment of an event at a reading of the clock is that of the last
    /// event.
    #[inline(always)]
    fn stands_still(&self, reading: u64) -> bool
        ensures { result ≡ true → cut reading ≤ self.now.last }
    {
        stands_still(&self.entity, reading)
    }

    /// How many items there are.
    #[inline(always)]
    fn items(&self) -> u64
        ensures items { result ≡ length self.now.items }
        ensures sound { IsSoundEntity self.now }
    {
        items_of(&self.entity)
    }

    /// How many resources and how many items there are.
    #[inline(always)]
    fn counts(&self) -> (u64, u64)
        ensures nodes { result.0 ≡ length self.now.nodes }
        ensures items { result.1 ≡ length self.now.items }
        ensures sound { IsSoundEntity self.now }
    {
        counts(&self.entity)
    }

    /// Whether resources or items came or went since there were so many.
    #[inline(always)]
    fn differs_from(&self, counts: (u64, u64)) -> bool
        ensures { (before : EntityData) → counts.0 ≡ length before.nodes
            → counts.1 ≡ length before.items → result ≡ differs before self.now }
    {
        let (nodes, items) = self.counts();
        nodes != counts.0 || items != counts.1
    }

    /// Takes a step of the machine.
    #[inline(always)]
    fn step(&mut self, reading: u64, event: &Event) -> ObservedStep
        ensures step { Step reading event.now self.old result.outcome self.new }
        ensures took { result.took ≡ steps.took (swept reading self.old) result.outcome self.new }
    {
        observe_step(self.alloc, &mut self.entity, reading, event)
    }

    /// Takes a step for an event of which nothing is written down yet.
    #[inline(always)]
    fn record_expiry(
        &mut self,
        reading: u64,
        event: &Event,
        moment: u64,
        lines: &mut Vec<u8>,
    ) -> Option<Came>
        requires moment { moment ≡ event_moment self.old.last reading }
        requires small { moment < moment_bound }
        ensures step { IfSome result
            (λ came. StepsAsMachine reading event.now self.old came self.new) }
        ensures records { IfSome result
            (λ _. Records KeepsEntity self.old lines.old.items self.new lines.new.items) }
        ensures sparing { IfSome result
            (λ _. differs self.old self.new ≡ false → lines.new.items ≡ lines.old.items) }
    {
        let counts = self.counts();
        let observed = self.step(reading, event);
        let differs = self.differs_from(counts);
        if is_cut_short(&observed.outcome) {
            let_go(observed);
            return None;
        }
        let may = may_change(event, &observed);
        if may {
            let_go(observed);
            return None;
        }
        if push_expiry(self.alloc(), lines, moment, differs) {
            hand_observed_on(self.alloc(), observed)
        } else {
            let_go(observed);
            None
        }
    }

    /// Takes a step for an event whose own lines stand behind so many bytes. They stay where it may
    /// have changed something, and else go.
    #[inline(never)]
    fn record_own(
        &mut self,
        reading: u64,
        event: &Event,
        moment: u64,
        lines: &mut Vec<u8>,
        len: usize,
    ) -> Option<Came>
        requires moment { moment ≡ event_moment self.old.last reading }
        requires small { moment < moment_bound }
        requires readable { IsReadBack (event_deed event.now) }
        ensures step { IfSome result
            (λ came. StepsAsMachine reading event.now self.old came self.new) }
        ensures records { (front : List ℕ) → length front ≡ len
            → lines.old.items ≡ front ++ lines_of moment (event_deed event.now)
            → IfSome result (λ _. Records KeepsEntity self.old front self.new lines.new.items) }
        ensures sparing { (front : List ℕ) → length front ≡ len
            → lines.old.items ≡ front ++ lines_of moment (event_deed event.now)
            → IfSome result (λ came. machine_may_change (swept reading self.old) event.now came
            self.new ≡ false → differs self.old self.new ≡ false → lines.new.items ≡ front) }
    {
        let counts = self.counts();
        let observed = self.step(reading, event);
        let differs = self.differs_from(counts);
        if is_cut_short(&observed.outcome) {
            let_go(observed);
            return None;
        }
        if may_change(event, &observed) {
            return hand_observed_on(self.alloc(), observed);
        }
        lines.truncate(len);
        if push_expiry(self.alloc(), lines, moment, differs) {
            hand_observed_on(self.alloc(), observed)
        } else {
            let_go(observed);
            None
        }
    }

    /// Takes a step for an event whose own lines, where it has any, stand behind so many bytes.
    #[inline(always)]
    fn record_pushed(
        &mut self,
        reading: u64,
        event: &Event,
        moment: u64,
        lines: &mut Vec<u8>,
        len: usize,
        has_own: bool,
    ) -> Option<Came>
        requires moment { moment ≡ event_moment self.old.last reading }
        requires small { moment < moment_bound }
        requires readable { has_own ≡ true → IsReadBack (event_deed event.now) }
        ensures step { IfSome result
            (λ came. StepsAsMachine reading event.now self.old came self.new) }
        ensures records { (front : List ℕ) → length front ≡ len
            → lines.old.items ≡ pushed has_own front moment event.now
            → IfSome result (λ _. Records KeepsEntity self.old front self.new lines.new.items) }
        ensures sparing { (front : List ℕ) → length front ≡ len
            → lines.old.items ≡ pushed has_own front moment event.now
            → IfSome result (λ came. machine_may_change (swept reading self.old) event.now came
            self.new ≡ false → differs self.old self.new ≡ false → lines.new.items ≡ front) }
    {
        if has_own {
            self.record_own(reading, event, moment, lines, len)
        } else {
            self.record_expiry(reading, event, moment, lines)
        }
    }

    /// What is due goes, and nothing else is done, as for want of memory.
    #[inline(never)]
    fn pass_over(&mut self, reading: u64, moment: u64, lines: &mut Vec<u8>) -> Option<()>
        requires moment { moment ≡ event_moment self.old.last reading }
        requires small { moment < moment_bound }
        ensures step { IfSome result (λ _. OnlyExpires reading self.old (Starved 0) self.new) }
        ensures records { IfSome result
            (λ _. Records KeepsEntity self.old lines.old.items self.new lines.new.items) }
        ensures sparing { IfSome result
            (λ _. differs self.old self.new ≡ false → lines.new.items ≡ lines.old.items) }
    {
        let expired = self.record_expiry(reading, &Event::Tick, moment, lines)?;
        drop(expired);
        Some(())
    }

    /// Takes a step at a moment that stands still for an event by which nothing changes then, unless
    /// a poll takes an item. Nothing is written. None where a poll took an item, or where memory cut
    /// a fan-out short.
    #[inline(always)]
    fn record_still(&mut self, reading: u64, event: &Event) -> Option<Came>
        requires still { cut reading ≤ self.old.last }
        requires reads { reads_alone event.now ≡ true }
        ensures step { IfSome result
            (λ came. StepsAsMachine reading event.now self.old came self.new) }
        ensures same { IfSome result (λ _. self.new ≡ self.old) }
    {
        let waiting = self.items();
        // A reply alone is moved here: an outcome has many more bytes.
        let reply = match step(self.alloc, &mut self.entity, reading, event) {
            Outcome::Done(reply) => reply,
            other => return hand_unserved_on(self.alloc, other),
        };
        if self.items() < waiting {
            let_reply_go(reply);
            return None;
        }
        Some(Came::of_reply(reply))
    }

    /// Takes a step for an event of the machine whose lines aren't made ready before.
    #[inline(never)]
    fn record_unready(&mut self, reading: u64, event: &Event, lines: &mut Vec<u8>) -> Option<Came>
        ensures step { IfSome result
            (λ came. StepsAsMachine reading event.now self.old came self.new) }
        ensures records { IfSome result
            (λ _. Records KeepsEntity self.old lines.old.items self.new lines.new.items) }
        ensures sparing { IfSome result
            (λ _. differs self.old self.new ≡ false → lines.new.items ≡ lines.old.items) }
    {
        let moment = self.moment(reading);
        self.record_expiry(reading, event, moment, lines)
    }

    /// Takes a step for an event of the machine. A request that can't be kept isn't done, as for
    /// want of memory.
    #[inline(always)]
    fn record_event(&mut self, reading: u64, event: &Event, lines: &mut Vec<u8>) -> Option<Came>
        ensures step { IfSome result
            (λ came. StepsAsMachine reading event.now self.old came self.new) }
        ensures records { IfSome result
            (λ _. Records KeepsEntity self.old lines.old.items self.new lines.new.items) }
        ensures sparing { IfSome result
            (λ came. machine_may_change (swept reading self.old) event.now came self.new ≡ false
            → differs self.old self.new ≡ false → lines.new.items ≡ lines.old.items) }
    {
        let moment = self.moment(reading);
        let len = lines.len();
        match push_event(self.alloc(), lines, moment, event) {
            Ok(has_own) => self.record_pushed(reading, event, moment, lines, len, has_own),
            Err(_) => {
                self.pass_over(reading, moment, lines)?;
                Some(Came::starved(0))
            }
        }
    }

    /// Tells the item that is sent next, behind an expiry of which this came.
    fn look(&self, ticked: Outcome) -> KeptOutcome
        ensures { (reading : ℕ) → (before : EntityData)
            → Step reading events.Tick before ticked self.now
            → Looks reading before result self.now }
    {
        if !is_ticked(ticked) {
            return starved();
        }
        told(copied_next(self.alloc, &self.entity))
    }

    /// What is due goes, and the item is told that is sent next.
    #[inline(never)]
    fn record_look(&mut self, reading: u64, lines: &mut Vec<u8>) -> Option<Came>
        ensures step { IfSome result (λ came. Looks reading self.old came self.new) }
        ensures records { IfSome result
            (λ _. Records KeepsEntity self.old lines.old.items self.new lines.new.items) }
        ensures sparing { IfSome result
            (λ _. differs self.old self.new ≡ false → lines.new.items ≡ lines.old.items) }
    {
        let moment = self.moment(reading);
        let ticked = self.record_expiry(reading, &Event::Tick, moment, lines)?;
        let told = self.look(ticked.into_machine_outcome());
        hand_on(self.alloc(), told)
    }

    /// Takes the item that is sent next, if it has this number, and tells whether it has.
    fn take_numbered(&mut self, number: u64) -> bool
        ensures found { result ≡ is_next number self.old }
        ensures rest { self.new ≡ without_sent number self.old }
    {
        take_numbered(&mut self.entity, number)
    }

    /// What is due goes, and the item of this number is taken, if it is sent next. The line of its
    /// taking stands behind so many bytes. It stays where the item was taken, and else goes.
    fn record_taking(
        &mut self,
        reading: u64,
        number: u64,
        moment: u64,
        lines: &mut Vec<u8>,
        len: usize,
    ) -> Option<Came>
        requires moment { moment ≡ event_moment self.old.last reading }
        requires small { moment < moment_bound }
        ensures step { IfSome result
            (λ came. TakesSent number reading self.old came self.new) }
        ensures records { (front : List ℕ) → length front ≡ len
            → lines.old.items ≡ front ++ lines_of moment Take
            → IfSome result (λ _. Records KeepsEntity self.old front self.new lines.new.items) }
        ensures sparing { (front : List ℕ) → length front ≡ len
            → lines.old.items ≡ front ++ lines_of moment Take
            → IfSome result (λ _. is_next number (swept reading self.old) ≡ false
            → differs self.old self.new ≡ false → lines.new.items ≡ front) }
    {
        let counts = self.counts();
        let ticked = self.step(reading, &Event::Tick);
        let differs = self.differs_from(counts);
        if !is_ticked(ticked.outcome) {
            lines.truncate(len);
            return Some(Came::starved(0));
        }
        if self.take_numbered(number) {
            return Some(Came::taken());
        }
        lines.truncate(len);
        if push_expiry(self.alloc(), lines, moment, differs) {
            Some(Came::taken())
        } else {
            None
        }
    }

    /// What is due goes, and the item of this number is taken, if it is sent next.
    #[inline(never)]
    fn record_sent(&mut self, reading: u64, number: u64, lines: &mut Vec<u8>) -> Option<Came>
        ensures step { IfSome result (λ came. TakesSent number reading self.old came self.new) }
        ensures records { IfSome result
            (λ _. Records KeepsEntity self.old lines.old.items self.new lines.new.items) }
        ensures sparing { IfSome result (λ _. is_next number (swept reading self.old) ≡ false
            → differs self.old self.new ≡ false → lines.new.items ≡ lines.old.items) }
    {
        let moment = self.moment(reading);
        let len = lines.len();
        if push_taking(self.alloc(), lines, moment) {
            self.record_taking(reading, number, moment, lines, len)
        } else {
            self.pass_over(reading, moment, lines)?;
            Some(Came::starved(0))
        }
    }

    /// Takes a step for any event. It is a function of its own, so that a Retrieve that takes the
    /// short way needs no room for what other events give.
    #[inline(never)]
    fn record_ready(&mut self, reading: u64, event: &KeptEvent, lines: &mut Vec<u8>) -> Option<Came>
        ensures step { IfSome result
            (λ came. KeptEntityStep reading event.now self.old came self.new) }
        ensures records { IfSome result
            (λ _. Records KeepsEntity self.old lines.old.items self.new lines.new.items) }
        ensures sparing { IfSome result
            (λ came. spec.may_change_kept reading self.old event.now came self.new ≡ false
            → differs self.old self.new ≡ false → lines.new.items ≡ lines.old.items) }
    {
        match event {
            KeptEvent::OfMachine(asked) => self.record_event(reading, asked, lines),
            KeptEvent::Next => self.record_look(reading, lines),
            KeptEvent::Sent(number) => self.record_sent(reading, *number, lines),
        }
    }
}

impl<T: Tree> Recorder for Journaled<T> {
    type Event = KeptEvent;

    type Outcome = Came;

    ghost step = { KeptEntityStep };

    ghost keeps = { KeepsEntity };

    #[inline(always)]
    fn record(&mut self, reading: u64, event: &KeptEvent, lines: &mut Vec<u8>) -> Option<Came>
        ensures step { IfSome result
            (λ outcome. KeptEntityStep reading event.now self.old outcome self.new) }
        ensures records { IfSome result
            (λ _. Records KeepsEntity self.old lines.old.items self.new lines.new.items) }

        // Nothing is written of what can't have changed more than the moment.
        ensures sparing { IfSome result
            (λ outcome. spec.may_change_kept reading self.old event.now outcome self.new ≡ false
            → differs self.old self.new ≡ false → lines.new.items ≡ lines.old.items) }
    {
        let KeptEvent::OfMachine(asked) = event else {
            return self.record_ready(reading, event, lines);
        };
        if is_made_ready(asked) {
            return self.record_ready(reading, event, lines);
        }
        if self.stands_still(reading) {
            return self.record_still(reading, asked);
        }
        self.record_unready(reading, asked, lines)
    }

    fn snapshot(&self) -> Option<Vec<u8>> {
        match snapshot_bytes(self.alloc, &self.entity) {
            Ok(bytes) => Some(bytes),
            Err(_) => None,
        }
    }
}

//! How accepted requests are run, and what is written down of it.
ghost use Rattle.std.specs.Prelude.{◌≡◌, ◌&&◌, ◌||◌, false, nat_lt, true, IfSome, ℕ};
ghost use Rattle.std.specs.List.{list_all};
ghost use Rattle.entity_model.specs.Entity.{EntityData};
ghost use Rattle.cse_machine.specs.declared.event.Event.TheVariants as asks;
ghost use Rattle.cse_machine.specs.declared.event.Outcome.{Outcome};
ghost use Rattle.cse_machine.specs.declared.event.Outcome.TheVariants.{Starved};
ghost use Rattle.primitive_json.specs.declared.request.RequestParts.{RequestParts};
ghost use Rattle.accepted_requests.specs.Entries.{does_wait, finished, still_stands};
ghost use Rattle.accepted_requests.specs.Entries.{still_standing};
ghost use Rattle.accepted_requests.specs.Sizes as sizes;
ghost use Rattle.journal_events.specs.declared.event.KeptEvent.TheVariants as events;
ghost use Rattle.journal_events.specs.declared.event.KeptOutcome.TheVariants as outcomes;
ghost use Rattle.later_replies.specs.Runs as runs;
ghost use Rattle.later_replies.specs.Runs.{AreBounded, ArePassed, IsBounded, IsPassed, IsRun};
ghost use Rattle.later_replies.specs.Runs.{counted_then, with_outcome};
ghost use Rattle.later_opening.specs.Snapshots.{AppendsResult};
ghost use Rattle.journaled_later.specs.Recorded.{RecordsLater, RecordsRun};
ghost use Rattle.journaled_later.specs.Steps as spec;

use crate::inside::record_inside;
use accepted_requests::{LaterEntry, LaterRequests, leave_no_room, results_size};
use cse_machine::{Event, Outcome};
use journal_events::{KeptEvent, KeptOutcome};
use journaled_entity::Journaled;
use later_lines::{push_due, push_ran};
use primitive_json::Reply;
use std::alloc::Global;
use tree_model::Tree;

/// Whether the event runs whatever waits.
fn runs_whatever(event: &KeptEvent) -> bool
    ensures { result ≡ spec.runs_whatever event.now }
{
    !matches!(event, KeptEvent::OfMachine(Event::Ask(_)))
}

/// The reply of an outcome, where it is one.
fn reply_in(outcome: KeptOutcome) -> Option<Reply>
    ensures { (came : Outcome) → outcome ≡ outcomes.OfMachine came → result ≡ runs.reply_in came }
{
    match outcome {
        KeptOutcome::OfMachine(Outcome::Done(reply)) => Some(reply),
        other => {
            drop(other);
            None
        }
    }
}

/// Finishes the run of an accepted request whose request this event of the machine asked.
fn finish_asked(entry: &mut LaterEntry, asked: Event, outcome: KeptOutcome)
    requires { does_wait entry.old ≡ false }
    ensures { (request : RequestParts) (came : Outcome)
        → asked ≡ asks.Ask request → outcome ≡ outcomes.OfMachine came
        → entry.new ≡ finished entry.old request (runs.reply_in came) }
{
    match asked {
        Event::Ask(request) => entry.finish(request, reply_in(outcome)),
        other => drop(other),
    }
}

/// Finishes the run of an accepted request whose request this event asked.
fn finish(entry: &mut LaterEntry, event: KeptEvent, outcome: KeptOutcome)
    requires { does_wait entry.old ≡ false }
    ensures { (request : RequestParts) (came : Outcome)
        → event ≡ events.OfMachine (asks.Ask request) → outcome ≡ outcomes.OfMachine came
        → entry.new ≡ finished entry.old request (runs.reply_in came) }
{
    match event {
        KeptEvent::OfMachine(asked) => finish_asked(entry, asked, outcome),
        other => drop(other),
    }
}

/// Runs an accepted request: it is one step of the entity, at this reading, and its reply is kept.
fn run<T: Tree>(
    entity: &mut Journaled<T>,
    alloc: Global,
    reading: u64,
    entry: &mut LaterEntry,
    lines: &mut Vec<u8>,
) -> Option<()>
    requires { does_wait entry.old ≡ true }
    ensures run { IfSome result
        (λ _. IsRun reading entry.old entity.old entry.new entity.new) }
    ensures records { IfSome result (λ _. RecordsRun entry.old entity.old lines.old.items
        entry.new entity.new lines.new.items) }
{
    let event = KeptEvent::OfMachine(Event::Ask(entry.begin(alloc)));
    let outcome = record_inside(entity, reading, &event, lines)?;
    finish(entry, event, outcome);
    push_result(alloc, lines, entry)
}

/// Puts the result of an accepted request behind the lines; None where it wouldn't be read back.
fn push_result(alloc: Global, lines: &mut Vec<u8>, entry: &LaterEntry) -> Option<()>
    ensures { IfSome result (λ _. AppendsResult entry.now lines.old.items lines.new.items) }
{
    let Some(reply) = entry.reply() else {
        return Some(());
    };
    match push_ran(alloc, lines, entry.number(), reply) {
        Ok(()) => Some(()),
        Err(_) => None,
    }
}

/// Answers an accepted request as one for which memory runs out: what is due goes, and nothing else
/// is done.
fn starve<T: Tree>(
    entity: &mut Journaled<T>,
    alloc: Global,
    reading: u64,
    entry: &mut LaterEntry,
    lines: &mut Vec<u8>,
) -> Option<()>
    requires { does_wait entry.old ≡ true }
    ensures run { IfSome result
        (λ _. IsRun reading entry.old entity.old entry.new entity.new) }
    ensures starved { IfSome result (λ _. entry.new ≡ with_outcome entry.old (Starved 0)) }
    ensures records { IfSome result (λ _. RecordsRun entry.old entity.old lines.old.items
        entry.new entity.new lines.new.items) }
{
    let request = entry.begin(alloc);
    let came = record_inside(entity, reading, &KeptEvent::OfMachine(Event::Tick), lines)?;
    drop(came);
    entry.finish(request, None);
    push_result(alloc, lines, entry)
}

/// Runs an accepted request where so many bytes of results are kept, unless these leave no room for
/// more.
fn run_if_room<T: Tree>(
    entity: &mut Journaled<T>,
    alloc: Global,
    reading: u64,
    kept: u64,
    entry: &mut LaterEntry,
    lines: &mut Vec<u8>,
) -> Option<()>
    requires { does_wait entry.old ≡ true }
    ensures run { IfSome result
        (λ _. IsRun reading entry.old entity.old entry.new entity.new) }
    ensures bounded { IfSome result (λ _. IsBounded true kept entry.old entry.new) }
    ensures records { IfSome result (λ _. RecordsRun entry.old entity.old lines.old.items
        entry.new entity.new lines.new.items) }
{
    if leave_no_room(kept) {
        starve(entity, alloc, reading, entry, lines)
    } else {
        run(entity, alloc, reading, entry, lines)
    }
}

/// Runs an accepted request where so many bytes of results are kept, if it is to be run; and tells how
/// many are kept then.
fn pass<T: Tree>(
    entity: &mut Journaled<T>,
    alloc: Global,
    reading: u64,
    is_run: bool,
    kept: u64,
    entry: &mut LaterEntry,
    lines: &mut Vec<u8>,
) -> Option<u64>
    requires { is_run ≡ true → does_wait entry.old ≡ true }
    ensures passed { IfSome result (λ _. IsPassed reading (λ e. is_run)
        entry.old entity.old entry.new entity.new) }
    ensures bounded { IfSome result (λ _. IsBounded is_run kept entry.old entry.new) }
    ensures kept { IfSome result (λ more. more ≡ counted_then is_run kept entry.new) }
    ensures records { IfSome result (λ _. RecordsRun entry.old entity.old lines.old.items
        entry.new entity.new lines.new.items) }
{
    if is_run {
        run_if_room(entity, alloc, reading, kept, entry, lines)?;
        Some(kept.saturating_add(entry.result_size()))
    } else {
        Some(kept)
    }
}

/// Runs those of the accepted requests that such an event does, in their order. None where
/// something was done that can't be written down.
fn pass_all<T: Tree>(
    entity: &mut Journaled<T>,
    alloc: Global,
    reading: u64,
    moment: u64,
    runs_all: bool,
    entries: &mut Vec<LaterEntry>,
    lines: &mut Vec<u8>,
) -> Option<()>
    ensures passed { IfSome result (λ _. ArePassed reading
        (λ e. does_wait e && (runs_all || nat_lt e.accepted moment))
        entries.old.items entity.old entries.new.items entity.new) }
    ensures bounded { IfSome result (λ _. AreBounded
        (λ e. does_wait e && (runs_all || nat_lt e.accepted moment))
        (sizes.results_size entries.old.items)
        entries.old.items entries.new.items) }
    ensures records { (given : ℕ) → IfSome result (λ _. RecordsLater entity.old
        (record { entries = entries.old.items; given = given }) lines.old.items entity.new
        (record { entries = entries.new.items; given = given }) lines.new.items) }
{
    let mut place = 0;
    let mut kept = results_size(entries);
    'each: while place < entries.len() {
        let entry = &mut entries[place];
        let is_run = entry.is_to_run(moment, runs_all);
        kept = pass(entity, alloc, reading, is_run, kept, entry, lines)?;
        place += 1;
    }
    Some(())
}

/// Runs those of the accepted requests that the event does, in their order.
fn run_entries<T: Tree>(
    entity: &mut Journaled<T>,
    alloc: Global,
    reading: u64,
    moment: u64,
    event: &KeptEvent,
    entries: &mut Vec<LaterEntry>,
    lines: &mut Vec<u8>,
) -> Option<()>
    ensures passed { IfSome result (λ _. ArePassed reading (spec.is_run_by moment event.now)
        entries.old.items entity.old entries.new.items entity.new) }
    ensures bounded { IfSome result (λ _. AreBounded (spec.is_run_by moment event.now)
        (sizes.results_size entries.old.items) entries.old.items entries.new.items) }
    ensures records { (given : ℕ) → IfSome result (λ _. RecordsLater entity.old
        (record { entries = entries.old.items; given = given }) lines.old.items entity.new
        (record { entries = entries.new.items; given = given }) lines.new.items) }
{
    pass_all(
        entity,
        alloc,
        reading,
        moment,
        runs_whatever(event),
        entries,
        lines,
    )
}

/// Runs those of the accepted requests that the event does, in their order, each as one step of the
/// entity; none is done where more is kept of results than may be. None where something was done
/// that can't be written down.
pub(crate) fn run_requests<T: Tree>(
    entity: &mut Journaled<T>,
    alloc: Global,
    reading: u64,
    moment: u64,
    event: &KeptEvent,
    requests: &mut LaterRequests,
    lines: &mut Vec<u8>,
) -> Option<()>
    ensures passed { IfSome result (λ _. ArePassed reading (spec.is_run_by moment event.now)
        requests.old.entries entity.old requests.new.entries entity.new) }
    ensures bounded { IfSome result (λ _. AreBounded (spec.is_run_by moment event.now)
        (sizes.results_size requests.old.entries) requests.old.entries requests.new.entries) }
    ensures given { requests.new.given ≡ requests.old.given }
    ensures records { IfSome result (λ _. RecordsLater entity.old requests.old lines.old.items
        entity.new requests.new lines.new.items) }
{
    run_entries(
        entity,
        alloc,
        reading,
        moment,
        event,
        &mut requests.entries,
        lines,
    )
}

/// Whether none of the accepted requests is due at a moment.
fn is_none_due(entries: &[LaterEntry], moment: u64) -> bool
    ensures { result ≡ list_all (still_stands moment) entries.now }
{
    entries.iter().all(|entry| entry.stands(moment))
}

/// Those that are due go, and it is written down where some are. None where memory ran out for
/// that.
pub(crate) fn drop_due(
    alloc: Global,
    requests: &mut LaterRequests,
    moment: u64,
    lines: &mut Vec<u8>,
) -> Option<()>
    ensures gone { IfSome result (λ _. requests.new ≡ still_standing moment requests.old) }
    ensures records { (inner : EntityData) → IfSome result (λ _. RecordsLater inner requests.old
        lines.old.items inner requests.new lines.new.items) }
{
    if is_none_due(&requests.entries, moment) {
        return Some(());
    }
    match push_due(alloc, lines, moment) {
        Ok(()) => {
            requests.drop_due(moment);
            Some(())
        }
        Err(_) => None,
    }
}

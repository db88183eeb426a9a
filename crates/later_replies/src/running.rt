//! How accepted requests are run.
ghost use Rattle.std.specs.Prelude.{◌≡◌, ◌&&◌, ◌||◌, nat_lt, true, false};
ghost use Rattle.primitive_json.specs.declared.request.RequestParts.{RequestParts};
ghost use Rattle.accepted_requests.specs.Entries.{does_wait, finished};
ghost use Rattle.accepted_requests.specs.Sizes as sizes;
ghost use Rattle.cse_machine.specs.declared.event.Event.TheVariants.{Ask};
ghost use Rattle.cse_machine.specs.declared.event.Outcome.TheVariants.{Starved};
ghost use Rattle.later_replies.specs.Runs as spec;

use accepted_requests::{LaterEntry, LaterRequests, leave_no_room, results_size};
use cse_machine::{Event, Outcome, step};
use entity_model::Entity;
use primitive_json::Reply;
use std::alloc::Global;
use tree_model::Tree;

// Whether the event runs whatever waits.
fn runs_all(event: &Event) -> bool
    ensures { result ≡ spec.runs_all event.now }
{
    match event {
        Event::Ask(_) => false,
        Event::Take | Event::Tick => true,
    }
}

// The reply of an outcome, where it is one.
fn reply_in(outcome: Outcome) -> Option<Reply>
    ensures { result ≡ spec.reply_in outcome }
{
    match outcome {
        Outcome::Done(reply) => Some(reply),
        other => {
            drop(other);
            None
        }
    }
}

// Finishes the run of an entry whose request this event asked.
fn finish(entry: &mut LaterEntry, event: Event, outcome: Outcome)
    requires { does_wait entry.old ≡ false }
    ensures { (request : RequestParts) → event ≡ Ask request
        → entry.new ≡ finished entry.old request (spec.reply_in outcome) }
{
    match event {
        Event::Ask(request) => entry.finish(request, reply_in(outcome)),
        Event::Take | Event::Tick => {}
    }
}

// Runs an entry: its request is one step of the entity, at this reading, and its reply is kept.
fn run<T: Tree>(alloc: Global, entity: &mut Entity<T>, reading: u64, entry: &mut LaterEntry)
    requires { does_wait entry.old ≡ true }
    ensures { spec.IsRun reading entry.old entity.old entry.new entity.new }
{
    let event = Event::Ask(entry.begin(alloc));
    let outcome = step(alloc, entity, reading, &event);
    finish(entry, event, outcome);
}

// Answers an entry as one for which memory runs out: what is due goes, and nothing else is done.
fn starve<T: Tree>(alloc: Global, entity: &mut Entity<T>, reading: u64, entry: &mut LaterEntry)
    requires { does_wait entry.old ≡ true }
    ensures run { spec.IsRun reading entry.old entity.old entry.new entity.new }
    ensures starved { entry.new ≡ spec.with_outcome entry.old (Starved 0) }
{
    let request = entry.begin(alloc);
    drop(step(alloc, entity, reading, &Event::Tick));
    entry.finish(request, None);
}

// Runs an entry where so many bytes of results are kept, unless these leave no room for more.
fn run_if_room<T: Tree>(
    alloc: Global,
    entity: &mut Entity<T>,
    reading: u64,
    kept: u64,
    entry: &mut LaterEntry,
)
    requires { does_wait entry.old ≡ true }
    ensures run { spec.IsRun reading entry.old entity.old entry.new entity.new }
    ensures bounded { spec.IsBounded true kept entry.old entry.new }
{
    if leave_no_room(kept) {
        starve(alloc, entity, reading, entry);
    } else {
        run(alloc, entity, reading, entry);
    }
}

// Runs an entry where so many bytes of results are kept, if it is to be run; and tells how many are
// kept then.
fn pass<T: Tree>(
    alloc: Global,
    entity: &mut Entity<T>,
    reading: u64,
    is_run: bool,
    kept: u64,
    entry: &mut LaterEntry,
) -> u64
    requires { is_run ≡ true → does_wait entry.old ≡ true }
    ensures passed { spec.IsPassed reading (λ e. is_run)
        entry.old entity.old entry.new entity.new }
    ensures bounded { spec.IsBounded is_run kept entry.old entry.new }
    ensures kept { result ≡ spec.counted_then is_run kept entry.new }
{
    if is_run {
        run_if_room(alloc, entity, reading, kept, entry);
        kept.saturating_add(entry.result_size())
    } else {
        kept
    }
}

// Runs those of the entries that such an event does, in their order.
fn pass_all<T: Tree>(
    alloc: Global,
    entity: &mut Entity<T>,
    reading: u64,
    moment: u64,
    runs_all: bool,
    entries: &mut Vec<LaterEntry>,
)
    ensures passed { spec.ArePassed reading
        (λ e. does_wait e && (runs_all || nat_lt e.accepted moment))
        entries.old.items entity.old entries.new.items entity.new }
    ensures bounded { spec.AreBounded
        (λ e. does_wait e && (runs_all || nat_lt e.accepted moment))
        (sizes.results_size entries.old.items)
        entries.old.items entries.new.items }
{
    let mut place = 0;
    let mut kept = results_size(entries);
    'each: while place < entries.len() {
        let entry = &mut entries[place];
        let is_run = entry.is_to_run(moment, runs_all);
        kept = pass(alloc, entity, reading, is_run, kept, entry);
        place += 1;
    }
}

// Runs those of the entries that the event does, in their order.
fn run_entries<T: Tree>(
    alloc: Global,
    entity: &mut Entity<T>,
    reading: u64,
    moment: u64,
    event: &Event,
    entries: &mut Vec<LaterEntry>,
)
    ensures passed { spec.ArePassed reading (spec.is_to_run moment event.now)
        entries.old.items entity.old entries.new.items entity.new }
    ensures bounded { spec.AreBounded (spec.is_to_run moment event.now)
        (sizes.results_size entries.old.items) entries.old.items entries.new.items }
{
    pass_all(alloc, entity, reading, moment, runs_all(event), entries);
}

/// Runs those of the accepted requests that the event does, in their order, each as one step of the
/// entity; none is done where more is kept of results than may be.
pub(crate) fn run_requests<T: Tree>(
    alloc: Global,
    entity: &mut Entity<T>,
    reading: u64,
    moment: u64,
    event: &Event,
    requests: &mut LaterRequests,
)
    ensures passed { spec.ArePassed reading (spec.is_to_run moment event.now)
        requests.old.entries entity.old requests.new.entries entity.new }
    ensures bounded { spec.AreBounded (spec.is_to_run moment event.now)
        (sizes.results_size requests.old.entries) requests.old.entries requests.new.entries }
    ensures given { requests.new.given ≡ requests.old.given }
{
    run_entries(alloc, entity, reading, moment, event, &mut requests.entries);
}

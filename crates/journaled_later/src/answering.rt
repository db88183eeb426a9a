//! What comes of a request beside the step of the entity inside, and what is written down of it.
ghost use Rattle.std.specs.Prelude.{◌≡◌, ◌<◌, ◌++◌, length, false, true, IfSome, IsTrue, Some, ℕ};
ghost use Rattle.std.specs.Prelude.{nat_le, option_map};
ghost use Rattle.std.specs.Option.{option_map_or};
ghost use Rattle.filter_criteria.specs.Bounds.{IsMoment};
ghost use Rattle.m2m_names.specs.Name.{is_originator};
ghost use Rattle.m2m_value.specs.Data.{depth};
ghost use Rattle.resource_model.specs.Home.{HomeData};
ghost use Rattle.primitive_json.specs.declared.request.RequestParts.{RequestParts};
ghost use Rattle.entity_model.specs.Entity as entities;
ghost use Rattle.entity_model.specs.Sound.{IsSoundEntity};
ghost use Rattle.journal_lines.specs.Lines.{lines_of, moment_bound};
ghost use Rattle.journal_lines.specs.declared.deed.Deed.TheVariants.{Tick};
ghost use Rattle.later_replies.specs.Entries.{LaterRequestsData};
ghost use Rattle.later_replies.specs.Step.{IsAnsweredBy, asked_effect};
ghost use Rattle.cse_machine.specs.declared.event.Event.TheVariants.{Ask};
ghost use Rattle.cse_machine.specs.declared.event.Outcome.{Outcome};
ghost use Rattle.journal_events.specs.declared.event.KeptEvent.TheVariants.{OfMachine};
ghost use Rattle.journaled_later.specs.Recorded as spec;
ghost use Rattle.journaled_later.specs.Recorded.{RecordsLater};
ghost use Rattle.journaled_later.specs.Steps.{IsTakenKept, request_of};

use crate::inside::record_inside;
use accepted_requests::{Asked, LaterEntry, LaterRequests};
use cse_machine::{Event, Outcome};
use entity_model::{Entity, event_moment};
use journal_events::{KeptEvent, KeptOutcome};
use journal_lines::{is_within, push_tick};
use journaled_entity::Journaled;
use later_lines::{push_accepted, push_gone};
use later_replies::{answer, asked_by};
use m2m_value::Val;
use primitive_json::Request;
use std::alloc::Global;
use tree_model::Tree;

/// The deepest content of a request that is done. A result has at most 62 levels more, in which a
/// listing puts resources 32 deep, and those of a fan-out, a reply and a word: so it is no deeper
/// than a text is read, which is 127.
const CONTENT_DEPTH: u64 = 48;

/// What stood before a request was answered: the last number that was given, how many accepted
/// requests were kept, and the number of the one that the request names.
#[derive(Clone, Copy)]
struct Stood {
    given: u64,
    count: usize,
    named: Option<u64>,
}

/// The request of an event that asks one.
pub(crate) fn request_of(event: &KeptEvent) -> Option<&Request>
    ensures { option_map (λ r. r.now) result ≡ request_of event.now }
{
    match event {
        KeptEvent::OfMachine(Event::Ask(request)) => Some(request),
        KeptEvent::OfMachine(Event::Take | Event::Tick) | KeptEvent::Next | KeptEvent::Sent(_) =>
            None,
    }
}

/// The moment of the entity. An expiry at it takes nothing.
fn last_moment<T: Tree>(entity: &Entity<T>) -> u64
    ensures value { result ≡ entities.event_moment entity.now.last 0 }
    ensures small { result < moment_bound }
    ensures sound { IsSoundEntity entity.now }
{
    event_moment(entity.last, 0)
}

/// Puts the deed of an expiry at a moment behind lines, and tells whether there was memory for it.
fn push_moment(alloc: Global, lines: &mut Vec<u8>, moment: u64) -> bool
    requires { moment < moment_bound }
    ensures put { result ≡ true → lines.new.items ≡ lines.old.items ++ lines_of moment Tick }
    ensures stays { result ≡ false → lines.new.items ≡ lines.old.items }
{
    match push_tick(alloc, lines, moment) {
        Ok(()) => true,
        Err(_) => false,
    }
}

/// Puts the lines of the acceptance of a request behind others, and tells whether it did: not where
/// it was accepted later than at a moment, or wouldn't be read back.
fn push_entry(alloc: Global, lines: &mut Vec<u8>, moment: u64, entry: &LaterEntry) -> bool
    ensures put { result ≡ true → spec.AppendsAccepted moment entry.now lines.old.items
        lines.new.items }
    ensures stays { result ≡ false → lines.new.items ≡ lines.old.items }
{
    if entry.accepted() > moment {
        return false;
    }
    match push_accepted(alloc, lines, entry) {
        Ok(()) => true,
        Err(_) => false,
    }
}

/// Puts the deed of an expiry at the moment of the entity behind lines, by which nothing goes, and
/// then the lines of the acceptance of a request; and tells whether it did.
fn push_acceptance<T: Tree>(
    alloc: Global,
    lines: &mut Vec<u8>,
    entity: &Entity<T>,
    entry: &LaterEntry,
) -> bool
    ensures put { result ≡ true → spec.AppendsAcceptance entity.now entry.now lines.old.items
        lines.new.items }
    ensures stays { result ≡ false → lines.new.items ≡ lines.old.items }
{
    let moment = last_moment(entity);
    let len = lines.len();
    if !push_moment(alloc, lines, moment) {
        return false;
    }
    if push_entry(alloc, lines, moment, entry) {
        return true;
    }
    lines.truncate(len);
    false
}

/// Writes down that a request was accepted. Where it wouldn't be read back, it isn't accepted, as
/// for want of memory.
fn write_accepted<T: Tree>(
    alloc: Global,
    entity: &Entity<T>,
    requests: &mut LaterRequests,
    stood: Stood,
    outcome: Outcome,
    lines: &mut Vec<u8>,
) -> Outcome
    requires { stood.count < length requests.old.entries }
    ensures { (standing : LaterRequestsData) → spec.HasOneMore standing requests.old
        → stood.given ≡ standing.given → stood.count ≡ length standing.entries
        → spec.IsWrittenOrBack standing requests.old outcome requests.new result
        × RecordsLater entity.now standing lines.old.items entity.now requests.new
        lines.new.items }
{
    if push_acceptance(alloc, lines, entity, &requests.entries[stood.count]) {
        return outcome;
    }
    requests.entries.truncate(stood.count);
    requests.given = stood.given;
    Outcome::Starved { done: 0 }
}

/// Writes down that the accepted request that was named went; None where memory ran out for that.
fn write_gone(alloc: Global, lines: &mut Vec<u8>, stood: Stood) -> Option<()>
    ensures { IfSome result (λ _. spec.AppendsGone stood.named lines.old.items lines.new.items) }
{
    let number = stood.named?;
    match push_gone(alloc, lines, number) {
        Ok(()) => Some(()),
        Err(_) => None,
    }
}

/// Writes down what became of the accepted requests as a request was answered, and tells what came
/// of it. None where that can't be written down.
fn write_change<T: Tree>(
    alloc: Global,
    entity: &Entity<T>,
    requests: &mut LaterRequests,
    stood: Stood,
    outcome: Outcome,
    lines: &mut Vec<u8>,
) -> Option<Outcome>
    ensures { (home : HomeData) (moment : ℕ) (request : RequestParts) (told : Outcome)
        (standing : LaterRequestsData) → spec.IsAsItStood stood home request told standing
        → IsAnsweredBy (asked_effect home standing moment request told) standing told outcome
        requests.old
        → IfSome result (λ out.
        IsAnsweredBy (asked_effect home standing moment request told) standing told out
        requests.new
        × RecordsLater entity.now standing lines.old.items entity.now requests.new
        lines.new.items) }
{
    let many = requests.entries.len();
    if stood.count < many {
        return Some(write_accepted(alloc, entity, requests, stood, outcome, lines));
    }
    if many == stood.count {
        return Some(outcome);
    }
    write_gone(alloc, lines, stood)?;
    Some(outcome)
}

/// What comes of a request for which the entity inside has this outcome, and what stood before.
fn answer_asked(
    alloc: Global,
    requests: &mut LaterRequests,
    request: &Request,
    asked: Asked,
    moment: u64,
    told: Outcome,
) -> (Stood, Outcome)
    requires originator { IfSome asked.originator (λ o. IsTrue (is_originator o.now)) }
    requires moment { IsMoment moment }
    ensures stood { (home : HomeData) → spec.SaysAsked home requests.old request.now told asked.entry
        → spec.IsAsItStood result.0 home request.now told requests.old }
    ensures answered { (home : HomeData)
        → spec.SaysAsked home requests.old request.now told asked.entry
        → IsAnsweredBy (asked_effect home requests.old moment request.now told) requests.old told
        result.1 requests.new }
{
    let stood = Stood {
        given: requests.given,
        count: requests.entries.len(),
        named: asked.number,
    };
    let outcome = answer(alloc, requests, request, asked, moment, told);
    (stood, outcome)
}

/// Whether the content of a request is no deeper than that of a request that is done.
fn is_shallow(content: &Option<Val>) -> bool
    ensures { result ≡ option_map_or (λ d. nat_le (depth d) 48) content.now true }
{
    match content {
        Some(value) => is_within(value, CONTENT_DEPTH),
        None => true,
    }
}

/// What is due goes, and the request that is asked isn't done, as for want of memory.
fn pass_over<T: Tree>(
    entity: &mut Journaled<T>,
    reading: u64,
    lines: &mut Vec<u8>,
) -> Option<KeptOutcome>
    ensures taken { (moment : ℕ) (request : RequestParts) (standing : LaterRequestsData)
        → IfSome result (λ outcome. IsTakenKept reading moment (OfMachine (Ask request))
        entity.old standing outcome entity.new standing) }
    ensures records { (standing : LaterRequestsData) → IfSome result
        (λ _. RecordsLater entity.old standing lines.old.items entity.new standing
        lines.new.items) }
{
    let ticked = record_inside(entity, reading, &KeptEvent::OfMachine(Event::Tick), lines)?;
    drop(ticked);
    Some(KeptOutcome::OfMachine(Outcome::Starved { done: 0 }))
}

/// Takes an event. A request whose content is too deep isn't done, as for want of memory. None
/// where something was done that can't be written down.
pub(crate) fn take_event<T: Tree>(
    entity: &mut Journaled<T>,
    alloc: Global,
    requests: &mut LaterRequests,
    reading: u64,
    moment: u64,
    event: &KeptEvent,
    lines: &mut Vec<u8>,
) -> Option<KeptOutcome>
    requires { IsMoment moment }
    ensures taken { IfSome result (λ outcome. IsTakenKept reading moment event.now entity.old
        requests.old outcome entity.new requests.new) }
    ensures records { IfSome result (λ _. RecordsLater entity.old requests.old lines.old.items
        entity.new requests.new lines.new.items) }
{
    let Some(request) = request_of(event) else {
        return record_inside(entity, reading, event, lines);
    };
    if !is_shallow(&request.parts().pc) {
        return pass_over(entity, reading, lines);
    }
    let asked = asked_by(entity.entity(), requests, request);
    match record_inside(entity, reading, event, lines)? {
        KeptOutcome::OfMachine(told) => {
            let (stood, outcome) = answer_asked(alloc, requests, request, asked, moment, told);
            let inside = entity.entity();
            let told_then = write_change(alloc, inside, requests, stood, outcome, lines)?;
            Some(KeptOutcome::OfMachine(told_then))
        }
        other => Some(other),
    }
}

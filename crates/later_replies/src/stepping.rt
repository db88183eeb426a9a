//! One event of a CSE that answers later.
ghost use Rattle.std.specs.Prelude.{◌≡◌, IfSome, IsTrue, Option, Some, is_ok, true};
ghost use Rattle.filter_criteria.specs.Bounds.{IsMoment};
ghost use Rattle.m2m_names.specs.Name.{is_originator};
ghost use Rattle.resource_model.specs.Home.{HomeData};
ghost use Rattle.addressing.specs.Addresses.{address_of};
ghost use Rattle.addressing.specs.Short.{short_of};
ghost use Rattle.entity_model.specs.Entity as entities;
ghost use Rattle.group_fanout.specs.Rights as rights;
ghost use Rattle.group_fanout.specs.Rights.{claimed_originator};
ghost use Rattle.accepted_requests.specs.Asked.{IsAskedAs};
ghost use Rattle.cse_machine.specs.declared.event.Event.TheVariants.{Ask};
ghost use Rattle.cse_machine.specs.declared.event.Outcome.TheVariants.{Done};
ghost use Rattle.later_replies.specs.Effects.{GivesLater, LaterEffect};
ghost use Rattle.later_replies.specs.Entries.{LaterRequestsData};
ghost use Rattle.later_replies.specs.Step as spec;
ghost use Rattle.later_replies.specs.Step.{IsAnsweredBy, IsTakenLater, LaterStep};

use crate::entity::LaterEntity;
use crate::running::run_requests;
use accepted_requests::{Asked, LaterRequests};
use cse_machine::{Event, Outcome, step};
use entity_model::{Entity, event_moment};
use primitive_json::{Reply, Request};
use std::alloc::{AllocError as OutOfMemory, Global};
use tree_model::Tree;

// The moment of an event at a reading of the clock.
fn moment_of<T: Tree>(entity: &Entity<T>, reading: u64) -> u64
    ensures value { result ≡ entities.event_moment entity.now.last reading }
    ensures moment { IsMoment result }
{
    event_moment(entity.last, reading)
}

// The outcome of a reply that was made, or for which memory ran out.
fn outcome_made(told: Result<Reply, OutOfMemory>) -> Outcome
    ensures { result ≡ spec.outcome_made told }
{
    match told {
        Ok(reply) => Outcome::Done(reply),
        Err(_) => Outcome::Starved { done: 0 },
    }
}

// The outcome by what a request gets beside the reply of the entity inside.
fn outcome_of(given: Option<Result<Reply, OutOfMemory>>, reply: Reply) -> Outcome
    ensures { (before after : LaterRequestsData) (effect : Option LaterEffect)
        → GivesLater given before after effect
        → IsAnsweredBy effect before (Done reply) result after }
{
    outcome_made(given.unwrap_or(Ok(reply)))
}

/// What comes of a request for which the entity inside has this outcome.
pub fn answer(
    alloc: Global,
    requests: &mut LaterRequests,
    request: &Request,
    asked: Asked,
    moment: u64,
    told: Outcome,
) -> Outcome
    requires originator { IfSome asked.originator (λ o. IsTrue (is_originator o.now)) }
    requires moment { IsMoment moment }
    ensures { (home : HomeData)
        → (IsTrue (spec.is_heard_outcome told)
        → IsAskedAs home (claimed_originator home request.now) requests.old request.now asked.entry)
        → IsAnsweredBy (spec.asked_effect home requests.old moment request.now told)
        requests.old told result requests.new }
{
    match told {
        Outcome::Done(reply) => {
            let status = reply.parts().rsc;
            outcome_of(
                requests.answer(alloc, request, asked, moment, status),
                reply,
            )
        }
        other => other,
    }
}

/// What a request says, beside these accepted requests.
pub fn asked_by<'a, T: Tree>(
    entity: &Entity<T>,
    requests: &LaterRequests,
    request: &'a Request,
) -> Asked<'a>
    ensures asked { is_ok (address_of entity.now.home request.now.to) ≡ true
        → short_of entity.now.home (rights.asking request.now)
        ≡ Some (claimed_originator entity.now.home request.now)
        → IsAskedAs entity.now.home (claimed_originator entity.now.home request.now)
        requests.now request.now result }
    ensures originator { IfSome result.originator (λ o. IsTrue (is_originator o.now)) }
{
    Asked::of(request, &entity.home, requests)
}

// Takes a request as an event.
fn ask<T: Tree>(
    alloc: Global,
    entity: &mut Entity<T>,
    requests: &mut LaterRequests,
    reading: u64,
    moment: u64,
    event: &Event,
    request: &Request,
) -> Outcome
    requires asks { event.now ≡ Ask request.now }
    requires moment { IsMoment moment }
    ensures { IsTakenLater reading moment event.now
        entity.old requests.old result entity.new requests.new }
{
    let asked = asked_by(entity, requests, request);
    let told = step(alloc, entity, reading, event);
    answer(alloc, requests, request, asked, moment, told)
}

// Takes an event.
fn take_event<T: Tree>(
    alloc: Global,
    entity: &mut Entity<T>,
    requests: &mut LaterRequests,
    reading: u64,
    moment: u64,
    event: &Event,
) -> Outcome
    requires { IsMoment moment }
    ensures { IsTakenLater reading moment event.now
        entity.old requests.old result entity.new requests.new }
{
    match event {
        Event::Ask(request) => ask(alloc, entity, requests, reading, moment, event, request),
        Event::Take | Event::Tick => step(alloc, entity, reading, event),
    }
}

/// Takes one event at a reading of the clock, in seconds since 1970. The accepted requests that
/// wait are run, and those that are due go. Then the event is taken: what the entity inside answers
/// stands, unless the request is accepted, or names an accepted one.
pub fn later_step<T: Tree>(state: &mut LaterEntity<T>, reading: u64, event: &Event) -> Outcome
    ensures { LaterStep reading event.now state.old result state.new }
{
    let moment = moment_of(&state.entity, reading);
    run_requests(
        state.alloc,
        &mut state.entity,
        reading,
        moment,
        event,
        &mut state.requests,
    );
    state.requests.drop_due(moment);
    take_event(
        state.alloc,
        &mut state.entity,
        &mut state.requests,
        reading,
        moment,
        event,
    )
}

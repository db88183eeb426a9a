//! One event after another.
ghost use Rattle.std.specs.Prelude.{◌≡◌, IfOk, IfSome, IsTrue, None, Ok, OnErr, Some, option_map};
ghost use Rattle.std.specs.Prelude.{option_and_then, IfErr};
ghost use Rattle.m2m_names.specs.Name.{is_originator};
ghost use Rattle.tree_model.specs.Tree.{has};
ghost use Rattle.addressing.specs.Addresses.{GivesAddress, address_of};
ghost use Rattle.addressing.specs.Laws.{spot_named};
ghost use Rattle.addressing.specs.Names.{IsLocal};
ghost use Rattle.addressing.specs.Short.{short_of};
ghost use Rattle.addressing.specs.declared.addr.Addr.TheVariants.{Local};
ghost use Rattle.addressing.specs.declared.spot.Spot.TheVariants.{Poll};
ghost use Rattle.entity_model.specs.Places.{ComesTo, first_fault, refusal};
ghost use Rattle.request_rules.specs.Judged.{Judges};
ghost use Rattle.cse_machine.specs.Answer.{address_effect, address_places, answered_poll};
ghost use Rattle.primitive_json.specs.Notes.{IsSomeUrl};
ghost use Rattle.group_fanout.specs.Fan.{IsCutShortAt, fan_effect_at, fanned_at, rest_of};
ghost use Rattle.group_fanout.specs.Fan.{served_members};
ghost use Rattle.group_fanout.specs.Rights.{claimed_originator};
ghost use Rattle.group_fanout.specs.Rights as rights;
ghost use Rattle.cse_machine.specs.Answer.{ComesToOutcome, first_places};
ghost use Rattle.cse_machine.specs.Answer.{goes_on, onward_effect, point_of, poll_effect};
ghost use Rattle.cse_machine.specs.Answer.{poll_refusal, spot_effect};
ghost use Rattle.cse_machine.specs.Answer as spec;
ghost use Rattle.cse_machine.specs.Heard.{IsHeardAs};
ghost use Rattle.cse_machine.specs.Step.{IsAnswered, Occurs, Step};
ghost use Rattle.cse_machine.specs.Step as steps;
ghost use Rattle.cse_machine.specs.declared.event.Outcome.TheVariants.{Done};
ghost use Rattle.entity_model.specs.Entity.{swept};

use crate::event::{Event, ObservedStep, Outcome};
use crate::judging::{has_answer, is_blocking, is_in_time, said_originator};
use addressing::{Addr, AddrFault, Segments, Spot, name_segments, parse, short_fr};
use entity_model::{Entity, refuse, reply_to, sweep, take_next};
use group_fanout::{Starved, fan, operate};
use m2m_names::{Op, Rsc};
use m2m_value::Text;
use primitive_json::{Reply, Request, has_form};
use request_rules::{Refusal, find, may_do};
use retarget::{Route, Url, first_url, forwarded, route_of};
use retrieve_discover::poll;
use std::alloc::{AllocError as OutOfMemory, Global};
use tree_model::Tree;

/// Takes one event at a reading of the clock, in seconds since 1970. What is due by then is
/// removed, and told. Then a request is answered on what is left, and what it changes is told; or
/// the next item of the outbox is taken; or nothing else is done. Where memory runs out, nothing
/// has changed but what the expiry changed; and not even that where the expiry ran out of memory.
pub fn step<T: Tree>(alloc: Global, entity: &mut Entity<T>, reading: u64, event: &Event) -> Outcome
    ensures { Step reading event.now entity.old result entity.new }
{
    if let Err(_) = sweep(alloc, entity, reading) {
        return Outcome::Starved { done: 0 };
    }
    occur(alloc, entity, event)
}

/// Takes one event as `step` does, and tells besides whether it took an item of the outbox: the
/// next one, or the one that a poll was given.
pub fn observe_step<T: Tree>(
    alloc: Global,
    entity: &mut Entity<T>,
    reading: u64,
    event: &Event,
) -> ObservedStep
    ensures step { Step reading event.now entity.old result.outcome entity.new }
    ensures took { result.took ≡ steps.took (swept reading entity.old) result.outcome entity.new }
{
    match sweep(alloc, entity, reading) {
        Ok(()) => observe_event(alloc, entity, event),
        Err(_) => ObservedStep {
            outcome: Outcome::Starved { done: 0 },
            took: false,
        },
    }
}

// What an event gives on the entity as it stands, and whether it took an item.
fn observe_event<T: Tree>(alloc: Global, entity: &mut Entity<T>, event: &Event) -> ObservedStep
    ensures step { Occurs event.now entity.old result.outcome entity.new }
    ensures took { result.took ≡ steps.took entity.old result.outcome entity.new }
{
    let items = entity.outbox.len();
    let outcome = occur(alloc, entity, event);
    let took = has_taken(&outcome, items, entity.outbox.len());
    ObservedStep { outcome, took }
}

// Whether an event of which this came took an item, by how many there were before it and after.
fn has_taken(outcome: &Outcome, before: u64, after: u64) -> bool
    ensures { result ≡ steps.took_of before after outcome.now }
{
    match outcome {
        Outcome::Done(_) => after < before,
        Outcome::Item(given) => given.is_some(),
        Outcome::Forward { .. } | Outcome::Ticked | Outcome::Starved { .. } => false,
    }
}

// What an event gives on the entity as it stands. A request goes where its address leads: here, or
// elsewhere.
fn occur<T: Tree>(alloc: Global, entity: &mut Entity<T>, event: &Event) -> Outcome
    ensures { Occurs event.now entity.old result entity.new }
{
    match event {
        Event::Ask(request) => match judge(alloc, entity, request) {
            Ok(heard) => match &heard.addr {
                Addr::Local(segments) => {
                    let spot = name_segments(&entity.tree, segments);
                    match reach(alloc, entity, request, heard.originator, segments, spot) {
                        Ok(reply) => Outcome::Done(reply),
                        Err(starved) => Outcome::Starved { done: starved.done },
                    }
                }
                Addr::Foreign(_) | Addr::OtherProvider => {
                    lead_elsewhere(alloc, entity, request, heard.originator, &heard.addr)
                }
            },
            Err(Refusal::Fault(fault)) => turn_away(alloc, entity, request, fault),
            Err(Refusal::OutOfMemory) => Outcome::Starved { done: 0 },
        },
        Event::Take => give_next(entity),
        Event::Tick => Outcome::Ticked,
    }
}

// The next item of the outbox is given away.
fn give_next<T: Tree>(entity: &mut Entity<T>) -> Outcome
    ensures { Occurs Event.Take entity.old result entity.new }
{
    Outcome::Item(take_next(entity))
}

// The outcome of a request that a place refuses before its address is resolved.
#[tactic(auto, using(group_fanout::proofs::FanLemmas::none_cut))]
fn turn_away<T: Tree>(alloc: Global, entity: &Entity<T>, request: &Request, fault: Rsc) -> Outcome
    requires refused { first_fault (first_places entity.now request.now) ≡ Some fault }
    ensures { IsAnswered entity.now request.now result entity.now }
{
    match refuse(alloc, request, fault) {
        Ok(reply) => Outcome::Done(reply),
        Err(_) => Outcome::Starved { done: 0 },
    }
}

// The outcome of a request that is refused.
fn turn_down(alloc: Global, request: &Request, fault: Rsc) -> Result<Outcome, Starved>
    ensures refused { IfOk result (λ x. x ≡ Done (refusal request.now fault)) }
    ensures none { IfErr result (λ s. s.done ≡ 0) }
{
    Ok(Outcome::Done(refuse(alloc, request, fault)?))
}

// ---- whether it is heard

// A request that no place refuses before its address is resolved: whom it is judged as, in the
// short form, and the address.
#[derive(Drop)]
struct HeardRequest<'a> {
    originator: &'a [u8],
    addr: Addr<'a>,
}

// Judges a request whatever its address names. Nothing is changed.
fn judge<'a, T: Tree>(
    alloc: Global,
    entity: &Entity<T>,
    request: &'a Request,
) -> Result<HeardRequest<'a>, Refusal>
    ensures { Judges result (first_fault (first_places entity.now request.now))
        (IsHeardAs entity.now request.now) }
{
    if !has_form(request) {
        return Err(Refusal::Fault(Rsc::BadRequest));
    }
    match asking(entity, request) {
        Some(originator) => judge_address(alloc, entity, request, originator),
        None => Err(Refusal::Fault(Rsc::BadRequest)),
    }
}

// Whom the request is judged as, in the short form.
fn asking<'a, T: Tree>(entity: &Entity<T>, request: &'a Request) -> Option<&'a [u8]>
    ensures value { option_map (λ o. o.now) result
        ≡ option_and_then (short_of entity.now.home) (spec.said_originator request.now) }
    ensures originator { IfSome result (λ o. IsTrue (is_originator o.now)) }
{
    match said_originator(request) {
        Some(fr) => short_fr(fr, &entity.home),
        None => None,
    }
}

// The address that it is sent to.
fn address<'a, T: Tree>(
    alloc: Global,
    entity: &Entity<T>,
    request: &'a Request,
) -> Result<Addr<'a>, AddrFault>
    ensures { GivesAddress result (address_of entity.now.home request.now.to) }
{
    parse(alloc, request.parts().to.entries(), &entity.home)
}

// One of this originator: by its address, and by when and how it is answered.
fn judge_address<'a, T: Tree>(
    alloc: Global,
    entity: &Entity<T>,
    request: &'a Request,
    originator: &'a [u8],
) -> Result<HeardRequest<'a>, Refusal>
    requires originator { IsTrue (is_originator originator.now) }
    requires claimed { claimed_originator entity.now.home request.now ≡ originator.now }
    ensures { Judges result (first_fault (address_places entity.now request.now))
        (IsHeardAs entity.now request.now) }
{
    match address(alloc, entity, request) {
        Ok(_) if !is_in_time(entity, request) => Err(Refusal::Fault(Rsc::RequestTimeout)),
        Ok(_) if !is_blocking(request) => Err(Refusal::Fault(Rsc::NonBlocking)),
        Ok(addr) => Ok(HeardRequest { originator, addr }),
        Err(AddrFault::OutOfMemory) => Err(Refusal::OutOfMemory),
        Err(_) => Err(Refusal::Fault(Rsc::BadRequest)),
    }
}

// ---- where it goes

// The outcome where its address leads elsewhere. Nothing is changed.
#[tactic(auto, using(group_fanout::proofs::FanLemmas::none_cut))]
fn lead_elsewhere<T: Tree>(
    alloc: Global,
    entity: &Entity<T>,
    request: &Request,
    originator: &[u8],
    addr: &Addr,
) -> Outcome
    requires heard { first_fault (first_places entity.now request.now) ≡ None }
    requires originator { IsTrue (is_originator originator.now) }
    requires claimed { claimed_originator entity.now.home request.now ≡ originator.now }
    requires addressed { address_of entity.now.home request.now.to ≡ Ok addr.now }
    requires away { IsLocal addr.now → ⊥ }
    ensures { IsAnswered entity.now request.now result entity.now }
{
    match lead_away(alloc, entity, request, originator, addr) {
        Ok(outcome) => outcome,
        Err(_) => Outcome::Starved { done: 0 },
    }
}

// What it gives where its address leads elsewhere. Nothing is changed.
fn lead_away<T: Tree>(
    alloc: Global,
    entity: &Entity<T>,
    request: &Request,
    originator: &[u8],
    addr: &Addr,
) -> Result<Outcome, Starved>
    requires originator { IsTrue (is_originator originator.now) }
    requires claimed { claimed_originator entity.now.home request.now ≡ originator.now }
    requires away { IsLocal addr.now → ⊥ }
    ensures gives { ComesToOutcome result entity.now
        (address_effect entity.now request.now (Ok addr.now)) }
    ensures none { IfErr result (λ s. s.done ≡ 0) }
{
    match route_of(&entity.tree, originator, addr) {
        Route::Local => unreachable!(),
        Route::Unknown => turn_down(alloc, request, Rsc::NotFound),
        Route::NoHop | Route::NoPoint => turn_down(alloc, request, Rsc::NotReachable),
        Route::Forward(number) => go_on(alloc, entity, request, originator, number),
    }
}

// What it gives where it goes on to the registered CSE of a number.
fn go_on<T: Tree>(
    alloc: Global,
    entity: &Entity<T>,
    request: &Request,
    originator: &[u8],
    number: u64,
) -> Result<Outcome, Starved>
    requires originator { IsTrue (is_originator originator.now) }
    requires claimed { claimed_originator entity.now.home request.now ≡ originator.now }
    ensures outcome { IfOk result (λ x. x ≡ (onward_effect entity.now request.now
        (point_of entity.now.nodes number)).outcome) }
    ensures none { IfErr result (λ s. s.done ≡ 0) }
{
    match point_of(entity, number) {
        Some(url) => go_on_to(alloc, entity, request, originator, url),
        None => turn_down(alloc, request, Rsc::NotReachable),
    }
}

// The first URL among the points of access of the resource of a number.
fn point_of<T: Tree>(entity: &Entity<T>, number: u64) -> Option<&Text>
    ensures value { option_map (λ t. t.now) result ≡ spec.point_of entity.now.nodes number }
    ensures url { IfSome result (λ t. IsSomeUrl t.now) }
{
    match find(entity, number) {
        Some(cse) => first_url(cse),
        None => None,
    }
}

// The outcome of a request that goes on to the CSE at a URL.
fn go_on_to<T: Tree>(
    alloc: Global,
    entity: &Entity<T>,
    request: &Request,
    originator: &[u8],
    url: &Text,
) -> Result<Outcome, Starved>
    requires originator { IsTrue (is_originator originator.now) }
    requires claimed { claimed_originator entity.now.home request.now ≡ originator.now }
    requires url { IsSomeUrl url.now }
    ensures outcome { IfOk result (λ x. x ≡ (goes_on entity.now request.now url.now).outcome) }
    ensures none { IfErr result (λ s. s.done ≡ 0) }
{
    let poa = Url::of(url.copy(alloc)?);
    let request = forwarded(alloc, &entity.home, originator, request)?;
    Ok(Outcome::Forward { poa, request })
}

// What it gives at what its address names.
#[tactic(auto, using(group_fanout::proofs::FanLemmas::none_cut))]
fn reach<T: Tree>(
    alloc: Global,
    entity: &mut Entity<T>,
    request: &Request,
    originator: &[u8],
    segments: &Segments,
    spot: Option<Spot>,
) -> Result<Reply, Starved>
    requires originator { IsTrue (is_originator originator.now) }
    requires claimed { claimed_originator entity.old.home request.now ≡ originator.now }
    requires addressed { address_of entity.old.home request.now.to ≡ Ok (Local segments.now) }
    requires named { spot ≡ spot_named entity.old.home request.now.to entity.old.nodes }
    ensures gives { ComesTo result entity.new (spot_effect entity.old request.now spot) }
    ensures cut { IfErr result (λ s.
        IsCutShortAt entity.old (served_members entity.old request.now spot) s.done entity.new) }
{
    match spot {
        Some(Spot::Resource(number)) => { Ok(operate(alloc, entity, request, originator, number)?) }
        Some(Spot::Fan { group, rest }) => {
            reach_members(alloc, entity, request, originator, segments, group, rest)
        }
        Some(Spot::Poll(channel)) => {
            Ok(reach_poll(alloc, entity, request, originator, channel)?)
        }
        None => Ok(refuse(alloc, request, Rsc::NotFound)?),
    }
}

// What it gives at the fan-out point of the group of a number, where the rest of its address begins
// at a place.
#[tactic(auto, using(group_fanout::proofs::FanLemmas::none_cut))]
fn reach_members<T: Tree>(
    alloc: Global,
    entity: &mut Entity<T>,
    request: &Request,
    originator: &[u8],
    segments: &Segments,
    group: u64,
    place: u64,
) -> Result<Reply, Starved>
    requires originator { IsTrue (is_originator originator.now) }
    requires claimed { claimed_originator entity.old.home request.now ≡ originator.now }
    requires addressed { address_of entity.old.home request.now.to ≡ Ok (Local segments.now) }
    ensures gives { ComesTo result entity.new (fan_effect_at entity.old request.now
        (rest_of entity.old.home request.now.to place) group) }
    ensures cut { IfErr result (λ s. IsCutShortAt entity.old (fanned_at entity.old request.now
        (rest_of entity.old.home request.now.to place) group) s.done entity.new) }
{
    let rest = segments.from_place(alloc, place)?;
    fan(alloc, entity, originator, request, group, &rest)
}

// Whether the resource of a number is there.
fn is_there<T: Tree>(entity: &Entity<T>, number: u64) -> bool
    ensures { result ≡ has number entity.now.nodes }
{
    match find(entity, number) {
        Some(_) => true,
        None => false,
    }
}

// What it gives at the poll point of the channel of a number.
fn reach_poll<T: Tree>(
    alloc: Global,
    entity: &mut Entity<T>,
    request: &Request,
    originator: &[u8],
    channel: u64,
) -> Result<Reply, OutOfMemory>
    requires originator { IsTrue (is_originator originator.now) }
    requires claimed { claimed_originator entity.old.home request.now ≡ originator.now }
    ensures gives { ComesTo result entity.new
        (spot_effect entity.old request.now (Some (Poll channel))) }
    ensures err { OnErr result (entity.new ≡ entity.old) }
{
    if is_there(entity, channel) {
        operate_poll(alloc, entity, request, originator, channel)
    } else {
        refuse(alloc, request, Rsc::NotFound)
    }
}

// What its operation gives there.
fn operate_poll<T: Tree>(
    alloc: Global,
    entity: &mut Entity<T>,
    request: &Request,
    originator: &[u8],
    channel: u64,
) -> Result<Reply, OutOfMemory>
    requires originator { IsTrue (is_originator originator.now) }
    requires claimed { claimed_originator entity.old.home request.now ≡ originator.now }
    requires resource { IsTrue (has channel entity.old.nodes) }
    ensures gives { ComesTo result entity.new
        (poll_effect request.now.op entity.old request.now channel) }
    ensures err { OnErr result (entity.new ≡ entity.old) }
{
    match request.parts().op {
        Op::Create => refuse_at_poll(alloc, entity, originator, request, channel),
        Op::Retrieve => poll(alloc, entity, originator, request, channel),
        Op::Update => refuse_at_poll(alloc, entity, originator, request, channel),
        Op::Delete => refuse_at_poll(alloc, entity, originator, request, channel),
        Op::Notify => answer_poll(alloc, entity, originator, request, channel),
    }
}

// Whether the originator has the right that it needs there.
fn has_right<T: Tree>(
    entity: &Entity<T>,
    originator: &[u8],
    request: &Request,
    channel: u64,
) -> bool
    requires originator { IsTrue (is_originator originator.now) }
    requires claimed { claimed_originator entity.now.home request.now ≡ originator.now }
    requires resource { IsTrue (has channel entity.now.nodes) }
    ensures { result ≡ rights.has_right entity.now request.now channel }
{
    may_do(request.parts().op, entity, originator, request, channel)
}

// What isn't done there.
fn refuse_at_poll<T: Tree>(
    alloc: Global,
    entity: &Entity<T>,
    originator: &[u8],
    request: &Request,
    channel: u64,
) -> Result<Reply, OutOfMemory>
    requires originator { IsTrue (is_originator originator.now) }
    requires claimed { claimed_originator entity.now.home request.now ≡ originator.now }
    requires resource { IsTrue (has channel entity.now.nodes) }
    ensures { IfOk result (λ r. r ≡ (poll_refusal entity.now request.now channel).reply) }
{
    if has_right(entity, originator, request, channel) {
        refuse(alloc, request, Rsc::NotAllowed)
    } else {
        refuse(alloc, request, Rsc::NoPrivilege)
    }
}

// The answer of who polled, which isn't kept.
fn answer_poll<T: Tree>(
    alloc: Global,
    entity: &Entity<T>,
    originator: &[u8],
    request: &Request,
    channel: u64,
) -> Result<Reply, OutOfMemory>
    requires originator { IsTrue (is_originator originator.now) }
    requires claimed { claimed_originator entity.now.home request.now ≡ originator.now }
    requires resource { IsTrue (has channel entity.now.nodes) }
    ensures { IfOk result (λ r. r ≡ (answered_poll entity.now request.now channel).reply) }
{
    if !has_right(entity, originator, request, channel) {
        return refuse(alloc, request, Rsc::NoPrivilege);
    }
    if has_answer(request) {
        reply_to(alloc, request, Rsc::Ok, None)
    } else {
        refuse(alloc, request, Rsc::BadRequest)
    }
}

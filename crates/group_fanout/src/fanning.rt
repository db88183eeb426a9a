//! One operation on each member of a group.
ghost use Rattle.std.specs.Prelude.{◌≡◌, ◌++◌, ◌∷◌, [], length, IfErr, IfOk, IsTrue, IsUtf8, OnErr};
ghost use Rattle.std.specs.Prelude.{OnOk, map, Ok as Fine};
ghost use Rattle.std.specs.List.{AllByRecursion};
ghost use Rattle.m2m_names.specs.Name.{is_originator};
ghost use Rattle.tree_model.specs.Tree.{has};
ghost use Rattle.addressing.specs.Addresses.{GivesAddress, address_of, are_names};
ghost use Rattle.policy_eval.specs.Rights.{fan_grants};
ghost use Rattle.entity_model.specs.Places.{ComesTo, first_fault};
ghost use Rattle.group_fanout.specs.Fan.{IsCutShortAt, after_members, fan_effect_at, fan_places};
ghost use Rattle.group_fanout.specs.Fan.{fanned, fanned_at, gathered_one, member_effect};
ghost use Rattle.group_fanout.specs.Fan.{member_effect_at, member_effect_by, requests_to, sent_to};
ghost use Rattle.group_fanout.specs.Fan.{singles_of};
ghost use Rattle.group_fanout.specs.Fan as spec;
ghost use Rattle.group_fanout.specs.Rights.{claimed_originator};

use crate::gathering::{gathered_one, reply_of};
use crate::members::member_addresses;
use crate::operating::operate;
use addressing::{Addr, AddrFault, Segments, Spot, name_segments, parse};
use entity_model::{Entity, refuse};
use m2m_names::{Op, Rsc};
use m2m_value::{Text, Val};
use policy_eval::fan_granted;
use primitive_json::{Reply, Request};
use request_rules::find;
use std::alloc::{AllocError as OutOfMemory, Global};
use tree_model::{Resource, Tree};

/// Memory ran out in a fan-out when so many of its members had been done: these have taken effect,
/// and nothing else has.
#[derive(Clone, Copy, Debug, PartialEq, Eq)]
pub struct Starved {
    pub done: u32,
}

impl From<OutOfMemory> for Starved {
    ghost use Rattle.std.specs.Prelude.{◌≡◌};
    ghost use Rattle.group_fanout.specs.declared.fanning.Starved.{Starved};

    ghost from_gives = { λ _ s. s ≡ record { done = 0 } };

    fn from(_e: OutOfMemory) -> Starved {
        Starved { done: 0 }
    }
}

/// What a request of this originator gives at the fan-out point of a group, with the rest of the
/// address behind it: the replies of the operation on each member that the group has, which is done
/// by one after another, each on what the one before left; or a refusal, for want of the right on
/// the group, or of a Notify; 4004 where there is no group. Where memory runs out, as many members
/// as are told have been done, and nothing else.
pub fn fan<T: Tree>(
    alloc: Global,
    entity: &mut Entity<T>,
    originator: &[u8],
    request: &Request,
    group: u64,
    rest: &Segments,
) -> Result<Reply, Starved>
    requires originator { IsTrue (is_originator originator.now) }
    requires claimed { claimed_originator entity.old.home request.now ≡ originator.now }
    requires names { IsTrue (are_names rest.now) }
    ensures gives { ComesTo result entity.new
        (fan_effect_at entity.old request.now rest.now group) }
    ensures cut { IfErr result (λ s. IsCutShortAt entity.old
        (fanned_at entity.old request.now rest.now group) s.done entity.new) }
{
    if let Some(fault) = fan_fault(entity, originator, request, group) {
        return Ok(refuse(alloc, request, fault)?);
    }
    let addresses = addresses_at(alloc, entity, group, rest)?;
    fan_out(alloc, entity, originator, request, addresses)
}

// ---- whether it is done

// The status by which it is refused.
fn fan_fault<T: Tree>(
    entity: &Entity<T>,
    originator: &[u8],
    request: &Request,
    group: u64,
) -> Option<Rsc>
    requires originator { IsTrue (is_originator originator.now) }
    requires claimed { claimed_originator entity.now.home request.now ≡ originator.now }
    ensures { result ≡ spec.fan_fault_at entity.now request.now group }
{
    match find(entity, group) {
        Some(group) => fan_fault_on(entity, originator, request, group),
        None => Some(Rsc::NotFound),
    }
}

fn fan_fault_on<T: Tree>(
    entity: &Entity<T>,
    originator: &[u8],
    request: &Request,
    group: &Resource,
) -> Option<Rsc>
    requires originator { IsTrue (is_originator originator.now) }
    requires claimed { claimed_originator entity.now.home request.now ≡ originator.now }
    requires resource { IsTrue (has group.now.number entity.now.nodes) }
    ensures { result ≡ first_fault (fan_places entity.now request.now group.now) }
{
    if !may_fan(entity, originator, request, group.number()) {
        return Some(Rsc::NoPrivilege);
    }
    if is_fanned(request) {
        None
    } else {
        Some(Rsc::NotAllowed)
    }
}

// Whether the originator has the right for it.
fn may_fan<T: Tree>(entity: &Entity<T>, originator: &[u8], request: &Request, group: u64) -> bool
    requires originator { IsTrue (is_originator originator.now) }
    requires claimed { claimed_originator entity.now.home request.now ≡ originator.now }
    requires resource { IsTrue (has group entity.now.nodes) }
    ensures { result ≡ spec.may_fan entity.now request.now group }
{
    has_fan_bit(entity, originator, request.parts().op.bit(), group)
}

fn has_fan_bit<T: Tree>(entity: &Entity<T>, originator: &[u8], bit: u32, group: u64) -> bool
    requires originator { IsTrue (is_originator originator.now) }
    requires resource { IsTrue (has group entity.now.nodes) }
    ensures { result ≡ fan_grants entity.now.home entity.now.nodes originator.now bit group }
{
    fan_granted(&entity.tree, &entity.home, originator, bit, group)
}

fn is_fanned(request: &Request) -> bool
    ensures { result ≡ spec.is_fanned request.now.op }
{
    match request.parts().op {
        Op::Create | Op::Retrieve | Op::Update | Op::Delete => true,
        Op::Notify => false,
    }
}

// ---- the members

// The addresses of the members that the group has.
fn addresses_at<T: Tree>(
    alloc: Global,
    entity: &Entity<T>,
    group: u64,
    rest: &Segments,
) -> Result<Vec<Text>, OutOfMemory>
    requires { IsTrue (are_names rest.now) }
    ensures value { IfOk result (λ v. v.items ≡ spec.addresses_at entity.now rest.now group) }
    ensures utf8 { IfOk result (λ v. AllByRecursion IsUtf8 v.items) }
{
    match find(entity, group) {
        Some(group) => member_addresses(alloc, group, rest),
        None => Ok(Vec::new(alloc)),
    }
}

// The reply to it, where each is asked.
#[tactic(auto, using(crate::proofs::FanLemmas::all_cut, crate::proofs::FanLemmas::none_cut))]
fn fan_out<T: Tree>(
    alloc: Global,
    entity: &mut Entity<T>,
    originator: &[u8],
    request: &Request,
    addresses: Vec<Text>,
) -> Result<Reply, Starved>
    requires originator { IsTrue (is_originator originator.now) }
    requires claimed { claimed_originator entity.old.home request.now ≡ originator.now }
    requires fanned { IsTrue (spec.is_fanned request.now.op) }
    requires utf8 { AllByRecursion IsUtf8 addresses.items }
    ensures gives { ComesTo result entity.new
        (fanned entity.old request.now (requests_to request.now addresses.items)) }
    ensures cut { IfErr result (λ s. IsCutShortAt entity.old
        (requests_to request.now addresses.items) s.done entity.new) }
{
    let asked = ask_all(alloc, entity, originator, request, addresses)?;
    match reply_of(alloc, request, asked.replies) {
        Ok(reply) => Ok(reply),
        Err(_) => Err(Starved { done: asked.done }),
    }
}

// What is told of the operation on each member, and of how many.
#[derive(Drop)]
struct MemberReplies {
    replies: Vec<Val>,
    done: u32,
}

// Asks one after another.
#[tactic(auto, using(crate::proofs::FanLemmas::asking))]
fn ask_all<T: Tree>(
    alloc: Global,
    entity: &mut Entity<T>,
    originator: &[u8],
    request: &Request,
    addresses: Vec<Text>,
) -> Result<MemberReplies, Starved>
    requires originator { IsTrue (is_originator originator.now) }
    requires claimed { claimed_originator entity.old.home request.now ≡ originator.now }
    requires fanned { IsTrue (spec.is_fanned request.now.op) }
    requires utf8 { AllByRecursion IsUtf8 addresses.items }
    ensures done { IfOk result (λ a. a.done ≡ length addresses.items) }
    ensures replies { IfOk result (λ a. a.replies.items ≡ map gathered_one
        (singles_of entity.old (requests_to request.now addresses.items))) }
    ensures after { OnOk result (entity.new
        ≡ after_members entity.old (requests_to request.now addresses.items)) }
    ensures cut { IfErr result (λ s. IsCutShortAt entity.old
        (requests_to request.now addresses.items) s.done entity.new) }
{
    let mut replies = Vec::with_capacity(alloc, addresses.len())?;
    let mut done = 0u32;
    for address in addresses {
        if done == u32::MAX {
            return Err(Starved { done });
        }
        let Ok(reply) = ask_member(alloc, entity, originator, request, &address) else {
            return Err(Starved { done });
        };
        done += 1;
        if let Err(_) = add_reply(alloc, &mut replies, reply, address) {
            return Err(Starved { done });
        }
    }
    Ok(MemberReplies { replies, done })
}

// Puts what is told of the operation on one member behind others.
fn add_reply(
    alloc: Global,
    replies: &mut Vec<Val>,
    reply: Reply,
    address: Text,
) -> Result<(), OutOfMemory>
    requires { IsUtf8 address }
    ensures { OnOk result (replies.new.items
        ≡ replies.old.items ++ spec.told_of reply address ∷ []) }
{
    replies.push(gathered_one(alloc, reply, address)?)?;
    Ok(())
}

// ---- one member

// What the request gives at the address of a member.
fn ask_member<T: Tree>(
    alloc: Global,
    entity: &mut Entity<T>,
    originator: &[u8],
    request: &Request,
    address: &Text,
) -> Result<Reply, OutOfMemory>
    requires originator { IsTrue (is_originator originator.now) }
    requires claimed { claimed_originator entity.old.home request.now ≡ originator.now }
    requires fanned { IsTrue (spec.is_fanned request.now.op) }
    ensures gives { ComesTo result entity.new
        (member_effect entity.old (sent_to request.now address.now)) }
    ensures err { OnErr result (entity.new ≡ entity.old) }
{
    match read_address(alloc, entity, address) {
        Ok(addr) => ask_at(alloc, entity, originator, request, &addr),
        Err(AddrFault::OutOfMemory) => Err(OutOfMemory),
        Err(_) => refuse(alloc, request, Rsc::NotFound),
    }
}

// The address that a text is.
fn read_address<'a, T: Tree>(
    alloc: Global,
    entity: &Entity<T>,
    text: &'a Text,
) -> Result<Addr<'a>, AddrFault>
    ensures { GivesAddress result (address_of entity.now.home text.now) }
{
    parse(alloc, text.entries(), &entity.home)
}

// What it gives by where that leads.
fn ask_at<T: Tree>(
    alloc: Global,
    entity: &mut Entity<T>,
    originator: &[u8],
    request: &Request,
    addr: &Addr,
) -> Result<Reply, OutOfMemory>
    requires originator { IsTrue (is_originator originator.now) }
    requires claimed { claimed_originator entity.old.home request.now ≡ originator.now }
    ensures gives { ComesTo result entity.new
        (member_effect_by entity.old request.now (Fine addr.now)) }
    ensures err { OnErr result (entity.new ≡ entity.old) }
{
    match addr {
        Addr::Local(segments) => {
            let spot = name_segments(&entity.tree, segments);
            ask_spot(alloc, entity, originator, request, spot)
        }
        Addr::Foreign(_) => refuse(alloc, request, Rsc::NotReachable),
        Addr::OtherProvider => refuse(alloc, request, Rsc::NotFound),
    }
}

// What it gives at what that names.
fn ask_spot<T: Tree>(
    alloc: Global,
    entity: &mut Entity<T>,
    originator: &[u8],
    request: &Request,
    spot: Option<Spot>,
) -> Result<Reply, OutOfMemory>
    requires originator { IsTrue (is_originator originator.now) }
    requires claimed { claimed_originator entity.old.home request.now ≡ originator.now }
    ensures gives { ComesTo result entity.new (member_effect_at entity.old request.now spot) }
    ensures err { OnErr result (entity.new ≡ entity.old) }
{
    match spot {
        Some(Spot::Resource(number)) => operate(alloc, entity, request, originator, number),
        Some(Spot::Fan { .. }) | Some(Spot::Poll(_)) => refuse(alloc, request, Rsc::NotAllowed),
        None => refuse(alloc, request, Rsc::NotFound),
    }
}

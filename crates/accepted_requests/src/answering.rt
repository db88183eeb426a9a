//! What comes of a request beside what the CSE answers.
ghost use Rattle.std.specs.Prelude.{◌≡◌, Some, IfOk, if◌then◌else◌, nat_lt, not};
ghost use Rattle.m2m_names.specs.declared.codes.Rsc.TheVariants as status;
ghost use Rattle.entity_model.specs.Places as places;
ghost use Rattle.accepted_requests.specs.Effects as spec;
ghost use Rattle.accepted_requests.specs.Entries as entries;
ghost use Rattle.accepted_requests.specs.Entries.{LaterEntryData, LaterRequestsData};
ghost use Rattle.accepted_requests.specs.Form as form;

use crate::asked::Asked;
use crate::entry::LaterEntry;
use crate::form::{entry_content, uri_content};
use crate::list::LaterRequests;
use entity_model::{refuse, reply_to};
use m2m_names::{LARGEST_COUNT, Op, Rsc};
use primitive_json::{Reply, Request};
use std::alloc::{AllocError as OutOfMemory, Global};

// How many accepted requests are kept at most.
const MOST_ENTRIES: u64 = 1000;

// Whether the request asks to be answered later.
fn wants_later(request: &Request) -> bool
    ensures { result ≡ spec.wants_later request.now }
{
    match request.parts().rt {
        Some(rt) => rt == 1,
        None => false,
    }
}

// Whether a count is this one or more.
fn reaches(count: u64, most: u64) -> bool
    ensures { result ≡ not (nat_lt count most) }
{
    count >= most
}

fn is_status(told: Rsc, other: Rsc) -> bool
    ensures { result ≡ spec.is_status told other }
{
    told.number() == other.number()
}

// The reply that shows an accepted request.
fn show(alloc: Global, request: &Request, entry: &LaterEntry) -> Result<Reply, OutOfMemory>
    ensures { IfOk result (λ r. r
        ≡ places.reply_to request.now status.Ok (Some (form.entry_content entry.now))) }
{
    let content = entry_content(alloc, entry)?;
    reply_to(alloc, request, Rsc::Ok, Some(content))
}

// The reply to a request that is accepted under a number.
fn told_number(alloc: Global, request: &Request, number: u64) -> Result<Reply, OutOfMemory>
    ensures { IfOk result (λ r. r
        ≡ places.reply_to request.now status.Accepted (Some (form.uri_content number))) }
{
    let content = uri_content(alloc, number)?;
    reply_to(alloc, request, Rsc::Accepted, Some(content))
}

// What its originator gets of an accepted request by an operation.
fn own_reply(alloc: Global, request: &Request, entry: &LaterEntry) -> Result<Reply, OutOfMemory>
    ensures { (requests : LaterRequestsData) → IfOk result (λ r. r
        ≡ (spec.own_effect request.now.op requests request.now entry.now).reply) }
{
    match request.parts().op {
        Op::Create => refuse(alloc, request, Rsc::BadChild),
        Op::Retrieve => show(alloc, request, entry),
        Op::Delete => reply_to(alloc, request, Rsc::Deleted, None),
        Op::Update | Op::Notify => refuse(alloc, request, Rsc::NotAllowed),
    }
}

// What one gets of it whose own it is, or isn't.
fn entry_reply(
    alloc: Global,
    is_own: bool,
    request: &Request,
    entry: &LaterEntry,
) -> Result<Reply, OutOfMemory>
    ensures { (requests : LaterRequestsData) → IfOk result (λ r. r
        ≡ (spec.entry_effect is_own requests request.now entry.now).reply) }
{
    if is_own {
        own_reply(alloc, request, entry)
    } else {
        refuse(alloc, request, Rsc::NoPrivilege)
    }
}

// Whether the request takes it away.
fn takes_away(is_own: bool, request: &Request) -> bool
    ensures { (requests : LaterRequestsData) (e : LaterEntryData)
        → (spec.entry_effect is_own requests request.now e).requests
        ≡ (if result then entries.without e.number requests else requests) }
{
    match request.parts().op {
        Op::Delete => is_own,
        _ => false,
    }
}

impl LaterRequests {
    ghost use Rattle.std.specs.Prelude.{◌≡◌, ◌+◌, ◌++◌, [], ◌∷◌, ◌&&◌, false, not, IfSome, IsTrue};
    ghost use Rattle.std.specs.Prelude.{OnOk, OnErr, if◌then◌else◌, is_some, option_and_then};
    ghost use Rattle.std.specs.Prelude.{ℕ, List, option_map};
    ghost use Rattle.filter_criteria.specs.Bounds.{IsMoment};
    ghost use Rattle.m2m_names.specs.Name.{is_originator};
    ghost use Rattle.resource_model.specs.Home.{HomeData};
    ghost use Rattle.accepted_requests.specs.Asked.{IsAskedAs};
    ghost use Rattle.accepted_requests.specs.Effects as spec;
    ghost use Rattle.accepted_requests.specs.Effects.{ComesToLater, GivesLater};
    ghost use Rattle.accepted_requests.specs.Entries as entries;

    // Whether no more can be kept, or no more numbers given.
    fn is_full(&self) -> bool
        ensures { result ≡ spec.is_full self.now }
    {
        reaches(self.len(), MOST_ENTRIES) || reaches(self.last_number(), LARGEST_COUNT)
    }

    // The number that is given next.
    fn next_number(&self) -> u64
        requires { spec.is_full self.now ≡ false }
        ensures { result ≡ self.now.given + 1 }
    {
        self.last_number() + 1
    }

    // Keeps an accepted request that has the next number.
    fn push(&mut self, entry: LaterEntry, number: u64) -> Result<(), OutOfMemory>
        ensures ok { OnOk result (self.new
            ≡ record { entries = self.old.entries ++ entry ∷ []; given = number }) }
        ensures err { OnErr result (self.new ≡ self.old) }
    {
        self.entries.push(entry)?;
        self.given = number;
        Ok(())
    }

    // Accepts a request of an originator at a moment, under the next number.
    fn accept(
        &mut self,
        alloc: Global,
        originator: &[u8],
        request: &Request,
        moment: u64,
    ) -> Result<Reply, OutOfMemory>
        requires room { spec.is_full self.old ≡ false }
        requires originator { IsTrue (is_originator originator.now) }
        requires moment { IsMoment moment }
        ensures { ComesToLater result self.old self.new
            (spec.taken_up self.old originator.now request.now moment) }
    {
        let number = self.next_number();
        let reply = told_number(alloc, request, number)?;
        let entry = LaterEntry::accept(alloc, number, originator, request, moment)?;
        self.push(entry, number)?;
        Ok(reply)
    }

    // Accepts it, unless there is no room.
    fn accept_if_room(
        &mut self,
        alloc: Global,
        originator: &[u8],
        request: &Request,
        moment: u64,
    ) -> Result<Reply, OutOfMemory>
        requires originator { IsTrue (is_originator originator.now) }
        requires moment { IsMoment moment }
        ensures { ComesToLater result self.old self.new
            (spec.taken_up_if_room self.old originator.now request.now moment) }
    {
        if self.is_full() {
            refuse(alloc, request, Rsc::NotAcceptable)
        } else {
            self.accept(alloc, originator, request, moment)
        }
    }

    // Whether the one of a number is kept.
    fn has(&self, number: Option<u64>) -> bool
        ensures { result
            ≡ is_some (option_and_then (λ n. entries.numbered n self.now) number) }
    {
        match self.named(number) {
            Some(_) => true,
            None => false,
        }
    }

    // Whether the request is to be answered later, sent to this CSE, and to no accepted request.
    fn is_acceptable(&self, request: &Request, asked: Asked) -> bool
        ensures { result ≡ (spec.wants_later request.now && asked.entry.is_here
            && not (is_some (option_and_then (λ n. entries.numbered n self.now)
            asked.entry.number))) }
    {
        wants_later(request) && asked.is_here && !self.has(asked.number)
    }

    // Accepts the request of an originator where it is such a one.
    fn take_up(
        &mut self,
        alloc: Global,
        request: &Request,
        asked: Asked,
        moment: u64,
    ) -> Option<Result<Reply, OutOfMemory>>
        requires originator { IfSome asked.originator (λ o. IsTrue (is_originator o.now)) }
        requires moment { IsMoment moment }
        ensures { (home : HomeData) (who : List ℕ)
            → IsAskedAs home who self.old request.now asked.entry
            → GivesLater result self.old self.new
            (spec.acceptance_by home who self.old moment request.now) }
    {
        let originator = asked.originator?;
        if self.is_acceptable(request, asked) {
            Some(self.accept_if_room(alloc, originator, request, moment))
        } else {
            None
        }
    }

    // The one of a number goes, if it is to.
    fn remove_if(&mut self, goes: bool, number: u64)
        ensures { self.new ≡ (if goes then entries.without number self.old else self.old) }
    {
        if goes {
            self.remove(number);
        }
    }

    // A reply that was made stands; with it the one of a number goes, if it is to.
    fn settle(
        &mut self,
        reply: Result<Reply, OutOfMemory>,
        goes: bool,
        number: u64,
    ) -> Result<Reply, OutOfMemory>
        ensures reply { result ≡ reply }
        ensures ok { OnOk result (self.new
            ≡ (if goes then entries.without number self.old else self.old)) }
        ensures err { OnErr result (self.new ≡ self.old) }
    {
        match reply {
            Ok(reply) => {
                self.remove_if(goes, number);
                Ok(reply)
            }
            Err(starved) => Err(starved),
        }
    }

    // Answers a request to the accepted request of a number, where it is kept.
    fn answer_numbered(
        &mut self,
        alloc: Global,
        request: &Request,
        is_own: bool,
        number: u64,
    ) -> Option<Result<Reply, OutOfMemory>>
        ensures { GivesLater result self.old self.new
            (option_map (spec.entry_effect is_own self.old request.now)
            (entries.numbered number self.old)) }
    {
        let entry = self.numbered(number)?;
        let reply = entry_reply(alloc, is_own, request, entry);
        let kept = entry.number();
        Some(self.settle(reply, takes_away(is_own, request), kept))
    }

    // Answers a request to the accepted request that it names, where it names one that is kept.
    fn answer_named(
        &mut self,
        alloc: Global,
        request: &Request,
        asked: Asked,
    ) -> Option<Result<Reply, OutOfMemory>>
        ensures { (home : HomeData) (who : List ℕ)
            → IsAskedAs home who self.old request.now asked.entry
            → GivesLater result self.old self.new
            (spec.naming_by home who self.old request.now) }
    {
        let number = asked.number?;
        self.answer_numbered(alloc, request, asked.is_own, number)
    }

    /// What a request gets to which this status was replied; nothing where that reply stands.
    pub fn answer(
        &mut self,
        alloc: Global,
        request: &Request,
        asked: Asked,
        moment: u64,
        told: Rsc,
    ) -> Option<Result<Reply, OutOfMemory>>
        requires originator { IfSome asked.originator (λ o. IsTrue (is_originator o.now)) }
        requires moment { IsMoment moment }
        ensures { (home : HomeData) (who : List ℕ)
            → (IsTrue (spec.is_heard told)
            → IsAskedAs home who self.old request.now asked.entry)
            → GivesLater result self.old self.new
            (spec.later_effect_by home who self.old moment request.now told) }
    {
        if is_status(told, Rsc::NonBlocking) {
            self.take_up(alloc, request, asked, moment)
        } else if is_status(told, Rsc::NotFound) {
            self.answer_named(alloc, request, asked)
        } else {
            None
        }
    }
}

//! A request that is asked, and behind it those to members at other CSEs.
ghost use Rattle.std.specs.Prelude.{◌≡◌, IfOk, IfSome, IsUtf8};
ghost use Rattle.http_forwarding.specs.Carries.{link_told};
ghost use Rattle.primitive_json.specs.declared.request.RequestParts.{RequestParts};
ghost use Rattle.cse_machine.specs.declared.event.Outcome.{Outcome};
ghost use Rattle.group_fanout.specs.Fan as fan;
ghost use Rattle.desk_replies.specs.Answering.{Answers};
ghost use Rattle.remote_members.specs.Asking as spec;
ghost use Rattle.remote_members.specs.Asking.{AsksMembers, AsksOne, Completes, TellsMember};
ghost use Rattle.remote_members.specs.Asking.{TellsMembers, request_for, requests_for};
ghost use Rattle.remote_members.specs.Wide.{members_away, wide};

use crate::members::{gathered, remote_address, taken_entries, tells_of_away, told_anew};
use cse_machine::{Event, Outcome};
use desk_replies::reply_over;
use m2m_io::{Clock, Link};
use m2m_value::{Text, Val};
use primitive_json::{Reply, ReplyParts, Request, RequestParts};
use std::alloc::{AllocError as OutOfMemory, Global};
use tree_model::Home;
use turn_desk::Desk;

/// The segment of an address that stands for a fan-out.
const FAN_SEGMENT: &[u8] = b"fopt";

/// The reply to a request, and whether it is the entity's own: that of another CSE stays as it is.
#[derive(Drop)]
pub(crate) struct Answered {
    pub(crate) reply: Reply,
    pub(crate) is_own: bool,
}

/// What asks requests: at which desk, and for the CSE of which home.
pub(crate) struct Asker<'a, D> {
    pub(crate) alloc: Global,
    pub(crate) desk: &'a D,
    pub(crate) home: &'a Home,
}

impl<D> Drop for Asker<'_, D> {
    fn drop(self) {
        let Asker {
            alloc: _,
            desk: _,
            home: _,
        } = self;
    }
}

// Whether the outcome is a reply of the entity itself.
fn is_done(outcome: &Outcome) -> bool
    ensures { result ≡ spec.is_done outcome.now }
{
    matches!(outcome, Outcome::Done(_))
}

// Whether a request may be fanned out: only then members are asked behind it.
fn may_fan_out(request: &Request) -> bool {
    request
        .parts()
        .to
        .entries()
        .split(|byte| *byte == b'/')
        .any(|segment| segment == FAN_SEGMENT)
}

/// A copy of a request that may be fanned out, which its members are asked by.
fn kept_for_members(alloc: Global, request: &Request) -> Result<Option<Request>, OutOfMemory>
    ensures { IfOk result (λ kept. IfSome kept (λ r. r ≡ request.now)) }
{
    if may_fan_out(request) {
        Ok(Some(request.copy(alloc)?))
    } else {
        Ok(None)
    }
}

// The request, sent to this address instead.
fn sent_to(alloc: Global, request: &Request, address: Text) -> Result<Request, OutOfMemory>
    requires { IsUtf8 address }
    ensures { IfOk result (λ r. r ≡ fan.sent_to request.now address) }
{
    let parts = request.parts().copy(alloc)?;
    Ok(Request::of(RequestParts {
        to: address,
        ..parts
    }))
}

impl<D> Asker<'_, D>
where
    D: Desk<Event = Event, Outcome = Outcome>,
{
    /// Asks one request, which has this identifier, at a reading of the clock.
    #[inline(always)]
    fn ask_one<C: Clock, L: Link>(
        &self,
        seat: &mut D::Seat,
        clock: &mut C,
        link: &mut L,
        id: &[u8],
        request: Request,
    ) -> Result<Answered, OutOfMemory>
        requires seats { D.seats self.now.desk.now seat.old }
        requires id { request.rqi ≡ id.now }
        requires text { IsUtf8 id.now }
        ensures seats { D.seats self.now.desk.now seat.new }
        ensures asks { AsksOne D.grown seat.old seat.new (C.readings clock.old)
            (C.readings clock.new) (link_told (L.exchanges link.old) (L.faults link.old))
            (link_told (L.exchanges link.new) (L.faults link.new)) request result }
    {
        let reading = clock.now();
        let outcome = self.desk.ask(seat, reading, Event::Ask(request));
        let is_own = is_done(&outcome);
        let reply = reply_over(self.alloc, link, id, outcome)?;
        Ok(Answered { reply, is_own })
    }

    // What is told of a member, of which this was told: of one at another CSE what the request
    // gives there, which is asked for it.
    fn tell_member<C: Clock, L: Link>(
        &self,
        seat: &mut D::Seat,
        clock: &mut C,
        link: &mut L,
        request: &Request,
        entry: Val,
    ) -> Result<Val, OutOfMemory>
        requires { D.seats self.now.desk.now seat.old }
        ensures seats { D.seats self.now.desk.now seat.new }
        ensures asks { let home = self.now.home.now in
            AsksMembers D.grown seat.old seat.new (C.readings clock.old) (C.readings clock.new)
            (link_told (L.exchanges link.old) (L.faults link.old))
            (link_told (L.exchanges link.new) (L.faults link.new))
            (request_for home request.now entry) (TellsMember home entry) result }
    {
        let Some(address) = remote_address(self.alloc, self.home, &entry)? else {
            return Ok(entry);
        };
        let question = sent_to(self.alloc, request, address)?;
        let id = request.parts().rqi.entries();
        let answered = self.ask_one(seat, clock, link, id, question)?;
        told_anew(self.alloc, &entry, answered.reply)
    }

    // What is told of members, one after another.
    fn tell_members<C: Clock, L: Link>(
        &self,
        seat: &mut D::Seat,
        clock: &mut C,
        link: &mut L,
        request: &Request,
        entries: Vec<Val>,
    ) -> Result<Vec<Val>, OutOfMemory>
        requires { D.seats self.now.desk.now seat.old }
        ensures seats { D.seats self.now.desk.now seat.new }
        ensures asks { let home = self.now.home.now in
            AsksMembers D.grown seat.old seat.new (C.readings clock.old) (C.readings clock.new)
            (link_told (L.exchanges link.old) (L.faults link.old))
            (link_told (L.exchanges link.new) (L.faults link.new))
            (requests_for home request.now entries.items)
            (λ replies told. TellsMembers home entries.items replies told.items) result }
    {
        let mut told = Vec::with_capacity(self.alloc, entries.len())?;
        for entry in entries {
            let anew = self.tell_member(seat, clock, link, request, entry)?;
            told.push(anew)?;
        }
        Ok(told)
    }

    // The reply of the entity itself, once its members at other CSEs were asked by a copy of the
    // request, which is there where the request may be fanned out.
    fn complete<C: Clock, L: Link>(
        &self,
        seat: &mut D::Seat,
        clock: &mut C,
        link: &mut L,
        kept: Option<Request>,
        reply: Reply,
    ) -> Result<Reply, OutOfMemory>
        requires { D.seats self.now.desk.now seat.old }
        ensures seats { D.seats self.now.desk.now seat.new }
        ensures asks { let home = self.now.home.now in
            (request : RequestParts) → IfSome kept (λ r. r ≡ request)
            → AsksMembers D.grown seat.old seat.new (C.readings clock.old) (C.readings clock.new)
            (link_told (L.exchanges link.old) (L.faults link.old))
            (link_told (L.exchanges link.new) (L.faults link.new))
            (fan.requests_to request (members_away home reply)) (Completes home reply) result }
    {
        if !tells_of_away(self.alloc, self.home, &reply)? {
            return Ok(reply);
        }
        let Some(request) = kept else {
            return Err(OutOfMemory);
        };
        let ReplyParts { rsc, rqi, pc } = reply.into_parts();
        let Some(entries) = taken_entries(self.alloc, pc)? else {
            unreachable!()
        };
        let told = self.tell_members(seat, clock, link, &request, entries)?;
        let content = gathered(self.alloc, told)?;
        Ok(Reply::of(ReplyParts {
            rsc,
            rqi,
            pc: Some(content),
        }))
    }

    // Answers a request whose own reply tells of no member at another CSE. Where one does, it counts
    // as want of memory, since no copy of the request is there to ask it by.
    #[inline(always)]
    fn answer_alone<C: Clock, L: Link>(
        &self,
        seat: &mut D::Seat,
        clock: &mut C,
        link: &mut L,
        id: &[u8],
        request: Request,
    ) -> Result<Reply, OutOfMemory>
        requires seats { D.seats self.now.desk.now seat.old }
        requires id { request.rqi ≡ id.now }
        requires text { IsUtf8 id.now }
        ensures seats { D.seats self.now.desk.now seat.new }
        ensures answers { Answers (wide self.now.home.now) D.grown seat.old seat.new
            (C.readings clock.old) (C.readings clock.new)
            (link_told (L.exchanges link.old) (L.faults link.old))
            (link_told (L.exchanges link.new) (L.faults link.new)) request result }
    {
        let first = self.ask_one(seat, clock, link, id, request)?;
        if !first.is_own {
            return Ok(first.reply);
        }
        if tells_of_away(self.alloc, self.home, &first.reply)? {
            return Err(OutOfMemory);
        }
        Ok(first.reply)
    }

    // Answers a request that may be fanned out: asks it, and behind it one to each member at another
    // CSE that the entity's own reply tells of, in order, by a copy of it.
    #[inline(never)]
    fn answer_fan<C: Clock, L: Link>(
        &self,
        seat: &mut D::Seat,
        clock: &mut C,
        link: &mut L,
        id: &[u8],
        request: Request,
    ) -> Result<Reply, OutOfMemory>
        requires seats { D.seats self.now.desk.now seat.old }
        requires id { request.rqi ≡ id.now }
        requires text { IsUtf8 id.now }
        ensures seats { D.seats self.now.desk.now seat.new }
        ensures answers { Answers (wide self.now.home.now) D.grown seat.old seat.new
            (C.readings clock.old) (C.readings clock.new)
            (link_told (L.exchanges link.old) (L.faults link.old))
            (link_told (L.exchanges link.new) (L.faults link.new)) request result }
    {
        let kept = kept_for_members(self.alloc, &request)?;
        let first = self.ask_one(seat, clock, link, id, request)?;
        if !first.is_own {
            return Ok(first.reply);
        }
        self.complete(seat, clock, link, kept, first.reply)
    }

    /// Answers the request that has this identifier: asks it, and behind it one to each member at
    /// another CSE that the entity's own reply tells of, in order.
    #[inline(always)]
    pub(crate) fn answer<C: Clock, L: Link>(
        &self,
        seat: &mut D::Seat,
        clock: &mut C,
        link: &mut L,
        id: &[u8],
        request: Request,
    ) -> Result<Reply, OutOfMemory>
        requires seats { D.seats self.now.desk.now seat.old }
        requires id { request.rqi ≡ id.now }
        requires text { IsUtf8 id.now }
        ensures seats { D.seats self.now.desk.now seat.new }
        ensures answers { Answers (wide self.now.home.now) D.grown seat.old seat.new
            (C.readings clock.old) (C.readings clock.new)
            (link_told (L.exchanges link.old) (L.faults link.old))
            (link_told (L.exchanges link.new) (L.faults link.new)) request result }
    {
        if may_fan_out(&request) {
            self.answer_fan(seat, clock, link, id, request)
        } else {
            self.answer_alone(seat, clock, link, id, request)
        }
    }
}

//! What answers a request by what a desk answers.
ghost use Rattle.std.specs.Prelude.{◌≡◌, IsUtf8};
ghost use Rattle.http_forwarding.specs.Carries.{link_told};
ghost use Rattle.desk_replies.specs.Answering.{Answers};
ghost use Rattle.desk_replies.specs.Rule.{ReplyRule};

use crate::replying::reply_over;
use cse_machine::{Event, Outcome};
use m2m_io::{Clock, Link};
use primitive_json::{Reply, Request};
use std::alloc::{AllocError as OutOfMemory, Global};
use turn_desk::Desk;

/// What answers requests that it puts to a desk.
pub trait Replier {
    /// What it asks for one request, and how it answers by that.
    ghost rule: { Self → ReplyRule };

    /// Answers the request that has this identifier: asks it at the desk, at a reading of the
    /// clock, and behind it what the rule says. The link is for what goes on to another CSE. Where
    /// memory runs out, a front of that was asked, or nothing.
    fn reply<D, C, L>(
        &self,
        alloc: Global,
        desk: &D,
        seat: &mut D::Seat,
        clock: &mut C,
        link: &mut L,
        id: &[u8],
        request: Request,
    ) -> Result<Reply, OutOfMemory>
    where
        D: Desk<Event = Event, Outcome = Outcome>,
        C: Clock,
        L: Link,
        requires seats { D.seats desk.now seat.old }
        requires id { request.rqi ≡ id.now }
        requires text { IsUtf8 id.now }
        ensures seats { D.seats desk.now seat.new }
        ensures answers { Answers (rule self.now) D.grown seat.old seat.new
            (C.readings clock.old) (C.readings clock.new)
            (link_told (L.exchanges link.old) (L.faults link.old))
            (link_told (L.exchanges link.new) (L.faults link.new)) request result };
}

/// Asks the request alone: its outcome gives the reply.
#[derive(Clone, Copy, Debug, PartialEq, Eq)]
pub struct Plainly;

impl Replier for Plainly {
    ghost use Rattle.desk_replies.specs.Rule.{plainly};

    ghost rule = { λ _. plainly };

    fn reply<D, C, L>(
        &self,
        alloc: Global,
        desk: &D,
        seat: &mut D::Seat,
        clock: &mut C,
        link: &mut L,
        id: &[u8],
        request: Request,
    ) -> Result<Reply, OutOfMemory>
    where
        D: Desk<Event = Event, Outcome = Outcome>,
        C: Clock,
        L: Link,
    {
        let reading = clock.now();
        let outcome = desk.ask(seat, reading, Event::Ask(request));
        reply_over(alloc, link, id, outcome)
    }
}

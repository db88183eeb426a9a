//! What answers requests also for members at other CSEs.
ghost use Rattle.std.specs.Prelude.{◌≡◌};

use crate::asking::Asker;
use cse_machine::{Event, Outcome};
use desk_replies::Replier;
use m2m_io::{Clock, Link};
use primitive_json::{Reply, Request};
use std::alloc::{AllocError as OutOfMemory, Global};
use tree_model::Home;
use turn_desk::Desk;

/// Answers requests for the CSE of a home, also for members of groups at other CSEs.
#[derive(Clone, Copy)]
pub struct Wide<'a> {
    pub home: &'a Home,
}

impl Replier for Wide<'_> {
    ghost use Rattle.remote_members.specs.Wide.{wide};

    ghost rule = { λ replier. wide replier.home.now };

    fn reply<D, C, L>(
        &self,
        alloc: Global,
        desk: &D,
        seat: &mut D::Seat,
        clock: &mut C,
        link: &mut L,
        id: &[u8],
        request: Request,
    ) -> Result<Reply, OutOfMemory>
    where
        D: Desk<Event = Event, Outcome = Outcome>,
        C: Clock,
        L: Link,
    {
        let asker = Asker {
            alloc,
            desk,
            home: self.home,
        };
        asker.answer(seat, clock, link, id, request)
    }
}

/// Answers as `Wide` does, for the CSE of a home of its own.
#[derive(Drop)]
pub struct Widely {
    pub home: Home,
}

impl Widely {
    /// What answers for the CSE of this home. Takes no memory.
    pub fn new(home: Home) -> Widely
        ensures { result.home ≡ home }
    {
        Widely { home }
    }
}

impl Replier for Widely {
    ghost use Rattle.remote_members.specs.Wide.{wide};

    ghost rule = { λ replier. wide replier.home };

    fn reply<D, C, L>(
        &self,
        alloc: Global,
        desk: &D,
        seat: &mut D::Seat,
        clock: &mut C,
        link: &mut L,
        id: &[u8],
        request: Request,
    ) -> Result<Reply, OutOfMemory>
    where
        D: Desk<Event = Event, Outcome = Outcome>,
        C: Clock,
        L: Link,
    {
        let wide = Wide { home: &self.home };
        wide.reply(alloc, desk, seat, clock, link, id, request)
    }
}

//! One request, and one connection, answered also for members at other CSEs.
ghost use Rattle.std.specs.Prelude.{◌≡◌};
ghost use Rattle.cse_server.specs.Connection.{Serves};
ghost use Rattle.cse_server.specs.Outside.{EndsByFault, link_told, outside, sink_told};
ghost use Rattle.desk_replies.specs.Answering.{Answers};
ghost use Rattle.remote_members.specs.Wide.{wide};

use crate::asking::Asker;
use crate::replier::{Wide, Widely};
use cse_machine::{Event, Outcome};
use cse_server::{Answerer, Attended, Ended, HttpBinding};
use desk_replies::Binding;
use m2m_io::{Clock, Connection, Link};
use primitive_json::{Reply, Request};
use service_observer::ReplyObserver;
use std::alloc::{AllocError as OutOfMemory, Global};
use tree_model::Home;
use turn_desk::Desk;

/// The one HTTP service: attends to connections as `serve_wide` does, for the CSE of a home of its
/// own.
#[derive(Drop)]
pub struct WideService {
    pub http: HttpBinding<Widely>,
}

impl WideService {
    /// The service for the CSE of this home. Takes no memory.
    pub fn new(home: Home) -> WideService
        ensures { result.http.replier.home ≡ home }
    {
        WideService {
            http: HttpBinding {
                replier: Widely::new(home),
            },
        }
    }
}

impl<X: Connection + ReplyObserver + Drop> Binding<X, Attended<X>> for WideService {
    ghost use Rattle.cse_server.specs.Attending.{TalksHttp, conn_tells};
    ghost use Rattle.remote_members.specs.Wide.{wide};

    ghost talks = { λ service. TalksHttp (wide service.http.replier.home)
        (conn_tells X.left X.written X.puts X.Source.faults X.Sink.faults) };

    fn attend<D, C, L>(
        &self,
        alloc: Global,
        desk: &D,
        seat: &mut D::Seat,
        conn: X,
        clock: &mut C,
        link: &mut L,
    ) -> Attended<X>
    where
        D: Desk<Event = Event, Outcome = Outcome>,
        C: Clock,
        L: Link,
    {
        self.http.attend(alloc, desk, seat, conn, clock, link)
    }
}

/// Answers one request at a desk, for the CSE of a home: asks it, and behind it one to each member at
/// another CSE that the entity's own reply tells of, in order, each at a reading of its own. Where
/// memory runs out in the event of a request, its reply says so; elsewhere a front of these was
/// asked, or nothing.
pub fn answer_wide<D, C, L>(
    alloc: Global,
    desk: &D,
    seat: &mut D::Seat,
    clock: &mut C,
    link: &mut L,
    home: &Home,
    request: Request,
) -> Result<Reply, OutOfMemory>
where
    D: Desk<Event = Event, Outcome = Outcome>,
    C: Clock,
    L: Link,
    requires { D.seats desk.now seat.old }
    ensures seats { D.seats desk.now seat.new }
    ensures answers { Answers (wide home.now) D.grown seat.old seat.new
        (C.readings clock.old) (C.readings clock.new)
        (link_told (L.exchanges link.old) (L.faults link.old))
        (link_told (L.exchanges link.new) (L.faults link.new)) request result }
{
    let id = request.parts().rqi.copy(alloc)?;
    let asker = Asker { alloc, desk, home };
    asker.answer(seat, clock, link, id.entries(), request)
}

/// Serves one connection to its end, as `serve_connection` does, for the CSE of a home: also members
/// at other CSEs are asked.
pub fn serve_wide<D, X, C, L>(
    alloc: Global,
    desk: &D,
    seat: &mut D::Seat,
    conn: &mut X,
    clock: &mut C,
    link: &mut L,
    home: &Home,
) -> Ended
where
    D: Desk<Event = Event, Outcome = Outcome>,
    X: Connection + ReplyObserver,
    C: Clock,
    L: Link,
    requires { D.seats desk.now seat.old }
    ensures seats { D.seats desk.now seat.new }
    ensures serves { let old = outside (X.left conn.old)
        (sink_told (X.written conn.old) (X.puts conn.old)) (C.readings clock.old)
        (link_told (L.exchanges link.old) (L.faults link.old)) in
        let new = outside (X.left conn.new)
        (sink_told (X.written conn.new) (X.puts conn.new)) (C.readings clock.new)
        (link_told (L.exchanges link.new) (L.faults link.new)) in
        Serves (wide home.now) D.grown seat.old seat.new old new result }

    // A fault is answered where the connection failed in this call, and only there.
    ensures reads { EndsByFault Ended.ReadFault result
        (X.Source.faults conn.old) (X.Source.faults conn.new) }
    ensures writes { EndsByFault Ended.WriteFault result
        (X.Sink.faults conn.old) (X.Sink.faults conn.new) }

    // A connection that borrows its sides still holds these.
    ensures holds { (X.kept_by_read conn.new).holds ≡ (X.kept_by_read conn.old).holds }
{
    let wide = Wide { home };
    let answerer = Answerer {
        alloc,
        desk,
        replier: &wide,
    };
    answerer.serve(seat, conn, clock, link)
}

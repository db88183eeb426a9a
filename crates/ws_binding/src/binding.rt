//! WebSocket as a binding.
ghost use Rattle.cse_server.specs.Outside.{link_told};
ghost use Rattle.ws_binding.specs.Binding.{ServesSilently};

use crate::socket::WsTalker;
use crate::talk::{TalkEnded, serve_talk};
use cse_machine::{Event, Outcome};
use desk_replies::{Binding, Replier};
use m2m_io::{Clock, Connection, Link};
use service_observer::ReplyObserver;
use std::alloc::Global;
use turn_desk::Desk;

/// A connection that was attended to, and how its talk ended. Attending alone makes one.
#[derive(Drop)]
pub struct Talked<X> {
    conn: X,
    ended: TalkEnded,
}

/// Attends to a connection as a WebSocket: its messages are answered by what the replier makes of
/// what the desk answers their requests.
#[derive(Drop)]
pub struct WsBinding<W> {
    pub replier: W,
}

/// Serves the talk of a connection, and closes it.
fn serve_over<D, X, C, L, W>(
    alloc: Global,
    desk: &D,
    seat: &mut D::Seat,
    conn: &mut X,
    clock: &mut C,
    link: &mut L,
    replier: &W,
) -> TalkEnded
where
    D: Desk<Event = Event, Outcome = Outcome>,
    X: Connection + ReplyObserver,
    C: Clock,
    L: Link,
    W: Replier,
    requires { D.seats desk.now seat.old }
    ensures seats { D.seats desk.now seat.new }
    ensures serves { ServesSilently (W.rule replier.now) D.grown seat.old seat.new
        (C.readings clock.old) (C.readings clock.new)
        (link_told (L.exchanges link.old) (L.faults link.old))
        (link_told (L.exchanges link.new) (L.faults link.new)) result }
{
    let mut talker = WsTalker::new(alloc, &mut *conn);
    let ended = serve_talk(alloc, desk, seat, &mut talker, clock, link, replier);
    let _closed = talker.close(ended);
    ended
}

impl<X: Connection + ReplyObserver + Drop, W: Replier> Binding<X, Talked<X>> for WsBinding<W> {
    ghost use Rattle.ws_binding.specs.Binding.{TalksWs};

    ghost talks = { λ binding. TalksWs (W.rule binding.replier) };

    fn attend<D, C, L>(
        &self,
        alloc: Global,
        desk: &D,
        seat: &mut D::Seat,
        mut conn: X,
        clock: &mut C,
        link: &mut L,
    ) -> Talked<X>
    where
        D: Desk<Event = Event, Outcome = Outcome>,
        C: Clock,
        L: Link,
    {
        let ended = serve_over(alloc, desk, seat, &mut conn, clock, link, &self.replier);
        Talked { conn, ended }
    }
}

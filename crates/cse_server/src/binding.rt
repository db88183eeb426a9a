//! HTTP as a binding.
use crate::{Answerer, Ended};
use cse_machine::{Event, Outcome};
use desk_replies::{Binding, Replier};
use m2m_io::{Clock, Connection, Link};
use service_observer::ReplyObserver;
use std::alloc::Global;
use turn_desk::Desk;

/// A connection that was attended to, and how it ended. Attending alone makes one.
#[derive(Drop)]
pub struct Attended<X> {
    conn: X,
    ended: Ended,
}

/// Attends to a connection as HTTP: its frames are answered by what the replier makes of what the
/// desk answers their requests.
#[derive(Drop)]
pub struct HttpBinding<W> {
    pub replier: W,
}

impl<X: Connection + ReplyObserver + Drop, W: Replier> Binding<X, Attended<X>> for HttpBinding<W> {
    ghost use Rattle.cse_server.specs.Attending.{TalksHttp, conn_tells};

    ghost talks = { λ binding. TalksHttp (W.rule binding.replier)
        (conn_tells X.left X.written X.puts X.Source.faults X.Sink.faults) };

    fn attend<D, C, L>(
        &self,
        alloc: Global,
        desk: &D,
        seat: &mut D::Seat,
        mut conn: X,
        clock: &mut C,
        link: &mut L,
    ) -> Attended<X>
    where
        D: Desk<Event = Event, Outcome = Outcome>,
        C: Clock,
        L: Link,
    {
        let answerer = Answerer {
            alloc,
            desk,
            replier: &self.replier,
        };
        let ended = answerer.serve(seat, &mut conn, clock, link);
        Attended { conn, ended }
    }
}

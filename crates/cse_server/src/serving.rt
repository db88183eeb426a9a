//! A server: many connections, answered out of one object that all share (TS-0009, 6).
ghost use Rattle.std.specs.Prelude.{◌≤◌, vec_len};
ghost use Rattle.cse_server.specs.Attending.{Attends, AttendsBy, SeatGrows, SendsFrom, conn_tells};
ghost use Rattle.cse_server.specs.Attending.{link_tells};
ghost use Rattle.turn_desk.specs.Seats.{IsSeated};
ghost use Rattle.workers.specs.Gate.{door_tells};
ghost use Rattle.workers.specs.Serving.{EndsServing};

use crate::{Attended, Bench, HttpBinding, send_notes};
use change_signal::{ChangeSignal, SignallingDesk, Watch};
use cse_machine::{Event, Outcome};
use desk_replies::{Binding, Plainly};
use m2m_io::{Clock, Door, Link};
use primitive_json::retrieves;
use service_observer::{ItemObserver, ReplyObserver};
use std::alloc::Global;
use std::sync::Wait;
use std::thread::Threads;
use turn_desk::{Desk, DeskSeat, Object, TurnDesk};
use workers::{Errand, ServeFault, Service, serve_with};

/// Requests may change what is asked, all but a Retrieve that is answered at once: one that is to be
/// answered later is run by what is asked behind it.
#[derive(Drop)]
pub struct OfRequests;

impl Watch<Event> for OfRequests {
    fn may_change(&self, event: &Event) -> bool {
        match event {
            Event::Ask(request) => {
                let parts = request.parts();
                !retrieves(parts.op) || matches!(parts.rt, Some(1))
            }
            Event::Take | Event::Tick => false,
        }
    }
}

/// Attends to connections by a binding. Each request that may change something gives the signal.
struct Attendant<'a, P> {
    alloc: Global,
    binding: &'a P,
    signal: &'a ChangeSignal,
}

impl<P> Drop for Attendant<'_, P> {
    fn drop(self) {
        let Attendant {
            alloc: _,
            binding: _,
            signal: _,
        } = self;
    }
}

impl<K, X, C, L, A, P> Service<K, X, Bench<C, L>, A> for Attendant<'_, P>
where
    K: Desk<Event = Event, Outcome = Outcome>,
    C: Clock,
    L: Link,
    P: Binding<X, A>,
{
    ghost use Rattle.cse_server.specs.Attending.{AttendsBy, link_tells};

    ghost attends = { λ service. AttendsBy K.grown (P.talks service.binding.now) C.readings
        (link_tells L.exchanges L.faults) };

    fn attend(&self, desk: &K, seat: &mut K::Seat, conn: X, bench: &mut Bench<C, L>) -> A {
        let Bench { clock, link } = bench;
        let asked = SignallingDesk::new(desk, self.signal, OfRequests);
        self.binding
            .attend(self.alloc, &asked, seat, conn, clock, link)
    }
}

/// Sends what waits in the outbox, when the signal is given.
#[derive(Drop)]
struct Sender<'a> {
    alloc: Global,
    signal: &'a ChangeSignal,
}

impl<K, C, L> Errand<K, Bench<C, L>> for Sender<'_>
where
    K: Desk<Event = Event, Outcome = Outcome>,
    C: Clock,
    L: Link + ItemObserver,
{
    ghost use Rattle.cse_server.specs.Attending.{SendsFrom, link_tells};

    ghost does = { SendsFrom K.grown C.readings (link_tells L.exchanges L.faults) };

    fn signal(&self) -> &ChangeSignal {
        self.signal
    }

    // Where memory runs out in sending an item, that item is let go, and what stands behind it in
    // the outbox waits for the next round. Where it runs out in taking one, that one waits as well.
    fn run(&self, desk: &K, seat: &mut K::Seat, bench: &mut Bench<C, L>) {
        let Bench { clock, link } = bench;
        let _ = send_notes(self.alloc, desk, seat, clock, link);
    }
}

/// Serves the connections of a door until it gives no more: it gave None, failed, or gave as many
/// as `accept` says. Each bench but the last is a worker's, with a seat of its own that is split
/// off this one; it takes a connection under the door's lock, which it holds for that alone,
/// attends to it by the binding, and takes the next. The last bench is the sender's, which calls
/// `send_notes` beside the workers, at a seat of its own, with a tenth of a second at most between
/// two calls: it is called within 0.2 milliseconds where a request but a Retrieve was answered. It
/// ends when no worker is left. No worker waits for it, and nothing is sent within a question.
/// All seats are joined into the one that comes back, with the door, and `send_notes` is called
/// once more there, with `first`. What a connection or a call of `send_notes` ended with doesn't
/// change the answer.
pub fn serve_by<R, O, D, C, L, A, P>(
    rt: &R,
    alloc: Global,
    desk: &TurnDesk<O, R>,
    seat: DeskSeat<O>,
    door: D,
    accept: Option<u64>,
    first: &mut Bench<C, L>,
    benches: Vec<Bench<C, L>>,
    binding: &P,
) -> Result<(DeskSeat<O>, D), (DeskSeat<O>, D, ServeFault)>
where
    R: Wait + Threads + Sync,
    O: Object<Event = Event, Outcome = Outcome> + Send,
    D: Door + Send,
    C: Clock + Send + Drop,
    L: Link + ItemObserver + Send + Drop,
    A: Drop + Send,
    P: Binding<D::Conn, A> + Sync,
    requires benches { 2 ≤ vec_len benches }
    requires seat { IsSeated O.step desk.now.table.shared.table_id seat }

    // Seat and door come back, with the fault where one ended it, as from workers. What the seat
    // has gained is what attending to connections gave, each by the binding; and what calls of
    // `send_notes` gave: those at the last bench, and last one with `first`, which stays as it is
    // where memory ran out before.
    ensures ends { let attends = AttendsBy SeatGrows (P.talks binding.now) C.readings
        (link_tells L.exchanges L.faults) in
        let sends = SendsFrom SeatGrows C.readings (link_tells L.exchanges L.faults) in
        EndsServing O.step desk.now.table.shared.table_id
        (door_tells D.opened D.given D.ended D.faults) attends sends accept benches.items
        first.old first.new seat door result }
{
    let signal = ChangeSignal::new();
    let attendant = Attendant {
        alloc,
        binding,
        signal: &signal,
    };
    let sender = Sender {
        alloc,
        signal: &signal,
    };
    serve_with::<R, O, D, Bench<C, L>, A, Attendant<'_, P>, Sender<'_>>(
        rt, alloc, desk, seat, door, accept, first, benches, &attendant, &sender,
    )
}

/// Serves the connections of a door as HTTP, as `serve_by` does: each request is asked alone, and
/// its outcome gives the reply.
pub fn serve<R, O, D, C, L>(
    rt: &R,
    alloc: Global,
    desk: &TurnDesk<O, R>,
    seat: DeskSeat<O>,
    door: D,
    accept: Option<u64>,
    first: &mut Bench<C, L>,
    benches: Vec<Bench<C, L>>,
) -> Result<(DeskSeat<O>, D), (DeskSeat<O>, D, ServeFault)>
where
    R: Wait + Threads + Sync,
    O: Object<Event = Event, Outcome = Outcome> + Send,
    D: Door + Send,
    D::Conn: ReplyObserver,
    C: Clock + Send + Drop,
    L: Link + ItemObserver + Send + Drop,
    requires benches { 2 ≤ vec_len benches }
    requires seat { IsSeated O.step desk.now.table.shared.table_id seat }

    // As of `serve_by`: each connection was answered with exactly the replies that the object of
    // the desk gives the requests of its bytes, one after another, as far as it ended so.
    ensures ends { let attends = Attends SeatGrows
        (conn_tells D.Conn.left D.Conn.written D.Conn.puts D.Conn.Source.faults
        D.Conn.Sink.faults) C.readings (link_tells L.exchanges L.faults) in
        let sends = SendsFrom SeatGrows C.readings (link_tells L.exchanges L.faults) in
        EndsServing O.step desk.now.table.shared.table_id
        (door_tells D.opened D.given D.ended D.faults) attends sends accept benches.items
        first.old first.new seat door result }
{
    let binding = HttpBinding { replier: Plainly };
    serve_by::<R, O, D, C, L, Attended<D::Conn>, HttpBinding<Plainly>>(
        rt, alloc, desk, seat, door, accept, first, benches, &binding,
    )
}

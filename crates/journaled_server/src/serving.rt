//! A server of a kept object: many connections, answered out of one that all share.
ghost use Rattle.std.specs.Prelude.{◌≤◌, vec_len};
ghost use Rattle.cse_server.specs.Attending.{link_tells};
ghost use Rattle.journaled_server.specs.Serving.{AttendsKeptBy, SendsKept, TurnsGrow};
ghost use Rattle.turn_desk.specs.Seats.{IsSeated};
ghost use Rattle.workers.specs.Gate.{door_tells};
ghost use Rattle.workers.specs.Serving.{EndsServing};

use crate::{LossSignal, PlainDesk, send_kept};
use change_signal::{ChangeSignal, SignallingDesk, Watch};
use cse_server::{Bench, OfRequests};
use desk_replies::Binding;
use gathering_desk::{Gathering, GatheringDesk};
use journal_events::{Came, KeptEvent};
use kept_desk::{KeptDesk, Report, Turn};
use m2m_io::{Clock, Door, Link};
use service_observer::ItemObserver;
use std::alloc::Global;
use std::sync::Wait;
use std::thread::Threads;
use turn_desk::{Desk, DeskSeat, Object, TurnDesk};
use workers::{Errand, ServeFault, Service, serve_with};

/// Requests may change what is asked, as `OfRequests` says, and who sends waits for nobody.
#[derive(Drop)]
struct OfKeptRequests;

impl Watch<KeptEvent> for OfKeptRequests {
    fn may_change(&self, event: &KeptEvent) -> bool {
        match event {
            KeptEvent::OfMachine(event) => OfRequests.may_change(event),
            KeptEvent::Next | KeptEvent::Sent(_) => false,
        }
    }
}

/// Attends to connections by a binding, at a desk that gives no answer before it is kept.
struct KeptAttendant<'a, R, P> {
    rt: &'a R,
    alloc: Global,
    binding: &'a P,
    changes: &'a ChangeSignal,
    losses: &'a LossSignal,
    gathering: &'a Gathering,
}

impl<R, P> Drop for KeptAttendant<'_, R, P> {
    fn drop(self) {
        let KeptAttendant {
            rt: _,
            alloc: _,
            binding: _,
            changes: _,
            losses: _,
            gathering: _,
        } = self;
    }
}

impl<R, K, X, C, L, A, P> Service<K, X, Bench<C, L>, A> for KeptAttendant<'_, R, P>
where
    R: Wait,
    K: Desk<Event = Turn<KeptEvent>, Outcome = Report<Came>>,
    C: Clock,
    L: Link,
    P: Binding<X, A>,
{
    ghost use Rattle.cse_server.specs.Attending.{link_tells};
    ghost use Rattle.journaled_server.specs.Serving.{AttendsKeptBy};

    ghost attends = { λ service. AttendsKeptBy K.grown (P.talks service.binding.now) C.readings
        (link_tells L.exchanges L.faults) };

    fn attend(&self, desk: &K, seat: &mut K::Seat, conn: X, bench: &mut Bench<C, L>) -> A {
        let Bench { clock, link } = bench;
        let gathered = GatheringDesk::new(desk, self.gathering, self.rt, OfKeptRequests);
        let kept = KeptDesk::new(&gathered);
        let plain = PlainDesk::new(&kept, self.losses);
        let asked = SignallingDesk::new(&plain, self.changes, OfRequests);
        self.binding
            .attend(self.alloc, &asked, seat, conn, clock, link)
    }
}

/// Sends what waits in the outbox, when the signal is given. Each item is taken once it was sent.
struct KeptSender<'a, R> {
    rt: &'a R,
    alloc: Global,
    changes: &'a ChangeSignal,
    losses: &'a LossSignal,
    gathering: &'a Gathering,
}

impl<R> Drop for KeptSender<'_, R> {
    fn drop(self) {
        let KeptSender {
            rt: _,
            alloc: _,
            changes: _,
            losses: _,
            gathering: _,
        } = self;
    }
}

impl<R, K, C, L> Errand<K, Bench<C, L>> for KeptSender<'_, R>
where
    R: Wait,
    K: Desk<Event = Turn<KeptEvent>, Outcome = Report<Came>>,
    C: Clock,
    L: Link + ItemObserver,
{
    ghost use Rattle.cse_server.specs.Attending.{link_tells};
    ghost use Rattle.journaled_server.specs.Serving.{SendsKept};

    ghost does = { SendsKept K.grown C.readings (link_tells L.exchanges L.faults) };

    fn signal(&self) -> &ChangeSignal {
        self.changes
    }

    // Where memory runs out in sending an item, that item is let go, and what stands behind it in
    // the outbox waits for the next round. Where it runs out for a question, all that are there
    // wait.
    fn run(&self, desk: &K, seat: &mut K::Seat, bench: &mut Bench<C, L>) {
        let Bench { clock, link } = bench;
        let gathered = GatheringDesk::new(desk, self.gathering, self.rt, OfKeptRequests);
        let kept = KeptDesk::new(&gathered);
        let _ = send_kept(self.alloc, &kept, self.losses, seat, clock, link);
    }
}

/// Serves the connections of a door at a desk of a kept object, as `serve_by` of the crate
/// cse_server does at one of the machine's: no answer is given before what it tells is kept. Where
/// an answer is lost, the signal is raised.
pub fn serve_journaled<R, O, D, C, L, A, P>(
    rt: &R,
    alloc: Global,
    desk: &TurnDesk<O, R>,
    seat: DeskSeat<O>,
    door: D,
    accept: Option<u64>,
    losses: &LossSignal,
    first: &mut Bench<C, L>,
    benches: Vec<Bench<C, L>>,
    binding: &P,
) -> Result<(DeskSeat<O>, D), (DeskSeat<O>, D, ServeFault)>
where
    R: Wait + Threads + Sync,
    O: Object<Event = Turn<KeptEvent>, Outcome = Report<Came>> + Send,
    D: Door + Send,
    C: Clock + Send + Drop,
    L: Link + ItemObserver + Send + Drop,
    A: Drop + Send,
    P: Binding<D::Conn, A> + Sync,
    requires benches { 2 ≤ vec_len benches }
    requires seat { IsSeated O.step desk.now.table.shared.table_id seat }

    // As of `serve_by`, with the turns of a kept object as entries: each connection was attended to
    // by the answers which the desk may give.
    ensures ends { let attends = AttendsKeptBy TurnsGrow (P.talks binding.now) C.readings
        (link_tells L.exchanges L.faults) in
        let sends = SendsKept TurnsGrow C.readings (link_tells L.exchanges L.faults) in
        EndsServing O.step desk.now.table.shared.table_id
        (door_tells D.opened D.given D.ended D.faults) attends sends accept benches.items
        first.old first.new seat door result }
{
    let changes = ChangeSignal::new();
    let gathering = Gathering::new();
    let attendant = KeptAttendant {
        rt,
        alloc,
        binding,
        changes: &changes,
        losses,
        gathering: &gathering,
    };
    let sender = KeptSender {
        rt,
        alloc,
        changes: &changes,
        losses,
        gathering: &gathering,
    };
    serve_with::<R, O, D, Bench<C, L>, A, KeptAttendant<'_, R, P>, KeptSender<'_, R>>(
        rt, alloc, desk, seat, door, accept, first, benches, &attendant, &sender,
    )
}

//! One connection and one outbox of an object that is kept, where nobody else asks it.
ghost use Rattle.std.specs.Prelude.{◌≡◌};
ghost use Rattle.turn_desk.specs.Growth.{IsOwnRun};
ghost use Rattle.kept_desk.specs.Kept.{KeptGrown};
ghost use Rattle.cse_server.specs.Connection.{Serves};
ghost use Rattle.cse_server.specs.Outside.{link_told, outside, sink_told};
ghost use Rattle.journaled_server.specs.Sending.{SendsThenTakes, sender};
ghost use Rattle.journaled_server.specs.Serving.{AnswersGrown};

use crate::{LossSignal, PlainDesk, send_kept};
use cse_server::{Answerer, Ended};
use desk_replies::Replier;
use journal_events::{Came, KeptEvent};
use kept_desk::{KeptDesk, Report, Turn};
use m2m_io::{Clock, Connection, Link};
use service_observer::{ItemObserver, ReplyObserver};
use std::alloc::{AllocError as OutOfMemory, Global};
use turn_desk::{Object, OwnDesk, OwnSeat};

/// Serves one connection, as `serve_alone` of the crate cse_server does, at a seat that holds
/// an object which is kept, by what the replier makes of the answers.
pub fn serve_kept_alone<O, X, C, L, W>(
    alloc: Global,
    seat: &mut OwnSeat<O>,
    conn: &mut X,
    clock: &mut C,
    link: &mut L,
    replier: &W,
) -> Ended
where
    O: Object<Event = Turn<KeptEvent>, Outcome = Report<Came>>,
    X: Connection + ReplyObserver,
    C: Clock,
    L: Link,
    W: Replier,
    ensures serves { let old = outside (X.left conn.old)
        (sink_told (X.written conn.old) (X.puts conn.old)) (C.readings clock.old)
        (link_told (L.exchanges link.old) (L.faults link.old)) in
        let new = outside (X.left conn.new)
        (sink_told (X.written conn.new) (X.puts conn.new)) (C.readings clock.new)
        (link_told (L.exchanges link.new) (L.faults link.new)) in
        Serves (W.rule replier.now) (AnswersGrown (IsOwnRun O.step)) seat.old seat.new old new
        result }
    ensures holds { (X.kept_by_read conn.new).holds ≡ (X.kept_by_read conn.old).holds }
{
    let losses = LossSignal::new();
    let desk = OwnDesk::new();
    let kept = KeptDesk::new(&desk);
    let plain = PlainDesk::new(&kept, &losses);
    let answerer = Answerer {
        alloc,
        desk: &plain,
        replier,
    };
    answerer.serve(seat, conn, clock, link)
}

/// Sends the items of the outbox of an object that is kept, as `send_kept` does, at a seat that
/// holds it.
pub fn send_kept_alone<O, C, L>(
    alloc: Global,
    seat: &mut OwnSeat<O>,
    clock: &mut C,
    link: &mut L,
) -> Result<u64, OutOfMemory>
where
    O: Object<Event = Turn<KeptEvent>, Outcome = Report<Came>>,
    C: Clock,
    L: Link + ItemObserver,
    ensures { SendsThenTakes (KeptGrown (IsOwnRun O.step))
        (sender seat.old (C.readings clock.old)
        (link_told (L.exchanges link.old) (L.faults link.old)))
        (sender seat.new (C.readings clock.new)
        (link_told (L.exchanges link.new) (L.faults link.new))) result }
{
    let losses = LossSignal::new();
    let desk = OwnDesk::new();
    let kept = KeptDesk::new(&desk);
    send_kept(alloc, &kept, &losses, seat, clock, link)
}

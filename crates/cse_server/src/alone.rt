//! One connection and one outbox, where nobody else asks the object.
ghost use Rattle.std.specs.Prelude.{◌≡◌};
ghost use Rattle.turn_desk.specs.Growth.{IsOwnRun};
ghost use Rattle.cse_server.specs.Connection.{Serves};
ghost use Rattle.cse_server.specs.Outside.{EndsByFault, link_told, outside, sink_told};
ghost use Rattle.cse_server.specs.Sending.{SendsItems};

use crate::{Answerer, Ended, send_notes};
use cse_machine::{Event, Outcome};
use desk_replies::Replier;
use m2m_io::{Clock, Connection, Link};
use service_observer::{ItemObserver, ReplyObserver};
use std::alloc::{AllocError as OutOfMemory, Global};
use turn_desk::{Object, OwnDesk, OwnSeat};

/// Serves one connection, as `serve_connection` does, at a seat that holds its object, by what the
/// replier makes of the answers.
pub fn serve_alone<O, X, C, L, W>(
    alloc: Global,
    seat: &mut OwnSeat<O>,
    conn: &mut X,
    clock: &mut C,
    link: &mut L,
    replier: &W,
) -> Ended
where
    O: Object<Event = Event, Outcome = Outcome>,
    X: Connection + ReplyObserver,
    C: Clock,
    L: Link,
    W: Replier,
    ensures serves { let old = outside (X.left conn.old)
        (sink_told (X.written conn.old) (X.puts conn.old)) (C.readings clock.old)
        (link_told (L.exchanges link.old) (L.faults link.old)) in
        let new = outside (X.left conn.new)
        (sink_told (X.written conn.new) (X.puts conn.new)) (C.readings clock.new)
        (link_told (L.exchanges link.new) (L.faults link.new)) in
        Serves (W.rule replier.now) (IsOwnRun O.step) seat.old seat.new old new result }
    ensures reads { EndsByFault Ended.ReadFault result
        (X.Source.faults conn.old) (X.Source.faults conn.new) }
    ensures writes { EndsByFault Ended.WriteFault result
        (X.Sink.faults conn.old) (X.Sink.faults conn.new) }
    ensures holds { (X.kept_by_read conn.new).holds ≡ (X.kept_by_read conn.old).holds }
{
    let desk = OwnDesk::new();
    let answerer = Answerer {
        alloc,
        desk: &desk,
        replier,
    };
    answerer.serve(seat, conn, clock, link)
}

/// Sends the items of an object's outbox, as `send_notes` does, at a seat that holds it.
pub fn send_alone<O, C, L>(
    alloc: Global,
    seat: &mut OwnSeat<O>,
    clock: &mut C,
    link: &mut L,
) -> Result<u64, OutOfMemory>
where
    O: Object<Event = Event, Outcome = Outcome>,
    C: Clock,
    L: Link + ItemObserver,
    ensures { SendsItems (IsOwnRun O.step) seat.old seat.new
        (C.readings clock.old) (C.readings clock.new)
        (link_told (L.exchanges link.old) (L.faults link.old))
        (link_told (L.exchanges link.new) (L.faults link.new)) result }
{
    let desk = OwnDesk::new();
    send_notes(alloc, &desk, seat, clock, link)
}

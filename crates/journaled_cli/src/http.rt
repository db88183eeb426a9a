//! The command `http` over a journal.
ghost use Rattle.std.specs.Prelude.{◌≡◌, List, Option, ℕ};
ghost use Rattle.cse_server.specs.Outside.{SinkTold, link_told, outside, sink_told};
ghost use Rattle.kept_desk.specs.Kept.{KeptGrown};
ghost use Rattle.turn_desk.specs.Growth.{IsOwnRun};
ghost use Rattle.journaled_cli.specs.Run as spec;
ghost use Rattle.journaled_cli.specs.Run.{KeptTurns, SendsBehind, ServesStreams, EndsBehind};

use cse_server::{Bench, Ended, Wire};
use journal_events::{Came, KeptEvent};
use journaled_server::{send_kept_alone, serve_kept_alone};
use kept_file::NamedFile;
use kept_object::{KeptObject, Recorder};
use m2m_io::{Clock, Link, Sink, Source, Status};
use remote_members::Wide;
use service_observer::ItemObserver;
use std::alloc::Global;
use tree_model::Home;
use turn_desk::OwnSeat;

/// Sends the items of the outbox of the entity at a seat. The status is this one, unless memory
/// runs out.
fn send_behind<K, F: NamedFile, C: Clock, L: Link + ItemObserver>(
    alloc: Global,
    seat: &mut OwnSeat<KeptObject<K, F>>,
    bench: &mut Bench<C, L>,
    whole: Status,
) -> Status
where
    K: Recorder<Event = KeptEvent, Outcome = Came>,
    ensures { (left : Option (List ℕ)) → (out : SinkTold)
        → SendsBehind (KeptGrown (IsOwnRun (KeptTurns K.step K.keeps F.tells F.seen F.may_leave
        F.moment F.left_since))) seat.old seat.new (outside left out (C.readings bench.old.clock)
        (link_told (L.exchanges bench.old.link) (L.faults bench.old.link)))
        (outside left out (C.readings bench.new.clock)
        (link_told (L.exchanges bench.new.link) (L.faults bench.new.link))) whole result }
{
    let Bench { clock, link } = bench;
    match send_kept_alone(alloc, seat, clock, link) {
        Ok(_) => whole,
        Err(_) => Status::Memory,
    }
}

/// What is done behind a connection that ended so: where it was closed, or what was left of it was
/// no message, the items of the outbox are sent.
fn finish<K, F: NamedFile, C: Clock, L: Link + ItemObserver>(
    alloc: Global,
    seat: &mut OwnSeat<KeptObject<K, F>>,
    bench: &mut Bench<C, L>,
    ended: Ended,
) -> Status
where
    K: Recorder<Event = KeptEvent, Outcome = Came>,
    ensures { (left : Option (List ℕ)) → (out : SinkTold)
        → EndsBehind (KeptGrown (IsOwnRun (KeptTurns K.step K.keeps F.tells F.seen F.may_leave
        F.moment F.left_since))) ended seat.old seat.new (outside left out (C.readings bench.old.clock)
        (link_told (L.exchanges bench.old.link) (L.faults bench.old.link)))
        (outside left out (C.readings bench.new.clock)
        (link_told (L.exchanges bench.new.link) (L.faults bench.new.link))) result }
{
    match ended {
        Ended::Closed => send_behind(alloc, seat, bench, Status::Done),
        Ended::NoFrame => send_behind(alloc, seat, bench, Status::BadStream),
        Ended::ReadFault => Status::ReadFault,
        Ended::WriteFault => Status::WriteFault,
        Ended::Memory => Status::Memory,
    }
}

/// The status, or that writing failed, where the journal of this object has.
pub(crate) fn status_of<O: Drop, F: NamedFile + Drop>(
    object: KeptObject<O, F>,
    status: Status,
) -> Status
    ensures { result ≡ spec.status_of object.journal.is_failed status }
{
    if object.is_failed() {
        Status::WriteFault
    } else {
        status
    }
}

/// Serves input and output as one connection of what is kept, for the CSE of this home,
/// also for members of groups at other CSEs, and sends the items that this leaves in the outbox.
pub(crate) fn serve_streams<
    K: Recorder<Event = KeptEvent, Outcome = Came> + Drop,
    F: NamedFile + Drop,
    S: Source,
    O: Sink,
    C: Clock,
    L: Link + ItemObserver,
>(
    alloc: Global,
    home: &Home,
    object: KeptObject<K, F>,
    input: &mut S,
    out: &mut O,
    bench: &mut Bench<C, L>,
) -> Status
    ensures { let old = outside (S.left input.old)
        (sink_told (O.written out.old) (O.puts out.old)) (C.readings bench.old.clock)
        (link_told (L.exchanges bench.old.link) (L.faults bench.old.link)) in
        let new = outside (S.left input.new)
        (sink_told (O.written out.new) (O.puts out.new)) (C.readings bench.new.clock)
        (link_told (L.exchanges bench.new.link) (L.faults bench.new.link)) in
        ServesStreams (KeptTurns K.step K.keeps F.tells F.seen F.may_leave F.moment F.left_since)
        home.now object old new result }
{
    let mut seat = OwnSeat::new(object);
    let mut wire = Wire::new(input, out);
    let replier = Wide { home };
    let ended = serve_kept_alone(
        alloc,
        &mut seat,
        &mut wire,
        &mut bench.clock,
        &mut bench.link,
        &replier,
    );
    let status = finish(alloc, &mut seat, bench, ended);
    status_of(seat.into_object(), status)
}

//! The command `http`.
ghost use Rattle.std.specs.Prelude.{◌≡◌, ◌≢◌, ◌↔◌, ◌⊎◌, ℕ, IfOk, List, Option};
ghost use Rattle.cse_server.specs.Outside.{EndsByFault, SinkTold, link_told, outside};
ghost use Rattle.cse_server.specs.Outside.{sink_told};
ghost use Rattle.entity_model.specs.Opening.{opening};
ghost use Rattle.cse_cli.specs.Run.{EndsBehind, SendsBehind, ServesEntityAt, ServesOpened};
ghost use Rattle.cse_cli.specs.Run.{ServesStreams};

use crate::seeding::seed;
use cse_machine::{Event, Outcome};
use cse_server::{Bench, Ended, Served, Wire, send_alone, serve_alone};
use entity_model::Entity;
use later_replies::LaterEntity;
use m2m_io::{Clock, Link, Sink, Source, Status};
use remote_members::Wide;
use resource_tree::IndexTree;
use service_observer::ItemObserver;
use std::alloc::{AllocError as OutOfMemory, Global};
use std::time;
use tree_model::Home;
use turn_desk::{Object, OwnSeat};

/// The entity with this home, as it opens at a reading of the clock. Its tables hang on the seed.
pub(crate) fn opened(
    alloc: Global,
    home: Home,
    reading: u64,
    seed: u64,
) -> Result<Entity<IndexTree>, OutOfMemory>
    ensures { IfOk result (λ entity. entity ≡ opening home reading) }
{
    let entity = Entity::open(alloc, home, IndexTree::seeded(alloc, seed), reading)?;
    Ok(entity)
}

/// Sends the items of the outbox of the object at a seat. The status is this one, unless memory
/// runs out.
fn send_behind<X, C, L>(
    alloc: Global,
    seat: &mut OwnSeat<X>,
    bench: &mut Bench<C, L>,
    whole: Status,
) -> Status
where
    X: Object<Event = Event, Outcome = Outcome>,
    C: Clock,
    L: Link + ItemObserver,
    ensures sends { (left : Option (List ℕ)) → (out : SinkTold)
        → SendsBehind X.step seat.old seat.new (outside left out (C.readings bench.old.clock)
        (link_told (L.exchanges bench.old.link) (L.faults bench.old.link)))
        (outside left out (C.readings bench.new.clock)
        (link_told (L.exchanges bench.new.link) (L.faults bench.new.link))) whole result }
    ensures status { (result ≡ whole) ⊎ (result ≡ Status.Memory) }
{
    let Bench { clock, link } = bench;
    match send_alone(alloc, seat, clock, link) {
        Ok(_) => whole,
        Err(_) => Status::Memory,
    }
}

/// What is done behind a connection that ended so: where it was closed, or what was left of it was
/// no message, the items of the outbox are sent.
fn finish<X, C, L>(
    alloc: Global,
    seat: &mut OwnSeat<X>,
    bench: &mut Bench<C, L>,
    ended: Ended,
) -> Status
where
    X: Object<Event = Event, Outcome = Outcome>,
    C: Clock,
    L: Link + ItemObserver,
    ensures behind { (left : Option (List ℕ)) → (out : SinkTold)
        → EndsBehind X.step ended seat.old seat.new (outside left out (C.readings bench.old.clock)
        (link_told (L.exchanges bench.old.link) (L.faults bench.old.link)))
        (outside left out (C.readings bench.new.clock)
        (link_told (L.exchanges bench.new.link) (L.faults bench.new.link))) result }
    ensures reads { result ≡ Status.ReadFault ↔ ended ≡ Ended.ReadFault }
    ensures writes { result ≡ Status.WriteFault ↔ ended ≡ Ended.WriteFault }
    ensures command { result ≢ Status.Usage }
{
    match ended {
        Ended::Closed => send_behind(alloc, seat, bench, Status::Done),
        Ended::NoFrame => send_behind(alloc, seat, bench, Status::BadStream),
        Ended::ReadFault => Status::ReadFault,
        Ended::WriteFault => Status::WriteFault,
        Ended::Memory => Status::Memory,
    }
}

/// Serves input and output as one connection of an object with this home, also for members of
/// groups at other CSEs, and sends the items that this leaves in the outbox.
fn serve_object<X, S, O, C, L>(
    alloc: Global,
    home: &Home,
    object: X,
    input: &mut S,
    out: &mut O,
    bench: &mut Bench<C, L>,
) -> Status
where
    X: Object<Event = Event, Outcome = Outcome> + Drop,
    S: Source,
    O: Sink,
    C: Clock,
    L: Link + ItemObserver,
    ensures serves { let old = outside (S.left input.old)
        (sink_told (O.written out.old) (O.puts out.old)) (C.readings bench.old.clock)
        (link_told (L.exchanges bench.old.link) (L.faults bench.old.link)) in
        let new = outside (S.left input.new)
        (sink_told (O.written out.new) (O.puts out.new)) (C.readings bench.new.clock)
        (link_told (L.exchanges bench.new.link) (L.faults bench.new.link)) in
        ServesOpened X.step object home.now old new result }
    ensures command { result ≢ Status.Usage }
    ensures reads { EndsByFault Status.ReadFault result (S.faults input.old) (S.faults input.new) }
    ensures writes { EndsByFault Status.WriteFault result (O.faults out.old) (O.faults out.new) }
{
    let mut seat = OwnSeat::new(object);
    let mut wire = Wire::new(input, out);
    let replier = Wide { home };
    let ended = serve_alone(
        alloc,
        &mut seat,
        &mut wire,
        &mut bench.clock,
        &mut bench.link,
        &replier,
    );
    finish(alloc, &mut seat, bench, ended)
}

/// Serves input and output as one connection of an entity with this home. Where it is said so,
/// requests that ask for it are answered later.
fn serve_entity<S: Source, O: Sink, C: Clock, L: Link + ItemObserver>(
    alloc: Global,
    home: &Home,
    entity: Entity<IndexTree>,
    later: bool,
    input: &mut S,
    out: &mut O,
    bench: &mut Bench<C, L>,
) -> Status
    ensures serves { let old = outside (S.left input.old)
        (sink_told (O.written out.old) (O.puts out.old)) (C.readings bench.old.clock)
        (link_told (L.exchanges bench.old.link) (L.faults bench.old.link)) in
        let new = outside (S.left input.new)
        (sink_told (O.written out.new) (O.puts out.new)) (C.readings bench.new.clock)
        (link_told (L.exchanges bench.new.link) (L.faults bench.new.link)) in
        ServesEntityAt later home.now entity old new result }
    ensures command { result ≢ Status.Usage }
    ensures reads { EndsByFault Status.ReadFault result (S.faults input.old) (S.faults input.new) }
    ensures writes { EndsByFault Status.WriteFault result (O.faults out.old) (O.faults out.new) }
{
    if later {
        let object = LaterEntity::new(alloc, entity);
        serve_object(alloc, home, object, input, out, bench)
    } else {
        let served = Served::new(alloc, entity);
        serve_object(alloc, home, served, input, out, bench)
    }
}

/// Opens an entity with this home at the clock's first reading, serves input and output as one
/// connection, also for members of groups at other CSEs, and sends the items that this leaves in the
/// outbox. Where it is said so, requests that ask for it are answered later.
pub(crate) fn serve_streams<R: time::Clock, S: Source, O: Sink, C: Clock, L: Link + ItemObserver>(
    rt: &R,
    alloc: Global,
    home: Home,
    later: bool,
    input: &mut S,
    out: &mut O,
    bench: &mut Bench<C, L>,
) -> Status
    ensures runs { let old = outside (S.left input.old)
        (sink_told (O.written out.old) (O.puts out.old)) (C.readings bench.old.clock)
        (link_told (L.exchanges bench.old.link) (L.faults bench.old.link)) in
        let new = outside (S.left input.new)
        (sink_told (O.written out.new) (O.puts out.new)) (C.readings bench.new.clock)
        (link_told (L.exchanges bench.new.link) (L.faults bench.new.link)) in
        ServesStreams later home old new result }
    ensures command { result ≢ Status.Usage }
    ensures reads { EndsByFault Status.ReadFault result (S.faults input.old) (S.faults input.new) }
    ensures writes { EndsByFault Status.WriteFault result (O.faults out.old) (O.faults out.new) }
{
    let reading = bench.clock.now();
    let Ok(own) = home.copy(alloc) else {
        return Status::Memory;
    };
    let Ok(entity) = opened(alloc, own, reading, seed(rt)) else {
        return Status::Memory;
    };
    serve_entity(alloc, &home, entity, later, input, out, bench)
}

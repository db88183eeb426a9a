//! The command `serve`.
ghost use Rattle.std.specs.Prelude.{◌≡◌, ◌≢◌, ◌≤◌, ◌+◌, max, take, vec_len};
ghost use Rattle.command_words.specs.Reading.{serving_by};
ghost use Rattle.cse_server.specs.Attending.{AttendsBy, SeatGrows, SendsFrom, conn_tells};
ghost use Rattle.cse_server.specs.Attending.{link_tells};
ghost use Rattle.workers.specs.Gate.{door_tells};
ghost use Rattle.cse_cli.specs.Serve.{OpensServer, ServesBound, ServesEntity, ServesObject};
ghost use Rattle.cse_cli.specs.Serve.{ServesOpen};

use crate::http::opened;
use crate::observed::{ObservedLater, RunObserver};
use crate::seeding::seed;
use command_words::{Bind, Serving};
use cse_machine::{Event, Outcome};
use cse_server::{Attended, Bench, ServeFault, Served, serve_by};
use desk_replies::{Binding, Plainly};
use entity_model::Entity;
use later_replies::LaterEntity;
use m2m_io::{Clock, Door, Link, Status};
use remote_members::WideService;
use resource_tree::IndexTree;
use service_observer::{ItemObserver, ReplyObserver};
use std::alloc::Global;
use std::sync::Wait;
use std::thread::Threads;
use std::time;
use tree_model::Home;
use turn_desk::{Object, TurnDesk};
use ws_binding::{Talked, WsBinding};

/// Serves the connections of an open door by a binding, of which so many are accepted at most, at a
/// desk of this object, and sends what waits in its outbox.
#[tactic(auto, using(crate::proofs::ServeLemmas::comes_back))]
fn serve_at_desk<R, O, D, C, L, A, P>(
    rt: &R,
    own_rt: R,
    alloc: Global,
    object: O,
    door: D,
    accept: Option<u64>,
    first: &mut Bench<C, L>,
    benches: Vec<Bench<C, L>>,
    binding: &P,
) -> (Status, D)
where
    R: Wait + Threads + Drop + Sync,
    O: Object<Event = Event, Outcome = Outcome> + Send + Drop,
    D: Door + Send,
    C: Clock + Send + Drop,
    L: Link + ItemObserver + Send + Drop,
    A: Drop + Send,
    P: Binding<D::Conn, A> + Sync,
    requires benches { 2 ≤ vec_len benches }
    ensures serves { let attends = AttendsBy SeatGrows (P.talks binding.now) C.readings
        (link_tells L.exchanges L.faults) in
        let sends = SendsFrom SeatGrows C.readings (link_tells L.exchanges L.faults) in
        ServesOpen (ServesObject O.step attends sends benches.items object first.old first.new)
        (first.new ≡ first.old) accept
        (door_tells D.opened D.given D.ended D.faults door)
        (door_tells D.opened D.given D.ended D.faults result.1) result.0 }
    ensures command { result.0 ≢ Status.Usage }
{
    let Ok((desk, seat)) = TurnDesk::new(own_rt, alloc, object) else {
        return (Status::Memory, door);
    };
    match serve_by::<R, O, D, C, L, A, P>(
        rt, alloc, &desk, seat, door, accept, first, benches, binding,
    ) {
        Ok((seat, door)) => {
            drop(desk.close(seat));
            (Status::Done, door)
        }
        Err((seat, door, ServeFault::DoorFault)) => {
            drop(desk.close(seat));
            (Status::ReadFault, door)
        }
        Err((seat, door, ServeFault::OutOfMemory)) => {
            drop(desk.close(seat));
            (Status::Memory, door)
        }
    }
}

/// The benches of as many workers as the words say, and one more; fewer where there are no more.
pub fn benches_for<C: Clock + Drop, L: Link + Drop>(
    serving: Serving<'_>,
    mut benches: Vec<Bench<C, L>>,
) -> Vec<Bench<C, L>>
    requires { 2 ≤ vec_len benches }
    ensures some { 2 ≤ vec_len result }
    ensures front { result.items
        ≡ take (max 1 serving.entry.workers + 1) benches.items }
{
    let workers = serving.workers.max(1) as usize;
    benches.truncate(workers.saturating_add(1));
    benches
}

/// Serves the connections of an open door by an object of this home, each by the protocol that the
/// words say, of which as many are accepted at most as they say, by as many workers as they say,
/// beside a sender of what waits in its outbox. Over HTTP members of groups at other CSEs are asked
/// as well.
fn serve_bound<R, O, D, C, L>(
    rt: &R,
    own_rt: R,
    alloc: Global,
    object: O,
    home: Home,
    serving: Serving<'_>,
    door: D,
    first: &mut Bench<C, L>,
    benches: Vec<Bench<C, L>>,
) -> (Status, D)
where
    R: Wait + Threads + Drop + Sync,
    O: Object<Event = Event, Outcome = Outcome> + Send + Drop,
    D: Door + Send,
    D::Conn: ReplyObserver,
    C: Clock + Send + Drop,
    L: Link + ItemObserver + Send + Drop,
    requires benches { 2 ≤ vec_len benches }
    ensures serves { let conn = conn_tells D.Conn.left D.Conn.written D.Conn.puts
        D.Conn.Source.faults D.Conn.Sink.faults in
        let link = link_tells L.exchanges L.faults in
        ServesOpen (ServesBound O.step conn C.readings link benches.items home
        (serving_by serving.entry) object first.old first.new) (first.new ≡ first.old)
        serving.entry.accept (door_tells D.opened D.given D.ended D.faults door)
        (door_tells D.opened D.given D.ended D.faults result.1) result.0 }
    ensures command { result.0 ≢ Status.Usage }
{
    let accept = serving.accept;
    let benches = benches_for(serving, benches);
    match serving.bind {
        Bind::Http => {
            let binding = WideService::new(home);
            serve_at_desk::<R, O, D, C, L, Attended<D::Conn>, WideService>(
                rt, own_rt, alloc, object, door, accept, first, benches, &binding,
            )
        }
        Bind::Ws => {
            let binding = WsBinding { replier: Plainly };
            serve_at_desk::<R, O, D, C, L, Talked<D::Conn>, WsBinding<Plainly>>(
                rt, own_rt, alloc, object, door, accept, first, benches, &binding,
            )
        }
    }
}

/// Serves them by an entity of this home. Where the words say so, requests that ask for it are
/// answered later.
fn serve_entity<R, W, D, C, L>(
    rt: &R,
    own_rt: R,
    alloc: Global,
    entity: Entity<IndexTree>,
    home: Home,
    serving: Serving<'_>,
    observer: W,
    door: D,
    first: &mut Bench<C, L>,
    benches: Vec<Bench<C, L>>,
) -> (Status, D)
where
    R: Wait + Threads + Drop + Sync,
    W: RunObserver + Send + Drop,
    D: Door + Send,
    D::Conn: ReplyObserver,
    C: Clock + Send + Drop,
    L: Link + ItemObserver + Send + Drop,
    requires benches { 2 ≤ vec_len benches }
    ensures serves { let conn = conn_tells D.Conn.left D.Conn.written D.Conn.puts
        D.Conn.Source.faults D.Conn.Sink.faults in
        let link = link_tells L.exchanges L.faults in
        ServesOpen (ServesEntity conn C.readings link benches.items home
        (serving_by serving.entry) entity first.old first.new) (first.new ≡ first.old)
        serving.entry.accept (door_tells D.opened D.given D.ended D.faults door)
        (door_tells D.opened D.given D.ended D.faults result.1) result.0 }
    ensures command { result.0 ≢ Status.Usage }
{
    let later = serving.later;
    if later {
        let object = ObservedLater::new(LaterEntity::new(alloc, entity), observer);
        serve_bound(
            rt, own_rt, alloc, object, home, serving, door, first, benches,
        )
    } else {
        let served = Served::new(alloc, entity);
        serve_bound(
            rt, own_rt, alloc, served, home, serving, door, first, benches,
        )
    }
}

/// Opens an entity with this home at the clock's first reading, opens the door where the words say,
/// and serves its connections, each by the protocol that they say, of which as many are accepted at
/// most as they say, by as many workers as they say, beside a sender of what waits in its outbox.
/// An observer is told of the requests that it runs later.
pub(crate) fn serve_door<R, W, D, C, L>(
    rt: &R,
    alloc: Global,
    home: Home,
    serving: Serving<'_>,
    observer: W,
    mut door: D,
    first: &mut Bench<C, L>,
    benches: Vec<Bench<C, L>>,
) -> (Status, D)
where
    R: Wait + Threads + time::Clock + Clone + Drop + Sync,
    W: RunObserver + Send + Drop,
    D: Door + Send,
    D::Conn: ReplyObserver,
    C: Clock + Send + Drop,
    L: Link + ItemObserver + Send + Drop,
    requires benches { 2 ≤ vec_len benches }
    ensures opens { let conn = conn_tells D.Conn.left D.Conn.written D.Conn.puts
        D.Conn.Source.faults D.Conn.Sink.faults in
        let link = link_tells L.exchanges L.faults in
        OpensServer (ServesEntity conn C.readings link benches.items home
        (serving_by serving.entry))
        (serving_by serving.entry) home C.readings first.old first.new
        (door_tells D.opened D.given D.ended D.faults door)
        (door_tells D.opened D.given D.ended D.faults result.1) result.0 }
    ensures command { result.0 ≢ Status.Usage }
{
    let reading = first.clock.now();
    let Ok(own) = home.copy(alloc) else {
        return (Status::Memory, door);
    };
    let Ok(entity) = opened(alloc, own, reading, seed(rt)) else {
        return (Status::Memory, door);
    };
    let Ok(own_rt) = rt.clone() else {
        return (Status::Memory, door);
    };
    if let Err(_) = door.open(serving.listen.as_bytes()) {
        return (Status::ReadFault, door);
    }
    serve_entity(
        rt, own_rt, alloc, entity, home, serving, observer, door, first, benches,
    )
}

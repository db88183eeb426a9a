//! The command `serve` over a journal.
ghost use Rattle.std.specs.Prelude.{◌≡◌, ◌⊎◌, ◌≤◌, IfSome, vec_len};
ghost use Rattle.command_words.specs.Reading.{serving_by};
ghost use Rattle.cse_cli.specs.Serve.{AttendsWidely};
ghost use Rattle.cse_server.specs.Attending.{conn_tells, link_tells};
ghost use Rattle.desk_replies.specs.Rule.{plainly};
ghost use Rattle.journaled_cli.specs.Run.{LeavesServed, ServesByWords, ServesKept, StaysShut};
ghost use Rattle.journaled_server.specs.Serving.{AnswersGrown, AttendsKeptBy, SendsKept};
ghost use Rattle.journaled_server.specs.Serving.{TurnsGrow};
ghost use Rattle.ws_binding.specs.Binding.{TalksWs};

use crate::http::status_of;
use command_words::{Bind, Serving};
use cse_cli::benches_for;
use cse_server::{Attended, Bench, ServeFault};
use desk_replies::{Binding, Plainly};
use journal_events::{Came, KeptEvent};
use journaled_server::{LossDoor, LossSignal, serve_journaled};
use kept_desk::{Report, Turn};
use kept_file::NamedFile;
use kept_object::{KeptObject, Recorder};
use m2m_io::{Clock, Door, Link, Status};
use remote_members::WideService;
use service_observer::{ItemObserver, ReplyObserver};
use std::alloc::Global;
use std::sync::{Arc, Wait};
use std::thread::Threads;
use tree_model::Home;
use turn_desk::{Object, TurnDesk};
use ws_binding::{Talked, WsBinding};

/// Serves the connections of an open door by a binding, of which so many are accepted at most, at a
/// desk of this object, and sends what waits in its outbox. What the object has become comes back,
/// with the status; None where memory ran out before.
#[tactic(auto, using(crate::proofs::ServedLemmas::left_served))]
fn serve_at_desk<R, O, D, C, L, A, P>(
    rt: &R,
    own_rt: R,
    alloc: Global,
    object: O,
    door: D,
    accept: Option<u64>,
    first: &mut Bench<C, L>,
    benches: Vec<Bench<C, L>>,
    binding: &P,
) -> Option<(O, Status)>
where
    R: Wait + Threads + Drop + Sync,
    O: Object<Event = Turn<KeptEvent>, Outcome = Report<Came>> + Send + Drop,
    D: Door + Send + Drop,
    C: Clock + Send + Drop,
    L: Link + ItemObserver + Send + Drop,
    A: Drop + Send,
    P: Binding<D::Conn, A> + Sync,
    requires benches { 2 ≤ vec_len benches }
    ensures served { let attends = AttendsKeptBy TurnsGrow (P.talks binding.now) C.readings
        (link_tells L.exchanges L.faults) in
        let sends = SendsKept TurnsGrow C.readings (link_tells L.exchanges L.faults) in
        IfSome result (λ r. LeavesServed O.step attends sends benches.items object first.old
        first.new r.0 × ((r.1 ≡ Status.Done) ⊎ (r.1 ≡ Status.ReadFault))) }
    ensures starved { result ≡ None → first.new ≡ first.old }
{
    let Ok(losses) = Arc::new(alloc, LossSignal::new()) else {
        return None;
    };
    let Ok(raised) = Arc::try_clone(&losses) else {
        return None;
    };
    let Ok((desk, seat)) = TurnDesk::new(own_rt, alloc, object) else {
        return None;
    };
    let door = LossDoor::new(door, raised);
    match serve_journaled::<R, O, LossDoor<D>, C, L, A, P>(
        rt, alloc, &desk, seat, door, accept, &losses, first, benches, binding,
    ) {
        Ok((seat, _)) => Some((desk.close(seat), Status::Done)),
        Err((seat, _, ServeFault::DoorFault)) => Some((desk.close(seat), Status::ReadFault)),
        Err((seat, _, ServeFault::OutOfMemory)) => {
            drop(desk.close(seat));
            None
        }
    }
}

/// Serves the connections of an open door by an entity that is kept and by a binding, of which so
/// many are accepted at most, and sends what waits in its outbox.
fn serve_kept<R, K, F, D, C, L, A, P>(
    rt: &R,
    own_rt: R,
    alloc: Global,
    object: KeptObject<K, F>,
    door: D,
    accept: Option<u64>,
    first: &mut Bench<C, L>,
    benches: Vec<Bench<C, L>>,
    binding: &P,
) -> Status
where
    R: Wait + Threads + Drop + Sync,
    K: Recorder<Event = KeptEvent, Outcome = Came> + Send + Drop,
    F: NamedFile + Send + Drop,
    D: Door + Send + Drop,
    C: Clock + Send + Drop,
    L: Link + ItemObserver + Send + Drop,
    A: Drop + Send,
    P: Binding<D::Conn, A> + Sync,
    requires { 2 ≤ vec_len benches }
    ensures { let attends = AttendsKeptBy TurnsGrow (P.talks binding.now) C.readings
        (link_tells L.exchanges L.faults) in
        let sends = SendsKept TurnsGrow C.readings (link_tells L.exchanges L.faults) in
        ServesKept K.step K.keeps F.tells F.seen F.may_leave F.moment F.left_since attends sends
        benches.items first.old first.new object result ⊎ StaysShut first.old first.new result }
{
    match serve_at_desk::<R, KeptObject<K, F>, D, C, L, A, P>(
        rt, own_rt, alloc, object, door, accept, first, benches, binding,
    ) {
        Some((left, status)) => status_of(left, status),
        None => Status::Memory,
    }
}

/// Serves the connections of an open door by an entity that is kept, for the CSE of this home, each
/// by the protocol that the words say, by as many workers as they say, beside a sender of what waits
/// in its outbox. Over HTTP members of groups at other CSEs are asked as well.
fn serve_bound<R, K, F, D, C, L>(
    rt: &R,
    own_rt: R,
    alloc: Global,
    home: Home,
    object: KeptObject<K, F>,
    serving: Serving<'_>,
    door: D,
    first: &mut Bench<C, L>,
    benches: Vec<Bench<C, L>>,
) -> Status
where
    R: Wait + Threads + Drop + Sync,
    K: Recorder<Event = KeptEvent, Outcome = Came> + Send + Drop,
    F: NamedFile + Send + Drop,
    D: Door + Send + Drop,
    D::Conn: ReplyObserver,
    C: Clock + Send + Drop,
    L: Link + ItemObserver + Send + Drop,
    requires { 2 ≤ vec_len benches }
    ensures { let http = AttendsWidely (AnswersGrown TurnsGrow)
        (conn_tells D.Conn.left D.Conn.written D.Conn.puts D.Conn.Source.faults
        D.Conn.Sink.faults) C.readings (link_tells L.exchanges L.faults) in
        let ws = AttendsKeptBy TurnsGrow (TalksWs plainly) C.readings
        (link_tells L.exchanges L.faults) in
        let sends = SendsKept TurnsGrow C.readings (link_tells L.exchanges L.faults) in
        ServesByWords K.step K.keeps F.tells F.seen F.may_leave F.moment F.left_since http ws sends
        benches.items first.old first.new home (serving_by serving.entry) object result
        ⊎ StaysShut first.old first.new result }
{
    let accept = serving.accept;
    let benches = benches_for(serving, benches);
    match serving.bind {
        Bind::Http => {
            let binding = WideService::new(home);
            serve_kept::<R, K, F, D, C, L, Attended<D::Conn>, WideService>(
                rt, own_rt, alloc, object, door, accept, first, benches, &binding,
            )
        }
        Bind::Ws => {
            let binding = WsBinding { replier: Plainly };
            serve_kept::<R, K, F, D, C, L, Talked<D::Conn>, WsBinding<Plainly>>(
                rt, own_rt, alloc, object, door, accept, first, benches, &binding,
            )
        }
    }
}

/// Opens the door where the words say, and serves its connections by an entity that is kept, for the
/// CSE of this home, each by the protocol that they say, by as many workers as they say, beside a
/// sender of what waits in its outbox.
pub(crate) fn serve_door<R, K, F, D, C, L>(
    rt: &R,
    alloc: Global,
    home: Home,
    object: KeptObject<K, F>,
    serving: Serving<'_>,
    mut door: D,
    first: &mut Bench<C, L>,
    benches: Vec<Bench<C, L>>,
) -> Status
where
    R: Wait + Threads + Clone + Drop + Sync,
    K: Recorder<Event = KeptEvent, Outcome = Came> + Send + Drop,
    F: NamedFile + Send + Drop,
    D: Door + Send + Drop,
    D::Conn: ReplyObserver,
    C: Clock + Send + Drop,
    L: Link + ItemObserver + Send + Drop,
    requires benches { 2 ≤ vec_len benches }
    ensures { let http = AttendsWidely (AnswersGrown TurnsGrow)
        (conn_tells D.Conn.left D.Conn.written D.Conn.puts D.Conn.Source.faults
        D.Conn.Sink.faults) C.readings (link_tells L.exchanges L.faults) in
        let ws = AttendsKeptBy TurnsGrow (TalksWs plainly) C.readings
        (link_tells L.exchanges L.faults) in
        let sends = SendsKept TurnsGrow C.readings (link_tells L.exchanges L.faults) in
        ServesByWords K.step K.keeps F.tells F.seen F.may_leave F.moment F.left_since http ws sends
        benches.items first.old first.new home (serving_by serving.entry) object result
        ⊎ StaysShut first.old first.new result }
{
    let Ok(own_rt) = rt.clone() else {
        return Status::Memory;
    };
    if let Err(_) = door.open(serving.listen.as_bytes()) {
        return Status::ReadFault;
    }
    serve_bound(
        rt, own_rt, alloc, home, object, serving, door, first, benches,
    )
}

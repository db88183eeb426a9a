//! The workers.
ghost use Rattle.std.specs.Prelude.{◌≡◌, ◌<◌, ◌≤◌, ◌++◌, ◌∷◌, [], map, vec_len, Some};
ghost use Rattle.std.specs.Prelude.{IfOk, IfErr};
ghost use Rattle.std.specs.List.{All};
ghost use denote.Param.Send.{IsSync};
ghost use Rattle.turn_desk.specs.Seats.{IsSeated, known_to};
ghost use Rattle.workers.specs.declared.gate.Ending.TheVariants.{Fault};
ghost use Rattle.workers.specs.Gate.{HasEnded, TakesConnections, ServesDoor, door_tells};
ghost use Rattle.workers.specs.Jobs.{known_to_all, bench_of, AreSeated, IsClosedAt, IsSeatedAt};
ghost use Rattle.workers.specs.Rounds.{HasMadeRounds};
ghost use Rattle.workers.specs.Serving.{EndsServing, GainsByServing, seat_after};
ghost use Rattle.workers.specs.Shares.{HasNone, IsJoinedOf};
ghost use Rattle.workers.specs.Shifts.{WorksFrom, HasWorked, HaveWorked};

use crate::errand::Errand;
use crate::gate::{Entrance, Gate};
use crate::service::Service;
use crate::sharing::{Job, all_joined, jobs_at};
use m2m_io::Door;
use std::alloc::Global;
use std::marker::Brand;
use std::sync::{Mutex, Wait};
use std::thread::{Threads, for_each_mut, join};
use turn_desk::{DeskSeat, Object, TurnDesk};

/// Why connections were not served to the end.
#[derive(Clone, Copy, Debug, PartialEq, Eq)]
pub enum ServeFault {
    /// The door failed: its count of faults rose in the call.
    DoorFault,
    /// Memory ran out, before a connection was taken.
    OutOfMemory,
}

/// Takes connections, one after another, and has each attended to, until the gate is closed.
fn work<R, O, D, B, A, V, J>(
    rt: &R,
    desk: &TurnDesk<O, R>,
    gate: &Mutex<Gate<D, J>>,
    service: &V,
    job: &mut Job<O, B, A>,
)
where
    R: Wait,
    O: Object,
    D: Door,
    A: Drop,
    V: Service<TurnDesk<O, R>, D::Conn, B, A>,
    J: Entrance,
    requires { IsSeated O.step desk.now.table.shared.table_id job.old.seat }
    ensures seat { IsSeated O.step desk.now.table.shared.table_id job.new.seat }
    ensures closed { IsClosedAt job.new }
    ensures attended { HasWorked (V.attends service.now) job.old job.new }
{
    for _ in rt.forever() {
        let next = gate.lock(rt).next();
        match next {
            Ok(arrival) => {
                arrival.attended(desk, &mut job.seat, service, &mut job.bench);
            }
            Err(closed) => {
                job.closed = Some(closed);
                return;
            }
        }
    }
    unreachable!()
}

/// Takes what the gate still gives, with no lock, and has each connection attended to, until it is
/// closed.
fn serve_rest<R, O, D, B, A, V, J>(
    rt: &R,
    desk: &TurnDesk<O, R>,
    gate: &mut Gate<D, J>,
    service: &V,
    seat: &mut DeskSeat<O>,
    bench: &mut B,
)
where
    R: Wait,
    O: Object,
    D: Door,
    A: Drop + Send,
    V: Service<TurnDesk<O, R>, D::Conn, B, A>,
    J: Entrance,
    requires { IsSeated O.step desk.now.table.shared.table_id seat.old }
    ensures seat { IsSeated O.step desk.now.table.shared.table_id seat.new }
    ensures attended { WorksFrom (V.attends service.now) seat.old bench.old seat.new bench.new }
    ensures ended { HasEnded gate.new.ending }
{
    for _ in rt.forever() {
        let Ok(arrival) = gate.next() else {
            return;
        };
        arrival.attended(desk, seat, service, bench);
    }
    unreachable!()
}

/// Has all workers of a door work at their jobs, each in a thread of its own where one can be made,
/// and says then that the errand's signal is given no more.
fn work_all<R, O, D, B, A, V, N, J>(
    rt: &R,
    desk: &TurnDesk<O, R>,
    gate: &Mutex<Gate<D, J>>,
    service: &V,
    errand: &N,
    mut jobs: Vec<Job<O, B, A>>,
) -> Vec<Job<O, B, A>>
where
    R: Wait + Threads + Sync,
    O: Object + Send,
    O::Event: Send,
    O::Outcome: Send,
    D: Door + Send,
    A: Drop + Send,
    V: Service<TurnDesk<O, R>, D::Conn, B, A> + Sync,
    N: Errand<TurnDesk<O, R>, B>,
    J: Entrance + Send + Sync,
    B: Send + Drop,
    requires { AreSeated O.step desk.now.table.shared.table_id jobs.items }
    ensures seats { AreSeated O.step desk.now.table.shared.table_id result.items }
    ensures closed { All IsClosedAt result.items }
    ensures worked { HaveWorked (V.attends service.now) jobs.items result.items }
{
    let threads = jobs.len().max(1);
    for_each_mut(
        rt,
        &mut jobs,
        threads,
        &|_place: usize, job: &mut Job<O, B, A>|
            requires { IsSeated O.step desk.now.table.shared.table_id job.old.seat }
            ensures { IsSeated O.step desk.entry.now.table.shared.table_id job.new.seat
                × IsClosedAt job.new × HasWorked (V.attends service.entry.now) job.old job.new }
        { work(rt, desk, gate, service, job) },
    );
    errand.signal().end();
    jobs
}

/// Has an errand do rounds at its job, until its signal is given no more. It waits between them
/// until the signal is given, and for a tenth of a second at most.
fn run_beside<R, O, B, A, N>(
    rt: &R,
    desk: &TurnDesk<O, R>,
    errand: &N,
    mut beside: Job<O, B, A>,
) -> Job<O, B, A>
where
    R: Wait,
    O: Object,
    N: Errand<TurnDesk<O, R>, B>,
    requires { IsSeatedAt O.step desk.now.table.shared.table_id beside }
    ensures seat { IsSeatedAt O.step desk.now.table.shared.table_id result }
    ensures rounds { HasMadeRounds N.does beside result }
{
    for _ in rt.forever() {
        errand.run(desk, &mut beside.seat, &mut beside.bench);
        if !errand.signal().wait(rt) {
            return beside;
        }
    }
    unreachable!()
}

/// Serves the connections of a door whose entrance is `J`: by workers at these jobs, with an errand
/// that has rounds beside them, at a job of its own, until they have ended. Where no thread can be
/// made for the errand, it comes behind them. What is left then is served at the bench of that job,
/// and the errand has one round more, at the first bench. The seats are joined into this one.
fn serve_jobs<R, O, D, B, A, V, N, J>(
    rt: &R,
    desk: &TurnDesk<O, R>,
    seat: DeskSeat<O>,
    jobs: Vec<Job<O, B, A>>,
    beside: Job<O, B, A>,
    door: D,
    accept: Option<u64>,
    first: &mut B,
    service: &V,
    errand: &N,
) -> Result<(DeskSeat<O>, D), (DeskSeat<O>, D, ServeFault)>
where
    R: Wait + Threads + Sync,
    O: Object + Send,
    O::Event: Send,
    O::Outcome: Send,
    D: Door + Send,
    A: Drop + Send,
    V: Service<TurnDesk<O, R>, D::Conn, B, A> + Sync,
    N: Errand<TurnDesk<O, R>, B> + Sync,
    J: Entrance + Send + Sync,
    B: Send + Drop,
    requires seat { IsSeated O.step desk.now.table.shared.table_id seat }
    requires jobs { AreSeated O.step desk.now.table.shared.table_id jobs.items }
    requires beside { IsSeatedAt O.step desk.now.table.shared.table_id beside }
    requires fresh { All HasNone (known_to_all jobs.items) }
    requires fresh_beside { HasNone (known_to beside.seat) }
    requires start { door_tells D.opened D.given D.ended D.faults door ≡ J.start }
    requires accept { accept ≡ J.accept }
    ensures comes { IsJoinedOf O.step desk.now.table.shared.table_id (known_to seat)
        (known_to_all jobs.items ++ known_to beside.seat ∷ []) (seat_after result) }
    ensures gains { GainsByServing (V.attends service.now) N.does
        (map bench_of jobs.items ++ beside.bench ∷ []) first.old first.new seat
        (seat_after result) }
    ensures ok { IfOk result (λ r. ServesDoor J.accept J.start
        (door_tells D.opened D.given D.ended D.faults r.1)) }
    ensures fault { IfErr result (λ e. TakesConnections J.accept (Some Fault) J.start
        (door_tells D.opened D.given D.ended D.faults e.1)) }
    ensures cause { IfErr result (λ e. e.2 ≡ ServeFault.DoorFault) }
{
    let gate: Mutex<Gate<D, J>> = Mutex::new(Gate::new(door, accept));
    let shared = &gate;
    let rounds = move || -> Job<O, B, A>
        requires { IsSeatedAt O.step desk.now.table.shared.table_id beside }
        ensures { IsSeatedAt O.step desk.entry.now.table.shared.table_id result
            × HasMadeRounds N.does beside result }
    { run_beside(rt, desk, errand, beside) };
    let work = move || -> Vec<Job<O, B, A>>
        requires { IsSync R.row × AreSeated O.step desk.now.table.shared.table_id jobs.items }
        ensures { AreSeated O.step desk.entry.now.table.shared.table_id result.items
            × All IsClosedAt result.items
            × HaveWorked (V.attends service.entry.now) jobs.items result.items }
    { work_all(rt, desk, shared, service, errand, jobs) };
    let (beside, jobs) = join(rt, rounds, work);
    let (mut seat, mut bench) = all_joined(desk, seat, jobs, beside);
    let mut gate = gate.into_inner();
    serve_rest(rt, desk, &mut gate, service, &mut seat, &mut bench);
    errand.run(desk, &mut seat, first);
    match gate.into_served() {
        Ok(door) => Ok((seat, door)),
        Err(door) => Err((seat, door, ServeFault::DoorFault)),
    }
}

/// Serves the connections of a door until it gives no more: it gave None, failed, or gave as many
/// as `accept` says. Each bench but the last is a worker's, with a seat of its own that is split
/// off this one; it takes a connection from the door and has it served, and then the next. The last
/// bench is that of the errand, which has rounds beside the workers until none is left, also at a
/// seat of its own; and then it is for what is left. All seats are joined into the one that comes
/// back, with the door, and at it the errand has one round more, with the first bench.
#[tactic(auto, using(crate::proofs::ServingLemmas::ends_starved))]
pub fn serve_with<R, O, D, B, A, V, N>(
    rt: &R,
    alloc: Global,
    desk: &TurnDesk<O, R>,
    seat: DeskSeat<O>,
    door: D,
    accept: Option<u64>,
    first: &mut B,
    benches: Vec<B>,
    service: &V,
    errand: &N,
) -> Result<(DeskSeat<O>, D), (DeskSeat<O>, D, ServeFault)>
where
    R: Wait + Threads + Sync,
    O: Object + Send,
    O::Event: Send,
    O::Outcome: Send,
    D: Door + Send,
    A: Drop + Send,
    V: Service<TurnDesk<O, R>, D::Conn, B, A> + Sync,
    N: Errand<TurnDesk<O, R>, B> + Sync,
    B: Send + Drop,
    requires benches { 1 ≤ vec_len benches }
    requires seat { IsSeated O.step desk.now.table.shared.table_id seat }

    // Seat and door come back, with the fault where one ended it, and what the seat has gained is
    // what attending gave, and then what the rounds of the errand did.
    ensures ends { EndsServing O.step desk.now.table.shared.table_id
        (door_tells D.opened D.given D.ended D.faults) (V.attends service.now) N.does accept
        benches.items first.old first.new seat door result }
{
    match jobs_at(alloc, desk, seat, benches) {
        Ok((seat, mut jobs)) => {
            let Some(beside) = jobs.pop() else {
                unreachable!()
            };
            serve_jobs::<R, O, D, B, A, V, N, Brand>(
                rt, desk, seat, jobs, beside, door, accept, first, service, errand,
            )
        }
        Err((seat, _)) => Err((seat, door, ServeFault::OutOfMemory)),
    }
}

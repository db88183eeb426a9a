//! Seats that are split off for workers, and joined again.
ghost use Rattle.std.specs.Prelude.{◌≡◌, List, ◌∷◌, [], ◌++◌, map, None, IfOk, IfErr};
ghost use Rattle.std.specs.List.{All};
ghost use Rattle.turn_desk.specs.Seats.{IsSeated, known_to};
ghost use Rattle.turn_desk.specs.Shared.{halved, sibling};
ghost use Rattle.turn_desk.specs.declared.view.View.{View};
ghost use Rattle.workers.specs.Jobs.{known_to_all, bench_of, IsSeatedAt, AreSeated, IsClosedAt};
ghost use Rattle.workers.specs.Shares.{HasGoneOn, AddUpTo, PassesOn, HasSeenAll, all_own, HasNone};

use crate::gate::Closed;
use std::alloc::{AllocError as OutOfMemory, Global};
use std::marker::PhantomData;
use turn_desk::{DeskSeat, Object, TurnDesk};

/// What one worker works with: a seat of its own, and what it has at its bench. Once its work is
/// done it has what the gate gave at its end. `A` is what attending gives.
#[derive(Drop)]
pub(crate) struct Job<O: Object, B, A> {
    pub(crate) seat: DeskSeat<O>,
    pub(crate) bench: B,
    pub(crate) closed: Option<Closed>,
    of: PhantomData<A>,
}

/// One half of the seat, and the other half at a bench.
fn split_job<O: Object, R, B, A>(
    desk: &TurnDesk<O, R>,
    seat: DeskSeat<O>,
    bench: B,
) -> (DeskSeat<O>, Job<O, B, A>)
    requires { IsSeated O.step desk.now.table.shared.table_id seat }
    ensures seat { IsSeated O.step desk.now.table.shared.table_id result.0 }
    ensures job { IsSeatedAt O.step desk.now.table.shared.table_id result.1 }
    ensures bench { result.1.bench ≡ bench }
    ensures first { known_to result.0 ≡ halved (known_to seat) }
    ensures second { known_to result.1.seat ≡ sibling (known_to seat) }
{
    let Ok((kept, other)) = desk.split(seat) else {
        unreachable!()
    };
    let job = Job {
        seat: other,
        bench,
        closed: None,
        of: PhantomData,
    };
    (kept, job)
}

/// A job at each of these benches, in their order, and the seat off which theirs were split. Where
/// memory runs out nothing is split off.
pub(crate) fn jobs_at<O: Object, R, B: Drop, A>(
    alloc: Global,
    desk: &TurnDesk<O, R>,
    seat: DeskSeat<O>,
    benches: Vec<B>,
) -> Result<(DeskSeat<O>, Vec<Job<O, B, A>>), (DeskSeat<O>, OutOfMemory)>
    requires { IsSeated O.step desk.now.table.shared.table_id seat }
    ensures seat { IfOk result (λ r. IsSeated O.step desk.now.table.shared.table_id r.0) }
    ensures on { IfOk result (λ r. HasGoneOn (known_to seat) (known_to r.0)) }
    ensures same { IfOk result (λ r. (known_to r.0).own ≡ (known_to seat).own) }
    ensures seats { IfOk result (λ r.
        AreSeated O.step desk.now.table.shared.table_id r.1.items) }
    ensures benches { IfOk result (λ r. map bench_of r.1.items ≡ benches.items) }
    ensures fresh { IfOk result (λ r. All HasNone (known_to_all r.1.items)) }
    ensures parts { IfOk result (λ r. AddUpTo (known_to seat)
        (known_to r.0 ∷ known_to_all r.1.items)) }
    ensures err { IfErr result (λ e. e.0 ≡ seat) }
{
    let Ok(mut jobs) = Vec::with_capacity(alloc, benches.len()) else {
        return Err((seat, OutOfMemory));
    };
    let mut mine = seat;
    for bench in benches {
        let (kept, job) = split_job(desk, mine, bench);
        mine = kept;
        jobs.push_reserved(job);
    }
    Ok((mine, jobs))
}

/// One seat for this one and those of the jobs, whose workers all have what the gate gave at its
/// end.
fn joined_seat<O: Object, R, B: Drop, A>(
    desk: &TurnDesk<O, R>,
    seat: DeskSeat<O>,
    jobs: Vec<Job<O, B, A>>,
) -> DeskSeat<O>
    requires seat { IsSeated O.step desk.now.table.shared.table_id seat }
    requires jobs { AreSeated O.step desk.now.table.shared.table_id jobs.items }
    requires closed { All IsClosedAt jobs.items }
    ensures seat { IsSeated O.step desk.now.table.shared.table_id result }
    ensures on { HasGoneOn (known_to seat) (known_to result) }
    ensures seen { HasSeenAll (known_to result) (known_to_all jobs.items) }
    ensures own { (known_to result).own
        ≡ (known_to seat).own ++ all_own (known_to_all jobs.items) }
    ensures parts { (others : List (View O O.Event O.Outcome))
        → PassesOn (known_to seat ∷ (known_to_all jobs.items ++ others))
        (known_to result ∷ others) }
{
    let mut all = seat;
    for job in jobs {
        let Job {
            seat: other,
            bench: _,
            closed,
            of: _,
        } = job;
        let Some(_) = closed else { unreachable!() };
        let Ok(one) = desk.join(all, other) else {
            unreachable!()
        };
        all = one;
    }
    all
}

/// One seat for this one, those of the jobs, whose workers all have what the gate gave at its end,
/// and that of the job beside them; and what lies at the bench of that one.
pub(crate) fn all_joined<O: Object, R, B: Drop, A>(
    desk: &TurnDesk<O, R>,
    seat: DeskSeat<O>,
    jobs: Vec<Job<O, B, A>>,
    beside: Job<O, B, A>,
) -> (DeskSeat<O>, B)
    requires seat { IsSeated O.step desk.now.table.shared.table_id seat }
    requires jobs { AreSeated O.step desk.now.table.shared.table_id jobs.items }
    requires closed { All IsClosedAt jobs.items }
    requires beside { IsSeatedAt O.step desk.now.table.shared.table_id beside }
    ensures seat { IsSeated O.step desk.now.table.shared.table_id result.0 }
    ensures on { HasGoneOn (known_to seat) (known_to result.0) }
    ensures seen { HasSeenAll (known_to result.0)
        (known_to_all jobs.items ++ known_to beside.seat ∷ []) }
    ensures own { (known_to result.0).own ≡ (known_to seat).own
        ++ all_own (known_to_all jobs.items ++ known_to beside.seat ∷ []) }
    ensures parts { PassesOn
        (known_to seat ∷ (known_to_all jobs.items ++ known_to beside.seat ∷ []))
        (known_to result.0 ∷ []) }
    ensures bench { result.1 ≡ beside.bench }
{
    let joined = joined_seat(desk, seat, jobs);
    let Job {
        seat: other,
        bench,
        closed: _,
        of: _,
    } = beside;
    let Ok(all) = desk.join(joined, other) else {
        unreachable!()
    };
    (all, bench)
}

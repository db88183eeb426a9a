//! The desk.
ghost use Rattle.std.specs.Prelude.{◌≡◌};
ghost use Rattle.kept_desk.specs.Kept.{Settles};

use crate::{Answer, Report, Turn};
use turn_desk::Desk;

/// A desk that gives no answer before what it tells is kept, over a desk of an object that keeps
/// what it does.
pub struct KeptDesk<'a, D> {
    desk: &'a D,
}

impl<D> Drop for KeptDesk<'_, D> {
    fn drop(self) {
        let KeptDesk { desk: _ } = self;
    }
}

impl<'a, D> KeptDesk<'a, D> {
    /// Over this desk.
    pub fn new(desk: &'a D) -> KeptDesk<'a, D>
        ensures { result.desk.now ≡ desk.now }
    {
        KeptDesk { desk }
    }
}

impl<'a, E: Drop, O: Drop, D: Desk<Event = Turn<E>, Outcome = Report<O>>> Desk for KeptDesk<'a, D> {
    ghost use Rattle.kept_desk.specs.Kept.{KeptGrown};
    ghost use Rattle.kept_desk.specs.Joins.{kept_both, kept_nothing};

    type Event = E;

    type Outcome = Answer<O>;

    type Seat = D::Seat;

    ghost seats = { λ d seat. D.seats d.desk.now seat };

    ghost grown = { KeptGrown D.grown };

    ghost grown_by_nothing = { λ seat. kept_nothing D.grown D.grown_by_nothing seat };

    ghost grown_on = { kept_both D.grown D.grown_on };

    #[inline(always)]
    fn ask(&self, seat: &mut D::Seat, reading: u64, event: E) -> Answer<O> {
        match self.desk.ask(seat, reading, Turn::Do(event)) {
            Report::Done {
                outcome,
                settled: true,
            } => Answer::Kept(outcome),
            Report::Done {
                outcome,
                settled: false,
            } => settle(self.desk, seat, reading, outcome),
            Report::Settled => Answer::Lost,
            Report::Failed => Answer::Lost,
        }
    }
}

/// The outcome, once all that was done is on the disk.
#[inline(never)]
fn settle<E: Drop, O: Drop, D: Desk<Event = Turn<E>, Outcome = Report<O>>>(
    desk: &D,
    seat: &mut D::Seat,
    reading: u64,
    outcome: O,
) -> Answer<O>
    requires { D.seats desk.now seat.old }
    ensures seats { D.seats desk.now seat.new }
    ensures settles { Settles D.grown seat.old reading outcome result seat.new }
{
    match desk.ask(seat, reading, Turn::Settle) {
        Report::Settled => Answer::Kept(outcome),
        Report::Done { .. } | Report::Failed => Answer::Lost,
    }
}

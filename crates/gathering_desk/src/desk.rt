//! The desk.
ghost use Rattle.std.specs.Prelude.{◌≡◌};

use crate::Gathering;
use crate::group::Part;
use change_signal::Watch;
use kept_desk::{Report, Turn};
use std::sync::Wait;
use turn_desk::Desk;

/// Whether what was done isn't on the disk yet.
fn is_unsettled<O>(report: &Report<O>) -> bool {
    match report {
        Report::Done {
            outcome: _,
            settled,
        } => !*settled,
        Report::Settled | Report::Failed => false,
    }
}

/// A desk that asks the desk behind it. Those who ask for what may change something go in groups:
/// all of a group have their event done, and one settles for all. So many share the syncs of one
/// turn.
pub struct GatheringDesk<'a, D, R, W> {
    behind: &'a D,
    gathering: &'a Gathering,
    rt: &'a R,
    watch: W,
}

impl<D, R, W: Drop> Drop for GatheringDesk<'_, D, R, W> {
    fn drop(self) {
        let GatheringDesk {
            behind: _,
            gathering: _,
            rt: _,
            watch: _,
        } = self;
    }
}

impl<'a, D, R, W> GatheringDesk<'a, D, R, W> {
    /// Over this desk. The watch says which events may change something.
    pub fn new(
        behind: &'a D,
        gathering: &'a Gathering,
        rt: &'a R,
        watch: W,
    ) -> GatheringDesk<'a, D, R, W>
        ensures { result.behind.now ≡ behind.now }
    {
        GatheringDesk {
            behind,
            gathering,
            rt,
            watch,
        }
    }
}

impl<'a, E: Drop, O: Drop, D: Desk<Event = Turn<E>, Outcome = Report<O>>, R: Wait, W: Watch<E>> Desk
    for GatheringDesk<'a, D, R, W> {
    type Event = Turn<E>;

    type Outcome = Report<O>;

    type Seat = D::Seat;

    ghost seats = { λ desk seat. D.seats desk.behind.now seat };

    ghost grown = { D.grown };

    ghost grown_by_nothing = { D.grown_by_nothing };

    ghost grown_on = { D.grown_on };

    fn ask(&self, seat: &mut D::Seat, reading: u64, turn: Turn<E>) -> Report<O> {
        match turn {
            Turn::Do(event) => {
                let comes = self.watch.may_change(&event);
                if comes {
                    self.gathering.come(self.rt);
                }
                let order = self.gathering.take_turn(self.rt);
                let report = self.behind.ask(seat, reading, Turn::Do(event));
                drop(order);
                self.gathering
                    .end_turn(self.rt, comes, is_unsettled(&report));
                report
            }
            Turn::Settle => {
                let part = self.gathering.wait(self.rt);
                let report = self.behind.ask(seat, reading, Turn::Settle);
                match part {
                    Part::Leads => self.gathering.end_round(self.rt),
                    Part::Follows => self.gathering.leave(self.rt),
                    Part::Waits | Part::Lingers | Part::Parts => {}
                }
                report
            }
        }
    }
}

//! A desk that keeps, as a desk of the machine.
ghost use Rattle.std.specs.Prelude.{◌≡◌};

use crate::LossSignal;
use cse_machine::{Event, Outcome};
use journal_events::{Came, KeptEvent};
use kept_desk::Answer;
use turn_desk::Desk;

/// A desk of the machine that answers what the desk behind it does. Where that one's answer is
/// lost, it answers that memory ran out, and raises a signal.
pub struct PlainDesk<'a, D> {
    behind: &'a D,
    signal: &'a LossSignal,
}

impl<D> Drop for PlainDesk<'_, D> {
    fn drop(self) {
        let PlainDesk {
            behind: _,
            signal: _,
        } = self;
    }
}

impl<'a, D> PlainDesk<'a, D> {
    /// Over this desk.
    pub fn new(behind: &'a D, signal: &'a LossSignal) -> PlainDesk<'a, D>
        ensures { result.behind.now ≡ behind.now }
    {
        PlainDesk { behind, signal }
    }
}

impl<'a, D: Desk<Event = KeptEvent, Outcome = Answer<Came>>> Desk for PlainDesk<'a, D> {
    ghost use Rattle.journaled_server.specs.Plain.{PlainGrown};
    ghost use Rattle.journaled_server.specs.Joins.{plain_both, plain_nothing};

    type Event = Event;

    type Outcome = Outcome;

    type Seat = D::Seat;

    ghost seats = { λ desk seat. D.seats desk.behind.now seat };

    ghost grown = { PlainGrown D.grown };

    ghost grown_by_nothing = { λ seat. plain_nothing D.grown D.grown_by_nothing seat };

    ghost grown_on = { plain_both D.grown D.grown_on };

    #[inline(always)]
    fn ask(&self, seat: &mut D::Seat, reading: u64, event: Event) -> Outcome {
        match self.behind.ask(seat, reading, KeptEvent::OfMachine(event)) {
            Answer::Kept(came) => came.into_machine_outcome(),
            Answer::Lost => {
                self.signal.raise();
                Outcome::Starved { done: 0 }
            }
        }
    }
}

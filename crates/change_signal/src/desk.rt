//! The desk.
ghost use Rattle.std.specs.Prelude.{◌≡◌};

use crate::ChangeSignal;
use turn_desk::Desk;

/// Which events may change what is asked.
pub trait Watch<E> {
    /// Whether this event may change it.
    fn may_change(&self, event: &E) -> bool;
}

/// A desk that asks the desk behind it, and signals what may have changed something.
pub struct SignallingDesk<'a, D, W> {
    behind: &'a D,
    signal: &'a ChangeSignal,
    watch: W,
}

impl<W: Drop, D> Drop for SignallingDesk<'_, D, W> {
    fn drop(self) {
        let SignallingDesk {
            behind: _,
            signal: _,
            watch: _,
        } = self;
    }
}

impl<'a, D, W> SignallingDesk<'a, D, W> {
    /// The desk behind it, with a signal for the events that may change something.
    pub fn new(behind: &'a D, signal: &'a ChangeSignal, watch: W) -> Self
        ensures { result.behind.now ≡ behind.now }
    {
        SignallingDesk {
            behind,
            signal,
            watch,
        }
    }
}

impl<D: Desk, W: Watch<D::Event>> Desk for SignallingDesk<'_, D, W> {
    type Event = D::Event;

    type Outcome = D::Outcome;

    type Seat = D::Seat;

    ghost seats = { λ desk seat. D.seats desk.behind.now seat };

    ghost grown = { D.grown };

    ghost grown_by_nothing = { D.grown_by_nothing };

    ghost grown_on = { D.grown_on };

    fn ask(&self, seat: &mut D::Seat, reading: u64, event: D::Event) -> D::Outcome {
        let may_change = self.watch.may_change(&event);
        let outcome = self.behind.ask(seat, reading, event);
        if may_change {
            self.signal.raise();
        }
        outcome
    }
}

//! The desk of one owner.
ghost use Rattle.std.specs.Prelude.{◌≡◌, ⊤};

use crate::{Desk, Object};
use std::marker::{Model, PhantomData};

/// A desk whose every seat holds an object of its own, so that no one else asks it.
pub struct OwnDesk<O> {
    of: PhantomData<O>,
}

/// A seat that holds its object. Contracts see it as that object.
#[derive(Drop)]
pub struct OwnSeat<O> {
    object: O,
}

impl<O> Model for OwnSeat<O> {
    ghost Value = { O };

    ghost coded = { O.code };

    ghost view = { λ s. s.object };
}

impl<O> Drop for OwnDesk<O> {
    fn drop(self) {
        let OwnDesk { of: _ } = self;
    }
}

impl<O> OwnDesk<O> {
    /// A desk for such seats.
    pub fn new() -> OwnDesk<O> {
        OwnDesk { of: PhantomData }
    }
}

impl<O> OwnSeat<O> {
    /// A seat at which this object is asked.
    pub fn new(object: O) -> OwnSeat<O>
        ensures { result ≡ object }
    {
        OwnSeat { object }
    }

    /// The object that the seat holds.
    pub fn into_object(self) -> O
        ensures { result ≡ self }
    {
        let OwnSeat { object } = self;
        object
    }
}

impl<O: Object> Desk for OwnDesk<O> {
    ghost use Rattle.turn_desk.specs.Growth.{IsOwnRun};
    ghost use Rattle.turn_desk.specs.Joins.{IsOwnRun-nothing, IsOwnRun-append};

    type Event = O::Event;

    type Outcome = O::Outcome;

    type Seat = OwnSeat<O>;

    ghost seats = { λ _ _. ⊤ };

    ghost grown = { IsOwnRun O.step };

    ghost grown_by_nothing = { IsOwnRun-nothing O.step };

    ghost grown_on = { IsOwnRun-append O.step };

    fn ask(&self, seat: &mut OwnSeat<O>, reading: u64, event: O::Event) -> O::Outcome {
        seat.object.turn(reading, &event)
    }
}

//! Where an object is asked.
ghost use Rattle.std.specs.Prelude.{List, [], ◌++◌};
ghost use Rattle.turn_desk.specs.Entries.{Marked, entry_of};
ghost use Rattle.turn_desk.specs.Growth.{Asks};

/// A place at which those who have a seat ask an object.
pub trait Desk {
    type Event: Drop;

    type Outcome: Drop;

    type Seat;

    /// The seat is of this desk, and stands between two questions.
    ghost seats: { Self → Self.Seat → Type 0 };

    /// The seat grew by these entries, in the order in which the object took them: the seat before,
    /// the entries, and the seat after.
    ghost grown: { Self.Seat → List (Marked Self.Event Self.Outcome) → Self.Seat → Type 0 };

    /// Asks the object, and gives its answer.
    fn ask(&self, seat: &mut Self::Seat, reading: u64, event: Self::Event) -> Self::Outcome
        requires { seats self.now seat.old }
        ensures seats { seats self.now seat.new }

        // Others may have asked before. The last entry is this question's, with this answer.
        ensures asked { Asks grown seat.old (entry_of reading event result) seat.new };

    /// Each seat grows by nothing to itself.
    ghost grown_by_nothing: { (seat : Self.Seat) → grown seat [] seat };

    /// Two growths in a row are one.
    ghost grown_on: { (before between after : Self.Seat) (more then : List
        (Marked Self.Event Self.Outcome))
        → grown before more between → grown between then after
        → grown before (more ++ then) after };
}

//! What is done for one connection.
ghost use Rattle.std.specs.Prelude.{List};
ghost use Rattle.turn_desk.specs.Entries.{Marked};

use turn_desk::Desk;

/// What attends to connections `X` at a desk, with what a worker has at its bench `B`.
///
/// `A` is a connection that was attended to. A service keeps its fields to itself, so that
/// attending alone makes one, and none can be attended to again.
pub trait Service<K: Desk, X, B, A> {
    /// How this service attends: the seat, the connection and the bench before, and the seat, the
    /// connection that was attended to and the bench after.
    ghost attends: { Self → K.Seat → X → B → K.Seat → A → B → Type 0 };

    /// Attends to one connection to its end.
    fn attend(&self, desk: &K, seat: &mut K::Seat, conn: X, bench: &mut B) -> A
        requires { K.seats desk.now seat.old }
        ensures seats { K.seats desk.now seat.new }
        ensures grew { (more : List (Marked K.Event K.Outcome)) × K.grown seat.old more seat.new }
        ensures attends { attends self.now seat.old conn bench.old seat.new result bench.new };
}

//! What is done beside the workers.
ghost use Rattle.std.specs.Prelude.{List};
ghost use Rattle.turn_desk.specs.Entries.{Marked};

use change_signal::ChangeSignal;
use turn_desk::Desk;

/// What is done beside workers, in rounds, at a desk and with what lies at a bench `B`.
pub trait Errand<K: Desk, B> {
    /// What one round does: the seat and the bench before, and both after.
    ghost does: { K.Seat → B → K.Seat → B → Type 0 };

    /// The signal that ends the wait before the next round. Who asks at the desk is to give it.
    fn signal(&self) -> &ChangeSignal;

    /// Does one round.
    fn run(&self, desk: &K, seat: &mut K::Seat, bench: &mut B)
        requires { K.seats desk.now seat.old }
        ensures seats { K.seats desk.now seat.new }
        ensures grew { (more : List (Marked K.Event K.Outcome)) × K.grown seat.old more seat.new }
        ensures does { does seat.old bench.old seat.new bench.new };
}

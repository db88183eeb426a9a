//! A connection that a worker has taken.
ghost use Rattle.std.specs.Prelude.{◌≡◌, List};
ghost use Rattle.turn_desk.specs.Entries.{Marked};

use crate::Service;
use turn_desk::Desk;

/// A connection that was taken from a door. It can't be let go, and who has one can do nothing with
/// it but have it attended to, once.
pub(crate) struct Arrival<X> {
    conn: X,
}

impl<X> Arrival<X> {
    /// This connection has arrived.
    pub(crate) fn new(conn: X) -> Arrival<X>
        ensures { result.conn ≡ conn }
    {
        Arrival { conn }
    }

    /// Has the service attend to it.
    pub(crate) fn attended<K, B, A, V>(
        self,
        desk: &K,
        seat: &mut K::Seat,
        service: &V,
        bench: &mut B,
    ) -> A
    where
        K: Desk,
        V: Service<K, X, B, A>,
        requires { K.seats desk.now seat.old }
        ensures seats { K.seats desk.now seat.new }
        ensures grew { (more : List (Marked K.Event K.Outcome)) × K.grown seat.old more seat.new }
        ensures attends { V.attends service.now seat.old self.conn bench.old seat.new result
            bench.new }
    {
        let Arrival { conn } = self;
        service.attend(desk, seat, conn, bench)
    }
}

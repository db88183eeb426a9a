//! What attends to a connection.
ghost use Rattle.http_forwarding.specs.Carries.{link_told};
ghost use Rattle.desk_replies.specs.Asking.{Asked, HasAsked};

use cse_machine::{Event, Outcome};
use m2m_io::{Clock, Link};
use std::alloc::Global;
use turn_desk::Desk;

/// What attends to connections `X` by a protocol, and puts their requests to a desk.
///
/// `A` is a connection that was attended to. A binding keeps its fields to itself, so that
/// attending alone makes one, and none can be attended to again.
pub trait Binding<X, A> {
    /// How this binding attends: the connection as it came, what was asked, and the connection that
    /// was attended to.
    ghost talks: { Self → X → Asked → A → Type 0 };

    /// Attends to one connection to its end.
    fn attend<D, C, L>(
        &self,
        alloc: Global,
        desk: &D,
        seat: &mut D::Seat,
        conn: X,
        clock: &mut C,
        link: &mut L,
    ) -> A
    where
        D: Desk<Event = Event, Outcome = Outcome>,
        C: Clock,
        L: Link,
        requires { D.seats desk.now seat.old }
        ensures seats { D.seats desk.now seat.new }
        ensures talks { (asked : Asked)
            × HasAsked D.grown seat.old seat.new (C.readings clock.old) (C.readings clock.new)
            (link_told (L.exchanges link.old) (L.faults link.old))
            (link_told (L.exchanges link.new) (L.faults link.new)) asked
            × talks self.now conn asked result };
}

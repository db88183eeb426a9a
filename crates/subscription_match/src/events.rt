//! The kinds of events that subscriptions look for.
ghost use Rattle.std.specs.Prelude.{◌≡◌};
ghost use Rattle.subscription_match.specs.Matching as spec;

/// What a change is to the resource that a subscription stands under (TS-0004, 6.3.4.2.19).
#[derive(Clone, Copy)]
pub enum EventKind {
    /// It was updated.
    UpdateOfResource,
    /// It is gone.
    DeleteOfResource,
    /// It has a new child.
    CreateOfChild,
    /// A child of it is gone.
    DeleteOfChild,
}

impl EventKind {
    /// The number that stands for it.
    pub fn number(self) -> u64
        ensures { result ≡ spec.event_number self }
    {
        match self {
            EventKind::UpdateOfResource => 1,
            EventKind::DeleteOfResource => 2,
            EventKind::CreateOfChild => 3,
            EventKind::DeleteOfChild => 4,
        }
    }

    /// Whether it is an update of the resource itself.
    pub fn is_update(self) -> bool
        ensures { result ≡ spec.is_update self }
    {
        self.number() == 1
    }
}

//! The time that a link has spent on hosts that were mute or slow.
ghost use Rattle.std.specs.Prelude.{◌≡◌, nat_le};
ghost use Rattle.tcp_link.specs.Spending as spec;

/// Where so many milliseconds weigh on a link, it asks no host that was mute the last time, and
/// waits for none that was slow.
const MUCH: u64 = 1_000;

/// Where so many do, it waits for nobody for long.
const TOO_MUCH: u64 = 2_000;

/// No more than so many weigh on it.
const MOST: u64 = 3_000;

/// In so many milliseconds one of them is taken away.
const RELIEF: u64 = 4;

/// The milliseconds that a link has spent on hosts that were mute or slow, as they still weigh on
/// it. So it is busy with such hosts for a quarter of the time, however many they are.
#[derive(Debug, Drop)]
pub(crate) struct Spending {
    spent: u64,
    at: u64,
}

impl Spending {
    /// Nothing was spent yet.
    pub(crate) fn new() -> Self
        ensures { result ≡ record { spent = 0; at = 0 } }
    {
        Spending { spent: 0, at: 0 }
    }

    /// What weighs on the link at this moment.
    fn left(&self, now: u64) -> u64
        ensures { result ≡ spec.left self.now.spent self.now.at now }
    {
        self.spent
            .saturating_sub(now.saturating_sub(self.at) / RELIEF)
    }

    /// So many milliseconds were spent by this moment.
    pub(crate) fn spend(&mut self, millis: u64, now: u64)
        ensures { self.new ≡ record {
          spent = spec.with_more (spec.left self.old.spent self.old.at now) millis;
          at = now;
        } }
    {
        self.spent = self.left(now).saturating_add(millis).min(MOST);
        self.at = now;
    }

    /// Whether much weighs on the link at this moment.
    pub(crate) fn is_much(&self, now: u64) -> bool
        ensures { result ≡ nat_le 1000 (spec.left self.now.spent self.now.at now) }
    {
        self.left(now) >= MUCH
    }

    /// Whether too much weighs on the link at this moment.
    pub(crate) fn is_too_much(&self, now: u64) -> bool
        ensures { result ≡ nat_le 2000 (spec.left self.now.spent self.now.at now) }
    {
        self.left(now) >= TOO_MUCH
    }
}

//! What tells the time.
ghost use Rattle.std.specs.Prelude.{◌≡◌, ◌-◌, ◌++◌, [], ◌∷◌, ℕ, List, Option, length};
ghost use Rattle.m2m_io.specs.Counts.{one_more};
ghost use Rattle.m2m_io.specs.Clock.{reading_after, told_readings};
ghost use Rattle.m2m_io.specs.Told.{Tells};

use std::marker::Model;

/// What tells the time, in seconds since 1970 in UTC.
pub trait Clock {
    /// The readings given so far, in order, where the clock tells them.
    ghost readings: { Self → Option (List ℕ) };

    /// The time now, which may be any number.
    fn now(&mut self) -> u64
        ensures { Tells (λ given. given ++ result ∷ []) (readings self.old) (readings self.new) };
}

/// A clock in memory. It tells its readings until it has had 2^64 - 1 calls.
#[derive(Debug, Drop)]
pub struct MemClock {
    readings: Vec<u64>,
    made: u64,
}

impl Model for MemClock {
    ghost use Rattle.m2m_io.specs.Clock.{ClockData};

    ghost Value = { ClockData };

    ghost view = { λ c. record { set = c.readings.items; made = c.made } };
}

impl MemClock {
    /// A clock that gives these readings in order, and the last one again and again; 0 where there
    /// is none.
    pub fn new(readings: Vec<u64>) -> Self
        ensures set { result.set ≡ readings.items }
        ensures made { result.made ≡ 0 }
    {
        MemClock { readings, made: 0 }
    }

    fn next_reading(&self) -> u64
        ensures { result ≡ reading_after self.now.set self.now.made }
    {
        let last = self.readings.len().saturating_sub(1);
        let place = (self.made as usize).min(last);
        self.readings.get(place).copied().unwrap_or(0)
    }
}

impl Clock for MemClock {
    ghost readings = { told_readings };

    fn now(&mut self) -> u64
        ensures told { Tells (λ given. given ++ result ∷ []) (told_readings self.old)
            (told_readings self.new) }
        ensures reading { result ≡ reading_after self.old.set self.old.made }
        ensures set { self.new.set ≡ self.old.set }
        ensures made { self.new.made ≡ one_more self.old.made }
    {
        let reading = self.next_reading();
        self.made = self.made.saturating_add(1);
        reading
    }
}

//! The system's clock, and the time that passes.
ghost use Rattle.std.specs.Prelude.{◌≡◌, ◌<◌, ◌≤◌, ◌*◌, None, IfSome};
ghost use Rattle.std.specs.Duration.{as_nanos};

use crate::log::Log;
use m2m_io::Clock;
use std::io::Eprint;
use std::time;
use std::time::Duration;

/// The system's clock. Where it can't be read, the reading is 0.
#[derive(Drop)]
pub struct SystemClock<R> {
    rt: R,
    /// On this log the figures are said, once they are due.
    log: Option<Log<R>>,
}

impl<R: time::Clock + Eprint + Copy + Drop> SystemClock<R> {
    /// The clock of the runtime.
    pub fn new(rt: R) -> Self
        ensures silent { ⟦<SystemClock<R> as Clock>⟧.readings result ≡ None }
    {
        SystemClock { rt, log: None }
    }

    /// Such a clock that sees at each reading whether the figures of a log are due, and says them
    /// then. It is for who reads it often, and holds nobody up.
    pub fn telling(log: Log<R>) -> Self
        ensures silent { ⟦<SystemClock<R> as Clock>⟧.readings result ≡ None }
    {
        SystemClock {
            rt: log.runtime(),
            log: Some(log),
        }
    }
}

impl<R: time::Clock + Eprint + Copy + Drop> Clock for SystemClock<R> {
    ghost readings = { λ _. None };

    fn now(&mut self) -> u64 {
        if let Some(log) = &self.log {
            log.say_figures();
        }
        match self.rt.since_1970() {
            Ok(time) => time.as_secs(),
            Err(_) => 0,
        }
    }
}

/// The time since some start; none where it can't be read.
pub(crate) fn since_start<R: time::Clock>(rt: &R) -> Duration {
    match rt.monotonic() {
        Ok(time) => time,
        Err(_) => Duration::ZERO,
    }
}

pub(crate) fn millis_of(time: Duration) -> u64 {
    time.as_secs()
        .saturating_mul(1_000)
        .saturating_add(time.subsec_millis() as u64)
}

/// The moment, in milliseconds since some start that stays; it never goes back.
pub fn millis_now<R: time::Clock>(rt: &R) -> u64 {
    millis_of(since_start(rt))
}

/// What is left of so many milliseconds since this moment; None where nothing is.
pub fn time_left<R: time::Clock>(rt: &R, begun: u64, millis: u64) -> Option<Duration>
    ensures { IfSome result (λ left. (0 < as_nanos left) × (as_nanos left ≤ millis * 1000000)) }
{
    let gone = millis_now(rt).saturating_sub(begun);
    let left = millis.saturating_sub(gone);
    if left > 0 {
        Some(Duration::from_millis(left))
    } else {
        None
    }
}

//! A door that is shut once an answer was lost.
ghost use Rattle.std.specs.Prelude.{◌≡◌, ◌+◌};

use crate::LossSignal;
use m2m_io::{Door, Failed};
use std::sync::Arc;

/// A door that fails once a signal is raised, and else is the one behind it.
#[derive(Drop)]
pub struct LossDoor<D> {
    behind: D,
    signal: Arc<LossSignal>,
    faults: u64,
}

impl<D> LossDoor<D> {
    /// This door, until the signal is raised.
    pub fn new(behind: D, signal: Arc<LossSignal>) -> LossDoor<D>
        ensures behind { result.behind ≡ behind }
        ensures faults { result.faults ≡ 0 }
    {
        LossDoor {
            behind,
            signal,
            faults: 0,
        }
    }
}

impl<D: Door> Door for LossDoor<D> {
    type Conn = D::Conn;

    ghost opened = { λ d. D.opened d.behind };

    ghost given = { λ d. D.given d.behind };

    ghost ended = { λ d. D.ended d.behind };

    ghost faults = { λ d. D.faults d.behind + d.faults };

    fn open(&mut self, at: &[u8]) -> Result<(), Failed> {
        self.behind.open(at)
    }

    fn next(&mut self) -> Result<Option<D::Conn>, Failed> {
        if self.signal.is_raised() {
            self.faults = self.faults.saturating_add(1);
            return Err(Failed);
        }
        self.behind.next()
    }
}

//! The signal that an answer was lost.
use std::sync::atomic::{AtomicU64, Ordering};

/// A signal that an answer was lost, as the journal has failed.
#[derive(Drop)]
pub struct LossSignal {
    lost: AtomicU64,
}

impl LossSignal {
    /// A signal that wasn't raised yet.
    pub fn new() -> LossSignal {
        LossSignal {
            lost: AtomicU64::new(0),
        }
    }

    /// Says that an answer was lost.
    pub fn raise(&self) {
        self.lost.store(1, Ordering::SeqCst);
    }

    /// Whether that was said.
    pub fn is_raised(&self) -> bool {
        self.lost.load(Ordering::SeqCst) > 0
    }
}

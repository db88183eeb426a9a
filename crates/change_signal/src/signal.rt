//! The signal.
use std::sync::Wait;
use std::sync::atomic::{AtomicU64, Ordering};
use std::thread::Parker;
use std::time::Duration;

/// No wait is longer than so many milliseconds, its rest aside.
const LONGEST_WAIT: u64 = 100;

/// Who waits rests for so many microseconds first: what is signalled meanwhile ends the wait behind
/// them, and takes no call of the system.
const REST: u64 = 200;

/// A signal that something may have changed. One thread waits at it, and others give it.
#[derive(Drop)]
pub struct ChangeSignal {
    /// Whether nobody asks any more.
    ended: AtomicU64,
    waiting: Parker,
}

impl ChangeSignal {
    /// A signal that wasn't given yet.
    pub fn new() -> ChangeSignal {
        ChangeSignal {
            ended: AtomicU64::new(0),
            waiting: Parker::new(),
        }
    }

    /// Says that something may have changed, and ends the wait behind its rest, or the next one.
    pub fn raise(&self) {
        self.waiting.unpark();
    }

    /// Says that nobody asks any more, and ends the wait at once.
    pub fn end(&self) {
        self.ended.store(1, Ordering::SeqCst);
        self.ended.wake_one();
        self.waiting.unpark();
    }

    /// Waits until something may have changed, or nobody asks any more, for a tenth of a second at
    /// most. Tells whether anybody still asks.
    pub fn wait<R: Wait>(&self, rt: &R) -> bool {
        if self.ended.load(Ordering::SeqCst) > 0 {
            return false;
        }
        self.ended.park_timeout(rt, 0, Duration::from_micros(REST));
        self.waiting
            .park_timeout(rt, Duration::from_millis(LONGEST_WAIT));
        self.ended.load(Ordering::SeqCst) == 0
    }
}

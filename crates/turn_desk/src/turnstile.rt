//! Where those wait who come to a desk while another one asks.
use std::hint::spin_loop;
use std::sync::Wait;
use std::sync::atomic::{AtomicU64, Ordering};

/// Somebody was let in.
const TAKEN: u64 = 1;

/// Somebody who slept was woken, and isn't let in yet.
const WOKEN: u64 = 2;

/// By so much the word grows for each one who sleeps.
const SLEEPER: u64 = 4;

/// So often one looks whether it is let in, before it sleeps.
const LOOKS: u32 = 200;

/// Lets one in at a time, whoever comes first when it is free. One who comes while it is taken looks
/// for a while and sleeps then. Of those who sleep one is woken at a time, when it becomes free.
#[derive(Drop)]
pub(crate) struct Turnstile {
    word: AtomicU64,
}

impl Turnstile {
    /// One that is free.
    pub(crate) fn new() -> Turnstile {
        Turnstile {
            word: AtomicU64::new(0),
        }
    }

    /// Replaces the word, if it is still the one that was seen.
    fn replace(&self, seen: u64, new: u64) -> bool {
        self.word
            .compare_exchange(seen, new, Ordering::SeqCst, Ordering::SeqCst)
            .is_ok()
    }

    /// Looks for a while. Tells whether it was let in.
    fn look(&self) -> bool {
        for _ in 0..LOOKS {
            let seen = self.word.load(Ordering::SeqCst);
            if seen & TAKEN == 0 && self.replace(seen, seen | TAKEN) {
                return true;
            }
            spin_loop();
        }
        false
    }

    /// Is let in, or counted as one who sleeps. Tells whether it was let in.
    fn enlist<R: Wait>(&self, rt: &R) -> bool {
        for _ in rt.forever() {
            let seen = self.word.load(Ordering::SeqCst);
            if seen & TAKEN == 0 {
                if self.replace(seen, seen | TAKEN) {
                    return true;
                }
            } else if self.replace(seen, seen.wrapping_add(SLEEPER)) {
                return false;
            }
        }
        unreachable!()
    }

    /// Waits until it is let in.
    pub(crate) fn enter<R: Wait>(&self, rt: &R) {
        if self.look() || self.enlist(rt) {
            return;
        }
        for _ in rt.forever() {
            let seen = self.word.load(Ordering::SeqCst);
            if seen & TAKEN == 0 {
                let taken = (seen & !WOKEN | TAKEN).wrapping_sub(SLEEPER);
                if self.replace(seen, taken) {
                    return;
                }
            } else if seen & WOKEN != 0 {
                self.replace(seen, seen & !WOKEN);
            } else {
                self.word.park(rt, (seen & 0xffff_ffff) as u32);
            }
        }
        unreachable!()
    }

    /// Lets the next one in. It wakes one who sleeps, unless one is awake already.
    pub(crate) fn leave<R: Wait>(&self, rt: &R) {
        for _ in rt.forever() {
            let seen = self.word.load(Ordering::SeqCst);
            let free = seen & !TAKEN;
            if seen < SLEEPER || seen & WOKEN != 0 {
                if self.replace(seen, free) {
                    return;
                }
            } else if self.replace(seen, free | WOKEN) {
                self.word.wake_one();
                return;
            }
        }
        unreachable!()
    }
}

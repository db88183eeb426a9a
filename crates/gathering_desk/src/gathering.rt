//! Where those wait who ask at one desk.
use crate::group::{Group, Part};
use std::sync::atomic::{AtomicU64, Ordering};
use std::sync::{Mutex, MutexGuard, Wait};
use std::thread::yield_now;
use std::time::Duration;

/// Who waits for its turn, or for some to come back, lets others run so often at most. Then it
/// sleeps, or settles.
const MOST_YIELDS: u64 = 200;

/// Nobody sleeps longer than so many milliseconds before it looks again.
const LONGEST_SLEEP: u64 = 50;

/// Nobody sleeps more often than so for one thing.
const MOST_SLEEPS: u64 = 20;

/// A place at which some sleep until they are called.
#[derive(Drop)]
struct Place {
    calls: AtomicU64,
}

impl Place {
    fn new() -> Place {
        Place {
            calls: AtomicU64::new(0),
        }
    }

    /// How often somebody was called so far.
    fn calls(&self) -> u64 {
        self.calls.load(Ordering::SeqCst)
    }

    /// Sleeps until somebody is called, for a while. Doesn't where that was since so many calls.
    fn sleep<R: Wait>(&self, rt: &R, calls: u64) {
        let longest = Duration::from_millis(LONGEST_SLEEP);
        self.calls
            .park_timeout(rt, (calls & 0xffff_ffff) as u32, longest);
    }

    fn call_one(&self) {
        self.calls.fetch_add(1, Ordering::SeqCst);
        self.calls.wake_one();
    }

    fn call_all(&self) {
        self.calls.fetch_add(1, Ordering::SeqCst);
        self.calls.wake_all();
    }
}

/// Those who ask at desks over one desk. Who asks for what may change something is let in, two at a
/// time. Who has to wait for the disk sleeps until one has settled for all. Nothing is stated of
/// it: it only decides who waits where.
#[derive(Drop)]
pub struct Gathering {
    group: Mutex<Group>,
    turn: Mutex<()>,
    door: Place,
    settled: Place,
}

impl Gathering {
    /// Nobody asks yet.
    pub fn new() -> Gathering {
        Gathering {
            group: Mutex::new(Group::new()),
            turn: Mutex::new(()),
            door: Place::new(),
            settled: Place::new(),
        }
    }

    /// Comes to ask for what may change something, and waits until it is let in.
    pub(crate) fn come<R: Wait>(&self, rt: &R) {
        self.group.lock(rt).come();
        for _ in 0..MOST_SLEEPS {
            let calls = self.door.calls();
            if self.group.lock(rt).let_in() {
                return;
            }
            self.door.sleep(rt, calls);
        }
        self.group.lock(rt).enter();
    }

    /// The turn to ask for an event.
    pub(crate) fn take_turn<R: Wait>(&self, rt: &R) -> MutexGuard<'_, ()> {
        for _ in 0..MOST_YIELDS {
            if let Some(turn) = self.turn.try_lock() {
                return turn;
            }
            yield_now();
        }
        self.turn.lock(rt)
    }

    /// Goes, having come and asked.
    fn go<R: Wait>(&self, rt: &R) {
        let (calls_in, calls_leader) = self.group.lock(rt).go();
        if calls_in {
            self.door.call_one();
        }
        if calls_leader {
            self.settled.call_one();
        }
    }

    /// Has had its turn to ask. Who has to wait for the disk then stays, also where it didn't come
    /// before.
    pub(crate) fn end_turn<R: Wait>(&self, rt: &R, came: bool, stays: bool) {
        if came && !stays {
            self.go(rt);
        }
        if stays && !came {
            self.group.lock(rt).ask();
        }
    }

    /// Begins to wait, having asked. Tells for the end of which round.
    fn begin_to_wait<R: Wait>(&self, rt: &R) -> u64 {
        let (round, calls_in) = self.group.lock(rt).wait();
        if calls_in {
            self.door.call_one();
        }
        round
    }

    /// Looks for a while whether more come. Tells whether none do, so that who looks settles.
    fn linger<R: Wait>(&self, rt: &R) -> bool {
        for _ in 0..MOST_YIELDS {
            if !self.group.lock(rt).lacks_some() {
                break;
            }
            yield_now();
        }
        self.group.lock(rt).lead()
    }

    /// Waits until what was asked for is on the disk, or is to be put there.
    pub(crate) fn wait<R: Wait>(&self, rt: &R) -> Part {
        let round = self.begin_to_wait(rt);
        for _ in 0..MOST_SLEEPS {
            let calls = self.settled.calls();
            let part = self.group.lock(rt).next_part(round);
            match part {
                Part::Waits => self.settled.sleep(rt, calls),
                Part::Lingers => {
                    if self.linger(rt) {
                        return Part::Leads;
                    }
                }
                Part::Leads | Part::Follows | Part::Parts => return part,
            }
        }
        self.group.lock(rt).part(round)
    }

    /// Has settled for all that wait.
    pub(crate) fn end_round<R: Wait>(&self, rt: &R) {
        let mut group = self.group.lock(rt);
        group.end_round();
        let opens = group.is_open();
        drop(group);
        self.settled.call_all();
        if opens {
            self.open();
        }
    }

    /// Leaves, having found that it is on the disk. Lets others run first that leave as well.
    pub(crate) fn leave<R: Wait>(&self, rt: &R) {
        let mut group = self.group.lock(rt);
        let calls_leader = group.leave();
        let opens = group.is_open();
        drop(group);
        if calls_leader {
            self.settled.call_one();
        }
        if opens {
            self.open();
        } else {
            yield_now();
        }
    }

    /// Calls the first ones in that have come.
    fn open(&self) {
        self.door.call_one();
        self.door.call_one();
    }
}

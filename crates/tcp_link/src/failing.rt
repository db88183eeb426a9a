//! Destinations at which exchanges failed.
ghost use Rattle.std.specs.Prelude.{◌≡◌, ◌<◌, ◌≤◌, ◌+◌, ◌-◌, ◌^◌, ◌||◌, min, nat_lt, true, false};
ghost use Rattle.std.specs.Prelude.{Some, None, IfSome, vec_len, if◌then◌else◌};
ghost use Rattle.tcp_link.specs.Failing as spec;

use crate::connecting::HostPort;
use std::alloc::{AllocError as OutOfMemory, Global};

/// For so many milliseconds a destination is left alone that is mute for the first time,
const FIRST_WAIT: u64 = 1_000;

/// and for no more than this.
const LONGEST_WAIT: u64 = 60_000;

/// So many milliseconds pass between two lines on one destination.
const SILENCE: u64 = 60_000;

/// At most so many destinations are remembered.
const MOST_DESTINATIONS: usize = 1_024;

/// A destination at which exchanges failed.
#[derive(Debug, Drop)]
pub(crate) struct Destination {
    name: String,
    port: u16,
    /// For how many milliseconds it was left alone last; 0 where it wasn't mute since.
    wait: u64,
    /// Until this moment it is left alone.
    until: u64,
    /// It took long the last time that it was waited for.
    is_slow: bool,
    /// It has answered since it was mute last.
    has_answered: bool,
    /// How many exchanges failed that weren't said yet.
    failed: u64,
    /// Before this moment nothing more is said of it.
    silent_until: u64,
}

/// How long a destination is left alone that is mute, and was left alone so long before.
fn next_wait(wait: u64) -> u64
    ensures { result ≡ spec.next_wait wait }
{
    wait.saturating_mul(2).max(FIRST_WAIT).min(LONGEST_WAIT)
}

impl Destination {
    /// A destination of which nothing is known.
    fn new(alloc: Global, host_port: HostPort) -> Result<Self, OutOfMemory> {
        Ok(Destination {
            name: String::from_str(alloc, host_port.name)?,
            port: host_port.port,
            wait: 0,
            until: 0,
            is_slow: false,
            has_answered: false,
            failed: 0,
            silent_until: 0,
        })
    }

    /// The name of its host.
    pub(crate) fn name(&self) -> &str {
        self.name.as_str()
    }

    pub(crate) fn port(&self) -> u16
        ensures { result ≡ self.now.port }
    {
        self.port
    }

    fn is_at(&self, host_port: HostPort) -> bool {
        let own = HostPort {
            name: self.name.as_str(),
            port: self.port,
        };
        own.is_at(host_port)
    }

    /// Whether it is to be left alone at this moment.
    fn is_left_alone(&self, now: u64) -> bool
        ensures { result ≡ nat_lt now self.now.until }
    {
        now < self.until
    }

    /// Whether it gave no answer the last time that one was waited for to the end.
    fn is_mute(&self) -> bool
        ensures { result ≡ nat_lt 0 self.now.wait }
    {
        self.wait > 0
    }

    /// Whether it was mute or slow the last time.
    fn takes_long(&self) -> bool
        ensures { result ≡ (nat_lt 0 self.now.wait || self.now.is_slow) }
    {
        self.wait > 0 || self.is_slow
    }

    /// Counts an exchange that failed.
    fn count(&mut self)
        ensures { self.new ≡ record self.old { failed = min (self.old.failed + 1) (2 ^ 64 - 1) } }
    {
        self.failed = self.failed.saturating_add(1);
    }

    /// Leaves it alone for a while, since it was mute at this moment.
    fn leave_alone(&mut self, now: u64)
        ensures { let wait = spec.next_wait self.old.wait in
            self.new ≡ record self.old {
              wait = wait;
              until = spec.later now wait;
              has_answered = false;
            } }
    {
        self.has_answered = false;
        self.wait = next_wait(self.wait);
        self.until = now.saturating_add(self.wait);
    }

    /// It isn't mute.
    fn hear(&mut self)
        ensures { self.new ≡ record self.old { wait = 0; until = 0 } }
    {
        self.wait = 0;
        self.until = 0;
    }

    /// It has answered, late.
    fn note_late(&mut self)
        ensures { self.new ≡ record self.old { wait = 0; until = 0; has_answered = true } }
    {
        self.hear();
        self.has_answered = true;
    }

    /// It has answered soon: it is neither mute nor slow.
    fn welcome(&mut self)
        ensures { self.new
            ≡ record self.old { wait = 0; until = 0; is_slow = false; has_answered = true } }
    {
        self.note_late();
        self.is_slow = false;
    }

    /// It is slow.
    fn find_slow(&mut self)
        ensures { self.new ≡ record self.old { is_slow = true } }
    {
        self.is_slow = true;
    }

    /// How many exchanges failed that weren't said, where that may be said at this moment.
    pub(crate) fn due(&self, now: u64) -> Option<u64>
        ensures { result ≡ (if spec.is_due self.now.failed self.now.silent_until now
            then Some self.now.failed else None) }
    {
        if self.failed == 0 || now < self.silent_until {
            return None;
        }
        Some(self.failed)
    }

    /// The exchanges that failed were said at this moment.
    pub(crate) fn note_said(&mut self, now: u64)
        ensures { self.new
            ≡ record self.old { failed = 0; silent_until = spec.later now spec.silence } }
    {
        self.failed = 0;
        self.silent_until = now.saturating_add(SILENCE);
    }

    /// How many exchanges failed that weren't said.
    pub(crate) fn unsaid(&self) -> u64
        ensures { result ≡ self.now.failed }
    {
        self.failed
    }

    /// Whether something is still to be known of it.
    fn matters(&self, now: u64) -> bool
        ensures { result ≡ (self.now.is_slow
            || spec.has_failed self.now.wait self.now.failed self.now.silent_until now) }
    {
        self.is_slow || self.has_failed(now)
    }

    /// Whether it is left alone, or was before, or has failed lately.
    fn has_failed(&self, now: u64) -> bool
        ensures { result
            ≡ spec.has_failed self.now.wait self.now.failed self.now.silent_until now }
    {
        self.wait > 0 || self.failed > 0 || now < self.silent_until
    }
}

/// The destinations at which exchanges failed.
#[derive(Debug, Drop)]
pub(crate) struct Failing {
    list: Vec<Destination>,
}

impl Failing {
    /// None failed yet.
    pub(crate) fn new(alloc: Global) -> Self {
        Failing {
            list: Vec::new(alloc),
        }
    }

    /// Whether this host is to be left alone at this moment.
    pub(crate) fn is_left_alone(&self, host_port: HostPort, now: u64) -> bool {
        self.list.iter().any(|destination| destination.is_at(host_port)
            && destination.is_left_alone(now))
    }

    /// Whether this host gave no answer the last time that one was waited for to the end.
    pub(crate) fn is_mute(&self, host_port: HostPort) -> bool {
        self.list.iter().any(|destination| destination.is_at(host_port) && destination.is_mute())
    }

    /// Whether this host was mute or slow the last time.
    pub(crate) fn takes_long(&self, host_port: HostPort) -> bool {
        self.list.iter().any(|destination| destination.is_at(host_port) && destination.takes_long())
    }

    /// Whether this host is remembered and has answered since it was mute last.
    pub(crate) fn has_answered(&self, host_port: HostPort) -> bool {
        self.list.iter().any(|destination| destination.is_at(host_port) && destination.has_answered)
    }

    /// This host isn't mute: it isn't left alone any longer.
    fn hear(&mut self, host_port: HostPort) {
        for destination in &mut self.list {
            if destination.is_at(host_port) {
                destination.hear();
            }
        }
    }

    /// This host has answered late: it isn't left alone any longer.
    pub(crate) fn note_late(&mut self, host_port: HostPort) {
        for destination in &mut self.list {
            if destination.is_at(host_port) {
                destination.note_late();
            }
        }
    }

    /// This host has answered soon: it is neither left alone any longer, nor slow.
    pub(crate) fn welcome(&mut self, host_port: HostPort) {
        for destination in &mut self.list {
            if destination.is_at(host_port) {
                destination.welcome();
            }
        }
    }

    /// This host took long. A destination of which nothing more is remembered comes back.
    pub(crate) fn find_slow(&mut self, alloc: Global, host_port: HostPort) -> Option<Destination> {
        let oldest = self.remember(alloc, host_port);
        for destination in &mut self.list {
            if destination.is_at(host_port) {
                destination.find_slow();
            }
        }
        oldest
    }

    /// Remembers this host, if there is memory. The destination that has to make room for it comes
    /// back, where there are too many.
    fn remember(&mut self, alloc: Global, host_port: HostPort) -> Option<Destination> {
        if self
            .list
            .iter()
            .any(|destination| destination.is_at(host_port))
        {
            return None;
        }
        let oldest = if self.list.len() < MOST_DESTINATIONS {
            None
        } else {
            Some(self.list.remove(0))
        };
        if let Ok(destination) = Destination::new(alloc, host_port) {
            let _ = self.list.push(destination);
        }
        oldest
    }

    /// Counts an exchange with this host that failed. A destination of which nothing more is
    /// remembered comes back.
    pub(crate) fn count(&mut self, alloc: Global, host_port: HostPort) -> Option<Destination> {
        let oldest = self.remember(alloc, host_port);
        for destination in &mut self.list {
            if destination.is_at(host_port) {
                destination.count();
            }
        }
        oldest
    }

    /// Counts an exchange that this host refused, or broke off: it isn't mute. A destination of
    /// which nothing more is remembered comes back.
    pub(crate) fn refuse(&mut self, alloc: Global, host_port: HostPort) -> Option<Destination> {
        self.hear(host_port);
        self.count(alloc, host_port)
    }

    /// Counts an exchange with this host, which was mute at this moment: it is left alone, unless
    /// it is already. A destination of which nothing more is remembered comes back.
    pub(crate) fn leave_alone(
        &mut self,
        alloc: Global,
        host_port: HostPort,
        now: u64,
    ) -> Option<Destination> {
        let oldest = self.count(alloc, host_port);
        for destination in &mut self.list {
            if destination.is_at(host_port) && !destination.is_left_alone(now) {
                destination.leave_alone(now);
            }
        }
        oldest
    }

    /// Forgets the destinations of which nothing is to be known any more.
    pub(crate) fn tidy(&mut self, now: u64) {
        self.list.retain(|destination| destination.matters(now));
    }

    /// How many destinations have failed lately.
    pub(crate) fn count_failed(&self, now: u64) -> usize {
        self.list
            .iter()
            .filter(|destination| destination.has_failed(now))
            .count()
    }

    /// The destinations, to say their faults.
    pub(crate) fn destinations(&mut self) -> &mut [Destination] {
        &mut self.list
    }
}

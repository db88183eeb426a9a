//! Answers that are awaited beside other exchanges.
ghost use Rattle.std.specs.Prelude.{◌≡◌, min, nat_le};
ghost use Rattle.tcp_link.specs.Failing.{later};

use crate::answering::PATIENCE;
use crate::connecting::{Call, HostPort};
use std::alloc::{AllocError as OutOfMemory, Global};
use std::io::{ErrorKind, Read};

/// At most so many answers of one destination are awaited,
const MOST_OF_ONE: usize = 8;

/// so many of one that is slow and has answered,
const MOST_OF_A_SLOW_ONE: usize = 64;

/// and so many of all.
const MOST_AWAITED: usize = 256;

/// So many bytes of an answer are read, whose first says that it came.
const PIECE: usize = 1_024;

/// What has come of a request that was sent.
#[derive(Clone, Copy, Debug, PartialEq, Eq)]
pub(crate) enum Fate {
    /// Nothing yet.
    Open,
    /// Its answer.
    Answered,
    /// The end of its connection.
    Ended,
    /// Nothing, and it isn't waited for any longer.
    Mute,
}

/// A request that was sent, and not answered yet when it was looked at last.
#[derive(Drop)]
pub(crate) struct Awaited {
    name: String,
    port: u16,
    call: Call,
    /// The moment from which on its answer is awaited, in milliseconds.
    since: u64,
    fate: Fate,
}

impl Awaited {
    /// An answer of this host that is awaited from this moment on.
    fn new(
        alloc: Global,
        host_port: HostPort,
        call: Call,
        since: u64,
    ) -> Result<Self, OutOfMemory> {
        Ok(Awaited {
            name: String::from_str(alloc, host_port.name)?,
            port: host_port.port,
            call,
            since,
            fate: Fate::Open,
        })
    }

    /// The host that was asked.
    pub(crate) fn host_port(&self) -> HostPort<'_> {
        HostPort {
            name: self.name.as_str(),
            port: self.port,
        }
    }

    /// What has come of it.
    pub(crate) fn fate(&self) -> Fate
        ensures { result ≡ self.now.fate }
    {
        self.fate
    }

    /// Whether the other side has said nothing for too long.
    fn is_late(&self, now: u64) -> bool
        ensures { result ≡ nat_le (later self.now.since PATIENCE) now }
    {
        self.since.saturating_add(PATIENCE) <= now
    }

    /// The moment at which it was given up, where it is by this one.
    pub(crate) fn given_up_at(&self, now: u64) -> u64
        ensures { result ≡ min (later self.now.since PATIENCE) now }
    {
        self.since.saturating_add(PATIENCE).min(now)
    }

    /// Looks what has come of it, without waiting.
    fn look(&mut self, now: u64) {
        let mut buf = [0u8; PIECE];
        self.fate = match self.call.stream.read(&mut buf) {
            Ok(0) => Fate::Ended,
            Ok(_) => Fate::Answered,
            Err(error) if error.kind() != ErrorKind::WouldBlock => Fate::Ended,
            Err(_) if self.is_late(now) => Fate::Mute,
            Err(_) => Fate::Open,
        };
    }
}

/// The answers that are awaited, those that are awaited longest first.
#[derive(Drop)]
pub(crate) struct Awaiting {
    list: Vec<Awaited>,
}

impl Awaiting {
    /// None is awaited yet.
    pub(crate) fn new(alloc: Global) -> Self {
        Awaiting {
            list: Vec::new(alloc),
        }
    }

    /// How many answers of this host are awaited.
    fn count_at(&self, host_port: HostPort) -> usize {
        self.list
            .iter()
            .filter(|one| one.host_port().is_at(host_port))
            .count()
    }

    /// Whether an answer of this host is awaited.
    pub(crate) fn has(&self, host_port: HostPort) -> bool {
        self.count_at(host_port) > 0
    }

    /// Whether as many answers of this host are awaited as may be, of one that is slow and has
    /// answered, or of another one. Where half of all places are taken, that is one of each other.
    pub(crate) fn is_full_at(&self, host_port: HostPort, has_answered: bool) -> bool {
        let most = if has_answered {
            MOST_OF_A_SLOW_ONE
        } else if self.list.len() < MOST_AWAITED / 2 {
            MOST_OF_ONE
        } else {
            1
        };
        self.count_at(host_port) >= most
    }

    /// Awaits an answer of this host from this moment on, at a connection. Tells whether there is
    /// room for it.
    pub(crate) fn keep(
        &mut self,
        alloc: Global,
        host_port: HostPort,
        call: Call,
        since: u64,
    ) -> bool {
        if self.list.len() >= MOST_AWAITED || call.stream.set_nonblocking(true).is_err() {
            return false;
        }
        match Awaited::new(alloc, host_port, call, since) {
            Ok(one) => self.list.push(one).is_ok(),
            Err(_) => false,
        }
    }

    /// Looks what has come of each.
    pub(crate) fn look(&mut self, now: u64) {
        for one in &mut self.list {
            one.look(now);
        }
    }

    /// All of them.
    pub(crate) fn all(&self) -> &[Awaited] {
        &self.list
    }

    /// Lets those go of which something has come, or nothing will.
    pub(crate) fn tidy(&mut self) {
        self.list.retain(|one| one.fate == Fate::Open);
    }
}

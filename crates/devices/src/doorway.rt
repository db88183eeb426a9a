//! What those who have a connection know of the listening socket.
use libc::net::{POLLERR, POLLHUP, POLLIN, POLLRDHUP, poll};
use libc::types::pollfd;
use std::net::TcpStream;
use std::os::fd::AsRawFd;
use std::sync::atomic::{AtomicU64, Ordering};

/// No more than so many idle connections look at the listening socket at one time.
const MOST_WATCHERS: u64 = 8;

/// A worker that isn't busy is back at the listening socket within so many milliseconds.
pub(crate) const ON_ITS_WAY: u64 = 50;

/// A client that finds no worker for so many milliseconds is spoken of.
const A_WHILE: u64 = 1_000;

/// What stands for no descriptor.
const NO_DESCRIPTOR: i32 = -1;

/// Who came while a connection waited for its client.
#[derive(Clone, Copy, Debug, PartialEq, Eq)]
pub(crate) enum Visitor {
    /// The client has said something, or is gone.
    Client,
    /// Another client waits at the listening socket.
    Newcomer,
    Nobody,
}

/// What a look finds to be read of a connection.
#[derive(Clone, Copy, Debug, PartialEq, Eq)]
pub(crate) enum Seen {
    Nothing,
    Bytes,
    /// All that ever comes, or that it failed.
    Last,
}

/// What is known of the listening socket beside the worker that takes its clients.
#[derive(Drop)]
pub(crate) struct Doorway {
    /// One more than the descriptor that has something to read where a client waits; 0 where there
    /// is none.
    descriptor: AtomicU64,
    /// Whether a worker waits for a client there.
    takers: AtomicU64,
    /// How many clients were let in.
    given: AtomicU64,
    /// How many idle connections look at the socket.
    watchers: AtomicU64,
    /// One more than how many clients were let in when a connection was last closed for another.
    closed_at: AtomicU64,
    /// The moment from which on no worker waits, in milliseconds; 0 where none has waited yet.
    left_since: AtomicU64,
    /// The moment at which the message began that is unfinished longest, of those that wait for
    /// more since a client was let in last; the last of all moments where none does.
    slowest: AtomicU64,
    /// 1 where a client waits who was seen already when a client was let in last, and else 0.
    held: AtomicU64,
    /// 1 from the moment on at which the server is to end, and 0 before.
    shut: AtomicU64,
}

/// Waits for so many milliseconds until one of two descriptors has something to read.
fn poll_both(conn: i32, door: i32, millis: u64) -> Visitor {
    let mut fds = [
        pollfd {
            fd: conn,
            events: POLLIN,
            revents: 0,
        },
        pollfd {
            fd: door,
            events: POLLIN,
            revents: 0,
        },
    ];
    if poll(&mut fds, millis.min(60_000) as i32) <= 0 {
        Visitor::Nobody
    } else if fds[0].revents != 0 {
        Visitor::Client
    } else {
        Visitor::Newcomer
    }
}

/// Whether a descriptor has something to read.
pub(crate) fn is_readable(descriptor: i32) -> bool {
    poll_both(NO_DESCRIPTOR, descriptor, 0) == Visitor::Newcomer
}

/// What there is to be read of a connection.
pub(crate) fn look_for(stream: &TcpStream) -> Seen {
    let mut fds = [pollfd {
        fd: stream.as_raw_fd(),
        events: POLLIN | POLLRDHUP,
        revents: 0,
    }];
    if poll(&mut fds, 0) <= 0 || fds[0].revents == 0 {
        Seen::Nothing
    } else if fds[0].revents & (POLLRDHUP | POLLHUP | POLLERR) != 0 {
        Seen::Last
    } else {
        Seen::Bytes
    }
}

/// Waits for so many milliseconds until a client has said something.
pub(crate) fn await_client(stream: &TcpStream, millis: u64) -> Visitor {
    poll_both(stream.as_raw_fd(), NO_DESCRIPTOR, millis)
}

impl Doorway {
    /// That of no socket yet.
    pub(crate) fn new() -> Self {
        Doorway {
            descriptor: AtomicU64::new(0),
            takers: AtomicU64::new(0),
            given: AtomicU64::new(0),
            watchers: AtomicU64::new(0),
            closed_at: AtomicU64::new(0),
            left_since: AtomicU64::new(0),
            slowest: AtomicU64::new(u64::MAX),
            held: AtomicU64::new(0),
            shut: AtomicU64::new(0),
        }
    }

    /// This descriptor has something to read where a client waits.
    pub(crate) fn open(&self, descriptor: i32) {
        let descriptor = descriptor.max(0) as u64;
        self.descriptor
            .store(descriptor.saturating_add(1), Ordering::SeqCst);
    }

    fn descriptor(&self) -> i32 {
        match self.descriptor.load(Ordering::SeqCst) {
            0 => NO_DESCRIPTOR,
            one_more => i32::try_from(one_more.saturating_sub(1)).unwrap_or(NO_DESCRIPTOR),
        }
    }

    /// The server is to end.
    pub(crate) fn shut(&self) {
        self.shut.store(1, Ordering::SeqCst);
    }

    /// Whether the server is to end: no more clients are let in, and a connection ends where its
    /// next message would be read.
    pub(crate) fn is_shut(&self) -> bool {
        self.shut.load(Ordering::SeqCst) != 0
    }

    /// A worker waits for a client from now on.
    pub(crate) fn begin(&self) {
        self.takers.store(1, Ordering::SeqCst);
    }

    /// That worker has let a client in at this moment, or none.
    pub(crate) fn end(&self, given: u64, now: u64) {
        self.given.fetch_add(given, Ordering::SeqCst);
        self.left_since.store(now.max(1), Ordering::SeqCst);
        self.slowest.store(u64::MAX, Ordering::SeqCst);
        self.takers.store(0, Ordering::SeqCst);
    }

    /// How many clients were let in.
    pub(crate) fn given(&self) -> u64 {
        self.given.load(Ordering::SeqCst)
    }

    /// Whether no worker waits for a client: all are busy, or one is on its way.
    pub(crate) fn is_left(&self) -> bool {
        self.takers.load(Ordering::SeqCst) == 0
    }

    /// Whether a client waits who was seen already.
    pub(crate) fn hold(&self, has_waiting: bool) {
        self.held.store(has_waiting as u64, Ordering::SeqCst);
    }

    /// Whether a client waits.
    pub(crate) fn has_newcomer(&self) -> bool {
        self.held.load(Ordering::SeqCst) != 0 || is_readable(self.descriptor())
    }

    /// Whether no worker has waited for a client for a while before this moment, and one is there.
    pub(crate) fn was_full(&self, now: u64) -> bool {
        let since = self.left_since.load(Ordering::SeqCst);
        since > 0 && since.saturating_add(A_WHILE) < now && self.has_newcomer()
    }

    /// Waits for so many milliseconds until a client has said something. Where no worker takes
    /// newcomers, and not too many look for them already, it ends also where one is there.
    pub(crate) fn await_either(&self, stream: &TcpStream, millis: u64) -> Visitor {
        if !self.is_left() {
            return await_client(stream, millis);
        }
        if self.watchers.fetch_add(1, Ordering::SeqCst) >= MOST_WATCHERS {
            self.watchers.fetch_sub(1, Ordering::SeqCst);
            return await_client(stream, millis);
        }
        let visitor = poll_both(stream.as_raw_fd(), self.descriptor(), millis);
        self.watchers.fetch_sub(1, Ordering::SeqCst);
        visitor
    }

    /// Whether all workers have been busy since so many clients were let in, while another one
    /// waits.
    pub(crate) fn is_full_since(&self, given: u64) -> bool {
        self.is_left() && self.given() == given && self.has_newcomer()
    }

    /// Whether a connection is to be closed for the client that waits since so many were let in:
    /// one is, and no other.
    pub(crate) fn claim(&self, given: u64) -> bool {
        let one_more = given.saturating_add(1);
        self.closed_at.swap(one_more, Ordering::SeqCst) != one_more
    }

    /// A message that began at this moment waits for more.
    pub(crate) fn note_slow(&self, begun: u64) {
        if begun < self.slowest.load(Ordering::SeqCst) {
            self.slowest.store(begun, Ordering::SeqCst);
        }
    }

    /// It waits no longer.
    pub(crate) fn end_slow(&self, begun: u64) {
        if self.is_slowest(begun) {
            self.slowest.store(u64::MAX, Ordering::SeqCst);
        }
    }

    /// Whether no message that waits for more began before this moment.
    pub(crate) fn is_slowest(&self, begun: u64) -> bool {
        self.slowest.load(Ordering::SeqCst) == begun
    }
}

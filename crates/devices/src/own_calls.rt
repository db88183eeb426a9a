//! The connections that this program has opened to other hosts. What comes in over one of them
//! comes from this program itself: a request goes round.
use std::net::{IpAddr, SocketAddr, TcpStream};
use std::sync::Arc;
use std::sync::atomic::{AtomicU64, Ordering};

/// So many places there are for connections. One whose places are all taken isn't noted.
pub(crate) const MOST_CALLS: usize = 8_192;

/// A connection is noted at one of so many places, of which its ends say the first.
const PLACES: usize = 8;

/// An odd number whose bits look like chance.
const SPREAD: u64 = 0x9E37_79B9_7F4A_7C15;

/// A number for what a number stands for and one part more.
fn mixed(mark: u64, part: u64) -> u64 {
    let spread = (mark ^ part).wrapping_mul(SPREAD);
    spread ^ (spread >> 32)
}

/// A number for what a number stands for and these bytes.
fn with_bytes(mark: u64, bytes: &[u8]) -> u64 {
    let mut mark = mark;
    for byte in bytes {
        mark = mixed(mark, *byte as u64);
    }
    mark
}

/// A number for what a number stands for and one end of a connection. An address of IPv4 is the
/// same one where it is written as an address of IPv6.
fn with_end(mark: u64, end: SocketAddr) -> u64 {
    let mark = match end.ip().to_canonical() {
        IpAddr::V4(ip) => with_bytes(mark, &ip.octets()),
        IpAddr::V6(ip) => with_bytes(mark, &ip.octets()),
    };
    mixed(mark, end.port() as u64)
}

/// The number of a connection from one end to another. It is never 0, and two connections have
/// mostly two numbers.
fn mark_of(from: SocketAddr, to: SocketAddr) -> u64 {
    with_end(with_end(1, from), to).max(1)
}

/// The number of a connection that was opened here.
fn mark_of_opened(stream: &TcpStream) -> Option<u64> {
    let from = stream.local_addr().ok()?;
    let to = stream.peer_addr().ok()?;
    Some(mark_of(from, to))
}

/// The numbers of the connections that are open, each at its place; 0 where there is none.
#[derive(Drop)]
pub(crate) struct OwnCalls {
    open: AtomicU64,
    marks: Vec<AtomicU64>,
}

impl OwnCalls {
    /// None is open, and there are these places, which are 0.
    pub(crate) fn new(marks: Vec<AtomicU64>) -> Self {
        OwnCalls {
            open: AtomicU64::new(0),
            marks,
        }
    }

    /// One of the places of a number.
    fn place(mark: u64, turn: usize) -> usize {
        (mark as usize).wrapping_add(turn) % MOST_CALLS
    }

    /// Notes a number, and tells at which place.
    fn note(&self, mark: u64) -> Option<usize> {
        self.open.fetch_add(1, Ordering::SeqCst);
        for turn in 0..PLACES {
            let place = OwnCalls::place(mark, turn);
            if let Some(noted) = self.marks.get(place)
                && noted
                    .compare_exchange(0, mark, Ordering::SeqCst, Ordering::SeqCst)
                    .is_ok()
            {
                return Some(place);
            }
        }
        self.open.fetch_sub(1, Ordering::SeqCst);
        None
    }

    /// The connection that was noted at a place is no longer open.
    fn forget(&self, place: usize) {
        if let Some(noted) = self.marks.get(place) {
            noted.store(0, Ordering::SeqCst);
            self.open.fetch_sub(1, Ordering::SeqCst);
        }
    }

    fn has(&self, mark: u64) -> bool {
        (0..PLACES).any(|turn| self
            .marks
            .get(OwnCalls::place(mark, turn))
            .is_some_and(|noted| noted.load(Ordering::SeqCst) == mark))
    }

    /// Whether a connection that came in from this address was opened here.
    pub(crate) fn lead_back(&self, stream: &TcpStream, peer: SocketAddr) -> bool {
        if self.open.load(Ordering::SeqCst) == 0 {
            return false;
        }
        match stream.local_addr() {
            Ok(own) => self.has(mark_of(peer, own)),
            Err(_) => false,
        }
    }
}

/// A connection that this program has opened, as it is noted for the door. It has to be kept for as
/// long as the connection is open.
pub struct OwnCall {
    calls: Arc<OwnCalls>,
    place: usize,
}

impl Drop for OwnCall {
    fn drop(self) {
        let OwnCall { calls, place } = self;
        calls.forget(place);
    }
}

impl OwnCall {
    /// Notes a connection, where there is a place for it.
    pub(crate) fn new(calls: &Arc<OwnCalls>, stream: &TcpStream) -> Option<Self> {
        let mark = mark_of_opened(stream)?;
        let calls = Arc::try_clone(calls).ok()?;
        let place = calls.note(mark)?;
        Some(OwnCall { calls, place })
    }
}

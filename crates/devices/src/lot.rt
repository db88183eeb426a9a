//! Connections that no worker has.
ghost use Rattle.std.specs.Prelude.{◌≡◌, None, Some, IfSome};
ghost use Rattle.std.specs.Option.{option_map};
ghost use Rattle.lru.specs.LruCache.{last_entry};

use crate::doorway::{Seen, look_for};
use libc::types::rlimit;
use libc::{RLIMIT_NOFILE, getrlimit};
use lru::LruCache;
use mio::unix::SourceFd;
use mio::{Interest, Registry, Token};
use std::alloc::{AllocError, Global};
use std::io;
use std::io::ErrorKind;
use std::net::{SocketAddr, TcpStream};
use std::os::fd::AsRawFd;
use std::sync::{Mutex, MutexGuard};
use std::thread::yield_now;

/// A look sees so many bytes. Who has sent as many gets a worker, whatever they are.
const MOST_SEEN: usize = 4_096;

/// After so many tries to take the lock, another thread may run before the next one.
const SPINS: u64 = 4;

/// Of all descriptors that the program may have, one in so many is left to what isn't a connection,
const LEFT: u64 = 8;

/// and no more than so many.
const MOST_LEFT: u64 = 1_024;

/// A connection that no worker has.
#[derive(Drop)]
pub(crate) struct Parked {
    pub(crate) stream: TcpStream,
    pub(crate) peer: SocketAddr,
    /// How many of its messages were answered.
    pub(crate) messages: u64,
    /// The moment in milliseconds at which its message began, where it has begun, and else the one
    /// from which on it is idle.
    pub(crate) since: u64,
    /// Whether a message has begun.
    pub(crate) has_begun: bool,
}

/// What came of a look at a connection.
#[derive(Drop)]
pub(crate) enum Found {
    /// It is to have a worker.
    Client(Parked),
    /// It has ended, or failed.
    Gone(Parked, Option<io::Error>),
    /// It stays.
    Stays,
}

/// Who has been idle longest.
#[derive(Drop)]
pub(crate) enum Idle {
    /// For too long, and it was taken away.
    Overdue(Parked),
    /// For too long, and now there is something to be read at this place.
    HasMore(usize),
    Nobody,
}

/// What there is to be read of a connection.
#[derive(Drop)]
enum Look {
    Nothing,
    /// A part of a head.
    Part,
    /// A head, or all that ever comes.
    Head,
    End,
    Fault(io::Error),
}

/// The connections by their places: those whose clients were never answered, and the others. In
/// both the one that was put there first is known.
#[derive(Drop)]
struct Places {
    strangers: LruCache<usize, Parked>,
    known: LruCache<usize, Parked>,
}

/// Where connections stand that no worker has, and what the system watches for them.
#[derive(Drop)]
pub(crate) struct Lot {
    places: Mutex<Places>,
    registry: Registry,
}

/// Whether the bytes have a line, and then an empty one.
fn have_head(bytes: &[u8]) -> bool {
    let mut is_in_line = false;
    let mut has_line = false;
    for byte in bytes {
        match *byte {
            b'\n' if has_line && !is_in_line => return true,
            b'\n' => is_in_line = false,
            b'\r' => {}
            _ => {
                is_in_line = true;
                has_line = true;
            }
        }
    }
    false
}

/// What there is to be read of a connection. It doesn't wait.
fn look_at(stream: &TcpStream) -> Look {
    let seen = look_for(stream);
    if seen == Seen::Nothing {
        return Look::Nothing;
    }
    let mut buf = [0u8; MOST_SEEN];
    match stream.peek(&mut buf) {
        Ok(0) => Look::End,
        Ok(n) if seen == Seen::Last || n >= MOST_SEEN || have_head(&buf[..n]) => Look::Head,
        Ok(_) => Look::Part,
        Err(error) => match error.kind() {
            ErrorKind::WouldBlock => Look::Nothing,
            ErrorKind::Interrupted => Look::Head,
            _ => Look::Fault(error),
        },
    }
}

/// How many descriptors connections may have.
pub(crate) fn most_descriptors() -> u64 {
    let mut limit = rlimit {
        rlim_cur: 0,
        rlim_max: 0,
    };
    if getrlimit(RLIMIT_NOFILE, &mut limit) != 0 {
        return u64::MAX;
    }
    let most = limit.rlim_cur;
    most.saturating_sub((most / LEFT).min(MOST_LEFT))
}

impl Parked {
    /// Where it stands in a lot: the system has each descriptor once.
    fn place(&self) -> usize {
        let descriptor = self.stream.as_raw_fd().max(0) as usize;
        descriptor
            .saturating_mul(2)
            .saturating_add((self.messages > 0) as usize)
    }
}

impl Places {
    fn cache_of(&mut self, place: usize) -> &mut LruCache<usize, Parked> {
        if place % 2 == 0 {
            &mut self.strangers
        } else {
            &mut self.known
        }
    }

    /// Puts a connection there; gives it back where memory is wanting.
    fn put(&mut self, place: usize, parked: Parked) -> Option<Parked> {
        match self.cache_of(place).put(place, parked) {
            Ok(_) => None,
            Err(failed) => Some(failed.value.1),
        }
    }

    fn take(&mut self, place: usize) -> Option<Parked> {
        self.cache_of(place).pop(&place)
    }

    fn parked(&self, place: usize) -> Option<&Parked> {
        if place % 2 == 0 {
            self.strangers.peek(&place)
        } else {
            self.known.peek(&place)
        }
    }

    /// Has the message of a connection begin at this moment.
    fn begin(&mut self, place: usize, now: u64) -> Found {
        let Some(mut parked) = self.take(place) else {
            return Found::Stays;
        };
        parked.has_begun = true;
        parked.since = now;
        match self.put(place, parked) {
            Some(parked) => Found::Gone(parked, None),
            None => Found::Stays,
        }
    }

    /// Takes away the connection that was put there first: a stranger's, where there is one.
    fn take_oldest(&mut self) -> Option<Parked>
        ensures stranger { IfSome (last_entry self.old.strangers.entries)
            (λ oldest. result ≡ Some oldest.1) }
        ensures known { last_entry self.old.strangers.entries ≡ None
            → result ≡ option_map (λ oldest. oldest.1) (last_entry self.old.known.entries) }
    {
        match self.strangers.pop_lru() {
            Some((_, parked)) => Some(parked),
            None => match self.known.pop_lru() {
                Some((_, parked)) => Some(parked),
                None => None,
            },
        }
    }

    /// The place of one who stands there since this moment or before it.
    fn place_since(&self, moment: u64) -> Option<usize> {
        match (self.strangers.peek_lru(), self.known.peek_lru()) {
            (Some((place, parked)), _) if parked.since <= moment => Some(*place),
            (_, Some((place, parked))) if parked.since <= moment => Some(*place),
            _ => None,
        }
    }
}

impl Lot {
    /// An empty one, whose connections are watched by this registry.
    pub(crate) fn new(alloc: Global, registry: Registry) -> Result<Self, AllocError> {
        let places = Places {
            strangers: LruCache::unbounded(alloc)?,
            known: LruCache::unbounded(alloc)?,
        };
        Ok(Lot {
            places: Mutex::new(places),
            registry,
        })
    }

    /// The places, once nobody else has them. They are held for no call that waits.
    fn places(&self) -> Option<MutexGuard<'_, Places>> {
        for tries in 0..u64::MAX {
            if let Some(places) = self.places.try_lock() {
                return Some(places);
            }
            if tries >= SPINS {
                yield_now();
            }
        }
        None
    }

    /// Puts a connection there until something comes. Gives it back where it can't stay.
    pub(crate) fn park(&self, parked: Parked) -> Option<Parked> {
        let descriptor = parked.stream.as_raw_fd();
        let place = parked.place();
        let Some(mut places) = self.places() else {
            return Some(parked);
        };
        if let Some(parked) = places.put(place, parked) {
            return Some(parked);
        }
        let mut source = SourceFd(&descriptor);
        match self
            .registry
            .register(&mut source, Token(place), Interest::READABLE)
        {
            Ok(()) => None,
            Err(_) => places.take(place),
        }
    }

    /// Takes the connection at a place away.
    fn take(&self, place: usize) -> Option<Parked> {
        let parked = self.places()?.take(place)?;
        let descriptor = parked.stream.as_raw_fd();
        let _ = self.registry.deregister(&mut SourceFd(&descriptor));
        Some(parked)
    }

    /// Takes away the connection that has been idle longest: that of a client who never was
    /// answered, where there is one.
    pub(crate) fn take_oldest(&self) -> Option<Parked> {
        self.places()?.take_oldest()
    }

    /// Takes a connection away that stands there since this moment or before it.
    pub(crate) fn take_since(&self, moment: u64) -> Idle {
        let Some(mut places) = self.places() else {
            return Idle::Nobody;
        };
        let Some(place) = places.place_since(moment) else {
            return Idle::Nobody;
        };
        let Some(parked) = places.parked(place) else {
            return Idle::Nobody;
        };
        let has_begun = parked.has_begun;
        match look_at(&parked.stream) {
            Look::Part if !has_begun => Idle::HasMore(place),
            Look::Nothing | Look::Part => match places.take(place) {
                Some(parked) => Idle::Overdue(parked),
                None => Idle::Nobody,
            },
            Look::Head | Look::End | Look::Fault(_) => Idle::HasMore(place),
        }
    }

    /// Looks at the connection at a place, at this moment.
    pub(crate) fn look(&self, place: usize, now: u64) -> Found {
        let Some(mut places) = self.places() else {
            return Found::Stays;
        };
        let Some(parked) = places.parked(place) else {
            return Found::Stays;
        };
        let has_begun = parked.has_begun;
        let look = look_at(&parked.stream);
        drop(places);
        match look {
            Look::Nothing => Found::Stays,
            Look::Part if has_begun => Found::Stays,
            Look::Part => match self.places() {
                Some(mut places) => places.begin(place, now),
                None => Found::Stays,
            },
            Look::Head => match self.take(place) {
                Some(parked) => Found::Client(parked),
                None => Found::Stays,
            },
            Look::End => self.gone(place, None),
            Look::Fault(error) => self.gone(place, Some(error)),
        }
    }

    fn gone(&self, place: usize, error: Option<io::Error>) -> Found {
        match self.take(place) {
            Some(parked) => Found::Gone(parked, error),
            None => Found::Stays,
        }
    }

    /// Has a new connection stand there, unless its head is there already.
    pub(crate) fn enter(&self, mut parked: Parked) -> Found {
        match look_at(&parked.stream) {
            Look::Head => return Found::Client(parked),
            Look::End => return Found::Gone(parked, None),
            Look::Fault(error) => return Found::Gone(parked, Some(error)),
            Look::Part => parked.has_begun = true,
            Look::Nothing => {}
        }
        match self.park(parked) {
            Some(parked) => Found::Gone(parked, None),
            None => Found::Stays,
        }
    }
}

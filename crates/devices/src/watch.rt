//! A door whose idle connections have no worker.
use crate::clock::millis_now;
use crate::conn::{PATIENCE, TcpConn, log_fault};
use crate::door::{AcceptFault, accept_fault_of, wait_for_room};
use crate::doorway::is_readable;
use crate::log::{Log, is_due};
use crate::lot::{Found, Idle, Lot, Parked, most_descriptors};
use libc::EMFILE;
use libc::net::listen;
use mio::unix::SourceFd;
use mio::{Events, Interest, Poll, Registry, Token};
use std::alloc::{AllocError, Global};
use std::collections::VecDeque;
use std::io;
use std::io::{Eprint, ErrorKind};
use std::net::{Net, SocketAddr, TcpListener, TcpStream};
use std::os::fd::AsRawFd;
use std::sync::Arc;
use std::sync::atomic::AtomicU64;
use std::time::{Clock, Duration};

/// So many connections are known at one time to have something to read.
const MOST_READY: usize = 256;

/// After so many clients that were let in one after another the door looks at the others.
const MOST_IN_A_ROW: u64 = 64;

/// So many clients may wait at the listening socket until they are let in, where the system allows
/// as many.
const MOST_WAITING: i32 = 4_096;

/// The door looks so often whether the server is to end, and for connections that are idle for too
/// long, in milliseconds.
const LOOKING: u64 = 500;

/// What the listening socket is called. A connection is called by its place.
const DOOR: usize = usize::MAX;

/// What the worker at the door watches: the listening socket, and the connections that no worker
/// has.
#[derive(Drop)]
pub(crate) struct Watch {
    lot: Arc<Lot>,
    poll: Poll,
    events: Events,
    /// The places of connections that may have something to read.
    ready: VecDeque<usize>,
    /// Whether clients may wait at the listening socket.
    is_knocked: bool,
    /// How many were let in, one after another.
    in_a_row: u64,
    /// A connection has a descriptor below this one, unless no other can be closed for it.
    most: u64,
    /// The moment before which nothing more is said of descriptors that are wanting.
    wanting_until: AtomicU64,
}

/// What one step at the door gives.
#[derive(Drop)]
enum Step<R: Clock + Eprint + Copy> {
    Conn(TcpConn<R>),
    Nothing,
    /// The listening socket is gone.
    Gone,
}

/// A lot whose connections are watched by this registry.
fn shared_lot(alloc: Global, registry: Registry) -> Result<Arc<Lot>, AllocError> {
    let lot = Lot::new(alloc, registry)?;
    Ok(Arc::new(alloc, lot)?)
}

/// A connection that has ended, or that is closed.
fn end<R: Clock + Eprint + Copy>(log: &Log<R>, parked: Parked) {
    drop(parked);
    if let Some(figures) = log.figures() {
        figures.end_connection();
    }
}

impl Watch {
    /// What watches this listening socket.
    pub(crate) fn new<R: Net + Clock + Eprint + Copy>(
        log: &Log<R>,
        listener: &TcpListener,
    ) -> io::Result<Self> {
        let alloc = log.allocator();
        let poll = Poll::new(&log.runtime())?;
        listener.set_nonblocking(true)?;
        let descriptor = listener.as_raw_fd();
        listen(descriptor, MOST_WAITING);
        let mut source = SourceFd(&descriptor);
        poll.registry()
            .register(&mut source, Token(DOOR), Interest::READABLE)?;
        Ok(Watch {
            lot: shared_lot(alloc, poll.registry().try_clone()?)?,
            events: Events::with_capacity(alloc, MOST_READY)?,
            ready: VecDeque::with_capacity(alloc, MOST_READY)?,
            poll,
            is_knocked: true,
            in_a_row: 0,
            most: most_descriptors(),
            wanting_until: AtomicU64::new(0),
        })
    }

    /// The descriptor that has something to read where a client waits for a worker.
    pub(crate) fn descriptor(&self) -> i32 {
        self.poll.as_raw_fd()
    }

    /// Whether a client waits who was seen already, so that the descriptor doesn't tell of it again.
    pub(crate) fn has_waiting(&self, listener: &TcpListener) -> bool {
        !self.ready.is_empty() || self.is_knocked && is_readable(listener.as_raw_fd())
    }

    /// The next connection that has something to be served, if the listening socket isn't gone.
    pub(crate) fn next<R: Clock + Eprint + Copy>(
        &mut self,
        listener: &TcpListener,
        log: &Log<R>,
    ) -> Option<TcpConn<R>> {
        for _ in 0..u64::MAX {
            if log.doorway().is_shut() {
                return None;
            }
            match self.step(listener, log) {
                Step::Conn(conn) => return Some(conn),
                Step::Nothing => {}
                Step::Gone => return None,
            }
        }
        None
    }

    fn step<R: Clock + Eprint + Copy>(&mut self, listener: &TcpListener, log: &Log<R>) -> Step<R> {
        if let Some(place) = self.ready.pop_front() {
            let found = self.lot.look(place, millis_now(&log.runtime()));
            return self.step_at(log, found);
        }
        if self.is_knocked && self.in_a_row < MOST_IN_A_ROW {
            self.in_a_row = self.in_a_row.saturating_add(1);
            return self.let_in(listener, log);
        }
        self.in_a_row = 0;
        if !self.wait(if self.is_knocked { 0 } else { LOOKING }) {
            wait_for_room(log);
        }
        self.close_idle(log);
        Step::Nothing
    }

    /// What a look at a connection gives.
    fn step_at<R: Clock + Eprint + Copy>(&self, log: &Log<R>, found: Found) -> Step<R> {
        match found {
            Found::Stays => Step::Nothing,
            Found::Client(parked) if log.is_own_call(&parked.stream, parked.peer) => {
                end(log, parked);
                Step::Nothing
            }
            Found::Client(parked) => match TcpConn::parked(log, &self.lot, parked) {
                Some(conn) => Step::Conn(conn),
                None => Step::Nothing,
            },
            Found::Gone(parked, error) => {
                if let Some(error) = error {
                    log_fault(log, parked.peer, "read fault", !parked.has_begun, &error);
                }
                end(log, parked);
                Step::Nothing
            }
        }
    }

    /// Waits for so many milliseconds until there is something to read. Tells whether it could.
    fn wait(&mut self, millis: u64) -> bool {
        let millis = Some(Duration::from_millis(millis));
        if self.poll.poll(&mut self.events, millis).is_err() {
            return false;
        }
        for event in &self.events {
            match event.token() {
                Token(DOOR) => self.is_knocked = true,
                Token(place) => {
                    let _ = self.ready.push_back(place);
                }
            }
        }
        true
    }

    /// Lets in one client who waits.
    fn let_in<R: Clock + Eprint + Copy>(
        &mut self,
        listener: &TcpListener,
        log: &Log<R>,
    ) -> Step<R> {
        match listener.accept() {
            Ok((stream, peer)) => self.enter(log, stream, peer),
            Err(error) if error.kind() == ErrorKind::WouldBlock => {
                self.is_knocked = false;
                Step::Nothing
            }
            Err(error) => match accept_fault_of(&error) {
                AcceptFault::OfOneClient => Step::Nothing,
                AcceptFault::OfWant => {
                    let is_of_descriptors = error.raw_os_error() == Some(EMFILE);
                    if !is_of_descriptors || !self.close_oldest(log) {
                        wait_for_room(log);
                    }
                    Step::Nothing
                }
                AcceptFault::Gone => Step::Gone,
            },
        }
    }

    /// A client has come.
    fn enter<R: Clock + Eprint + Copy>(
        &self,
        log: &Log<R>,
        stream: TcpStream,
        peer: SocketAddr,
    ) -> Step<R> {
        if stream.as_raw_fd().max(0) as u64 >= self.most {
            self.close_oldest(log);
        }
        if TcpConn::<R>::prepare(&stream, true).is_err() {
            return Step::Nothing;
        }
        if let Some(figures) = log.figures() {
            figures.begin_connection();
        }
        let found = self.lot.enter(Parked {
            stream,
            peer,
            messages: 0,
            since: millis_now(&log.runtime()),
            has_begun: false,
        });
        self.step_at(log, found)
    }

    /// Closes the connection that has been idle longest for another client, and says so, once a
    /// minute at most. Tells whether there was one.
    fn close_oldest<R: Clock + Eprint + Copy>(&self, log: &Log<R>) -> bool {
        let Some(parked) = self.lot.take_oldest() else {
            return false;
        };
        end(log, parked);
        if is_due(&self.wanting_until, millis_now(&log.runtime())) {
            log.fault("no descriptors for all clients: the longest idle are closed");
        }
        true
    }

    /// Closes those that are idle for too long, or whose message isn't whole for too long.
    fn close_idle<R: Clock + Eprint + Copy>(&mut self, log: &Log<R>) {
        for _ in 0..MOST_READY {
            let now = millis_now(&log.runtime());
            let Some(moment) = now.checked_sub(PATIENCE * 1_000) else {
                return;
            };
            match self.lot.take_since(moment) {
                Idle::Overdue(parked) => {
                    let error = io::Error::from(ErrorKind::WouldBlock);
                    log_fault(log, parked.peer, "read fault", !parked.has_begun, &error);
                    end(log, parked);
                }
                Idle::HasMore(place) => {
                    let _ = self.ready.push_back(place);
                    return;
                }
                Idle::Nobody => return,
            }
        }
    }
}

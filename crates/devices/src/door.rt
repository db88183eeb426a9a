//! A listening socket as a door.
ghost use Rattle.std.specs.Prelude.{◌≡◌, Some, None, false};

use crate::TcpConn;
use crate::clock::millis_now;
use crate::log::Log;
use crate::watch::Watch;
use libc::{EBADF, EINVAL, EMFILE, ENOMEM};
use m2m_io::{Door, Failed};
use std::alloc::Global;
use std::io::{Eprint, ErrorKind};
use std::net::{Net, SocketAddr, TcpListener, TcpStream};
use std::os::fd::AsRawFd;
use std::time::{Clock, Duration};
use std::{io, str};

/// Where descriptors or memory are wanting, the door waits so long before it asks again, in
/// milliseconds.
const WANTING: u64 = 100;

/// Errors of Linux that std has no name for: a file table that is full, no room for a socket, and
/// what is no socket.
const ENFILE: i32 = 23;

const ENOTSOCK: i32 = 88;

const ENOBUFS: i32 = 105;

/// Errors of the network of the client that was to be let in. Linux hands them on, as accept(2) has
/// them: no network, a protocol that failed, an option or an operation that it doesn't have, and a
/// host that is down.
const ENONET: i32 = 64;

const EPROTO: i32 = 71;

const ENOPROTOOPT: i32 = 92;

const EOPNOTSUPP: i32 = 95;

const EHOSTDOWN: i32 = 112;

/// A listening socket as a door. It tells at what address it was opened, and how often it gave a
/// connection, up to 2^64 - 2 times, and it never gives None. A client that is gone before it is let
/// in is passed over, and so is one whose network fails then; where descriptors or memory are
/// wanting it waits; so it fails only where it can't be opened, or the socket is gone.
#[derive(Drop)]
pub struct TcpDoor<R> {
    log: Log<R>,
    whom: String,
    listener: Option<TcpListener>,
    /// Whether idle connections have no worker.
    is_parking: bool,
    watch: Option<Watch>,
    address: Option<Vec<u8>>,
    is_silent: bool,
    given: u64,
    faults: u64,
}

/// What an error of `accept` is.
#[derive(Clone, Copy, Debug, PartialEq, Eq)]
pub(crate) enum AcceptFault {
    /// It is one client's, or of the network between: the system hands it on with the socket.
    OfOneClient,
    /// Descriptors or memory are wanting, or something else that may pass.
    OfWant,
    /// The listening socket is gone.
    Gone,
}

/// Whether std has no name for this error of one client's network.
fn is_of_network(error: &io::Error) -> bool {
    matches!(
        error.raw_os_error(),
        Some(ENONET | EPROTO | ENOPROTOOPT | EOPNOTSUPP | EHOSTDOWN)
    )
}

/// What this error of `accept` is.
pub(crate) fn accept_fault_of(error: &io::Error) -> AcceptFault {
    let is_gone = matches!(error.raw_os_error(), Some(EBADF | EINVAL | ENOTSOCK));
    let is_want = matches!(
        error.raw_os_error(),
        Some(EMFILE | ENFILE | ENOBUFS | ENOMEM)
    );
    if is_gone {
        return AcceptFault::Gone;
    }
    if is_want {
        return AcceptFault::OfWant;
    }
    if is_of_network(error) {
        return AcceptFault::OfOneClient;
    }
    match error.kind() {
        ErrorKind::Interrupted
        | ErrorKind::ConnectionAborted
        | ErrorKind::ConnectionReset
        | ErrorKind::HostUnreachable
        | ErrorKind::NetworkUnreachable
        | ErrorKind::NetworkDown
        | ErrorKind::PermissionDenied
        | ErrorKind::TimedOut => AcceptFault::OfOneClient,
        _ => AcceptFault::OfWant,
    }
}

/// The port that a listening socket has, if the system tells it.
fn port_of(listener: &TcpListener) -> Option<u16> {
    match listener.local_addr() {
        Ok(address) => Some(address.port()),
        Err(_) => None,
    }
}

/// Why a door can't be opened, in words.
fn reason(error: &io::Error) -> &'static str {
    match error.kind() {
        ErrorKind::AddrInUse => "address in use",
        ErrorKind::AddrNotAvailable => "no address of this machine",
        ErrorKind::PermissionDenied => "not allowed",
        ErrorKind::InvalidInput => "no host and port",
        _ => "no such host, or an error of the network",
    }
}

impl<R> TcpDoor<R>
where
    R: Net<Listener = TcpListener, Stream = TcpStream> + Clock + Eprint + Copy + Send,
{
    /// A door that is to be opened, for the CSE that is called so. It gives each client's
    /// connection once, with a worker until it ends.
    pub fn new(log: Log<R>, whom: String) -> Self
        ensures opened { ⟦<TcpDoor<R> as Door>⟧.opened result ≡ Some None }
        ensures given { ⟦<TcpDoor<R> as Door>⟧.given result ≡ Some 0 }
        ensures ended { ⟦<TcpDoor<R> as Door>⟧.ended result ≡ Some false }
        ensures faults { ⟦<TcpDoor<R> as Door>⟧.faults result ≡ 0 }
    {
        TcpDoor::with_parking(log, whom, false)
    }

    /// Such a door that gives a connection once there is something to be served, and gives it again
    /// after each time for which it was idle, so that an idle connection has no worker.
    pub fn parking(log: Log<R>, whom: String) -> Self
        ensures opened { ⟦<TcpDoor<R> as Door>⟧.opened result ≡ Some None }
        ensures given { ⟦<TcpDoor<R> as Door>⟧.given result ≡ Some 0 }
        ensures ended { ⟦<TcpDoor<R> as Door>⟧.ended result ≡ Some false }
        ensures faults { ⟦<TcpDoor<R> as Door>⟧.faults result ≡ 0 }
    {
        TcpDoor::with_parking(log, whom, true)
    }

    fn with_parking(log: Log<R>, whom: String, is_parking: bool) -> Self
        ensures opened { ⟦<TcpDoor<R> as Door>⟧.opened result ≡ Some None }
        ensures given { ⟦<TcpDoor<R> as Door>⟧.given result ≡ Some 0 }
        ensures ended { ⟦<TcpDoor<R> as Door>⟧.ended result ≡ Some false }
        ensures faults { ⟦<TcpDoor<R> as Door>⟧.faults result ≡ 0 }
    {
        TcpDoor {
            log,
            whom,
            listener: None,
            is_parking,
            watch: None,
            address: None,
            is_silent: false,
            given: 0,
            faults: 0,
        }
    }
}

impl<R: Net<Listener = TcpListener, Stream = TcpStream> + Clock + Eprint + Copy> TcpDoor<R> {
    /// What watches the listening socket, where idle connections have no worker.
    fn watched(&self, listener: &TcpListener) -> io::Result<Option<Watch>> {
        if self.is_parking {
            Ok(Some(Watch::new(&self.log, listener)?))
        } else {
            Ok(None)
        }
    }

    /// A socket that listens at this address, and what watches it.
    fn opened_at(&self, at: &[u8]) -> io::Result<(TcpListener, Option<Watch>)> {
        let listener = self.bound(at)?;
        let watch = self.watched(&listener)?;
        let descriptor = match &watch {
            Some(watch) => watch.descriptor(),
            None => listener.as_raw_fd(),
        };
        self.log.doorway().open(descriptor);
        Ok((listener, watch))
    }

    fn bound(&self, at: &[u8]) -> io::Result<TcpListener> {
        match str::from_utf8(at) {
            Ok(at) => TcpListener::bind(&self.log.runtime(), at),
            Err(_) => Err(io::Error::from(ErrorKind::InvalidInput)),
        }
    }

    /// Says where it listens. At port 0 that is the port that the system has chosen.
    fn say_open(&self, at: &[u8], port: Option<u16>) {
        let at = str::from_utf8(at).unwrap_or("");
        let whom = self.whom.as_str();
        let alloc = self.log.allocator();
        let text = match (at.strip_suffix(":0"), port) {
            (Some(host), Some(port)) => format!(in alloc; "listening at {host}:{port} as {whom}"),
            _ => format!(in alloc; "listening at {at} as {whom}"),
        };
        if let Ok(text) = text {
            self.log.say(text.as_str());
        }
    }

    fn say_shut(&self, at: &[u8], error: &io::Error) {
        let at = str::from_utf8(at).unwrap_or("");
        let why = reason(error);
        if let Ok(text) = format!(in self.log.allocator(); "cannot listen at {at}: {why}") {
            self.log.say(text.as_str());
        }
    }
}

/// Says that a client waits, as descriptors or memory are wanting, and lets some time pass.
pub(crate) fn wait_for_room<R: Clock + Eprint + Copy>(log: &Log<R>) {
    log.fault("no descriptors or memory for a client, who waits");
    log.runtime().sleep(Duration::from_millis(WANTING));
}

/// A connection of a client that was let in.
fn connected<R: Clock + Eprint + Copy>(
    log: &Log<R>,
    stream: TcpStream,
    peer: SocketAddr,
) -> io::Result<TcpConn<R>> {
    TcpConn::new(log.again()?, stream, peer)
}

/// The next client that is let in, if the socket gives one.
fn accepted<R: Clock + Eprint + Copy>(listener: &TcpListener, log: &Log<R>) -> Option<TcpConn<R>> {
    for _ in 0..u64::MAX {
        match listener.accept() {
            Ok((stream, peer)) if log.is_own_call(&stream, peer) => drop(stream),
            Ok((stream, peer)) => {
                if let Ok(conn) = connected(log, stream, peer) {
                    return Some(conn);
                }
            }
            Err(error) => match accept_fault_of(&error) {
                AcceptFault::OfOneClient => {}
                AcceptFault::OfWant => wait_for_room(log),
                AcceptFault::Gone => return None,
            },
        }
    }
    None
}

/// The next client that is let in, if the socket gives one. One who has waited while no worker was
/// left is spoken of.
fn let_in<R: Clock + Eprint + Copy>(
    listener: &TcpListener,
    watch: Option<&mut Watch>,
    log: &Log<R>,
) -> Option<TcpConn<R>> {
    let doorway = log.doorway();
    if doorway.was_full(millis_now(&log.runtime())) {
        log.say_full();
    }
    doorway.begin();
    let conn = match watch {
        Some(watch) => {
            let conn = watch.next(listener, log);
            doorway.hold(watch.has_waiting(listener));
            conn
        }
        None => accepted(listener, log),
    };
    doorway.end(conn.is_some() as u64, millis_now(&log.runtime()));
    conn
}

impl<R> Door for TcpDoor<R>
where
    R: Net<Listener = TcpListener, Stream = TcpStream> + Clock + Eprint + Copy + Send,
{
    ghost use Rattle.std.specs.Prelude.{Some, None, false, if◌then◌else◌};
    ghost use Rattle.std.specs.Option.{option_map};
    ghost use Rattle.m2m_io.specs.Counts.{is_exact};

    type Conn = TcpConn<R>;

    ghost opened = { λ d. if d.is_silent then None
        else Some (option_map (λ a. a.items) d.address) };

    ghost given = { λ d. if is_exact d.given then Some d.given else None };

    ghost ended = { λ _. Some false };

    ghost faults = { λ d. d.faults };

    fn open(&mut self, at: &[u8]) -> Result<(), Failed> {
        match self.opened_at(at) {
            Ok((listener, watch)) => {
                let port = port_of(&listener);
                self.listener = Some(listener);
                self.watch = watch;
                match Vec::from_slice(self.log.allocator(), at) {
                    Ok(at) => self.address = Some(at),
                    Err(_) => self.is_silent = true,
                }
                self.say_open(at, port);
                Ok(())
            }
            Err(error) => {
                self.say_shut(at, &error);
                self.faults = self.faults.saturating_add(1);
                Err(Failed)
            }
        }
    }

    fn next(&mut self) -> Result<Option<TcpConn<R>>, Failed> {
        let log = &self.log;
        let watch = self.watch.as_mut();
        match self
            .listener
            .as_ref()
            .and_then(|listener| let_in(listener, watch, log))
        {
            Some(conn) => {
                self.given = self.given.saturating_add(1);
                Ok(Some(conn))
            }
            None => {
                self.faults = self.faults.saturating_add(1);
                Err(Failed)
            }
        }
    }
}

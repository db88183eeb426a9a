//! Connections to hosts, as URLs name them.
ghost use Rattle.std.specs.Prelude.{◌≡◌, ◌≤◌, ◌<◌, IsNone, Some};
ghost use Rattle.tcp_link.specs.Places.{usual_port};

use devices::{Log, OwnCall, time_left};
use std::io::{Eprint, ErrorKind};
use std::net::{Net, SocketAddr, TcpListener, TcpStream};
use std::time::{Clock, Duration};
use std::{io, str};

/// The port of a URL that names none.
const USUAL_PORT: u16 = 80;

/// A host and a port.
#[derive(Clone, Copy, Debug)]
pub(crate) struct HostPort<'a> {
    pub name: &'a str,
    pub port: u16,
}

impl HostPort<'_> {
    /// Whether that is the same host and port.
    pub(crate) fn is_at(self, host_port: HostPort) -> bool {
        self.port == host_port.port && self.name.eq_ignore_ascii_case(host_port.name)
    }
}

/// A connection that was opened. For as long as it is open, what comes back over it is ended.
#[derive(Drop)]
pub(crate) struct Call {
    pub stream: TcpStream,
    /// How it is noted.
    note: Option<OwnCall>,
}

impl Call {
    /// Notes this connection.
    fn new<R: Clock + Eprint + Copy>(log: &Log<R>, stream: TcpStream) -> Self {
        let note = log.note_call(&stream);
        Call { stream, note }
    }
}

/// The port that stands behind the name of a host, or the usual one where none does.
fn port_in(digits: Option<&str>) -> Option<u16>
    ensures { IsNone digits.entry → result ≡ Some usual_port }
{
    match digits {
        None => Some(USUAL_PORT),
        Some(digits) => digits.parse::<u16>().ok(),
    }
}

/// The host and the port that a host in a URL stands for, which names a port or none.
pub(crate) fn host_port_of(host: &[u8]) -> Option<HostPort<'_>> {
    let host = str::from_utf8(host).ok()?;
    let (name, digits) = match host.rsplit_once(':') {
        None => (host, None),
        Some((name, digits)) => (name, Some(digits)),
    };
    Some(HostPort {
        name,
        port: port_in(digits)?,
    })
}

fn unreachable_host() -> io::Error {
    io::Error::from(ErrorKind::HostUnreachable)
}

/// An equal share of what is left of so many milliseconds since this moment, for so many tries.
fn share_of<R: Clock>(rt: &R, begun: u64, patience: u64, tries: usize) -> io::Result<Duration>
    requires { 0 < tries }
{
    match time_left(rt, begun, patience) {
        Some(left) => Ok(Duration::from_millis((left.as_millis() as u64 / tries as u64).max(1))),
        None => Err(io::Error::from(ErrorKind::TimedOut)),
    }
}

/// Whether an error says that nothing came in time.
fn is_late(error: &io::Error) -> bool {
    error.kind() == ErrorKind::TimedOut
}

/// A connection to the first of these addresses that takes one: they are tried in turn, within so
/// many milliseconds since this moment. Where none does, the error says so if one of them was
/// mute.
pub(crate) fn connected<R>(
    log: &Log<R>,
    found: &[SocketAddr],
    begun: u64,
    patience: u64,
) -> io::Result<Call>
where
    R: Net<Listener = TcpListener, Stream = TcpStream> + Clock + Eprint + Copy,
{
    let rt = log.runtime();
    let mut last = unreachable_host();
    for (i, address) in found.iter().enumerate() {
        let share = share_of(&rt, begun, patience, found.len() - i)?;
        match TcpStream::connect_timeout(&rt, address, share) {
            Ok(stream) => return Ok(Call::new(log, stream)),
            Err(error) if !is_late(&last) => last = error,
            Err(_) => {}
        }
    }
    Err(last)
}

//! One request over a connection, and its answer.
ghost use Rattle.std.specs.Prelude.{◌≡◌, ◌≤◌, IfOk, length};
ghost use Rattle.tcp_link.specs.SendOutcomes.{HasFew};
ghost use Rattle.tcp_link.specs.Paces as paces;
ghost use Rattle.std.specs.Io.{ReadsAtMost};

use crate::connecting::Call;
use devices::time_left;
use http_frames::{Found, Frame, FrameFault, Inbox, Lines, Next, Start};
use m2m_io::{Failed, Source};
use std::alloc::{AllocError, Global};
use std::io;
use std::io::{ErrorKind, Read, Write};
use std::time::{Clock, Duration};

/// So many milliseconds the other side may say nothing, and take nothing. All addresses of a host
/// are tried within as many.
pub const PATIENCE: u64 = 5_000;

/// So many milliseconds an exchange takes at most, once its host is looked up.
pub const LONGEST: u64 = 15_000;

/// So many milliseconds an exchange of an impatient link takes at most, once its host is looked up.
pub const SHORT_PATIENCE: u64 = 1_500;

/// So many milliseconds an answer takes at most of a host that was mute or slow the last time,
const BRIEF: u64 = 100;

/// and so many to connect to it.
const BRIEF_TO_CONNECT: u64 = 500;

/// So many milliseconds it takes at most to send a request whose answer isn't waited for.
const SENDING: u64 = 250;

/// An answer has at most so many bytes.
pub const MOST_BYTES: usize = 2_097_152;

/// So many bytes are read at once where an answer ends with its connection.
const PIECE: usize = 4_096;

/// How long an exchange waits.
#[derive(Clone, Copy, Debug, PartialEq, Eq)]
pub(crate) enum Pace {
    /// `PATIENCE` for what the other side says or takes next, and `LONGEST` for all of it.
    Patient,
    /// `SHORT_PATIENCE` for all of it.
    Impatient,
    /// `BRIEF_TO_CONNECT` to connect, and then `BRIEF` for all of it.
    Brief,
    /// `SENDING` for what the other side takes, and nothing for what it says.
    AtOnce,
}

impl Pace {
    /// So many milliseconds the other side may say or take nothing.
    pub(crate) fn of_a_step(self) -> u64
        ensures { result ≡ paces.of_a_step self }
    {
        match self {
            Pace::Patient => PATIENCE,
            Pace::Impatient => SHORT_PATIENCE,
            Pace::Brief => BRIEF,
            Pace::AtOnce => SENDING,
        }
    }

    /// So many milliseconds all addresses of a host are tried.
    pub(crate) fn of_connecting(self) -> u64
        ensures { result ≡ paces.of_connecting self }
    {
        match self {
            Pace::Brief => BRIEF_TO_CONNECT,
            Pace::Patient | Pace::Impatient | Pace::AtOnce => self.of_a_step(),
        }
    }

    /// So many milliseconds an exchange takes at most.
    fn of_all(self) -> u64
        ensures { result ≡ paces.of_all self }
    {
        match self {
            Pace::Patient => LONGEST,
            Pace::Impatient => SHORT_PATIENCE,
            Pace::Brief => BRIEF,
            Pace::AtOnce => SENDING,
        }
    }
}

/// Why an exchange failed.
#[derive(Clone, Copy, Debug, PartialEq, Eq)]
pub(crate) enum ExchangeFault {
    /// The other side took no connection in time, or it took and said nothing for too long.
    Mute,
    /// The other side refused the connection, or ended it without an answer, or said too much.
    Refused,
    OutOfMemory,
}

impl From<AllocError> for ExchangeFault {
    fn from(_: AllocError) -> Self {
        ExchangeFault::OutOfMemory
    }
}

/// What an error of the other side's connection means.
pub(crate) fn fault_of(error: &io::Error) -> ExchangeFault {
    match error.kind() {
        ErrorKind::TimedOut | ErrorKind::WouldBlock => ExchangeFault::Mute,
        _ => ExchangeFault::Refused,
    }
}

/// What came of a request that was sent.
pub(crate) enum SendOutcome {
    /// An answer.
    Answer(Vec<u8>),
    /// The beginning of one, which wasn't whole in time.
    Part,
    /// Nothing yet, at this connection.
    Nothing(Call),
}

/// A connection at which one request is sent and one answer is read: the bytes that came are kept.
#[derive(Drop)]
pub(crate) struct ExchangeConn<R> {
    rt: R,
    call: Call,
    pace: Pace,
    /// The moment at which the exchange began, in milliseconds.
    begun: u64,
    heard: Vec<u8>,
    /// Why reading failed last.
    fault: ExchangeFault,
    faults: u64,
    ghost few: { length heard.items ≤ 2097152 },
}

fn timed_out() -> io::Error {
    io::Error::from(ErrorKind::TimedOut)
}

/// How long the next read or write may take, in an exchange that began at this moment.
fn next_patience<R: Clock>(rt: &R, begun: u64, pace: Pace) -> io::Result<Duration> {
    match time_left(rt, begun, pace.of_all()) {
        Some(left) if left.as_millis() < pace.of_a_step() as u128 => Ok(left),
        Some(_) => Ok(Duration::from_millis(pace.of_a_step())),
        None => Err(timed_out()),
    }
}

/// Reads, again where the system broke a read off.
fn read_in_time<R: Clock>(
    rt: &R,
    call: &mut Call,
    begun: u64,
    pace: Pace,
    buf: &mut [u8],
) -> io::Result<usize>
    ensures { ReadsAtMost result buf.new }
{
    for _ in 0..u64::MAX {
        call.stream
            .set_read_timeout(Some(next_patience(rt, begun, pace)?))?;
        match call.stream.read(buf) {
            Ok(n) => return Ok(n),
            Err(error) if error.kind() == ErrorKind::Interrupted => {}
            Err(error) => return Err(error),
        }
    }
    Err(timed_out())
}

/// Writes all of it.
fn write_in_time<R: Clock>(
    rt: &R,
    call: &mut Call,
    begun: u64,
    pace: Pace,
    bytes: &[u8],
) -> io::Result<()> {
    let mut rest = bytes;
    for _ in 0..u64::MAX {
        if rest.is_empty() {
            return Ok(());
        }
        call.stream
            .set_write_timeout(Some(next_patience(rt, begun, pace)?))?;
        match call.stream.write(rest) {
            Ok(0) => return Err(io::Error::from(ErrorKind::WriteZero)),
            Ok(n) => rest = rest.split_at(n.min(rest.len())).1,
            Err(error) if error.kind() == ErrorKind::Interrupted => {}
            Err(error) => return Err(error),
        }
    }
    Err(timed_out())
}

/// Whether lines have a field of this name.
fn have_field(lines: &Lines, name: &str) -> bool {
    !matches!(lines.find(name.as_bytes()), Found::Absent)
}

/// Whether a reply of this status never has a body (RFC 9112, section 6.3).
fn is_bare(start: &Start) -> bool {
    match start {
        Start::Answer { status, .. } => matches!(*status, 100..=199 | 204 | 304),
        Start::Ask { .. } => false,
    }
}

/// Whether the head of a reply says where the reply ends. One that doesn't ends with its connection
/// (RFC 9112, section 6.3).
fn says_its_end(frame: &Frame) -> bool {
    is_bare(&frame.start)
        || have_field(&frame.lines, "Content-Length")
        || have_field(&frame.lines, "Transfer-Encoding")
}

impl<R: Clock + Copy> Source for ExchangeConn<R> {
    ghost use Rattle.std.specs.Prelude.{None};
    ghost use Rattle.m2m_io.specs.Sides.{no_side};

    ghost left = { λ _. None };

    ghost faults = { λ a. a.faults };

    ghost kept_by_read = { λ _. no_side };

    fn read(&mut self, buf: &mut [u8]) -> Result<usize, Failed> {
        match self.read_some(buf) {
            Ok(n) => Ok(n),
            Err(fault) => {
                self.fault = fault;
                self.faults = self.faults.saturating_add(1);
                Err(Failed)
            }
        }
    }
}

impl<R: Clock + Copy> ExchangeConn<R> {
    /// A connection on which nothing was said yet, in an exchange that began at this moment.
    pub(crate) fn new(rt: R, alloc: Global, call: Call, pace: Pace, begun: u64) -> Self {
        ExchangeConn {
            rt,
            call,
            pace,
            begun,
            heard: Vec::new(alloc),
            fault: ExchangeFault::Refused,
            faults: 0,
        }
    }

    /// Keeps what came, unless it is too much.
    fn keep(&mut self, bytes: &[u8]) -> Result<(), ExchangeFault>
        ensures { self.new.faults ≡ self.old.faults }
    {
        if bytes.len() > MOST_BYTES - self.heard.len() {
            return Err(ExchangeFault::Refused);
        }
        self.heard.extend_from_slice(bytes)?;
        Ok(())
    }

    fn read_some(&mut self, buf: &mut [u8]) -> Result<usize, ExchangeFault>
        ensures bound { ReadsAtMost result buf.new }
        ensures faults { self.new.faults ≡ self.old.faults }
    {
        match read_in_time(&self.rt, &mut self.call, self.begun, self.pace, buf) {
            Ok(n) => {
                self.keep(&buf[..n])?;
                Ok(n)
            }
            Err(error) => Err(fault_of(&error)),
        }
    }

    /// Reads until the other side ends the connection.
    fn hear_to_end(&mut self) -> Result<(), ExchangeFault> {
        let mut buf = [0u8; PIECE];
        for _ in 0..=MOST_BYTES {
            match self.read(&mut buf) {
                Ok(0) => return Ok(()),
                Ok(_) => {}
                Err(Failed) => return Err(self.fault),
            }
        }
        Err(ExchangeFault::Refused)
    }

    /// Reads up to the end of one answer. What can't be a reply is an answer too; nothing at all is
    /// none.
    fn hear(&mut self, alloc: Global) -> Result<(), ExchangeFault> {
        let mut inbox = Inbox::new(alloc)?;
        match inbox.next_reply(alloc, self) {
            Ok(Next::Message(frame)) if says_its_end(&frame) => Ok(()),
            Ok(Next::Message(_)) => self.hear_to_end(),
            Ok(Next::End) => Err(ExchangeFault::Refused),
            Err(FrameFault::NoFrame) => Ok(()),
            Err(FrameFault::ReadFault) => Err(self.fault),
            Err(FrameFault::OutOfMemory) => Err(ExchangeFault::OutOfMemory),
        }
    }

    /// Sends the request.
    fn send(&mut self, request: &[u8]) -> Result<(), ExchangeFault> {
        match write_in_time(&self.rt, &mut self.call, self.begun, self.pace, request) {
            Ok(()) => Ok(()),
            Err(error) => Err(fault_of(&error)),
        }
    }

    /// Whether an answer that didn't come in time is awaited beside other exchanges.
    fn is_awaited(&self) -> bool {
        self.pace != Pace::Patient
    }

    /// Hears the answer, where this exchange waits for it.
    fn hear_in_time(&mut self, alloc: Global) -> Result<(), ExchangeFault> {
        if self.pace == Pace::AtOnce {
            return Err(ExchangeFault::Mute);
        }
        self.hear(alloc)
    }

    /// Sends the request, and hears what comes of it.
    pub(crate) fn asked(
        mut self,
        alloc: Global,
        request: &[u8],
    ) -> Result<SendOutcome, ExchangeFault>
        ensures { IfOk result (λ heard. HasFew heard) }
    {
        self.send(request)?;
        match self.hear_in_time(alloc) {
            Ok(()) => Ok(SendOutcome::Answer(self.into_parts().0)),
            Err(ExchangeFault::Mute) if self.is_awaited() => Ok(self.heard_in_part()),
            Err(fault) => Err(fault),
        }
    }

    /// What came where the answer isn't whole.
    fn heard_in_part(self) -> SendOutcome
        ensures { HasFew result }
    {
        let (heard, call) = self.into_parts();
        if heard.is_empty() {
            SendOutcome::Nothing(call)
        } else {
            SendOutcome::Part
        }
    }

    /// The bytes that came, and the connection.
    fn into_parts(self) -> (Vec<u8>, Call)
        ensures { length result.0.items ≤ MOST_BYTES }
    {
        let ExchangeConn {
            rt: _,
            call,
            pace: _,
            begun: _,
            heard,
            fault: _,
            faults: _,
        } = self;
        (heard, call)
    }
}

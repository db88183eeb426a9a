//! A connection over TCP.
ghost use Rattle.std.specs.Prelude.{◌≡◌, ◌<◌, ◌≤◌, ◌*◌, if◌then◌else◌};
ghost use Rattle.std.specs.Duration.{as_nanos};
ghost use Rattle.std.specs.Io.{ReadsAtMost};

use crate::boundary::Boundary;
use crate::clock::{millis_now, millis_of, since_start, time_left};
use crate::doorway::{ON_ITS_WAY, Visitor, await_client};
use crate::log::Log;
use crate::lot::{Lot, Parked};
use crate::printing::{MOST_LOGGED, front};
use crate::told::micros_of;
use m2m_io::{Connection, Failed, Sink, Source};
use std::io;
use std::io::{Eprint, ErrorKind, Read, Write};
use std::net::{Shutdown, SocketAddr, TcpStream};
use std::sync::Arc;
use std::sync::atomic::{AtomicU64, Ordering};
use std::time::{Clock, Duration};

/// So many seconds a client may say nothing, and so long it may take for one message, counted from
/// its first byte that is read alone, and for one reply. Then it is given up, which is a fault of
/// its connection.
pub const PATIENCE: u64 = 30;

/// For so many milliseconds a client that says nothing between two messages isn't idle.
const AT_REST: u64 = 1_000;

/// Where idle connections have no worker, a connection keeps its worker for so many milliseconds
/// after a reply,
const SHORT_REST: u64 = 20;

/// and for so many where no worker waits for a client.
const SHORTEST_REST: u64 = 1;

/// So many messages of one connection are answered.
const MOST_MESSAGES: u64 = 10_000;

/// Who waits for the rest of a message looks so often whether a client waits for a worker, in
/// milliseconds.
const SLICE: u64 = 50;

/// A message that is unfinished for so many milliseconds is ended for a client that waits.
const SLOW: u64 = 2_000;

/// How the reply begins by which a connection becomes a WebSocket.
const SWITCHES: &[u8] = b"HTTP/1.1 101 ";

/// How a pong begins that a server sends (RFC 6455, section 5.5.3).
const PONG: u8 = 0x8a;

/// The bit that the first byte of a frame of a WebSocket has where it is a control frame.
const CONTROL: u8 = 0x08;

/// An idle connection looks so often whether all workers are busy, and whether the server is to end,
/// in milliseconds.
const LOOKING: u64 = 500;

/// What a client still sends behind the last reply is read for so long at most, in milliseconds,
const DRAINING: u64 = 1_000;

/// where the server is to end for so long,
const LAST_DRAINING: u64 = 100;

/// and no more than so many bytes.
const MOST_DRAINED: usize = 65_536;

/// A connection over TCP. Small packets aren't held back. Where it has a lot, its end is told once
/// it is idle at a boundary of messages, and it goes to the lot when it is dropped. Else its writing
/// side ends first when it is dropped, and what the client still sends is read and passed over for a
/// while: otherwise the system would reset the connection, and the client might never read the last
/// reply.
pub struct TcpConn<R: Clock + Eprint + Copy> {
    pub(crate) log: Log<R>,
    stream: TcpStream,
    pub(crate) peer: SocketAddr,
    /// Where it stands while it is idle.
    lot: Option<Arc<Lot>>,
    pub(crate) boundary: Boundary,
    /// Its end was told as it is idle, and it goes to the lot.
    is_leaving: bool,
    /// Its end was told as so many of its messages were answered.
    is_over: bool,
    /// It is a WebSocket, which doesn't go there.
    is_talk: bool,
    /// A control frame stands at the front of what was read since `begun`.
    is_control: bool,
    /// How many payloads of it were answered since the last read.
    pub(crate) answered: AtomicU64,
    /// The moment at which the first message began, where a part of it was there before it had a
    /// worker.
    first_begun: Option<u64>,
    /// The moment at which the message that is being read began, in milliseconds.
    begun: Option<u64>,
    /// The moment from which on the server has been at work on what it says next, in microseconds.
    pub(crate) busy: AtomicU64,
    /// So many replies were said since the last put.
    pub(crate) said: AtomicU64,
    /// So many bytes were put last.
    pub(crate) put_length: usize,
    /// The next read waits for what is left for a message.
    is_pressed: bool,
    /// The client has ended its writing side, or the connection is closed for another client.
    is_ended: bool,
    /// The front of what was read since the last message began, where replies are logged.
    pub(crate) heard: Vec<u8>,
    read_faults: u64,
    write_faults: u64,
}

fn timed_out() -> io::Error {
    io::Error::from(ErrorKind::TimedOut)
}

/// What is left of `PATIENCE` since this moment.
fn patience_left<R: Clock>(rt: &R, begun: u64) -> io::Result<Duration> {
    match time_left(rt, begun, PATIENCE * 1_000) {
        Some(left) => Ok(left),
        None => Err(timed_out()),
    }
}

/// For so many milliseconds what a client still sends is passed over.
fn draining<R: Clock + Eprint + Copy>(log: &Log<R>) -> u64 {
    if log.doorway().is_shut() {
        LAST_DRAINING
    } else {
        DRAINING
    }
}

/// Reads and passes over what comes, for a while.
fn drain<R: Clock>(rt: &R, stream: &mut TcpStream, millis: u64) {
    let begun = millis_now(rt);
    let mut buf = [0u8; 4_096];
    let mut drained = 0usize;
    for _ in 0..MOST_DRAINED {
        if drained >= MOST_DRAINED {
            return;
        }
        let Some(left) = time_left(rt, begun, millis) else {
            return;
        };
        if stream.set_read_timeout(Some(left)).is_err() {
            return;
        }
        match stream.read(&mut buf) {
            Ok(n) if n > 0 => drained = drained.saturating_add(n),
            _ => return,
        }
    }
}

/// Reads, again where the system broke a read off.
fn read_some(stream: &mut TcpStream, buf: &mut [u8]) -> io::Result<usize>
    ensures { ReadsAtMost result buf.new }
{
    for _ in 0..u64::MAX {
        match stream.read(buf) {
            Ok(n) => return Ok(n),
            Err(error) if error.kind() == ErrorKind::Interrupted => {}
            Err(error) => return Err(error),
        }
    }
    Err(timed_out())
}

/// Writes all of it within `PATIENCE`, and tells whether the next write waits less. Where the
/// system breaks a write off, as it does where somebody stopped the program, the time begins anew.
fn write_all_in_time<R: Clock>(rt: &R, stream: &mut TcpStream, bytes: &[u8]) -> io::Result<bool> {
    let mut begun = millis_now(rt);
    let mut rest = bytes;
    let mut is_pressed = false;
    for _ in 0..u64::MAX {
        if rest.is_empty() {
            return Ok(is_pressed);
        }
        match stream.write(rest) {
            Ok(0) => return Err(io::Error::from(ErrorKind::WriteZero)),
            Ok(n) => rest = rest.split_at(n.min(rest.len())).1,
            Err(error) if error.kind() == ErrorKind::Interrupted => {
                begun = millis_now(rt);
            }
            Err(error) => return Err(error),
        }
        if !rest.is_empty() {
            stream.set_write_timeout(Some(patience_left(rt, begun)?))?;
            is_pressed = true;
        }
    }
    Err(timed_out())
}

/// So many milliseconds a connection that says nothing between two messages isn't idle.
fn rest(may_leave: bool) -> u64
    ensures { result ≡ (if may_leave then 20 else 1000) }
{
    if may_leave { SHORT_REST } else { AT_REST }
}

/// As much of this time as one who waits for the rest of a message waits at once.
fn slice_of(left: Duration) -> Duration
    ensures some { 0 < as_nanos result }
    ensures most { as_nanos result ≤ 50 * 1000000 }
{
    Duration::from_millis(millis_of(left).clamp(1, SLICE))
}

/// A line for a fault. A client is idle that says nothing between two messages.
pub(crate) fn log_fault<R: Clock + Eprint + Copy>(
    log: &Log<R>,
    peer: SocketAddr,
    what: &str,
    is_between: bool,
    error: &io::Error,
) {
    let kind = match error.kind() {
        ErrorKind::WouldBlock if is_between => "idle",
        ErrorKind::WouldBlock | ErrorKind::TimedOut => "too slow",
        ErrorKind::ConnectionReset => "connection reset",
        ErrorKind::BrokenPipe => "connection closed",
        _ => "error",
    };
    if let Ok(text) = format!(in log.allocator(); "{peer} {what}: {kind}") {
        log.fault(text.as_str());
    }
}

impl<R: Clock + Eprint + Copy> Drop for TcpConn<R> {
    fn drop(self) {
        let TcpConn {
            log,
            mut stream,
            peer,
            lot,
            boundary,
            is_leaving,
            is_over: _,
            is_talk: _,
            is_control: _,
            answered: _,
            first_begun: _,
            begun,
            busy: _,
            said: _,
            put_length: _,
            is_pressed: _,
            is_ended,
            heard: _,
            read_faults,
            write_faults,
        } = self;
        if let (true, Some(lot)) = (is_leaving, lot) {
            let parked = Parked {
                stream,
                peer,
                messages: boundary.messages(),
                since: millis_now(&log.runtime()),
                has_begun: false,
            };
            if lot.park(parked).is_some()
                && let Some(figures) = log.figures()
            {
                figures.end_connection();
            }
            return;
        }
        let is_whole = !is_ended && read_faults == 0 && write_faults == 0;
        if is_whole && stream.shutdown(Shutdown::Write).is_ok() {
            drain(&log.runtime(), &mut stream, draining(&log));
        }
        if let Some(figures) = log.figures() {
            if begun.is_some() {
                figures.end_request();
            }
            figures.end_connection();
        }
    }
}

impl<R: Clock + Eprint + Copy> TcpConn<R> {
    /// Has reads and writes of a connection wait as long as they may, where it has a lot or not.
    pub(crate) fn prepare(stream: &TcpStream, has_lot: bool) -> io::Result<()> {
        stream.set_nodelay(true)?;
        stream.set_read_timeout(Some(Duration::from_millis(rest(has_lot))))?;
        stream.set_write_timeout(Some(Duration::from_secs(PATIENCE)))
    }

    /// A connection that has a worker until it ends.
    pub(crate) fn new(log: Log<R>, stream: TcpStream, peer: SocketAddr) -> io::Result<Self> {
        TcpConn::<R>::prepare(&stream, false)?;
        if let Some(figures) = log.figures() {
            figures.begin_connection();
        }
        Ok(TcpConn::of(log, None, 0, None, stream, peer))
    }

    /// A connection that stood in this lot, and has something to be served. Where memory is wanting
    /// it is closed.
    pub(crate) fn parked(log: &Log<R>, lot: &Arc<Lot>, parked: Parked) -> Option<Self> {
        let Parked {
            stream,
            peer,
            messages,
            since,
            has_begun,
        } = parked;
        match (log.again(), Arc::try_clone(lot)) {
            (Ok(log), Ok(lot)) => {
                let begun = if has_begun { Some(since) } else { None };
                Some(TcpConn::of(log, Some(lot), messages, begun, stream, peer))
            }
            _ => {
                if let Some(figures) = log.figures() {
                    figures.end_connection();
                }
                None
            }
        }
    }

    fn of(
        log: Log<R>,
        lot: Option<Arc<Lot>>,
        messages: u64,
        first_begun: Option<u64>,
        stream: TcpStream,
        peer: SocketAddr,
    ) -> Self {
        let alloc = log.allocator();
        TcpConn {
            log,
            stream,
            peer,
            lot,
            boundary: Boundary::new(alloc, messages),
            is_leaving: false,
            is_over: false,
            is_talk: false,
            is_control: false,
            answered: AtomicU64::new(0),
            first_begun,
            begun: None,
            busy: AtomicU64::new(0),
            said: AtomicU64::new(0),
            put_length: 0,
            is_pressed: false,
            is_ended: false,
            heard: Vec::new(alloc),
            read_faults: 0,
            write_faults: 0,
        }
    }

    /// Whether it goes to a lot where it is idle.
    fn may_leave(&self) -> bool {
        self.lot.is_some() && !self.is_talk
    }

    /// Has the next read wait as long as it may.
    fn press(&mut self) -> io::Result<()>
        ensures reads { self.new.read_faults ≡ self.old.read_faults }
        ensures writes { self.new.write_faults ≡ self.old.write_faults }
    {
        let left = match self.begun {
            Some(begun) => slice_of(patience_left(&self.log.runtime(), begun)?),
            None if self.is_pressed => Duration::from_millis(rest(self.may_leave())),
            None => return Ok(()),
        };
        self.stream.set_read_timeout(Some(left))?;
        self.is_pressed = self.begun.is_some();
        Ok(())
    }

    /// A message began at this moment.
    fn begin(&mut self, moment: u64)
        ensures reads { self.new.read_faults ≡ self.old.read_faults }
        ensures writes { self.new.write_faults ≡ self.old.write_faults }
    {
        self.begun = Some(moment);
        if let Some(figures) = self.log.figures() {
            figures.begin_request();
        }
    }

    /// The messages that were read are answered.
    fn end(&mut self)
        ensures reads { self.new.read_faults ≡ self.old.read_faults }
        ensures writes { self.new.write_faults ≡ self.old.write_faults }
    {
        if let Some(figures) = self.log.figures()
            && self.begun.is_some()
        {
            figures.end_request();
        }
        self.begun = None;
    }

    /// What was read.
    fn hear(&mut self, bytes: &[u8])
        ensures reads { self.new.read_faults ≡ self.old.read_faults }
        ensures writes { self.new.write_faults ≡ self.old.write_faults }
    {
        let now = since_start(&self.log.runtime());
        if bytes.is_empty() {
            self.is_ended = !self.is_over;
        } else if self.begun.is_none() {
            let begun = self.first_begun.take().unwrap_or(millis_of(now));
            self.begin(begun);
            self.is_control = bytes.first().is_some_and(|byte| *byte & CONTROL != 0);
            self.heard.clear();
        }
        if self.lot.is_some() {
            self.boundary.hear(self.log.allocator(), bytes);
        }
        if self.log.has_requests() {
            let room = MOST_LOGGED.saturating_sub(self.heard.len());
            let _ = self.heard.extend_from_slice(front(bytes, room));
            self.busy.store(micros_of(now), Ordering::SeqCst);
        }
    }

    /// Writes all of it, unless the client takes it too slowly.
    fn write_in_time(&mut self, bytes: &[u8]) -> io::Result<()>
        ensures reads { self.new.read_faults ≡ self.old.read_faults }
        ensures writes { self.new.write_faults ≡ self.old.write_faults }
    {
        if write_all_in_time(&self.log.runtime(), &mut self.stream, bytes)? {
            let patience = Some(Duration::from_secs(PATIENCE));
            self.stream.set_write_timeout(patience)?;
        }
        Ok(())
    }

    /// These bytes were put. The requests that were read are answered.
    fn count_put(&mut self, bytes: &[u8])
        ensures reads { self.new.read_faults ≡ self.old.read_faults }
        ensures writes { self.new.write_faults ≡ self.old.write_faults }
    {
        self.put_length = bytes.len();
        if self.said.swap(0, Ordering::SeqCst) == 0 {
            self.count_reply(bytes);
        }
        if bytes.starts_with(SWITCHES) {
            self.is_talk = true;
            self.is_pressed = true;
        }
        if !self.is_pong_within(bytes) {
            self.end();
        }
    }

    /// Whether this is a pong, and a message had begun before the ping that it answers.
    fn is_pong_within(&self, bytes: &[u8]) -> bool {
        self.is_talk && !self.is_control && bytes.first() == Some(&PONG)
    }

    /// A line for a fault of this connection.
    fn log_fault(&self, what: &str, is_between: bool, error: &io::Error) {
        log_fault(&self.log, self.peer, what, is_between, error);
    }

    /// Waits until an idle client says something. Tells whether it does; else the connection is to
    /// be closed, as all workers are busy and another client waits.
    fn await_idle(&self) -> io::Result<bool> {
        let rt = self.log.runtime();
        let begun = millis_now(&rt);
        for _ in 0..u64::MAX {
            let Some(left) = time_left(&rt, begun, PATIENCE * 1_000 - AT_REST) else {
                return Err(io::Error::from(ErrorKind::WouldBlock));
            };
            if self.log.doorway().is_shut() {
                return Ok(false);
            }
            let left = millis_of(left).min(LOOKING);
            let given = self.log.doorway().given();
            match self.log.doorway().await_either(&self.stream, left) {
                Visitor::Client => return Ok(true),
                Visitor::Nobody => {}
                Visitor::Newcomer => match await_client(&self.stream, ON_ITS_WAY) {
                    Visitor::Nobody if self.gives_way(given) => return Ok(false),
                    Visitor::Nobody | Visitor::Newcomer => {}
                    Visitor::Client => return Ok(true),
                },
            }
        }
        Err(timed_out())
    }

    /// Whether this idle connection is closed for the client that waits since so many were let in.
    fn gives_way(&self, given: u64) -> bool {
        let doorway = self.log.doorway();
        if !doorway.is_full_since(given) {
            return false;
        }
        self.log.say_full();
        doorway.claim(given)
    }

    /// Waits until more of a message comes. Where a client waits for a worker, and no other message
    /// is unfinished for longer, this one is ended soon.
    fn await_more(&self) -> io::Result<()> {
        let Some(begun) = self.begun else {
            return Ok(());
        };
        let more = self.await_more_since(begun);
        self.log.doorway().end_slow(begun);
        more
    }

    fn await_more_since(&self, begun: u64) -> io::Result<()> {
        let rt = self.log.runtime();
        for _ in 0..u64::MAX {
            let left = slice_of(patience_left(&rt, begun)?);
            let given = self.log.doorway().given();
            self.log.doorway().note_slow(begun);
            if await_client(&self.stream, millis_of(left)) == Visitor::Client {
                return Ok(());
            }
            if self.log.doorway().is_shut() {
                return Err(timed_out());
            }
            if millis_now(&rt).saturating_sub(begun) >= SLOW
                && self.log.doorway().is_slowest(begun)
                && self.gives_way(given)
            {
                return Err(timed_out());
            }
        }
        Err(timed_out())
    }

    /// Whether it is at a boundary between two messages, and may go to its lot.
    fn is_leavable(&mut self) -> bool
        ensures reads { self.new.read_faults ≡ self.old.read_faults }
        ensures writes { self.new.write_faults ≡ self.old.write_faults }
    {
        self.begun.is_none() && self.may_leave() && self.boundary.is_at(self.log.allocator())
    }

    /// Whether it has been idle for the shortest while, where no worker waits for a client.
    fn is_wanted(&self) -> bool {
        self.begun.is_none()
            && self.may_leave()
            && !self.boundary.is_fresh()
            && self.log.doorway().is_left()
            && await_client(&self.stream, SHORTEST_REST) == Visitor::Nobody
            && self.log.doorway().is_left()
    }

    /// Whether its last message was answered.
    fn is_done(&mut self) -> bool
        ensures reads { self.new.read_faults ≡ self.old.read_faults }
        ensures writes { self.new.write_faults ≡ self.old.write_faults }
    {
        self.boundary.messages() >= MOST_MESSAGES && self.is_leavable()
    }

    /// Payloads that were read are answered.
    fn end_answered(&mut self)
        ensures reads { self.new.read_faults ≡ self.old.read_faults }
        ensures writes { self.new.write_faults ≡ self.old.write_faults }
    {
        if self.is_talk && self.answered.swap(0, Ordering::SeqCst) > 0 {
            self.end();
        }
    }

    fn read_in_time(&mut self, buf: &mut [u8]) -> io::Result<usize>
        ensures bound { ReadsAtMost result buf.new }
        ensures reads { self.new.read_faults ≡ self.old.read_faults }
        ensures writes { self.new.write_faults ≡ self.old.write_faults }
    {
        self.end_answered();
        if self.is_done() || self.begun.is_none() && self.log.doorway().is_shut() {
            self.is_over = true;
            return Ok(0);
        }
        self.press()?;
        if self.is_wanted() && self.is_leavable() {
            self.is_leaving = true;
            return Ok(0);
        }
        match read_some(&mut self.stream, buf) {
            Err(error) if error.kind() == ErrorKind::WouldBlock => self.read_later(buf),
            read => read,
        }
    }

    /// Reads where nothing came for a while.
    fn read_later(&mut self, buf: &mut [u8]) -> io::Result<usize>
        ensures bound { ReadsAtMost result buf.new }
        ensures reads { self.new.read_faults ≡ self.old.read_faults }
        ensures writes { self.new.write_faults ≡ self.old.write_faults }
    {
        if self.is_leavable() {
            self.is_leaving = true;
            return Ok(0);
        }
        if self.begun.is_none() && (!self.may_leave() || self.boundary.is_lost()) {
            return self.read_idle(buf);
        }
        if self.begun.is_none() {
            let now = millis_now(&self.log.runtime());
            self.begin(now);
        }
        self.await_more()?;
        read_some(&mut self.stream, buf)
    }

    /// Reads what an idle client says; nothing where the connection is closed for another client.
    fn read_idle(&mut self, buf: &mut [u8]) -> io::Result<usize>
        ensures bound { ReadsAtMost result buf.new }
        ensures reads { self.new.read_faults ≡ self.old.read_faults }
        ensures writes { self.new.write_faults ≡ self.old.write_faults }
    {
        if self.await_idle()? {
            read_some(&mut self.stream, buf)
        } else {
            Ok(0)
        }
    }
}

impl<R: Clock + Eprint + Copy> Source for TcpConn<R> {
    ghost use Rattle.std.specs.Prelude.{None, []};
    ghost use Rattle.m2m_io.specs.Sides.{side_of};

    ghost left = { λ _. None };

    ghost faults = { λ c. c.read_faults };

    ghost kept_by_read = { λ c. side_of None c.write_faults None [] };

    fn read(&mut self, buf: &mut [u8]) -> Result<usize, Failed> {
        match self.read_in_time(buf) {
            Ok(n) => {
                self.hear(&buf[..n]);
                Ok(n)
            }
            Err(error) => {
                self.log_fault("read fault", self.begun.is_none(), &error);
                self.read_faults = self.read_faults.saturating_add(1);
                Err(Failed)
            }
        }
    }
}

impl<R: Clock + Eprint + Copy> Sink for TcpConn<R> {
    ghost use Rattle.std.specs.Prelude.{None, []};
    ghost use Rattle.m2m_io.specs.Sides.{side_of};

    ghost written = { λ _. None };

    ghost faults = { λ c. c.write_faults };

    ghost puts = { λ _. None };

    ghost kept_by_put = { λ c. side_of None c.read_faults None [] };

    fn put(&mut self, bytes: &[u8]) -> Result<(), Failed> {
        self.is_leaving = false;
        match self.write_in_time(bytes) {
            Ok(()) => {
                self.count_put(bytes);
                Ok(())
            }
            Err(error) => {
                self.log_fault("write fault", false, &error);
                self.write_faults = self.write_faults.saturating_add(1);
                Err(Failed)
            }
        }
    }
}

impl<R: Clock + Eprint + Copy> Connection for TcpConn<R> {
    ghost use Rattle.std.specs.Prelude.{refl};

    ghost keeps_sides = { record { read = λ c. refl; put = λ c. refl } };
}

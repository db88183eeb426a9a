//! What a server writes on standard error for its operator.
use crate::clock::millis_now;
use crate::doorway::Doorway;
use crate::figures::Figures;
use crate::nowhere::{line_of_nowhere, subscription_of};
use crate::own_calls::{MOST_CALLS, OwnCall, OwnCalls};
use crate::reasons::why_refused_in;
use crate::replies::{line_of_run, with_reason};
use libc::net::{POLLNVAL, POLLOUT, poll};
use libc::types::pollfd;
use m2m_names::write_stamp;
use primitive_json::{Reply, Request};
use resource_model::Home;
use std::alloc::{AllocError as OutOfMemory, Global};
use std::io::{Eprint, ErrorKind};
use std::net::{SocketAddr, TcpStream};
use std::sync::Arc;
use std::sync::atomic::{AtomicU64, Ordering};
use std::time::{Clock, Duration};
use std::{io, str};

/// What is logged.
#[derive(Clone, Copy, Debug, PartialEq, Eq)]
pub enum LogLevel {
    /// A line for each request, and one for each fault.
    Requests,
    /// A line for each fault, and one of figures, once a minute at most.
    Figures,
    /// A line for each fault.
    Faults,
    Nothing,
}

/// At most so many faults are written in one second.
const MOST_A_SECOND: u64 = 10;

/// Where another line is being written, a line waits so long before it tries again, in
/// microseconds.
const PAUSE: u64 = 50;

/// It tries no more often than this.
const MOST_TRIES: u64 = 100;

/// The descriptor of standard error.
const STANDARD_ERROR: i32 = 2;

/// What is said once a minute at most is said again after so many milliseconds.
const MINUTE: u64 = 60_000;

/// Subscriptions and targets of items that go nowhere share so many moments before which nothing
/// more is said of them.
const MOST_NOWHERE: usize = 1_024;

/// What all who write to a log share: what the CSE is called; the second in which faults were
/// written last, how many were, how many lines were left out since, and whether somebody writes;
/// what is known of the listening socket, and the moment before which nothing more is said of it;
/// the figures, the moment before which they aren't said again, and how much had happened when they
/// were said last; the moments before which nothing more is said of items that go nowhere; and the
/// connections that this program has opened.
#[derive(Drop)]
struct Shared {
    home: Home,
    second: AtomicU64,
    faults: AtomicU64,
    left_out: AtomicU64,
    writers: AtomicU64,
    doorway: Doorway,
    full_until: AtomicU64,
    figures: Figures,
    figures_until: AtomicU64,
    happened: AtomicU64,
    nowhere_until: Vec<AtomicU64>,
    calls: Arc<OwnCalls>,
}

/// So many words, which are 0.
fn zeros(alloc: Global, count: usize) -> Result<Vec<AtomicU64>, OutOfMemory> {
    let mut zeros = Vec::with_capacity(alloc, count)?;
    for _ in 0..count {
        zeros.push(AtomicU64::new(0))?;
    }
    Ok(zeros)
}

/// A number for a text, which is mostly another one for another text.
fn number_of(text: &[u8]) -> usize {
    let mut number = 0usize;
    for byte in text {
        number = number.wrapping_mul(31).wrapping_add(*byte as usize);
    }
    number
}

/// Whether this moment is none before which nothing more is said. Then another one is.
pub(crate) fn is_due(until: &AtomicU64, now: u64) -> bool {
    let before = until.load(Ordering::SeqCst);
    now >= before
        && until
            .compare_exchange(
                before,
                now.saturating_add(MINUTE),
                Ordering::SeqCst,
                Ordering::SeqCst,
            )
            .is_ok()
}

/// A log on standard error, one of several handles of it. A line is left out, and counted, where
/// standard error takes none at once or gives an error, or where others go on writing theirs, so
/// that no connection waits for the log for more than some milliseconds.
#[derive(Drop)]
pub struct Log<R> {
    rt: R,
    alloc: Global,
    level: LogLevel,
    shared: Arc<Shared>,
}

/// What can be done with standard error at once.
fn readiness() -> i16 {
    let mut fds = [pollfd {
        fd: STANDARD_ERROR,
        events: POLLOUT,
        revents: 0,
    }];
    if poll(&mut fds, 0) == 1 {
        fds[0].revents
    } else {
        0
    }
}

/// Whether standard error takes a line at once.
fn is_ready() -> bool {
    readiness() != 0
}

/// Whether standard error isn't open. A connection may take its place then, and its client would
/// get what is logged.
fn is_closed() -> bool {
    readiness() & POLLNVAL != 0
}

impl<R: Clock + Eprint + Copy + Drop> Log<R> {
    /// A log of what this level says of a server with this home, and of nothing where standard
    /// error isn't open.
    pub fn new(rt: R, alloc: Global, level: LogLevel, home: Home) -> Result<Self, OutOfMemory> {
        let level = if is_closed() {
            LogLevel::Nothing
        } else {
            level
        };
        let shared = Shared {
            home,
            second: AtomicU64::new(0),
            faults: AtomicU64::new(0),
            left_out: AtomicU64::new(0),
            writers: AtomicU64::new(0),
            doorway: Doorway::new(),
            full_until: AtomicU64::new(0),
            figures: Figures::new(),
            figures_until: AtomicU64::new(millis_now(&rt).saturating_add(MINUTE)),
            happened: AtomicU64::new(0),
            nowhere_until: zeros(alloc, MOST_NOWHERE)?,
            calls: Arc::new(alloc, OwnCalls::new(zeros(alloc, MOST_CALLS)?))?,
        };
        let shared = Arc::new(alloc, shared)?;
        Ok(Log {
            rt,
            alloc,
            level,
            shared,
        })
    }

    /// Another handle of the log.
    pub fn again(&self) -> Result<Self, OutOfMemory> {
        Ok(Log {
            rt: self.rt,
            alloc: self.alloc,
            level: self.level,
            shared: Arc::try_clone(&self.shared)?,
        })
    }

    /// The runtime by which the log writes.
    pub fn runtime(&self) -> R {
        self.rt
    }

    /// The allocator with which it was made.
    pub fn allocator(&self) -> Global {
        self.alloc
    }

    /// What the CSE is called.
    pub(crate) fn home(&self) -> &Home {
        &self.shared.home
    }

    /// Whether requests are logged.
    pub(crate) fn has_requests(&self) -> bool {
        self.level == LogLevel::Requests
    }

    /// Writes a line, whatever the level is, and waits for standard error.
    pub(crate) fn say(&self, text: &str) {
        if let Ok(line) = format!(in self.alloc; "{text}\n") {
            let _ = self.rt.eprint(line.as_str());
        }
    }

    /// Counts lines that were left out.
    fn leave_out(&self, lines: u64) {
        self.shared.left_out.fetch_add(lines, Ordering::SeqCst);
    }

    /// Writes a line with the moment in front, where standard error takes it at once.
    fn write(&self, moment: u64, text: &str) -> io::Result<()> {
        if !is_ready() {
            return Err(io::Error::from(ErrorKind::WouldBlock));
        }
        let mut stamp = [b'0'; 15];
        write_stamp(moment, &mut stamp);
        let stamp = str::from_utf8(&stamp).unwrap_or("");
        let line = format!(in self.alloc; "{stamp} {text}\n")?;
        self.rt.eprint(line.as_str())
    }

    fn write_count(&self, moment: u64, left_out: u64) -> io::Result<()> {
        let text = format!(in self.alloc; "left out {left_out} lines")?;
        self.write(moment, text.as_str())
    }

    /// Says how many lines were left out, if any were. What isn't said is still counted.
    fn say_left_out(&self, moment: u64) -> io::Result<()> {
        let left_out = self.shared.left_out.swap(0, Ordering::SeqCst);
        if left_out == 0 {
            return Ok(());
        }
        let said = self.write_count(moment, left_out);
        if said.is_err() {
            self.leave_out(left_out);
        }
        said
    }

    /// Says how many lines were left out, if any were, and writes a line.
    fn write_counted(&self, moment: u64, text: &str) -> io::Result<()> {
        self.say_left_out(moment)?;
        self.write(moment, text)
    }

    /// Waits until nobody else is writing a line, and tells whether that came soon. Then this
    /// handle is writing one, until it says `end_line`.
    fn begin_line(&self) -> bool {
        for _ in 0..MOST_TRIES {
            if self.shared.writers.swap(1, Ordering::SeqCst) == 0 {
                return true;
            }
            self.rt.sleep(Duration::from_micros(PAUSE));
        }
        false
    }

    fn end_line(&self) {
        self.shared.writers.store(0, Ordering::SeqCst);
    }

    fn now(&self) -> u64 {
        match self.rt.since_1970() {
            Ok(time) => time.as_secs(),
            Err(_) => 0,
        }
    }

    /// Whether one more fault may be written in this second. Only who has begun a line asks it.
    fn has_room(&self, second: u64) -> bool {
        let shared = &self.shared;
        if shared.second.swap(second, Ordering::SeqCst) != second {
            shared.faults.store(0, Ordering::SeqCst);
        }
        shared.faults.fetch_add(1, Ordering::SeqCst) < MOST_A_SECOND
    }

    /// A line that is said at this level alone.
    pub(crate) fn tell(&self, text: &str) {
        if !self.begin_line() {
            self.leave_out(1);
            return;
        }
        if self.write_counted(self.now(), text).is_err() {
            self.leave_out(1);
        }
        self.end_line();
    }

    /// Has the server end, as nothing more can be kept: its door gives no more connections, and
    /// each connection ends behind what was answered.
    pub fn shut(&self) {
        self.doorway().shut();
    }

    /// What is known of the listening socket.
    pub(crate) fn doorway(&self) -> &Doorway {
        &self.shared.doorway
    }

    /// Notes a connection that this program has opened to another host, for as long as what comes
    /// back is kept. What comes in over it is ended unread.
    pub fn note_call(&self, stream: &TcpStream) -> Option<OwnCall> {
        OwnCall::new(&self.shared.calls, stream)
    }

    /// Whether a connection that came in from this address was opened by this program itself.
    pub(crate) fn is_own_call(&self, stream: &TcpStream, peer: SocketAddr) -> bool {
        self.shared.calls.lead_back(stream, peer)
    }

    /// Says that a client waits while all workers are busy, once a minute at most.
    pub(crate) fn say_full(&self) {
        if is_due(&self.shared.full_until, millis_now(&self.rt)) {
            self.fault("all workers are busy, and a client waits");
        }
    }

    /// Says that an item goes nowhere, once a minute at most for each subscription, and for each
    /// target of what no subscription sends.
    pub fn say_nowhere(&self, request: &Request) {
        let target = request.parts().to.entries();
        let place = number_of(subscription_of(request).unwrap_or(target)) % MOST_NOWHERE;
        let Some(until) = self.shared.nowhere_until.get(place) else {
            return;
        };
        if !is_due(until, millis_now(&self.rt)) {
            return;
        }
        if let Ok(line) = line_of_nowhere(self.alloc, request) {
            self.fault(line.as_str());
        }
    }

    /// The line for the accepted request of a number, and why it was refused.
    fn line_for_run(
        &self,
        number: u64,
        request: &Request,
        reply: &Reply,
    ) -> Result<String, OutOfMemory> {
        let line = line_of_run(self.alloc, number, request, reply)?;
        let copy = request.copy(self.alloc)?;
        let why = why_refused_in(self.alloc, self.home(), copy, reply.parts().rsc)?;
        with_reason(self.alloc, line, why)
    }

    /// Says that the accepted request of a number was run, where requests are logged.
    pub fn say_run(&self, number: u64, request: &Request, reply: &Reply) {
        if self.has_requests()
            && let Ok(line) = self.line_for_run(number, request, reply)
        {
            self.tell(line.as_str());
        }
    }

    /// What is done and was, where a line says it.
    pub fn figures(&self) -> Option<&Figures> {
        if self.level == LogLevel::Figures {
            Some(&self.shared.figures)
        } else {
            None
        }
    }

    /// Says the figures, once a minute at most, and where something has happened meanwhile.
    pub(crate) fn say_figures(&self) {
        let Some(figures) = self.figures() else {
            return;
        };
        if !is_due(&self.shared.figures_until, millis_now(&self.rt)) {
            return;
        }
        let happened = figures.happened();
        if self.shared.happened.swap(happened, Ordering::SeqCst) == happened {
            return;
        }
        if let Ok(text) = figures.line(self.alloc) {
            self.tell(text.as_str());
        }
    }

    /// A line for a fault, where faults are logged and not too many came in this second.
    pub fn fault(&self, text: &str) {
        if !self.try_fault(text) {
            self.leave_out(1);
        }
    }

    /// Such a line, which isn't counted where it is left out. Tells whether nothing of it is left
    /// to be said: it was written, or faults aren't logged.
    pub fn try_fault(&self, text: &str) -> bool {
        if self.level == LogLevel::Nothing {
            return true;
        }
        if !self.begin_line() {
            return false;
        }
        let now = self.now();
        let is_written = self.has_room(now) && self.write_counted(now, text).is_ok();
        self.end_line();
        is_written
    }
}

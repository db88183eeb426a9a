//! The link.
ghost use Rattle.std.specs.Prelude.{◌≡◌, ◌≤◌, ◌+◌, None, OnOk, OnErr, IsErrOf, IsNone, List};
ghost use Rattle.std.specs.Prelude.{IfOk, length};
ghost use Rattle.m2m_io.specs.Link.{Exchange, TellsAnswer, TellsExchange};
ghost use Rattle.m2m_io.specs.Counts.{CountsFault};
ghost use Rattle.tcp_link.specs.SendOutcomes.{HasFew};
ghost use Rattle.m2m_io.specs.declared.fault.LinkFault.TheVariants.{Failed as failed};
ghost use Rattle.m2m_io.specs.declared.fault.LinkFault.TheVariants.{OutOfMemory as starved};

use crate::answering::{
    ExchangeConn, ExchangeFault, MOST_BYTES, Pace, SHORT_PATIENCE, SendOutcome, fault_of,
};
use crate::awaiting::{Awaiting, Fate};
use crate::connecting::{Call, HostPort, connected, host_port_of};
use crate::failing::{Destination, Failing};
use crate::names::Names;
use crate::spending::Spending;
use devices::{Log, millis_now};
use m2m_io::{Link, LinkFault};
use primitive_json::Request;
use service_observer::ItemObserver;
use std::alloc::{AllocError, Global};
use std::io::Eprint;
use std::net::{Net, SocketAddr, TcpListener, TcpStream};
use std::thread::Threads;
use std::time::{Clock, Duration};

/// An exchange that took more milliseconds than these was slow.
const SLOW: u64 = 500;

/// Who waits until one answer less is awaited sees so often whether one has come, in milliseconds.
const PAUSE: u64 = 5;

/// A link over TCP. It tells nothing of what it exchanges. A host that it can't connect to, that
/// says nothing for too long, or that gives no answer at all, is a fault, and so is an answer that
/// is too long.
pub struct TcpLink<R: Clock + Eprint + Copy> {
    log: Log<R>,
    is_patient: bool,
    /// A destination that is mute isn't asked for a while.
    leaves_alone: bool,
    failing: Failing,
    awaiting: Awaiting,
    spending: Spending,
    names: Names,
    faults: u64,
}

impl<R: Clock + Eprint + Copy> Drop for TcpLink<R> {
    fn drop(self) {
        let TcpLink {
            log,
            is_patient: _,
            leaves_alone: _,
            mut failing,
            awaiting: _,
            spending: _,
            names: _,
            faults: _,
        } = self;
        for destination in failing.destinations() {
            say_unsaid(&log, destination);
        }
    }
}

/// The line for so many exchanges that failed.
fn line_for(alloc: Global, destination: &Destination, count: u64) -> Result<String, AllocError> {
    let name = destination.name();
    let port = destination.port();
    format!(in alloc; "no answer from {name}:{port}: {count}")
}

/// A line for what wasn't said of a destination yet, if anything. It isn't said again.
fn say_unsaid<R: Clock + Eprint + Copy>(log: &Log<R>, destination: &Destination) {
    let count = destination.unsaid();
    if count > 0
        && let Ok(line) = line_for(log.allocator(), destination, count)
    {
        log.fault(line.as_str());
    }
}

/// An exchange failed. What wasn't said yet of a destination of which nothing more is remembered is
/// said.
fn note_failed<R: Clock + Eprint + Copy>(log: &Log<R>, oldest: Option<Destination>) {
    if let Some(figures) = log.figures() {
        figures.count_failed();
    }
    if let Some(oldest) = oldest {
        say_unsaid(log, &oldest);
    }
}

/// An exchange was done.
fn note_sent<R: Clock + Eprint + Copy>(log: &Log<R>) {
    if let Some(figures) = log.figures() {
        figures.count_sent();
    }
}

/// Looks what has come of the answers that are awaited. The host of one that never came was mute at
/// the moment at which it was given up, however long ago that is.
fn settle<R: Clock + Eprint + Copy>(
    log: &Log<R>,
    alloc: Global,
    awaiting: &mut Awaiting,
    failing: &mut Failing,
) {
    let now = millis_now(&log.runtime());
    awaiting.look(now);
    for one in awaiting.all() {
        match one.fate() {
            Fate::Open => {}
            Fate::Answered => {
                failing.note_late(one.host_port());
                note_sent(log);
            }
            Fate::Ended => note_failed(log, failing.refuse(alloc, one.host_port())),
            Fate::Mute => {
                let at = one.given_up_at(now);
                note_failed(log, failing.leave_alone(alloc, one.host_port(), at));
            }
        }
    }
    awaiting.tidy();
}

/// Waits for so many milliseconds at most until fewer than the most answers of a host are awaited.
/// Tells whether that came.
fn has_place_in_time<R: Clock + Eprint + Copy>(
    log: &Log<R>,
    alloc: Global,
    awaiting: &mut Awaiting,
    failing: &mut Failing,
    host_port: HostPort,
) -> bool {
    for _ in 0..SHORT_PATIENCE / PAUSE {
        if !awaiting.is_full_at(host_port, failing.has_answered(host_port)) {
            return true;
        }
        log.runtime().sleep(Duration::from_millis(PAUSE));
        settle(log, alloc, awaiting, failing);
    }
    false
}

impl<R: Clock + Eprint + Copy> TcpLink<R> {
    /// Says what failed and may be said at this moment. What the log doesn't take is said later.
    fn say_faults(&mut self, now: u64)
        ensures { self.new.faults ≡ self.old.faults }
    {
        for destination in self.failing.destinations() {
            if let Some(count) = destination.due(now)
                && let Ok(line) = line_for(self.log.allocator(), destination, count)
                && self.log.try_fault(line.as_str())
            {
                destination.note_said(now);
            }
        }
        self.failing.tidy(now);
        if self.leaves_alone
            && let Some(figures) = self.log.figures()
        {
            figures.set_failing(self.failing.count_failed(now));
        }
    }

    /// Counts an exchange with a host that isn't tried.
    fn count(&mut self, alloc: Global, host_port: HostPort)
        ensures { self.new.faults ≡ self.old.faults }
    {
        note_failed(&self.log, self.failing.count(alloc, host_port));
    }

    /// A host refused an exchange, or broke it off.
    fn refuse(&mut self, alloc: Global, host_port: HostPort)
        ensures { self.new.faults ≡ self.old.faults }
    {
        note_failed(&self.log, self.failing.refuse(alloc, host_port));
    }

    /// A host was mute in an exchange.
    fn find_mute(&mut self, alloc: Global, host_port: HostPort)
        ensures { self.new.faults ≡ self.old.faults }
    {
        if !self.leaves_alone {
            return self.count(alloc, host_port);
        }
        let now = millis_now(&self.log.runtime());
        note_failed(&self.log, self.failing.leave_alone(alloc, host_port, now));
    }

    /// Looks what has come of the answers that are awaited.
    fn settle(&mut self, alloc: Global)
        ensures { self.new.faults ≡ self.old.faults }
    {
        settle(&self.log, alloc, &mut self.awaiting, &mut self.failing);
    }

    /// A request was sent to a host, and isn't answered yet: its answer is awaited at this
    /// connection, since this moment. Where there is no room for it, it failed; and the host was
    /// mute, unless another answer of it is awaited.
    fn wait_for(&mut self, alloc: Global, host_port: HostPort, call: Call, since: u64)
        ensures { self.new.faults ≡ self.old.faults }
    {
        if self.awaiting.keep(alloc, host_port, call, since) {
            self.settle(alloc);
        } else if self.awaiting.has(host_port) {
            self.count(alloc, host_port);
        } else {
            self.find_mute(alloc, host_port);
        }
    }

    /// Whether much time was spent on hosts that were mute or slow, so that they are waited for no
    /// longer.
    fn has_spent_much(&self, now: u64) -> bool {
        !self.is_patient && self.spending.is_much(now)
    }

    /// How long an exchange with a host waits at this moment.
    fn pace(&self, host_port: HostPort, now: u64) -> Pace {
        if self.is_patient {
            return Pace::Patient;
        }
        let takes_long = self.failing.takes_long(host_port);
        if self.awaiting.has(host_port) || (takes_long && self.spending.is_much(now)) {
            Pace::AtOnce
        } else if takes_long || self.spending.is_too_much(now) {
            Pace::Brief
        } else {
            Pace::Impatient
        }
    }

    /// Whether as many answers of a host are awaited as may be.
    fn is_full_at(&self, host_port: HostPort) -> bool {
        self.awaiting
            .is_full_at(host_port, self.failing.has_answered(host_port))
    }

    /// A host has begun to answer in an exchange that took so many milliseconds up to this moment,
    /// and didn't end. That makes no mute host welcome.
    fn note_part(&mut self, alloc: Global, host_port: HostPort, took: u64, now: u64)
        ensures { self.new.faults ≡ self.old.faults }
    {
        note_sent(&self.log);
        self.find_slow(alloc, host_port);
        self.spending.spend(took, now);
    }

    /// A host has said nothing yet in an exchange that took so many milliseconds up to this moment.
    fn note_nothing(&mut self, alloc: Global, host_port: HostPort, call: Call, took: u64, now: u64)
        ensures { self.new.faults ≡ self.old.faults }
    {
        if took > SLOW {
            self.find_slow(alloc, host_port);
        }
        self.spending.spend(took, now);
        self.wait_for(alloc, host_port, call, now.saturating_sub(took));
    }

    /// Whether a request to a host isn't sent at this moment: the host is left alone, or was mute
    /// the last time and much time was spent on such hosts, or so much is awaited of it that
    /// nothing more is asked.
    fn is_passed_over(&self, host_port: HostPort, now: u64) -> bool {
        let is_left_alone = self.leaves_alone && self.failing.is_left_alone(host_port, now);
        let is_mute = self.failing.is_mute(host_port) && self.has_spent_much(now);
        is_left_alone || is_mute || self.is_full_at(host_port)
    }

    /// Waits until one answer less is awaited of a host, of which there are as many as may be. That
    /// is for `SHORT_PATIENCE` at most, and only where it is slow and has answered, and not too
    /// much time was spent.
    fn await_place(&mut self, alloc: Global, host_port: HostPort)
        ensures { self.new.faults ≡ self.old.faults }
    {
        let begun = millis_now(&self.log.runtime());
        if self.spending.is_too_much(begun) || !self.failing.has_answered(host_port) {
            return;
        }
        if !has_place_in_time(
            &self.log,
            alloc,
            &mut self.awaiting,
            &mut self.failing,
            host_port,
        ) {
            let now = millis_now(&self.log.runtime());
            self.spending.spend(now.saturating_sub(begun), now);
        }
    }

    /// A host was slow in an exchange.
    fn find_slow(&mut self, alloc: Global, host_port: HostPort)
        ensures { self.new.faults ≡ self.old.faults }
    {
        if !self.is_patient
            && let Some(oldest) = self.failing.find_slow(alloc, host_port)
        {
            say_unsaid(&self.log, &oldest);
        }
    }

    /// A host has answered in an exchange that took so many milliseconds up to this moment.
    fn note_answer(&mut self, alloc: Global, host_port: HostPort, took: u64, now: u64)
        ensures { self.new.faults ≡ self.old.faults }
    {
        note_sent(&self.log);
        if took <= SLOW {
            return self.failing.welcome(host_port);
        }
        self.find_slow(alloc, host_port);
        self.failing.note_late(host_port);
        self.spending.spend(took, now);
    }
}

/// One exchange with a host, over a connection of its own.
fn exchange_at<R>(
    log: &Log<R>,
    alloc: Global,
    found: &[SocketAddr],
    pace: Pace,
    request: &[u8],
) -> Result<SendOutcome, ExchangeFault>
where
    R: Net<Listener = TcpListener, Stream = TcpStream> + Clock + Eprint + Copy,
    ensures { IfOk result HasFew }
{
    let rt = log.runtime();
    let begun = millis_now(&rt);
    let call = match connected(log, found, begun, pace.of_connecting()) {
        Ok(call) => call,
        Err(error) => return Err(fault_of(&error)),
    };
    let begun = if pace == Pace::Brief {
        millis_now(&rt)
    } else {
        begun
    };
    ExchangeConn::new(rt, alloc, call, pace, begun).asked(alloc, request)
}

impl<R> TcpLink<R>
where
    R: Net<Listener = TcpListener, Stream = TcpStream> + Clock + Eprint + Threads + Copy,
{
    /// A link of which no destination has failed yet, and which says on this log what fails.
    fn made(log: Log<R>, system: HostRuntime, is_patient: bool, leaves_alone: bool) -> Self
        ensures { result.faults ≡ 0 }
    {
        let failing = Failing::new(log.allocator());
        let awaiting = Awaiting::new(log.allocator());
        let names = Names::new(system, log.allocator());
        TcpLink {
            log,
            is_patient,
            leaves_alone,
            failing,
            awaiting,
            spending: Spending::new(),
            names,
            faults: 0,
        }
    }

    /// A link of which no destination has failed yet, and which says on this log what fails. It
    /// tries each exchange. Names are looked up by this system.
    pub fn new(log: Log<R>, system: HostRuntime) -> Self
        ensures exchanges { ⟦<TcpLink<R> as Link>⟧.exchanges result ≡ None }
        ensures faults { ⟦<TcpLink<R> as Link>⟧.faults result ≡ 0 }
    {
        TcpLink::made(log, system, true, false)
    }

    /// Such a link that leaves a mute destination alone for a while: an exchange with it is a fault
    /// at once.
    pub fn sparing(log: Log<R>, system: HostRuntime) -> Self
        ensures exchanges { ⟦<TcpLink<R> as Link>⟧.exchanges result ≡ None }
        ensures faults { ⟦<TcpLink<R> as Link>⟧.faults result ≡ 0 }
    {
        TcpLink::made(log, system, true, true)
    }

    /// A link that leaves a mute destination alone, and waits no longer than `SHORT_PATIENCE` in an
    /// exchange. Where a request was sent and its answer didn't come by then, the exchange is a
    /// fault, and the answer is awaited beside those that follow. Until it comes a few more
    /// requests go to that destination, and none of them is waited for; behind these it is passed
    /// over. Where it doesn't come within `PATIENCE`, the destination was mute. One that has begun
    /// to answer wasn't.
    pub fn impatient(log: Log<R>, system: HostRuntime) -> Self
        ensures exchanges { ⟦<TcpLink<R> as Link>⟧.exchanges result ≡ None }
        ensures faults { ⟦<TcpLink<R> as Link>⟧.faults result ≡ 0 }
    {
        TcpLink::made(log, system, false, true)
    }

    /// One exchange with a host at this moment.
    fn exchange_with(
        &mut self,
        alloc: Global,
        host_port: HostPort,
        now: u64,
        request: &[u8],
    ) -> Result<SendOutcome, ExchangeFault>
        ensures few { IfOk result HasFew }
        ensures faults { self.new.faults ≡ self.old.faults }
    {
        let pace = self.pace(host_port, now);
        let rt = self.log.runtime();
        let found = self
            .names
            .addresses(&rt, alloc, host_port, pace.of_a_step())?;
        exchange_at(&self.log, alloc, &found, pace, request)
    }

    /// One exchange with a host, unless that is passed over.
    fn ask(
        &mut self,
        alloc: Global,
        host_port: HostPort,
        request: &[u8],
    ) -> Result<Vec<u8>, LinkFault>
        ensures few { IfOk result (λ answer. length answer.items ≤ MOST_BYTES) }
        ensures faults { self.new.faults ≡ self.old.faults }
    {
        if self.is_full_at(host_port) {
            self.await_place(alloc, host_port);
        }
        let rt = self.log.runtime();
        let since = millis_now(&rt);
        if self.is_passed_over(host_port, since) {
            self.count(alloc, host_port);
            return Err(LinkFault::Failed);
        }
        let outcome = self.exchange_with(alloc, host_port, since, request);
        let now = millis_now(&rt);
        let took = now.saturating_sub(since);
        match outcome {
            Ok(SendOutcome::Answer(answer)) => {
                self.note_answer(alloc, host_port, took, now);
                Ok(answer)
            }
            Ok(SendOutcome::Part) => {
                self.note_part(alloc, host_port, took, now);
                Err(LinkFault::Failed)
            }
            Ok(SendOutcome::Nothing(call)) => {
                self.note_nothing(alloc, host_port, call, took, now);
                Err(LinkFault::Failed)
            }
            Err(ExchangeFault::Mute) => {
                self.spending.spend(took, now);
                self.find_mute(alloc, host_port);
                Err(LinkFault::Failed)
            }
            Err(ExchangeFault::Refused) => {
                self.spending.spend(took, now);
                self.refuse(alloc, host_port);
                Err(LinkFault::Failed)
            }
            Err(ExchangeFault::OutOfMemory) => Err(LinkFault::OutOfMemory),
        }
    }

    /// One exchange with a host, and then the lines that are due.
    fn ask_host(&mut self, alloc: Global, host: &[u8], request: &[u8]) -> Result<Vec<u8>, LinkFault>
        ensures few { IfOk result (λ answer. length answer.items ≤ MOST_BYTES) }
        ensures faults { self.new.faults ≡ self.old.faults }
    {
        let Some(host_port) = host_port_of(host) else {
            return Err(LinkFault::Failed);
        };
        self.settle(alloc);
        let answered = self.ask(alloc, host_port, request);
        let now = millis_now(&self.log.runtime());
        self.say_faults(now);
        answered
    }
}

impl<R> Link for TcpLink<R>
where
    R: Net<Listener = TcpListener, Stream = TcpStream> + Clock + Eprint + Threads + Copy,
{
    ghost use Rattle.std.specs.Prelude.{None};

    ghost exchanges = { λ _. None };

    ghost faults = { λ l. l.faults };

    fn exchange(
        &mut self,
        alloc: Global,
        host: &[u8],
        request: &[u8],
        reply: &mut Vec<u8>,
    ) -> Result<(), LinkFault>
        ensures ok { OnOk result (TellsAnswer None None host.now request.now
            reply.old.items reply.new.items) }
        ensures err { OnErr result (reply.new.items ≡ reply.old.items) }
        ensures fails { IsErrOf result failed → TellsExchange None None
            (record { host = host.now; request = request.now; answer = None }) }
        ensures memory { IsErrOf result starved → IsNone {T = List Exchange} None }
        ensures faults { CountsFault failed result self.old.faults self.new.faults }

        // An answer has no more bytes than this.
        ensures few { OnOk result
            (length reply.new.items ≤ length reply.old.items + MOST_BYTES) }
    {
        match self.ask_host(alloc, host, request) {
            Ok(answer) => {
                reply.extend_from_slice(&answer)?;
                Ok(())
            }
            Err(LinkFault::OutOfMemory) => Err(LinkFault::OutOfMemory),
            Err(LinkFault::Failed) => {
                self.faults = self.faults.saturating_add(1);
                Err(LinkFault::Failed)
            }
        }
    }
}

impl<R: Clock + Eprint + Copy> ItemObserver for TcpLink<R> {
    fn let_go(&self, request: &Request) {
        self.log.say_nowhere(request);
    }
}

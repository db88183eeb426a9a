//! The names of hosts, which are looked up beside the exchanges.
ghost use Rattle.std.specs.Prelude.{◌≡◌, nat_lt};
ghost use Rattle.tcp_link.specs.Failing.{later};

use crate::answering::{ExchangeFault, SHORT_PATIENCE};
use crate::connecting::HostPort;
use devices::{millis_now, time_left};
use std::alloc::{AllocError as OutOfMemory, Global};
use std::io;
use std::io::ErrorKind;
use std::net::{IpAddr, Net, SocketAddr, ToSocketAddrs};
use std::sync::{Arc, OnceLock};
use std::thread::{SpawnError, Threads, spawn};
use std::time::{Clock, Duration};

/// For so many milliseconds the addresses of a name are used before it is looked up again.
const KEPT: u64 = 60_000;

/// At most so many addresses of a name are kept.
const MOST_KEPT: usize = 4;

/// At most so many names are known,
const MOST_NAMES: usize = 256;

/// and so many of them are looked up at one time.
const MOST_ASKED: usize = 32;

/// Who waits for a look-up sees first behind so many microseconds whether it is done,
const PAUSE: u64 = 500;

/// and then behind twice as many each time, up to so many.
const LONGEST_PAUSE: u64 = 10_000;

/// How a look-up ended.
#[derive(Drop)]
struct Answer {
    found: Result<Vec<SocketAddr>, ExchangeFault>,
    /// How many milliseconds it took.
    took: u64,
}

/// A name, and what is known of it.
#[derive(Drop)]
struct Name {
    name: String,
    /// The addresses that were found last.
    found: Vec<SocketAddr>,
    /// Before this moment it isn't looked up again.
    fresh_until: u64,
    /// The look-up that goes on.
    asked: Option<Arc<OnceLock<Answer>>>,
}

/// The first addresses that the system's resolver gives for a name.
fn addresses_by_system<R: Net>(rt: &R, alloc: Global, name: &str) -> io::Result<Vec<SocketAddr>> {
    let mut found = Vec::new(alloc);
    for address in (name, 0u16).to_socket_addrs(rt)? {
        if found.len() < MOST_KEPT {
            found.push(address)?;
        }
    }
    Ok(found)
}

/// Such addresses, one at least.
fn found_by_system<R: Net>(
    rt: &R,
    alloc: Global,
    name: &str,
) -> Result<Vec<SocketAddr>, ExchangeFault> {
    match addresses_by_system(rt, alloc, name) {
        Ok(found) if !found.is_empty() => Ok(found),
        Err(error) if error.kind() == ErrorKind::OutOfMemory => Err(ExchangeFault::OutOfMemory),
        Ok(_) | Err(_) => Err(ExchangeFault::Refused),
    }
}

/// Looks a name up, however long that takes.
fn looked_up<R: Net + Clock>(rt: &R, alloc: Global, name: &str) -> Answer {
    let begun = millis_now(rt);
    let found = found_by_system(rt, alloc, name);
    Answer {
        found,
        took: millis_now(rt).saturating_sub(begun),
    }
}

/// Begins to look a name up in a thread of its own. Where none can be made, it is looked up in
/// this one.
fn begun<R: Threads>(
    handle: &R,
    rt: HostRuntime,
    alloc: Global,
    name: &str,
) -> Result<Arc<OnceLock<Answer>>, OutOfMemory> {
    let answer = Arc::new(alloc, OnceLock::new())?;
    let name = String::from_str(alloc, name)?;
    let theirs = Arc::try_clone(&answer)?;
    let job = move || {
        let _ = theirs.try_set(looked_up(&rt, alloc, name.as_str()));
    };
    if let Err(SpawnError { value: job }) = spawn(handle, job) {
        job();
    }
    Ok(answer)
}

/// Waits for so many milliseconds until a look-up has ended.
fn await_answer<R: Clock>(rt: &R, asked: &OnceLock<Answer>, patience: u64) {
    let begun = millis_now(rt);
    let mut pause = PAUSE;
    for _ in 0..u64::MAX {
        if asked.get().is_some() || time_left(rt, begun, patience).is_none() {
            return;
        }
        rt.sleep(Duration::from_micros(pause));
        pause = pause.saturating_mul(2).min(LONGEST_PAUSE);
    }
}

/// Copies of these addresses, with this port.
fn with_port(
    alloc: Global,
    found: &[SocketAddr],
    port: u16,
) -> Result<Vec<SocketAddr>, OutOfMemory> {
    let mut all = Vec::new(alloc);
    for address in found {
        let mut address = *address;
        address.set_port(port);
        all.push(address)?;
    }
    Ok(all)
}

/// The addresses of an answer; or why there is none. The resolver was mute where it took long to
/// say so.
fn found_in(alloc: Global, answer: &Answer) -> Result<Vec<SocketAddr>, ExchangeFault> {
    match &answer.found {
        Ok(found) => Ok(with_port(alloc, found, 0)?),
        Err(ExchangeFault::Refused) if answer.took >= SHORT_PATIENCE => Err(ExchangeFault::Mute),
        Err(fault) => Err(*fault),
    }
}

impl Name {
    /// A name of which nothing is known.
    fn new(alloc: Global, name: &str) -> Result<Self, OutOfMemory> {
        Ok(Name {
            name: String::from_str(alloc, name)?,
            found: Vec::new(alloc),
            fresh_until: 0,
            asked: None,
        })
    }

    fn is_called(&self, name: &str) -> bool {
        self.name.as_str().eq_ignore_ascii_case(name)
    }

    /// Whether it is looked up at this moment.
    fn is_asked(&self) -> bool {
        match &self.asked {
            Some(asked) => asked.get().is_none(),
            None => false,
        }
    }

    /// Whether what is known of it is to be used at this moment.
    fn is_fresh(&self, now: u64) -> bool
        ensures { result ≡ nat_lt now self.now.fresh_until }
    {
        now < self.fresh_until
    }

    /// These addresses were found at this moment.
    fn find(&mut self, found: Vec<SocketAddr>, now: u64)
        ensures { self.new ≡ record self.old { found = found; fresh_until = later now 60000 } }
    {
        self.found = found;
        self.fresh_until = now.saturating_add(KEPT);
    }

    /// Takes what a look-up has given by this moment, if it has ended. What was found before is
    /// used on where the resolver had no answer in time.
    fn gather(&mut self, alloc: Global, now: u64) -> Result<(), ExchangeFault> {
        let Some(asked) = &self.asked else {
            return Ok(());
        };
        let Some(answer) = asked.get() else {
            return Ok(());
        };
        let found = found_in(alloc, answer);
        self.asked = None;
        match found {
            Ok(found) => self.find(found, now),
            Err(ExchangeFault::Mute) => {}
            Err(fault) => {
                self.found.clear();
                return Err(fault);
            }
        }
        Ok(())
    }

    /// Begins to look it up, and waits for that for so many milliseconds. Where that goes on since
    /// an exchange before, it is waited for only where nothing is known.
    fn ask<R: Threads>(
        &mut self,
        handle: &R,
        rt: HostRuntime,
        alloc: Global,
        patience: u64,
    ) -> Result<(), OutOfMemory> {
        match &self.asked {
            None => {
                let asked = begun(handle, rt, alloc, self.name.as_str())?;
                await_answer(&rt, &asked, patience);
                self.asked = Some(asked);
            }
            Some(asked) if self.found.is_empty() => await_answer(&rt, asked, patience),
            Some(_) => {}
        }
        Ok(())
    }

    /// Its addresses with this port.
    fn addresses(&self, alloc: Global, port: u16) -> Result<Vec<SocketAddr>, ExchangeFault> {
        if self.found.is_empty() {
            return Err(ExchangeFault::Mute);
        }
        Ok(with_port(alloc, &self.found, port)?)
    }
}

/// The names that were looked up, those first that were asked for first.
#[derive(Drop)]
pub(crate) struct Names {
    /// The system, by which they are looked up.
    rt: HostRuntime,
    list: Vec<Name>,
}

impl Names {
    /// None is known yet.
    pub(crate) fn new(rt: HostRuntime, alloc: Global) -> Self {
        Names {
            rt,
            list: Vec::new(alloc),
        }
    }

    /// Whether one more name may be looked up.
    fn has_room(&self) -> bool {
        self.list.iter().filter(|one| one.is_asked()).count() < MOST_ASKED
    }

    /// Remembers a name. Where there are too many, one is forgotten that isn't looked up.
    fn remember(&mut self, alloc: Global, name: &str) -> Result<(), OutOfMemory> {
        if self.list.iter().any(|one| one.is_called(name)) {
            return Ok(());
        }
        if self.list.len() >= MOST_NAMES
            && let Some(place) = self.list.iter().position(|one| !one.is_asked())
        {
            let _ = self.list.remove(place);
        }
        self.list.push(Name::new(alloc, name)?)?;
        Ok(())
    }

    /// The addresses of a host. A name is looked up where nothing is known of it for a minute, and
    /// that is waited for so many milliseconds. The host is mute where nothing is known then; what
    /// the resolver says later is for the exchanges that follow.
    pub(crate) fn addresses<R: Threads>(
        &mut self,
        handle: &R,
        alloc: Global,
        host_port: HostPort,
        patience: u64,
    ) -> Result<Vec<SocketAddr>, ExchangeFault> {
        let rt = self.rt;
        if let Ok(ip) = host_port.name.parse::<IpAddr>() {
            let one = [SocketAddr::new(ip, host_port.port)];
            return Ok(with_port(alloc, &one, host_port.port)?);
        }
        self.remember(alloc, host_port.name)?;
        let has_room = self.has_room();
        for one in &mut self.list {
            if one.is_called(host_port.name) {
                one.gather(alloc, millis_now(&rt))?;
                if !one.is_fresh(millis_now(&rt)) && (has_room || one.is_asked()) {
                    one.ask(handle, rt, alloc, patience)?;
                    one.gather(alloc, millis_now(&rt))?;
                }
                return one.addresses(alloc, host_port.port);
            }
        }
        Err(ExchangeFault::Mute)
    }
}

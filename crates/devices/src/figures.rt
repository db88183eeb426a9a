//! What a server has done since its start, and what it does now, as numbers.
use std::alloc::{AllocError as OutOfMemory, Global};
use std::sync::atomic::{AtomicU64, Ordering};

/// What a server has done since its start, and what it does now.
#[derive(Drop)]
pub struct Figures {
    /// How many connections there are,
    connections: AtomicU64,
    /// how many there have been,
    served: AtomicU64,
    /// and at how many a request is at work.
    busy: AtomicU64,
    /// How many replies said that a request was done,
    done: AtomicU64,
    /// that it was refused,
    refused: AtomicU64,
    /// and that the server failed.
    broken: AtomicU64,
    /// How many exchanges with other hosts were done,
    sent: AtomicU64,
    /// how many failed,
    failed: AtomicU64,
    /// and of how many hosts the sender knows that one failed lately.
    failing: AtomicU64,
    /// How many accepted requests wait to be run.
    waiting: AtomicU64,
    /// How many bytes the journal has, and how often it was synced.
    journal: AtomicU64,
    syncs: AtomicU64,
}

/// Counts one more.
fn count(number: &AtomicU64) {
    number.fetch_add(1, Ordering::SeqCst);
}

/// Counts one less.
fn discount(number: &AtomicU64) {
    number.fetch_sub(1, Ordering::SeqCst);
}

fn value_of(number: &AtomicU64) -> u64 {
    number.load(Ordering::SeqCst)
}

impl Figures {
    /// Nothing was done yet.
    pub(crate) fn new() -> Self {
        Figures {
            connections: AtomicU64::new(0),
            served: AtomicU64::new(0),
            busy: AtomicU64::new(0),
            done: AtomicU64::new(0),
            refused: AtomicU64::new(0),
            broken: AtomicU64::new(0),
            sent: AtomicU64::new(0),
            failed: AtomicU64::new(0),
            failing: AtomicU64::new(0),
            waiting: AtomicU64::new(0),
            journal: AtomicU64::new(0),
            syncs: AtomicU64::new(0),
        }
    }

    /// A connection begins.
    pub(crate) fn begin_connection(&self) {
        count(&self.connections);
        count(&self.served);
    }

    /// A connection ends.
    pub(crate) fn end_connection(&self) {
        discount(&self.connections);
    }

    /// A request comes.
    pub(crate) fn begin_request(&self) {
        count(&self.busy);
    }

    /// A request is at work no longer.
    pub(crate) fn end_request(&self) {
        discount(&self.busy);
    }

    /// A reply was written whose status begins with this digit. What has no status, and what isn't
    /// the last word on a request, counts as none.
    pub(crate) fn reply(&self, class: u64) {
        match class {
            0 | 1 => {}
            2 => count(&self.done),
            5 => count(&self.broken),
            _ => count(&self.refused),
        }
    }

    /// An exchange with another host was done.
    pub fn count_sent(&self) {
        count(&self.sent);
    }

    /// An exchange with another host failed.
    pub fn count_failed(&self) {
        count(&self.failed);
    }

    /// The sender knows of so many hosts that an exchange with them failed lately.
    pub fn set_failing(&self, hosts: usize) {
        self.failing.store(hosts as u64, Ordering::SeqCst);
    }

    /// So many accepted requests wait to be run.
    pub fn set_waiting(&self, count: usize) {
        self.waiting.store(count as u64, Ordering::SeqCst);
    }

    /// The journal has so many bytes.
    pub fn set_journal(&self, len: usize) {
        self.journal.store(len as u64, Ordering::SeqCst);
    }

    /// The journal was synced.
    pub fn count_sync(&self) {
        count(&self.syncs);
    }

    /// A number that rises with all that happens.
    pub(crate) fn happened(&self) -> u64 {
        let replies = value_of(&self.done)
            .saturating_add(value_of(&self.refused))
            .saturating_add(value_of(&self.broken));
        value_of(&self.served)
            .saturating_add(replies)
            .saturating_add(value_of(&self.sent))
            .saturating_add(value_of(&self.failed))
            .saturating_add(value_of(&self.syncs))
    }

    /// All of them, as a line says them.
    pub(crate) fn line(&self, alloc: Global) -> Result<String, OutOfMemory> {
        let (connections, served) = (value_of(&self.connections), value_of(&self.served));
        let (busy, done) = (value_of(&self.busy), value_of(&self.done));
        let (refused, broken) = (value_of(&self.refused), value_of(&self.broken));
        let (sent, failed) = (value_of(&self.sent), value_of(&self.failed));
        let (failing, journal) = (value_of(&self.failing), value_of(&self.journal));
        let (waiting, syncs) = (value_of(&self.waiting), value_of(&self.syncs));
        let clients = format!(in alloc; "connections={connections} served={served} busy={busy}")?;
        let replies = format!(in alloc; "2xx={done} 4xx={refused} 5xx={broken}")?;
        let hosts = format!(in alloc; "sent={sent} failed={failed} failing={failing}")?;
        let kept = format!(in alloc; "waiting={waiting} journal={journal} syncs={syncs}")?;
        let (clients, replies) = (clients.as_str(), replies.as_str());
        let (hosts, kept) = (hosts.as_str(), kept.as_str());
        format!(in alloc; "figures {clients} {replies} {hosts} {kept}")
    }
}

//! How far what was read of a connection is answered.
ghost use Rattle.std.specs.Prelude.{◌≡◌, ◌≤◌, [], length, true};

use crate::streams::StdIn;
use http_frames::{Frame, Inbox, Next, Start};
use std::alloc::Global;
use std::sync::atomic::{AtomicU64, Ordering};

/// No more than so many bytes are looked at once more.
const MOST_KEPT: usize = 4_096;

/// Beside its method and its target a first line has three parts, two blanks and an end, and behind
/// the last line there is an empty one.
const AROUND_TARGET: usize = 14;

/// Beside its name and its value a line has a colon, a blank and an end.
const AROUND_VALUE: usize = 4;

/// How far what was read of a connection is answered. A connection is at a boundary where nothing
/// that was read is left: then what is read next begins a message.
#[derive(Drop)]
pub(crate) struct Boundary {
    /// How many bytes were read,
    read: u64,
    /// how many the last read gave,
    last: usize,
    /// and how many those messages have that were answered, as most clients write them.
    answered: AtomicU64,
    /// How many messages were answered.
    messages: AtomicU64,
    /// What was read since the last boundary that was found,
    kept: Vec<u8>,
    /// if that is all of it.
    is_kept: bool,
}

fn length_of(bytes: &[u8], around: usize) -> u64 {
    (bytes.len() as u64).saturating_add(around as u64)
}

/// How many bytes a message has whose lines are written as most clients write them.
fn plain_length(frame: &Frame) -> u64 {
    let Start::Ask {
        method,
        target,
        minor: _,
    } = &frame.start
    else {
        return 0;
    };
    let mut length = length_of(frame.body.entries(), AROUND_TARGET)
        .saturating_add(length_of(method.entries(), 0))
        .saturating_add(length_of(target.entries(), 0));
    for (name, value) in frame.lines.entries() {
        length = length
            .saturating_add(length_of(name.entries(), AROUND_VALUE))
            .saturating_add(length_of(value.entries(), 0));
    }
    length
}

/// Whether these bytes are whole messages, one after another.
fn are_messages(alloc: Global, bytes: &[u8]) -> bool {
    let Ok(mut inbox) = Inbox::new(alloc) else {
        return false;
    };
    let mut source = StdIn::new(bytes);
    for _ in 0..=bytes.len() {
        match inbox.next_request(alloc, &mut source) {
            Ok(Next::Message(frame)) => inbox.give_back(frame),
            Ok(Next::End) => return true,
            Err(_) => return false,
        }
    }
    false
}

impl Boundary {
    /// That of a connection of which so many messages were answered before, and nothing is left.
    pub(crate) fn new(alloc: Global, messages: u64) -> Self {
        Boundary {
            read: 0,
            last: 0,
            answered: AtomicU64::new(0),
            messages: AtomicU64::new(messages),
            kept: Vec::new(alloc),
            is_kept: true,
        }
    }

    /// Whether nothing was read yet.
    pub(crate) fn is_fresh(&self) -> bool {
        self.read == 0
    }

    /// Whether it can't be found any more.
    pub(crate) fn is_lost(&self) -> bool {
        !self.is_kept
    }

    /// How many messages were answered.
    pub(crate) fn messages(&self) -> u64 {
        self.messages.load(Ordering::SeqCst)
    }

    /// These bytes were read.
    pub(crate) fn hear(&mut self, alloc: Global, bytes: &[u8])
        ensures few { length self.old.kept.items ≤ 4096 → length self.new.kept.items ≤ 4096 }
    {
        // Who sends many messages in a row fills each read, and these needn't end at a boundary.
        if self.last < MOST_KEPT && self.kept.len().saturating_add(bytes.len()) > MOST_KEPT {
            if self.seems_at() {
                self.let_go();
            } else {
                self.is_at(alloc);
            }
        }
        self.last = bytes.len();
        self.read = self.read.saturating_add(bytes.len() as u64);
        self.is_kept = self.is_kept
            && self.kept.len().saturating_add(bytes.len()) <= MOST_KEPT
            && self.kept.extend_from_slice(bytes).is_ok();
    }

    /// This message was answered.
    pub(crate) fn answer(&self, frame: &Frame) {
        self.answered
            .fetch_add(plain_length(frame), Ordering::SeqCst);
        self.messages.fetch_add(1, Ordering::SeqCst);
    }

    /// Whether nothing that was read is left, where the client writes its messages as most do.
    fn seems_at(&self) -> bool {
        self.answered.load(Ordering::SeqCst) == self.read
    }

    /// What was read is looked at no more.
    fn let_go(&mut self)
        ensures kept { self.new.kept.items ≡ [] }
        ensures read { self.new.read ≡ self.old.read }
    {
        self.answered.store(self.read, Ordering::SeqCst);
        self.kept.clear();
        self.is_kept = true;
    }

    /// Whether nothing that was read is left, so that the connection is at a boundary. It isn't
    /// found where a client writes its lines otherwise and much was read since the last one.
    pub(crate) fn is_at(&mut self, alloc: Global) -> bool
        ensures found { result ≡ true → self.new.kept.items ≡ [] }
        ensures few { length self.new.kept.items ≤ length self.old.kept.items }
        ensures read { self.new.read ≡ self.old.read }
    {
        let is_at = if self.is_kept {
            are_messages(alloc, &self.kept)
        } else {
            self.seems_at()
        };
        if is_at {
            self.let_go();
        }
        is_at
    }
}

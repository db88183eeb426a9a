//! A client that may wait for its replies.
ghost use Rattle.std.specs.Prelude.{◌≡◌, None};
ghost use Rattle.m2m_io.specs.Sides.{no_side};

use m2m_io::{Failed, MemSink, MemSource, Sink, Source};
use std::sync::Arc;
use std::sync::atomic::{AtomicU64, Ordering};

/// What a client sends. Where it waits, the next bytes are given only once as many replies were put
/// as reads were answered before.
#[derive(Drop)]
pub struct Sends {
    input: MemSource,
    waits: bool,
    reads: u64,
    puts: Arc<AtomicU64>,
    faults: u64,
}

impl Sends {
    /// A client that sends this input, and waits for the replies that are counted there or not.
    pub fn new(input: MemSource, waits: bool, puts: Arc<AtomicU64>) -> Sends {
        Sends {
            input,
            waits,
            reads: 0,
            puts,
            faults: 0,
        }
    }

    /// How many bytes were not read.
    pub fn left(&self) -> usize {
        self.input.left().len()
    }

    /// Whether the next bytes are sent only once another reply was put.
    fn is_early(&self) -> bool {
        self.waits && 0 < self.left() && self.puts.load(Ordering::SeqCst) < self.reads
    }
}

impl Source for Sends {
    ghost left = { λ _. None };

    ghost faults = { λ s. s.faults };

    ghost kept_by_read = { λ _. no_side };

    fn read(&mut self, buf: &mut [u8]) -> Result<usize, Failed> {
        if !self.is_early()
            && let Ok(n) = self.input.read(buf)
        {
            self.reads = self.reads.saturating_add(1);
            return Ok(n);
        }
        self.faults = self.faults.saturating_add(1);
        Err(Failed)
    }
}

/// What a client gets: the puts that succeed are counted.
#[derive(Drop)]
pub struct Gets {
    out: MemSink,
    puts: Arc<AtomicU64>,
    faults: u64,
}

impl Gets {
    /// A client that gets what is put there; the puts are counted here.
    pub fn new(out: MemSink, puts: Arc<AtomicU64>) -> Gets {
        Gets {
            out,
            puts,
            faults: 0,
        }
    }

    /// The bytes that it got.
    pub fn written(&self) -> &[u8] {
        self.out.written()
    }
}

impl Sink for Gets {
    ghost written = { λ _. None };

    ghost faults = { λ s. s.faults };

    ghost puts = { λ _. None };

    ghost kept_by_put = { λ _. no_side };

    fn put(&mut self, bytes: &[u8]) -> Result<(), Failed> {
        if let Err(failed) = self.out.put(bytes) {
            self.faults = self.faults.saturating_add(1);
            return Err(failed);
        }
        self.puts.fetch_add(1, Ordering::SeqCst);
        Ok(())
    }
}

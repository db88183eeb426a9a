//! Connections: what is read and written.
ghost use Rattle.std.specs.Prelude.{◌≡◌, ◌<◌, ◌≤◌, ◌+◌, ◌++◌, [], Some, None, false, length};
ghost use Rattle.std.specs.Prelude.{is_err, is_ok, IfOk, OnOk, OnErr, if◌then◌else◌};
ghost use Rattle.std.specs.Io.{ReadsAtMost};
ghost use Rattle.std.specs.Io.KnownBytes.{ReadConsumes, Appends};
ghost use Rattle.std.specs.Str.{bytes_eq};
ghost use Rattle.m2m_io.specs.Counts.{CountsFaults, fails_next, after_call, after_fault};
ghost use Rattle.m2m_io.specs.Counts.{told_calls};
ghost use Rattle.m2m_io.specs.Source.{next_count};
ghost use Rattle.m2m_io.specs.Sides.{KeepsSides, side_of};
ghost use Rattle.m2m_io.specs.Told.{AppendsPrefix, Tells};

use crate::{Failed, MemSink, MemSource, Sink, Source};
use std::marker::Model;
use std::sync::Arc;
use std::sync::atomic::{AtomicU64, Ordering};

/// A stream that is read and written. Reading it leaves what was written, how often writing failed
/// and how many puts there were, and writing it what is left to read and how often reading failed.
pub trait Connection: Source + Sink {
    /// Both sides are kept so.
    ghost keeps_sides: { KeepsSides Self.left Self.Source.faults Self.kept_by_read
        Self.written Self.Sink.faults Self.puts Self.kept_by_put };
}

/// A connection in memory, for doors: it is read from a source and written to a sink, and reports
/// whether what was written is just what was expected.
#[derive(Drop)]
pub struct MemConn {
    input: MemSource,
    out: MemSink,
    expected: Vec<u8>,
    right: Arc<AtomicU64>,
    is_right: bool,
}

impl Model for MemConn {
    ghost use Rattle.m2m_io.specs.Conn.{ConnData};

    ghost Value = { ConnData };

    ghost view = { λ c. record {
      input = c.input;
      out = c.out;
      expected = c.expected.items;
      is_right = c.is_right;
    } };
}

impl MemConn {
    /// A connection that counts in `right` while the bytes in `out` are just those `expected`, from
    /// the put on that left them so: it adds one there, and takes it back at a put behind them.
    pub fn new(input: MemSource, out: MemSink, expected: Vec<u8>, right: Arc<AtomicU64>) -> Self
        ensures input { result.input ≡ input }
        ensures out { result.out ≡ out }
        ensures expected { result.expected ≡ expected.items }
        ensures is_right { result.is_right ≡ false }
    {
        MemConn {
            input,
            out,
            expected,
            right,
            is_right: false,
        }
    }
}

impl Source for MemConn {
    ghost left = { λ c. Some c.input.left };

    ghost faults = { λ c. c.input.calls.faults };

    ghost kept_by_read = { λ c. side_of (Some c.out.written) c.out.calls.faults
        (told_calls c.out.calls) [] };

    fn read(&mut self, buf: &mut [u8]) -> Result<usize, Failed>
        requires room { 0 < length buf.old }
        ensures bound { ReadsAtMost result buf.new }
        ensures bytes { ReadConsumes (Some self.old.input.left)
            (Some self.new.input.left) result buf.new }
        ensures faults { CountsFaults result self.old.input.calls.faults
            self.new.input.calls.faults }

        // It is read as its input is, and nothing else of it changes.
        ensures variant { is_err result ≡ fails_next self.old.input.calls }
        ensures given { IfOk result (λ n. n ≡ next_count self.old.input (length buf.old)) }
        ensures same { self.new ≡ record self.old {
          input = record {
            left = self.new.input.left;
            cuts = self.old.input.cuts;
            calls = if is_ok result then after_call self.old.input.calls
                else after_fault self.old.input.calls;
          };
        } }
    {
        self.input.read(buf)
    }
}

impl Sink for MemConn {
    ghost written = { λ c. Some c.out.written };

    ghost faults = { λ c. c.out.calls.faults };

    ghost puts = { λ c. told_calls c.out.calls };

    ghost kept_by_put = { λ c. side_of (Some c.input.left) c.input.calls.faults None [] };

    fn put(&mut self, bytes: &[u8]) -> Result<(), Failed>
        ensures ok { OnOk result
            (Appends (Some self.old.out.written) (Some self.new.out.written) bytes.now) }
        ensures err { OnErr result
            (AppendsPrefix (Some self.old.out.written) (Some self.new.out.written) bytes.now) }
        ensures faults { CountsFaults result self.old.out.calls.faults self.new.out.calls.faults }
        ensures puts { Tells (λ n. n + 1) (told_calls self.old.out.calls)
            (told_calls self.new.out.calls) }

        // It is written as its sink is, and is right where the last put that was done left just
        // what was expected.
        ensures fails { OnOk result (fails_next self.old.out.calls ≡ false) }
        ensures whole { self.new.out.written
            ≡ (if is_ok result then self.old.out.written ++ bytes.now else self.old.out.written) }
        ensures calls { self.new.out.calls
            ≡ (if is_ok result then after_call self.old.out.calls
            else after_fault self.old.out.calls) }
        ensures right { self.new.is_right
            ≡ (if is_ok result then bytes_eq self.new.out.written self.old.expected
            else self.old.is_right) }
        ensures input { self.new.input ≡ self.old.input }
        ensures expected { self.new.expected ≡ self.old.expected }
    {
        self.out.put(bytes)?;
        let is_right = self.out.written() == self.expected.as_slice();
        if is_right && !self.is_right {
            self.right.fetch_add(1, Ordering::SeqCst);
        }
        if self.is_right && !is_right {
            self.right.fetch_sub(1, Ordering::SeqCst);
        }
        self.is_right = is_right;
        Ok(())
    }
}

impl Connection for MemConn {
    ghost use Rattle.std.specs.Prelude.{refl};

    ghost keeps_sides = { record { read = λ c. refl; put = λ c. refl } };
}

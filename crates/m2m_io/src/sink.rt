//! Where bytes go to.
ghost use Rattle.std.specs.Prelude.{◌≡◌, ◌≤◌, ◌+◌, ◌++◌, ℕ, List, Option, Some, false, is_ok, OnOk};
ghost use Rattle.std.specs.Prelude.{OnErr, if◌then◌else◌};
ghost use Rattle.std.specs.Io.KnownBytes.{Appends};
ghost use Rattle.m2m_io.specs.Counts.{CountsFaults, no_calls, fails_next, after_call, after_fault};
ghost use Rattle.m2m_io.specs.Counts.{told_calls};
ghost use Rattle.m2m_io.specs.Sides.{SideTold, no_side};
ghost use Rattle.m2m_io.specs.Told.{AppendsPrefix, Tells};

use crate::Failed;
use crate::calls::Calls;
use std::marker::Model;

/// A stream of bytes that is written at its end.
pub trait Sink {
    /// The bytes that were written, where the sink tells them.
    ghost written: { Self → Option (List ℕ) };

    /// How often the sink has failed: the count rises in the calls that fail, and in no other. It
    /// stops at 2^64 - 1.
    ghost faults: { Self → ℕ };

    /// How many puts the sink has had, those that failed as well, where the sink tells it.
    ghost puts: { Self → Option ℕ };

    /// What a put leaves as it is: the side that is read, of an object that is a source as well.
    ghost kept_by_put: { Self → SideTold };

    /// Writes all the bytes. A call that failed wrote a prefix of them; a device that takes none of
    /// what is left of them has failed.
    fn put(&mut self, bytes: &[u8]) -> Result<(), Failed>
        ensures ok { OnOk result (Appends (written self.old) (written self.new) bytes.now) }
        ensures err { OnErr result (AppendsPrefix (written self.old) (written self.new) bytes.now) }
        ensures faults { CountsFaults result (faults self.old) (faults self.new) }
        ensures puts { Tells (λ n. n + 1) (puts self.old) (puts self.new) }
        ensures kept { kept_by_put self.new ≡ kept_by_put self.old };
}

/// A sink in memory. It fails at the calls that are to fail, and where the growth that a call needs
/// is refused; then nothing was written. It tells how many puts it had until it has had 2^64 - 1.
#[derive(Debug, Drop)]
pub struct MemSink {
    out: Vec<u8>,
    calls: Calls,
}

impl Model for MemSink {
    ghost use Rattle.m2m_io.specs.Sink.{SinkData};

    ghost Value = { SinkData };

    ghost view = { λ s. record { written = s.out.items; calls = s.calls } };
}

impl MemSink {
    /// A sink that writes behind the bytes of `out`. The calls whose numbers, from 1, are in
    /// `fails` fail.
    pub fn new(out: Vec<u8>, fails: Vec<u64>) -> Self
        ensures written { result.written ≡ out.items }
        ensures calls { result.calls ≡ no_calls fails.items }
    {
        MemSink {
            out,
            calls: Calls::new(fails),
        }
    }

    /// The bytes that were written, with those that it began with.
    pub fn written(&self) -> &[u8]
        ensures { result.now ≡ self.now.written }
    {
        &self.out
    }
}

impl Sink for MemSink {
    ghost written = { λ s. Some s.written };

    ghost faults = { λ s. s.calls.faults };

    ghost puts = { λ s. told_calls s.calls };

    ghost kept_by_put = { λ _. no_side };

    fn put(&mut self, bytes: &[u8]) -> Result<(), Failed>
        ensures ok { OnOk result
            (Appends (Some self.old.written) (Some self.new.written) bytes.now) }
        ensures err { OnErr result
            (AppendsPrefix (Some self.old.written) (Some self.new.written) bytes.now) }
        ensures faults { CountsFaults result self.old.calls.faults self.new.calls.faults }
        ensures puts { Tells (λ n. n + 1) (told_calls self.old.calls) (told_calls self.new.calls) }

        // A call that is to fail fails, and one that failed wrote nothing.
        ensures fails { OnOk result (fails_next self.old.calls ≡ false) }
        ensures whole { self.new.written
            ≡ (if is_ok result then self.old.written ++ bytes.now else self.old.written) }
        ensures calls { self.new.calls
            ≡ (if is_ok result then after_call self.old.calls else after_fault self.old.calls) }
    {
        if self.calls.is_next_to_fail() {
            self.calls.count_fault();
            return Err(Failed);
        }
        if let Err(_) = self.out.extend_from_slice(bytes) {
            self.calls.count_fault();
            return Err(Failed);
        }
        self.calls.count();
        Ok(())
    }
}

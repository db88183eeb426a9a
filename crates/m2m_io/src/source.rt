//! Where bytes come from.
ghost use Rattle.std.specs.Prelude.{◌≡◌, ◌<◌, ◌≤◌, ℕ, List, Option, Some, All, length, take, drop};
ghost use Rattle.std.specs.Prelude.{is_err, is_ok, IfOk, OnOk, OnErr, if◌then◌else◌};
ghost use Rattle.std.specs.Io.{ReadsAtMost};
ghost use Rattle.std.specs.Io.KnownBytes.{ReadConsumes};
ghost use Rattle.m2m_io.specs.Counts.{CountsFaults, no_calls, fails_next, after_call, after_fault};
ghost use Rattle.m2m_io.specs.Sides.{SideTold, no_side};
ghost use Rattle.m2m_io.specs.Source.{next_count};

use crate::Failed;
use crate::calls::Calls;
use std::marker::Model;

/// A stream of bytes that is read from its front.
pub trait Source {
    /// The bytes that reads will give from here on, where the source tells them.
    ghost left: { Self → Option (List ℕ) };

    /// How often the source has failed: the count rises in the calls that fail, and in no other. It
    /// stops at 2^64 - 1.
    ghost faults: { Self → ℕ };

    /// What a read leaves as it is: the side that is written, of an object that is a sink as well.
    ghost kept_by_read: { Self → SideTold };

    /// Reads some bytes to the front of `buf` and answers how many; 0 only at the end. A read that
    /// failed took nothing.
    fn read(&mut self, buf: &mut [u8]) -> Result<usize, Failed>
        requires room { 0 < length buf.old }
        ensures bound { ReadsAtMost result buf.new }
        ensures bytes { ReadConsumes (left self.old) (left self.new) result buf.new }
        ensures faults { CountsFaults result (faults self.old) (faults self.new) }
        ensures kept { kept_by_read self.new ≡ kept_by_read self.old };
}

/// A source in memory: its bytes, how many of them each read gives at most, and which reads fail.
#[derive(Debug, Drop)]
pub struct MemSource {
    bytes: Vec<u8>,
    taken: usize,
    cuts: Vec<usize>,
    calls: Calls,
}

impl Model for MemSource {
    ghost use Rattle.std.specs.Prelude.{◌<◌, ◌≤◌, All, length, drop};
    ghost use Rattle.m2m_io.specs.Source.{SourceData};

    ghost Value = { SourceData };

    ghost view = { λ s. record {
      left = drop s.taken s.bytes.items;
      cuts = s.cuts.items;
      calls = s.calls;
    } };

    ghost invariant = { λ s. (s.taken ≤ length s.bytes.items) × All (λ cut. 0 < cut) s.cuts.items };
}

impl MemSource {
    /// A source of these bytes. Read k, from 1, gives at most the k-th of `cuts` bytes, and a read
    /// after the last cut as many as fit. The reads whose numbers are in `fails` fail.
    pub fn new(bytes: Vec<u8>, cuts: Vec<usize>, fails: Vec<u64>) -> Self
        requires some { All (λ cut. 0 < cut) cuts.items }
        ensures left { result.left ≡ bytes.items }
        ensures cuts { result.cuts ≡ cuts.items }
        ensures calls { result.calls ≡ no_calls fails.items }
    {
        MemSource {
            bytes,
            taken: 0,
            cuts,
            calls: Calls::new(fails),
        }
    }

    /// The bytes that are left.
    pub fn left(&self) -> &[u8]
        ensures { result.now ≡ self.now.left }
    {
        &self.bytes[self.taken..]
    }

    /// How many bytes the next read gives, where there is room for so many.
    fn next_count(&self, room: usize) -> usize
        ensures { result ≡ next_count self.now room }
    {
        let whole = room.min(self.left().len());
        match self.cuts.get(self.calls.made() as usize) {
            Some(cut) => whole.min(*cut),
            None => whole,
        }
    }
}

/// Copies the first `n` bytes of one slice to the front of another.
fn copy_front(from: &[u8], to: &mut [u8], n: usize)
    requires from { n ≤ length from.now }
    requires to { n ≤ length to.old }
    ensures front { take n to.new ≡ take n from.now }
    ensures len { length to.new ≡ length to.old }
{
    to[..n].copy_from_slice(&from[..n]);
}

impl Source for MemSource {
    ghost left = { λ s. Some s.left };

    ghost faults = { λ s. s.calls.faults };

    ghost kept_by_read = { λ _. no_side };

    fn read(&mut self, buf: &mut [u8]) -> Result<usize, Failed>
        requires room { 0 < length buf.old }
        ensures bound { ReadsAtMost result buf.new }
        ensures bytes { ReadConsumes (Some self.old.left) (Some self.new.left) result buf.new }
        ensures faults { CountsFaults result self.old.calls.faults self.new.calls.faults }

        // Which reads fail, and how much each other one gives.
        ensures variant { is_err result ≡ fails_next self.old.calls }
        ensures given { IfOk result (λ n. n ≡ next_count self.old (length buf.old)) }
        ensures cuts { self.new.cuts ≡ self.old.cuts }
        ensures calls { self.new.calls
            ≡ (if is_ok result then after_call self.old.calls else after_fault self.old.calls) }
    {
        let n = self.next_count(buf.len());
        self.calls.next()?;
        copy_front(self.left(), buf, n);
        self.taken += n;
        Ok(n)
    }
}

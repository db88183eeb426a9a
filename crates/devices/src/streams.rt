//! The standard streams, and the words of the command line.
ghost use Rattle.std.specs.Prelude.{◌≡◌, ◌<◌, ◌≤◌, None, length, take, IfOk, OnOk, OnErr};
ghost use Rattle.std.specs.Io.KnownBytes.{Appends, Keeps};
ghost use Rattle.m2m_io.specs.Counts.{Rose};
ghost use Rattle.m2m_io.specs.Sides.{no_side};

use m2m_io::{Failed, Sink, Source};
use std::alloc::AllocError;
use std::env;
use std::io::{ErrorKind, Read, Write};
use std::rt::Env;

/// A reader of std as a source. Each error of the reader is a fault.
#[derive(Debug, Drop)]
pub struct StdIn<R> {
    reader: R,
    faults: u64,
}

impl<R: Read> StdIn<R> {
    /// Reads from the reader, with no fault as yet.
    pub fn new(reader: R) -> Self
        ensures left { ⟦<StdIn<R> as Source>⟧.left result ≡ R.remaining reader }
        ensures faults { ⟦<StdIn<R> as Source>⟧.faults result ≡ 0 }
    {
        StdIn { reader, faults: 0 }
    }
}

impl<R: Read> Source for StdIn<R> {
    ghost left = { λ s. R.remaining s.reader };

    ghost faults = { λ s. s.faults };

    ghost kept_by_read = { λ _. no_side };

    fn read(&mut self, buf: &mut [u8]) -> Result<usize, Failed> {
        match self.reader.read(buf) {
            Ok(n) => Ok(n),
            Err(_) => {
                self.faults = self.faults.saturating_add(1);
                Err(Failed)
            }
        }
    }
}

/// A writer of std as a sink. Each error of the writer is a fault, and so is a write that takes
/// nothing.
#[derive(Debug, Drop)]
pub struct StdOut<W> {
    writer: W,
    faults: u64,
}

impl<W: Write> StdOut<W> {
    /// Writes to the writer, with no fault as yet.
    pub fn new(writer: W) -> Self
        ensures written { ⟦<StdOut<W> as Sink>⟧.written result ≡ W.contents writer }
        ensures faults { ⟦<StdOut<W> as Sink>⟧.faults result ≡ 0 }
    {
        StdOut { writer, faults: 0 }
    }

    /// One write of the device, which takes at least one of the bytes.
    fn write_some(&mut self, bytes: &[u8]) -> Result<usize, Failed>
        requires { 0 < length bytes.now }
        ensures some { IfOk result (λ n. (0 < n) × (n ≤ length bytes.now)) }
        ensures ok { IfOk result (λ n.
            Appends (W.contents self.old.writer) (W.contents self.new.writer) (take n bytes.now)) }
        ensures err { OnErr result
            (Keeps (W.contents self.old.writer) (W.contents self.new.writer)) }
        ensures faults { OnOk result (self.new.faults ≡ self.old.faults) }
        ensures count { self.old.faults ≤ self.new.faults }
        ensures cause { OnErr result (Rose self.old.faults self.new.faults) }
    {
        match self.writer.write(bytes) {
            Ok(n) if n > 0 => Ok(n),
            _ => {
                self.faults = self.faults.saturating_add(1);
                Err(Failed)
            }
        }
    }
}

impl<W: Write> Sink for StdOut<W> {
    ghost written = { λ s. W.contents s.writer };

    ghost faults = { λ s. s.faults };

    ghost puts = { λ _. None };

    ghost kept_by_put = { λ _. no_side };

    fn put(&mut self, bytes: &[u8]) -> Result<(), Failed> {
        let mut rest = bytes;
        while !rest.is_empty() {
            let n = self.write_some(rest)?;
            rest = rest.split_at(n).1;
        }
        Ok(())
    }
}

/// The words behind the program's name; none where they can't be read, as where one of them isn't
/// UTF-8. Where memory runs out in copying them, it says so. What the system hands in isn't stated.
pub fn words<R: Env + AllocGlobal>(rt: &R) -> Result<Vec<String>, AllocError> {
    match env::args(rt) {
        Ok(args) => args.skip(1).collect(rt.alloc()),
        Err(error) if error.kind() == ErrorKind::OutOfMemory => Err(AllocError),
        Err(_) => Ok(Vec::new(rt.alloc())),
    }
}

//! How the program ends.
ghost use Rattle.std.specs.Prelude.{◌≡◌, ◌≤◌, ◌++◌, Some, OnOk, OnErr};
ghost use Rattle.std.specs.Io.KnownBytes.{Appends};
ghost use Rattle.m2m_io.specs.Counts.{CountsFaults};
ghost use Rattle.m2m_io.specs.Told.{AppendsPrefix};
ghost use Rattle.m2m_io.specs.Status.{status_number, status_text, status_line};

use crate::{Failed, Sink};
use itoa::Buffer;
use std::process::ExitCode;

/// How the program ends.
#[derive(Clone, Copy, Debug, PartialEq, Eq)]
pub enum Status {
    /// The input was read to its end or to a closing frame, or the door gave its last connection,
    /// and all was written.
    Done,
    /// The words are no command.
    Usage,
    /// The line of this number, from 1, has none of its forms.
    BadLine(u64),
    /// Reading failed, or the door did.
    ReadFault,
    /// Writing to standard output failed.
    WriteFault,
    /// Memory ran out.
    Memory,
    /// No message closed the connection, and something is left of the input that begins with no
    /// HTTP message.
    BadStream,
}

impl Status {
    /// The number that the process ends with.
    pub fn number(self) -> u8
        ensures { result ≡ status_number self }
    {
        match self {
            Status::Done => 0,
            Status::Usage => 1,
            Status::BadLine(_) => 2,
            Status::ReadFault => 3,
            Status::WriteFault => 4,
            Status::Memory => 5,
            Status::BadStream => 6,
        }
    }

    /// Writes the text and a line feed, where the status has a text.
    pub fn put_line<K: Sink>(self, sink: &mut K) -> Result<(), Failed>
        ensures ok { OnOk result
            (Appends (K.written sink.old) (K.written sink.new) (status_line self)) }
        ensures err { OnErr result
            (AppendsPrefix (K.written sink.old) (K.written sink.new) (status_line self)) }
        ensures faults { CountsFaults result (K.faults sink.old) (K.faults sink.new) }

        // A status without a text makes no call of the sink, and what a put keeps is kept.
        ensures none { self ≡ Status.Done → sink.new ≡ sink.old }
        ensures kept { K.kept_by_put sink.new ≡ K.kept_by_put sink.old }
    {
        match self {
            Status::Done => Ok(()),
            Status::Usage => sink.put(b"usage: cse http, serve, replay, twin or gen\n"),
            Status::BadLine(n) => {
                let mut digits = Buffer::new();
                put_three(sink, b"bad line ", digits.format(n).as_bytes(), b"\n")
            }
            Status::ReadFault => sink.put(b"read fault\n"),
            Status::WriteFault => sink.put(b"write fault\n"),
            Status::Memory => sink.put(b"no memory\n"),
            Status::BadStream => sink.put(b"bad stream\n"),
        }
    }
}

/// The process ends with the number of the status.
impl From<Status> for ExitCode {
    ghost use Rattle.std.specs.Prelude.{◌≡◌};
    ghost use Rattle.std.specs.Process.{exit_status};
    ghost use Rattle.m2m_io.specs.Status.{status_number};

    ghost from_gives = { λ status code. exit_status code ≡ status_number status };

    fn from(status: Status) -> Self {
        ExitCode::from(status.number())
    }
}

/// Writes a text, and then two others.
#[tactic(auto, using(crate::proofs::ToldLemmas::prefixes))]
fn put_three<K: Sink>(sink: &mut K, a: &[u8], b: &[u8], c: &[u8]) -> Result<(), Failed>
    ensures ok { OnOk result (Appends (K.written sink.old) (K.written sink.new)
        (a.now ++ (b.now ++ c.now))) }
    ensures err { OnErr result
        (AppendsPrefix (K.written sink.old) (K.written sink.new) (a.now ++ (b.now ++ c.now))) }
    ensures faults { CountsFaults result (K.faults sink.old) (K.faults sink.new) }
    ensures kept { K.kept_by_put sink.new ≡ K.kept_by_put sink.old }
{
    sink.put(a)?;
    put_two(sink, b, c)?;
    Ok(())
}

/// Writes two texts, one behind the other.
#[tactic(auto, using(crate::proofs::ToldLemmas::prefixes))]
fn put_two<K: Sink>(sink: &mut K, a: &[u8], b: &[u8]) -> Result<(), Failed>
    ensures ok { OnOk result (Appends (K.written sink.old) (K.written sink.new) (a.now ++ b.now)) }
    ensures err { OnErr result (AppendsPrefix (K.written sink.old) (K.written sink.new)
        (a.now ++ b.now)) }
    ensures faults { CountsFaults result (K.faults sink.old) (K.faults sink.new) }
    ensures kept { K.kept_by_put sink.new ≡ K.kept_by_put sink.old }
{
    sink.put(a)?;
    sink.put(b)?;
    Ok(())
}

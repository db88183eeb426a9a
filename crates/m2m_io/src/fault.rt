//! How a call on an object outside fails.
ghost use Rattle.std.specs.Prelude.{◌≡◌};

use std::alloc::{AllocError, AllocFailed};
use std::error::Error;
use std::fmt;

/// The object failed: its count of faults rose in the call.
#[derive(Clone, Copy, Debug, PartialEq, Eq)]
pub struct Failed;

impl fmt::Display for Failed {
    ghost use Rattle.std.specs.Prelude.{Some, codes};

    ghost output = { λ _. Some (codes "the device failed") };

    fn fmt<W: fmt::Write>(&self, f: &mut fmt::Formatter<W>) -> fmt::Result {
        f.write_str("the device failed")
    }
}

impl Error for Failed {}

/// Why an exchange with a neighbour gave no answer.
#[derive(Clone, Copy, Debug, PartialEq, Eq)]
pub enum LinkFault {
    /// The link failed: its count of faults rose in the call.
    Failed,
    /// Memory ran out. From then on the link tells its exchanges no more.
    OutOfMemory,
}

impl fmt::Display for LinkFault {
    ghost use Rattle.std.specs.Prelude.{Some};
    ghost use Rattle.m2m_io.specs.LinkFault.{link_fault_text};

    ghost output = { λ fault. Some (link_fault_text fault) };

    fn fmt<W: fmt::Write>(&self, f: &mut fmt::Formatter<W>) -> fmt::Result {
        f.write_str(match self {
            LinkFault::Failed => "the link failed",
            LinkFault::OutOfMemory => "no memory for the exchange",
        })
    }
}

impl Error for LinkFault {}

impl From<AllocError> for LinkFault {
    ghost use Rattle.m2m_io.specs.declared.fault.LinkFault.{LinkFault};

    ghost from_gives = { λ _ e. e ≡ LinkFault.OutOfMemory };

    fn from(_: AllocError) -> Self {
        LinkFault::OutOfMemory
    }
}

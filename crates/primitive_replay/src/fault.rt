//! Why no line was read.
use m2m_io::Failed;
use std::alloc::AllocError;

/// Why no line was read.
#[derive(Clone, Copy, Debug, PartialEq, Eq)]
pub enum LineFault {
    /// The line has none of its forms, or is one too many.
    Bad,
    /// The source failed: its count of faults rose in the call.
    ReadFault,
    OutOfMemory,
}

impl From<Failed> for LineFault {
    ghost use Rattle.std.specs.Prelude.{◌≡◌};
    ghost use Rattle.primitive_replay.specs.declared.fault.LineFault.{LineFault};

    ghost from_gives = { λ _ e. e ≡ LineFault.ReadFault };

    fn from(_: Failed) -> Self {
        LineFault::ReadFault
    }
}

impl From<AllocError> for LineFault {
    ghost use Rattle.std.specs.Prelude.{◌≡◌};
    ghost use Rattle.primitive_replay.specs.declared.fault.LineFault.{LineFault};

    ghost from_gives = { λ _ e. e ≡ LineFault.OutOfMemory };

    fn from(_: AllocError) -> Self {
        LineFault::OutOfMemory
    }
}

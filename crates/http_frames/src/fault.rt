//! Why no frame was read, and why none was written.
use m2m_io::Failed;
use std::alloc::AllocError;
use std::error::Error;
use std::fmt;

/// Why no frame was read.
#[derive(Clone, Copy, Debug, PartialEq, Eq)]
pub enum FrameFault {
    /// Bytes are left, and no frame stands at their front: not in those held, nor in these and all
    /// that is left to read.
    NoFrame,
    /// The source failed: its count of faults rose in the call.
    ReadFault,
    OutOfMemory,
}

impl fmt::Display for FrameFault {
    ghost use Rattle.std.specs.Prelude.{Some};
    ghost use Rattle.http_frames.specs.Faults.{frame_fault_text};

    ghost output = { λ fault. Some (frame_fault_text fault) };

    fn fmt<W: fmt::Write>(&self, f: &mut fmt::Formatter<W>) -> fmt::Result {
        f.write_str(match self {
            FrameFault::NoFrame => "no message stands here",
            FrameFault::ReadFault => "the source failed",
            FrameFault::OutOfMemory => "no memory for the message",
        })
    }
}

impl Error for FrameFault {}

impl From<Failed> for FrameFault {
    ghost use Rattle.std.specs.Prelude.{◌≡◌};
    ghost use Rattle.http_frames.specs.declared.fault.FrameFault.{FrameFault};

    ghost from_gives = { λ _ e. e ≡ FrameFault.ReadFault };

    fn from(_: Failed) -> Self {
        FrameFault::ReadFault
    }
}

impl From<AllocError> for FrameFault {
    ghost use Rattle.std.specs.Prelude.{◌≡◌};
    ghost use Rattle.http_frames.specs.declared.fault.FrameFault.{FrameFault};

    ghost from_gives = { λ _ e. e ≡ FrameFault.OutOfMemory };

    fn from(_: AllocError) -> Self {
        FrameFault::OutOfMemory
    }
}

/// Why a frame was not written, or not whole.
#[derive(Clone, Copy, Debug, PartialEq, Eq)]
pub enum PutFault {
    /// The sink failed: its count of faults rose in the call.
    WriteFault,
    OutOfMemory,
}

impl fmt::Display for PutFault {
    ghost use Rattle.std.specs.Prelude.{Some};
    ghost use Rattle.http_frames.specs.Faults.{put_fault_text};

    ghost output = { λ fault. Some (put_fault_text fault) };

    fn fmt<W: fmt::Write>(&self, f: &mut fmt::Formatter<W>) -> fmt::Result {
        f.write_str(match self {
            PutFault::WriteFault => "the sink failed",
            PutFault::OutOfMemory => "no memory for the message",
        })
    }
}

impl Error for PutFault {}

impl From<Failed> for PutFault {
    ghost use Rattle.std.specs.Prelude.{◌≡◌};
    ghost use Rattle.http_frames.specs.declared.fault.PutFault.{PutFault};

    ghost from_gives = { λ _ e. e ≡ PutFault.WriteFault };

    fn from(_: Failed) -> Self {
        PutFault::WriteFault
    }
}

impl From<AllocError> for PutFault {
    ghost use Rattle.std.specs.Prelude.{◌≡◌};
    ghost use Rattle.http_frames.specs.declared.fault.PutFault.{PutFault};

    ghost from_gives = { λ _ e. e ≡ PutFault.OutOfMemory };

    fn from(_: AllocError) -> Self {
        PutFault::OutOfMemory
    }
}

//! Why a file could not be read.
ghost use Rattle.std.specs.Prelude.{◌≡◌};

use m2m_io::Failed;
use std::alloc::AllocError;
use std::error::Error;
use std::fmt;

/// Why a file could not be read.
#[derive(Clone, Copy, Debug, PartialEq, Eq)]
pub enum FileFault {
    /// The file failed: its count of faults rose in the call.
    Failed,
    /// Memory ran out.
    OutOfMemory,
}

impl fmt::Display for FileFault {
    ghost use Rattle.std.specs.Prelude.{Some};
    ghost use Rattle.kept_file.specs.FileFault.{file_fault_text};

    ghost output = { λ fault. Some (file_fault_text fault) };

    fn fmt<W: fmt::Write>(&self, f: &mut fmt::Formatter<W>) -> fmt::Result {
        f.write_str(match self {
            FileFault::Failed => "the file failed",
            FileFault::OutOfMemory => "no memory for the file",
        })
    }
}

impl Error for FileFault {}

impl From<AllocError> for FileFault {
    ghost use Rattle.kept_file.specs.declared.fault.FileFault.{FileFault};

    ghost from_gives = { λ _ e. e ≡ FileFault.OutOfMemory };

    fn from(_: AllocError) -> Self {
        FileFault::OutOfMemory
    }
}

impl From<Failed> for FileFault {
    ghost use Rattle.kept_file.specs.declared.fault.FileFault.{FileFault};

    ghost from_gives = { λ _ e. e ≡ FileFault.Failed };

    fn from(_: Failed) -> Self {
        FileFault::Failed
    }
}

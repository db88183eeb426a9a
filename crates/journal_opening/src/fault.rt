//! Why a journal isn't opened.
ghost use Rattle.std.specs.Prelude.{◌≡◌};

use kept_file::Failed;
use std::alloc::AllocError;

/// Why a journal isn't opened.
#[derive(Clone, Copy, Debug, PartialEq, Eq)]
pub enum OpeningFault {
    /// The first line is none of a journal, and none of a snapshot.
    NoHeader,
    /// It is a journal of another format.
    OtherFormat,
    /// It is the journal of another home.
    OtherHome,
    /// At the line of this number, from 1, the snapshot that it begins with has no resource or item
    /// that fits behind those before it.
    BadSnapshot(usize),
    /// The snapshot that it begins with is that of no sound entity.
    Unsound,
    /// At the line of this number, from 1, no deed begins, but the journal goes on.
    BadLine(usize),
    /// At the line of this number, from 1, a deed begins that an older program has written, in the
    /// format 1.
    OldDeed(usize),
    /// At the line of this number, from 1, a word begins on requests that are answered later, which
    /// a CSE that answers at once doesn't read, or which doesn't fit behind what stands before it.
    LaterWord(usize),
    /// The file failed: its count of faults rose in the call.
    Failed,
    /// Memory ran out.
    OutOfMemory,
}

impl From<AllocError> for OpeningFault {
    ghost use Rattle.journal_opening.specs.declared.fault.OpeningFault.{OpeningFault};

    ghost from_gives = { λ _ e. e ≡ OpeningFault.OutOfMemory };

    fn from(_: AllocError) -> Self {
        OpeningFault::OutOfMemory
    }
}

impl From<Failed> for OpeningFault {
    ghost use Rattle.journal_opening.specs.declared.fault.OpeningFault.{OpeningFault};

    ghost from_gives = { λ _ e. e ≡ OpeningFault.Failed };

    fn from(_: Failed) -> Self {
        OpeningFault::Failed
    }
}

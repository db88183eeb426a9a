//! Why a snapshot isn't opened.
ghost use Rattle.std.specs.Prelude.{◌≡◌};
ghost use Rattle.entity_snapshot.specs.Opening as spec;

use entity_lines::HeaderFault;
use std::alloc::AllocError;

/// Why a snapshot isn't opened.
#[derive(Clone, Copy, Debug, PartialEq, Eq)]
pub enum SnapshotFault {
    /// The first line is none of a snapshot.
    NoHeader,
    /// It is a snapshot of another format.
    OtherFormat,
    /// It is a snapshot of another home.
    OtherHome,
    /// At the line of this number, from 1, begins no resource or item that fits behind those before
    /// it.
    BadLine(usize),
    /// The resources and items are those of no sound entity.
    Unsound,
    /// Memory ran out.
    OutOfMemory,
}

impl From<AllocError> for SnapshotFault {
    ghost use Rattle.entity_snapshot.specs.declared.fault.SnapshotFault.{SnapshotFault};

    ghost from_gives = { λ _ e. e ≡ SnapshotFault.OutOfMemory };

    fn from(_: AllocError) -> Self {
        SnapshotFault::OutOfMemory
    }
}

/// The fault of a head as that of a snapshot.
pub(crate) fn snapshot_fault(fault: HeaderFault) -> SnapshotFault
    ensures { result ≡ spec.snapshot_fault fault }
{
    match fault {
        HeaderFault::NoHeader => SnapshotFault::NoHeader,
        HeaderFault::OtherFormat => SnapshotFault::OtherFormat,
        HeaderFault::OtherHome => SnapshotFault::OtherHome,
        HeaderFault::OutOfMemory => SnapshotFault::OutOfMemory,
    }
}

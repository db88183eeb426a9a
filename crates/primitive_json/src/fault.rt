//! Why a value is no primitive.
ghost use Rattle.std.specs.Prelude.{◌≡◌, IfOk};
ghost use Rattle.primitive_json.specs.Reading.{kept_fault};
ghost use Rattle.primitive_json.specs.declared.fault.PrimFault.TheVariants.{OutOfMemory};

use m2m_value::Text;
use std::alloc::{AllocError, AllocFailed, Global};

/// Why a value is no request, or no reply. Of several faults the first is told: a member that is
/// missing before one that is bad, and among equals the first in byte order of the names.
#[derive(Debug, Drop, PartialEq, Eq)]
pub enum PrimFault {
    /// The member of this name is needed and absent.
    Missing(Text),
    /// The value of this member is outside its kind, or there is no such member.
    Bad(Text),
    OutOfMemory,
}

/// The same, named by a text that is lent.
#[derive(Clone, Copy, Debug, PartialEq, Eq)]
pub enum Fault<'a> {
    Missing(&'a [u8]),
    Bad(&'a [u8]),
}

impl Fault<'_> {
    /// The fault with a name of its own.
    pub fn kept(self, alloc: Global) -> Result<PrimFault, AllocError>
        ensures { IfOk result (λ e. e ≡ kept_fault self.entry) }
    {
        match self {
            Fault::Missing(name) => Ok(PrimFault::Missing(Text::from_slice(alloc, name)?)),
            Fault::Bad(name) => Ok(PrimFault::Bad(Text::from_slice(alloc, name)?)),
        }
    }
}

impl From<AllocError> for PrimFault {
    ghost from_gives = { λ _ e. e ≡ OutOfMemory };

    fn from(_e: AllocError) -> PrimFault {
        PrimFault::OutOfMemory
    }
}

impl<T: Drop> From<AllocFailed<T>> for PrimFault {
    ghost from_gives = { λ _ e. e ≡ OutOfMemory };

    fn from(_e: AllocFailed<T>) -> PrimFault {
        PrimFault::OutOfMemory
    }
}

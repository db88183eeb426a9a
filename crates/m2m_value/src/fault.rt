//! Why bytes were not read.
ghost use Rattle.std.specs.Prelude.{◌≡◌};
ghost use Rattle.m2m_value.specs.declared.fault.ValFault.TheVariants.{OutOfMemory};

use std::alloc::{AllocError, AllocFailed};

/// Why bytes were not read as a value.
#[derive(Clone, Copy, Debug, Drop, PartialEq, Eq)]
pub enum ValFault {
    /// They are no JSON, or deeper than 127.
    NotJson,
    /// A whole number is from 2^63 to 2^64 - 1.
    TooWide,
    /// A number has a fraction or an exponent, is `-0`, or does not fit 64 bits.
    Fraction,
    OutOfMemory,
}

impl From<AllocError> for ValFault {
    ghost from_gives = { λ _ e. e ≡ OutOfMemory };

    fn from(_e: AllocError) -> ValFault {
        ValFault::OutOfMemory
    }
}

impl<T: Drop> From<AllocFailed<T>> for ValFault {
    ghost from_gives = { λ _ e. e ≡ OutOfMemory };

    fn from(_e: AllocFailed<T>) -> ValFault {
        ValFault::OutOfMemory
    }
}

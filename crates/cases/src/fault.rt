//! Why a file of cases can't be read.
use std::alloc::{AllocError, AllocFailed};

/// Why a file of cases can't be read.
#[derive(Drop)]
pub enum Fault {
    /// The line of this number, from 1, is malformed.
    Line { line: usize, why: &'static str },
    /// Memory ran out.
    OutOfMemory,
}

/// What is wrong with a line, if memory didn't run out.
#[derive(Drop)]
pub enum Wrong {
    Why(&'static str),
    OutOfMemory,
}

impl From<AllocError> for Wrong {
    fn from(_: AllocError) -> Self {
        Wrong::OutOfMemory
    }
}

impl<T: Drop> From<AllocFailed<T>> for Wrong {
    fn from(_: AllocFailed<T>) -> Self {
        Wrong::OutOfMemory
    }
}

impl Wrong {
    /// The fault of this line.
    pub fn at(self, line: usize) -> Fault {
        match self {
            Wrong::Why(why) => Fault::Line { line, why },
            Wrong::OutOfMemory => Fault::OutOfMemory,
        }
    }
}

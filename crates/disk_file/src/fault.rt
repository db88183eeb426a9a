//! Why a file could not be opened.
use std::alloc::AllocError;
use std::error::Error;
use std::{fmt, io};

/// Why a file could not be opened.
#[derive(Clone, Copy, Debug)]
pub enum OpenFault {
    /// Another program has it open.
    Busy,
    /// Another program has what is named as the file, with `.new` behind it.
    BesideBusy,
    /// What is named as the file, with `.new` behind it, is the journal of another home.
    BesideOwned,
    /// What has this name is no file, or is a link, or has a second name.
    NoPlainFile,
    /// The system refused it.
    System(io::Error),
    /// Memory ran out.
    OutOfMemory,
}

impl fmt::Display for OpenFault {
    fn fmt<W: fmt::Write>(&self, f: &mut fmt::Formatter<W>) -> fmt::Result {
        match self {
            OpenFault::Busy => f.write_str("another program has the file open"),
            OpenFault::BesideBusy => {
                f.write_str("another program has the file open that ends in .new")
            }
            OpenFault::BesideOwned => {
                f.write_str("the file that ends in .new is the journal of another home")
            }
            OpenFault::NoPlainFile => f.write_str("no plain file with one name"),
            OpenFault::System(error) => write!(f, "{error}"),
            OpenFault::OutOfMemory => f.write_str("no memory for the file"),
        }
    }
}

impl Error for OpenFault {}

impl From<io::Error> for OpenFault {
    fn from(error: io::Error) -> Self {
        OpenFault::System(error)
    }
}

impl From<AllocError> for OpenFault {
    fn from(_: AllocError) -> Self {
        OpenFault::OutOfMemory
    }
}

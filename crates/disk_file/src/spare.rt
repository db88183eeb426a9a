//! Descriptors for a file's own work.
use crate::OpenFault;
use crate::place::Place;
use std::fs::File;

/// Two descriptors that are kept for a file's own work, as connections may take all others.
#[derive(Drop)]
pub(crate) struct Spares {
    first: Option<File>,
    second: Option<File>,
}

impl Spares {
    /// None yet.
    pub(crate) fn new() -> Spares {
        Spares {
            first: None,
            second: None,
        }
    }

    /// Takes what is missing, where the system gives any.
    pub(crate) fn fill(&mut self, place: &Place) {
        if self.first.is_none() {
            self.first = place.again().ok();
        }
        if self.second.is_none() {
            self.second = place.again().ok();
        }
    }

    /// Gives both back, for what is opened next.
    pub(crate) fn give_back(&mut self) {
        self.first = None;
        self.second = None;
    }
}

/// Whether the program had no descriptor left.
pub(crate) fn wants_descriptor<T>(done: &Result<T, OpenFault>) -> bool {
    match done {
        Err(OpenFault::System(error)) => error.raw_os_error() == Some(libc::EMFILE),
        _ => false,
    }
}

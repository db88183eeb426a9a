//! Who runs the program.
use crate::OpenFault;
use crate::aside::{MOST_NUMBERED, is_full, may_have_a_deed, set_aside};
use crate::place::Loss;
use libc::net::{POLLNVAL, POLLOUT, poll};
use libc::types::pollfd;
use std::alloc::AllocError;
use std::io;
use std::io::Eprint;
use std::sync::Arc;

/// The descriptor of standard error.
const STANDARD_ERROR: i32 = 2;

/// Who runs the program, and is told on standard error why the file of a name fails.
#[derive(Drop)]
pub(crate) struct Operator {
    rt: HostRuntime,
    name: Arc<String>,
    hears: bool,
}

/// Whether standard error is open. Else a connection may take its place later.
fn is_open() -> bool {
    let mut fds = [pollfd {
        fd: STANDARD_ERROR,
        events: POLLOUT,
        revents: 0,
    }];
    poll(&mut fds, 0) == 1 && fds[0].revents & POLLNVAL == 0
}

impl Operator {
    /// Who is told of the file of this name, unless standard error isn't open.
    pub(crate) fn new(rt: &HostRuntime, name: &str) -> Result<Operator, AllocError> {
        let name = String::from_str(rt.alloc(), name)?;
        Ok(Operator {
            rt: *rt,
            name: Arc::new(rt.alloc(), name)?,
            hears: is_open(),
        })
    }

    /// Who is told of another file that is to have this name. That takes no memory.
    pub(crate) fn again(&self) -> Result<Operator, AllocError> {
        Ok(Operator {
            rt: self.rt,
            name: Arc::try_clone(&self.name)?,
            hears: self.hears,
        })
    }

    /// The name of the file.
    pub(crate) fn name(&self) -> &str {
        self.name.as_str()
    }

    /// Writes a line, if there was memory for it.
    fn write(&self, line: Result<String, AllocError>) {
        if let (true, Ok(line)) = (self.hears, line) {
            let _ = self.rt.eprint(line.as_str());
        }
    }

    /// Tells why the file failed.
    pub(crate) fn tell(&self, error: io::Error) {
        let name = self.name();
        self.write(format!(in self.rt.alloc(); "{name}: {error}\n"));
    }

    /// Tells why nothing could be put in the file's place.
    pub(crate) fn tell_fault(&self, fault: OpenFault) {
        let name = self.name();
        self.write(format!(in self.rt.alloc(); "{name}: {fault}\n"));
    }

    /// Tells that the file was made.
    pub(crate) fn tell_made(&self) {
        let name = self.name();
        self.write(format!(in self.rt.alloc(); "made a new journal {name}\n"));
    }

    /// Tells why an open file isn't the one any more that has its name.
    pub(crate) fn tell_loss(&self, loss: Loss) {
        let name = self.name();
        self.write(format!(in self.rt.alloc(); "{name}: {loss}\n"));
    }

    /// Tells why no other file takes the place of this one.
    pub(crate) fn tell_stays(&self, fault: OpenFault) {
        let name = self.name();
        let alloc = self.rt.alloc();
        self.write(format!(in alloc;
            "{name}: it goes on as it is, as no snapshot can take its place: {fault}\n"
        ));
    }

    /// Tells where bytes of the file are.
    fn tell_kept(&self, what: &str, is_free: bool) {
        let name = self.name();
        let alloc = self.rt.alloc();
        self.write(format!(in alloc; "{name}: {what}; {name}.cut has them\n"));
        if !is_free {
            self.write(format!(in alloc;
                "{name}.cut.1 to {name}.cut.{MOST_NUMBERED} stay; what {name}.cut had is gone\n"
            ));
        }
    }

    /// Keeps bytes of the file beside it, and tells what they are, or why they can't be kept. On a
    /// full disk bytes without a whole deed are told and not kept.
    pub(crate) fn keep_for(&self, bytes: &[u8], what: &str) -> Result<(), OpenFault> {
        let name = self.name();
        let alloc = self.rt.alloc();
        match set_aside(&self.rt, name, bytes) {
            Ok(is_free) => {
                self.tell_kept(what, is_free);
                Ok(())
            }
            Err(fault) if is_full(&fault) && !may_have_a_deed(bytes) => {
                self.write(format!(in alloc; "{name}: {what}; they are kept nowhere: {fault}\n"));
                Ok(())
            }
            Err(fault) => {
                self.write(format!(in alloc; "{name}: {what}; cannot make {name}.cut: {fault}\n"));
                Err(fault)
            }
        }
    }
}

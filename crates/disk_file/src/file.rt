//! A file of the system.
ghost use Rattle.std.specs.Prelude.{◌≡◌, [], ⊤, IsErr};
ghost use Rattle.m2m_io.specs.Counts.{CountsFaults};

use crate::OpenFault;
use crate::opening::{is_absent, make, make_over, open_there};
use crate::operator::Operator;
use crate::whose::Owner;
use kept_file::{Failed, FileFault, KeptFile};
use std::alloc::{AllocError, Global};
use std::fs::File;
use std::io;
use std::os::unix::fs::FileExt;

/// A file of the system, with a lock against other programs for as long as it is open. Each error
/// of the system is a fault, and is told on standard error.
#[derive(Drop)]
pub struct DiskFile {
    file: File,
    /// How many bytes it has.
    len: u64,
    faults: u64,
    operator: Operator,
}

/// Opens the file of a name, or makes it with these bytes, where nothing has the name or a file
/// without a byte. Who runs the program is told that it was made.
fn open_or_make(
    rt: &HostRuntime,
    path: &str,
    first: &[u8],
    operator: &Operator,
) -> Result<File, OpenFault> {
    if is_absent(rt, path)? {
        let made = make(rt, path, first)?;
        operator.tell_made();
        return Ok(made);
    }
    let there = open_there(rt, path)?;
    if there.metadata()?.len() > 0 {
        return Ok(there);
    }
    let made = make_over(rt, path, first)?;
    operator.tell_made();
    Ok(made)
}

impl DiskFile {
    /// Opens the file of a name. Where nothing has it, or a file without a byte, the file is made
    /// with these bytes, and that is told on standard error.
    pub fn open(rt: &HostRuntime, path: &str, first: &[u8]) -> Result<DiskFile, OpenFault> {
        let operator = Operator::new(rt, path)?;
        let file = open_or_make(rt, path, first, &operator)?;
        DiskFile::of(file, operator)
    }

    /// Opens the file that has a name.
    pub fn open_there(rt: &HostRuntime, path: &str) -> Result<DiskFile, OpenFault> {
        let operator = Operator::new(rt, path)?;
        let file = open_there(rt, path)?;
        DiskFile::of(file, operator)
    }

    /// This open file, of which this operator is told.
    pub(crate) fn of(file: File, operator: Operator) -> Result<DiskFile, OpenFault> {
        let len = file.metadata()?.len();
        Ok(DiskFile {
            file,
            len,
            faults: 0,
            operator,
        })
    }

    /// The file.
    pub(crate) fn file(&self) -> &File {
        &self.file
    }

    /// Whose journal the file is.
    pub(crate) fn owner(&self, alloc: Global) -> Result<Owner, OpenFault> {
        Ok(Owner::of(alloc, &self.file)??)
    }

    /// Counts a fault.
    pub(crate) fn fail(&mut self) -> Result<(), Failed>
        ensures never { IsErr result }
        ensures faults { CountsFaults result self.old.faults self.new.faults }
    {
        self.faults = self.faults.saturating_add(1);
        Err(Failed)
    }

    /// Is another file from now on, with the count of the faults so far.
    pub(crate) fn go_on_as(&mut self, other: DiskFile)
        ensures { self.new.faults ≡ self.old.faults }
    {
        let DiskFile {
            file,
            len,
            faults: _,
            operator: _,
        } = other;
        self.file = file;
        self.len = len;
    }

    /// What a call of the system did; an error counts as a fault, and is told.
    fn counted<T>(&mut self, done: io::Result<T>) -> Result<T, Failed>
        ensures { CountsFaults result self.old.faults self.new.faults }
    {
        match done {
            Ok(done) => Ok(done),
            Err(error) => {
                self.operator.tell(error);
                self.faults = self.faults.saturating_add(1);
                Err(Failed)
            }
        }
    }

    /// Gives back what a write that failed took behind the end of the file: the disk may be full, and
    /// the next start is to find nothing there.
    fn give_back(&self) {
        if let Ok(found) = self.file.metadata()
            && found.len() > self.len
        {
            let _ = self.file.set_len(self.len);
        }
    }
}

/// The bytes of a file, where there is memory for them.
fn read_whole(file: &File, alloc: Global) -> io::Result<Result<Vec<u8>, AllocError>> {
    let len = file.metadata()?.len() as usize;
    let Ok(mut bytes) = vec![in alloc; 0u8; len] else {
        return Ok(Err(AllocError));
    };
    file.read_exact_at(&mut bytes, 0)?;
    Ok(Ok(bytes))
}

impl KeptFile for DiskFile {
    ghost tells = { ⊥ };

    ghost seen = { λ _. [] };

    ghost may_leave = { λ _ _. ⊤ };

    ghost moment = { λ _. 0 };

    ghost left_since = { λ _ _ _. ⊤ };

    ghost faults = { λ f. f.faults };

    ghost counts_now = { λ none. absurd none };

    ghost only_now = { λ none. absurd none };

    fn read(&mut self, alloc: Global) -> Result<Vec<u8>, FileFault> {
        let done = read_whole(&self.file, alloc);
        match self.counted(done) {
            Ok(Ok(bytes)) => Ok(bytes),
            Ok(Err(_)) => Err(FileFault::OutOfMemory),
            Err(_) => Err(FileFault::Failed),
        }
    }

    fn write_at(&mut self, at: usize, bytes: &[u8]) -> Result<(), Failed> {
        let done = self.file.write_all_at(bytes, at as u64);
        if done.is_err() {
            self.give_back();
        } else {
            let end = at.saturating_add(bytes.len()) as u64;
            self.len = self.len.max(end);
        }
        self.counted(done)
    }

    fn cut(&mut self, len: usize) -> Result<(), Failed> {
        let done = self.file.set_len(len as u64);
        if done.is_ok() {
            self.len = len as u64;
        }
        self.counted(done)
    }

    fn set_aside(&mut self, bytes: &[u8], what: &str) -> Result<(), Failed> {
        match self.operator.keep_for(bytes, what) {
            Ok(()) => Ok(()),
            Err(_) => self.fail(),
        }
    }

    fn sync(&mut self) -> Result<(), Failed> {
        let done = self.file.sync_data();
        self.counted(done)
    }
}

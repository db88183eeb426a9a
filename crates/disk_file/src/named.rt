//! A file of the system under its name.
ghost use Rattle.std.specs.Prelude.{◌≡◌, [], ⊤};

use crate::name::Given;
use crate::{DiskFile, DiskName, OpenFault};
use kept_file::{Failed, FileFault, KeptFile, KeptName, NamedFile};
use std::alloc::Global;

/// A file of the system under its name, in whose place another one can be put.
#[derive(Drop)]
pub struct NamedDiskFile {
    file: DiskFile,
    name: DiskName,
    is_renamed: bool,
    /// Whether it was told that the old file goes on, since the last one that took its place.
    is_told: bool,
}

impl NamedDiskFile {
    /// Opens the file of a name. Where nothing has it, or a file without a byte, the file is made
    /// with these bytes.
    pub fn open(rt: &HostRuntime, path: &str, first: &[u8]) -> Result<NamedDiskFile, OpenFault> {
        let file = DiskFile::open(rt, path, first)?;
        let name = DiskName::new(rt, &file, path)?;
        Ok(NamedDiskFile {
            file,
            name,
            is_renamed: false,
            is_told: false,
        })
    }

    /// This file has the name from now on.
    fn go_on_as(&mut self, file: DiskFile)
        ensures { self.new.file.faults ≡ self.old.file.faults }
    {
        self.file.go_on_as(file);
        self.name.take_spares();
        self.is_renamed = true;
        self.is_told = false;
    }

    /// The old file goes on. Why is told once.
    fn stay(&mut self, fault: OpenFault)
        ensures { self.new.file ≡ self.old.file }
    {
        if !self.is_told {
            self.name.tell_stays(fault);
        }
        self.is_told = true;
        self.name.take_spares();
    }
}

impl KeptFile for NamedDiskFile {
    ghost tells = { ⊥ };

    ghost seen = { λ _. [] };

    ghost may_leave = { λ _ _. ⊤ };

    ghost moment = { λ _. 0 };

    ghost left_since = { λ _ _ _. ⊤ };

    ghost faults = { λ f. f.file.faults };

    ghost counts_now = { λ none. absurd none };

    ghost only_now = { λ none. absurd none };

    fn read(&mut self, alloc: Global) -> Result<Vec<u8>, FileFault> {
        self.file.read(alloc)
    }

    fn write_at(&mut self, at: usize, bytes: &[u8]) -> Result<(), Failed> {
        self.file.write_at(at, bytes)
    }

    fn cut(&mut self, len: usize) -> Result<(), Failed> {
        self.file.cut(len)
    }

    fn set_aside(&mut self, bytes: &[u8], what: &str) -> Result<(), Failed> {
        self.file.set_aside(bytes, what)
    }

    fn sync(&mut self) -> Result<(), Failed> {
        if self.is_renamed && self.name.sync().is_err() {
            return self.file.fail();
        }
        self.is_renamed = false;
        if self.name.was_lost() {
            return self.file.fail();
        }
        self.file.sync()
    }
}

impl NamedFile for NamedDiskFile {
    fn replace(&mut self, bytes: &[u8]) -> Result<bool, Failed> {
        let file = match self.name.filled(bytes) {
            Ok(file) => file,
            Err(fault) => {
                self.stay(fault);
                return Ok(false);
            }
        };
        match self.name.give_to(&file) {
            Given::New => {
                self.go_on_as(file);
                Ok(true)
            }
            Given::Old(error) => {
                self.stay(OpenFault::System(error));
                Ok(false)
            }
            Given::Lost => {
                self.file.fail()?;
                Ok(false)
            }
        }
    }
}

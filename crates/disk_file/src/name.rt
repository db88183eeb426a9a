//! The name of a file of the system.
ghost use Rattle.std.specs.Prelude.{◌≡◌, [], ⊤};
ghost use Rattle.m2m_io.specs.Counts.{CountsFaults};

use crate::opening::{beside, fill, make_like};
use crate::operator::Operator;
use crate::place::{Identity, Place};
use crate::spare::{Spares, wants_descriptor};
use crate::whose::Owner;
use crate::{DiskFile, OpenFault};
use kept_file::{Failed, KeptName};
use std::fs::File;
use std::time::Instant;
use std::{fs, io};

/// The name is looked at again where it wasn't for so many seconds.
const LOOKS_AGAIN: u64 = 1;

/// What became of a file that was to get the name.
#[derive(Clone, Copy)]
pub(crate) enum Given {
    /// It has the name.
    New,
    /// The old file has it still.
    Old(io::Error),
    /// The old file has it no more, or nobody knows which one has it. That was told.
    Lost,
}

/// The name of a file of the system, in whose place another one can be put. Each error of the
/// system is a fault, and is told on standard error. What its calls need of memory it has already.
#[derive(Drop)]
pub struct DiskName {
    rt: HostRuntime,
    beside: String,
    owner: Owner,
    place: Place,
    spares: Spares,
    looked: Option<Instant>,
    faults: u64,
    operator: Operator,
}

impl DiskName {
    /// The name of this file, which is this one.
    pub fn new(rt: &HostRuntime, file: &DiskFile, path: &str) -> Result<DiskName, OpenFault> {
        let place = Place::of(rt, file.file(), path)?;
        let mut spares = Spares::new();
        spares.fill(&place);
        Ok(DiskName {
            rt: *rt,
            beside: beside(rt, path)?,
            owner: file.owner(rt.alloc())?,
            place,
            spares,
            looked: None,
            faults: 0,
            operator: Operator::new(rt, path)?,
        })
    }

    /// Makes a file without a byte beside the one that has the name, with the owner and the rights
    /// of that one.
    fn blank(&self) -> Result<File, OpenFault> {
        make_like(
            &self.rt,
            self.beside.as_str(),
            self.operator.name(),
            &self.owner,
        )
    }

    /// Makes a file without a byte, also where the program has no other descriptor left.
    fn blank_anyway(&mut self) -> Result<File, OpenFault>
        ensures { self.new.faults ≡ self.old.faults }
    {
        let done = self.blank();
        if !wants_descriptor(&done) {
            return done;
        }
        self.spares.give_back();
        self.blank()
    }

    /// A file without a byte that is to get the name.
    fn blank_file(&mut self) -> Result<DiskFile, OpenFault>
        ensures { self.new.faults ≡ self.old.faults }
    {
        let operator = self.operator.again()?;
        let file = self.blank_anyway()?;
        DiskFile::of(file, operator)
    }

    /// A file of these bytes that is to get the name. Where it can't be made, the place that it
    /// takes on the disk is given back, as the disk may be full.
    pub(crate) fn filled(&mut self, bytes: &[u8]) -> Result<DiskFile, OpenFault> {
        let operator = self.operator.again()?;
        let file = self.blank_anyway()?;
        fill(&file, bytes)?;
        DiskFile::of(file, operator)
    }

    /// Whether the file that has the name isn't this one any more. Then that is told. Where the
    /// system doesn't say, it isn't known.
    fn is_lost(&self) -> io::Result<bool> {
        match self.place.loss(self.operator.name())? {
            Some(loss) => {
                self.operator.tell_loss(loss);
                Ok(true)
            }
            None => Ok(false),
        }
    }

    /// Whether the name is to be looked at again. It is then taken for looked at.
    fn is_due(&mut self) -> bool {
        let Ok(now) = Instant::now(&self.rt) else {
            return true;
        };
        match self.looked {
            Some(looked) if now.duration_since(looked).as_secs() < LOOKS_AGAIN => false,
            _ => {
                self.looked = Some(now);
                true
            }
        }
    }

    /// Whether the name was lost, which is looked at once a second at most. Then that is told.
    pub(crate) fn was_lost(&mut self) -> bool {
        if !self.is_due() {
            return false;
        }
        self.spares.fill(&self.place);
        self.is_lost().unwrap_or(false)
    }

    /// Gives the name to a file, where the old one has it.
    pub(crate) fn give_to(&mut self, file: &DiskFile) -> Given
        ensures { self.new.faults ≡ self.old.faults }
    {
        match self.is_lost() {
            Ok(false) => self.rename(file),
            Ok(true) => Given::Lost,
            Err(error) => Given::Old(error),
        }
    }

    /// Renames a file.
    fn rename(&mut self, file: &DiskFile) -> Given
        ensures { self.new.faults ≡ self.old.faults }
    {
        let new = match Identity::of(file.file()) {
            Ok(new) => new,
            Err(error) => return Given::Old(error),
        };
        match fs::rename(&self.rt, self.beside.as_str(), self.operator.name()) {
            Ok(()) => {
                self.place.set_file(new);
                Given::New
            }
            Err(error) => self.not_renamed(new, error),
        }
    }

    /// What a rename left that gave an error. Where it surely did nothing, the new file goes.
    fn not_renamed(&self, new: Identity, error: io::Error) -> Given {
        let (old_name, new_name) = (self.operator.name(), self.beside.as_str());
        if self.place.has_both(old_name, new_name, new) {
            let _ = fs::remove_file(&self.rt, new_name);
            return Given::Old(error);
        }
        self.operator.tell(error);
        Given::Lost
    }

    /// Tells why the old file goes on.
    pub(crate) fn tell_stays(&self, fault: OpenFault) {
        self.operator.tell_stays(fault);
    }

    /// Takes the descriptors again that the file's own work needs.
    pub(crate) fn take_spares(&mut self) {
        self.spares.fill(&self.place);
    }

    /// What was done; what wasn't counts as a fault, and is told.
    fn counted<T>(&mut self, done: Result<T, OpenFault>) -> Result<T, Failed>
        ensures { CountsFaults result self.old.faults self.new.faults }
    {
        match done {
            Ok(done) => Ok(done),
            Err(fault) => {
                self.operator.tell_fault(fault);
                self.faults = self.faults.saturating_add(1);
                Err(Failed)
            }
        }
    }

    /// Counts a fault that was told.
    fn fail(&mut self) -> Result<(), Failed>
        ensures { CountsFaults result self.old.faults self.new.faults }
    {
        self.faults = self.faults.saturating_add(1);
        Err(Failed)
    }
}

impl KeptName<DiskFile> for DiskName {
    ghost tells = { ⊥ };

    ghost seen = { λ _. [] };

    ghost may_leave = { λ _ _. ⊤ };

    ghost moment = { λ _. 0 };

    ghost left_since = { λ _ _ _. ⊤ };

    ghost faults = { λ f. f.faults };

    ghost only_now = { λ none. absurd none };

    fn make(&mut self) -> Result<DiskFile, Failed> {
        let done = self.blank_file();
        self.counted(done)
    }

    fn give(&mut self, file: &DiskFile) -> Result<(), Failed> {
        match self.give_to(file) {
            Given::New => Ok(()),
            Given::Old(error) => self.counted(Err(OpenFault::System(error))),
            Given::Lost => self.fail(),
        }
    }

    fn sync(&mut self) -> Result<(), Failed> {
        match self.place.sync() {
            Ok(()) => Ok(()),
            Err(error) => self.counted(Err(OpenFault::System(error))),
        }
    }
}

//! A journal whose size and syncs are told to the log.
ghost use Rattle.std.specs.Prelude.{◌≡◌, [], ⊤};

use devices::Log;
use disk_file::NamedDiskFile;
use kept_file::{Failed, FileFault, KeptFile, NamedFile};
use std::alloc::Global;
use std::io::Eprint;
use std::time::Clock;

/// The file of a journal, whose size and syncs the figures of a log say.
#[derive(Drop)]
pub(crate) struct CountedFile<R> {
    file: NamedDiskFile,
    log: Log<R>,
    /// How many bytes the file has.
    length: usize,
}

impl<R: Clock + Eprint + Copy + Drop> CountedFile<R> {
    /// This file, and the log that says its figures.
    pub(crate) fn new(file: NamedDiskFile, log: Log<R>) -> Self {
        CountedFile {
            file,
            log,
            length: 0,
        }
    }

    /// One sync more is counted.
    fn count_sync(&self) {
        if let Some(figures) = self.log.figures() {
            figures.count_sync();
        }
    }

    /// The file has so many bytes from now on.
    fn set_length(&mut self, len: usize)
        ensures { self.new.file ≡ self.old.file }
    {
        self.length = len;
        if let Some(figures) = self.log.figures() {
            figures.set_journal(len);
        }
    }
}

/// What a call of the file did. Where it failed nothing more is kept, and the server ends.
fn or_shut<R: Clock + Eprint + Copy, T>(log: &Log<R>, done: Result<T, Failed>) -> Result<T, Failed>
    ensures { result ≡ done }
{
    if done.is_err() {
        log.shut();
    }
    done
}

impl<R: Clock + Eprint + Copy + Drop> KeptFile for CountedFile<R> {
    ghost tells = { ⊥ };

    ghost seen = { λ _. [] };

    ghost may_leave = { λ _ _. ⊤ };

    ghost moment = { λ _. 0 };

    ghost left_since = { λ _ _ _. ⊤ };

    ghost faults = { λ f. ⟦<NamedDiskFile as KeptFile>⟧.faults f.file };

    ghost counts_now = { λ none. absurd none };

    ghost only_now = { λ none. absurd none };

    fn read(&mut self, alloc: Global) -> Result<Vec<u8>, FileFault> {
        let bytes = self.file.read(alloc)?;
        self.set_length(bytes.len());
        Ok(bytes)
    }

    fn write_at(&mut self, at: usize, bytes: &[u8]) -> Result<(), Failed> {
        or_shut(&self.log, self.file.write_at(at, bytes))?;
        let end = at.saturating_add(bytes.len());
        self.set_length(self.length.max(end));
        Ok(())
    }

    fn cut(&mut self, len: usize) -> Result<(), Failed> {
        or_shut(&self.log, self.file.cut(len))?;
        self.set_length(len);
        Ok(())
    }

    fn set_aside(&mut self, bytes: &[u8], what: &str) -> Result<(), Failed> {
        self.file.set_aside(bytes, what)
    }

    fn sync(&mut self) -> Result<(), Failed> {
        or_shut(&self.log, self.file.sync())?;
        self.count_sync();
        Ok(())
    }

    fn put_whole(&mut self, at: usize, bytes: &[u8], last: u8) -> Result<bool, Failed> {
        let is_put = or_shut(&self.log, self.file.put_whole(at, bytes, last))?;
        if is_put {
            let end = at.saturating_add(bytes.len()).saturating_add(1);
            self.set_length(self.length.max(end));
            self.count_sync();
        }
        Ok(is_put)
    }

    fn is_held(&self) -> bool {
        self.file.is_held()
    }
}

impl<R: Clock + Eprint + Copy + Drop> NamedFile for CountedFile<R> {
    fn replace(&mut self, bytes: &[u8]) -> Result<bool, Failed> {
        let is_replaced = or_shut(&self.log, self.file.replace(bytes))?;
        if is_replaced {
            self.set_length(bytes.len());
        }
        Ok(is_replaced)
    }
}

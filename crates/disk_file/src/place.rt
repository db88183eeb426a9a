//! Where a file stands.
use crate::opening::folder_of;
use std::fs::{File, Metadata};
use std::os::unix::fs::MetadataExt;
use std::{fmt, fs, io};

/// Which file of the system something is: its device, and its number there.
#[derive(Clone, Copy, PartialEq, Eq)]
pub(crate) struct Identity {
    device: u64,
    number: u64,
}

impl Identity {
    fn found(found: &Metadata) -> Identity {
        Identity {
            device: found.dev(),
            number: found.ino(),
        }
    }

    /// Which one an open file is.
    pub(crate) fn of(file: &File) -> io::Result<Identity> {
        Ok(Identity::found(&file.metadata()?))
    }

    /// Which one has this name, if any has it.
    pub(crate) fn named(rt: &HostRuntime, path: &str) -> io::Result<Option<Identity>> {
        there(fs::symlink_metadata(rt, path))
    }
}

/// Which file was found, if there is any.
fn there(found: io::Result<Metadata>) -> io::Result<Option<Identity>> {
    match found {
        Ok(found) => Ok(Some(Identity::found(&found))),
        Err(error) => match error.kind() {
            io::ErrorKind::NotFound | io::ErrorKind::NotADirectory => Ok(None),
            _ => Err(error),
        },
    }
}

/// Why an open file isn't the one any more that the next start would open.
#[derive(Clone, Copy)]
pub(crate) enum Loss {
    /// Nothing has its name.
    Gone,
    /// Another file has its name.
    Another,
    /// Its folder isn't the one any more that has the folder's name.
    Folder,
}

impl fmt::Display for Loss {
    fn fmt<W: fmt::Write>(&self, f: &mut fmt::Formatter<W>) -> fmt::Result {
        f.write_str(match self {
            Loss::Gone => "the file was removed or renamed while it was open",
            Loss::Another => "another file has this name since it was opened",
            Loss::Folder => "the folder was removed, renamed or replaced while the file was open",
        })
    }
}

/// Where a file stands: its folder, which stays open, and which file it is.
#[derive(Drop)]
pub(crate) struct Place {
    rt: HostRuntime,
    folder: File,
    folder_is: Identity,
    file_is: Identity,
}

impl Place {
    /// Where this file stands, which has this name.
    pub(crate) fn of(rt: &HostRuntime, file: &File, path: &str) -> io::Result<Place> {
        let folder = File::open(rt, folder_of(path))?;
        let folder_is = Identity::of(&folder)?;
        Ok(Place {
            rt: *rt,
            folder,
            folder_is,
            file_is: Identity::of(file)?,
        })
    }

    /// Has a crash leave from then on the file that has the name. That takes no memory and no
    /// descriptor.
    pub(crate) fn sync(&self) -> io::Result<()> {
        self.folder.sync_all()
    }

    /// Another descriptor of the folder.
    pub(crate) fn again(&self) -> io::Result<File> {
        self.folder.try_clone()
    }

    /// Why the next start wouldn't open this file by this name, if it wouldn't. That takes neither
    /// memory nor a descriptor.
    pub(crate) fn loss(&self, path: &str) -> io::Result<Option<Loss>> {
        let folder = there(fs::metadata(&self.rt, folder_of(path)))?;
        if folder != Some(self.folder_is) {
            return Ok(Some(Loss::Folder));
        }
        Ok(match Identity::named(&self.rt, path)? {
            None => Some(Loss::Gone),
            Some(named) if named != self.file_is => Some(Loss::Another),
            Some(_) => None,
        })
    }

    /// Whether this name is the file's still, and the other one that of another file.
    pub(crate) fn has_both(&self, path: &str, other: &str, new: Identity) -> bool {
        let is_old = matches!(self.loss(path), Ok(None));
        is_old && matches!(Identity::named(&self.rt, other), Ok(Some(named)) if named == new)
    }

    /// The file with the name is this one from now on.
    pub(crate) fn set_file(&mut self, new: Identity) {
        self.file_is = new;
    }
}

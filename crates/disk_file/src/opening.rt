//! How a file is opened.
use crate::OpenFault;
use crate::whose::Owner;
use std::alloc::AllocError;
use std::fs::{File, OpenOptions, TryLockError};
use std::os::fd::AsRawFd;
use std::os::unix::fs::{FileExt, MetadataExt, OpenOptionsExt, fchown};
use std::path::Path;
use std::{fs, io};

/// The last descriptor of the standard streams.
const STANDARD_ERROR: i32 = 2;

/// The rights of a file that holds what another one has in it, until it has those of that one.
const OWNER_ALONE: u32 = 0o600;

/// The rights of a file that takes no other's place, of which the umask takes some.
const BY_UMASK: u32 = 0o666;

/// What is meant for a standard stream that was closed doesn't land in this file.
fn above_streams(file: File) -> io::Result<File> {
    if file.as_raw_fd() <= STANDARD_ERROR {
        file.try_clone()
    } else {
        Ok(file)
    }
}

/// A file for reading and writing that is there.
fn open_plain(rt: &HostRuntime, path: &str) -> io::Result<File> {
    above_streams(OpenOptions::new().read(true).write(true).open(rt, path)?)
}

/// A file for reading and writing, with these rights, under a name that nothing has.
fn create_plain(rt: &HostRuntime, path: &str, rights: u32) -> io::Result<File> {
    let file = OpenOptions::new()
        .read(true)
        .write(true)
        .create_new(true)
        .mode(rights)
        .open(rt, path)?;
    above_streams(file)
}

fn lock(file: &File) -> Result<(), OpenFault> {
    match file.try_lock() {
        Ok(()) => Ok(()),
        Err(TryLockError::WouldBlock) => Err(OpenFault::Busy),
        Err(TryLockError::Error(error)) => Err(OpenFault::System(error)),
    }
}

/// Whether the file is the one that has this name, and a plain one without a second name.
fn is_named(rt: &HostRuntime, file: &File, path: &str) -> io::Result<bool> {
    let found = file.metadata()?;
    let named = fs::symlink_metadata(rt, path)?;
    Ok(
        found.is_file()
            && found.nlink() == 1
            && found.dev() == named.dev()
            && found.ino() == named.ino(),
    )
}

/// The folder in which a file is that is no link.
pub(crate) fn folder_of(path: &str) -> &str {
    match Path::new(path).parent() {
        Some(folder) if !folder.as_str().is_empty() => folder.as_str(),
        _ => ".",
    }
}

/// Syncs the folder in which a file is. That takes no memory.
fn sync_folder(rt: &HostRuntime, path: &str) -> io::Result<()> {
    File::open(rt, folder_of(path))?.sync_all()
}

/// Has what is read of a file be what stands on the disk.
fn settle(rt: &HostRuntime, file: &File, path: &str) -> io::Result<()> {
    file.sync_all()?;
    let advised = libc::posix_fadvise(file.as_raw_fd(), 0, 0, libc::POSIX_FADV_DONTNEED);
    if advised != 0 {
        return Err(io::Error::from_raw_os_error(advised));
    }
    sync_folder(rt, path)
}

/// Opens a file that is there, with a lock.
pub(crate) fn open_there(rt: &HostRuntime, path: &str) -> Result<File, OpenFault> {
    let file = open_plain(rt, path)?;
    lock(&file)?;
    if !is_named(rt, &file, path)? {
        return Err(OpenFault::NoPlainFile);
    }
    settle(rt, &file, path)?;
    Ok(file)
}

/// The name that a file has until it is whole.
pub(crate) fn beside(rt: &HostRuntime, path: &str) -> Result<String, AllocError> {
    format!(in rt.alloc(); "{path}.new")
}

/// Locks what another program may have open under the name that a file has until it is whole.
fn lock_beside(file: &File) -> Result<(), OpenFault> {
    match lock(file) {
        Err(OpenFault::Busy) => Err(OpenFault::BesideBusy),
        done => done,
    }
}

/// Takes away what has the name that a file has until it is whole, unless it is another one's
/// journal.
fn clear(rt: &HostRuntime, beside: &str, owner: &Owner) -> Result<(), OpenFault> {
    let file = open_plain(rt, beside)?;
    lock_beside(&file)?;
    if !is_named(rt, &file, beside)? {
        return Err(OpenFault::NoPlainFile);
    }
    if owner.differs_from(&file)? {
        return Err(OpenFault::BesideOwned);
    }
    fs::remove_file(rt, beside)?;
    Ok(())
}

/// Makes a file without a byte under the name that it has until it is whole, with these rights and
/// a lock. That takes no memory.
fn make_beside(
    rt: &HostRuntime,
    beside: &str,
    rights: u32,
    owner: &Owner,
) -> Result<File, OpenFault> {
    if !is_absent(rt, beside)? {
        clear(rt, beside, owner)?;
    }
    let file = create_plain(rt, beside, rights)?;
    lock_beside(&file)?;
    if !is_named(rt, &file, beside)? {
        return Err(OpenFault::NoPlainFile);
    }
    Ok(file)
}

/// Makes a file without a byte that only its owner may read, under the name that it has until it is
/// whole, with a lock. That takes no memory.
pub(crate) fn make_guarded(
    rt: &HostRuntime,
    beside: &str,
    owner: &Owner,
) -> Result<File, OpenFault> {
    make_beside(rt, beside, OWNER_ALONE, owner)
}

/// Gives a file the owner and the rights of the one that has a name. The system isn't asked for an
/// owner that it has already, as a service may not be allowed to ask for any.
fn take_rights(rt: &HostRuntime, file: &File, path: &str) -> io::Result<()> {
    let named = fs::symlink_metadata(rt, path)?;
    let own = file.metadata()?;
    if own.uid() != named.uid() || own.gid() != named.gid() {
        fchown(file, Some(named.uid()), Some(named.gid()))?;
    }
    file.set_permissions(named.permissions())
}

/// Makes a file without a byte beside the one that has a name, with a lock, and with the owner and
/// the rights of that one. That takes no memory.
pub(crate) fn make_like(
    rt: &HostRuntime,
    beside: &str,
    path: &str,
    owner: &Owner,
) -> Result<File, OpenFault> {
    let file = make_guarded(rt, beside, owner)?;
    take_rights(rt, &file, path)?;
    Ok(file)
}

/// Gives the name to the file that was made beside the one that has it, if any has it. That takes no
/// memory.
pub(crate) fn give_name(rt: &HostRuntime, beside: &str, path: &str) -> Result<(), OpenFault> {
    fs::rename(rt, beside, path)?;
    Ok(())
}

/// Has a crash leave from then on the file that has the name. That takes no memory.
pub(crate) fn sync_name(rt: &HostRuntime, path: &str) -> Result<(), OpenFault> {
    sync_folder(rt, path)?;
    Ok(())
}

fn write_whole(file: &File, bytes: &[u8]) -> io::Result<()> {
    file.write_all_at(bytes, 0)?;
    file.sync_all()
}

/// Writes all of a file that has no byte yet. Where that fails, the place that it takes is given
/// back, as the disk may be full.
pub(crate) fn fill(file: &File, bytes: &[u8]) -> io::Result<()> {
    let done = write_whole(file, bytes);
    if done.is_err() {
        let _ = file.set_len(0);
    }
    done
}

/// Gives a name to the file that was made beside it, with these bytes in it.
fn place_with(
    rt: &HostRuntime,
    file: &File,
    beside: &str,
    path: &str,
    bytes: &[u8],
) -> Result<(), OpenFault> {
    fill(file, bytes)?;
    give_name(rt, beside, path)?;
    settle(rt, file, path)?;
    Ok(())
}

/// Makes a file with these bytes, where nothing has the name. Who makes one has the lock on the
/// file beside it; so another program that made one meanwhile is seen.
pub(crate) fn make(rt: &HostRuntime, path: &str, bytes: &[u8]) -> Result<File, OpenFault> {
    let beside = beside(rt, path)?;
    let owner = Owner::by(rt.alloc(), bytes)?;
    let file = make_beside(rt, beside.as_str(), BY_UMASK, &owner)?;
    if !is_absent(rt, path)? {
        return Err(OpenFault::Busy);
    }
    place_with(rt, &file, beside.as_str(), path, bytes)?;
    Ok(file)
}

/// Makes a file with these bytes in the place of one without a byte, which has the lock.
pub(crate) fn make_over(rt: &HostRuntime, path: &str, bytes: &[u8]) -> Result<File, OpenFault> {
    let beside = beside(rt, path)?;
    let owner = Owner::by(rt.alloc(), bytes)?;
    let filled = make_like(rt, beside.as_str(), path, &owner)?;
    place_with(rt, &filled, beside.as_str(), path, bytes)?;
    Ok(filled)
}

/// Whether a file of this name would be made by an opening: nothing has the name, or a plain file
/// without a byte.
pub fn is_new(rt: &HostRuntime, path: &str) -> bool {
    match fs::symlink_metadata(rt, path) {
        Ok(found) => found.is_file() && found.len() == 0,
        Err(error) => error.kind() == io::ErrorKind::NotFound,
    }
}

/// Whether nothing has this name.
pub(crate) fn is_absent(rt: &HostRuntime, path: &str) -> Result<bool, OpenFault> {
    match fs::symlink_metadata(rt, path) {
        Ok(_) => Ok(false),
        Err(error) if error.kind() == io::ErrorKind::NotFound => Ok(true),
        Err(error) => Err(OpenFault::System(error)),
    }
}

//! Bytes of a file are kept beside it.
ghost use Rattle.std.specs.Prelude.{◌≡◌, ◌==◌, count_by, drop, nat_le};

use crate::OpenFault;
use crate::opening::{beside, fill, give_name, is_absent, make_guarded, sync_name};
use crate::whose::Owner;
use std::fs::File;
use std::os::unix::fs::{MetadataExt, fchown};
use std::{fs, io};

/// As many files with a number are kept.
pub(crate) const MOST_NUMBERED: u64 = 10;

/// The first of the names from FILE.1 to FILE.10 that nothing has.
fn free_name(rt: &HostRuntime, path: &str) -> Result<Option<String>, OpenFault> {
    for number in 1..MOST_NUMBERED + 1 {
        let name = format!(in rt.alloc(); "{path}.{number}")?;
        if is_absent(rt, name.as_str())? {
            return Ok(Some(name));
        }
    }
    Ok(None)
}

/// Has what has a name, if anything has it, be named with a number from then on. Tells whether
/// nothing has the name then: where each number has a file, it stays.
fn give_number(rt: &HostRuntime, path: &str) -> Result<bool, OpenFault> {
    if is_absent(rt, path)? {
        return Ok(true);
    }
    let Some(name) = free_name(rt, path)? else {
        return Ok(false);
    };
    fs::rename(rt, path, name.as_str())?;
    Ok(true)
}

/// Lets nobody read a file who may not read the one that has a name; and gives it the owner of that
/// one, where the system allows that.
fn guard_like(rt: &HostRuntime, file: &File, path: &str) -> io::Result<()> {
    let named = fs::symlink_metadata(rt, path)?;
    file.set_permissions(named.permissions())?;
    let _ = fchown(file, Some(named.uid()), Some(named.gid()));
    Ok(())
}

/// Keeps these bytes as FILE.cut beside the file of a name. What that had in it before gets a
/// number, while there is one. Tells whether nothing that it had is gone. A crash leaves all the
/// bytes under this name, or none.
pub(crate) fn set_aside(rt: &HostRuntime, path: &str, bytes: &[u8]) -> Result<bool, OpenFault> {
    let cut = format!(in rt.alloc(); "{path}.cut")?;
    let beside = beside(rt, cut.as_str())?;
    let file = make_guarded(rt, beside.as_str(), &Owner::nobody())?;
    guard_like(rt, &file, path)?;
    fill(&file, bytes)?;
    let is_free = give_number(rt, cut.as_str())?;
    give_name(rt, beside.as_str(), cut.as_str())?;
    sync_name(rt, cut.as_str())?;
    Ok(is_free)
}

/// How many lines end in these bytes.
fn ends_in(bytes: &[u8]) -> usize
    ensures { result ≡ count_by (λ b. b == 10) bytes.now }
{
    bytes.iter().filter(|byte| **byte == b'\n').count()
}

/// Whether a whole deed may stand in these bytes behind a gate: a deed has two lines.
pub(crate) fn may_have_a_deed(bytes: &[u8]) -> bool
    ensures { result ≡ nat_le 2 (count_by (λ b. b == 10) (drop 1 bytes.now)) }
{
    match bytes {
        [_, behind @ ..] => ends_in(behind) >= 2,
        [] => false,
    }
}

/// Whether the disk, or what the user may have of it, is full.
pub(crate) fn is_full(fault: &OpenFault) -> bool {
    let OpenFault::System(error) = fault else {
        return false;
    };
    matches!(
        error.kind(),
        io::ErrorKind::StorageFull | io::ErrorKind::QuotaExceeded
    )
}

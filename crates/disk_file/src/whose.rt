//! Whose journal a file is.
ghost use Rattle.std.specs.Prelude.{◌≤◌, length};

use std::alloc::{AllocError, Global};
use std::fs::File;
use std::io;
use std::os::unix::fs::FileExt;

/// As many bytes of a file are looked at: the first line of a journal has fewer.
const LOOKED_AT: usize = 2_048;

/// How many bytes stand in front of the first of these.
fn len_before(bytes: &[u8], end: u8) -> usize
    ensures { result ≤ length bytes.now }
{
    bytes.iter().take_while(|byte| **byte != end).count()
}

/// The first line of a journal, without its end: that of a header or of a snapshot. What is no
/// journal has none.
fn first_line(bytes: &[u8]) -> Option<&[u8]> {
    let len = len_before(bytes, b'\n');
    if len == bytes.len() {
        return None;
    }
    let line = &bytes[..len];
    match line {
        [b'{' | b'[', ..] if line.iter().all(|byte| *byte >= b' ') => Some(line),
        _ => None,
    }
}

/// What stands behind the last of these in a line.
fn behind_last(line: &[u8], start: u8) -> &[u8] {
    let len = line.iter().rev().take_while(|byte| **byte != start).count();
    line.get(line.len().saturating_sub(len)..).unwrap_or(b"")
}

/// The home that these bytes of a journal say: the members of the object in their first line that
/// has no other object in it.
fn home_in(bytes: &[u8]) -> Option<&[u8]> {
    let behind = behind_last(first_line(bytes)?, b'{');
    Some(&behind[..len_before(behind, b'}')])
}

/// Whose journal a file is: the home that it says. What is no journal says none.
#[derive(Drop)]
pub(crate) struct Owner {
    home: Option<Vec<u8>>,
}

impl Owner {
    /// Who has no journal.
    pub(crate) fn nobody() -> Owner {
        Owner { home: None }
    }

    /// Whose journal has these bytes.
    pub(crate) fn by(alloc: Global, bytes: &[u8]) -> Result<Owner, AllocError> {
        let home = match home_in(bytes) {
            Some(home) => Some(home.to_vec(alloc)?),
            None => None,
        };
        Ok(Owner { home })
    }

    /// Whose journal a file is.
    pub(crate) fn of(alloc: Global, file: &File) -> io::Result<Result<Owner, AllocError>> {
        let mut room = [0u8; LOOKED_AT];
        let len = file.read_at(&mut room, 0)?;
        Ok(Owner::by(alloc, &room[..len]))
    }

    /// Whether a file is the journal of another home. That takes no memory.
    pub(crate) fn differs_from(&self, file: &File) -> io::Result<bool> {
        let mut room = [0u8; LOOKED_AT];
        let len = file.read_at(&mut room, 0)?;
        let Some(theirs) = home_in(&room[..len]) else {
            return Ok(false);
        };
        Ok(match &self.home {
            Some(own) => theirs != own.as_slice(),
            None => true,
        })
    }
}

//! What stands behind the text of a journal is set aside, before it is cut away or replaced.
ghost use Rattle.std.specs.Prelude.{◌≡◌, ◌≤◌, ◌<◌, length, IfErr};
ghost use Rattle.kept_file.specs.Crashes.{LeavesThis};
ghost use Rattle.m2m_io.specs.Counts.{CountsFault};
ghost use Rattle.journal_opening.specs.Opening.{IsOfMachine, StaysAsItWas};
ghost use Rattle.journal_opening.specs.declared.fault.OpeningFault.TheVariants.{Failed as failed};

use crate::fault::OpeningFault;
use crate::playing::line_number;
use journal_lines::{first_deed, line_len};
use kept_file::KeptFile;
use m2m_value::Scratch;
use std::alloc::{AllocError as OutOfMemory, Global};

/// These bytes with an open gate in front, whatever stands there.
fn with_open_gate(alloc: Global, rest: &[u8]) -> Result<Vec<u8>, OutOfMemory> {
    let mut bytes = Vec::new(alloc);
    bytes.push(b'@')?;
    if let [_, behind @ ..] = rest {
        bytes.extend_from_slice(behind)?;
    }
    Ok(bytes)
}

/// How many whole deeds stand in the bytes behind a text, whatever the gate in front of them is.
fn whole_deeds(alloc: Global, rest: &[u8]) -> Result<usize, OutOfMemory> {
    let bytes = with_open_gate(alloc, rest)?;
    let mut scratch = Scratch::new(alloc);
    let mut found: usize = 0;
    let mut at: usize = 0;
    'lines: while at < bytes.len() {
        if first_deed(alloc, &mut scratch, &bytes[at..])?.is_some() {
            found = found.saturating_add(1);
        }
        at = at.saturating_add(line_len(&bytes[at..]).saturating_add(1));
    }
    Ok(found)
}

/// What stands behind a text of so many bytes, in words.
fn what_is_cut(alloc: Global, bytes: &[u8], len: usize) -> Result<String, OutOfMemory>
    requires { len < length bytes.now }
{
    let cut = bytes.len() - len;
    let line = line_number(bytes, len);
    let deeds = whole_deeds(alloc, &bytes[len..])?;
    format!(in alloc;
        "{cut} bytes from line {line} on are no part of the journal (whole deeds among them: {deeds})"
    )
}

/// Has what stands in a file behind a text of so many bytes be set aside. A gate alone isn't.
pub fn set_aside<F: KeptFile>(
    alloc: Global,
    file: &mut F,
    bytes: &[u8],
    len: usize,
) -> Result<(), OpeningFault>
    requires within { len ≤ length bytes.now }
    requires kept { F.tells → LeavesThis (F.seen file.old) (F.may_leave file.old) }
    ensures stays { F.tells
        → StaysAsItWas F.seen F.may_leave F.moment F.left_since file.old file.new }
    ensures fault { IfErr result IsOfMachine }
    ensures faults { CountsFault failed result (F.faults file.old) (F.faults file.new) }
{
    if bytes.len() - len < 2 {
        return Ok(());
    }
    let what = what_is_cut(alloc, bytes, len)?;
    match file.set_aside(&bytes[len..], what.as_str()) {
        Ok(()) => Ok(()),
        Err(_) => Err(OpeningFault::Failed),
    }
}

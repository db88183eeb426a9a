//! What a journal's file has in it that is new, or that was replaced.
ghost use Rattle.std.specs.Prelude.{◌≡◌, IfOk, IsErrOf, OnOk, ◌++◌};
ghost use Rattle.entity_model.specs.Entity.{cut};
ghost use Rattle.entity_model.specs.Opening.{opening};
ghost use Rattle.journal_file.specs.Gates.{at_rest};
ghost use Rattle.journal_lines.specs.Header.{header_of};
ghost use Rattle.entity_snapshot.specs.Snapshots.{HasSnapshot};
ghost use Rattle.journal_opening.specs.Snapshots.{IsSnapshot};

use entity_model::{Entity, event_moment};
use entity_snapshot::{LineFault, snapshot_text};
use journal_lines::push_header;
use std::alloc::{AllocError as OutOfMemory, Global};
use tree_model::{Home, Tree};

/// The bytes of a new journal's file, at rest: the header of a home whose entity opens at a reading
/// of the clock, in seconds since 1970, and no deed.
pub fn first_text(alloc: Global, home: &Home, reading: u64) -> Result<Vec<u8>, OutOfMemory>
    ensures text { IfOk result (λ text. text.items ≡ at_rest (header_of home.now (cut reading))) }
    ensures opens { opening home.now (cut reading) ≡ opening home.now reading }
{
    let mut text = Vec::new(alloc);
    push_header(alloc, &mut text, home, event_moment(0, reading))?;
    text.push(b'\n')?;
    Ok(text)
}

/// The bytes of a file at rest whose journal is the snapshot of an entity. An entity of which
/// something wouldn't be read back as it is has none.
pub fn snapshot_bytes<T: Tree>(alloc: Global, entity: &Entity<T>) -> Result<Vec<u8>, LineFault>
    ensures snapshot { IfOk result (λ bytes. IsSnapshot entity.now bytes.items) }
    ensures unkept { IsErrOf result LineFault.Unkept → ¬ HasSnapshot entity.now }
{
    let mut text = snapshot_text(alloc, entity)?;
    text.extend_from_slice(b"\n")?;
    Ok(text)
}

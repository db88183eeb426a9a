//! The calls on a file of which each ends with a sync.
ghost use Rattle.std.specs.Prelude.{◌≡◌, ◌≤◌, ◌<◌, ◌+◌, ◌^◌, ◌++◌, length, take, true, false};
ghost use Rattle.std.specs.Prelude.{IfOk, OnOk};
ghost use Rattle.kept_file.specs.Crashes.{LeavesOnly, LeavesThis, Overwrites, Replaces, TornCut};
ghost use Rattle.kept_file.specs.Crashes.{TornWrite};
ghost use Rattle.journal_file.specs.Gates.{Begins, at_rest};
ghost use Rattle.m2m_io.specs.Counts.{CountsFaults};

use kept_file::{Failed, KeptFile, NamedFile};

/// Cuts a file to a length.
pub(crate) fn cut_synced<F: KeptFile>(file: &mut F, len: usize) -> Result<(), Failed>
    requires within { F.tells → len ≤ length (F.seen file.old) }
    requires kept { F.tells → LeavesThis (F.seen file.old) (F.may_leave file.old) }
    ensures cut { F.tells → OnOk result (F.seen file.new ≡ take len (F.seen file.old)) }
    ensures kept { F.tells → OnOk result (LeavesThis (F.seen file.new) (F.may_leave file.new)) }
    ensures any_moment { F.tells → LeavesOnly F.moment F.left_since file.old file.new
        (TornCut len (F.seen file.old)) }
    ensures faults { CountsFaults result (F.faults file.old) (F.faults file.new) }
{
    file.cut(len)?;
    file.sync()
}

/// Writes these bytes over what stands at a place.
pub(crate) fn write_synced<F: KeptFile>(file: &mut F, at: usize, bytes: &[u8]) -> Result<(), Failed>
    requires within { F.tells → at ≤ length (F.seen file.old) }
    requires kept { F.tells → LeavesThis (F.seen file.old) (F.may_leave file.old) }
    ensures written { F.tells
        → OnOk result (Overwrites (F.seen file.old) at bytes.now (F.seen file.new)) }
    ensures kept { F.tells → OnOk result (LeavesThis (F.seen file.new) (F.may_leave file.new)) }
    ensures any_moment { F.tells → LeavesOnly F.moment F.left_since file.old file.new
        (TornWrite at (length bytes.now) (F.seen file.old)) }
    ensures faults { CountsFaults result (F.faults file.old) (F.faults file.new) }
{
    file.write_at(at, bytes)?;
    file.sync()
}

/// Writes these bytes and a closed gate at the end of a file.
pub(crate) fn write_behind<F: KeptFile>(
    file: &mut F,
    end: usize,
    bytes: &[u8],
) -> Result<(), Failed>
    requires room { end + length bytes.now < 2 ^ 64 }
    requires at_end { F.tells → end ≡ length (F.seen file.old) }
    requires kept { F.tells → LeavesThis (F.seen file.old) (F.may_leave file.old) }
    ensures written { F.tells
        → OnOk result (F.seen file.new ≡ F.seen file.old ++ at_rest bytes.now) }
    ensures kept { F.tells → OnOk result (LeavesThis (F.seen file.new) (F.may_leave file.new)) }
    ensures any_moment { F.tells → LeavesOnly F.moment F.left_since file.old file.new
        (Begins (F.seen file.old)) }
    ensures faults { CountsFaults result (F.faults file.old) (F.faults file.new) }
{
    file.write_at(end, bytes)?;
    file.write_at(end + bytes.len(), b"\n")?;
    file.sync()
}

/// Puts a file of these bytes in the place of another one, and tells whether it did: where the new
/// one can't be made, the other one stays.
pub(crate) fn replace_synced<F: NamedFile>(file: &mut F, bytes: &[u8]) -> Result<bool, Failed>
    requires kept { F.tells → LeavesThis (F.seen file.old) (F.may_leave file.old) }
    ensures replaced { F.tells
        → IfOk result (λ done. done ≡ true → F.seen file.new ≡ bytes.now) }
    ensures stays { F.tells
        → IfOk result (λ done. done ≡ false → F.seen file.new ≡ F.seen file.old) }
    ensures kept { F.tells → OnOk result (LeavesThis (F.seen file.new) (F.may_leave file.new)) }
    ensures any_moment { F.tells → LeavesOnly F.moment F.left_since file.old file.new
        (Replaces bytes.now (F.seen file.old)) }
    ensures faults { CountsFaults result (F.faults file.old) (F.faults file.new) }
{
    if !file.replace(bytes)? {
        return Ok(false);
    }
    file.sync()?;
    Ok(true)
}

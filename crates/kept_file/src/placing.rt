//! A file is put in the place of the one that has a name.
ghost use Rattle.std.specs.Prelude.{◌≡◌, ◌≤◌, [], IfOk, OnOk};
ghost use Rattle.kept_file.specs.Crashes.{LeavesOnly, LeavesThis, Replaces};

use crate::{Failed, KeptFile, KeptName};

/// Writes all of a file that has no byte yet.
fn fill<F: KeptFile>(file: &mut F, bytes: &[u8]) -> Result<(), Failed>
    requires { F.tells → F.seen file.old ≡ [] }
    ensures seen { F.tells → OnOk result (F.seen file.new ≡ bytes.now) }
    ensures durable { F.tells → OnOk result (LeavesThis bytes.now (F.may_leave file.new)) }
{
    file.write_at(0, bytes)?;
    file.sync()
}

/// Puts a file of these bytes in the place of the one that has a name, and gives it.
pub fn put_in_place<F: KeptFile + Drop, N: KeptName<F>>(
    name: &mut N,
    bytes: &[u8],
) -> Result<F, Failed>
    requires { N.tells → LeavesThis (N.seen name.old) (N.may_leave name.old) }

    // The file has these bytes, and the name; a crash leaves both.
    ensures file { N.tells → IfOk result (λ file. F.seen file ≡ bytes.now) }
    ensures durable { N.tells
        → IfOk result (λ file. LeavesThis bytes.now (F.may_leave file)) }
    ensures named { N.tells → OnOk result (LeavesThis bytes.now (N.may_leave name.new)) }

    // A crash at any moment leaves the old file under the name, or the new one with all its bytes.
    ensures any_moment { N.tells → LeavesOnly N.moment N.left_since name.old name.new
        (Replaces bytes.now (N.seen name.old)) }

    // The name's count of faults never falls, and stands still in a call that succeeds.
    ensures count { N.faults name.old ≤ N.faults name.new }
    ensures steady { OnOk result (N.faults name.new ≡ N.faults name.old) }
{
    let mut file = name.make()?;
    fill(&mut file, bytes)?;
    name.give(&file)?;
    name.sync()?;
    Ok(file)
}

//! The command `snapshot`: a journal is replaced by the snapshot of the CSE that it makes.
ghost use Rattle.std.specs.Prelude.{◌≡◌, Some};
ghost use Rattle.journaled_cli.specs.Snapshot.{Shortens, status_for};
ghost use Rattle.journal_opening.specs.Opening.{StaysAsItWas};
ghost use Rattle.kept_file.specs.Crashes.{LeavesThis};

use crate::command::{later_reason, refusal};
use journal_snapshot::{KeptName, ShorteningFault, shorten};
use kept_file::KeptFile;
use m2m_io::{Sink, Status};
use resource_tree::IndexTree;
use std::alloc::{AllocError as OutOfMemory, Global};
use tree_model::Home;

/// The status where a journal isn't replaced for this fault.
fn status_for(fault: ShorteningFault) -> Status
    ensures { result ≡ status_for (Some fault) }
{
    match fault {
        ShorteningFault::Refused(fault) => refusal(fault),
        ShorteningFault::Unkept | ShorteningFault::Failed => Status::WriteFault,
        ShorteningFault::OutOfMemory => Status::Memory,
    }
}

/// Why the journal of this name isn't replaced, as a line.
fn why_not(alloc: Global, name: &str, fault: ShorteningFault) -> Result<String, OutOfMemory> {
    match fault {
        ShorteningFault::Refused(fault) => later_reason(alloc, name, fault),
        ShorteningFault::Unkept => {
            format!(in alloc; "cannot replace {name}: something of the CSE can't be kept\n")
        }
        ShorteningFault::Failed => {
            format!(in alloc; "cannot replace {name}: the new file could not be put in its place\n")
        }
        ShorteningFault::OutOfMemory => {
            format!(in alloc; "cannot replace {name}: out of memory\n")
        }
    }
}

/// Says why the journal of this name isn't replaced, and gives the status of that.
fn say_why<E: Sink>(alloc: Global, err: &mut E, name: &str, fault: ShorteningFault) -> Status
    ensures { result ≡ status_for (Some fault) }
{
    if let Ok(why) = why_not(alloc, name, fault) {
        let _ = err.put(why.as_str().as_bytes());
    }
    status_for(fault)
}

/// Replaces the journal of a home in the file that has a name, and tells nobody how that ended.
fn shorten_named<F: KeptFile + Drop, N: KeptName<F>, E: Sink>(
    alloc: Global,
    home: Home,
    name: &str,
    place: &mut N,
    file: &mut F,
    seed: u64,
    err: &mut E,
) -> Status
    requires tells { N.tells → F.tells }
    requires kept { F.tells → LeavesThis (F.seen file.old) (F.may_leave file.old) }
    requires named { N.tells → LeavesThis (N.seen place.old) (N.may_leave place.old) }
    requires same { N.tells → N.seen place.old ≡ F.seen file.old }
    ensures shortens { Shortens N.tells N.seen N.may_leave N.moment N.left_since home
        place.old place.new result }
    ensures file { F.tells
        → StaysAsItWas F.seen F.may_leave F.moment F.left_since file.old file.new }
{
    let tree = IndexTree::seeded(alloc, seed);
    match shorten::<F, N, IndexTree>(alloc, place, file, home, tree) {
        Ok(()) => Status::Done,
        Err(fault) => say_why(alloc, err, name, fault),
    }
}

/// Runs the command `snapshot`: opens the CSE of a home at the journal in the file that has a name,
/// and puts a file with the snapshot of that CSE in its place, with the requests that it accepted.
/// The name is told where that isn't done. The CSE's tables hang on the seed.
pub fn run_snapshot<F: KeptFile + Drop, N: KeptName<F>, E: Sink>(
    alloc: Global,
    home: Home,
    name: &str,
    place: &mut N,
    file: &mut F,
    seed: u64,
    err: &mut E,
) -> Status
    requires tells { N.tells → F.tells }

    // What is read of the file is what stands on the disk, and it is the one that has the name.
    requires kept { F.tells → LeavesThis (F.seen file.old) (F.may_leave file.old) }
    requires named { N.tells → LeavesThis (N.seen place.old) (N.may_leave place.old) }
    requires same { N.tells → N.seen place.old ≡ F.seen file.old }

    // The journal is replaced by a snapshot of the CSE that it makes. A crash at any moment leaves
    // one that makes an equal CSE. What is refused stays as it was.
    ensures runs { Shortens N.tells N.seen N.may_leave N.moment N.left_since home
        place.old place.new result }

    // The file that was played has each byte that it had, at each moment.
    ensures file { F.tells
        → StaysAsItWas F.seen F.may_leave F.moment F.left_since file.old file.new }
{
    let status = shorten_named::<F, N, E>(alloc, home, name, place, file, seed, err);
    let _ = status.put_line(err);
    status
}

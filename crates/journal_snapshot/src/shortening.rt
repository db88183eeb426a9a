//! A file with the snapshot of a CSE is put in the place of one that has a name.
ghost use Rattle.std.specs.Prelude.{◌≡◌, ◌≢◌, ℕ, [], List, IfErr, OnOk};
ghost use Rattle.kept_file.specs.Crashes.{LeavesOnly, LeavesThis, Replaces};
ghost use Rattle.entity_model.specs.Entity.{EntityData};
ghost use Rattle.journal_file.specs.Gates.{KeepsText};
ghost use Rattle.journal_lines.specs.declared.deed.Dated.{Dated};
ghost use Rattle.journal_opening.specs.Journals.{IsJournalOf, made_of};
ghost use Rattle.journal_opening.specs.Opening.{StaysAsItWas};
ghost use Rattle.journal_opening.specs.Snapshots.{KeepsMaking};
ghost use Rattle.journal_opening.specs.declared.fault.OpeningFault.TheVariants.{Failed as failed};
ghost use Rattle.later_opening.specs.Journals.{IsLaterJournalOf};
ghost use Rattle.later_opening.specs.Making.{later_of, made_of_acts};
ghost use Rattle.later_opening.specs.Snapshots.{KeepsMakingLater};
ghost use Rattle.later_opening.specs.declared.act.Act.{Act};
ghost use Rattle.journal_snapshot.specs.Shortening.{IsRefusedFor, IsUnput, LeavesLaterSnapshot};
ghost use Rattle.journal_snapshot.specs.Shortening.{LeavesSnapshot, SnapshotOr};
ghost use Rattle.m2m_io.specs.Counts.{CountsFault};

use crate::fault::ShorteningFault;
use accepted_requests::LaterRequests;
use entity_model::Entity;
use kept_file::{Failed, KeptFile, KeptName, put_in_place};
use later_opening::{LineFault, later_snapshot, play_later_file};
use std::alloc::Global;
use tree_model::{Home, Tree};

/// Puts a file of these bytes in the place of the one that has a name.
fn put_bytes<F: KeptFile + Drop, N: KeptName<F>>(
    name: &mut N,
    bytes: &[u8],
) -> Result<(), ShorteningFault>
    requires { N.tells → LeavesThis (N.seen name.old) (N.may_leave name.old) }
    ensures named { N.tells → OnOk result (LeavesThis bytes.now (N.may_leave name.new)) }
    ensures any_moment { N.tells → LeavesOnly N.moment N.left_since name.old name.new
        (Replaces bytes.now (N.seen name.old)) }
    ensures fault { IfErr result (λ fault. fault ≡ ShorteningFault.Failed) }
{
    let placed: Result<F, Failed> = put_in_place(name, bytes);
    match placed {
        Ok(_) => Ok(()),
        Err(Failed) => Err(ShorteningFault::Failed),
    }
}

/// Puts a file with the snapshot of a CSE, which is an entity with its accepted requests, in the
/// place of the one that has a name.
fn put_snapshot<F: KeptFile + Drop, N: KeptName<F>, T: Tree>(
    alloc: Global,
    name: &mut N,
    entity: &Entity<T>,
    requests: &LaterRequests,
) -> Result<(), ShorteningFault>
    requires { N.tells → LeavesThis (N.seen name.old) (N.may_leave name.old) }
    ensures leaves { N.tells → OnOk result
        (LeavesLaterSnapshot (later_of entity.now requests.now) (N.may_leave name.new)) }
    ensures any_moment { N.tells → LeavesOnly N.moment N.left_since name.old name.new
        (SnapshotOr (N.seen name.old) (later_of entity.now requests.now)) }
    ensures fault { IfErr result (IsUnput (later_of entity.now requests.now)) }
    ensures stays { IfErr result
        (λ fault. fault ≢ ShorteningFault.Failed → name.new ≡ name.old) }
{
    match later_snapshot(alloc, entity, requests) {
        Ok(bytes) => put_bytes::<F, N>(name, &bytes),
        Err(LineFault::Unkept) => Err(ShorteningFault::Unkept),
        Err(LineFault::OutOfMemory) => Err(ShorteningFault::OutOfMemory),
    }
}

/// Opens the CSE of a home at the journal in the file that has a name, in a tree that has no
/// resource yet, and puts a file in its place whose journal is the snapshot of that CSE. What a
/// crash may leave of the file is what is read of it, as behind a restart.
pub fn shorten<F: KeptFile + Drop, N: KeptName<F>, T: Tree>(
    alloc: Global,
    name: &mut N,
    file: &mut F,
    home: Home,
    tree: T,
) -> Result<(), ShorteningFault>
    requires tree { T.nodes tree ≡ [] }
    requires tells { N.tells → F.tells }
    requires kept { F.tells → LeavesThis (F.seen file.old) (F.may_leave file.old) }
    requires named { N.tells → LeavesThis (N.seen name.old) (N.may_leave name.old) }
    // The file is the one that has the name.
    requires same { N.tells → N.seen name.old ≡ F.seen file.old }

    // From then on a crash leaves the snapshot of the CSE that the journal made, with its accepted
    // requests.
    ensures leaves { N.tells → (base : EntityData) → (acts : List Act) → (text : List ℕ)
        → IsLaterJournalOf home base acts text → KeepsText text (N.seen name.old)
        → OnOk result (LeavesLaterSnapshot (made_of_acts acts base) (N.may_leave name.new)) }

    // Of a journal of deeds alone that is the snapshot of the entity that they made, with no word.
    ensures leaves_plain { N.tells → (base : EntityData) → (deeds : List Dated) → (text : List ℕ)
        → IsJournalOf home base deeds text → KeepsText text (N.seen name.old)
        → OnOk result (LeavesSnapshot (made_of deeds base) (N.may_leave name.new)) }

    // A crash at any moment leaves a journal under the name that makes an equal CSE.
    ensures any_moment { N.tells → (base : EntityData) → (acts : List Act) → (text : List ℕ)
        → IsLaterJournalOf home base acts text → KeepsText text (N.seen name.old)
        → LeavesOnly N.moment N.left_since name.old name.new
        (KeepsMakingLater home (made_of_acts acts base)) }

    // Where that was one of deeds alone, it leaves one of deeds alone.
    ensures any_moment_plain { N.tells → (base : EntityData) → (deeds : List Dated)
        → (text : List ℕ)
        → IsJournalOf home base deeds text → KeepsText text (N.seen name.old)
        → LeavesOnly N.moment N.left_since name.old name.new
        (KeepsMaking home (made_of deeds base)) }

    // What isn't replaced isn't for the reason that is told. Then nothing is put in its place,
    // unless a call on the name or on the new file failed.
    ensures refused { N.tells → IfErr result (IsRefusedFor home (N.seen name.old)) }
    ensures stays { IfErr result
        (λ fault. fault ≢ ShorteningFault.Failed → name.new ≡ name.old) }

    // The file that was played has each byte that it had, at each moment.
    ensures file { F.tells
        → StaysAsItWas F.seen F.may_leave F.moment F.left_since file.old file.new }
    ensures faults { CountsFault (ShorteningFault.Refused failed) result
        (F.faults file.old) (F.faults file.new) }
{
    match play_later_file(alloc, file, home, tree) {
        Ok(played) => put_snapshot::<F, N, T>(alloc, name, &played.entity, &played.requests),
        Err(fault) => Err(ShorteningFault::Refused(fault)),
    }
}

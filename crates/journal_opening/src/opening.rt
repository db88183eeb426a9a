//! A journal's file is opened.
ghost use Rattle.std.specs.Prelude.{◌≡◌, ◌≢◌, ℕ, [], List, length, take, Err, IfOk, IfErr, OnOk};
ghost use Rattle.std.specs.Prelude.{MatchResult};
ghost use Rattle.kept_file.specs.Crashes.{LeavesOnly, LeavesThis};
ghost use Rattle.m2m_io.specs.Counts.{CountsFault};
ghost use Rattle.entity_model.specs.Entity.{EntityData};
ghost use Rattle.journal_file.specs.Gates.{KeepsText, at_rest};
ghost use Rattle.journal_lines.specs.Header.{first_header};
ghost use Rattle.journal_lines.specs.declared.header.HeaderFault.TheVariants.{NoHeader as none};
ghost use Rattle.journal_lines.specs.declared.deed.Dated.{Dated};
ghost use Rattle.journal_opening.specs.Journals.{IsJournalOf, made_of};
ghost use Rattle.journal_opening.specs.Opening.{BeginsAs, HaltsBeginning, HasFront, IsOfMachine};
ghost use Rattle.journal_opening.specs.Opening.{IsRefused, OpensAs, StaysAsItWas, opening_fault};
ghost use Rattle.journal_opening.specs.Opening.{snapshot_fault};
ghost use Rattle.journal_opening.specs.declared.fault.OpeningFault.{OpeningFault};
ghost use Rattle.journal_opening.specs.declared.fault.OpeningFault.TheVariants.{Failed as failed};

use crate::aside::set_aside;
use crate::fault::OpeningFault;
use crate::playing::play_lines;
use entity_model::Entity;
use entity_snapshot::{SnapshotFault, open_snapshot};
use journal_file::close_behind;
use journal_lines::{HeaderFault, first_header};
use kept_file::{FileFault, KeptFile};
use m2m_value::Scratch;
use std::alloc::Global;
use tree_model::{Home, Tree};

/// The entity that a journal makes, how many bytes the text of the journal has, and how many of
/// them say with which entity it begins.
#[derive(Drop)]
pub struct Played<T: Tree> {
    pub entity: Entity<T>,
    pub len: usize,
    pub front: usize,
}

/// The fault of a header as that of an opening.
fn opening_fault(fault: HeaderFault) -> OpeningFault
    ensures { result ≡ opening_fault fault }
{
    match fault {
        HeaderFault::NoHeader => OpeningFault::NoHeader,
        HeaderFault::OtherFormat => OpeningFault::OtherFormat,
        HeaderFault::OtherHome => OpeningFault::OtherHome,
        HeaderFault::OutOfMemory => OpeningFault::OutOfMemory,
    }
}

/// The fault of a snapshot as that of an opening.
fn snapshot_fault(fault: SnapshotFault) -> OpeningFault
    ensures { result ≡ snapshot_fault fault }
{
    match fault {
        SnapshotFault::NoHeader => OpeningFault::NoHeader,
        SnapshotFault::OtherFormat => OpeningFault::OtherFormat,
        SnapshotFault::OtherHome => OpeningFault::OtherHome,
        SnapshotFault::BadLine(number) => OpeningFault::BadSnapshot(number),
        SnapshotFault::Unsound => OpeningFault::Unsound,
        SnapshotFault::OutOfMemory => OpeningFault::OutOfMemory,
    }
}

/// The entity whose snapshot stands at the front of the bytes, which begin with no header.
fn begin_at_snapshot<T: Tree>(
    alloc: Global,
    scratch: &mut Scratch,
    bytes: &[u8],
    home: Home,
    tree: T,
) -> Result<(Entity<T>, usize), OpeningFault>
    requires tree { T.nodes tree ≡ [] }
    requires header { first_header home bytes.now ≡ Err none }
    ensures begun { IfOk result (λ b. BeginsAs home bytes.now b.1 b.0) }
    ensures fault { IfErr result (HaltsBeginning home bytes.now) }
{
    match open_snapshot(alloc, scratch, bytes, home, tree) {
        Ok(opened) => Ok(opened),
        Err(fault) => Err(snapshot_fault(fault)),
    }
}

/// The entity with which a journal begins, in a tree that has no resource yet, and how many bytes
/// say so.
pub fn begin<T: Tree>(
    alloc: Global,
    scratch: &mut Scratch,
    bytes: &[u8],
    home: Home,
    tree: T,
) -> Result<(Entity<T>, usize), OpeningFault>
    requires { T.nodes tree ≡ [] }
    ensures begun { IfOk result (λ b. BeginsAs home bytes.now b.1 b.0) }
    ensures fault { IfErr result (HaltsBeginning home bytes.now) }
{
    match first_header(alloc, scratch, bytes, &home) {
        Ok((opened, len)) => {
            let entity = Entity::open(alloc, home, tree, opened)?;
            Ok((entity, len))
        }
        Err(HeaderFault::NoHeader) => begin_at_snapshot(alloc, scratch, bytes, home, tree),
        Err(fault) => Err(opening_fault(fault)),
    }
}

/// The entity that the journal in the bytes of a file makes.
fn play_bytes<T: Tree>(
    alloc: Global,
    bytes: &[u8],
    home: Home,
    tree: T,
) -> Result<Played<T>, OpeningFault>
    requires { T.nodes tree ≡ [] }
    ensures opens { IfOk result (λ p. OpensAs home bytes.now p.len p.entity) }
    ensures front { IfOk result (λ p. HasFront home bytes.now p.front) }
    ensures refused { IfErr result (IsRefused home bytes.now) }
    ensures other { result ≢ Err failed }
{
    let mut scratch = Scratch::new(alloc);
    let (mut entity, from) = begin(alloc, &mut scratch, bytes, home, tree)?;
    let len = play_lines(alloc, &mut scratch, &mut entity, bytes, from)?;
    Ok(Played {
        entity,
        len,
        front: from,
    })
}

/// The bytes of a file.
pub fn read_bytes<F: KeptFile>(alloc: Global, file: &mut F) -> Result<Vec<u8>, OpeningFault>
    requires { F.tells → LeavesThis (F.seen file.old) (F.may_leave file.old) }
    ensures bytes { F.tells → IfOk result (λ bytes. bytes.items ≡ F.seen file.old) }
    ensures stays { F.tells
        → StaysAsItWas F.seen F.may_leave F.moment F.left_since file.old file.new }
    ensures fault { IfErr result IsOfMachine }
    ensures faults { CountsFault failed result (F.faults file.old) (F.faults file.new) }
{
    match file.read(alloc) {
        Ok(bytes) => Ok(bytes),
        Err(FileFault::Failed) => Err(OpeningFault::Failed),
        Err(FileFault::OutOfMemory) => Err(OpeningFault::OutOfMemory),
    }
}

/// The entity of a home that the journal in a file makes, in a tree that has no resource yet. The
/// file stays as it was, and what stands behind the journal's text is set aside. What a crash may
/// leave of the file is what is read of it, as behind a restart.
pub fn play_file<F: KeptFile, T: Tree>(
    alloc: Global,
    file: &mut F,
    home: Home,
    tree: T,
) -> Result<Played<T>, OpeningFault>
    requires tree { T.nodes tree ≡ [] }
    requires kept { F.tells → LeavesThis (F.seen file.old) (F.may_leave file.old) }

    // What is opened is the entity that the file's journal makes; what is refused is refused by its
    // bytes.
    ensures opens { F.tells → IfOk result (λ p. OpensAs home (F.seen file.old) p.len p.entity) }
    ensures front { F.tells → IfOk result (λ p. HasFront home (F.seen file.old) p.front) }
    ensures refused { F.tells → IfErr result (IsRefused home (F.seen file.old)) }
    ensures stays { F.tells
        → StaysAsItWas F.seen F.may_leave F.moment F.left_since file.old file.new }
    ensures faults { CountsFault failed result (F.faults file.old) (F.faults file.new) }
{
    let bytes = read_bytes(alloc, file)?;
    let played = play_bytes(alloc, &bytes, home, tree)?;
    set_aside(alloc, file, &bytes, played.len)?;
    Ok(played)
}

/// Opens the entity of a home at the journal that a file keeps: does again what was done, in a tree
/// that has no resource yet. Then the file is made ready, at rest behind the journal's text. What a
/// crash may leave of the file is what is read of it, as behind a restart.
pub fn play_back<F: KeptFile, T: Tree>(
    alloc: Global,
    file: &mut F,
    home: Home,
    tree: T,
) -> Result<Played<T>, OpeningFault>
    requires tree { T.nodes tree ≡ [] }
    requires kept { F.tells → LeavesThis (F.seen file.old) (F.may_leave file.old) }

    // What is opened is the entity that the file's journal makes; what is refused is refused by its
    // bytes.
    ensures opens { F.tells → IfOk result (λ p. OpensAs home (F.seen file.old) p.len p.entity) }
    ensures front { F.tells → IfOk result (λ p. HasFront home (F.seen file.old) p.front) }
    ensures refused { F.tells → IfErr result (IsRefused home (F.seen file.old)) }

    // A file that keeps a journal of this home opens as the entity that its deeds make.
    ensures journal { F.tells → (base : EntityData) → (deeds : List Dated) → (text : List ℕ)
        → IsJournalOf home base deeds text → KeepsText text (F.seen file.old)
        → MatchResult result (λ p. (p.len ≡ length text) × (p.entity ≡ made_of deeds base))
        IsOfMachine }

    // Then it is at rest behind the text, and a crash leaves that.
    ensures ready { F.tells
        → IfOk result (λ p. F.seen file.new ≡ at_rest (take p.len (F.seen file.old))) }
    ensures kept { F.tells → OnOk result (LeavesThis (F.seen file.new) (F.may_leave file.new)) }

    // A file that is refused has each byte that it had, at each moment.
    ensures stays { F.tells → IfErr result (λ fault. fault ≢ failed
        → StaysAsItWas F.seen F.may_leave F.moment F.left_since file.old file.new) }

    // So has what is no journal of this home, though the file fails.
    ensures others { F.tells → (fault : OpeningFault) → (IsOfMachine fault → ⊥)
        → IsRefused home (F.seen file.old) fault
        → StaysAsItWas F.seen F.may_leave F.moment F.left_since file.old file.new }

    // A crash at any moment leaves the same journal.
    ensures any_moment { F.tells → (base : EntityData) → (deeds : List Dated) → (text : List ℕ)
        → IsJournalOf home base deeds text → KeepsText text (F.seen file.old)
        → LeavesOnly F.moment F.left_since file.old file.new (KeepsText text) }
    ensures faults { CountsFault failed result (F.faults file.old) (F.faults file.new) }
{
    let played = play_file(alloc, file, home, tree)?;
    close_behind(file, played.len)?;
    Ok(played)
}

//! The file of the journal of a CSE that answers later is opened.
ghost use Rattle.std.specs.Prelude.{◌≡◌, ◌≢◌, ℕ, [], List, length, take, Err, IfOk, IfErr, OnOk};
ghost use Rattle.std.specs.Prelude.{MatchResult};
ghost use Rattle.kept_file.specs.Crashes.{LeavesOnly, LeavesThis};
ghost use Rattle.m2m_io.specs.Counts.{CountsFault};
ghost use Rattle.entity_model.specs.Entity.{EntityData};
ghost use Rattle.journal_file.specs.Gates.{KeepsText, at_rest};
ghost use Rattle.journal_opening.specs.Opening.{HasFront, IsOfMachine, StaysAsItWas};
ghost use Rattle.journal_opening.specs.declared.fault.OpeningFault.{OpeningFault};
ghost use Rattle.journal_opening.specs.declared.fault.OpeningFault.TheVariants.{Failed as failed};
ghost use Rattle.later_opening.specs.Journals.{IsLaterJournalOf};
ghost use Rattle.later_opening.specs.Making.{made_of_acts};
ghost use Rattle.later_opening.specs.Opening.{IsRefusedLater, OpensLaterAs};
ghost use Rattle.later_opening.specs.declared.act.Act.{Act};
ghost use Rattle.later_opening.specs.Making.{later_of};

use crate::playing::play_acts;
use accepted_requests::LaterRequests;
use entity_model::Entity;
use journal_file::close_behind;
use journal_opening::{OpeningFault, begin, read_bytes, set_aside};
use kept_file::KeptFile;
use m2m_value::Scratch;
use std::alloc::Global;
use tree_model::{Home, Tree};

/// The entity and the accepted requests that a journal makes, how many bytes the text of the
/// journal has, and how many of them say with which entity it begins.
#[derive(Drop)]
pub struct PlayedLater<T: Tree> {
    pub entity: Entity<T>,
    pub requests: LaterRequests,
    pub len: usize,
    pub front: usize,
}

/// What the journal in the bytes of a file makes.
fn play_bytes<T: Tree>(
    alloc: Global,
    bytes: &[u8],
    home: Home,
    tree: T,
) -> Result<PlayedLater<T>, OpeningFault>
    requires { T.nodes tree ≡ [] }
    ensures opens { IfOk result
        (λ p. OpensLaterAs home bytes.now p.len (later_of p.entity p.requests)) }
    ensures front { IfOk result (λ p. HasFront home bytes.now p.front) }
    ensures refused { IfErr result (IsRefusedLater home bytes.now) }
    ensures other { result ≢ Err failed }
{
    let mut scratch = Scratch::new(alloc);
    let (mut entity, from) = begin(alloc, &mut scratch, bytes, home, tree)?;
    let mut requests = LaterRequests::new(alloc);
    let len = play_acts(alloc, &mut scratch, &mut entity, &mut requests, bytes, from)?;
    Ok(PlayedLater {
        entity,
        requests,
        len,
        front: from,
    })
}

/// The entity of a home and its accepted requests that the journal in a file makes, in a tree that
/// has no resource yet. The file stays as it is.
pub fn play_later_file<F: KeptFile, T: Tree>(
    alloc: Global,
    file: &mut F,
    home: Home,
    tree: T,
) -> Result<PlayedLater<T>, OpeningFault>
    requires tree { T.nodes tree ≡ [] }
    requires kept { F.tells → LeavesThis (F.seen file.old) (F.may_leave file.old) }

    // What is opened is what the file's journal makes; what is refused is refused by its bytes.
    ensures opens { F.tells → IfOk result
        (λ p. OpensLaterAs home (F.seen file.old) p.len (later_of p.entity p.requests)) }
    ensures front { F.tells → IfOk result (λ p. HasFront home (F.seen file.old) p.front) }
    ensures refused { F.tells → IfErr result (IsRefusedLater home (F.seen file.old)) }
    ensures stays { F.tells
        → StaysAsItWas F.seen F.may_leave F.moment F.left_since file.old file.new }
    ensures faults { CountsFault failed result (F.faults file.old) (F.faults file.new) }
{
    let bytes = read_bytes(alloc, file)?;
    let played = play_bytes(alloc, &bytes, home, tree)?;
    set_aside(alloc, file, &bytes, played.len)?;
    Ok(played)
}

/// Opens the entity of a home and its accepted requests at the journal that a file keeps: does
/// again what was done, in a tree that has no resource yet. Then the file is made ready, at rest
/// behind the journal's text. What a crash may leave of the file is what is read of it, as behind a
/// restart.
pub fn play_later_back<F: KeptFile, T: Tree>(
    alloc: Global,
    file: &mut F,
    home: Home,
    tree: T,
) -> Result<PlayedLater<T>, OpeningFault>
    requires tree { T.nodes tree ≡ [] }
    requires kept { F.tells → LeavesThis (F.seen file.old) (F.may_leave file.old) }

    // What is opened is what the file's journal makes; what is refused is refused by its bytes.
    ensures opens { F.tells → IfOk result
        (λ p. OpensLaterAs home (F.seen file.old) p.len (later_of p.entity p.requests)) }
    ensures front { F.tells → IfOk result (λ p. HasFront home (F.seen file.old) p.front) }
    ensures refused { F.tells → IfErr result (IsRefusedLater home (F.seen file.old)) }

    // A file that keeps a journal of this home opens as what its acts make.
    ensures journal { F.tells → (base : EntityData) → (acts : List Act) → (text : List ℕ)
        → IsLaterJournalOf home base acts text → KeepsText text (F.seen file.old)
        → MatchResult result (λ p. (p.len ≡ length text)
        × (later_of p.entity p.requests ≡ made_of_acts acts base)) IsOfMachine }

    // Then it is at rest behind the text, and a crash leaves that.
    ensures ready { F.tells
        → IfOk result (λ p. F.seen file.new ≡ at_rest (take p.len (F.seen file.old))) }
    ensures kept { F.tells → OnOk result (LeavesThis (F.seen file.new) (F.may_leave file.new)) }

    // A file that is refused has each byte that it had, at each moment.
    ensures stays { F.tells → IfErr result (λ fault. fault ≢ failed
        → StaysAsItWas F.seen F.may_leave F.moment F.left_since file.old file.new) }

    // So has what is no journal of this home, though the file fails.
    ensures others { F.tells → (fault : OpeningFault) → (IsOfMachine fault → ⊥)
        → IsRefusedLater home (F.seen file.old) fault
        → StaysAsItWas F.seen F.may_leave F.moment F.left_since file.old file.new }

    // A crash at any moment leaves the same journal.
    ensures any_moment { F.tells → (base : EntityData) → (acts : List Act) → (text : List ℕ)
        → IsLaterJournalOf home base acts text → KeepsText text (F.seen file.old)
        → LeavesOnly F.moment F.left_since file.old file.new (KeepsText text) }
    ensures faults { CountsFault failed result (F.faults file.old) (F.faults file.new) }
{
    let played = play_later_file(alloc, file, home, tree)?;
    close_behind(file, played.len)?;
    Ok(played)
}

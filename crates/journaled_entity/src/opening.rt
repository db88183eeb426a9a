//! An entity that is kept is opened at its journal.
ghost use Rattle.std.specs.Prelude.{◌≡◌, ◌≢◌, ℕ, [], List, IfErr, IfOk, MatchResult};
ghost use Rattle.entity_model.specs.Entity.{EntityData};
ghost use Rattle.journal_file.specs.Gates.{KeepsText};
ghost use Rattle.journal_lines.specs.declared.deed.Dated.{Dated};
ghost use Rattle.journal_opening.specs.Journals.{IsJournalOf, made_of};
ghost use Rattle.journal_opening.specs.Opening.{IsOfMachine, IsRefused, StaysAsItWas};
ghost use Rattle.journal_opening.specs.declared.fault.OpeningFault.{OpeningFault};
ghost use Rattle.journal_opening.specs.declared.fault.OpeningFault.TheVariants.{Failed};
ghost use Rattle.kept_file.specs.Crashes.{LeavesOnly, LeavesThis};
ghost use Rattle.journaled_entity.specs.Opened.{OpensAt};

use crate::Journaled;
use journal_file::Journal;
use journal_opening::{OpeningFault, play_back};
use kept_file::KeptFile;
use kept_object::KeptObject;
use std::alloc::Global;
use tree_model::{Home, Tree};

/// A file at which no entity was opened, and why.
#[derive(Drop)]
pub struct Unopened<F> {
    pub fault: OpeningFault,
    pub file: F,
}

/// Opens the entity of a home at the journal that a file keeps, in a tree that has no resource yet,
/// as an object that is kept in that file. What a crash may leave of the file is what is read of
/// it, as behind a restart. A file that is refused is given back.
pub fn open_kept<F: KeptFile + Drop, T: Tree>(
    alloc: Global,
    home: Home,
    tree: T,
    mut file: F,
) -> Result<KeptObject<Journaled<T>, F>, Unopened<F>>
    requires tree { T.nodes tree ≡ [] }
    requires kept { F.tells → LeavesThis (F.seen file) (F.may_leave file) }
    ensures opens { IfOk result (OpensAt F.tells F.seen F.may_leave home file) }
    ensures refused { F.tells → IfErr result (λ u. IsRefused home (F.seen file) u.fault) }

    // A file that keeps a journal of this home opens as the entity that its deeds make.
    ensures journal { F.tells → (base : EntityData) → (deeds : List Dated) → (text : List ℕ)
        → IsJournalOf home base deeds text → KeepsText text (F.seen file)
        → MatchResult result (λ opened. opened.object ≡ made_of deeds base)
        (λ u. IsOfMachine u.fault) }

    // A file that is refused has each byte that it had, at each moment.
    ensures stays { F.tells → IfErr result (λ u. u.fault ≢ Failed
        → StaysAsItWas F.seen F.may_leave F.moment F.left_since file u.file) }

    // So has what is no journal of this home, though the file fails.
    ensures others { F.tells → (fault : OpeningFault) → (IsOfMachine fault → ⊥)
        → IsRefused home (F.seen file) fault → MatchResult result
        (λ opened. StaysAsItWas F.seen F.may_leave F.moment F.left_since file opened.journal.file)
        (λ u. StaysAsItWas F.seen F.may_leave F.moment F.left_since file u.file) }

    // A crash at any moment of that leaves the same journal.
    ensures any_moment { F.tells → (base : EntityData) → (deeds : List Dated) → (text : List ℕ)
        → IsJournalOf home base deeds text → KeepsText text (F.seen file)
        → MatchResult result
        (λ opened. LeavesOnly F.moment F.left_since file opened.journal.file (KeepsText text))
        (λ u. LeavesOnly F.moment F.left_since file u.file (KeepsText text)) }
{
    match play_back(alloc, &mut file, home, tree) {
        Ok(played) => {
            let journal = Journal::new(file, played.len);
            let entity = Journaled::new(alloc, played.entity);
            let object = KeptObject::new(alloc, entity, journal, played.front);
            Ok(object)
        }
        Err(fault) => Err(Unopened { fault, file }),
    }
}

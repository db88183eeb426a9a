//! A CSE that answers later is opened at its journal.
ghost use Rattle.std.specs.Prelude.{◌≡◌, ◌≢◌, ℕ, [], List, IfErr, IfOk, MatchResult};
ghost use Rattle.entity_model.specs.Entity.{EntityData};
ghost use Rattle.journal_file.specs.Gates.{KeepsText};
ghost use Rattle.journal_opening.specs.Opening.{IsOfMachine, StaysAsItWas};
ghost use Rattle.journal_opening.specs.declared.fault.OpeningFault.{OpeningFault};
ghost use Rattle.journal_opening.specs.declared.fault.OpeningFault.TheVariants.{Failed};
ghost use Rattle.kept_file.specs.Crashes.{LeavesOnly, LeavesThis};
ghost use Rattle.later_opening.specs.Journals.{IsLaterJournalOf};
ghost use Rattle.later_opening.specs.Making.{made_of_acts};
ghost use Rattle.later_opening.specs.Opening.{IsRefusedLater};
ghost use Rattle.later_opening.specs.declared.act.Act.{Act};
ghost use Rattle.journaled_later.specs.Opened.{OpensLaterAt};

use crate::recorder::JournaledLater;
use journal_file::Journal;
use journal_opening::OpeningFault;
use journaled_entity::Unopened;
use kept_file::KeptFile;
use kept_object::KeptObject;
use later_opening::play_later_back;
use std::alloc::Global;
use tree_model::{Home, Tree};

/// Opens the CSE of a home at the journal that a file keeps, in a tree that has no resource yet, as
/// an object that is kept in that file. What a crash may leave of the file is what is read of it,
/// as behind a restart. A file that is refused is given back.
pub fn open_later<F: KeptFile + Drop, T: Tree>(
    alloc: Global,
    home: Home,
    tree: T,
    mut file: F,
) -> Result<KeptObject<JournaledLater<T>, F>, Unopened<F>>
    requires tree { T.nodes tree ≡ [] }
    requires kept { F.tells → LeavesThis (F.seen file) (F.may_leave file) }
    ensures opens { IfOk result (OpensLaterAt F.tells F.seen F.may_leave home file) }
    ensures refused { F.tells → IfErr result (λ u. IsRefusedLater home (F.seen file) u.fault) }

    // A file that keeps a journal of this home opens as what its acts make.
    ensures journal { F.tells → (base : EntityData) → (acts : List Act) → (text : List ℕ)
        → IsLaterJournalOf home base acts text → KeepsText text (F.seen file)
        → MatchResult result (λ opened. opened.object ≡ made_of_acts acts base)
        (λ u. IsOfMachine u.fault) }

    // A file that is refused has each byte that it had, at each moment.
    ensures stays { F.tells → IfErr result (λ u. u.fault ≢ Failed
        → StaysAsItWas F.seen F.may_leave F.moment F.left_since file u.file) }

    // So has what is no journal of this home, though the file fails.
    ensures others { F.tells → (fault : OpeningFault) → (IsOfMachine fault → ⊥)
        → IsRefusedLater home (F.seen file) fault → MatchResult result
        (λ opened. StaysAsItWas F.seen F.may_leave F.moment F.left_since file opened.journal.file)
        (λ u. StaysAsItWas F.seen F.may_leave F.moment F.left_since file u.file) }

    // A crash at any moment of that leaves the same journal.
    ensures any_moment { F.tells → (base : EntityData) → (acts : List Act) → (text : List ℕ)
        → IsLaterJournalOf home base acts text → KeepsText text (F.seen file)
        → MatchResult result
        (λ opened. LeavesOnly F.moment F.left_since file opened.journal.file (KeepsText text))
        (λ u. LeavesOnly F.moment F.left_since file u.file (KeepsText text)) }
{
    match play_later_back(alloc, &mut file, home, tree) {
        Ok(played) => {
            let journal = Journal::new(file, played.len);
            let cse = JournaledLater::new(alloc, played.entity, played.requests);
            let object = KeptObject::new(alloc, cse, journal, played.front);
            Ok(object)
        }
        Err(fault) => Err(Unopened { fault, file }),
    }
}

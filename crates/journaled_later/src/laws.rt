//! The laws of a CSE that answers later and is kept.
ghost use Rattle.journaled_later.specs.Crashes.{ReopensWhatWasAccepted};
ghost use Rattle.journaled_later.specs.Machine.{EachIsOneOfLater, TurnsAreHistories};

use kept_file::KeptFile;

/// Each event is one of a CSE that answers later.
pub fn each_event_is_one_of_later()
    ensures { EachIsOneOfLater }
{}

/// What turns made is what a history of a CSE that answers later leaves.
pub fn turns_are_histories<F: KeptFile>()
    ensures { TurnsAreHistories F.tells F.seen F.may_leave F.moment F.left_since }
{}

/// After a crash at any moment the file opens as a CSE that the first of the turns made, with its
/// accepted requests. Each event is among these turns to which its outcome might be answered before
/// the crash: so is each acceptance that was answered.
pub fn what_was_accepted_is_opened_again<F: KeptFile>()
    ensures { ReopensWhatWasAccepted F.tells F.seen F.may_leave F.moment F.left_since }
{}

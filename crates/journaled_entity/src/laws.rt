//! The laws of an entity that is kept.
ghost use Rattle.journaled_entity.specs.Changes.{WhatMayNotChangeIsAnExpiry};
ghost use Rattle.journaled_entity.specs.Crashes.{ReopensWhatWasAnswered};
ghost use Rattle.journaled_entity.specs.Losses.{NoItemIsLost};

use kept_file::KeptFile;

/// An event leaves the entity that the expiry at its reading leaves, or the one before it, unless
/// what came of it says that it may have changed more.
pub fn what_may_not_change_is_an_expiry()
    ensures { WhatMayNotChangeIsAnExpiry }
{}

/// After a crash at any moment the file opens as an entity that the first of the turns made. Each
/// event is among these to which its outcome might be answered before the crash. So is each turn
/// that was reported to be on the disk, and each before it.
pub fn what_was_answered_is_opened_again<F: KeptFile>()
    ensures { ReopensWhatWasAnswered F.tells F.seen F.may_leave F.moment F.left_since }
{}

/// Over the turns of an entity that is kept, no item of the outbox is lost that hasn't waited the
/// keeping time: while the journal hasn't failed, it stays there until it is said that it was sent,
/// or the machine gives it away.
pub fn no_item_is_lost<F: KeptFile>()
    ensures { NoItemIsLost F.tells F.seen F.may_leave F.moment F.left_since }
{}

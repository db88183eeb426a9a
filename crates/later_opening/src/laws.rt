//! The laws of the journals of CSEs that answer later.
ghost use Rattle.later_opening.specs.Laws.{JournalsAreLaterJournals, LaterJournalsGrow};
ghost use Rattle.later_opening.specs.Laws.{NumbersRise, WhatIsKeptIsOpenedLater};

/// The lines of one act more, which fits, make a journal of one act more. A journal without a word
/// is one of its deeds alone.
pub fn journals_grow()
    ensures more { LaterJournalsGrow }
    ensures plain { JournalsAreLaterJournals }
{}

/// In what a journal makes the numbers of accepted requests rise, and none is above the last that
/// was given.
pub fn numbers_rise()
    ensures { NumbersRise }
{}

/// A file that keeps such a journal opens as what its acts make, and as nothing else.
pub fn a_journal_opens_as_its_acts()
    ensures { WhatIsKeptIsOpenedLater }
{}

//! The laws of journals.
ghost use Rattle.journal_opening.specs.Laws.{DeedsMakeWhatTheirHistoryLeft, HeadersAreJournals};
ghost use Rattle.journal_opening.specs.Laws.{JournalsGrow, JournalsStayAtTheirHome};
ghost use Rattle.journal_opening.specs.Laws.{LinesAreBatches, SnapshotsAreJournals};
ghost use Rattle.journal_opening.specs.Laws.{WhatIsKeptIsOpened};

/// A header alone is a journal, and the lines of one deed more, which are a batch, make it one of
/// one deed more.
pub fn journals_grow()
    ensures first { HeadersAreJournals }
    ensures more { JournalsGrow }
    ensures batches { LinesAreBatches }
{}

/// The snapshot of an entity is a journal of no deed, which makes the entity.
pub fn a_snapshot_is_a_journal()
    ensures { SnapshotsAreJournals }
{}

/// What a journal of a home makes is an entity of that home.
pub fn a_journal_stays_at_its_home()
    ensures { JournalsStayAtTheirHome }
{}

/// The deeds of a history make the entity that it left.
pub fn deeds_make_an_entity()
    ensures { DeedsMakeWhatTheirHistoryLeft }
{}

/// A file that keeps a journal opens as what its deeds make, and as nothing else.
pub fn a_journal_opens_as_its_deeds()
    ensures { WhatIsKeptIsOpened }
{}

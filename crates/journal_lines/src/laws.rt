//! The laws of the lines.
ghost use Rattle.journal_lines.specs.Laws.{DeedsAreReadBack, HeadersAreReadBack, LinesHaveOneEnd};
ghost use Rattle.journal_lines.specs.Laws.{DatedAreReadAsSpelled, DatedAreSpelled};
ghost use Rattle.journal_lines.specs.Laws.{DeedsAreReadAsSpelled, DeedsAreSpelled};
ghost use Rattle.journal_lines.specs.Laws.{HeadersAreReadAsSpelled, HeadersAreSpelled};
ghost use Rattle.journal_lines.specs.Laws.{OtherHomesAreTold, UnmarkedAreNoDeeds};

/// No byte below 32 stands inside the lines of a deed.
pub fn lines_have_one_end()
    ensures { LinesHaveOneEnd }
{}

/// The lines of a deed that is read from its word are read as it, at its moment.
pub fn deeds_are_read_back()
    ensures { DeedsAreReadBack }
{}

/// The lines of a deed of a journal of the format 1 are read as no deed, and are told as such.
pub fn old_deeds_are_told()
    ensures { UnmarkedAreNoDeeds }
{}

/// The line of a header is read as it by who asks for its home, and who asks for another home is
/// told so.
pub fn headers_are_read_back()
    ensures back { HeadersAreReadBack }
    ensures other { OtherHomesAreTold }
{}

/// A text is read as a header, as a deed at a moment or as a deed of a journal exactly where it
/// spells one at its front, whoever wrote it; and what is written spells it.
pub fn what_is_read_is_spelled()
    ensures headers { HeadersAreReadAsSpelled }
    ensures dated { DatedAreReadAsSpelled }
    ensures deeds { DeedsAreReadAsSpelled }
    ensures header_lines { HeadersAreSpelled }
    ensures dated_lines { DatedAreSpelled }
    ensures deed_lines { DeedsAreSpelled }
{}

//! The laws of the words.
ghost use Rattle.later_lines.specs.Laws.{WordsAreNoDeeds, WordsAreReadAsSpelled};
ghost use Rattle.later_lines.specs.Laws.{WordsAreReadBack, WordsAreSpelled};

/// The lines of a word that is read back are read as it, whatever stands behind them.
pub fn words_are_read_back()
    ensures { WordsAreReadBack }
{}

/// A text is read as a word exactly where it spells one at its front, whoever wrote it; and what is
/// written spells it.
pub fn what_is_read_is_spelled()
    ensures words { WordsAreReadAsSpelled }
    ensures lines { WordsAreSpelled }
{}

/// The lines of a word are no deed of a journal.
pub fn words_are_no_deeds()
    ensures { WordsAreNoDeeds }
{}

//! Laws of the definition.
ghost use Rattle.http_frames.specs.Stream.{FramesAreUnique, NoFrameBeginsAnother};
ghost use Rattle.http_frames.specs.Text.{WrittenIsRead};
ghost use Rattle.http_frames.specs.Waiting.{WholeHeadsAreJudged, WholeLinesAreJudged};

/// A stream has one list of frames that stand at its front, and one rest behind them.
pub fn frames_are_unique()
    ensures { FramesAreUnique }
{}

/// The bytes of a frame tell where it ends, whatever follows.
pub fn no_frame_begins_another()
    ensures { NoFrameBeginsAnother }
{}

/// The text of a frame of the grammar and within the limits is read as that frame.
pub fn what_is_written_is_read()
    ensures { WrittenIsRead }
{}

/// Behind a whole head that no message may have nothing is waited for: one that is over the limits,
/// says two lengths, or announces too long a body.
pub fn whole_heads_are_judged()
    ensures { WholeHeadsAreJudged }
{}

/// Nor behind a whole chunk line that is over its limit, or announces more than the body may still
/// have.
pub fn whole_chunk_lines_are_judged()
    ensures { WholeLinesAreJudged }
{}

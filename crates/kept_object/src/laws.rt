//! The law of an object that is kept.
ghost use Rattle.kept_object.specs.Crashing.{LosesNoAnswer};

use crate::Recorder;
use kept_file::KeptFile;

/// After a crash at any moment the file keeps the text of an object that the first of the turns
/// made. Each turn is among these that was reported to be on the disk before the crash, and so is
/// each turn before it.
pub fn no_answer_is_lost<O: Recorder, F: KeptFile>()
    ensures { LosesNoAnswer O.step O.keeps F.tells F.seen F.may_leave F.moment F.left_since }
{}

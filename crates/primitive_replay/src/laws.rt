//! Laws of the definitions.
ghost use Rattle.primitive_replay.specs.Laws.{LinesAreHeardInOneWay};
ghost use Rattle.primitive_replay.specs.Laws.{NothingIsHeardBehindABadLine};

/// The lines of a stream, and which is the first bad one, are settled by its bytes.
pub fn a_stream_has_its_lines_in_one_way()
    ensures heard { LinesAreHeardInOneWay }
    ensures bad { NothingIsHeardBehindABadLine }
{}

//! The command `twin`.
ghost use Rattle.std.specs.Prelude.{◌≢◌};
ghost use Rattle.cse_server.specs.Outside.{EndsByFault, sink_told};
ghost use Rattle.twin_replay.specs.Twins.{Twins, told};

use m2m_io::{Sink, Source, Status};
use std::alloc::Global;
use tree_model::Home;
use twin_replay::twin;

/// Compares two entities with this home, which the lines of the input prepare, and asks both. No
/// reading of the clock is taken, as the lines say the readings, and nothing is exchanged.
pub(crate) fn compare_lines<S: Source, O: Sink>(
    alloc: Global,
    home: Home,
    input: &mut S,
    out: &mut O,
) -> Status
    ensures runs { Twins home
        (told (S.left input.old) (sink_told (O.written out.old) (O.puts out.old)))
        (told (S.left input.new) (sink_told (O.written out.new) (O.puts out.new))) result }
    ensures command { result ≢ Status.Usage }
    ensures reads { EndsByFault Status.ReadFault result (S.faults input.old) (S.faults input.new) }
    ensures writes { EndsByFault Status.WriteFault result (O.faults out.old) (O.faults out.new) }
{
    twin(alloc, home, input, out)
}

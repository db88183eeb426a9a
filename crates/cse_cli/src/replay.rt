//! The command `replay`.
ghost use Rattle.std.specs.Prelude.{◌≡◌, ◌≢◌};
ghost use Rattle.cse_server.specs.Outside.{EndsByFault, link_told, outside, sink_told};
ghost use Rattle.cse_cli.specs.Run.{RunsReplay};

use cse_server::Bench;
use m2m_io::{Clock, Link, Sink, Source, Status};
use primitive_replay::replay;
use std::alloc::Global;
use tree_model::Home;

/// Replays the lines of the input against an entity with this home. No reading of the clock is
/// taken, as the lines say the readings.
pub(crate) fn replay_lines<S: Source, O: Sink, C: Clock, L: Link>(
    alloc: Global,
    home: Home,
    input: &mut S,
    out: &mut O,
    bench: &mut Bench<C, L>,
) -> Status
    ensures runs { let old = outside (S.left input.old)
        (sink_told (O.written out.old) (O.puts out.old)) (C.readings bench.old.clock)
        (link_told (L.exchanges bench.old.link) (L.faults bench.old.link)) in
        let new = outside (S.left input.new)
        (sink_told (O.written out.new) (O.puts out.new)) (C.readings bench.new.clock)
        (link_told (L.exchanges bench.new.link) (L.faults bench.new.link)) in
        RunsReplay home old new result }
    ensures command { result ≢ Status.Usage }
    ensures reads { EndsByFault Status.ReadFault result (S.faults input.old) (S.faults input.new) }
    ensures writes { EndsByFault Status.WriteFault result (O.faults out.old) (O.faults out.new) }
    ensures clock { bench.new.clock ≡ bench.old.clock }
{
    replay(alloc, home, input, out, &mut bench.link)
}

//! The end of lines, behind which all that waits is put.
ghost use Rattle.std.specs.Prelude.{◌≡◌, ◌≢◌};
ghost use Rattle.cse_server.specs.Outside.{EndsByFault, sink_told};
ghost use Rattle.cse_server.specs.Together.{PutsLast};

use cse_server::put_waiting;
use m2m_io::{Sink, Status};

/// How it ends where it would end so, once all that waits is put. Where a put has failed, none is
/// tried again.
pub(crate) fn put_last<O: Sink>(waiting: &mut Vec<u8>, out: &mut O, ended: Status) -> Status
    ensures puts { PutsLast Status.WriteFault ended result waiting.old.items
        (sink_told (O.written out.old) (O.puts out.old))
        (sink_told (O.written out.new) (O.puts out.new)) }
    ensures writes { ended ≢ Status.WriteFault → EndsByFault Status.WriteFault result
        (O.faults out.old) (O.faults out.new) }
    ensures failed { ended ≡ Status.WriteFault → (result ≡ ended) × (out.new ≡ out.old) }
{
    match ended {
        Status::WriteFault => ended,
        _ => match put_waiting(waiting, out) {
            Ok(()) => ended,
            Err(_) => Status::WriteFault,
        },
    }
}

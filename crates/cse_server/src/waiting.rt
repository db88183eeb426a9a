//! Replies that wait to be put, while more requests stand to be answered.
ghost use Rattle.std.specs.Prelude.{◌≡◌, ◌≢◌, [], OnErr, OnOk};
ghost use Rattle.m2m_io.specs.Counts.{CountsFaults};
ghost use Rattle.cse_server.specs.Outside.{EndsByFault, PutsPart, sink_told};
ghost use Rattle.cse_server.specs.Together.{PutsAll, PutsLast, PutsMuch};

use crate::Ended;
use m2m_io::{Connection, Failed, Sink};

/// Where so many bytes wait, they are put.
const MUCH: usize = 16_384;

/// Puts all that waits, if anything does, by one call of the sink. Of the room that it took, little
/// is kept.
pub fn put_waiting<O: Sink>(waiting: &mut Vec<u8>, out: &mut O) -> Result<(), Failed>
    ensures ok { OnOk result (PutsAll waiting.old.items waiting.new.items
        (sink_told (O.written out.old) (O.puts out.old))
        (sink_told (O.written out.new) (O.puts out.new))) }
    ensures some { OnErr result (waiting.old.items ≢ []) }
    ensures err { OnErr result (PutsPart waiting.old.items
        (sink_told (O.written out.old) (O.puts out.old))
        (sink_told (O.written out.new) (O.puts out.new))) }
    ensures faults { CountsFaults result (O.faults out.old) (O.faults out.new) }

    // The side that is read, of a sink that is a source as well, stays as it is.
    ensures beside { O.kept_by_put out.new ≡ O.kept_by_put out.old }
{
    if !waiting.is_empty() {
        out.put(waiting)?;
        waiting.clear();
        waiting.shrink_to(MUCH);
    }
    Ok(())
}

/// Puts all that waits, where it is much.
pub fn put_if_much<O: Sink>(waiting: &mut Vec<u8>, out: &mut O) -> Result<(), Failed>
    ensures ok { OnOk result (PutsMuch waiting.old.items waiting.new.items
        (sink_told (O.written out.old) (O.puts out.old))
        (sink_told (O.written out.new) (O.puts out.new))) }
    ensures err { OnErr result (PutsPart waiting.old.items
        (sink_told (O.written out.old) (O.puts out.old))
        (sink_told (O.written out.new) (O.puts out.new))) }
    ensures faults { CountsFaults result (O.faults out.old) (O.faults out.new) }

    // The side that is read, of a sink that is a source as well, stays as it is.
    ensures beside { O.kept_by_put out.new ≡ O.kept_by_put out.old }
{
    if waiting.len() < MUCH {
        return Ok(());
    }
    put_waiting(waiting, out)
}

/// Puts all that waits on a connection, as `put_waiting` does. What is left to read stays as it is.
pub(crate) fn put_replies<X: Connection>(waiting: &mut Vec<u8>, conn: &mut X) -> Result<(), Failed>
    ensures ok { OnOk result (PutsAll waiting.old.items waiting.new.items
        (sink_told (X.written conn.old) (X.puts conn.old))
        (sink_told (X.written conn.new) (X.puts conn.new))) }
    ensures some { OnErr result (waiting.old.items ≢ []) }
    ensures err { OnErr result (PutsPart waiting.old.items
        (sink_told (X.written conn.old) (X.puts conn.old))
        (sink_told (X.written conn.new) (X.puts conn.new))) }
    ensures faults { CountsFaults result (X.Sink.faults conn.old) (X.Sink.faults conn.new) }
    ensures left { X.left conn.new ≡ X.left conn.old }
    ensures read_faults { X.Source.faults conn.new ≡ X.Source.faults conn.old }
    ensures holds { (X.kept_by_read conn.new).holds ≡ (X.kept_by_read conn.old).holds }
{
    put_waiting(waiting, conn)
}

/// Puts all that waits on a connection, where it is much. What is left to read stays as it is.
pub(crate) fn put_many_replies<X: Connection>(
    waiting: &mut Vec<u8>,
    conn: &mut X,
) -> Result<(), Failed>
    ensures ok { OnOk result (PutsMuch waiting.old.items waiting.new.items
        (sink_told (X.written conn.old) (X.puts conn.old))
        (sink_told (X.written conn.new) (X.puts conn.new))) }
    ensures err { OnErr result (PutsPart waiting.old.items
        (sink_told (X.written conn.old) (X.puts conn.old))
        (sink_told (X.written conn.new) (X.puts conn.new))) }
    ensures faults { CountsFaults result (X.Sink.faults conn.old) (X.Sink.faults conn.new) }
    ensures left { X.left conn.new ≡ X.left conn.old }
    ensures read_faults { X.Source.faults conn.new ≡ X.Source.faults conn.old }
    ensures holds { (X.kept_by_read conn.new).holds ≡ (X.kept_by_read conn.old).holds }
{
    put_if_much(waiting, conn)
}

/// How a connection ends where it would end so, once all that waits is put. Where a put has failed,
/// none is tried again.
pub(crate) fn put_last<X: Connection>(waiting: &mut Vec<u8>, conn: &mut X, ended: Ended) -> Ended
    ensures puts { PutsLast Ended.WriteFault ended result waiting.old.items
        (sink_told (X.written conn.old) (X.puts conn.old))
        (sink_told (X.written conn.new) (X.puts conn.new)) }
    ensures writes { ended ≢ Ended.WriteFault → EndsByFault Ended.WriteFault result
        (X.Sink.faults conn.old) (X.Sink.faults conn.new) }
    ensures failed { ended ≡ Ended.WriteFault → (result ≡ ended) × (conn.new ≡ conn.old) }
    ensures left { X.left conn.new ≡ X.left conn.old }
    ensures read_faults { X.Source.faults conn.new ≡ X.Source.faults conn.old }
    ensures holds { (X.kept_by_read conn.new).holds ≡ (X.kept_by_read conn.old).holds }
{
    match ended {
        Ended::WriteFault => ended,
        _ => match put_replies(waiting, conn) {
            Ok(()) => ended,
            Err(_) => Ended::WriteFault,
        },
    }
}

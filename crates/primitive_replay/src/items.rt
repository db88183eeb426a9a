//! The items that are left in the outbox, and their way to the sink.
ghost use Rattle.std.specs.Prelude.{◌≡◌, ◌≢◌, ◌++◌, [], OnOk, Some};
ghost use Rattle.cse_server.specs.Outside.{EndsByFault, sink_told};
ghost use Rattle.primitive_replay.specs.Script.{WritesScript, dest_words, note_line};
ghost use Rattle.primitive_replay.specs.Way.{WritesText};

use crate::answer::put_line;
use crate::request_text::push_request;
use m2m_io::{Sink, Status};
use m2m_names::Ty;
use m2m_value::Text;
use notify_outbox::Outbox;
use primitive_json::{Dest, Note};
use resource_model::id_text;
use std::alloc::{AllocError as OutOfMemory, Global};

/// Most items have at most so many bytes; for a longer one the room grows.
const ITEM_ROOM: usize = 512;

/// A word, and what stands behind it.
fn push_both(text: &mut Vec<u8>, word: &[u8], behind: &Text) -> Result<(), OutOfMemory>
    ensures { OnOk result (text.new.items ≡ text.old.items ++ (word.now ++ behind.now)) }
{
    text.extend_from_slice(word)?;
    text.extend_from_slice(behind.entries())
}

/// Where an item is to go.
fn push_dest(alloc: Global, text: &mut Vec<u8>, dest: &Dest) -> Result<(), OutOfMemory>
    ensures { OnOk result (text.new.items ≡ text.old.items ++ dest_words dest.now) }
{
    match dest {
        Dest::Direct(url) => push_both(text, b"direct ", url),
        Dest::Peer(url) => push_both(text, b"peer ", url),
        Dest::Channel(number) => {
            let id = id_text(alloc, Ty::PollingChannel, *number)?;
            push_both(text, b"channel ", &id)
        }
        Dest::Nowhere => text.extend_from_slice(b"nowhere"),
    }
}

/// The item as a line, in place of what stands in the text; the item is let go.
fn write_note_line(alloc: Global, text: &mut Vec<u8>, note: Note) -> Result<(), OutOfMemory>
    ensures { OnOk result (text.new.items ≡ note_line note) }
{
    let parts = note.into_parts();
    text.clear();
    text.reserve(ITEM_ROOM)?;
    push_dest(alloc, text, &parts.dest)?;
    text.push(b' ')?;
    push_request(alloc, text, parts.request)?;
    text.push(b'\n')?;
    Ok(())
}

/// Writes the item as a line, by one call of the sink. None where it was written. Where memory runs
/// out, it isn't begun. The line is made in room that is kept from item to item.
fn put_note<O: Sink>(alloc: Global, room: &mut Vec<u8>, out: &mut O, note: Note) -> Option<Status>
    ensures said { WritesText result (note_line note)
        (sink_told (O.written out.old) (O.puts out.old))
        (sink_told (O.written out.new) (O.puts out.new)) }
    ensures writes { EndsByFault (Some Status.WriteFault) result
        (O.faults out.old) (O.faults out.new) }
{
    let Ok(()) = write_note_line(alloc, room, note) else {
        return Some(Status::Memory);
    };
    put_line(out, room)
}

/// Takes the items out of the outbox, in order, and writes each as a line.
fn put_items<O: Sink>(alloc: Global, outbox: &mut Outbox, out: &mut O) -> Status
    ensures said { WritesScript result [] outbox.old.items
        (sink_told (O.written out.old) (O.puts out.old))
        (sink_told (O.written out.new) (O.puts out.new)) }
    ensures writes { EndsByFault Status.WriteFault result (O.faults out.old) (O.faults out.new) }
{
    let mut room = Vec::new(alloc);
    'items: while let Some(item) = outbox.take_item() {
        if let Some(status) = put_note(alloc, &mut room, out, item.note) {
            return status;
        }
    }
    Status::Done
}

/// What is done behind lines that ended so: where they were read to their end, the items that are
/// left in the outbox are written, a line each.
pub(crate) fn finish<O: Sink>(
    alloc: Global,
    outbox: &mut Outbox,
    out: &mut O,
    ended: Status,
) -> Status
    ensures done { ended ≡ Status.Done → WritesScript result [] outbox.old.items
        (sink_told (O.written out.old) (O.puts out.old))
        (sink_told (O.written out.new) (O.puts out.new)) }
    ensures writes { ended ≡ Status.Done
        → EndsByFault Status.WriteFault result (O.faults out.old) (O.faults out.new) }
    ensures still { ended ≢ Status.Done → (result ≡ ended) × (out.new ≡ out.old) }
{
    match ended {
        Status::Done => put_items(alloc, outbox, out),
        other => other,
    }
}

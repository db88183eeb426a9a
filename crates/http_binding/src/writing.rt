//! The bytes of a reply, and their way into a sink.
ghost use Rattle.std.specs.Prelude.{◌≡◌, ◌≢◌, ◌≤◌, ◌+◌, ◌-◌, ◌++◌, Err, IfOk, OnErr, OnOk, codes};
ghost use Rattle.std.specs.Prelude.{[], None, IfSome, drop, length};
ghost use Rattle.std.specs.Fmt.{decimal};
ghost use Rattle.std.specs.Io.KnownBytes.{Appends};
ghost use Rattle.m2m_io.specs.Counts.{CountsFault};
ghost use Rattle.m2m_io.specs.Told.{AppendsPrefix, Tells};
ghost use Rattle.std.specs.List.{flat_map};
ghost use Rattle.httparse.specs.Ascii.{crlf_bytes};
ghost use Rattle.m2m_names.specs.StatusCodes.{rsc_row};
ghost use Rattle.m2m_value.specs.Sound.{IsSound};
ghost use Rattle.http_frames.specs.declared.frame.Start.TheVariants.{Answer};
ghost use Rattle.http_frames.specs.Text.{line_text, phrase_of, start_text};
ghost use Rattle.http_binding.specs.Headers.{code_field, length_field};
ghost use Rattle.http_binding.specs.Replying.{body_of, content_lines, id_lines, close_lines};
ghost use Rattle.http_binding.specs.Replying.{reply_text, written_minor};
ghost use Rattle.http_binding.specs.Rooms.{head_room};

use crate::lines::CONTENT_ROOM;
use crate::{OutOfMemory, ReplyRoom};
use http_frames::{PutFault, phrase_of};
use itoa::Buffer;
use m2m_io::Sink;
use m2m_value::{Text, Val, write};
use primitive_json::{Reply, ReplyParts};
use std::alloc::Global;
use std::marker::Model;

/// So many bytes stand before a content until its head is made: room for most heads.
const HEAD_ROOM: usize = 384;

/// Appends a number in decimal digits.
fn append_number(out: &mut Vec<u8>, n: u64) -> Result<(), OutOfMemory>
    ensures { OnOk result (out.new.items ≡ out.old.items ++ decimal n) }
{
    out.extend_from_slice(Buffer::new().format(n).as_bytes())
}

/// Appends the status line of a reply.
fn append_status(out: &mut Vec<u8>, http: u16) -> Result<(), OutOfMemory>
    ensures { OnOk result (out.new.items ≡ out.old.items
        ++ (codes "HTTP/1.1 " ++ (decimal http ++ (codes " " ++ (phrase_of http ++ crlf_bytes))))) }
{
    out.extend_from_slice(b"HTTP/1.1 ")?;
    append_number(out, u64::from(http))?;
    out.extend_from_slice(b" ")?;
    out.extend_from_slice(phrase_of(http).as_bytes())?;
    out.extend_from_slice(b"\r\n")
}

/// Appends the line that tells the status code.
fn append_code(out: &mut Vec<u8>, code: u16) -> Result<(), OutOfMemory>
    ensures { OnOk result (out.new.items
        ≡ out.old.items ++ line_text (code_field, decimal code)) }
{
    out.extend_from_slice(b"X-M2M-RSC: ")?;
    append_number(out, u64::from(code))?;
    out.extend_from_slice(b"\r\n")
}

/// Appends the line that repeats the request's identifier, where there is one.
fn append_id(out: &mut Vec<u8>, id: &Option<Text>) -> Result<(), OutOfMemory>
    ensures { OnOk result (out.new.items ≡ out.old.items ++ flat_map line_text (id_lines id.now)) }
{
    if let Some(id) = id {
        out.extend_from_slice(b"X-M2M-RI: ")?;
        out.extend_from_slice(id.entries())?;
        out.extend_from_slice(b"\r\n")?;
    }
    Ok(())
}

/// Appends the line that tells the type of the content, where there is some.
fn append_type(out: &mut Vec<u8>, content: &Option<Val>) -> Result<(), OutOfMemory>
    ensures { OnOk result (out.new.items
        ≡ out.old.items ++ flat_map line_text (content_lines None content.now)) }
{
    if let Some(_) = content {
        out.extend_from_slice(b"Content-Type: application/json\r\n")?;
    }
    Ok(())
}

/// Appends the line that tells the length of the body.
fn append_length(out: &mut Vec<u8>, len: usize) -> Result<(), OutOfMemory>
    ensures { OnOk result (out.new.items
        ≡ out.old.items ++ line_text (length_field, decimal len)) }
{
    out.extend_from_slice(b"Content-Length: ")?;
    append_number(out, len as u64)?;
    out.extend_from_slice(b"\r\n")
}

/// Appends the line that says that the connection closes, where it does.
fn append_close(out: &mut Vec<u8>, close: bool) -> Result<(), OutOfMemory>
    ensures { OnOk result (out.new.items
        ≡ out.old.items ++ flat_map line_text (close_lines close)) }
{
    if close {
        out.extend_from_slice(b"Connection: close\r\n")?;
    }
    Ok(())
}

/// Appends the status line and the lines that speak of the primitive.
fn append_primitive(out: &mut Vec<u8>, reply: &ReplyParts) -> Result<(), OutOfMemory>
    ensures { OnOk result (out.new.items ≡ out.old.items
        ++ (start_text (Answer (rsc_row reply.now.rsc).http written_minor)
        ++ (line_text (code_field, decimal (rsc_row reply.now.rsc).number)
        ++ flat_map line_text (id_lines reply.now.rqi)))) }
{
    append_status(out, reply.rsc.http_status())?;
    append_code(out, reply.rsc.number())?;
    append_id(out, &reply.rqi)
}

/// Appends the lines that speak of the body.
fn append_framing(
    out: &mut Vec<u8>,
    content: &Option<Val>,
    len: usize,
    close: bool,
) -> Result<(), OutOfMemory>
    ensures { OnOk result (out.new.items ≡ out.old.items
        ++ (flat_map line_text (content_lines None content.now)
        ++ (line_text (length_field, decimal len) ++ flat_map line_text (close_lines close)))) }
{
    append_type(out, content)?;
    append_length(out, len)?;
    append_close(out, close)
}

/// A head with a reply's lines, for a body of so many bytes, in this buffer.
fn head_for(
    mut out: Vec<u8>,
    parts: &ReplyParts,
    len: usize,
    close: bool,
) -> Result<Vec<u8>, OutOfMemory>
    requires { len ≡ length (body_of parts.now.pc) }
    ensures { IfOk result (λ head. head.items ++ body_of parts.now.pc
        ≡ reply_text parts.now close) }
{
    out.clear();
    out.reserve(HEAD_ROOM)?;
    append_primitive(&mut out, parts)?;
    append_framing(&mut out, &parts.pc, len, close)?;
    out.extend_from_slice(b"\r\n")?;
    Ok(out)
}

/// Bytes in whose place a head may be written, in a buffer that is empty.
fn new_room_for_head(mut text: Vec<u8>) -> Result<Vec<u8>, OutOfMemory>
    requires { text.items ≡ [] }
    ensures { IfOk result (λ text. length text.items ≡ head_room) }
{
    text.reserve(HEAD_ROOM + CONTENT_ROOM)?;
    text.extend_from_slice(&[0; HEAD_ROOM])?;
    Ok(text)
}

/// Bytes in whose place a head may be written, in this buffer: those of the reply before it, where
/// they are enough.
fn room_for_head(mut text: Vec<u8>) -> Result<Vec<u8>, OutOfMemory>
    ensures { IfOk result (λ text. length text.items ≡ head_room) }
{
    if HEAD_ROOM <= text.len() {
        text.truncate(HEAD_ROOM);
        Ok(text)
    } else {
        text.clear();
        new_room_for_head(text)
    }
}

/// Appends the body, where there is some.
fn append_body(out: &mut Vec<u8>, content: &Option<Val>) -> Result<(), OutOfMemory>
    ensures ok { OnOk result (out.new.items ≡ out.old.items ++ body_of content.now) }
    ensures sound { OnOk result (IfSome content.now IsSound) }
{
    if let Some(value) = content {
        write(value, out)?;
    }
    Ok(())
}

/// The body, behind room for its head, in this buffer.
#[tactic(auto, using(crate::proofs::JoinLemmas::behind_room))]
fn body_behind_room(buffer: Vec<u8>, content: &Option<Val>) -> Result<Vec<u8>, OutOfMemory>
    ensures len { IfOk result
        (λ text. length text.items ≡ head_room + length (body_of content.now)) }
    ensures body { IfOk result (λ text. drop head_room text.items ≡ body_of content.now) }
    ensures sound { OnOk result (IfSome content.now IsSound) }
{
    let mut text = room_for_head(buffer)?;
    append_body(&mut text, content)?;
    Ok(text)
}

/// The bytes of a reply: those of a buffer from `start` on. The other buffer is done with.
#[derive(Debug, Drop)]
struct ReplyBytes {
    buffer: Vec<u8>,
    start: usize,
    spare: Vec<u8>,
}

impl Model for ReplyBytes {
    ghost use Rattle.std.specs.Prelude.{◌≤◌, List, ℕ, drop, length};

    ghost Value = { List ℕ };

    ghost view = { λ b. drop b.start b.buffer.items };

    ghost invariant = { λ b. b.start ≤ length b.buffer.items };
}

impl ReplyBytes {
    fn as_slice(&self) -> &[u8]
        ensures { result.now ≡ self.now }
    {
        &self.buffer[self.start..]
    }
}

/// Writes a head right before this place.
#[tactic(auto, using(crate::proofs::JoinLemmas::put_there))]
fn put_before(text: &mut [u8], place: usize, head: &[u8])
    requires room { length head.now ≤ place }
    requires within { place ≤ length text.old }
    ensures { drop (place - length head.now) text.new ≡ head.now ++ drop place text.old }
{
    let start = place - head.len();
    text[start..place].copy_from_slice(head);
}

/// The body that stands behind room for its head.
fn body_in(text: &[u8]) -> &[u8]
    requires { head_room ≤ length text.now }
    ensures { result.now ≡ drop head_room text.now }
{
    &text[HEAD_ROOM..]
}

/// A head and the body that stands behind room for one. The body is copied only where the head has
/// no room there.
fn put_together(mut head: Vec<u8>, mut text: Vec<u8>) -> Result<ReplyBytes, OutOfMemory>
    requires { head_room ≤ length text.items }
    ensures { IfOk result (λ bytes. bytes ≡ head.items ++ drop head_room text.items) }
{
    if head.len() <= HEAD_ROOM {
        put_before(&mut text, HEAD_ROOM, &head);
        Ok(ReplyBytes {
            start: HEAD_ROOM - head.len(),
            buffer: text,
            spare: head,
        })
    } else {
        head.extend_from_slice(body_in(&text))?;
        Ok(ReplyBytes {
            start: 0,
            buffer: head,
            spare: text,
        })
    }
}

/// The bytes of a reply. Its content is written once, and its head before it.
fn reply_bytes(
    alloc: Global,
    reply: &Reply,
    close: bool,
    room: &mut ReplyRoom,
) -> Result<ReplyBytes, OutOfMemory>
    ensures text { IfOk result (λ bytes. bytes ≡ reply_text reply.now close) }
    ensures sound { OnOk result (IfSome reply.now.pc IsSound) }
{
    let parts = reply.parts();
    let (buffer, spare) = room.take(alloc);
    let text = body_behind_room(buffer, &parts.pc)?;
    let head = head_for(spare, parts, text.len() - HEAD_ROOM, close)?;
    put_together(head, text)
}

/// Writes a reply by one call of the sink (TS-0009, 6.3 to 6.5). It says whether the connection
/// closes behind it. It is written in the room of those before it.
pub fn write_reply_text<K: Sink>(
    alloc: Global,
    reply: &Reply,
    close: bool,
    room: &mut ReplyRoom,
    sink: &mut K,
) -> Result<(), PutFault>
    ensures ok { OnOk result
        (Appends (K.written sink.old) (K.written sink.new) (reply_text reply.now close)) }

    // The content that was written is sound, as each value is that is kept.
    ensures sound { OnOk result (IfSome reply.now.pc IsSound) }

    // Where the sink failed, a prefix is written; where memory ran out, the reply isn't begun.
    ensures fault { result ≡ Err PutFault.WriteFault
        → AppendsPrefix (K.written sink.old) (K.written sink.new) (reply_text reply.now close) }
    ensures memory { result ≡ Err PutFault.OutOfMemory → sink.new ≡ sink.old }

    // Where memory didn't run out, the sink had one put.
    ensures puts { result ≢ Err PutFault.OutOfMemory
        → Tells (λ n. n + 1) (K.puts sink.old) (K.puts sink.new) }

    // WriteFault comes where the sink failed in this call, and only there.
    ensures faults { CountsFault PutFault.WriteFault result (K.faults sink.old)
        (K.faults sink.new) }

    // The side that is read, of a sink that is a source as well, stays as it is.
    ensures beside { K.kept_by_put sink.new ≡ K.kept_by_put sink.old }
{
    let bytes = reply_bytes(alloc, reply, close, room)?;
    let put = sink.put(bytes.as_slice());
    room.keep(alloc, bytes.buffer, bytes.spare);
    Ok(put?)
}

/// Appends the bytes of a reply (TS-0009, 6.3 to 6.5), or leaves the text as it was. It says
/// whether the connection closes behind it. It is written in the room of those before it.
pub fn push_reply_text(
    alloc: Global,
    reply: &Reply,
    close: bool,
    room: &mut ReplyRoom,
    text: &mut Vec<u8>,
) -> Result<(), OutOfMemory>
    ensures ok { OnOk result (text.new.items ≡ text.old.items ++ reply_text reply.now close) }

    // The content that was written is sound, as each value is that is kept.
    ensures sound { OnOk result (IfSome reply.now.pc IsSound) }
    ensures err { OnErr result (text.new.items ≡ text.old.items) }
{
    let written = reply_bytes(alloc, reply, close, room)?;
    let pushed = text.extend_from_slice(written.as_slice());
    room.keep(alloc, written.buffer, written.spare);
    Ok(pushed?)
}

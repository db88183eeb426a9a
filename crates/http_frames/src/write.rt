//! The text of a frame, and its way into a sink.
ghost use Rattle.std.specs.Prelude.{◌≡◌, ◌≢◌, ◌+◌, ◌<◌, ◌≤◌, ◌++◌, [], ◌∷◌, Err, IfOk, OnOk};
ghost use Rattle.std.specs.Prelude.{flat_map};
ghost use Rattle.std.specs.Io.KnownBytes.{Appends};
ghost use Rattle.m2m_io.specs.Counts.{CountsFault};
ghost use Rattle.m2m_io.specs.Told.{AppendsPrefix, Tells};
ghost use Rattle.http_frames.specs.Text.{version_text, status_digits, phrase_of, start_text};
ghost use Rattle.http_frames.specs.Text.{line_text, frame_text};

use crate::{Frame, Lines, PutFault, Start};
use http::StatusCode;
use m2m_io::Sink;
use std::alloc::{AllocError, Global};

/// Room for most heads.
const ROOM: usize = 512;

/// The reason phrase of a status, which is empty where it has none.
pub fn phrase_of(status: u16) -> &'static str
    ensures { result.now ≡ phrase_of status }
{
    match StatusCode::from_u16(status) {
        Ok(code) => code.canonical_reason().unwrap_or(""),
        Err(_) => "",
    }
}

/// The digit that a number below ten is written as.
fn digit(n: u16) -> u8
    requires { n < 10 }
    ensures { result ≡ 48 + n }
{
    b'0' + n as u8
}

fn append_version(out: &mut Vec<u8>, minor: u8) -> Result<(), AllocError>
    ensures { OnOk result (out.new.items ≡ out.old.items ++ version_text minor) }
{
    out.extend_from_slice(b"HTTP/1.")?;
    out.push(digit(u16::from(minor % 10)))?;
    Ok(())
}

fn append_request_line(
    out: &mut Vec<u8>,
    method: &[u8],
    target: &[u8],
    minor: u8,
) -> Result<(), AllocError>
    ensures { OnOk result (out.new.items ≡ out.old.items
        ++ (method.now ++ (32 ∷ target.now ++ (32 ∷ version_text minor ++ 13 ∷ 10 ∷ [])))) }
{
    out.extend_from_slice(method)?;
    out.push(b' ')?;
    out.extend_from_slice(target)?;
    out.push(b' ')?;
    append_version(out, minor)?;
    out.extend_from_slice(b"\r\n")
}

fn append_status(out: &mut Vec<u8>, status: u16) -> Result<(), AllocError>
    ensures { OnOk result (out.new.items ≡ out.old.items ++ status_digits status) }
{
    let digits = [
        digit(status / 100 % 10),
        digit(status / 10 % 10),
        digit(status % 10),
    ];
    out.extend_from_slice(&digits)
}

fn append_phrase(out: &mut Vec<u8>, status: u16) -> Result<(), AllocError>
    ensures { OnOk result (out.new.items ≡ out.old.items
        ++ (32 ∷ phrase_of status ++ 13 ∷ 10 ∷ [])) }
{
    out.push(b' ')?;
    out.extend_from_slice(phrase_of(status).as_bytes())?;
    out.extend_from_slice(b"\r\n")
}

fn append_status_line(out: &mut Vec<u8>, status: u16, minor: u8) -> Result<(), AllocError>
    ensures { OnOk result (out.new.items ≡ out.old.items
        ++ (version_text minor
        ++ (32 ∷ status_digits status ++ (32 ∷ phrase_of status ++ 13 ∷ 10 ∷ [])))) }
{
    append_version(out, minor)?;
    out.push(b' ')?;
    append_status(out, status)?;
    append_phrase(out, status)
}

fn append_start(out: &mut Vec<u8>, start: &Start) -> Result<(), AllocError>
    ensures { OnOk result (out.new.items ≡ out.old.items ++ start_text start.now) }
{
    match start {
        Start::Ask {
            method,
            target,
            minor,
        } => append_request_line(out, method.entries(), target.entries(), *minor),
        Start::Answer { status, minor } => append_status_line(out, *status, *minor),
    }
}

fn append_line(out: &mut Vec<u8>, name: &[u8], value: &[u8]) -> Result<(), AllocError>
    ensures { OnOk result (out.new.items ≡ out.old.items
        ++ (name.now ++ (58 ∷ 32 ∷ value.now ++ 13 ∷ 10 ∷ []))) }
{
    out.extend_from_slice(name)?;
    out.extend_from_slice(b": ")?;
    out.extend_from_slice(value)?;
    out.extend_from_slice(b"\r\n")
}

fn append_lines(out: &mut Vec<u8>, lines: &Lines) -> Result<(), AllocError>
    ensures { OnOk result (out.new.items ≡ out.old.items ++ flat_map line_text lines.now) }
{
    for (name, value) in lines.entries() {
        append_line(out, name.entries(), value.entries())?;
    }
    Ok(())
}

/// The text of a frame: its head with the lines as they are, and its body as it is. It adds no
/// line, so the lines have to say how long the body is.
pub fn frame_bytes(alloc: Global, frame: &Frame) -> Result<Vec<u8>, AllocError>
    ensures { IfOk result (λ text. text.items ≡ frame_text frame.now) }
{
    let body = frame.body.entries();
    let mut out = Vec::with_capacity(alloc, ROOM + body.len())?;
    append_start(&mut out, &frame.start)?;
    append_lines(&mut out, &frame.lines)?;
    out.extend_from_slice(b"\r\n")?;
    out.extend_from_slice(body)?;
    Ok(out)
}

/// Writes the text of a frame by one call of the sink.
pub fn write_frame<O: Sink>(alloc: Global, frame: &Frame, sink: &mut O) -> Result<(), PutFault>
    ensures ok { OnOk result
        (Appends (O.written sink.old) (O.written sink.new) (frame_text frame.now)) }

    // Where the sink failed, a prefix is written; after want of memory, nothing.
    ensures fault { result ≡ Err PutFault.WriteFault
        → AppendsPrefix (O.written sink.old) (O.written sink.new) (frame_text frame.now) }
    ensures memory { result ≡ Err PutFault.OutOfMemory → sink.new ≡ sink.old }

    // Where memory didn't run out, the sink had one put.
    ensures puts { result ≢ Err PutFault.OutOfMemory
        → Tells (λ n. n + 1) (O.puts sink.old) (O.puts sink.new) }

    // WriteFault comes where the sink failed in this call, and only there.
    ensures faults { CountsFault PutFault.WriteFault result (O.faults sink.old)
        (O.faults sink.new) }

    // The side that is read, of a sink that is a source as well, stays as it is.
    ensures beside { O.kept_by_put sink.new ≡ O.kept_by_put sink.old }
{
    let text = frame_bytes(alloc, frame)?;
    sink.put(&text)?;
    Ok(())
}

//! What a line says of a message.
use crate::printing::printable;
use http_frames::{Found, Frame, Start};
use m2m_names::Op;
use primitive_json::{Reply, Request};
use std::alloc::{AllocError, Global};

/// Who a message says that it is from; a dash where it doesn't say it once.
pub(crate) fn originator_of(alloc: Global, frame: &Frame) -> Result<String, AllocError> {
    match frame.lines.find(b"X-M2M-Origin") {
        Found::One(value) => printable(alloc, value),
        Found::Absent | Found::Repeated => printable(alloc, b""),
    }
}

/// The method and the target of a message.
pub(crate) fn start_of(alloc: Global, frame: &Frame) -> Result<String, AllocError> {
    match &frame.start {
        Start::Ask { method, target, .. } => {
            let method = printable(alloc, method.entries())?;
            let target = printable(alloc, target.entries())?;
            let (method, target) = (method.as_str(), target.as_str());
            format!(in alloc; "{method} {target}")
        }
        Start::Answer { .. } => String::from_str(alloc, "- -"),
    }
}

/// The operation of a request, as a word.
pub(crate) fn operation_of(op: Op) -> &'static str {
    match op {
        Op::Create => "CREATE",
        Op::Retrieve => "RETRIEVE",
        Op::Update => "UPDATE",
        Op::Delete => "DELETE",
        Op::Notify => "NOTIFY",
    }
}

/// A line, and why behind it.
pub(crate) fn with_reason(
    alloc: Global,
    line: String,
    why: Option<String>,
) -> Result<String, AllocError> {
    match why {
        Some(why) => {
            let (line, why) = (line.as_str(), why.as_str());
            format!(in alloc; "{line} {why}")
        }
        None => Ok(line),
    }
}

/// What a line says of a request that was run later: the resource of the request stands for the
/// client.
pub(crate) fn line_of_run(
    alloc: Global,
    number: u64,
    request: &Request,
    reply: &Reply,
) -> Result<String, AllocError> {
    let parts = request.parts();
    let originator = match &parts.fr {
        Some(fr) => printable(alloc, fr.entries())?,
        None => printable(alloc, b"")?,
    };
    let target = printable(alloc, parts.to.entries())?;
    let (originator, target) = (originator.as_str(), target.as_str());
    let operation = operation_of(parts.op);
    let code = reply.parts().rsc.number();
    format!(in alloc; "req{number} {originator} {operation} {target} - {code}")
}

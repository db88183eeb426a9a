//! Why a request was refused, as a line of the log says it.
//!
//! The machine answers a refusal with a status code alone. What may be why is told by the message,
//! the status and the home, as the crate `refusal_reasons` has it.
use http_binding::to_request;
use http_frames::{Frame, is_same_name};
use http_target::BindFault;
use m2m_names::Rsc;
use m2m_value::{ValFault, read};
use primitive_json::{PrimFault, Request, request_from};
use refusal_reasons::{reason_of, reason_of_binding, reason_of_member, words_of_value};
use resource_model::Home;
use std::alloc::{AllocError, Global};
use std::str;

/// The least number of a status that refuses.
const LEAST_REFUSAL: u16 = 4_000;

/// The body of a message has at most so many bytes.
const BODY_LIMIT: u64 = 65_536;

/// The number that the digits in a text make.
fn number_in(text: &[u8]) -> u64 {
    let mut number = 0u64;
    for byte in text {
        if byte.is_ascii_digit() {
            number = number
                .saturating_mul(10)
                .saturating_add(byte.wrapping_sub(b'0') as u64);
        }
    }
    number
}

/// Whether a line of a head says that the body is longer than it may be.
fn is_too_long(line: &[u8]) -> bool {
    match line.iter().position(|byte| *byte == b':') {
        Some(colon) => {
            let (name, value) = line.split_at(colon);
            is_same_name(name, b"Content-Length") && number_in(value) > BODY_LIMIT
        }
        None => false,
    }
}

/// Whether a line ends a head.
fn is_blank(line: &[u8]) -> bool {
    line.is_empty() || line == b"\r".as_slice()
}

/// What the front of what was read is, where no message stands there.
pub(crate) fn why_none(heard: &[u8]) -> &'static str {
    for line in heard.split(|byte| *byte == b'\n') {
        if is_blank(line) {
            return "no message";
        }
        if is_too_long(line) {
            return "no message, its body is longer than 65,536 bytes";
        }
    }
    "no message"
}

/// Why a payload is no request.
#[derive(Drop)]
pub(crate) enum Unread {
    Value(ValFault),
    Member(PrimFault),
}

/// The request that a payload is, or why it is none.
pub(crate) fn payload_request(alloc: Global, payload: &[u8]) -> Result<Request, Unread> {
    match read(alloc, payload) {
        Ok(value) => request_from(alloc, value).map_err(Unread::Member),
        Err(fault) => Err(Unread::Value(fault)),
    }
}

/// A text that is told; none where nothing is.
fn told(alloc: Global, text: &[u8]) -> Result<Option<String>, AllocError> {
    match str::from_utf8(text) {
        Ok(text) if !text.is_empty() => Ok(Some(String::from_str(alloc, text)?)),
        _ => Ok(None),
    }
}

/// Why a message of HTTP is no request.
pub(crate) fn why_unbound(alloc: Global, fault: &BindFault) -> Result<Option<String>, AllocError> {
    told(alloc, &reason_of_binding(alloc, fault)?)
}

/// Why a payload is no request.
pub(crate) fn why_unread(alloc: Global, fault: &Unread) -> Result<String, AllocError> {
    let why = match fault {
        Unread::Value(fault) => told(alloc, words_of_value(*fault).as_bytes())?,
        Unread::Member(fault) => told(alloc, &reason_of_member(alloc, fault)?)?,
    };
    Ok(why.unwrap_or(String::new(alloc)))
}

/// Why the request in a message is refused with a status, where that is told.
pub(crate) fn why_refused(
    alloc: Global,
    home: &Home,
    frame: &Frame,
    code: Rsc,
) -> Result<Option<String>, AllocError> {
    if code.number() < LEAST_REFUSAL {
        return Ok(None);
    }
    match to_request(alloc, frame) {
        Ok(request) => why_refused_in(alloc, home, request, code),
        Err(_) => Ok(None),
    }
}

/// Why a request is refused with a status, where that is told.
pub(crate) fn why_refused_in(
    alloc: Global,
    home: &Home,
    request: Request,
    code: Rsc,
) -> Result<Option<String>, AllocError> {
    if code.number() < LEAST_REFUSAL {
        return Ok(None);
    }
    told(alloc, &reason_of(alloc, home, request, code)?)
}

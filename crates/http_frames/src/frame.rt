//! A message as its parts.
use crate::Lines;
use m2m_value::Text;

/// Which messages a stream has.
#[derive(Clone, Copy, Debug, PartialEq, Eq)]
pub enum Side {
    Request,
    Reply,
}

/// What a message begins with (RFC 9112, sections 3 and 4). `minor` is 0 in HTTP/1.0 and 1 in
/// HTTP/1.1.
#[derive(Debug, Drop)]
pub enum Start {
    /// A request.
    Ask {
        method: Text,
        target: Text,
        minor: u8,
    },
    /// A reply.
    Answer {
        status: u16,
        minor: u8,
    },
}

/// A message: what it begins with, its header lines in order, and its body.
#[derive(Debug, Drop)]
pub struct Frame {
    pub start: Start,
    pub lines: Lines,
    pub body: Text,
}

/// What stands next on a stream.
#[derive(Debug, Drop)]
pub enum Next {
    Message(Frame),
    /// The stream has ended, and nothing is left of it.
    End,
}

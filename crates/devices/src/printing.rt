//! Bytes of clients, as a log shows them.
use std::alloc::{AllocError as OutOfMemory, Global};

/// No more than so many bytes of a text are logged. A line of two of them has less than 4,096 bytes
/// then, though each of these is escaped by four: a pipe that takes any takes it at once.
pub(crate) const MOST_LOGGED: usize = 480;

/// What is logged of these bytes: their front.
pub(crate) fn front(bytes: &[u8], most: usize) -> &[u8] {
    bytes.split_at(bytes.len().min(most)).0
}

/// The front of these bytes as text on one line: what isn't printed, a blank and a backslash are
/// escaped. A dash stands for none.
pub fn printable(alloc: Global, bytes: &[u8]) -> Result<String, OutOfMemory> {
    let mut text = String::new(alloc);
    if bytes.is_empty() {
        text.push('-')?;
    }
    for byte in front(bytes, MOST_LOGGED) {
        if byte.is_ascii_graphic() && *byte != b'\\' {
            text.push(*byte as char)?;
        } else {
            let code = format!(in alloc; "\\x{:02x}", *byte)?;
            text.push_str(code.as_str())?;
        }
    }
    Ok(text)
}

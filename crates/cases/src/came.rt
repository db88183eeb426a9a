//! What came of a run.
use std::alloc::{AllocError, Global};

/// What came of a run.
#[derive(Drop)]
pub struct Came {
    /// The number of the status.
    pub status: u64,
    pub out: Vec<u8>,
    pub err: Vec<u8>,
    /// The exchanges of the link, as `push_exchange` writes them.
    pub asked: Vec<u8>,
    /// How many connections of the door got just what they must.
    pub served: u64,
    /// How many bytes of the input are left unread.
    pub left: u64,
}

/// Appends an exchange: the host and the length of the request in a line, and then the request.
pub fn push_exchange(
    alloc: Global,
    to: &mut Vec<u8>,
    host: &[u8],
    request: &[u8],
) -> Result<(), AllocError> {
    let length = format!(in alloc; " {}\n", request.len())?;
    to.extend_from_slice(host)?;
    to.extend_from_slice(length.as_bytes())?;
    to.extend_from_slice(request)?;
    Ok(())
}

//! What was done with requests that were accepted.
use accepted_requests::LaterEntry;
use primitive_json::Reply;

/// What was done with the requests that a CSE accepted, to be answered later.
#[derive(Drop)]
pub enum Word {
    /// This one was accepted.
    Accepted(LaterEntry),
    /// The one of this number was run, and got this reply.
    Ran(u64, Reply),
    /// The one of this number went: its originator deleted it.
    Gone(u64),
    /// Those went that were due at this moment, in seconds since 1970.
    Due(u64),
    /// This number was given last.
    Given(u64),
}

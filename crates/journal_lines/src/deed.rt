//! What was done, and when.
use primitive_json::Request;

/// What was done at a CSE.
#[derive(Drop)]
pub enum Deed {
    /// A request was answered.
    Ask(Request),
    /// The next item was taken from the outbox.
    Take,
    /// What was due went.
    Tick,
}

/// A deed and its moment, in seconds since 1970.
#[derive(Drop)]
pub struct Dated {
    pub moment: u64,
    pub deed: Deed,
}

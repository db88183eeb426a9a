//! The items of the outbox.
use primitive_json::Note;

/// What waits in the outbox.
#[derive(Drop)]
pub struct Item {
    /// Its number: items are numbered from 1 over the life of the entity.
    pub number: u64,
    /// The moment at which it was appended, in seconds since 1970.
    pub since: u64,
    pub note: Note,
}

//! What an address names.

/// What an address names: a resource by its number, or one of its virtual ones.
#[derive(Clone, Copy, Debug, PartialEq, Eq)]
pub enum Spot {
    Resource(u64),
    /// The fan-out point of a group, and the place in the address, from 0, at which the rest
    /// begins.
    Fan { group: u64, rest: u64 },
    /// The poll point of a polling channel.
    Poll(u64),
}

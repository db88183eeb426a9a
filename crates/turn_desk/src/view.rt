//! What a seat of a shared desk knows, and what lies in the desk's slot.

use super::Entry;
use std::collections::LinkedList;
use std::snapshot::Snapshot;

/// What a seat knows. No value of it is made.
pub struct View<X, E, O> {
    /// The object that the desk was made with; none for a seat that was joined into another.
    pub opening: Option<X>,
    /// All entries up to the last one that the seat was told of.
    pub seen: LinkedList<Entry<E, O>>,
    /// The places of the seat's own entries among these.
    pub own: LinkedList<u64>,
    /// The seat's part of the desk is `share` of `whole`.
    pub share: u64,
    pub whole: u64,
    /// The ticket that it drew.
    pub ticket: Option<u64>,
    /// Whether its ticket is the one that is served.
    pub turn: bool,
    /// What two seats had seen that were joined into this one, until it was told of both.
    pub left: LinkedList<Entry<E, O>>,
    pub right: LinkedList<Entry<E, O>>,
}

/// The slot of the desk: the object, unless it is taking a turn, and the last entry.
#[derive(Drop)]
pub(crate) struct Held<X, E, O> {
    pub(crate) object: Option<X>,
    pub(crate) entry: Option<Snapshot<Entry<E, O>>>,
}

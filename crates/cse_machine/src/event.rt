//! What a CSE is asked, and what comes of it.
use primitive_json::{Note, Reply, Request};
use retarget::Url;

/// What a CSE is asked at one moment.
#[derive(Drop)]
pub enum Event {
    /// A request of an originator.
    Ask(Request),
    /// The next item of the outbox is to be sent.
    Take,
    /// Time has passed.
    Tick,
}

/// What comes of an event.
#[derive(Drop)]
pub enum Outcome {
    /// The reply to a request.
    Done(Reply),
    /// The request goes on to the CSE at a URL, and the reply comes from there.
    Forward { poa: Url, request: Request },
    /// The item that was taken from the outbox; None where each waits for a polling channel.
    Item(Option<Note>),
    /// What was due is gone.
    Ticked,
    /// Memory ran out. So many members of a fan-out have taken effect, and nothing else; outside a
    /// fan-out that is 0.
    Starved { done: u32 },
}

/// What came of an event, and whether an item of the outbox was taken by it.
#[derive(Drop)]
pub struct ObservedStep {
    pub outcome: Outcome,
    pub took: bool,
}

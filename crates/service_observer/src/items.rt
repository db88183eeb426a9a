//! Items of the outbox that go nowhere.
use m2m_io::MemLink;
use primitive_json::Request;

/// What is told of items that it could not send.
pub trait ItemObserver {
    /// The request of an item was let go, as no host is known for its target.
    fn let_go(&self, request: &Request);
}

impl ItemObserver for MemLink {
    fn let_go(&self, _: &Request) {}
}

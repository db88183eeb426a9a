//! The own link of the CSE behind the link.
ghost use Rattle.std.specs.Prelude.{◌≡◌, [], IsTrue, Some};
ghost use Rattle.peer_link.specs.PeerTalk.{answers_none, are_unanswered};

use m2m_io::{Exchanges, Link, LinkFault};
use std::alloc::Global;

/// A link that reaches no CSE: each exchange fails. They are told until memory runs out in one of
/// them.
#[derive(Drop)]
pub(crate) struct Nowhere {
    pub(crate) told: Exchanges,
    pub(crate) faults: u64,
    pub ghost unanswered: { IsTrue (are_unanswered told) },
}

impl Nowhere {
    /// A link that was asked nothing yet.
    pub(crate) fn new(alloc: Global) -> Nowhere
        ensures told { result.told ≡ Some [] }
        ensures faults { result.faults ≡ 0 }
    {
        Nowhere {
            told: Exchanges::new(alloc),
            faults: 0,
        }
    }

    /// Whether its exchanges are told. Each of them failed.
    pub(crate) fn tells(&self) -> bool
        ensures { result ≡ answers_none self.now.told }
    {
        self.told.list().is_some()
    }
}

impl Link for Nowhere {
    ghost exchanges = { λ n. n.told };

    ghost faults = { λ n. n.faults };

    #[tactic(auto, using(crate::proofs::TellingLemmas::one_more_failed))]
    fn exchange(
        &mut self,
        alloc: Global,
        host: &[u8],
        request: &[u8],
        _: &mut Vec<u8>,
    ) -> Result<(), LinkFault> {
        if let Err(_) = self.told.tell_failure(alloc, host, request) {
            return Err(LinkFault::OutOfMemory);
        }
        self.faults = self.faults.saturating_add(1);
        Err(LinkFault::Failed)
    }
}

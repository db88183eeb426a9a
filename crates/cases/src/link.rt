//! The link of a case.
use crate::came::push_exchange;
use m2m_io::{Link, LinkFault, MemLink};
use primitive_json::Request;
use service_observer::ItemObserver;
use std::alloc::Global;

/// The link of a case, which gives its answers in order, and keeps what it was asked.
#[derive(Drop)]
pub struct CaseLink {
    answers: MemLink,
    asked: Vec<u8>,
}

impl CaseLink {
    /// A link with these answers, which was asked nothing yet.
    pub fn new(alloc: Global, answers: MemLink) -> CaseLink {
        CaseLink {
            answers,
            asked: Vec::new(alloc),
        }
    }

    /// The exchanges so far, as `push_exchange` writes them.
    pub fn asked(&self) -> &[u8] {
        &self.asked
    }
}

impl Link for CaseLink {
    ghost use Rattle.std.specs.Prelude.{None};

    ghost exchanges = { λ _. None };

    ghost faults = { λ l. l.answers.calls.faults };

    fn exchange(
        &mut self,
        alloc: Global,
        host: &[u8],
        request: &[u8],
        reply: &mut Vec<u8>,
    ) -> Result<(), LinkFault> {
        push_exchange(alloc, &mut self.asked, host, request)?;
        self.answers.exchange(alloc, host, request, reply)
    }
}

impl ItemObserver for CaseLink {
    fn let_go(&self, _: &Request) {}
}

//! What carries a request to a neighbour and brings its answer.
ghost use Rattle.std.specs.Prelude.{◌≡◌, ◌≤◌, ◌++◌, ◌∷◌, [], ℕ, List, Option, None, Some, false};
ghost use Rattle.std.specs.Prelude.{true, map, OnOk, OnErr, IfOk, IsErr, IsErrOf, IsNone};
ghost use Rattle.std.specs.Prelude.{if◌then◌else◌};
ghost use Rattle.std.specs.Option.{option_map};
ghost use Rattle.m2m_io.specs.declared.fault.LinkFault.TheVariants.{Failed as failed};
ghost use Rattle.m2m_io.specs.declared.fault.LinkFault.TheVariants.{OutOfMemory as starved};
ghost use Rattle.m2m_io.specs.Counts.{CountsFault, is_exact, no_calls};
ghost use Rattle.m2m_io.specs.Link.{Exchange, TellsExchange, TellsAnswer, TakesAnswer};
ghost use Rattle.m2m_io.specs.Link.{fails_next_exchange, told_after, calls_after};

use crate::LinkFault;
use crate::calls::Calls;
use crate::exchanges::{Exchanged, Exchanges};
use std::alloc::Global;
use std::collections::VecDeque;
use std::marker::Model;

/// What carries a request to a neighbour and brings its answer.
pub trait Link {
    /// The exchanges made so far, in order, where the link tells them.
    ghost exchanges: { Self → Option (List Exchange) };

    /// How often the link has failed: the count rises in the exchanges that fail, and in no other.
    /// It stops at 2^64 - 1.
    ghost faults: { Self → ℕ };

    /// Sends the bytes of a request to a host, which stands as in a URL, with its port or without,
    /// and appends the bytes of the answer to `reply`. After a fault `reply` is as it was.
    fn exchange(
        &mut self,
        alloc: Global,
        host: &[u8],
        request: &[u8],
        reply: &mut Vec<u8>,
    ) -> Result<(), LinkFault>
        ensures ok { OnOk result (TellsAnswer (exchanges self.old) (exchanges self.new)
            host.now request.now reply.old.items reply.new.items) }
        ensures err { OnErr result (reply.new.items ≡ reply.old.items) }
        ensures fails { IsErrOf result failed
            → TellsExchange (exchanges self.old) (exchanges self.new)
            (record { host = host.now; request = request.now; answer = None }) }
        ensures memory { IsErrOf result starved → IsNone (exchanges self.new) }
        ensures faults { CountsFault failed result (faults self.old) (faults self.new) };
}

/// A link in memory. It gives its answers in order, and tells its exchanges until memory runs out
/// in one of them or it has had 2^64 - 1 calls.
#[derive(Debug, Drop)]
pub struct MemLink {
    answers: VecDeque<Vec<u8>>,
    told: Exchanges,
    calls: Calls,
}

impl Model for MemLink {
    ghost use Rattle.std.specs.Prelude.{map};
    ghost use Rattle.m2m_io.specs.Link.{LinkData};

    ghost Value = { LinkData };

    ghost view = { λ s. record {
      answers = map (λ a. a.items) s.answers.items;
      told = s.told;
      calls = s.calls;
    } };
}

impl MemLink {
    /// A link that gives these answers, one at each exchange that isn't to fail. The exchanges
    /// whose numbers, from 1, are in `fails` fail, and so does each one when no answer is left.
    pub fn new(answers: Vec<Vec<u8>>, fails: Vec<u64>) -> Self
        ensures answers { result.answers ≡ map (λ a. a.items) answers.items }
        ensures told { result.told ≡ Some [] }
        ensures calls { result.calls ≡ no_calls fails.items }
    {
        let alloc = *answers.allocator();
        MemLink {
            answers: VecDeque::from_vec(answers),
            told: Exchanges::new(alloc),
            calls: Calls::new(fails),
        }
    }

    /// The exchanges made so far, in order, or `None` where they aren't told any more.
    pub fn exchanges(&self) -> Option<&[Exchanged]>
        ensures { option_map (λ t. t.now) result ≡ self.now.told }
    {
        self.told.list()
    }

    /// Stops telling where the calls can't be counted any more.
    fn hush(&mut self)
        ensures { self.new ≡ record self.old {
          told = if is_exact self.old.calls.made then self.old.told else None;
        } }
    {
        if self.calls.made() == u64::MAX {
            self.told.hush();
        }
    }

    /// An exchange that fails, or whose record finds no memory.
    fn fail(&mut self, alloc: Global, host: &[u8], request: &[u8]) -> Result<(), LinkFault>
        ensures never { IsErr result }
        ensures told { IsErrOf result failed → self.new.told ≡ told_after self.old
            (record { host = host.now; request = request.now; answer = None }) }
        ensures memory { IsErrOf result starved → IsNone self.new.told }
        ensures kept { self.new.answers ≡ self.old.answers }
        ensures calls { self.new.calls ≡ calls_after self.old.calls result }
        ensures faults { CountsFault failed result self.old.calls.faults self.new.calls.faults }
    {
        if let Err(_) = self.told.tell_failure(alloc, host, request) {
            self.calls.count();
            return Err(LinkFault::OutOfMemory);
        }
        self.calls.count_fault();
        self.hush();
        Err(LinkFault::Failed)
    }
}

impl Link for MemLink {
    ghost use Rattle.m2m_io.specs.Link.{LinkData};

    ghost exchanges = { λ s. s.told };

    ghost faults = { λ s. s.calls.faults };

    fn exchange(
        &mut self,
        alloc: Global,
        host: &[u8],
        request: &[u8],
        reply: &mut Vec<u8>,
    ) -> Result<(), LinkFault>
        ensures ok { OnOk result
            (TellsAnswer self.old.told self.new.told host.now request.now
            reply.old.items reply.new.items) }
        ensures err { OnErr result (reply.new.items ≡ reply.old.items) }
        ensures fails { IsErrOf result failed → TellsExchange self.old.told self.new.told
            (record { host = host.now; request = request.now; answer = None }) }
        ensures memory { IsErrOf result starved → IsNone self.new.told }
        ensures faults { CountsFault failed result self.old.calls.faults self.new.calls.faults }

        // An exchange that is answered takes the first answer; one that isn't takes none.
        ensures answered { OnOk result
            (TakesAnswer self.old self.new host.now request.now reply.old.items reply.new.items) }
        ensures ready { OnOk result (fails_next_exchange self.old ≡ false) }
        ensures due { IsErrOf result failed → fails_next_exchange self.old ≡ true }
        ensures told { IsErrOf result failed → self.new.told ≡ told_after self.old
            (record { host = host.now; request = request.now; answer = None }) }
        ensures kept { OnErr result (self.new.answers ≡ self.old.answers) }
        ensures calls { self.new.calls ≡ calls_after self.old.calls result }
    {
        if self.calls.is_next_to_fail() {
            return self.fail(alloc, host, request);
        }
        let Some(answer) = self.answers.front() else {
            return self.fail(alloc, host, request);
        };
        if let Err(_) = self.told.hand_over(alloc, host, request, answer, reply) {
            self.calls.count();
            return Err(LinkFault::OutOfMemory);
        }
        let _ = self.answers.pop_front();
        self.calls.count();
        self.hush();
        Ok(())
    }
}

//! The link itself.
ghost use Rattle.std.specs.Prelude.{◌≡◌, ◌↔◌, [], IfOk, IsErrOf, IsNone, None, OnErr, OnOk, Some};
ghost use Rattle.std.specs.Prelude.{true};
ghost use Rattle.m2m_io.specs.declared.fault.LinkFault.TheVariants.{Failed as failed};
ghost use Rattle.m2m_io.specs.declared.fault.LinkFault.TheVariants.{OutOfMemory as starved};
ghost use Rattle.m2m_io.specs.Counts.{CountsFault, fails_next, no_calls};
ghost use Rattle.m2m_io.specs.Link.{TellsAnswer, TellsExchange, calls_after};
ghost use Rattle.peer_link.specs.PeerTalk.{AnswersTalking, TalksAlone};

use crate::conn::MemPair;
use crate::nowhere::Nowhere;
use cse_server::{Ended, Served, serve_alone};
use desk_replies::Plainly;
use entity_model::Entity;
use m2m_io::{Calls, Clock, Exchanges, Link, LinkFault, MemSink};
use std::alloc::{AllocError as OutOfMemory, Global};
use tree_model::Tree;
use turn_desk::OwnSeat;

/// A link in memory to another CSE. Its exchanges are told until memory runs out in one of them.
#[derive(Drop)]
pub struct PeerLink<T: Tree, C: Clock> {
    /// The entity behind the link.
    pub seat: OwnSeat<Served<T>>,
    /// Its clock.
    pub clock: C,
    /// Counts the exchanges, and tells which of them fail.
    pub calls: Calls,
    /// The exchanges, in order.
    pub told: Exchanges,
}

/// What an entity writes to these bytes, which it serves as one connection. Nothing goes on from
/// it.
fn talk<T: Tree, C: Clock>(
    alloc: Global,
    seat: &mut OwnSeat<Served<T>>,
    clock: &mut C,
    bytes: &[u8],
) -> Result<MemSink, OutOfMemory>
    ensures { IfOk result (λ out. TalksAlone seat.old seat.new
        (C.readings clock.old) (C.readings clock.new) bytes.now out.written) }
{
    let mut conn = MemPair::new(alloc, Vec::from_slice(alloc, bytes)?);
    let mut nowhere = Nowhere::new(alloc);
    let ended = serve_alone(alloc, seat, &mut conn, clock, &mut nowhere, &Plainly);
    if !nowhere.tells() {
        return Err(OutOfMemory);
    }
    match ended {
        Ended::Closed | Ended::NoFrame => Ok(conn.out),
        Ended::ReadFault | Ended::WriteFault | Ended::Memory => Err(OutOfMemory),
    }
}

impl<T: Tree, C: Clock> PeerLink<T, C> {
    /// A link to this entity, which tells the time by this clock. The exchanges whose numbers, from
    /// 1, are in `fails` fail.
    pub fn new(alloc: Global, entity: Entity<T>, clock: C, fails: Vec<u64>) -> PeerLink<T, C>
        ensures entity { result.seat ≡ entity }
        ensures clock { result.clock ≡ clock }
        ensures calls { result.calls ≡ no_calls fails.items }
        ensures told { result.told ≡ Some [] }
    {
        PeerLink {
            seat: OwnSeat::new(Served::new(alloc, entity)),
            clock,
            calls: Calls::new(fails),
            told: Exchanges::new(alloc),
        }
    }
}

impl<T: Tree, C: Clock> Link for PeerLink<T, C> {
    ghost exchanges = { λ p. p.told };

    ghost faults = { λ p. p.calls.faults };

    fn exchange(
        &mut self,
        alloc: Global,
        host: &[u8],
        request: &[u8],
        reply: &mut Vec<u8>,
    ) -> Result<(), LinkFault>
        ensures ok { OnOk result (TellsAnswer self.old.told self.new.told host.now request.now
            reply.old.items reply.new.items) }
        ensures err { OnErr result (reply.new.items ≡ reply.old.items) }
        ensures fails { IsErrOf result failed → TellsExchange self.old.told self.new.told
            (record { host = host.now; request = request.now; answer = None }) }
        ensures memory { IsErrOf result starved → IsNone self.new.told }
        ensures faults { CountsFault failed result self.old.calls.faults self.new.calls.faults }

        // An exchange that isn't to fail is answered by the talk of the entity with the bytes, and
        // one that is leaves entity and clock as they are.
        ensures talks { OnOk result (AnswersTalking self.old.seat self.new.seat
            (C.readings self.old.clock) (C.readings self.new.clock) request.now
            reply.old.items reply.new.items) }
        ensures due { IsErrOf result failed ↔ fails_next self.old.calls ≡ true }
        ensures kept { IsErrOf result failed
            → (self.new.seat ≡ self.old.seat) × (self.new.clock ≡ self.old.clock) }

        // It counts as one exchange, whatever comes of it.
        ensures counted { self.new.calls ≡ calls_after self.old.calls result }
    {
        if let Err(_) = self.calls.next() {
            let _ = self.told.tell_failure(alloc, host, request);
            return Err(LinkFault::Failed);
        }
        let Ok(out) = talk(alloc, &mut self.seat, &mut self.clock, request) else {
            self.told.hush();
            return Err(LinkFault::OutOfMemory);
        };
        let answer = out.written();
        self.told.hand_over(alloc, host, request, answer, reply)?;
        Ok(())
    }
}

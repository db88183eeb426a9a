//! The reply that an outcome gives.
ghost use Rattle.std.specs.Prelude.{◌≡◌, IfOk, IfSome, IsUtf8, None};
ghost use Rattle.http_forwarding.specs.Carries.{link_told};
ghost use Rattle.primitive_json.specs.declared.request.RequestParts.{RequestParts};
ghost use Rattle.cse_machine.specs.Answer.{starved};
ghost use Rattle.desk_replies.specs.Replies.{RepliesOnward, RepliesOver, reply_of};

use cse_machine::Outcome;
use http_forwarding::carry;
use m2m_io::Link;
use m2m_names::Rsc;
use m2m_value::Text;
use primitive_json::{Reply, ReplyParts, Request, RequestParts};
use retarget::Url;
use std::alloc::{AllocError as OutOfMemory, Global};

/// A reply without content, with the identifier of the request where one is known.
pub fn bare_reply(rsc: Rsc, rqi: Option<Text>) -> Reply
    requires { IfSome rqi IsUtf8 }
    ensures { result ≡ record { rsc = rsc; rqi = rqi; pc = None } }
{
    Reply::of(ReplyParts { rsc, rqi, pc: None })
}

/// The reply to the request with this identifier where memory ran out in its event.
fn starved_reply(alloc: Global, id: &[u8]) -> Result<Reply, OutOfMemory>
    requires { IsUtf8 id.now }
    ensures { (request : RequestParts) → request.rqi ≡ id.now
        → IfOk result (λ r. r ≡ starved request) }
{
    let rqi = Text::from_slice(alloc, id)?;
    Ok(bare_reply(Rsc::Internal, Some(rqi)))
}

/// The reply to a request for which memory ran out as it was carried. Takes no memory.
fn uncarried_reply(request: Request) -> Reply
    ensures { result ≡ starved request }
{
    let RequestParts { rqi, .. } = request.into_parts();
    bare_reply(Rsc::Internal, Some(rqi))
}

/// The reply to a request that goes on to the CSE at a URL: the one that its exchange over the link
/// gives, or that memory ran out.
pub fn reply_onward<L: Link>(alloc: Global, link: &mut L, poa: &Url, request: Request) -> Reply
    ensures { RepliesOnward poa.now request (link_told (L.exchanges link.old) (L.faults link.old))
        (link_told (L.exchanges link.new) (L.faults link.new)) result }
{
    match carry(alloc, link, poa.entries(), &request) {
        Ok(reply) => reply,
        Err(_) => uncarried_reply(request),
    }
}

// The reply by an outcome that isn't one. It stands apart, so that the parts of a request that goes
// on aren't looked at where there is a reply.
#[inline(never)]
fn reply_elsewhere<L: Link>(
    alloc: Global,
    link: &mut L,
    id: &[u8],
    outcome: Outcome,
) -> Result<Reply, OutOfMemory>
    requires text { IsUtf8 id.now }
    requires other { reply_of outcome ≡ None }
    ensures { (request : RequestParts) → request.rqi ≡ id.now
        → RepliesOver request outcome (link_told (L.exchanges link.old) (L.faults link.old))
        (link_told (L.exchanges link.new) (L.faults link.new)) result }
{
    match outcome {
        Outcome::Forward { poa, request } => Ok(reply_onward(alloc, link, &poa, request)),
        _ => starved_reply(alloc, id),
    }
}

/// The reply to the request with this identifier by the outcome of its event. The link is for a
/// request that goes on to another CSE.
pub fn reply_over<L: Link>(
    alloc: Global,
    link: &mut L,
    id: &[u8],
    outcome: Outcome,
) -> Result<Reply, OutOfMemory>
    requires { IsUtf8 id.now }
    ensures { (request : RequestParts) → request.rqi ≡ id.now
        → RepliesOver request outcome (link_told (L.exchanges link.old) (L.faults link.old))
        (link_told (L.exchanges link.new) (L.faults link.new)) result }
{
    match outcome {
        Outcome::Done(reply) => Ok(reply),
        _ => reply_elsewhere(alloc, link, id, outcome),
    }
}

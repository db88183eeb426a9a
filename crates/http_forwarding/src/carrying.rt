//! A request that goes on to another CSE, and its reply.
ghost use Rattle.std.specs.Prelude.{◌≡◌, IfOk, IsUtf8, Some};
ghost use Rattle.primitive_json.specs.Notes.{IsSomeUrl};
ghost use Rattle.http_forwarding.specs.Answers as spec;
ghost use Rattle.http_forwarding.specs.Carries.{link_told};
ghost use Rattle.http_forwarding.specs.Sending.{CarriesRequest};

use crate::OutOfMemory;
use crate::answer::reply_said;
use crate::sending::send_request;
use http_client_binding::Aim;
use m2m_io::{Link, LinkFault};
use m2m_names::Rsc;
use m2m_value::Text;
use primitive_json::{Reply, ReplyParts, Request};
use std::alloc::Global;

/// The reply that the other CSE isn't reachable.
fn unreached(rqi: Text) -> Reply
    requires { IsUtf8 rqi }
    ensures { result ≡ spec.unreached rqi }
{
    Reply::of(ReplyParts {
        rsc: Rsc::NotReachable,
        rqi: Some(rqi),
        pc: None,
    })
}

/// A reply of another CSE, with the identifier of the request.
fn handed_on(said: Reply, rqi: Text) -> Reply
    requires { IsUtf8 rqi }
    ensures { result ≡ spec.handed_on rqi said }
{
    let ReplyParts { rsc, rqi: _, pc } = said.into_parts();
    Reply::of(ReplyParts {
        rsc,
        rqi: Some(rqi),
        pc,
    })
}

/// The reply to a request with this identifier, by the bytes that its exchange gave.
fn carried_by(alloc: Global, answer: Vec<u8>, rqi: Text) -> Result<Reply, OutOfMemory>
    requires { IsUtf8 rqi }
    ensures { IfOk result (λ reply. spec.CarriedBy answer.items rqi reply) }
{
    match reply_said(alloc, answer)? {
        Some(said) => Ok(handed_on(said, rqi)),
        None => Ok(unreached(rqi)),
    }
}

/// The identifier of a request, as a text of its own.
fn id_of(alloc: Global, request: &Request) -> Result<Text, OutOfMemory>
    ensures value { IfOk result (λ id. id ≡ request.now.rqi) }
    ensures utf8 { IfOk result IsUtf8 }
{
    request.parts().rqi.copy(alloc)
}

/// Sends a request to the CSE at a URL, by one exchange with its host, and gives the reply that the
/// caller gets.
pub fn carry<L: Link>(
    alloc: Global,
    link: &mut L,
    url: &[u8],
    request: &Request,
) -> Result<Reply, OutOfMemory>
    requires { IsSomeUrl url.now }
    ensures { CarriesRequest request.now url.now
        (link_told (L.exchanges link.old) (L.faults link.old))
        (link_told (L.exchanges link.new) (L.faults link.new)) result }
{
    let Ok(rqi) = id_of(alloc, request) else {
        return Err(OutOfMemory);
    };
    match send_request(alloc, link, url, request, Aim::Peer) {
        Ok(answer) => carried_by(alloc, answer, rqi),
        Err(LinkFault::Failed) => Ok(unreached(rqi)),
        Err(LinkFault::OutOfMemory) => Err(OutOfMemory),
    }
}

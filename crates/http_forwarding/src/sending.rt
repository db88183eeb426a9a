//! One request over a link.
ghost use Rattle.primitive_json.specs.Notes.{IsSomeUrl};
ghost use Rattle.http_forwarding.specs.Carries.{link_told};
ghost use Rattle.http_forwarding.specs.Sending.{CarriesOne, GivesAnswer};

use http_client_binding::{Aim, host_of, request_bytes};
use m2m_io::{Link, LinkFault};
use primitive_json::Request;
use std::alloc::Global;

/// Sends a request to the host of a URL, by one exchange, and gives the bytes of the answer.
pub(crate) fn send_request<L: Link>(
    alloc: Global,
    link: &mut L,
    url: &[u8],
    request: &Request,
    aim: Aim,
) -> Result<Vec<u8>, LinkFault>
    requires { IsSomeUrl url.now }
    ensures { CarriesOne request.now url.now aim
        (link_told (L.exchanges link.old) (L.faults link.old))
        (link_told (L.exchanges link.new) (L.faults link.new))
        (GivesAnswer (λ answer. answer.items) result) }
{
    let Ok(text) = request_bytes(alloc, request, url, aim) else {
        return Err(LinkFault::OutOfMemory);
    };
    let mut answer = Vec::new(alloc);
    match link.exchange(alloc, host_of(url), &text, &mut answer) {
        Ok(()) => Ok(answer),
        Err(fault) => Err(fault),
    }
}

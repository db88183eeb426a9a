//! Replies to requests.
ghost use Rattle.std.specs.Prelude.{◌≡◌, IfOk};
ghost use Rattle.entity_model.specs.Places as spec;

use m2m_names::Rsc;
use m2m_value::Val;
use primitive_json::{Reply, ReplyParts, Request};
use std::alloc::{AllocError as OutOfMemory, Global};

/// The reply to a request with this status and content, under the request's identifier.
pub fn reply_to(
    alloc: Global,
    request: &Request,
    rsc: Rsc,
    content: Option<Val>,
) -> Result<Reply, OutOfMemory>
    ensures { IfOk result (λ r. r ≡ spec.reply_to request.now rsc content) }
{
    let rqi = request.parts().rqi.copy(alloc)?;
    Ok(Reply::of(ReplyParts {
        rsc,
        rqi: Some(rqi),
        pc: content,
    }))
}

/// The reply of a refusal, which has no content.
pub fn refuse(alloc: Global, request: &Request, fault: Rsc) -> Result<Reply, OutOfMemory>
    ensures { IfOk result (λ r. r ≡ spec.refusal request.now fault) }
{
    reply_to(alloc, request, fault, None)
}

/// The result content that a request asks for: 1, the attributes, where it says none.
pub fn wanted_content(request: &Request) -> i64
    ensures { result ≡ spec.wanted_content request.now.rcn }
{
    request.parts().rcn.unwrap_or(1)
}

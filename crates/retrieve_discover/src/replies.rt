//! The replies to a Retrieve and to a discovery.
ghost use Rattle.std.specs.Prelude.{◌≡◌, IfOk};
ghost use Rattle.retrieve_discover.specs.Replies as spec;

use entity_model::reply_to;
use m2m_names::Rsc;
use m2m_value::Val;
use primitive_json::{Reply, Request};
use std::alloc::{AllocError as OutOfMemory, Global};

/// The reply with this content.
pub(crate) fn succeed(alloc: Global, request: &Request, content: Val) -> Result<Reply, OutOfMemory>
    ensures { IfOk result (λ r. r ≡ spec.success request.now content) }
{
    reply_to(alloc, request, Rsc::Ok, Some(content))
}

/// Whether addresses are wanted as resource ids.
pub(crate) fn is_by_id(request: &Request) -> bool
    ensures { result ≡ spec.is_by_id request.now }
{
    match request.parts().drt {
        Some(form) => form == 2,
        None => false,
    }
}

//! How this CSE's resources are named at others.
ghost use Rattle.std.specs.Prelude.{◌≡◌, IfOk, IsUtf8};
ghost use Rattle.subscription_match.specs.Notices as spec;

use m2m_value::Text;
use std::alloc::{AllocError as OutOfMemory, Global};
use tree_model::{Home, Resource, own_cse_id};

/// A resource as requests to others name it, such as the subscription of a notification: the
/// CSE-ID, `/`, and its resource id.
pub fn reference_of(alloc: Global, home: &Home, sub: &Resource) -> Result<Text, OutOfMemory>
    ensures value { IfOk result (λ t. t ≡ spec.reference_of home.now sub.now) }
    ensures utf8 { IfOk result (λ t. IsUtf8 t) }
{
    let own = own_cse_id(alloc, home)?;
    let id = sub.id(alloc)?;
    Text::from_parts(alloc, own.entries(), b"/", id.entries())
}

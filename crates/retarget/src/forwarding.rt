//! A request as it goes on.
ghost use Rattle.std.specs.Prelude.{◌≡◌, ◌++◌, IfOk, IsTrue, IsUtf8, codes};
ghost use Rattle.m2m_names.specs.Name.{is_originator};
ghost use Rattle.policy_eval.specs.Originators as spec;
ghost use Rattle.retarget.specs.Routes.{forwarded};

use crate::OutOfMemory;
use m2m_value::Text;
use primitive_json::{Request, RequestParts};
use std::alloc::Global;
use tree_model::Home;

/// The full form of an originator.
fn full_form(alloc: Global, home: &Home, originator: &[u8]) -> Result<Text, OutOfMemory>
    requires { IsTrue (is_originator originator.now) }
    ensures value { IfOk result (λ t. t ≡ spec.full_form home.now originator.now) }
    ensures utf8 { IfOk result (λ t. IsUtf8 t) }
{
    if originator.starts_with(b"/") {
        Text::from_slice(alloc, originator)
    } else {
        behind_own(alloc, home, originator)
    }
}

/// An originator behind own CSE-ID.
fn behind_own(alloc: Global, home: &Home, originator: &[u8]) -> Result<Text, OutOfMemory>
    requires { IsTrue (is_originator originator.now) }
    ensures value { IfOk result (λ t. t
        ≡ codes "/" ++ (spec.own_lead home.now ++ originator.now)) }
    ensures utf8 { IfOk result (λ t. IsUtf8 t) }
{
    let mut text = Vec::new(alloc);
    text.push(b'/')?;
    text.extend_from_slice(home.csi().entries())?;
    text.push(b'/')?;
    text.extend_from_slice(originator)?;
    Ok(Text::of(text))
}

/// The request of an originator as it goes on to another CSE: its originator in full form, and
/// nothing said of how the reply is wanted.
pub fn forwarded(
    alloc: Global,
    home: &Home,
    originator: &[u8],
    request: &Request,
) -> Result<Request, OutOfMemory>
    requires { IsTrue (is_originator originator.now) }
    ensures { IfOk result (λ r. r ≡ forwarded home.now originator.now request.now) }
{
    let fr = full_form(alloc, home, originator)?;
    let parts = request.parts().copy(alloc)?;
    Ok(Request::of(RequestParts {
        fr: Some(fr),
        rt: None,
        ..parts
    }))
}

//! What is told of a request before what its address names.
ghost use Rattle.std.specs.Prelude.{◌≡◌, bytes_eq, codes, false, option_map};
ghost use Rattle.std.specs.Option.{option_map_or};
ghost use Rattle.m2m_names.specs.declared.types.Ty.TheVariants.{Ae};
ghost use Rattle.resource_model.specs.Resource.{is_ty};
ghost use Rattle.request_rules.specs.Rights.{sole};
ghost use Rattle.cse_machine.specs.Answer as spec;

use entity_model::Entity;
use m2m_names::Ty;
use m2m_value::{MemberKey, Val};
use primitive_json::{Request, When, creates};
use request_rules::child_ty;
use tree_model::Tree;

// ---- the originator

fn is_of_ae(child: Option<Ty>) -> bool
    ensures { result ≡ option_map_or (λ ty. is_ty ty Ae) child false }
{
    match child {
        Some(ty) => ty.number() == Ty::Ae.number(),
        None => false,
    }
}

fn is_registration(request: &Request) -> bool
    ensures { result ≡ spec.is_registration request.now }
{
    creates(request.parts().op) && is_of_ae(child_ty(request))
}

/// Whom the request says that asks: `C` where an application entity registers without a word of it.
pub(crate) fn said_originator(request: &Request) -> Option<&[u8]>
    ensures { option_map (λ o. o.now) result ≡ spec.said_originator request.now }
{
    match &request.parts().fr {
        Some(fr) => Some(fr.entries()),
        None if is_registration(request) => Some(b"C".as_slice()),
        None => None,
    }
}

// ---- its times

/// Whether it hasn't expired at the moment of the event.
pub(crate) fn is_in_time<T: Tree>(entity: &Entity<T>, request: &Request) -> bool
    ensures { result ≡ spec.is_in_time entity.now request.now }
{
    match request.parts().rqet {
        Some(when) => !is_past(entity.last, when),
        None => true,
    }
}

fn is_past(moment: u64, when: When) -> bool
    ensures { result ≡ spec.is_past moment when }
{
    match when {
        When::At(at) => at < moment,
        When::Millis(_) => false,
    }
}

/// Whether its response type, where one is given, is that of a blocking request.
pub(crate) fn is_blocking(request: &Request) -> bool
    ensures { result ≡ spec.is_blocking request.now }
{
    match request.parts().rt {
        Some(rt) => rt == 3,
        None => true,
    }
}

// ---- the content

// The only member of a content.
fn sole_member(content: &Val) -> Option<&(MemberKey, Val)>
    ensures { option_map (λ e. e.now) result ≡ sole content.now }
{
    match content.as_obj()?.entries() {
        [entry] => Some(entry),
        _ => None,
    }
}

fn is_answer(content: &Val) -> bool
    ensures { result
        ≡ option_map_or (λ e. bytes_eq e.0 (codes "m2m:rsp")) (sole content.now) false }
{
    match sole_member(content) {
        Some(entry) => entry.0.entries() == b"m2m:rsp".as_slice(),
        None => false,
    }
}

/// Whether its content is the answer to a request that was polled.
pub(crate) fn has_answer(request: &Request) -> bool
    ensures { result ≡ spec.has_answer request.now }
{
    match &request.parts().pc {
        Some(content) => is_answer(content),
        None => false,
    }
}

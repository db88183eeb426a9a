//! What a payload is heard as.
ghost use Rattle.std.specs.Prelude.{◌≡◌, IfOk, IfSome, IsUtf8, Some, option_map};
ghost use Rattle.ws_binding.specs.Payloads as spec;
ghost use Rattle.ws_binding.specs.Payloads.{IsHeard, request_of};

use filter_criteria::value_at;
use m2m_value::{Scratch, Text, Val, ValFault, read_in};
use primitive_json::{Member, PrimFault, Request, is_request_id, request_from};
use std::alloc::{AllocError as OutOfMemory, Global};

/// What a payload is heard as.
#[derive(Drop)]
pub(crate) enum Heard {
    /// A request, behind its identifier.
    Asks(Text, Request),
    /// No request, with the identifier that it has.
    Refused(Option<Text>),
}

/// The identifier that a value of a member is.
fn id_text(value: &Val) -> Option<&[u8]>
    ensures value { option_map (λ t. t.now) result ≡ spec.id_text value.now }
    ensures utf8 { IfSome result (λ t. IsUtf8 t.now) }
{
    let text = value.as_text()?.entries();
    if is_request_id(text) {
        Some(text)
    } else {
        None
    }
}

/// The identifier that a value has.
fn id_in(value: &Val) -> Option<&[u8]>
    ensures value { option_map (λ t. t.now) result ≡ spec.id_of value.now }
    ensures utf8 { IfSome result (λ t. IsUtf8 t.now) }
{
    id_text(value_at(value, Member::RequestId.name())?)
}

/// The identifier that a value has, as a text of its own.
fn id_of(alloc: Global, value: &Val) -> Result<Option<Text>, OutOfMemory>
    ensures value { IfOk result (λ id. id ≡ spec.id_of value.now) }
    ensures utf8 { IfOk result (λ id. IfSome id IsUtf8) }
{
    match id_in(value) {
        Some(id) => Ok(Some(Text::from_slice(alloc, id)?)),
        None => Ok(None),
    }
}

/// A request with its identifier, which each has.
fn asking(id: Option<Text>, request: Request) -> Heard
    requires same { id ≡ Some request.rqi }
    requires utf8 { IfSome id IsUtf8 }
    ensures { IsHeard (Some request) id result }
{
    let Some(id) = id else { unreachable!() };
    Heard::Asks(id, request)
}

/// What a value is heard as.
fn hear_value(alloc: Global, value: Val) -> Result<Heard, OutOfMemory>
    ensures { IfOk result (IsHeard (request_of value) (spec.id_of value)) }
{
    let id = id_of(alloc, &value)?;
    match request_from(alloc, value) {
        Ok(request) => Ok(asking(id, request)),
        Err(PrimFault::OutOfMemory) => Err(OutOfMemory),
        Err(_) => Ok(Heard::Refused(id)),
    }
}

/// What a payload is heard as.
pub(crate) fn hear_payload(
    alloc: Global,
    scratch: &mut Scratch,
    payload: &[u8],
) -> Result<Heard, OutOfMemory>
    ensures { IfOk result (IsHeard (spec.payload_request payload.now) (spec.echo_of payload.now)) }
{
    match read_in(alloc, scratch, payload) {
        Ok(value) => hear_value(alloc, value),
        Err(ValFault::OutOfMemory) => Err(OutOfMemory),
        Err(_) => Ok(Heard::Refused(None)),
    }
}

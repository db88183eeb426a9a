//! The type that a request is about, and the attributes that its content names.
ghost use Rattle.std.specs.Prelude.{◌≡◌, option_map};
ghost use Rattle.refusal_reasons.specs.Facts as spec;

use attribute_rules::{Writing, attributes_in, is_named};
use m2m_names::{Attr, Op, Ty};
use m2m_value::{MemberKey, Members, Val};
use primitive_json::Request;

/// What the name of a type in JSON begins with.
const FRONT: &[u8] = b"m2m:";

/// The type that a name in JSON stands for.
fn ty_of_member(name: &[u8]) -> Option<Ty>
    ensures { result ≡ spec.ty_of_member name.now }
{
    if name.starts_with(FRONT) {
        Ty::from_word(&name[FRONT.len()..])
    } else {
        None
    }
}

/// The only member of an object.
fn sole(content: &Val) -> Option<&(MemberKey, Val)>
    ensures { option_map (λ e. e.now) result ≡ spec.sole content.now }
{
    match content.as_obj()?.entries() {
        [entry] => Some(entry),
        _ => None,
    }
}

/// The type that names the only member of a content.
fn ty_of_content(content: &Val) -> Option<Ty>
    ensures { result ≡ spec.ty_of_content content.now }
{
    ty_of_member(sole(content)?.0.entries())
}

/// The type that a request is about.
pub(crate) fn subject_of(request: &Request) -> Option<Ty>
    ensures { result ≡ spec.subject_of request.now }
{
    let parts = request.parts();
    match parts.op {
        Op::Create => Ty::from_number(parts.ty?),
        Op::Update => ty_of_content(parts.pc.as_ref()?),
        Op::Retrieve | Op::Delete | Op::Notify => None,
    }
}

/// As which its content is judged.
pub(crate) fn writing_by(op: Op) -> Writing
    ensures { result ≡ spec.writing_by op }
{
    match op {
        Op::Create => Writing::Create,
        Op::Retrieve | Op::Update | Op::Delete | Op::Notify => Writing::Update,
    }
}

/// The attributes that its content names.
pub(crate) fn attributes_of(request: &Request) -> Option<&Members>
    ensures { option_map (λ m. m.now) result ≡ spec.attributes_of request.now }
{
    let ty = subject_of(request)?;
    attributes_in(ty, request.parts().pc.as_ref()?)
}

/// Whether its content names an attribute.
pub(crate) fn names(request: &Request, attr: Attr) -> bool
    ensures { result ≡ spec.names request.now attr }
{
    match attributes_of(request) {
        Some(named) => is_named(attr, named),
        None => false,
    }
}

fn is_link(value: &Val) -> bool
    ensures { result ≡ spec.is_link value.now }
{
    match sole(value) {
        Some(entry) => entry.0.entries() == Attr::Acpi.short().as_bytes(),
        None => false,
    }
}

/// Whether its content is of `acpi` alone, whatever its type.
pub(crate) fn is_relink(request: &Request) -> bool
    ensures { result ≡ spec.is_relink request.now }
{
    match &request.parts().pc {
        Some(content) => match sole(content) {
            Some(entry) => is_link(&entry.1),
            None => false,
        },
        None => false,
    }
}

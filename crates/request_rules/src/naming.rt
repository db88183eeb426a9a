//! Names and identifiers of what is created.
ghost use Rattle.std.specs.Prelude.{◌≡◌, ◌++◌, IfOk, IfSome, IsTrue, IsUtf8};
ghost use Rattle.std.specs.Prelude.{option_map};
ghost use Rattle.m2m_names.specs.Ids as ids;
ghost use Rattle.m2m_names.specs.Name.{is_originator};
ghost use Rattle.m2m_names.specs.declared.types.Ty.TheVariants.{Ae};
ghost use Rattle.attribute_rules.specs.Contents.{named_text};
ghost use Rattle.request_rules.specs.Creation as spec;

use attribute_rules::value_named;
use m2m_names::{Attr, Ty, is_name};
use m2m_value::{Members, Text};
use resource_model::{id_text, numbered};
use std::alloc::{AllocError as OutOfMemory, Global};

/// The text that a content names at an attribute.
pub(crate) fn text_named(attr: Attr, members: &Members) -> Option<&Text>
    ensures value { option_map (λ t. t.now) result ≡ named_text attr members.now }
    ensures utf8 { IfSome result (λ t. IsUtf8 t.now) }
{
    value_named(attr, members)?.as_text()
}

/// Whether an originator is an AE-ID already.
pub(crate) fn is_ae_id(originator: &[u8]) -> bool
    ensures { result ≡ spec.is_ae_id originator.now }
{
    is_name(originator)
        && originator.len() > 1
        && (originator.starts_with(b"C") || originator.starts_with(b"S"))
}

fn ae_stem(originator: &[u8]) -> &'static [u8]
    ensures { result.now ≡ spec.ae_stem originator.now }
{
    if originator == b"S".as_slice() {
        b"S"
    } else {
        b"C"
    }
}

/// The AE-ID that an originator gets with a resource id.
pub(crate) fn given_ae_id(alloc: Global, originator: &[u8], id: &Text) -> Result<Text, OutOfMemory>
    requires { IsUtf8 id.now }
    ensures value { IfOk result (λ t. t ≡ spec.ae_stem originator.now ++ id.now) }
    ensures utf8 { IfOk result (λ t. IsUtf8 t) }
{
    let mut bytes = Vec::from_slice(alloc, ae_stem(originator))?;
    bytes.extend_from_slice(id.entries())?;
    Ok(Text::of(bytes))
}

/// The AE-ID of a new application entity of a number.
pub fn new_ae_id(alloc: Global, originator: &[u8], number: u64) -> Result<Text, OutOfMemory>
    requires { IsTrue (is_originator originator.now) }
    ensures value { IfOk result (λ t. t ≡ spec.ae_id_for originator.now number) }
    ensures utf8 { IfOk result (λ t. IsUtf8 t) }
{
    if is_ae_id(originator) {
        return Text::from_slice(alloc, originator);
    }
    given_ae_id(alloc, originator, &id_text(alloc, Ty::Ae, number)?)
}

/// Who owns a resource of a type and a number that an originator creates.
pub fn new_owner(alloc: Global, originator: &[u8], ty: Ty, number: u64) -> Result<Text, OutOfMemory>
    requires { IsTrue (is_originator originator.now) }
    ensures value { IfOk result (λ t. t ≡ spec.owner_for originator.now ty number) }
    ensures utf8 { IfOk result (λ t. IsUtf8 t) }
{
    if ty.number() == Ty::Ae.number() {
        new_ae_id(alloc, originator, number)
    } else {
        Text::from_slice(alloc, originator)
    }
}

/// The name of a resource of a type and a number: the one that a content names, else its own.
pub fn new_name(alloc: Global, ty: Ty, number: u64, members: &Members) -> Result<Text, OutOfMemory>
    ensures value { IfOk result (λ t. t ≡ spec.name_for ty number members.now) }
    ensures utf8 { IfOk result (λ t. IsUtf8 t) }
{
    match text_named(Attr::Rn, members) {
        Some(name) => name.copy(alloc),
        None => numbered(alloc, ty.word(), "_", number),
    }
}

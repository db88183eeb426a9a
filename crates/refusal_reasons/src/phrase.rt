//! What is told of faults, as texts.
ghost use Rattle.std.specs.Prelude.{◌≡◌, ◌++◌, IfOk, codes};
ghost use Rattle.refusal_reasons.specs.Texts as spec;

use crate::OutOfMemory;
use attribute_rules::AttrFault;
use http_target::BindFault;
use m2m_names::{are_graphic, is_filled};
use m2m_value::ValFault;
use primitive_json::PrimFault;
use std::alloc::Global;

/// A name that is longer isn't told.
const SHOWN_LIMIT: usize = 64;

/// What stands for a name that isn't told.
const UNSHOWN: &str = "(a name)";

/// The bytes of a name as it is told.
fn shown(name: &[u8]) -> &[u8]
    ensures { result.now ≡ spec.shown name.now }
{
    if is_filled(name, SHOWN_LIMIT) && are_graphic(name) {
        name
    } else {
        UNSHOWN.as_bytes()
    }
}

/// These words.
fn words(alloc: Global, text: &str) -> Result<Vec<u8>, OutOfMemory>
    ensures { IfOk result (λ t. t.items ≡ text.now) }
{
    Vec::from_slice(alloc, text.as_bytes())
}

/// Words, and a name behind them.
fn before(alloc: Global, front: &str, name: &[u8]) -> Result<Vec<u8>, OutOfMemory>
    ensures { IfOk result (λ t. t.items ≡ spec.before front.now name.now) }
{
    let mut text = words(alloc, front)?;
    text.extend_from_slice(shown(name))?;
    Ok(text)
}

/// Words, a name, and words.
fn around(alloc: Global, front: &str, name: &[u8], back: &str) -> Result<Vec<u8>, OutOfMemory>
    ensures { IfOk result (λ t. t.items ≡ spec.around front.now name.now back.now) }
{
    let mut text = words(alloc, front)?;
    text.extend_from_slice(shown(name))?;
    text.extend_from_slice(back.as_bytes())?;
    Ok(text)
}

/// What is told of what is no JSON value, and of a number that isn't taken.
pub fn words_of_value(fault: ValFault) -> &'static str
    ensures { result.now ≡ spec.words_of_value fault }
{
    match fault {
        ValFault::NotJson => "no object of JSON, or one deeper than 127",
        ValFault::TooWide => "a number from 2^63: send it as text",
        ValFault::Fraction => {
            "a fraction, an exponent, -0, or more than 64 bits: send the number as text"
        }
        ValFault::OutOfMemory => "no memory",
    }
}

/// What is told of an object that is no request.
pub fn reason_of_member(alloc: Global, fault: &PrimFault) -> Result<Vec<u8>, OutOfMemory>
    ensures { IfOk result (λ t. t.items ≡ spec.reason_of_member fault.now) }
{
    match fault {
        PrimFault::Missing(name) => before(alloc, "missing ", name.entries()),
        PrimFault::Bad(name) => around(
            alloc,
            "member ",
            name.entries(),
            " is unknown, or has a value of another kind",
        ),
        PrimFault::OutOfMemory => words(alloc, "no memory"),
    }
}

/// What is told of a message of HTTP that is no request.
pub fn reason_of_binding(alloc: Global, fault: &BindFault) -> Result<Vec<u8>, OutOfMemory>
    ensures { IfOk result (λ t. t.items ≡ spec.reason_of_binding fault.now) }
{
    match fault {
        BindFault::Method => words(alloc, "the method is none of GET, POST, PUT and DELETE"),
        BindFault::Target => words(alloc, "the target is no path of an address"),
        BindFault::Header(name) => around(
            alloc,
            "header ",
            name.entries(),
            " stands twice, or has a value of another kind",
        ),
        BindFault::Missing(name) => before(alloc, "missing ", name.entries()),
        BindFault::Query(key) => around(
            alloc,
            "query ",
            key.entries(),
            " is unknown, stands twice, or has a value of another kind",
        ),
        BindFault::Body(fault) => reason_of_body(alloc, *fault),
        BindFault::OutOfMemory => words(alloc, "no memory"),
    }
}

fn reason_of_body(alloc: Global, fault: ValFault) -> Result<Vec<u8>, OutOfMemory>
    ensures { IfOk result (λ t. t.items ≡ codes "the body has " ++ spec.words_of_value fault) }
{
    let mut text = words(alloc, "the body has ")?;
    text.extend_from_slice(words_of_value(fault).as_bytes())?;
    Ok(text)
}

/// What is told of a content that isn't admitted.
pub(crate) fn reason_of_content(alloc: Global, fault: &AttrFault) -> Result<Vec<u8>, OutOfMemory>
    ensures { IfOk result (λ t. t.items ≡ spec.reason_of_content fault.now) }
{
    match fault {
        AttrFault::Shape => words(
            alloc,
            "the content is no object with the one member of its type",
        ),
        AttrFault::Unknown(name) => before(alloc, "unknown attribute ", name.entries()),
        AttrFault::NotAllowed(attr) => around(
            alloc,
            "attribute ",
            attr.short().as_bytes(),
            " may not be named here",
        ),
        AttrFault::Kind(attr) => around(
            alloc,
            "attribute ",
            attr.short().as_bytes(),
            " has a value of another kind",
        ),
        AttrFault::Missing(attr) => before(alloc, "missing attribute ", attr.short().as_bytes()),
        AttrFault::AcpiNotAlone => words(alloc, "acpi is updated alone"),
        AttrFault::OutOfMemory => words(alloc, "no memory"),
    }
}

//! What the values of members are read as, where they are of their kinds. Nothing is copied.
ghost use Rattle.std.specs.Prelude.{◌≡◌, IfSome};
ghost use Rattle.primitive_json.specs.Requests.{IsSoundWhen};
ghost use Rattle.primitive_json.specs.Kinds as spec;

use crate::bounds::is_request_id;
use crate::request::When;
use filter_criteria::value_at;
use m2m_names::{Op, Rsc, is_filled, is_originator, number_spelled, read_stamp};
use m2m_value::Val;

/// The most bytes that the target of a request has.
pub const TARGET_LIMIT: usize = 1_024;

/// A text that the target of a request may be: not empty, within its limit.
pub fn is_address_text(value: &Val) -> bool
    ensures { result ≡ spec.is_address_text value.now }
{
    value
        .as_text()
        .is_some_and(|text| is_filled(text.entries(), TARGET_LIMIT))
}

/// A text that is an originator.
pub fn is_originator_text(value: &Val) -> bool
    ensures { result ≡ spec.is_originator_text value.now }
{
    value
        .as_text()
        .is_some_and(|text| is_originator(text.entries()))
}

/// A text that is the identifier of a request.
pub fn is_id_text(value: &Val) -> bool
    ensures { result ≡ spec.is_id_text value.now }
{
    value
        .as_text()
        .is_some_and(|text| is_request_id(text.entries()))
}

/// Whether it is one of these numbers.
pub fn is_among(numbers: &[i64], number: i64) -> bool
    ensures { result ≡ spec.is_among numbers.now number }
{
    numbers.contains(&number)
}

/// One of these numbers.
pub fn is_number_among(numbers: &[i64], value: &Val) -> bool
    ensures { result ≡ spec.is_number_among numbers.now value.now }
{
    match value.as_num() {
        Some(number) => is_among(numbers, number),
        None => false,
    }
}

/// The operation of a number.
pub fn read_operation(value: &Val) -> Option<Op>
    ensures { result ≡ spec.read_operation value.now }
{
    Op::from_number(value.as_num()?)
}

/// What the result content of an operation may be.
pub fn result_contents(op: Op) -> &'static [i64]
    ensures { result.now ≡ spec.result_contents op }
{
    match op {
        Op::Create => &[0, 1, 2, 3],
        Op::Retrieve => &[1, 4, 5, 6],
        Op::Update => &[0, 1],
        Op::Delete => &[0],
        Op::Notify => &[],
    }
}

/// The numbers of the forms of addresses: structured and unstructured.
pub fn address_forms() -> &'static [i64]
    ensures { result.now ≡ spec.address_forms }
{
    &[1, 2]
}

/// The number of a response type: of an object, its `rtv`.
pub fn read_response_type(value: &Val) -> Option<i64>
    ensures { result ≡ spec.read_response_type value.now }
{
    match value.as_num() {
        Some(number) => Some(number),
        None => value_at(value, "rtv")?.as_num(),
    }
}

/// The time of expiry that a text spells: milliseconds by digits, else the moment of a timestamp.
pub fn expiry_spelled(text: &[u8]) -> Option<When>
    ensures value { result ≡ spec.expiry_spelled text.now }
    ensures sound { IfSome result IsSoundWhen }
{
    match number_spelled(text) {
        Some(number) => Some(When::Millis(number)),
        None => Some(When::At(read_stamp(text)?)),
    }
}

/// A time of expiry: a count of milliseconds, or what a text spells.
pub fn read_expiry(value: &Val) -> Option<When>
    ensures value { result ≡ spec.read_expiry value.now }
    ensures sound { IfSome result IsSoundWhen }
{
    match value.as_count() {
        Some(millis) => Some(When::Millis(millis)),
        None => expiry_spelled(value.as_text()?.entries()),
    }
}

/// The status code of a number.
#[tactic(auto, using(m2m_names::proofs::StatusLemmas::none_beyond))]
pub fn read_status(value: &Val) -> Option<Rsc>
    ensures { result ≡ spec.read_status value.now }
{
    let number = value.as_count()?;
    if number <= u64::from(u16::MAX) {
        Rsc::from_number(number as u16)
    } else {
        None
    }
}

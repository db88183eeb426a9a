//! What a line Content-Type says.
ghost use Rattle.std.specs.Prelude.{◌≡◌, ◌≤◌, ◌==◌, Some, None, fold, length};
ghost use Rattle.std.specs.List.{prefix_len, slice_split};
ghost use Rattle.http_binding.specs.MediaTypes as spec;

use crate::method::Method;
use crate::names::{JSON_TYPE, TYPE_PARAMETER};
use http_frames::is_same_name;
use http_target::{before, behind};
use httparse::is_token;
use m2m_names::{are_digits, is_filled, is_type_number};
use primitive_json::digits_number;

/// The most digits of the number of a type.
const TYPE_DIGITS_LIMIT: usize = 5;

/// The number of the type that is to be created, where it is said.
type TypeNumber = Option<u32>;

/// How many spaces stand at the front.
fn spaces_before(text: &[u8]) -> usize
    ensures value { result ≡ prefix_len spec.is_space text.now }
    ensures within { result ≤ length text.now }
{
    text.iter().take_while(|byte| **byte == b' ').count()
}

fn behind_spaces(text: &[u8]) -> &[u8]
    ensures { result.now ≡ spec.behind_spaces text.now }
{
    &text[spaces_before(text)..]
}

fn before_spaces(text: &[u8]) -> &[u8]
    ensures { result.now ≡ spec.before_spaces text.now }
{
    let mut end = text.len();
    while 0 < end && text[end - 1] == b' ' {
        end -= 1;
    }
    &text[..end]
}

/// The text without the spaces around it.
fn between_spaces(text: &[u8]) -> &[u8]
    ensures { result.now ≡ spec.between_spaces text.now }
{
    before_spaces(behind_spaces(text))
}

fn is_media_type(text: &[u8]) -> bool
    ensures { result ≡ spec.is_media_type text.now }
{
    is_same_name(text, JSON_TYPE.as_bytes())
        || is_same_name(text, b"application/vnd.onem2m-res+json")
        || is_same_name(text, b"application/vnd.onem2m-ntfy+json")
}

fn is_type_digits(text: &[u8]) -> bool
    ensures { result ≡ spec.is_type_digits text.now }
{
    is_filled(text, TYPE_DIGITS_LIMIT) && are_digits(text)
}

/// What is said with the value of one more `ty`.
fn type_digits_said(digits: &[u8]) -> Option<TypeNumber>
    ensures { result ≡ spec.type_digits_said digits.now }
{
    if is_type_digits(digits) {
        Some(Some(digits_number(digits) as u32))
    } else {
        None
    }
}

/// What is said with one more parameter, behind what was said before.
fn parameter_said(before: TypeNumber, name: &[u8], value: &[u8]) -> Option<TypeNumber>
    ensures { result ≡ spec.parameter_said before name.now value.now }
{
    if name == TYPE_PARAMETER.as_bytes() {
        type_digits_said(value)
    } else if is_token(name) {
        Some(before)
    } else {
        None
    }
}

fn piece_said(said: TypeNumber, piece: &[u8]) -> Option<TypeNumber>
    ensures { result ≡ spec.piece_said said piece.now }
{
    parameter_said(said, before(b'=', piece), behind(b'=', piece)?)
}

fn next_said(said: Option<TypeNumber>, piece: &[u8]) -> Option<TypeNumber>
    ensures { result ≡ spec.next_said said piece.now }
{
    piece_said(said?, between_spaces(piece))
}

/// What parameters between semicolons say.
fn parameters_said(text: &[u8]) -> Option<TypeNumber>
    ensures { result ≡ fold spec.next_said (Some None)
        (slice_split (λ b. b == spec.semicolon) text.now) }
{
    text.split(|byte| *byte == b';')
        .fold(Some(None), |said, piece| next_said(said, piece))
}

/// What the value of a line says of the type that is to be created.
fn type_said(value: &[u8]) -> Option<TypeNumber>
    ensures { result ≡ spec.type_said value.now }
{
    if !is_media_type(between_spaces(before(b';', value))) {
        return None;
    }
    match behind(b';', value) {
        Some(parameters) => parameters_said(parameters),
        None => Some(None),
    }
}

/// The number of the type that is to be created, where the value has one.
pub(crate) fn type_number(value: &[u8]) -> TypeNumber
    ensures { result ≡ spec.type_number value.now }
{
    type_said(value)?
}

/// Whether a line Content-Type of this value may stand beside the method.
pub(crate) fn admits_type(method: Method, value: &[u8]) -> bool
    ensures { result ≡ spec.admits_type method value.now }
{
    match method {
        Method::Get | Method::Delete => true,
        Method::Put => type_said(value).is_some(),
        Method::Post => type_said(value).is_some_and(|said| is_short_number(said)),
    }
}

fn is_short_number(number: TypeNumber) -> bool
    ensures { result ≡ spec.is_short_number number }
{
    number.is_none_or(|n| is_type_number(u64::from(n)))
}

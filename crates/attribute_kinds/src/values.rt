//! Values that are texts, counts, and lists of such.
ghost use Rattle.std.specs.Prelude.{◌≡◌, is_some, option_map};
ghost use Rattle.std.specs.Int.{is_in_range};
ghost use Rattle.m2m_names.specs.Name as names;
ghost use Rattle.m2m_names.specs.Types.{ty_of_number};
ghost use Rattle.m2m_value.specs.View as views;
ghost use Rattle.attribute_kinds.specs.declared.kinds.Kind.TheVariants.{Count};
ghost use Rattle.m2m_value.specs.Shapes as shapes;
ghost use Rattle.attribute_kinds.specs.Kinds as spec;

use m2m_names::{POINT_LIMIT, Ty, are_graphic, is_filled};
use m2m_value::Val;

/// The bytes of a text.
pub fn text_in(value: &Val) -> Option<&[u8]>
    ensures { option_map (λ t. t.now) result ≡ views.as_text value.now }
{
    Some(value.as_text()?.entries())
}

/// The elements of a list.
pub fn list_in(value: &Val) -> Option<&[Val]>
    ensures { option_map (λ vs. vs.now) result ≡ views.as_list value.now }
{
    Some(value.as_list()?.entries())
}

/// A text.
pub fn is_text(value: &Val) -> bool
    ensures { result ≡ is_some (views.as_text value.now) }
{
    value.as_text().is_some()
}

/// True or false.
pub fn is_bool(value: &Val) -> bool
    ensures { result ≡ is_some (views.as_boolean value.now) }
{
    value.as_bool().is_some()
}

/// Any value but null.
pub fn is_content(value: &Val) -> bool
    ensures { result ≡ spec.is_content value.now }
{
    !value.is_null()
}

/// A whole number from 0 on.
pub fn is_count_value(value: &Val) -> bool
    ensures { result ≡ spec.has_kind Count value.now }
{
    value.as_count().is_some()
}

/// A whole number within these bounds.
pub fn is_number_within(from: u64, to: u64, value: &Val) -> bool
    ensures { result ≡ shapes.is_count_of (is_in_range from to) value.now }
{
    match value.as_count() {
        Some(n) => from <= n && n <= to,
        None => false,
    }
}

fn type_of(n: u64) -> Option<Ty>
    ensures { result ≡ ty_of_number n }
{
    Ty::ALL
        .iter()
        .copied()
        .find(|ty| u64::from(ty.number()) == n)
}

/// The number of a type, or 0 for members of any.
pub fn is_member_type(value: &Val) -> bool
    ensures { result ≡ shapes.is_count_of spec.is_member_type value.now }
{
    match value.as_count() {
        Some(n) => n == 0 || type_of(n).is_some(),
        None => false,
    }
}

/// A name that a resource may be given.
pub fn is_name_value(value: &Val) -> bool
    ensures { result ≡ shapes.is_text_of names.is_free_name value.now }
{
    match text_in(value) {
        Some(text) => m2m_names::is_free_name(text),
        None => false,
    }
}

/// A timestamp (TS-0004, 6.3.3).
pub fn is_stamp(value: &Val) -> bool
    ensures { result ≡ shapes.is_text_of spec.is_stamp_text value.now }
{
    match text_in(value) {
        Some(text) => m2m_names::read_stamp(text).is_some(),
        None => false,
    }
}

/// An originator.
pub fn is_originator_value(value: &Val) -> bool
    ensures { result ≡ shapes.is_text_of names.is_originator value.now }
{
    match text_in(value) {
        Some(text) => m2m_names::is_originator(text),
        None => false,
    }
}

fn is_cse_id_text(text: &[u8]) -> bool
    ensures { result ≡ spec.is_cse_id text.now }
{
    match text {
        [b'/', name @ ..] => m2m_names::is_name(name),
        _ => false,
    }
}

/// A CSE-ID, with its slash.
pub fn is_cse_id(value: &Val) -> bool
    ensures { result ≡ shapes.is_text_of spec.is_cse_id value.now }
{
    match text_in(value) {
        Some(text) => is_cse_id_text(text),
        None => false,
    }
}

fn is_point_text(text: &[u8]) -> bool
    ensures { result ≡ spec.is_point text.now }
{
    is_filled(text, POINT_LIMIT) && are_graphic(text)
}

/// A point of contact: a text without blanks, of a limited length.
pub fn is_point(value: &Val) -> bool
    ensures { result ≡ shapes.is_text_of spec.is_point value.now }
{
    match text_in(value) {
        Some(text) => is_point_text(text),
        None => false,
    }
}

//! Values that are lists.
ghost use Rattle.std.specs.Prelude.{◌≡◌, is_some, false};
ghost use Rattle.std.specs.List.{list_all};
ghost use Rattle.std.specs.Option.{option_map_or};
ghost use Rattle.m2m_names.specs.Name as names;
ghost use Rattle.m2m_value.specs.View as views;
ghost use Rattle.m2m_value.specs.Shapes as shapes;
ghost use Rattle.attribute_kinds.specs.Kinds as spec;

use crate::values::{is_cse_id, is_number_within, is_originator_value, is_point, is_text, list_in};
use m2m_value::Val;

fn are_labels(values: &[Val]) -> bool
    ensures { result ≡ list_all shapes.is_label values.now }
{
    values.iter().all(|value| value.is_label())
}

fn are_cse_ids(values: &[Val]) -> bool
    ensures { result ≡ list_all (shapes.is_text_of spec.is_cse_id) values.now }
{
    values.iter().all(|value| is_cse_id(value))
}

fn are_texts(values: &[Val]) -> bool
    ensures { result ≡ list_all (λ d. is_some (views.as_text d)) values.now }
{
    values.iter().all(|value| is_text(value))
}

fn are_originators(values: &[Val]) -> bool
    ensures { result ≡ list_all (shapes.is_text_of names.is_originator) values.now }
{
    values.iter().all(|value| is_originator_value(value))
}

fn are_event_kinds(values: &[Val]) -> bool
    ensures { result ≡ list_all (shapes.is_count_of spec.is_event_kind) values.now }
{
    values.iter().all(|value| is_number_within(1, 4, value))
}

fn are_points(values: &[Val]) -> bool
    ensures { result ≡ list_all (shapes.is_text_of spec.is_point) values.now }
{
    values.iter().all(|value| is_point(value))
}

/// A list of labels.
pub fn is_labels(value: &Val) -> bool
    ensures { result ≡ shapes.is_list_of shapes.is_label value.now }
{
    match list_in(value) {
        Some(values) => are_labels(values),
        None => false,
    }
}

/// A list of CSE-IDs.
pub fn is_cse_ids(value: &Val) -> bool
    ensures { result ≡ shapes.is_list_of (shapes.is_text_of spec.is_cse_id) value.now }
{
    match list_in(value) {
        Some(values) => are_cse_ids(values),
        None => false,
    }
}

/// A list of texts.
pub fn is_texts(value: &Val) -> bool
    ensures { result ≡ shapes.is_list_of (λ d. is_some (views.as_text d)) value.now }
{
    match list_in(value) {
        Some(values) => are_texts(values),
        None => false,
    }
}

/// A list of points of contact.
pub fn is_points(value: &Val) -> bool
    ensures { result ≡ shapes.is_list_of (shapes.is_text_of spec.is_point) value.now }
{
    match list_in(value) {
        Some(values) => are_points(values),
        None => false,
    }
}

/// A list of one point of contact.
pub fn is_notification_target(value: &Val) -> bool
    ensures { result ≡ option_map_or spec.is_notification_target (views.as_list value.now) false }
{
    match list_in(value) {
        Some(values) => values.len() == 1 && are_points(values),
        None => false,
    }
}

/// A list, not empty, of originators.
pub fn is_originators(value: &Val) -> bool
    ensures { result ≡ shapes.is_some_of (shapes.is_text_of names.is_originator) value.now }
{
    match list_in(value) {
        Some(values) => 0 < values.len() && are_originators(values),
        None => false,
    }
}

/// A list, not empty, of kinds of event: 1 to 4.
pub fn is_event_kinds(value: &Val) -> bool
    ensures { result ≡ shapes.is_some_of (shapes.is_count_of spec.is_event_kind) value.now }
{
    match list_in(value) {
        Some(values) => 0 < values.len() && are_event_kinds(values),
        None => false,
    }
}

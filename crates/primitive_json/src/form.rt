//! The form of a request, whoever made it.
ghost use Rattle.std.specs.Prelude.{◌≡◌, false, true, is_some};
ghost use Rattle.std.specs.List.{list_all};
ghost use Rattle.std.specs.Option.{option_map_or};
ghost use Rattle.m2m_names.specs.Types as types;
ghost use Rattle.m2m_value.specs.Shapes as shapes;
ghost use Rattle.m2m_value.specs.View.{as_object};
ghost use Rattle.filter_criteria.specs.Laws.{are_fit_conditions};
ghost use Rattle.primitive_json.specs.Form as spec;
ghost use Rattle.primitive_json.specs.Kinds as kinds;

use crate::bounds::is_request_id;
use crate::kinds::{address_forms, is_among, result_contents};
use crate::member::{creates, has_content, has_result, retrieves};
use crate::request::Request;
use filter_criteria::Filter;
use m2m_names::is_type_number;
use m2m_value::{Text, is_label_text};

fn names_type(request: &Request) -> bool
    ensures { result ≡ option_map_or types.is_type_number request.now.ty false }
{
    match request.parts().ty {
        Some(number) => is_type_number(u64::from(number)),
        None => false,
    }
}

fn has_fit_type(request: &Request) -> bool
    ensures { result ≡ spec.has_fit_type request.now.op request.now.ty }
{
    !creates(request.parts().op) || names_type(request)
}

fn has_object(request: &Request) -> bool
    ensures { result ≡ option_map_or (λ d. is_some (as_object d)) request.now.pc false }
{
    match &request.parts().pc {
        Some(content) => content.as_obj().is_some(),
        None => false,
    }
}

fn has_fit_content(request: &Request) -> bool
    ensures { result ≡ spec.has_fit_content request.now.op request.now.pc }
{
    !has_content(request.parts().op) || has_object(request)
}

fn is_none_or_among(numbers: &[i64], number: Option<i64>) -> bool
    ensures { result ≡ option_map_or (kinds.is_among numbers.now) number true }
{
    match number {
        Some(number) => is_among(numbers, number),
        None => true,
    }
}

fn has_fit_result(request: &Request) -> bool
    ensures { result ≡ spec.has_fit_result request.now.op request.now.rcn }
{
    let parts = request.parts();
    !has_result(parts.op) || is_none_or_among(result_contents(parts.op), parts.rcn)
}

fn are_labels(labels: &[Text]) -> bool
    ensures { result ≡ list_all shapes.is_label_text labels.now }
{
    labels.iter().all(|label| is_label_text(label.entries()))
}

fn are_type_numbers(numbers: &[u64]) -> bool
    ensures { result ≡ list_all types.is_type_number numbers.now }
{
    numbers.iter().all(|number| is_type_number(*number))
}

fn are_fit_conditions(filter: &Filter) -> bool
    ensures { result ≡ are_fit_conditions filter.now }
{
    let parts = filter.parts();
    are_labels(parts.lbl.entries()) && are_type_numbers(parts.ty.entries())
}

fn has_fit_filter(request: &Request) -> bool
    ensures { result ≡ spec.has_fit_filter request.now.op request.now.fc }
{
    match &request.parts().fc {
        Some(filter) => retrieves(request.parts().op) && are_fit_conditions(filter),
        None => true,
    }
}

/// Whether each parameter that its operation reads is of its kind, and those are there that the
/// operation needs.
pub fn has_form(request: &Request) -> bool
    ensures { result ≡ spec.has_form request.now }
{
    is_request_id(request.parts().rqi.entries())
        && has_fit_type(request)
        && has_fit_content(request)
        && has_fit_result(request)
        && has_fit_filter(request)
        && is_none_or_among(address_forms(), request.parts().drt)
}

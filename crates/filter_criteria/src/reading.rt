//! Reading a filter.
ghost use Rattle.std.specs.Prelude.{◌≡◌, ◌++◌, ◌∷◌, [], IfOk, OnOk, OnErr, IfSome, IsSome, IsUtf8};
ghost use Rattle.std.specs.Prelude.{is_some, option_map};
ghost use Rattle.std.specs.List.{AllByRecursion, filter_map, list_all};
ghost use Rattle.std.specs.Option.{option_copied};
ghost use Rattle.m2m_value.specs.Shapes.{is_label};
ghost use Rattle.filter_criteria.specs.Bounds.{IsMoment, IsCount};
ghost use Rattle.filter_criteria.specs.Conditions as spec;
ghost use Rattle.filter_criteria.specs.Values as shared;

use crate::condition::{Condition, Sort};
use crate::filter::{Filter, FilterParts, FilterUsage};
use crate::values::{owned_text, read_type_number, value_at};
use m2m_names::read_stamp;
use m2m_value::{Labels, MemberKey, Numbers, Text, Val, is_label_text};
use std::alloc::{AllocError as OutOfMemory, Global};
use std::slice;

fn read_moment(value: &Val) -> Option<u64>
    ensures value { result ≡ spec.read_moment value.now }
    ensures bound { IfSome result IsMoment }
{
    read_stamp(value.as_text()?.entries())
}

fn read_usage(value: &Val) -> Option<FilterUsage>
    ensures { result ≡ spec.read_usage value.now }
{
    FilterUsage::numbered(value.as_num()?)
}

/// The values of which one is to hold: the elements of a list, and any other value alone.
fn alternatives(value: &Val) -> &[Val]
    ensures { result.now ≡ spec.alternatives value.now }
{
    match value.as_list() {
        Some(items) => items.entries(),
        None => slice::from_ref(value),
    }
}

fn all_labels(values: &[Val]) -> bool
    ensures { result ≡ list_all is_label values.now }
{
    values.iter().all(|value| value.is_label())
}

fn all_types(values: &[Val]) -> bool
    ensures { result ≡ list_all (λ d. is_some (shared.read_type_number d)) values.now }
{
    values.iter().all(|value| read_type_number(value).is_some())
}

fn is_of_sort(sort: Sort, value: &Val) -> bool
    ensures { result ≡ spec.is_of sort value.now }
{
    match sort {
        Sort::Moment => read_moment(value).is_some(),
        Sort::Count => value.as_count().is_some(),
        Sort::Labels => all_labels(alternatives(value)),
        Sort::Types => all_types(alternatives(value)),
        Sort::Use => read_usage(value).is_some(),
    }
}

fn is_condition(entry: &(MemberKey, Val)) -> bool
    ensures { result ≡ spec.is_condition entry.now }
{
    match Condition::named(entry.0.entries()) {
        Some(condition) => is_of_sort(condition.sort(), &entry.1),
        None => false,
    }
}

fn are_conditions(entries: &[(MemberKey, Val)]) -> bool
    ensures { result ≡ list_all spec.is_condition entries.now }
{
    entries.iter().all(|entry| is_condition(entry))
}

/// Whether the value is an object of conditions.
pub fn is_filter(value: &Val) -> bool
    ensures { result ≡ spec.is_filter value.now }
{
    match value.as_obj() {
        Some(members) => are_conditions(members.entries()),
        None => false,
    }
}

fn moment_for(filter: &Val, condition: Condition) -> Option<u64>
    ensures value { result
        ≡ spec.read_of_sort Sort.Moment (spec.value_for condition (shared.members_in filter.now)) }
    ensures bound { IfSome result IsMoment }
{
    read_moment(value_at(filter, condition.name())?)
}

fn count_for(filter: &Val, condition: Condition) -> Option<u64>
    ensures value { result
        ≡ spec.read_of_sort Sort.Count (spec.value_for condition (shared.members_in filter.now)) }
    ensures bound { IfSome result IsCount }
{
    value_at(filter, condition.name())?.as_count()
}

fn usage_in(filter: &Val) -> Option<FilterUsage>
    ensures { result ≡ spec.said_of Condition.Usage (shared.members_in filter.now) }
{
    read_usage(value_at(filter, Condition::Usage.name())?)
}

/// Puts the number of a type that the value is behind the others.
fn push_type_number(types: &mut Vec<u64>, value: &Val) -> Result<(), OutOfMemory>
    ensures items { OnOk result (types.new.items
        ≡ types.old.items ++ filter_map shared.read_type_number (value.now ∷ [])) }
    ensures counts { OnOk result (AllByRecursion IsCount types.old.items
        → AllByRecursion IsCount types.new.items) }
{
    if let Some(number) = read_type_number(value) {
        types.push(u64::from(number))?;
    }
    Ok(())
}

fn types_of(alloc: Global, value: &Val) -> Result<Numbers, OutOfMemory>
    ensures value { IfOk result (λ t. t ≡ spec.all_of shared.read_type_number value.now) }
    ensures counts { IfOk result (AllByRecursion IsCount) }
{
    let parts = alternatives(value);
    let mut numbers = Vec::with_capacity(alloc, parts.len())?;
    for part in parts {
        push_type_number(&mut numbers, part)?;
    }
    Ok(Numbers::of(numbers))
}

fn types_in(alloc: Global, filter: &Val) -> Result<Numbers, OutOfMemory>
    ensures value { IfOk result (λ t.
        t ≡ spec.said_of Condition.OneType (shared.members_in filter.now)) }
    ensures counts { IfOk result (AllByRecursion IsCount) }
{
    match value_at(filter, Condition::OneType.name()) {
        Some(value) => types_of(alloc, value),
        None => Ok(Numbers::of(Vec::new(alloc))),
    }
}

/// The filter that the members make, but for its labels.
pub fn plain_filter(alloc: Global, filter: &Val) -> Result<Filter, OutOfMemory>
    ensures { IfOk result
        (λ f. f ≡ spec.relabelled [] (spec.filter_in (shared.members_in filter.now))) }
{
    let parts = FilterParts {
        crb: moment_for(filter, Condition::CreatedBefore),
        cra: moment_for(filter, Condition::CreatedAfter),
        ms: moment_for(filter, Condition::ModifiedSince),
        us: moment_for(filter, Condition::UnmodifiedSince),
        sts: count_for(filter, Condition::StateTagSmaller),
        stb: count_for(filter, Condition::StateTagBigger),
        exb: moment_for(filter, Condition::ExpireBefore),
        exa: moment_for(filter, Condition::ExpireAfter),
        lbl: Labels::of(Vec::new(alloc)),
        ty: types_in(alloc, filter)?,
        sza: count_for(filter, Condition::SizeAbove),
        szb: count_for(filter, Condition::SizeBelow),
        fu: usage_in(filter),
        lim: count_for(filter, Condition::Limit),
    };
    Filter::of(alloc, parts)
}

/// The same alternatives, moved out of the value, or copied where a copy of the value has them too.
#[tactic(auto, using(crate::proofs::Lists::alternatives_rules))]
fn alternatives_from(alloc: Global, value: Val) -> Result<Vec<Val>, OutOfMemory>
    ensures { IfOk result (λ parts. parts.items ≡ spec.alternatives value) }
{
    match value.into_list(alloc)? {
        Ok(items) => Ok(items.into_vec()),
        Err(value) => {
            let mut parts = Vec::with_capacity(alloc, 1)?;
            parts.push(value)?;
            Ok(parts)
        }
    }
}

/// The label that a value is.
fn owned_label(value: Val) -> Option<Text>
    ensures value { result ≡ spec.label_of value }
    ensures utf8 { IfSome result IsUtf8 }
{
    match owned_text(Some(value)) {
        Some(text) if is_label_text(text.entries()) => Some(text),
        _ => None,
    }
}

/// Puts the label that the value is behind the others.
fn push_label(labels: &mut Vec<Text>, value: Val) -> Result<(), OutOfMemory>
    ensures items { OnOk result (labels.new.items
        ≡ labels.old.items ++ filter_map spec.label_of (value ∷ [])) }
    ensures utf8 { OnOk result (AllByRecursion IsUtf8 labels.old.items
        → AllByRecursion IsUtf8 labels.new.items) }
{
    if let Some(label) = owned_label(value) {
        labels.push(label)?;
    }
    Ok(())
}

fn labels_of(alloc: Global, value: Val) -> Result<Labels, OutOfMemory>
    ensures value { IfOk result (λ l. l ≡ spec.all_of spec.label_of value) }
    ensures utf8 { IfOk result (AllByRecursion IsUtf8) }
{
    let parts = alternatives_from(alloc, value)?;
    let mut texts = Vec::with_capacity(alloc, parts.len())?;
    for part in parts {
        push_label(&mut texts, part)?;
    }
    Ok(Labels::of(texts))
}

/// The labels of the value at `lbl`, if there is one, moved out of it.
pub fn labels_from(alloc: Global, value: Option<Val>) -> Result<Labels, OutOfMemory>
    ensures value { IfOk result (λ l. l ≡ spec.labels_of value) }
    ensures utf8 { IfOk result (AllByRecursion IsUtf8) }
    // No memory is taken where there is none.
    ensures memory { OnErr result (IsSome value) }
{
    match value {
        Some(value) => labels_of(alloc, value),
        None => Ok(Labels::of(Vec::new(alloc))),
    }
}

/// The filter, if there is one, with these labels.
pub fn labelled(filter: Option<Filter>, labels: Labels) -> Option<Filter>
    requires { AllByRecursion IsUtf8 labels }
    ensures { result ≡ option_map (spec.relabelled labels) filter }
{
    match filter {
        Some(filter) => Some(filter.with_labels(labels)),
        None => None,
    }
}

//! Filters as values.
ghost use Rattle.std.specs.Prelude.{◌≡◌, map, IfOk, IsUtf8, option_map};
ghost use Rattle.std.specs.List.{AllByRecursion};
ghost use Rattle.std.specs.Option.{ForSome};
ghost use Rattle.m2m_value.specs.Data as plain;
ghost use Rattle.filter_criteria.specs.Bounds.{IsMoment, IsCount};
ghost use Rattle.filter_criteria.specs.Conditions.{usage_number};
ghost use Rattle.filter_criteria.specs.Filters.{IsSoundFilter};
ghost use Rattle.filter_criteria.specs.Values as shared;
ghost use Rattle.filter_criteria.specs.Writing as spec;

use crate::condition::Condition;
use crate::filter::{FilterParts, FilterUsage};
use crate::values::{moment_value, push_member, sorted_object, text_value};
use m2m_value::{Items, Text, Val};
use std::alloc::{AllocError as OutOfMemory, Global};

fn moment_there(alloc: Global, at: Option<u64>) -> Result<Option<Val>, OutOfMemory>
    requires { ForSome at IsMoment }
    ensures { IfOk result (λ v. v ≡ option_map shared.moment_data at) }
{
    match at {
        Some(at) => Ok(Some(moment_value(alloc, at)?)),
        None => Ok(None),
    }
}

fn count_there(n: Option<u64>) -> Option<Val>
    requires { ForSome n IsCount }
    ensures { result ≡ option_map shared.count_data n }
{
    match n {
        Some(n) => Some(Val::of_num(n as i64)),
        None => None,
    }
}

fn usage_there(usage: Option<FilterUsage>) -> Option<Val>
    ensures { result ≡ option_map (λ u. plain.number (usage_number u)) usage }
{
    match usage {
        Some(usage) => Some(Val::of_num(usage.number())),
        None => None,
    }
}

/// A list with an element at least.
fn filled_list(values: Vec<Val>) -> Option<Val>
    ensures { result ≡ spec.filled_list values.items }
{
    if values.is_empty() {
        None
    } else {
        Some(Val::of_list(Items::of(values)))
    }
}

fn label_list(alloc: Global, labels: &[Text]) -> Result<Option<Val>, OutOfMemory>
    requires { AllByRecursion IsUtf8 labels.now }
    ensures { IfOk result (λ v. v ≡ spec.filled_list (map plain.text labels.now)) }
{
    let mut values = Vec::with_capacity(alloc, labels.len())?;
    for label in labels {
        values.push(text_value(alloc, label)?)?;
    }
    Ok(filled_list(values))
}

fn type_list(alloc: Global, types: &[u64]) -> Result<Option<Val>, OutOfMemory>
    requires { AllByRecursion IsCount types.now }
    ensures { IfOk result (λ v. v ≡ spec.filled_list (map shared.count_data types.now)) }
{
    let mut values = Vec::with_capacity(alloc, types.len())?;
    for number in types {
        values.push(Val::of_num(*number as i64))?;
    }
    Ok(filled_list(values))
}

/// What is written of a condition.
fn condition_value(
    alloc: Global,
    filter: &FilterParts,
    condition: Condition,
) -> Result<Option<Val>, OutOfMemory>
    requires { IsSoundFilter filter.now }
    ensures { IfOk result (λ v. v ≡ spec.condition_value filter.now condition) }
{
    match condition {
        Condition::CreatedAfter => moment_there(alloc, filter.cra),
        Condition::CreatedBefore => moment_there(alloc, filter.crb),
        Condition::ExpireAfter => moment_there(alloc, filter.exa),
        Condition::ExpireBefore => moment_there(alloc, filter.exb),
        Condition::Usage => Ok(usage_there(filter.fu)),
        Condition::OneLabel => label_list(alloc, filter.lbl.entries()),
        Condition::Limit => Ok(count_there(filter.lim)),
        Condition::ModifiedSince => moment_there(alloc, filter.ms),
        Condition::StateTagBigger => Ok(count_there(filter.stb)),
        Condition::StateTagSmaller => Ok(count_there(filter.sts)),
        Condition::SizeAbove => Ok(count_there(filter.sza)),
        Condition::SizeBelow => Ok(count_there(filter.szb)),
        Condition::OneType => type_list(alloc, filter.ty.entries()),
        Condition::UnmodifiedSince => moment_there(alloc, filter.us),
    }
}

/// The filter as a value: an object of the conditions that are there.
pub fn write_filter(alloc: Global, filter: &FilterParts) -> Result<Val, OutOfMemory>
    requires { IsSoundFilter filter.now }
    ensures { IfOk result (λ v. v ≡ spec.written_filter filter.now) }
{
    let mut entries = Vec::with_capacity(alloc, Condition::ALL.len())?;
    for condition in Condition::ALL {
        let value = condition_value(alloc, filter, condition)?;
        push_member(&mut entries, condition.name(), value)?;
    }
    Ok(sorted_object(entries))
}

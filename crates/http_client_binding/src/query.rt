//! The query of a request.
ghost use Rattle.std.specs.Prelude.{◌≡◌, ◌++◌, IfOk, OnOk, map, option_map};
ghost use Rattle.std.specs.Fmt.{decimal};
ghost use Rattle.std.specs.Option.{ForSome};
ghost use Rattle.form_urlencoded.specs.Form as form;
ghost use Rattle.filter_criteria.specs.Bounds.{IsMoment};
ghost use Rattle.filter_criteria.specs.Conditions.{usage_number};
ghost use Rattle.filter_criteria.specs.Filters.{IsSoundFilter};
ghost use Rattle.http_client_binding.specs.QueryWriting as spec;

use crate::OutOfMemory;
use filter_criteria::{Condition, Filter, FilterParts, FilterUsage};
use form_urlencoded::byte_serialize;
use itoa::Buffer;
use m2m_names::write_stamp;
use m2m_value::Text;
use primitive_json::{Member, RequestParts};
use std::alloc::Global;

/// The conditions in the order in which they are written.
const WRITTEN_ORDER: [Condition; 14] = [
    Condition::CreatedBefore,
    Condition::CreatedAfter,
    Condition::ModifiedSince,
    Condition::UnmodifiedSince,
    Condition::StateTagSmaller,
    Condition::StateTagBigger,
    Condition::ExpireBefore,
    Condition::ExpireAfter,
    Condition::OneLabel,
    Condition::OneType,
    Condition::SizeAbove,
    Condition::SizeBelow,
    Condition::Usage,
    Condition::Limit,
];

/// Appends a key or a value as a form writes it.
fn append_escaped(out: &mut Vec<u8>, text: &[u8]) -> Result<(), OutOfMemory>
    ensures { OnOk result (out.new.items ≡ out.old.items ++ form.byte_serialize text.now) }
{
    for piece in byte_serialize(text) {
        out.extend_from_slice(piece.as_bytes())?;
    }
    Ok(())
}

/// Appends the mark between two pairs, where there is a pair.
fn append_separator(out: &mut Vec<u8>) -> Result<(), OutOfMemory>
    ensures { OnOk result (out.new.items ≡ out.old.items ++ form.separator out.old.items) }
{
    if !out.is_empty() {
        out.push(b'&')?;
    }
    Ok(())
}

/// Appends one more pair to a form.
fn append_pair(out: &mut Vec<u8>, key: &str, value: &[u8]) -> Result<(), OutOfMemory>
    ensures { OnOk result (out.new.items ≡ form.append_pair out.old.items key.now value.now) }
{
    append_separator(out)?;
    append_escaped(out, key.as_bytes())?;
    out.push(b'=')?;
    append_escaped(out, value)
}

/// Appends a pair with a number from 0.
fn append_number(out: &mut Vec<u8>, key: &str, n: u64) -> Result<(), OutOfMemory>
    ensures { OnOk result (out.new.items ≡ form.append_pair out.old.items key.now (decimal n)) }
{
    append_pair(out, key, Buffer::new().format(n).as_bytes())
}

/// Appends the pair of a whole number, where there is one.
fn append_whole(out: &mut Vec<u8>, key: &str, n: Option<i64>) -> Result<(), OutOfMemory>
    ensures { OnOk result (out.new.items
        ≡ form.extend_pairs out.old.items (spec.pairs_at key.now (spec.whole_texts n))) }
{
    match n {
        Some(n) => append_pair(out, key, Buffer::new().format(n).as_bytes()),
        None => Ok(()),
    }
}

/// Appends the pair of a moment, where there is one.
fn append_moment(out: &mut Vec<u8>, key: &str, at: Option<u64>) -> Result<(), OutOfMemory>
    requires { ForSome at IsMoment }
    ensures { OnOk result (out.new.items
        ≡ form.extend_pairs out.old.items (spec.pairs_at key.now (spec.moment_texts at))) }
{
    let Some(at) = at else {
        return Ok(());
    };
    let mut stamp = [0; 15];
    let _written = write_stamp(at, &mut stamp);
    append_pair(out, key, &stamp)
}

/// Appends the pair of a count, where there is one.
fn append_count(out: &mut Vec<u8>, key: &str, n: Option<u64>) -> Result<(), OutOfMemory>
    ensures { OnOk result (out.new.items
        ≡ form.extend_pairs out.old.items (spec.pairs_at key.now (spec.count_texts n))) }
{
    match n {
        Some(n) => append_number(out, key, n),
        None => Ok(()),
    }
}

/// Appends a pair for each label.
fn append_labels(out: &mut Vec<u8>, key: &str, labels: &[Text]) -> Result<(), OutOfMemory>
    ensures { OnOk result (out.new.items
        ≡ form.extend_pairs out.old.items (spec.pairs_at key.now labels.now)) }
{
    for label in labels {
        append_pair(out, key, label.entries())?;
    }
    Ok(())
}

/// Appends a pair for each number of a type.
fn append_types(out: &mut Vec<u8>, key: &str, types: &[u64]) -> Result<(), OutOfMemory>
    ensures { OnOk result (out.new.items
        ≡ form.extend_pairs out.old.items (spec.pairs_at key.now (map decimal types.now))) }
{
    for number in types {
        append_number(out, key, *number)?;
    }
    Ok(())
}

/// The number of a use, where there is one.
fn number_of_use(usage: Option<FilterUsage>) -> Option<i64>
    ensures { result ≡ option_map usage_number usage }
{
    match usage {
        Some(usage) => Some(usage.number()),
        None => None,
    }
}

/// Appends what a filter has of a condition.
fn append_condition(
    out: &mut Vec<u8>,
    filter: &FilterParts,
    condition: Condition,
) -> Result<(), OutOfMemory>
    requires { IsSoundFilter filter.now }
    ensures { OnOk result (out.new.items
        ≡ form.extend_pairs out.old.items (spec.condition_pairs filter.now condition)) }
{
    let key = condition.name();
    match condition {
        Condition::CreatedAfter => append_moment(out, key, filter.cra),
        Condition::CreatedBefore => append_moment(out, key, filter.crb),
        Condition::ExpireAfter => append_moment(out, key, filter.exa),
        Condition::ExpireBefore => append_moment(out, key, filter.exb),
        Condition::Usage => append_whole(out, key, number_of_use(filter.fu)),
        Condition::OneLabel => append_labels(out, key, filter.lbl.entries()),
        Condition::Limit => append_count(out, key, filter.lim),
        Condition::ModifiedSince => append_moment(out, key, filter.ms),
        Condition::StateTagBigger => append_count(out, key, filter.stb),
        Condition::StateTagSmaller => append_count(out, key, filter.sts),
        Condition::SizeAbove => append_count(out, key, filter.sza),
        Condition::SizeBelow => append_count(out, key, filter.szb),
        Condition::OneType => append_types(out, key, filter.ty.entries()),
        Condition::UnmodifiedSince => append_moment(out, key, filter.us),
    }
}

/// Appends all conditions of a filter.
fn append_conditions(out: &mut Vec<u8>, filter: &FilterParts) -> Result<(), OutOfMemory>
    requires { IsSoundFilter filter.now }
    ensures { OnOk result (out.new.items
        ≡ form.extend_pairs out.old.items (spec.filter_pairs (Some filter.now))) }
{
    for condition in WRITTEN_ORDER {
        append_condition(out, filter, condition)?;
    }
    Ok(())
}

/// Appends the filter, where there is one.
fn append_filter(out: &mut Vec<u8>, filter: &Option<Filter>) -> Result<(), OutOfMemory>
    ensures { OnOk result (out.new.items
        ≡ form.extend_pairs out.old.items (spec.filter_pairs filter.now)) }
{
    match filter {
        Some(filter) => append_conditions(out, filter.parts()),
        None => Ok(()),
    }
}

/// The query of a request.
pub(crate) fn query_text(alloc: Global, request: &RequestParts) -> Result<Vec<u8>, OutOfMemory>
    ensures { IfOk result (λ query. query.items ≡ spec.query_text request.now) }
{
    let mut query = Vec::new(alloc);
    append_whole(&mut query, Member::ResultContent.name(), request.rcn)?;
    append_filter(&mut query, &request.fc)?;
    append_whole(&mut query, Member::DesiredForm.name(), request.drt)?;
    Ok(query)
}

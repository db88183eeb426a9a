//! Counts, and lists of them.
ghost use Rattle.std.specs.Prelude.{◌≡◌, ◌<◌, IfOk, IfSome};
ghost use Rattle.m2m_names.specs.Ids.{count_bound};
ghost use Rattle.entity_lines.specs.Values as spec;

use m2m_value::{Items, OutOfMemory, Val};
use std::alloc::Global;

/// A count as a value.
pub(crate) fn count_value(count: u64) -> Val
    requires { count < count_bound }
    ensures { result ≡ spec.count_data count }
{
    Val::of_num(count as i64)
}

/// Two values as a list.
pub(crate) fn pair_value(alloc: Global, first: Val, second: Val) -> Result<Val, OutOfMemory>
    ensures { IfOk result (λ v. v ≡ spec.pair_data first second) }
{
    let mut items = Vec::with_capacity(alloc, 2)?;
    items.push(first)?;
    items.push(second)?;
    Ok(Val::of_list(Items::of(items)))
}

/// Three values as a list.
pub(crate) fn triple_value(
    alloc: Global,
    first: Val,
    second: Val,
    third: Val,
) -> Result<Val, OutOfMemory>
    ensures { IfOk result (λ v. v ≡ spec.triple_data first second third) }
{
    let mut items = Vec::with_capacity(alloc, 3)?;
    items.push(first)?;
    items.push(second)?;
    items.push(third)?;
    Ok(Val::of_list(Items::of(items)))
}

/// The values of a list; any other value has none.
pub(crate) fn values_in(value: &Val) -> &[Val]
    ensures { result.now ≡ spec.values_in value.now }
{
    match value.as_list() {
        Some(items) => items.entries(),
        None => &[],
    }
}

//! The policies that a content names, by addresses.
ghost use Rattle.std.specs.Prelude.{◌≡◌, IfOk, IfSome, None, Some, is_some};
ghost use Rattle.std.specs.Prelude.{if◌then◌else◌, option_and_then, option_map};
ghost use Rattle.std.specs.List.{list_all};
ghost use Rattle.addressing.specs.Laws.{spot_named};
ghost use Rattle.request_rules.specs.Judged.{AreLinksOf};
ghost use Rattle.request_rules.specs.Policies as spec;

use crate::allowed::Links;
use addressing::{AddrFault, Spot, name_spot, parse};
use attribute_rules::value_named;
use entity_model::Entity;
use m2m_names::Attr;
use m2m_value::{Members, Val};
use policy_eval::{listed_in, policy_at};
use std::alloc::{AllocError as OutOfMemory, Global};
use tree_model::{Resource, Tree};

/// What an address names in the tree.
pub(crate) fn spot_named<T: Tree>(
    alloc: Global,
    entity: &Entity<T>,
    address: &[u8],
) -> Result<Option<Spot>, OutOfMemory>
    ensures { IfOk result (λ s. s ≡ spot_named entity.now.home address.now entity.now.nodes) }
{
    match parse(alloc, address, &entity.home) {
        Ok(addr) => Ok(name_spot(&entity.tree, &addr)),
        Err(AddrFault::TooLong) => Ok(None),
        Err(AddrFault::Shape) => Ok(None),
        Err(AddrFault::OutOfMemory) => Err(OutOfMemory),
    }
}

fn policy_on<T: Tree>(tree: &T, spot: Option<Spot>) -> Option<&Resource>
    ensures { option_map (λ r. r.now) result
        ≡ option_and_then (spec.policy_on (T.nodes tree.now)) spot }
{
    match spot {
        Some(Spot::Resource(number)) => policy_at(tree, number),
        _ => None,
    }
}

// The live policy that the address leads to which a value is.
fn policy_meant<'a, T: Tree>(
    alloc: Global,
    entity: &'a Entity<T>,
    value: &Val,
) -> Result<Option<&'a Resource>, OutOfMemory>
    ensures { IfOk result (λ found. option_map (λ r. r.now) found
        ≡ spec.policy_meant entity.now value.now) }
{
    match value.as_text() {
        Some(text) => {
            let spot = spot_named(alloc, entity, text.entries())?;
            Ok(policy_on(&entity.tree, spot))
        }
        None => Ok(None),
    }
}

/// The values that an attribute lists in a content.
pub(crate) fn listed(attr: Attr, members: &Members) -> &[Val]
    ensures { result.now ≡ spec.listed attr members.now }
{
    listed_in(value_named(attr, members))
}

// The resource ids of the policies that these lead to, in order and with repeats, where each leads
// to a live one.
fn live_ids<T: Tree>(
    alloc: Global,
    entity: &Entity<T>,
    values: &[Val],
) -> Result<Option<Vec<Val>>, OutOfMemory>
    ensures { IfOk result (λ found. option_map (λ v. v.items) found
        ≡ (if list_all (λ d. is_some (spec.policy_meant entity.now d)) values.now
        then Some (spec.policy_ids entity.now values.now) else None)) }
{
    let mut ids = Vec::with_capacity(alloc, values.len())?;
    for value in values {
        let Some(policy) = policy_meant(alloc, entity, value)? else {
            return Ok(None);
        };
        ids.push(Val::of_text(policy.id(alloc)?))?;
    }
    Ok(Some(ids))
}

/// Whatever policies the content names, where all of them are live.
pub(crate) fn links_named<T: Tree>(
    alloc: Global,
    entity: &Entity<T>,
    members: &Members,
) -> Result<Option<Links>, OutOfMemory>
    ensures live { IfOk result (λ found. is_some found ≡ spec.links_live entity.now members.now) }
    ensures links { IfOk result (λ found. IfSome found (AreLinksOf entity.now members.now)) }
{
    let Some(acpi) = live_ids(alloc, entity, listed(Attr::Acpi, members))? else {
        return Ok(None);
    };
    let Some(macp) = live_ids(alloc, entity, listed(Attr::Macp, members))? else {
        return Ok(None);
    };
    Ok(Some(Links { acpi, macp }))
}

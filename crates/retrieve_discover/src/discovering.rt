//! Discovery.
ghost use Rattle.std.specs.Prelude.{◌≡◌, IfOk, IsTrue, Some, map, take};
ghost use Rattle.std.specs.Option.{option_copied};
ghost use Rattle.m2m_names.specs.Name.{is_originator};
ghost use Rattle.tree_model.specs.Tree.{at, has, is_tree};
ghost use Rattle.retrieve_discover.specs.Findings as spec;
ghost use Rattle.retrieve_discover.specs.Replies.{discovered};

use crate::asked::Asked;
use crate::finding::{Discovery, find_below};
use crate::paths::path_to;
use crate::references::MOST_LISTED;
use crate::replies::{is_by_id, succeed};
use entity_model::{object_of_one, refuse};
use known_rights::{Asker, Known};
use m2m_names::{DISCOVERY_BIT, Rsc};
use m2m_value::{Items, Val};
use policy_eval::granted;
use primitive_json::{Filter, FilterParts, Reply, Request};
use std::alloc::{AllocError as OutOfMemory, Global};
use tree_model::{Home, Resource, Tree};

/// Answers a discovery below the target: the addresses of those descendants that meet all
/// conditions of the filter and on which the originator has DISCOVERY, each resource before what
/// stands below it, in order of creation; the first `lim`, and 4,096 at most. Structured addresses
/// are given, or resource ids where `drt` is 2; `rcn` is unread. Without DISCOVERY on the target
/// it is refused.
pub fn discover<T: Tree>(
    alloc: Global,
    tree: &T,
    home: &Home,
    originator: &[u8],
    request: &Request,
    target: u64,
) -> Result<Reply, OutOfMemory>
    requires originator { IsTrue (is_originator originator.now) }
    requires resource { IsTrue (has target (T.nodes tree.now)) }
    ensures { IfOk result (λ r. r
        ≡ discovered home.now (T.nodes tree.now) originator.now request.now target) }
{
    if !granted(tree, home, originator, DISCOVERY_BIT, target) {
        return refuse(alloc, request, Rsc::NoPrivilege);
    }
    let filter = request.parts().fc.as_ref();
    let addresses = found_by(
        alloc,
        tree,
        home,
        originator,
        is_by_id(request),
        filter,
        target,
    )?;
    succeed(alloc, request, address_list(alloc, addresses)?)
}

// What is found by a filter; without one nothing is.
fn found_by<T: Tree>(
    alloc: Global,
    tree: &T,
    home: &Home,
    originator: &[u8],
    by_id: bool,
    filter: Option<&Filter>,
    target: u64,
) -> Result<Vec<Val>, OutOfMemory>
    requires originator { IsTrue (is_originator originator.now) }
    requires resource { IsTrue (has target (T.nodes tree.now)) }
    ensures { IfOk result (λ v. v.items
        ≡ spec.found_addresses home.now (T.nodes tree.now) originator.now by_id
        (option_copied filter.entry) target) }
{
    match filter {
        Some(filter) => addresses(alloc, tree, home, originator, by_id, filter.parts(), target),
        None => Ok(Vec::new(alloc)),
    }
}

fn addresses<T: Tree>(
    alloc: Global,
    tree: &T,
    home: &Home,
    originator: &[u8],
    by_id: bool,
    filter: &FilterParts,
    target: u64,
) -> Result<Vec<Val>, OutOfMemory>
    requires originator { IsTrue (is_originator originator.now) }
    requires resource { IsTrue (has target (T.nodes tree.now)) }
    ensures { IfOk result (λ v. v.items ≡ map (spec.address by_id (T.nodes tree.now))
        (spec.found home.now (T.nodes tree.now) originator.now filter.now target)) }
{
    let asker = Asker::of(alloc, home, originator)?;
    let asked = Asked::of(alloc, filter)?;
    addresses_for(alloc, tree, &asker, &asked, by_id, target)
}

fn addresses_for<T: Tree>(
    alloc: Global,
    tree: &T,
    asker: &Asker,
    asked: &Asked,
    by_id: bool,
    target: u64,
) -> Result<Vec<Val>, OutOfMemory>
    requires originator { IsTrue (is_originator asker.now.originator) }
    requires resource { IsTrue (has target (T.nodes tree.now)) }
    ensures { IfOk result (λ v. v.items ≡ map (spec.address by_id (T.nodes tree.now))
        (spec.found asker.now.home (T.nodes tree.now) asker.now.originator asked.now target)) }
{
    let wanted = Discovery {
        tree,
        asker,
        filter: asked,
        by_id,
        limit: limit(asked.filter()),
    };
    from_target(alloc, &wanted, target)
}

fn limit(filter: &FilterParts) -> usize
    ensures { result ≡ spec.most_of filter.now }
{
    let most = MOST_LISTED as u64;
    filter.lim.unwrap_or(most).min(most) as usize
}

fn from_target<T: Tree>(
    alloc: Global,
    wanted: &Discovery<T>,
    target: u64,
) -> Result<Vec<Val>, OutOfMemory>
    requires originator { IsTrue (is_originator wanted.now.asker.now.originator) }
    requires resource { IsTrue (has target (T.nodes wanted.now.tree.now)) }
    ensures { IfOk result (λ v. v.items ≡ take wanted.now.limit
        (map (spec.address wanted.now.by_id (T.nodes wanted.now.tree.now))
        (spec.all_found wanted.now.asker.now.home (T.nodes wanted.now.tree.now)
        wanted.now.asker.now.originator
        wanted.now.filter.now target))) }
{
    match wanted.tree.get(target) {
        Some(resource) => from_resource(alloc, wanted, resource),
        None => Ok(Vec::new(alloc)),
    }
}

fn from_resource<T: Tree>(
    alloc: Global,
    wanted: &Discovery<T>,
    target: &Resource,
) -> Result<Vec<Val>, OutOfMemory>
    requires tree { IsTrue (is_tree (T.nodes wanted.now.tree.now)) }
    requires originator { IsTrue (is_originator wanted.now.asker.now.originator) }
    requires target { at target.now.number (T.nodes wanted.now.tree.now) ≡ Some target.now }
    ensures { IfOk result (λ v. v.items ≡ take wanted.now.limit
        (map (spec.address wanted.now.by_id (T.nodes wanted.now.tree.now))
        (spec.all_found wanted.now.asker.now.home (T.nodes wanted.now.tree.now)
        wanted.now.asker.now.originator
        wanted.now.filter.now target.now.number))) }
{
    let mut path = path_to(alloc, wanted.tree, target)?;
    let mut found = Vec::new(alloc);
    let mut known = Known::nothing(alloc);
    find_below(
        alloc,
        wanted,
        target.number(),
        &mut path,
        &mut found,
        &mut known,
    )?;
    Ok(found)
}

// The object that lists addresses.
fn address_list(alloc: Global, addresses: Vec<Val>) -> Result<Val, OutOfMemory>
    ensures { IfOk result (λ v. v ≡ spec.address_list addresses.items) }
{
    object_of_one(alloc, "m2m:uril", Val::of_list(Items::of(addresses)))
}

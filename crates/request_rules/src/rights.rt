//! The right that a request needs on its target.
ghost use Rattle.std.specs.Prelude.{◌≡◌, IsTrue, Some, option_map};
ghost use Rattle.m2m_names.specs.Name.{is_originator};
ghost use Rattle.tree_model.specs.Tree.{at, has};
ghost use Rattle.request_rules.specs.Rights as spec;

use crate::asking::find;
use entity_model::Entity;
use filter_criteria::FilterUsage;
use m2m_names::{Attr, DISCOVERY_BIT, Op, Ty};
use m2m_value::{MemberKey, Val};
use policy_eval::{granted_on, may_relink};
use primitive_json::Request;
use tree_model::{Resource, Tree};

fn is_granted<T: Tree>(
    entity: &Entity<T>,
    originator: &[u8],
    bits: u32,
    resource: &Resource,
) -> bool
    requires originator { IsTrue (is_originator originator.now) }
    requires stands { at resource.now.number entity.now.nodes ≡ Some resource.now }
    ensures { result ≡ spec.is_granted entity.now originator.now bits resource.now.number }
{
    granted_on(&entity.tree, &entity.home, originator, bits, resource)
}

// ---- kinds of requests

/// Whether it creates a subscription.
pub(crate) fn is_subscribing(request: &Request) -> bool
    ensures { result ≡ spec.is_subscribing request.now }
{
    match request.parts().ty {
        Some(number) => number == Ty::Subscription.number(),
        None => false,
    }
}

/// Whether it looks for resources.
pub fn is_discovery(request: &Request) -> bool
    ensures { result ≡ spec.is_discovery request.now }
{
    match &request.parts().fc {
        Some(filter) => match filter.parts().fu {
            Some(FilterUsage::Discovery) => true,
            Some(FilterUsage::Conditional) | None => false,
        },
        None => false,
    }
}

// The only member of an object.
fn sole(value: &Val) -> Option<&(MemberKey, Val)>
    ensures { option_map (λ e. e.now) result ≡ spec.sole value.now }
{
    match value.as_obj()?.entries() {
        [entry] => Some(entry),
        _ => None,
    }
}

fn is_link(value: &Val) -> bool
    ensures { result ≡ spec.is_link value.now }
{
    match sole(value) {
        Some(entry) => entry.0.entries() == Attr::Acpi.short().as_bytes(),
        None => false,
    }
}

fn is_relink(request: &Request) -> bool
    ensures { result ≡ spec.is_relink request.now }
{
    match &request.parts().pc {
        Some(content) => match sole(content) {
            Some(entry) => is_link(&entry.1),
            None => false,
        },
        None => false,
    }
}

// ---- rights

fn create_bits(request: &Request) -> u32
    ensures { result ≡ spec.create_bits request.now }
{
    let create = Op::Create.bit();
    if is_subscribing(request) {
        create + Op::Retrieve.bit()
    } else {
        create
    }
}

fn retrieve_bits(request: &Request) -> u32
    ensures { result ≡ spec.retrieve_bits request.now }
{
    if is_discovery(request) {
        DISCOVERY_BIT
    } else {
        Op::Retrieve.bit()
    }
}

fn may_update<T: Tree>(
    entity: &Entity<T>,
    originator: &[u8],
    request: &Request,
    resource: &Resource,
) -> bool
    requires originator { IsTrue (is_originator originator.now) }
    requires there { IsTrue (has resource.now.number entity.now.nodes) }
    requires stands { at resource.now.number entity.now.nodes ≡ Some resource.now }
    ensures { result ≡ spec.may_update entity.now originator.now request.now resource.now.number }
{
    if is_relink(request) {
        may_relink(&entity.tree, &entity.home, originator, resource.number())
    } else {
        is_granted(entity, originator, Op::Update.bit(), resource)
    }
}

/// Whether an originator, in its short form, has the right that an operation needs on a resource,
/// which was found: a Create on the parent, and of a subscription RETRIEVE besides; a Retrieve that
/// looks for resources DISCOVERY; an Update of `acpi` alone by who may change that; every other
/// operation its own bit.
pub(crate) fn may_do_on<T: Tree>(
    op: Op,
    entity: &Entity<T>,
    originator: &[u8],
    request: &Request,
    resource: &Resource,
) -> bool
    requires originator { IsTrue (is_originator originator.now) }
    requires there { IsTrue (has resource.now.number entity.now.nodes) }
    requires stands { at resource.now.number entity.now.nodes ≡ Some resource.now }
    ensures { result ≡ spec.may_do op entity.now originator.now request.now resource.now.number }
{
    match op {
        Op::Create => is_granted(entity, originator, create_bits(request), resource),
        Op::Retrieve => is_granted(entity, originator, retrieve_bits(request), resource),
        Op::Update => may_update(entity, originator, request, resource),
        Op::Delete => is_granted(entity, originator, Op::Delete.bit(), resource),
        Op::Notify => is_granted(entity, originator, Op::Notify.bit(), resource),
    }
}

/// Whether an originator, in its short form, has the right that an operation needs on the resource
/// of a number, which the tree has.
pub fn may_do<T: Tree>(
    op: Op,
    entity: &Entity<T>,
    originator: &[u8],
    request: &Request,
    number: u64,
) -> bool
    requires originator { IsTrue (is_originator originator.now) }
    requires resource { IsTrue (has number entity.now.nodes) }
    ensures { result ≡ spec.may_do op entity.now originator.now request.now number }
{
    match find(entity, number) {
        Some(resource) => may_do_on(op, entity, originator, request, resource),
        None => false,
    }
}

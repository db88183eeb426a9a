//! When resources are due.
ghost use Rattle.std.specs.Prelude.{◌≡◌, ◌<◌, IfSome, option_map};
ghost use Rattle.m2m_names.specs.Ids.{count_bound};
ghost use Rattle.m2m_names.specs.declared.attributes.Attr.TheVariants.{Mia};
ghost use Rattle.resource_model.specs.Attributes.{count_at};
ghost use Rattle.tree_model.specs.Tree as spec;

use crate::tree::Tree;
use m2m_names::{Attr, Ty};
use resource_model::Resource;

/// The moment at which a resource is due, in seconds since 1970: its expiry, or of a content
/// instance the earlier of that and of the greatest age that its container allows. The CSEBase has
/// none.
pub fn due<T: Tree>(tree: &T, resource: &Resource) -> Option<u64>
    ensures { result ≡ spec.due (T.nodes tree.now) resource.now }
{
    due_under(tree.get(resource.parent()), resource)
}

/// Whether a resource is due at a moment.
pub fn is_due<T: Tree>(tree: &T, resource: &Resource, moment: u64) -> bool
    ensures { result ≡ spec.is_due (T.nodes tree.now) moment resource.now }
{
    match due(tree, resource) {
        Some(at) => at <= moment,
        None => false,
    }
}

/// The moment at which a resource with this parent is due.
pub fn due_under(parent: Option<&Resource>, resource: &Resource) -> Option<u64>
    ensures { result ≡ spec.due_under (option_map (λ r. r.now) parent.entry) resource.now }
{
    if resource.is(Ty::CseBase) {
        return None;
    }
    if resource.is(Ty::ContentInstance) {
        return Some(due_of_instance(parent, resource));
    }
    Some(resource.et())
}

fn due_of_instance(container: Option<&Resource>, resource: &Resource) -> u64
    ensures { result ≡ spec.end_by (spec.age_of (option_map (λ r. r.now) container.entry))
        resource.now }
{
    earlier(resource.et(), age_end(container, resource))
}

fn age_of(container: Option<&Resource>) -> Option<u64>
    ensures value { result ≡ spec.age_of (option_map (λ r. r.now) container.entry) }
    ensures bound { IfSome result (λ age. age < count_bound) }
{
    container?.attrs().count(Attr::Mia)
}

fn age_end(container: Option<&Resource>, resource: &Resource) -> Option<u64>
    ensures { result ≡ spec.age_end (option_map (λ r. r.now) container.entry) resource.now }
{
    let age = age_of(container)?;
    Some(resource.ct() + age)
}

fn lowered(old: Option<u64>, age: Option<u64>) -> Option<u64>
    ensures { result ≡ spec.lowered_age old age }
{
    match (old, age) {
        (Some(old), Some(age)) if old <= age => None,
        _ => age,
    }
}

/// The greatest age that a container allows its instances, in seconds, where they are due earlier
/// by it than below the one whose place it takes.
pub fn lowered_age(old: Option<&Resource>, container: &Resource) -> Option<u64>
    ensures { result ≡ spec.lowered_age (spec.age_of (option_map (λ r. r.now) old.entry))
        (count_at Mia container.now.attrs) }
{
    lowered(age_of(old), container.attrs().count(Attr::Mia))
}

/// The lesser of a moment and another, where there is one.
pub fn earlier(moment: u64, other: Option<u64>) -> u64
    ensures { result ≡ spec.lesser moment other }
{
    match other {
        Some(other) => moment.min(other),
        None => moment,
    }
}

//! What the conditions of a filter ask of a resource, as a table.
ghost use Rattle.std.specs.Prelude.{◌≡◌, IfOk, option_and_then};
ghost use Rattle.std.specs.List.{list_any};
ghost use Rattle.std.specs.Option.{option_copied};
ghost use Rattle.m2m_names.specs.declared.attributes.Attr.TheVariants.{Lbl};
ghost use Rattle.m2m_value.specs.View.{as_list};
ghost use Rattle.resource_model.specs.Attributes.{value_of};
ghost use Rattle.tree_model.specs.Tree as spec_tree;
ghost use Rattle.retrieve_discover.specs.Asked as spec_asked;
ghost use Rattle.retrieve_discover.specs.Conditions as spec;

use crate::asked::Asked;
use filter_criteria::{Condition, FilterParts};
use m2m_names::{Attr, Ty};
use m2m_value::Val;
use primitive_json::Filter;
use std::alloc::{AllocError as OutOfMemory, Global};
use tree_model::{Resource, Tree, due};

/// Whether the resource meets this condition of the filter; it does where the filter doesn't give
/// it, and how the filter is used, or how much it asks for, is none on a resource. A resource
/// without a state tag meets none on that, and the CSEBase none on when it is due.
pub fn holds<T: Tree>(condition: Condition, tree: &T, asked: &Asked, resource: &Resource) -> bool
    ensures { result ≡ spec.holds condition (T.nodes tree.now) asked.now resource.now }
{
    let filter = asked.filter();
    match condition {
        Condition::CreatedBefore => is_under_bound(filter.crb, Some(resource.ct())),
        Condition::CreatedAfter => is_over_bound(filter.cra, Some(resource.ct())),
        Condition::ModifiedSince => is_over_bound(filter.ms, Some(resource.lt())),
        Condition::UnmodifiedSince => is_under_bound(filter.us, Some(resource.lt())),
        Condition::StateTagSmaller => is_under_bound(filter.sts, resource.attrs().count(Attr::St)),
        Condition::StateTagBigger => is_over_bound(filter.stb, resource.attrs().count(Attr::St)),
        Condition::ExpireBefore => is_due_before(tree, filter.exb, resource),
        Condition::ExpireAfter => is_due_after(tree, filter.exa, resource),
        Condition::OneLabel => has_one_of(asked, resource),
        Condition::OneType => is_of_one(asked, resource),
        Condition::SizeAbove => is_from_bound(filter.sza, size_in(resource)),
        Condition::SizeBelow => is_under_bound(filter.szb, size_in(resource)),
        Condition::Usage | Condition::Limit => true,
    }
}

/// Whether the resource meets all conditions of the filter.
pub fn meets<T: Tree>(tree: &T, asked: &Asked, resource: &Resource) -> bool
    ensures { result ≡ spec.meets (T.nodes tree.now) asked.now resource.now }
{
    Condition::ALL
        .iter()
        .copied()
        .all(|condition| holds(condition, tree, asked, resource))
}

/// Whether the resource meets all conditions, where there is a filter.
pub(crate) fn meets_any<T: Tree>(
    alloc: Global,
    tree: &T,
    filter: Option<&Filter>,
    resource: &Resource,
) -> Result<bool, OutOfMemory>
    ensures { IfOk result (λ meets. meets
        ≡ spec.meets_any (T.nodes tree.now) (option_copied filter.entry) resource.now) }
{
    match filter {
        Some(filter) => meets_filter(alloc, tree, filter.parts(), resource),
        None => Ok(true),
    }
}

fn meets_filter<T: Tree>(
    alloc: Global,
    tree: &T,
    filter: &FilterParts,
    resource: &Resource,
) -> Result<bool, OutOfMemory>
    ensures { IfOk result (λ does. does
        ≡ spec.meets (T.nodes tree.now) filter.now resource.now) }
{
    let asked = Asked::of(alloc, filter)?;
    Ok(meets(tree, &asked, resource))
}

fn is_under_bound(bound: Option<u64>, value: Option<u64>) -> bool
    ensures { result ≡ spec.is_under_bound bound value }
{
    match (bound, value) {
        (None, _) => true,
        (Some(bound), Some(value)) => value < bound,
        (Some(_), None) => false,
    }
}

fn is_over_bound(bound: Option<u64>, value: Option<u64>) -> bool
    ensures { result ≡ spec.is_over_bound bound value }
{
    match (bound, value) {
        (None, _) => true,
        (Some(bound), Some(value)) => bound < value,
        (Some(_), None) => false,
    }
}

// When a resource is due is asked only where there is a bound, since its parent is looked up.
fn is_due_before<T: Tree>(tree: &T, bound: Option<u64>, resource: &Resource) -> bool
    ensures { result ≡ spec.is_under_bound bound (spec_tree.due (T.nodes tree.now) resource.now) }
{
    match bound {
        None => true,
        Some(_) => is_under_bound(bound, due(tree, resource)),
    }
}

fn is_due_after<T: Tree>(tree: &T, bound: Option<u64>, resource: &Resource) -> bool
    ensures { result ≡ spec.is_over_bound bound (spec_tree.due (T.nodes tree.now) resource.now) }
{
    match bound {
        None => true,
        Some(_) => is_over_bound(bound, due(tree, resource)),
    }
}

fn is_from_bound(bound: Option<u64>, value: Option<u64>) -> bool
    ensures { result ≡ spec.is_from_bound bound value }
{
    match (bound, value) {
        (None, _) => true,
        (Some(bound), Some(value)) => bound <= value,
        (Some(_), None) => false,
    }
}

fn size_in(resource: &Resource) -> Option<u64>
    ensures { result ≡ spec.size_in resource.now }
{
    if resource.is(Ty::ContentInstance) {
        resource.attrs().count(Attr::Cs)
    } else {
        None
    }
}

fn has_one_of(asked: &Asked, resource: &Resource) -> bool
    ensures { result ≡ spec.has_one_of asked.now.lbl resource.now }
{
    asked.filter().lbl.entries().is_empty() || has_asked_label(asked, resource)
}

fn has_asked_label(asked: &Asked, resource: &Resource) -> bool
    ensures { result ≡ spec_asked.lists_one_of asked.now.lbl
        (option_and_then as_list (value_of Lbl resource.now.attrs)) }
{
    match resource.attrs().get(Attr::Lbl) {
        Some(labels) => lists_asked(asked, labels),
        None => false,
    }
}

fn lists_asked(asked: &Asked, labels: &Val) -> bool
    ensures { result ≡ spec_asked.lists_one_of asked.now.lbl (as_list labels.now) }
{
    match labels.as_list() {
        Some(items) => is_one_asked(asked, items.entries()),
        None => false,
    }
}

fn is_one_asked(asked: &Asked, values: &[Val]) -> bool
    ensures { result ≡ list_any (spec_asked.is_label_of asked.now.lbl) values.now }
{
    values.iter().any(|value| is_asked(asked, value))
}

fn is_asked(asked: &Asked, value: &Val) -> bool
    ensures { result ≡ spec_asked.is_label_of asked.now.lbl value.now }
{
    match value.as_text() {
        Some(text) => asked.has_label(text.entries()),
        None => false,
    }
}

fn is_of_one(asked: &Asked, resource: &Resource) -> bool
    ensures { result ≡ spec.is_of_one asked.now.ty resource.now }
{
    asked.filter().ty.entries().is_empty() || asked.has_type(u64::from(resource.ty().number()))
}

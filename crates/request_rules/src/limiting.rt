//! The limits on what is created.
ghost use Rattle.std.specs.Prelude.{◌≡◌, nat_lt, not, ◌&&◌, ◌||◌, IsTrue, Some};
ghost use Rattle.m2m_names.specs.declared.types.Ty.TheVariants.{ContentInstance};
ghost use Rattle.resource_model.specs.Resource.{is_ty};
ghost use Rattle.tree_model.specs.Tree.{at, level_of, is_well_formed};
ghost use Rattle.entity_model.specs.Sound.{greatest_depth};
ghost use Rattle.request_rules.specs.Creation as spec;

use attribute_rules::value_named;
use container_limits::is_within;
use entity_model::Entity;
use m2m_names::{Attr, LARGEST_COUNT, Ty};
use m2m_value::Members;
use tree_model::{Resource, Tree};

/// The greatest size of a content instance, in bytes.
const LARGEST_SIZE: u64 = 1_048_576;

/// How deep a resource stands at most, the CSEBase being at depth 1.
const GREATEST_DEPTH: u64 = 32;

/// How many resources there are at most.
const GREATEST_COUNT: u64 = 100_000;

/// How deep an application entity stands: right below the CSEBase.
const AE_DEPTH: u64 = 2;

// Whether a resource stands less deep than this. No other is looked at above an application entity.
fn is_less_deep<T: Tree>(tree: &T, number: u64, bound: u64) -> bool
    requires { IsTrue (is_well_formed (T.nodes tree.now)) }
    ensures { result ≡ nat_lt (level_of number (T.nodes tree.now)) bound }
{
    if bound == 0 {
        return false;
    }
    match tree.get(number) {
        Some(resource) if AE_DEPTH < bound && resource.is(Ty::Ae) => true,
        Some(resource) => is_less_deep(tree, resource.parent(), bound - 1),
        None => true,
    }
}

/// The size of a content that is named, in bytes, and 0 where none is.
pub(crate) fn size_named(members: &Members) -> u64
    ensures { result ≡ spec.size_named members.now }
{
    match value_named(Attr::Con, members) {
        Some(content) => content.size(),
        None => 0,
    }
}

fn is_below(n: u64, bound: Option<u64>) -> bool
    ensures { result ≡ spec.is_below n bound }
{
    match bound {
        Some(most) => n < most,
        None => true,
    }
}

// Whether a container takes an instance of this size.
fn takes_instance(container: &Resource, size: u64) -> bool
    ensures { result ≡ spec.takes_instance container.now size }
{
    let attrs = container.attrs();
    size <= LARGEST_SIZE
        && is_within(size as u128, attrs.count(Attr::Mbs))
        && is_below(0, attrs.count(Attr::Mni))
        && is_below(0, attrs.count(Attr::Mia))
}

// Whether a resource that was found stands less deep than any may.
fn is_above_the_deepest<T: Tree>(entity: &Entity<T>, resource: &Resource) -> bool
    requires { at resource.now.number entity.now.nodes ≡ Some resource.now }
    ensures { result ≡ nat_lt (level_of resource.now.number entity.now.nodes) greatest_depth }
{
    is_less_deep(&entity.tree, resource.parent(), GREATEST_DEPTH - 1)
}

// Whether there is room for one more resource below another, which was found.
fn has_place<T: Tree>(entity: &Entity<T>, parent: &Resource) -> bool
    requires { at parent.now.number entity.now.nodes ≡ Some parent.now }
    ensures { result ≡ spec.has_place entity.now parent.now.number }
{
    entity.tree.len() < GREATEST_COUNT
        && entity.next < LARGEST_COUNT
        && is_above_the_deepest(entity, parent)
}

/// Whether a creation below a resource that was found, of a content of this size if of any, passes
/// no limit.
pub(crate) fn has_room<T: Tree>(entity: &Entity<T>, ty: Ty, parent: &Resource, size: u64) -> bool
    requires { at parent.now.number entity.now.nodes ≡ Some parent.now }
    ensures { result ≡ (spec.has_place entity.now parent.now.number
        && (not (is_ty ty ContentInstance) || spec.takes_instance parent.now size)) }
{
    has_place(entity, parent)
        && (ty.number() != Ty::ContentInstance.number() || takes_instance(parent, size))
}

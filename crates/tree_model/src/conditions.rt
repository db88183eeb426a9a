//! What a caller may test before it changes a tree.
ghost use Rattle.std.specs.Prelude.{◌≡◌, ◌-◌, ◌↔◌, [], not, nat_lt, ◌&&◌, length, slice_get};
ghost use Rattle.std.specs.Prelude.{is_some, true, false, IsTrue, Some, option_map};
ghost use Rattle.std.specs.Option.{option_map_or};
ghost use Rattle.m2m_names.specs.declared.attributes.Attr.TheVariants.{Exc, St};
ghost use Rattle.resource_model.specs.Attributes.{value_of};
ghost use Rattle.resource_model.specs.Resource.{ResourceData, ae_id, cse_id};
ghost use Rattle.tree_model.specs.Tree.{at, has, are_below, is_root, is_placed, has_child};
ghost use Rattle.tree_model.specs.Tree.{has_ae_id, has_cse_id, has_channel, has_counter, has_state};
ghost use Rattle.tree_model.specs.Tree.{may_stand, standing};

use crate::steps::child_named;
use crate::tree::Tree;
use m2m_names::{Attr, Ty};
use m2m_value::Text;
use resource_model::Resource;

/// Whether the resource may be inserted: its number is greater than every other, its parent is
/// there (or it is the CSEBase and the first), and its name, its AE-ID and its CSE-ID are free.
pub fn may_insert<T: Tree>(tree: &T, resource: &Resource) -> bool
    ensures { result ≡ may_stand (T.nodes tree.now) resource.now }
{
    is_above(tree, resource.number()) && is_placed(tree, resource) && is_free(tree, resource)
}

/// Whether the resource may replace the one of its number: that one has the same type, name,
/// parent, AE-ID and CSE-ID.
pub fn may_replace<T: Tree>(tree: &T, resource: &Resource) -> bool
    ensures { IsTrue result ↔ (option_map standing (at resource.now.number
        (T.nodes tree.now)) ≡ Some (standing resource.now)) }
{
    match tree.get(resource.number()) {
        Some(old) => stand_alike(old, resource),
        None => false,
    }
}

/// Whether the resource of a number may be stamped anew: it is there, and has a state tag.
pub fn may_restamp<T: Tree>(tree: &T, number: u64) -> bool
    ensures { result ≡ has_state number (T.nodes tree.now) }
{
    match tree.get(number) {
        Some(resource) => has_tag(resource),
        None => false,
    }
}

fn has_tag(resource: &Resource) -> bool
    ensures { result ≡ is_some (value_of St resource.now.attrs) }
{
    match resource.attrs().get(Attr::St) {
        Some(_) => true,
        None => false,
    }
}

/// Whether the resource of a number may be counted anew: it is there, and counts how many
/// notifications are left.
pub fn may_recount<T: Tree>(tree: &T, number: u64) -> bool
    ensures { result ≡ has_counter number (T.nodes tree.now) }
{
    match tree.get(number) {
        Some(resource) => has_count(resource),
        None => false,
    }
}

fn has_count(resource: &Resource) -> bool
    ensures { result ≡ is_some (value_of Exc resource.now.attrs) }
{
    match resource.attrs().get(Attr::Exc) {
        Some(_) => true,
        None => false,
    }
}

// Numbers ascend, so that the last one decides.
fn is_above<T: Tree>(tree: &T, number: u64) -> bool
    ensures { result ≡ are_below number (T.nodes tree.now) }
{
    let count = tree.len();
    is_lower(tree.nth(count.saturating_sub(1)), number)
}

fn is_lower(last: Option<&Resource>, number: u64) -> bool
    ensures { result ≡ option_map_or (λ (r : ResourceData). nat_lt r.number number) (option_map
        (λ r. r.now) last.entry) true }
{
    match last {
        Some(last) => last.number() < number,
        None => true,
    }
}

fn is_placed<T: Tree>(tree: &T, resource: &Resource) -> bool
    ensures { result ≡ is_placed (T.nodes tree.now) resource.now }
{
    stands_in(tree, resource.parent()) || is_first_of(tree, resource)
}

/// Whether the tree has a resource of this number.
pub fn stands_in<T: Tree>(tree: &T, number: u64) -> bool
    ensures { result ≡ has number (T.nodes tree.now) }
{
    tree.get(number).is_some()
}

fn is_first_of<T: Tree>(tree: &T, resource: &Resource) -> bool
    ensures { result ≡ is_root (T.nodes tree.now) resource.now }
{
    tree.len() == 0 && is_first(resource)
}

fn is_first(resource: &Resource) -> bool
    ensures { result ≡ is_root [] resource.now }
{
    resource.is(Ty::CseBase) && resource.parent() == 0 && resource.number() > 0
}

fn is_free<T: Tree>(tree: &T, resource: &Resource) -> bool
    ensures { result ≡ (not (has_child resource.now.parent resource.now.name (T.nodes tree.now))
        && (not (has_ae_id (ae_id resource.now) (T.nodes tree.now))
        && not (has_cse_id (cse_id resource.now) (T.nodes tree.now)))) }
{
    !is_taken_name(tree, resource) && has_free_ids(tree, resource)
}

fn has_free_ids<T: Tree>(tree: &T, resource: &Resource) -> bool
    ensures { result ≡ (not (has_ae_id (ae_id resource.now) (T.nodes tree.now))
        && not (has_cse_id (cse_id resource.now) (T.nodes tree.now))) }
{
    !is_taken_ae_id(tree, resource.ae_id()) && !is_taken_cse_id(tree, resource.cse_id())
}

fn is_taken_name<T: Tree>(tree: &T, resource: &Resource) -> bool
    ensures { result ≡ has_child resource.now.parent resource.now.name (T.nodes tree.now) }
{
    has_child(tree, resource.parent(), resource.name().entries())
}

/// Whether a resource has a child of this name.
pub fn has_child<T: Tree>(tree: &T, parent: u64, name: &[u8]) -> bool
    ensures { result ≡ has_child parent name.now (T.nodes tree.now) }
{
    child_named(tree, parent, name).is_some()
}

/// Whether an application entity has this AE-ID.
pub fn has_ae<T: Tree>(tree: &T, aei: &[u8]) -> bool
    ensures { result ≡ has_ae_id (Some aei.now) (T.nodes tree.now) }
{
    tree.ae(aei).is_some()
}

/// Whether a remote CSE has this CSE-ID, which begins with its slash.
pub fn has_cse<T: Tree>(tree: &T, csi: &[u8]) -> bool
    ensures { result ≡ has_cse_id (Some csi.now) (T.nodes tree.now) }
{
    tree.cse(csi).is_some()
}

/// Whether a resource has a polling channel.
pub fn has_channel<T: Tree>(tree: &T, parent: u64) -> bool
    ensures { result ≡ has_channel parent (T.nodes tree.now) }
{
    tree.channel(parent).is_some()
}

fn is_taken_ae_id<T: Tree>(tree: &T, aei: Option<&Text>) -> bool
    ensures { result ≡ has_ae_id (option_map (λ t. t.now) aei.entry) (T.nodes tree.now) }
{
    match aei {
        Some(aei) => has_ae(tree, aei.entries()),
        None => false,
    }
}

fn is_taken_cse_id<T: Tree>(tree: &T, csi: Option<&Text>) -> bool
    ensures { result ≡ has_cse_id (option_map (λ t. t.now) csi.entry) (T.nodes tree.now) }
{
    match csi {
        Some(csi) => has_cse(tree, csi.entries()),
        None => false,
    }
}

fn stand_alike(a: &Resource, b: &Resource) -> bool
    ensures { IsTrue result ↔ (standing a.now ≡ standing b.now) }
{
    a.is(b.ty())
        && a.name().entries() == b.name().entries()
        && a.parent() == b.parent()
        && are_equal(a.ae_id(), b.ae_id())
        && are_equal(a.cse_id(), b.cse_id())
}

fn are_equal(a: Option<&Text>, b: Option<&Text>) -> bool
    ensures { IsTrue result ↔ (option_map (λ t. t.now) a.entry ≡ option_map (λ t. t.now) b.entry) }
{
    match (a, b) {
        (Some(x), Some(y)) => x.entries() == y.entries(),
        (None, None) => true,
        _ => false,
    }
}

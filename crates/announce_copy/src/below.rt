//! Whether the deletion of a resource may be announced.
ghost use Rattle.std.specs.Prelude.{◌≡◌, ℕ, [], Some, true, false, IsSome, IsTrue};
ghost use Rattle.std.specs.Option.{option_map_or};
ghost use Rattle.resource_model.specs.Home.{HomeData};
ghost use Rattle.tree_model.specs.Changes.{deletion_changes};
ghost use Rattle.tree_model.specs.Tree.{at, children_of, is_well_formed, number_at};
ghost use Rattle.announce_copy.specs.Below as spec;
ghost use Rattle.announce_copy.specs.Copies.{copies_of_all};

use m2m_names::{Attr, Ty};
use policy_eval::listed_in;
use tree_model::{Resource, Tree};

/// Whether a resource lists a CSE in `at`: where not, it isn't announced, and no instance under it.
pub fn lists_peers(resource: &Resource) -> bool
    ensures { result ≡ spec.lists_peers resource.now }
{
    listed_in(resource.attrs().get(Attr::At))
        .iter()
        .any(|value| value.as_text().is_some())
}

fn does_container_list<T: Tree>(tree: &T, instance: &Resource) -> bool
    ensures { result ≡ option_map_or spec.lists_peers
        (at instance.now.parent (T.nodes tree.now)) false }
{
    match tree.get(instance.parent()) {
        Some(container) => lists_peers(container),
        None => false,
    }
}

fn may_announce<T: Tree>(tree: &T, resource: &Resource) -> bool
    ensures { result ≡ spec.may_announce (T.nodes tree.now) resource.now }
{
    lists_peers(resource)
        && (!resource.is(Ty::ContentInstance) || does_container_list(tree, resource))
}

/// Whether the resource of a number may be announced, or one that stands below it: it lists a CSE
/// in `at`, and of an instance the container does too. Where not, nothing is sent for the deletion.
/// It visits children, but none of a container of which all are instances.
#[cycle(below)]
pub fn announces_below<T: Tree>(tree: &T, number: u64) -> bool
    requires { IsTrue (is_well_formed (T.nodes tree.now)) }
    ensures value { result ≡ spec.announces_below number (T.nodes tree.now) }
    ensures none { result ≡ false → (home : HomeData) → copies_of_all home (T.nodes tree.now)
        (deletion_changes (T.nodes tree.now) number) ≡ [] }
{
    let Some(resource) = tree.get(number) else {
        return false;
    };
    if may_announce(tree, resource) {
        return true;
    }
    // More children than instances aren't all instances, which are announced only where their
    // container is.
    match tree.kid(number, tree.instance_count(number)) {
        Some(_) => does_kid_announce(tree, number),
        None => false,
    }
}

#[cycle(below)]
fn does_kid_announce<T: Tree>(tree: &T, number: u64) -> bool
    requires formed { IsTrue (is_well_formed (T.nodes tree.now)) }
    requires there { IsSome (at number (T.nodes tree.now)) }
    ensures some { result ≡ true → spec.announces_below number (T.nodes tree.now) ≡ true }
    ensures none { result ≡ false → (k m : ℕ)
        → Some m ≡ number_at k (children_of number (T.nodes tree.now))
        → spec.announces_below m (T.nodes tree.now) ≡ false }
{
    for place in 0..tree.len() {
        let Some(kid) = tree.kid(number, place) else {
            return false;
        };
        if announces_below(tree, kid) {
            return true;
        }
    }
    false
}

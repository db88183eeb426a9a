//! Tests of one resource.
ghost use Rattle.std.specs.Prelude.{◌≡◌, is_some, nat_lt};
ghost use Rattle.std.specs.List.{list_all};
ghost use Rattle.m2m_names.specs.declared.attributes.Attr.TheVariants.{St};
ghost use Rattle.policy_eval.specs.Rules as policies;
ghost use Rattle.resource_model.specs.Attributes.{value_of};
ghost use Rattle.tree_model.specs.Tree as trees;
ghost use Rattle.entity_model.specs.Sound as sound;
ghost use Rattle.entity_soundness.specs.Tested as spec;

use attribute_rules::keeps_kinds;
use container_limits::{Limits, is_within};
use m2m_names::{Attr, Ty, is_free_name, read_id};
use m2m_value::Val;
use policy_eval::listed_in;
use tree_model::{Home, Resource, Tree, is_due};

/// The greatest size of a content instance, in bytes.
const LARGEST_SIZE: u64 = 1_048_576;

/// How deep a resource stands at most, the CSEBase being at depth 1.
const GREATEST_DEPTH: u64 = 32;

/// The number in the resource id of a policy.
fn policy_number(id: &[u8]) -> Option<u64>
    ensures { result ≡ policies.policy_number id.now }
{
    let (ty, number) = read_id(id)?;
    if ty.number() == Ty::AccessControlPolicy.number() {
        Some(number)
    } else {
        None
    }
}

fn policy_number_of(id: &Val) -> Option<u64>
    ensures { result ≡ spec.policy_number_of id.now }
{
    policy_number(id.as_text()?.entries())
}

fn is_known_id(id: &Val, next: u64) -> bool
    ensures { result ≡ sound.is_known_id next id.now }
{
    match policy_number_of(id) {
        Some(number) => number < next,
        None => true,
    }
}

fn are_known_ids(ids: &[Val], next: u64) -> bool
    ensures { result ≡ list_all (sound.is_known_id next) ids.now }
{
    ids.iter().all(|id| is_known_id(id, next))
}

fn are_known_at(attr: Attr, resource: &Resource, next: u64) -> bool
    ensures { result ≡ list_all (sound.is_known_id next) (policies.ids_at attr resource.now) }
{
    are_known_ids(listed_in(resource.attrs().get(attr)), next)
}

#[tactic(auto, using(crate::proofs::SoundnessLemmas::known_both))]
fn has_known_ids(resource: &Resource, next: u64) -> bool
    ensures { result ≡ sound.has_known_ids next resource.now }
{
    are_known_at(Attr::Acpi, resource, next) && are_known_at(Attr::Macp, resource, next)
}

fn has_free_name(resource: &Resource) -> bool
    ensures { result ≡ sound.has_free_name resource.now }
{
    is_free_name(resource.name().entries())
}

fn size_of(resource: &Resource) -> u64
    ensures { result ≡ trees.instance_size resource.now }
{
    match resource.attrs().count(Attr::Cs) {
        Some(size) => size,
        None => 0,
    }
}

fn has_size(resource: &Resource) -> bool
    ensures { result ≡ sound.has_size resource.now }
{
    !resource.is(Ty::ContentInstance) || size_of(resource) <= LARGEST_SIZE
}

fn has_tag(resource: &Resource) -> bool
    ensures { result ≡ is_some (value_of St resource.now.attrs) }
{
    match resource.attrs().get(Attr::St) {
        Some(_) => true,
        None => false,
    }
}

fn has_state_tag(resource: &Resource) -> bool
    ensures { result ≡ sound.has_state_tag resource.now }
{
    !resource.is(Ty::Container) || has_tag(resource)
}

fn is_own(csi: &[u8], home: &Home) -> bool
    ensures { result ≡ spec.is_own home.now csi.now }
{
    match csi {
        [b'/', name @ ..] => home.csi().entries() == name,
        _ => false,
    }
}

fn has_other_cse_id(resource: &Resource, home: &Home) -> bool
    ensures { result ≡ spec.has_other_cse_id home.now resource.now }
{
    match resource.cse_id() {
        Some(csi) => !is_own(csi.entries(), home),
        None => true,
    }
}

/// Whether a resource of a number stands less deep than this.
fn is_less_deep<T: Tree>(tree: &T, number: u64, bound: u64) -> bool
    ensures { result ≡ nat_lt (trees.level_of number (T.nodes tree.now)) bound }
{
    if bound == 0 {
        return false;
    }
    match tree.get(number) {
        Some(resource) => is_less_deep(tree, resource.parent(), bound - 1),
        None => true,
    }
}

fn is_shallow<T: Tree>(tree: &T, resource: &Resource) -> bool
    ensures { result ≡ sound.is_shallow (T.nodes tree.now) resource.now }
{
    is_less_deep(tree, resource.number(), GREATEST_DEPTH + 1)
}

fn is_within_limits<T: Tree>(tree: &T, resource: &Resource) -> bool
    ensures { result ≡ sound.is_within_limits (T.nodes tree.now) resource.now }
{
    if !resource.is(Ty::Container) {
        return true;
    }
    let number = resource.number();
    let limits = Limits::of(resource);
    is_within(tree.instance_count(number) as u128, limits.mni)
        && is_within(tree.instance_sizes(number), limits.mbs)
}

/// Whether a resource, where it is a polling channel, is the first of its parent.
fn is_sole_channel<T: Tree>(tree: &T, resource: &Resource) -> bool
    ensures { result ≡ spec.is_sole_channel (T.nodes tree.now) resource.now }
{
    if !resource.is(Ty::PollingChannel) {
        return true;
    }
    match tree.channel(resource.parent()) {
        Some(number) => number == resource.number(),
        None => false,
    }
}

/// Whether its attributes stand in order. They always do, by the type that holds them.
fn keeps_order(resource: &Resource) -> bool
    ensures { result ≡ sound.keeps_order resource.now }
{
    let _rows = resource.attrs().entries();
    true
}

/// Whether it keeps what its type keeps.
fn is_formed(resource: &Resource) -> bool
    ensures { result ≡ spec.is_formed resource.now }
{
    has_free_name(resource)
        && keeps_kinds(resource)
        && keeps_order(resource)
        && has_state_tag(resource)
        && has_size(resource)
}

/// Whether its numbers were given out, and its CSE-ID isn't the own one.
fn is_identified(resource: &Resource, home: &Home, next: u64) -> bool
    ensures { result ≡ spec.is_identified home.now next resource.now }
{
    resource.number() < next && has_known_ids(resource, next) && has_other_cse_id(resource, home)
}

/// Whether it stands where it may, and isn't due.
fn is_located<T: Tree>(tree: &T, resource: &Resource, last: u64) -> bool
    ensures { result ≡ spec.is_located (T.nodes tree.now) last resource.now }
{
    is_shallow(tree, resource)
        && is_within_limits(tree, resource)
        && is_sole_channel(tree, resource)
        && !is_due(tree, resource, last)
}

/// Whether a resource is as each of a sound entity.
pub(crate) fn is_sound<T: Tree>(
    tree: &T,
    home: &Home,
    next: u64,
    last: u64,
    resource: &Resource,
) -> bool
    ensures { result ≡ spec.is_sound home.now (T.nodes tree.now) next last resource.now }
{
    is_formed(resource) && is_identified(resource, home, next) && is_located(tree, resource, last)
}

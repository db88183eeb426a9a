//! The rights of an asker on many resources.
ghost use Rattle.std.specs.Prelude.{◌≡◌, IfSome, IsTrue, Some};
ghost use Rattle.m2m_names.specs.declared.attributes.Attr.TheVariants.{Acpi, Pv};
ghost use Rattle.m2m_names.specs.Name.{is_originator};
ghost use Rattle.resource_model.specs.Attributes.{value_of};
ghost use Rattle.tree_model.specs.Tree.{at};
ghost use Rattle.policy_eval.specs.Rights as spec;
ghost use Rattle.policy_eval.specs.Rules as spec_rules;
ghost use Rattle.known_rights.specs.Known.{IsKnown};
ghost use Rattle.known_rights.specs.Tables.{lent_rules, rules_by_id, NotesOrStays};

use crate::asker::Asker;
use crate::known::{Known, ReadList};
use crate::rules::bits_by_rules;
use m2m_names::{ALL_BITS, Attr, Ty};
use m2m_value::Val;
use policy_eval::{granted_on, has_bits, listed_in, policy_at, policy_number, rules_in};
use tree_model::{Resource, Tree};

// The bits by `pv` of a policy, as its rules are read.
fn read_bits(asker: &Asker, policy: &Resource) -> u32
    ensures { result ≡ spec.bits_by asker.now.home asker.now.originator (lent_rules policy.now) }
{
    bits_by_rules(asker, rules_in(policy.attrs().get(Attr::Pv)))
}

// The bits, and those that the policy of a number gives besides, whose bits are known then.
fn with_policy(asker: &Asker, bits: u32, number: u64, policy: &Resource, known: &mut Known) -> u32
    ensures bits { result
        ≡ spec.with_rules asker.now.home asker.now.originator bits (lent_rules policy.now) }
    ensures policies { NotesOrStays known.old.policies known.new.policies number
        (spec.bits_by asker.now.home asker.now.originator (lent_rules policy.now)) }
    ensures linked { known.new.linked ≡ known.old.linked }
    ensures last { known.new.last ≡ known.old.last }
{
    let own = read_bits(asker, policy);
    known.policies.note(number, own);
    bits | own
}

// The bits, and those that the policy which an id names gives besides. One that is known isn't
// looked up.
fn with_id<T: Tree>(tree: &T, asker: &Asker, bits: u32, id: &Val, known: &mut Known) -> u32
    requires known { IsKnown asker.now.home (T.nodes tree.now) asker.now.originator known.old }
    ensures bits { result ≡ spec.with_rules asker.now.home asker.now.originator bits
        (rules_by_id (T.nodes tree.now) id.now) }
    ensures known { IsKnown asker.now.home (T.nodes tree.now) asker.now.originator known.new }
{
    let Some(number) = policy_number(id) else {
        return bits;
    };
    if let Some(own) = known.policies.bits_at(number) {
        return bits | own;
    }
    match policy_at(tree, number) {
        Some(policy) => with_policy(asker, bits, number, policy, known),
        None => bits,
    }
}

// The bits that the policies which ids name give by `pv`.
fn bits_by_ids<T: Tree>(tree: &T, asker: &Asker, ids: &[Val], known: &mut Known) -> u32
    requires known { IsKnown asker.now.home (T.nodes tree.now) asker.now.originator known.old }
    ensures bits { result ≡ spec.bits_by asker.now.home asker.now.originator
        (spec_rules.rules_by Pv (T.nodes tree.now) ids.now) }
    ensures known { IsKnown asker.now.home (T.nodes tree.now) asker.now.originator known.new }
{
    let mut bits = 0;
    for id in ids {
        bits = with_id(tree, asker, bits, id, known);
    }
    bits
}

// All bits of an owner, and none of anyone else.
fn bits_of_owner(asker: &Asker, resource: &Resource) -> u32
    ensures { result ≡ spec.bits_by asker.now.home asker.now.originator
        (spec_rules.owner_rules resource.now) }
{
    if asker.is_same(resource.owner().entries()) {
        ALL_BITS
    } else {
        0
    }
}

// So many ids in a list, or more, are worth a look whether they are those of the last list.
const MANY: usize = 8;

// The bits by the list that was read last, where this one is the same.
fn known_by_last<T: Tree>(tree: &T, asker: &Asker, acpi: &Val, known: &Known) -> Option<u32>
    requires known { IsKnown asker.now.home (T.nodes tree.now) asker.now.originator known.now }
    ensures { IfSome result (λ bits. bits ≡ spec.bits_by asker.now.home asker.now.originator
        (spec_rules.rules_by Pv (T.nodes tree.now) (spec_rules.listed_in (Some acpi.now)))) }
{
    let read = known.last?;
    let last = tree.get(read.number)?.attrs().get(Attr::Acpi)?;
    if last == acpi { Some(read.bits) } else { None }
}

// The bits that the policies which a long list names give by `pv`: the same list is read once, as
// long as no other comes between.
fn bits_by_list<T: Tree>(
    tree: &T,
    asker: &Asker,
    resource: &Resource,
    acpi: &Val,
    known: &mut Known,
) -> u32
    requires resource { at resource.now.number (T.nodes tree.now) ≡ Some resource.now }
    requires acpi { value_of Acpi resource.now.attrs ≡ Some acpi.now }
    requires known { IsKnown asker.now.home (T.nodes tree.now) asker.now.originator known.old }
    ensures bits { result ≡ spec.bits_by asker.now.home asker.now.originator
        (spec_rules.rules_by Pv (T.nodes tree.now) (spec_rules.listed_in (Some acpi.now))) }
    ensures known { IsKnown asker.now.home (T.nodes tree.now) asker.now.originator known.new }
{
    if let Some(bits) = known_by_last(tree, asker, acpi, known) {
        return bits;
    }
    let bits = bits_by_ids(tree, asker, listed_in(Some(acpi)), known);
    known.last = Some(ReadList {
        number: resource.number(),
        bits,
    });
    bits
}

// By `pv` of the policies that this `acpi` names, or the owner's where it is empty.
fn bits_by_acpi<T: Tree>(
    tree: &T,
    asker: &Asker,
    resource: &Resource,
    acpi: &Val,
    known: &mut Known,
) -> u32
    requires resource { at resource.now.number (T.nodes tree.now) ≡ Some resource.now }
    requires acpi { value_of Acpi resource.now.attrs ≡ Some acpi.now }
    requires known { IsKnown asker.now.home (T.nodes tree.now) asker.now.originator known.old }
    ensures bits { result ≡ spec.bits_by asker.now.home asker.now.originator
        (spec_rules.linked_rules Pv (T.nodes tree.now) resource.now) }
    ensures known { IsKnown asker.now.home (T.nodes tree.now) asker.now.originator known.new }
{
    let ids = listed_in(Some(acpi));
    if ids.is_empty() {
        return bits_of_owner(asker, resource);
    }
    if ids.len() < MANY {
        return bits_by_ids(tree, asker, ids, known);
    }
    bits_by_list(tree, asker, resource, acpi, known)
}

// By `pv` of the policies that `acpi` names, or the owner's where it is absent or empty.
fn linked_bits<T: Tree>(tree: &T, asker: &Asker, resource: &Resource, known: &mut Known) -> u32
    requires resource { at resource.now.number (T.nodes tree.now) ≡ Some resource.now }
    requires known { IsKnown asker.now.home (T.nodes tree.now) asker.now.originator known.old }
    ensures bits { result ≡ spec.bits_by asker.now.home asker.now.originator
        (spec_rules.linked_rules Pv (T.nodes tree.now) resource.now) }
    ensures known { IsKnown asker.now.home (T.nodes tree.now) asker.now.originator known.new }
{
    match resource.attrs().get(Attr::Acpi) {
        Some(acpi) => bits_by_acpi(tree, asker, resource, acpi, known),
        None => bits_of_owner(asker, resource),
    }
}

// The same of a container, which is judged for each of its instances.
fn container_bits<T: Tree>(tree: &T, asker: &Asker, container: &Resource, known: &mut Known) -> u32
    requires container { at container.now.number (T.nodes tree.now) ≡ Some container.now }
    requires known { IsKnown asker.now.home (T.nodes tree.now) asker.now.originator known.old }
    ensures bits { result ≡ spec.bits_by asker.now.home asker.now.originator
        (spec_rules.linked_rules Pv (T.nodes tree.now) container.now) }
    ensures known { IsKnown asker.now.home (T.nodes tree.now) asker.now.originator known.new }
{
    if let Some(bits) = known.linked.bits_at(container.number()) {
        return bits;
    }
    let bits = linked_bits(tree, asker, container, known);
    known.linked.note(container.number(), bits);
    bits
}

// What the container of an instance gives.
fn instance_bits<T: Tree>(tree: &T, asker: &Asker, instance: &Resource, known: &mut Known) -> u32
    requires known { IsKnown asker.now.home (T.nodes tree.now) asker.now.originator known.old }
    ensures bits { result ≡ spec.bits_by asker.now.home asker.now.originator
        (spec_rules.rules_above (spec_rules.linked_rules Pv (T.nodes tree.now)) (T.nodes tree.now)
        instance.now) }
    ensures known { IsKnown asker.now.home (T.nodes tree.now) asker.now.originator known.new }
{
    match tree.get(instance.parent()) {
        Some(container) => container_bits(tree, asker, container, known),
        None => 0,
    }
}

/// Whether the asker has all these bits of `acop` on the resource, which the tree has, as
/// `granted_on` says, by what is known from rights that were asked for before; what is read besides
/// is known then.
pub fn granted_besides<T: Tree>(
    tree: &T,
    asker: &Asker,
    bit: u32,
    resource: &Resource,
    known: &mut Known,
) -> bool
    requires originator { IsTrue (is_originator asker.now.originator) }
    requires resource { at resource.now.number (T.nodes tree.now) ≡ Some resource.now }
    requires known { IsKnown asker.now.home (T.nodes tree.now) asker.now.originator known.old }
    ensures granted { result ≡ spec.grants asker.now.home (T.nodes tree.now) asker.now.originator
        bit resource.now.number }
    ensures known { IsKnown asker.now.home (T.nodes tree.now) asker.now.originator known.new }
{
    if resource.is(Ty::AccessControlPolicy) || resource.is(Ty::PollingChannel) {
        return granted_on(tree, asker.home(), asker.originator(), bit, resource);
    }
    if resource.is(Ty::ContentInstance) {
        return has_bits(instance_bits(tree, asker, resource, known), bit);
    }
    has_bits(linked_bits(tree, asker, resource, known), bit)
}

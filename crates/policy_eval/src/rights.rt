//! The rights of an originator.
ghost use Rattle.std.specs.Prelude.{◌≡◌, [], ◌∷◌, IsTrue, Some, map};
ghost use Rattle.m2m_names.specs.Name.{is_originator};
ghost use Rattle.m2m_names.specs.Operations.{all_bits};
ghost use Rattle.tree_model.specs.Tree.{at, has};
ghost use Rattle.policy_eval.specs.Forms.{IsForm};
ghost use Rattle.policy_eval.specs.Rules as spec_rules;
ghost use Rattle.policy_eval.specs.Rules.{named, texts_of};
ghost use Rattle.policy_eval.specs.Rights as spec;

use crate::originators::{Form, does_name, form_of, is_same, last_byte};
use crate::policies::{bits_of, entries_of, ids_at, policy_named, registree, rules_in};
use m2m_names::{ALL_BITS, Attr, Op, Ty};
use m2m_value::Val;
use tree_model::{Home, Resource, Tree};

/// Whether an entry of `acor` names the originator, whose full form is read apart so.
fn is_subject(home: &Home, originator: &[u8], form: Form, entries: &[Val]) -> bool
    requires { IsForm home.now originator.now form }
    ensures { result ≡ spec.is_subject home.now originator.now (named (texts_of entries.now)) }
{
    let last = last_byte(originator);
    for entry in entries {
        if let Some(text) = entry.as_text() {
            if does_name(home, originator, form, last, text.entries()) {
                return true;
            }
        }
    }
    false
}

fn with_rule(home: &Home, originator: &[u8], form: Form, bits: u32, rule: &Val) -> u32
    requires { IsForm home.now originator.now form }
    ensures { result
        ≡ spec.with_rule home.now originator.now bits (spec_rules.stated_rule rule.now) }
{
    if is_subject(home, originator, form, entries_of(rule)) {
        bits | bits_of(rule)
    } else {
        bits
    }
}

/// The bits, and those that rules give the originator besides, whose full form is read apart so.
/// Who has all bits gets no more.
#[tactic(auto, using(crate::proofs::BitLemmas::all_had))]
fn with_rules_of(home: &Home, originator: &[u8], form: Form, bits: u32, rules: &[Val]) -> u32
    requires { IsForm home.now originator.now form }
    ensures { result
        ≡ spec.with_rules home.now originator.now bits (map spec_rules.stated_rule rules.now) }
{
    let mut bits = bits;
    for rule in rules {
        if bits == ALL_BITS {
            return ALL_BITS;
        }
        bits = with_rule(home, originator, form, bits, rule);
    }
    bits
}

/// The bits, and those that rules give the originator besides. Who has all bits gets no more.
pub fn with_rules(home: &Home, originator: &[u8], bits: u32, rules: &[Val]) -> u32
    ensures { result
        ≡ spec.with_rules home.now originator.now bits (map spec_rules.stated_rule rules.now) }
{
    with_rules_of(home, originator, form_of(home, originator), bits, rules)
}

/// The bits that the policies which ids name give by one of their lists of rules.
fn bits_by_policies<T: Tree>(
    tree: &T,
    home: &Home,
    originator: &[u8],
    attr: Attr,
    ids: &[Val],
) -> u32
    ensures { result
        ≡ spec.bits_by home.now originator.now
        (spec_rules.rules_by attr (T.nodes tree.now) ids.now) }
{
    let form = form_of(home, originator);
    let mut bits = 0;
    for id in ids {
        if let Some(policy) = policy_named(tree, id) {
            let rules = rules_in(policy.attrs().get(attr));
            bits = with_rules_of(home, originator, form, bits, rules);
        }
    }
    bits
}

/// All bits to one originator, and none to any other.
fn only(home: &Home, originator: &[u8], text: &[u8]) -> u32
    ensures { result ≡ spec.bits_by home.now originator.now
        (spec_rules.rule_for (spec_rules.only text.now) all_bits ∷ []) }
{
    if is_same(home, originator, text) {
        ALL_BITS
    } else {
        0
    }
}

/// By one of the two lists of the policies that `acpi` names, or the owner's where it is absent
/// or empty.
fn linked<T: Tree>(tree: &T, home: &Home, originator: &[u8], attr: Attr, resource: &Resource) -> u32
    ensures { result ≡ spec.bits_by home.now originator.now
        (spec_rules.linked_rules attr (T.nodes tree.now) resource.now) }
{
    let ids = ids_at(Attr::Acpi, resource);
    if ids.is_empty() {
        only(home, originator, resource.owner().entries())
    } else {
        bits_by_policies(tree, home, originator, attr, ids)
    }
}

fn of_channel(home: &Home, originator: &[u8], parent: &Resource) -> u32
    ensures { result ≡ spec.bits_by home.now originator.now (spec_rules.channel_rules parent.now) }
{
    match registree(parent) {
        Some(id) => only(home, originator, id),
        None => 0,
    }
}

/// The bits of `acop` that the originator has on the resource, by its rules.
pub fn bits<T: Tree>(tree: &T, home: &Home, originator: &[u8], resource: &Resource) -> u32
    ensures { result
        ≡ spec.bits_by home.now originator.now
        (spec_rules.rules_of (T.nodes tree.now) resource.now) }
{
    if resource.is(Ty::AccessControlPolicy) {
        return with_rules(
            home,
            originator,
            0,
            rules_in(resource.attrs().get(Attr::Pvs)),
        );
    }
    if resource.is(Ty::ContentInstance) {
        return match tree.get(resource.parent()) {
            Some(container) => linked(tree, home, originator, Attr::Pv, container),
            None => 0,
        };
    }
    if resource.is(Ty::PollingChannel) {
        return match tree.get(resource.parent()) {
            Some(parent) => of_channel(home, originator, parent),
            None => 0,
        };
    }
    linked(tree, home, originator, Attr::Pv, resource)
}

/// The bits of `acop` that the originator has for a fan-out to the group, by its rules.
pub fn fan_bits<T: Tree>(tree: &T, home: &Home, originator: &[u8], group: &Resource) -> u32
    ensures { result
        ≡ spec.bits_by home.now originator.now (spec_rules.fan_rules (T.nodes tree.now) group.now) }
{
    let ids = ids_at(Attr::Macp, group);
    if ids.is_empty() {
        bits(tree, home, originator, group)
    } else {
        bits_by_policies(tree, home, originator, Attr::Pv, ids)
    }
}

/// Whether all the wanted bits of `acop` are among those that are had.
pub fn has_bits(had: u32, wanted: u32) -> bool
    ensures { result ≡ spec.has_bits had wanted }
{
    had & wanted == wanted
}

/// Whether the originator has all these bits of `acop` on the resource of the number, by its rules
/// (TS-0001, 9.6.2). It takes no memory, and looks up the resource, its parent where that is
/// judged in its place, and each policy that `acpi` names.
pub fn granted<T: Tree>(tree: &T, home: &Home, originator: &[u8], bit: u32, number: u64) -> bool
    requires originator { IsTrue (is_originator originator.now) }
    requires resource { IsTrue (has number (T.nodes tree.now)) }
    ensures { result ≡ spec.grants home.now (T.nodes tree.now) originator.now bit number }
{
    match tree.get(number) {
        Some(resource) => has_bits(bits(tree, home, originator, resource), bit),
        None => false,
    }
}

/// Whether the originator has all these bits of `acop` on the resource, which the tree has: as
/// `granted` says of its number, with no look-up of the resource itself.
pub fn granted_on<T: Tree>(
    tree: &T,
    home: &Home,
    originator: &[u8],
    bit: u32,
    resource: &Resource,
) -> bool
    requires originator { IsTrue (is_originator originator.now) }
    requires resource { at resource.now.number (T.nodes tree.now) ≡ Some resource.now }
    ensures { result
        ≡ spec.grants home.now (T.nodes tree.now) originator.now bit resource.now.number }
{
    has_bits(bits(tree, home, originator, resource), bit)
}

/// Whether the originator may change `acpi` of the resource of the number: by UPDATE in `pvs` of
/// the policies that it names as it stands, or as the owner where it is absent or empty.
pub fn may_relink<T: Tree>(tree: &T, home: &Home, originator: &[u8], number: u64) -> bool
    requires originator { IsTrue (is_originator originator.now) }
    requires resource { IsTrue (has number (T.nodes tree.now)) }
    ensures { result ≡ spec.relinks home.now (T.nodes tree.now) originator.now number }
{
    match tree.get(number) {
        Some(resource) => has_bits(
            linked(tree, home, originator, Attr::Pvs, resource),
            Op::Update.bit(),
        ),
        None => false,
    }
}

/// Whether the originator has all these bits of `acop` for a fan-out to the group of the number: by
/// `pv` of the policies that `macp` names, or by the rules of the group where it is absent or empty
/// (TS-0001, 9.6.13).
pub fn fan_granted<T: Tree>(tree: &T, home: &Home, originator: &[u8], bit: u32, group: u64) -> bool
    requires originator { IsTrue (is_originator originator.now) }
    requires resource { IsTrue (has group (T.nodes tree.now)) }
    ensures { result ≡ spec.fan_grants home.now (T.nodes tree.now) originator.now bit group }
{
    match tree.get(group) {
        Some(resource) => has_bits(fan_bits(tree, home, originator, resource), bit),
        None => false,
    }
}

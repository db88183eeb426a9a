//! Rules and policies as resources keep them.
ghost use Rattle.std.specs.Prelude.{◌≡◌, codes, map, option_and_then, option_map};
ghost use Rattle.m2m_value.specs.View.{as_text};
ghost use Rattle.policy_eval.specs.Rules as spec;

use filter_criteria::value_among;
use m2m_names::{ALL_BITS, Attr, Ty, read_digits};
use m2m_value::Val;
use tree_model::{Resource, Tree, typed_at};

/// The member of an object. A rule has two of them, so they are gone through.
fn member_at<'a>(value: &'a Val, key: &[u8]) -> Option<&'a Val>
    ensures { option_map (λ v. v.now) result ≡ spec.member_at key.now value.now }
{
    value_among(value.as_obj()?.entries(), key)
}

/// The elements of a list; of what is no list, and where there is none, none.
pub fn listed_in(value: Option<&Val>) -> &[Val]
    ensures { result.now ≡ spec.listed_in (option_map (λ v. v.now) value.entry) }
{
    match value {
        Some(value) => listed_values(value),
        None => &[],
    }
}

fn listed_values(value: &Val) -> &[Val]
    ensures { result.now ≡ spec.listed_in (Some value.now) }
{
    match value.as_list() {
        Some(items) => items.entries(),
        None => &[],
    }
}

/// The rules of `pv` or `pvs`, as they are written.
pub fn rules_in(value: Option<&Val>) -> &[Val]
    ensures { map spec.stated_rule result.now
        ≡ spec.rules_in (option_map (λ v. v.now) value.entry) }
{
    match value {
        Some(value) => listed_in(member_at(value, b"acr")),
        None => &[],
    }
}

/// The entries of a rule's `acor`.
pub fn entries_of(rule: &Val) -> &[Val]
    ensures { result.now ≡ spec.listed_in (spec.member_at (codes "acor") rule.now) }
{
    listed_in(member_at(rule, b"acor"))
}

/// The bits that a rule gives, by its `acop`.
pub fn bits_of(rule: &Val) -> u32
    ensures { result ≡ (spec.stated_rule rule.now).bits }
{
    match member_number(rule, b"acop") {
        Some(n) => sum_of_bits(n),
        None => 0,
    }
}

fn member_number(value: &Val, key: &[u8]) -> Option<i64>
    ensures { result ≡ spec.member_number key.now value.now }
{
    member_at(value, key)?.as_num()
}

fn sum_of_bits(n: i64) -> u32
    ensures { result ≡ spec.sum_of_bits n }
{
    if n < 0 || n > ALL_BITS as i64 {
        0
    } else {
        n as u32
    }
}

/// The policy of a number.
pub fn policy_at<T: Tree>(tree: &T, number: u64) -> Option<&Resource>
    ensures { option_map (λ r. r.now) result ≡ spec.policy_at (T.nodes tree.now) number }
{
    typed_at(tree, Ty::AccessControlPolicy, number)
}

/// The number in the resource id of a policy: behind the short word of policies stands nothing but
/// the digits.
fn number_in(id: &[u8]) -> Option<u64>
    ensures { result ≡ spec.policy_number id.now }
{
    read_digits(id.strip_prefix(b"acp".as_slice())?)
}

/// The number in the resource id of a policy, as 4 in `acp4`.
pub fn policy_number(id: &Val) -> Option<u64>
    ensures { result ≡ option_and_then spec.policy_number (as_text id.now) }
{
    number_in(id.as_text()?.entries())
}

/// The policy that an id names: one look-up.
pub fn policy_named<'a, T: Tree>(tree: &'a T, id: &Val) -> Option<&'a Resource>
    ensures { option_map (λ r. r.now) result ≡ spec.policy_of (T.nodes tree.now) id.now }
{
    policy_at(tree, policy_number(id)?)
}

/// The ids that an attribute of a resource lists.
pub fn ids_at(attr: Attr, resource: &Resource) -> &[Val]
    ensures { result.now ≡ spec.ids_at attr resource.now }
{
    listed_in(resource.attrs().get(attr))
}

/// The AE-ID or CSE-ID of an application entity or of a remote CSE.
pub fn registree(resource: &Resource) -> Option<&[u8]>
    ensures { option_map (λ t. t.now) result ≡ spec.registree resource.now }
{
    match resource.ae_id() {
        Some(id) => Some(id.entries()),
        None => Some(resource.cse_id()?.entries()),
    }
}

//! Values that are what stands in for a hidden one.
ghost use Rattle.std.specs.Prelude.{◌≡◌, ◌&&◌, [], ◌∷◌, bytes_eq, pos};
ghost use Rattle.m2m_names.specs.Members.{acop_name, acor_name, acr_name};
ghost use Rattle.m2m_value.specs.Data as plain;
ghost use Rattle.m2m_value.specs.Data.{elements_of};
ghost use Rattle.m2m_value.specs.Same.{same, same_items, same_members};
ghost use Rattle.policy_eval.specs.Originators.{everyone};
ghost use Rattle.policy_eval.specs.Rules.{written_rule};
ghost use Rattle.equal_sights.specs.Seen.{only_point, plain_rules};
ghost use Rattle.sight_compare.specs.StandIns as spec;

use m2m_value::{MemberKey, Val};

#[tactic(auto, using(crate::proofs::StandInLemmas::same_text))]
fn is_text(value: &Val, text: &[u8]) -> bool
    ensures { result ≡ same value.now (plain.text text.now) }
{
    match value.as_text() {
        Some(own) => own.entries() == text,
        None => false,
    }
}

#[tactic(auto, using(crate::proofs::StandInLemmas::same_number))]
fn is_number(value: &Val, number: u32) -> bool
    ensures { result ≡ same value.now (plain.number (pos number)) }
{
    match value.as_num() {
        Some(own) => own == number as i64,
        None => false,
    }
}

/// Whether these are the text alone.
#[tactic(auto, using(crate::proofs::StandInLemmas::and_true, m2m_value::specs::Same::longer_items))]
fn are_only(items: &[Val], text: &[u8]) -> bool
    ensures { result ≡ same_items items.now (plain.text text.now ∷ []) }
{
    match items {
        [item] => is_text(item, text),
        _ => false,
    }
}

/// Whether the value is the list of a text alone, which stands in for hidden points of access of
/// which it is the first URL.
#[tactic(auto, using(crate::proofs::StandInLemmas::same_list))]
pub fn is_only_point(value: &Val, url: &[u8]) -> bool
    ensures { result ≡ same value.now (only_point url.now) }
{
    match value.as_list() {
        Some(items) => are_only(items.entries(), url),
        None => false,
    }
}

/// Whether a member of a rule has the sum of these bits.
fn is_sum(member: &(MemberKey, Val), bits: u32) -> bool
    ensures { result ≡ (bytes_eq member.now.0 acop_name
        && same member.now.1 (plain.number (pos bits))) }
{
    member.0.entries() == b"acop".as_slice() && is_number(&member.1, bits)
}

/// Whether a member of a rule says that the rule is for everyone.
fn is_for_everyone(member: &(MemberKey, Val)) -> bool
    ensures { result ≡ (bytes_eq member.now.0 acor_name
        && same member.now.1 (only_point everyone)) }
{
    member.0.entries() == b"acor".as_slice() && is_only_point(&member.1, b"all")
}

/// Whether these are the members of the rule that gives everyone these bits.
#[tactic(auto, using(crate::proofs::StandInLemmas::and_true, m2m_value::specs::Same::longer_members))]
fn are_of_plain_rule(members: &[(MemberKey, Val)], bits: u32) -> bool
    ensures { result ≡ same_members members.now (spec.plain_rule_members bits) }
{
    match members {
        [sum, who] => is_sum(sum, bits) && is_for_everyone(who),
        _ => false,
    }
}

/// Whether the value is the rule that gives everyone these bits, as it is written.
#[tactic(auto, using(crate::proofs::StandInLemmas::same_object))]
fn is_plain_rule(value: &Val, bits: u32) -> bool
    ensures { result ≡ same value.now (written_rule everyone bits) }
{
    match value.as_obj() {
        Some(members) => are_of_plain_rule(members.entries(), bits),
        None => false,
    }
}

/// Whether these are the rule that gives everyone these bits, alone.
#[tactic(auto, using(crate::proofs::StandInLemmas::and_true, m2m_value::specs::Same::longer_items))]
fn are_plain_rule(items: &[Val], bits: u32) -> bool
    ensures { result ≡ same_items items.now (written_rule everyone bits ∷ []) }
{
    match items {
        [item] => is_plain_rule(item, bits),
        _ => false,
    }
}

/// Whether a member has the rule that gives everyone these bits, alone, as the rules.
#[tactic(auto, using(crate::proofs::StandInLemmas::same_list))]
fn has_plain_rule(member: &(MemberKey, Val), bits: u32) -> bool
    ensures { result ≡ (bytes_eq member.now.0 acr_name
        && same member.now.1 (plain.list (elements_of (written_rule everyone bits ∷ [])))) }
{
    match member.1.as_list() {
        Some(items) => {
            member.0.entries() == b"acr".as_slice() && are_plain_rule(items.entries(), bits)
        }
        None => false,
    }
}

/// Whether this is the only member, and has the plain rule.
#[tactic(auto, using(crate::proofs::StandInLemmas::and_true, m2m_value::specs::Same::longer_members))]
fn are_of_plain_rules(members: &[(MemberKey, Val)], bits: u32) -> bool
    ensures { result ≡ same_members members.now (spec.plain_rules_members bits) }
{
    match members {
        [member] => has_plain_rule(member, bits),
        _ => false,
    }
}

/// Whether the value is what stands in for hidden rules that give the originator these bits.
#[tactic(auto, using(crate::proofs::StandInLemmas::same_object))]
pub fn are_plain_rules(value: &Val, bits: u32) -> bool
    ensures { result ≡ same value.now (plain_rules bits) }
{
    match value.as_obj() {
        Some(members) => are_of_plain_rules(members.entries(), bits),
        None => false,
    }
}

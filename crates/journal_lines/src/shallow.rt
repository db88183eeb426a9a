//! How deep a value is.
ghost use Rattle.std.specs.Prelude.{◌≡◌, nat_le};
ghost use Rattle.m2m_value.specs.Data.{depth, elements_depth, elements_of, pairs_depth, pairs_of};

use m2m_value::{MemberKey, Val};

/// Whether lists and objects nest no deeper than this.
#[cycle(shallow)]
#[tactic(auto, using(crate::proofs::DepthLemmas::depth_rules))]
pub fn is_within(value: &Val, most: u64) -> bool
    ensures { result ≡ nat_le (depth value.now) most }
{
    if let Some(items) = value.as_list() {
        return most > 0 && are_items_within(items.entries(), most - 1);
    }
    match value.as_obj() {
        Some(members) => most > 0 && are_members_within(members.entries(), most - 1),
        None => true,
    }
}

#[cycle(shallow)]
#[tactic(auto, using(crate::proofs::DepthLemmas::depth_rules))]
fn are_items_within(values: &[Val], most: u64) -> bool
    ensures { result ≡ nat_le (elements_depth (elements_of values.now)) most }
{
    for value in values {
        if !is_within(value, most) {
            return false;
        }
    }
    true
}

#[cycle(shallow)]
#[tactic(auto, using(crate::proofs::DepthLemmas::depth_rules))]
fn are_members_within(members: &[(MemberKey, Val)], most: u64) -> bool
    ensures { result ≡ nat_le (pairs_depth (pairs_of members.now)) most }
{
    for member in members {
        if !is_within(&member.1, most) {
            return false;
        }
    }
    true
}

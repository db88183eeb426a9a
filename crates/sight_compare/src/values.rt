//! What is seen of the value of an attribute.
ghost use Rattle.std.specs.Prelude.{◌≡◌, option_map};
ghost use Rattle.m2m_value.specs.Same.{same};
ghost use Rattle.policy_eval.specs.Rights.{bits_by};
ghost use Rattle.policy_eval.specs.Rules as spec_rules;
ghost use Rattle.equal_sights.specs.Seen as seen;
ghost use Rattle.sight_compare.specs.Shown as spec;

use crate::attributes::{is_policy_rules, is_shown, is_way};
use crate::looks::Look;
use crate::stand_ins::{are_plain_rules, is_only_point};
use m2m_names::{Attr, read_url};
use m2m_value::Val;
use policy_eval::{listed_in, rules_in, with_rules};
use tree_model::{Home, Resource};

/// A resource, with who looks at it and what it may learn.
#[derive(Clone, Copy)]
pub struct Glance<'a> {
    pub home: &'a Home,
    pub originator: &'a [u8],
    pub resource: &'a Resource,
    pub look: Look,
}

/// What is seen of a value: all of it, or what stands in for it where it is hidden.
#[derive(Clone, Copy)]
pub enum Shown<'a> {
    Whole(&'a Val),
    /// Of the rules of a policy the bits that they give the originator.
    Rules(u32),
    /// Of the points of access of a remote CSE the first URL.
    Point(&'a [u8]),
}

fn is_url(address: &[u8]) -> bool
    ensures { result ≡ seen.is_url address.now }
{
    read_url(address).is_some()
}

/// The first of the points of access that is a URL.
fn first_url(points: &Val) -> Option<&[u8]>
    ensures { option_map (λ u. u.now) result ≡ seen.first_url (Some points.now) }
{
    let items = listed_in(Some(points));
    for point in items {
        if let Some(text) = point.as_text() {
            if is_url(text.entries()) {
                return Some(text.entries());
            }
        }
    }
    None
}

/// The bits that rules of a policy give the originator.
fn bits_in(home: &Home, originator: &[u8], rules: &Val) -> u32
    ensures { result
        ≡ bits_by home.now originator.now (spec_rules.rules_in (Some rules.now)) }
{
    with_rules(home, originator, 0, rules_in(Some(rules)))
}

/// What is seen of a value that isn't shown.
fn stand_in<'a>(glance: &Glance, attr: Attr, value: &'a Val) -> Option<Shown<'a>>
    ensures { option_map spec.shown_data result
        ≡ seen.hidden_value glance.now.home.now glance.now.originator.now glance.now.resource.now
        attr value.now }
{
    if is_policy_rules(glance.resource, attr) {
        return Some(Shown::Rules(bits_in(glance.home, glance.originator, value)));
    }
    if is_way(glance.resource, attr) {
        return Some(Shown::Point(first_url(value)?));
    }
    None
}

/// What is seen of the value of an attribute.
pub fn seen_value<'a>(glance: &Glance, attr: Attr, value: &'a Val) -> Option<Shown<'a>>
    ensures { option_map spec.shown_data result ≡ spec.value_at glance.now attr value.now }
{
    if is_shown(glance.look, glance.resource, attr) {
        return Some(Shown::Whole(value));
    }
    stand_in(glance, attr, value)
}

/// Whether equal values are seen: a value that is shown may equal what stands in for a hidden one.
#[tactic(auto, using(crate::proofs::SeenLemmas::seen_values))]
pub fn are_seen_equal(left: &Shown, right: &Shown) -> bool
    ensures { result ≡ same (spec.shown_data left.now) (spec.shown_data right.now) }
{
    match (*left, *right) {
        (Shown::Whole(value), Shown::Whole(other)) => value == other,
        (Shown::Whole(value), Shown::Rules(bits)) => are_plain_rules(value, bits),
        (Shown::Whole(value), Shown::Point(url)) => is_only_point(value, url),
        (Shown::Rules(bits), Shown::Whole(value)) => are_plain_rules(value, bits),
        (Shown::Rules(bits), Shown::Rules(others)) => bits == others,
        (Shown::Rules(_), Shown::Point(_)) => false,
        (Shown::Point(url), Shown::Whole(value)) => is_only_point(value, url),
        (Shown::Point(_), Shown::Rules(_)) => false,
        (Shown::Point(url), Shown::Point(other)) => url == other,
    }
}

//! The content of a request to a resource.
ghost use Rattle.std.specs.Prelude.{◌≡◌, ◌≤◌, IfSome};
ghost use Rattle.m2m_names.specs.Stamps.{last_moment};
ghost use Rattle.request_rules.specs.Requests as spec;

use attribute_rules::{Writing, are_admitted, value_named};
use m2m_names::{Attr, LAST_MOMENT, Ty, read_stamp};
use m2m_value::Members;

/// Whether a content that names these attributes is admitted for a resource of the type. That they
/// stand in the order of their names is known of every list of members.
#[tactic(auto, using(crate::proofs::InOrderLemmas::sorted_in_order))]
pub(crate) fn admits(writing: Writing, ty: Ty, named: &Members) -> bool
    ensures { result ≡ spec.admits writing ty named.now }
{
    let _members = named.entries();
    are_admitted(writing, ty, named)
}

/// The moment of expiry that a content names, in seconds since 1970.
pub(crate) fn named_expiry(members: &Members) -> Option<u64>
    ensures value { result ≡ spec.named_expiry members.now }
    ensures last { IfSome result (λ m. m ≤ last_moment) }
{
    read_stamp(value_named(Attr::Et, members)?.as_text()?.entries())
}

/// The moment of expiry that a content names, in seconds since 1970, and the last one where it
/// names none.
pub fn expiry_for(members: &Members) -> u64
    ensures value { result ≡ spec.expiry_for members.now }
    ensures last { result ≤ last_moment }
{
    named_expiry(members).unwrap_or(LAST_MOMENT)
}

//! What a subscription looks for.
ghost use Rattle.std.specs.Prelude.{◌≡◌, nat_eq, option_map};
ghost use Rattle.std.specs.List.{list_any};
ghost use Rattle.std.specs.Str.{bytes_eq};
ghost use Rattle.m2m_names.specs.Attributes.{attr_short};
ghost use Rattle.m2m_value.specs.Shapes as shapes;
ghost use Rattle.subscription_match.specs.Matching as spec;
ghost use Rattle.tree_model.specs.Changes as changes;
ghost use Rattle.tree_model.specs.Changes.{change_of};
ghost use Rattle.tree_model.specs.Tree.{is_numbered_in, DoAscend};

use crate::events::EventKind;
use m2m_names::{Attr, Ty};
use m2m_value::Val;
use policy_eval::listed_in;
use tree_model::{Change, Resource};

// A criterion, a member of `enc`.
fn criterion<'a>(sub: &'a Resource, key: &[u8]) -> Option<&'a Val>
    ensures { option_map (λ v. v.now) result ≡ spec.criterion key.now sub.now }
{
    sub.attrs().get(Attr::Enc)?.as_obj()?.get(key)
}

fn is_number(value: &Val, number: u64) -> bool
    ensures { result ≡ shapes.is_count_of (nat_eq number) value.now }
{
    match value.as_count() {
        Some(count) => number == count,
        None => false,
    }
}

fn lists_number(list: &Val, number: u64) -> bool
    ensures { result ≡ spec.lists_number number list.now }
{
    listed_in(Some(list))
        .iter()
        .any(|value| is_number(value, number))
}

fn looks_for(sub: &Resource, kind: EventKind) -> bool
    ensures { result ≡ spec.looks_for kind sub.now }
{
    match criterion(sub, b"net") {
        Some(list) => lists_number(list, kind.number()),
        None => kind.is_update(),
    }
}

fn is_name_of(value: &Val, attr: Attr) -> bool
    ensures { result ≡ shapes.is_text_of (bytes_eq (attr_short attr)) value.now }
{
    match value.as_text() {
        Some(text) => attr.short().as_bytes() == text.entries(),
        None => false,
    }
}

fn names_one_of(value: &Val, named: &[Attr]) -> bool
    ensures { result ≡ spec.names_one_of named.now value.now }
{
    named.iter().any(|attr| is_name_of(value, *attr))
}

fn lists_one_of(list: &Val, named: &[Attr]) -> bool
    ensures { result ≡ spec.lists_one_of named.now list.now }
{
    listed_in(Some(list))
        .iter()
        .any(|value| names_one_of(value, named))
}

fn looks_at(sub: &Resource, named: &[Attr]) -> bool
    ensures { result ≡ spec.looks_at named.now sub.now }
{
    match criterion(sub, b"atr") {
        Some(list) => lists_one_of(list, named),
        None => true,
    }
}

/// Whether it is a subscription under the resource of this number.
pub(crate) fn is_sub_of(sub: &Resource, parent: Option<u64>) -> bool
    ensures { result ≡ spec.is_sub_of parent sub.now }
{
    match parent {
        Some(number) => sub.parent() == number && sub.is(Ty::Subscription),
        None => false,
    }
}

// Whether the resource is one of those of these numbers.
fn is_going(sub: &Resource, going: &[u64]) -> bool
    requires { DoAscend going.now }
    ensures { result ≡ is_numbered_in going.now sub.now }
{
    match going.binary_search(&sub.number()) {
        Ok(_) => true,
        Err(_) => false,
    }
}

/// Whether a subscription stays where the resources of these numbers go, and looks for the deletion
/// of children of the resource that it stands under.
pub(crate) fn does_hear(going: &[u64], sub: &Resource) -> bool
    requires { DoAscend going.now }
    ensures { result ≡ spec.does_hear going.now sub.now }
{
    !is_going(sub, going) && looks_for(sub, EventKind::DeleteOfChild)
}

fn event_where(is: bool, kind: EventKind, sub: &Resource) -> Option<EventKind>
    ensures { result ≡ spec.event_where is kind sub.now }
{
    if is && looks_for(sub, kind) {
        Some(kind)
    } else {
        None
    }
}

// The deletion of the resource that it stands under, or of a child of that.
fn deletion_for(going: &[u64], gone: &Resource, sub: &Resource) -> Option<EventKind>
    requires { DoAscend going.now }
    ensures { result ≡ spec.event_for going.now (changes.deleted gone.now) sub.now }
{
    let own = is_sub_of(sub, Some(gone.number()));
    if let Some(kind) = event_where(own, EventKind::DeleteOfResource, sub) {
        return Some(kind);
    }
    let stays = is_sub_of(sub, Some(gone.parent())) && !is_going(sub, going);
    event_where(stays, EventKind::DeleteOfChild, sub)
}

/// As what event a change is told to a subscription, if it is; the resources of the numbers
/// `going`, which ascend, are those that the same removal takes.
pub(crate) fn event_for(going: &[u64], change: Change<'_>, sub: &Resource) -> Option<EventKind>
    requires { DoAscend going.now }
    ensures { result ≡ spec.event_for going.now (change_of change.entry) sub.now }
{
    match change {
        Change::Created(new) => {
            let under = is_sub_of(sub, Some(new.parent()));
            event_where(under, EventKind::CreateOfChild, sub)
        }
        Change::Updated { after, named, .. } => {
            let told = is_sub_of(sub, Some(after.number())) && looks_at(sub, named.entries());
            event_where(told, EventKind::UpdateOfResource, sub)
        }
        Change::Deleted(gone) => deletion_for(going, gone, sub),
    }
}

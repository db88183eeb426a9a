//! Equality of values, at every level.
ghost use Rattle.std.specs.Prelude.{◌≡◌, ◌↔◌, ◌&&◌, IsTrue, bytes_eq};
ghost use Rattle.std.specs.Cmp.{decided, partial_equiv_from_equiv};
ghost use Rattle.m2m_value.specs.Data.{elements_of, list};
ghost use Rattle.m2m_value.specs.Same.{same, same_items, same_members};
ghost use Rattle.m2m_value.specs.Same.{same-Decides, same_items-Decides, same_members-Decides};

use crate::key::MemberKey;
use crate::value::{Items, Members, Node, SharedItems, Val};

impl PartialEq for Val {
    ghost eq = { same };

    ghost laws = { partial_equiv_from_equiv (decided same same-Decides) };

    fn eq(&self, other: &Val) -> bool
        ensures value { result ≡ same self.now other.now }
        ensures means { IsTrue result ↔ (self.now ≡ other.now) }
    {
        are_same(self, other)
    }
}

impl Eq for Val {
    ghost laws = { decided same same-Decides };
}

impl PartialEq for Items {
    ghost eq = { same_items };

    ghost laws = { partial_equiv_from_equiv (decided same_items same_items-Decides) };

    fn eq(&self, other: &Items) -> bool
        ensures value { result ≡ same_items self.now other.now }
        ensures means { IsTrue result ↔ (self.now ≡ other.now) }
    {
        are_same_items(self.entries(), other.entries())
    }
}

impl Eq for Items {
    ghost laws = { decided same_items same_items-Decides };
}

impl PartialEq for Members {
    ghost eq = { same_members };

    ghost laws = { partial_equiv_from_equiv (decided same_members same_members-Decides) };

    fn eq(&self, other: &Members) -> bool
        ensures value { result ≡ same_members self.now other.now }
        ensures means { IsTrue result ↔ (self.now ≡ other.now) }
    {
        are_same_members(self.entries(), other.entries())
    }
}

impl Eq for Members {
    ghost laws = { decided same_members same_members-Decides };
}

#[cycle(same)]
fn are_same(one: &Val, other: &Val) -> bool
    ensures { result ≡ same one.now other.now }
{
    match (&one.node, &other.node) {
        (Node::Null, Node::Null) => true,
        (Node::Bool(a), Node::Bool(b)) => a == b,
        (Node::Num(a), Node::Num(b)) => a == b,
        (Node::Text(a), Node::Text(b)) => a == b,
        (Node::Obj(a), Node::Obj(b)) => are_same_members(&a.entries, &b.entries),
        (Node::List(items), _) => is_same_list(items, other),
        (Node::Shared(shared), _) => is_same_shared(shared, other),
        _ => false,
    }
}

// Whether the value is this list, whoever has either.
#[cycle(same)]
#[tactic(auto, using(crate::proofs::Levels::same_list_rules))]
fn is_same_list(items: &Items, other: &Val) -> bool
    ensures { result ≡ same (list (elements_of items.now)) other.now }
{
    match other.as_list() {
        Some(others) => are_same_items(&items.values, others.entries()),
        None => false,
    }
}

#[cycle(same)]
fn is_same_shared(shared: &SharedItems, other: &Val) -> bool
    ensures { result ≡ same (list (elements_of shared.now)) other.now }
{
    is_same_list(shared.items(), other)
}

#[cycle(same)]
fn are_same_items(one: &[Val], other: &[Val]) -> bool
    ensures { result ≡ same_items one.now other.now }
{
    if one.len() != other.len() {
        return false;
    }
    for (i, value) in one.iter().enumerate() {
        if !are_same(value, &other[i]) {
            return false;
        }
    }
    true
}

#[cycle(same)]
fn are_same_members(one: &[(MemberKey, Val)], other: &[(MemberKey, Val)]) -> bool
    ensures { result ≡ same_members one.now other.now }
{
    if one.len() != other.len() {
        return false;
    }
    for (i, member) in one.iter().enumerate() {
        if !is_same_member(&member.0, &member.1, &other[i].0, &other[i].1) {
            return false;
        }
    }
    true
}

#[cycle(same)]
fn is_same_member(key: &MemberKey, value: &Val, other_key: &MemberKey, other: &Val) -> bool
    ensures { result ≡ (bytes_eq key.now other_key.now && same value.now other.now) }
{
    key.entries() == other_key.entries() && are_same(value, other)
}

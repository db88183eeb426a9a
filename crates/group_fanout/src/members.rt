//! The addresses of a group's members.
ghost use Rattle.std.specs.Prelude.{◌≡◌, ◌∷◌, ◌++◌, [], IfOk, IsTrue, IsUtf8, OnOk, map};
ghost use Rattle.std.specs.List.{AllByRecursion};
ghost use Rattle.addressing.specs.Addresses.{are_names};
ghost use Rattle.policy_eval.specs.Rules.{texts_of};
ghost use Rattle.group_fanout.specs.Fan as spec;

use addressing::Segments;
use m2m_names::Attr;
use m2m_value::{Text, Val};
use policy_eval::listed_in;
use std::alloc::{AllocError as OutOfMemory, Global};
use tree_model::Resource;

/// The addresses of a group's members, each with the rest behind it, in the order of `mid`.
pub(crate) fn member_addresses(
    alloc: Global,
    group: &Resource,
    rest: &Segments,
) -> Result<Vec<Text>, OutOfMemory>
    requires { IsTrue (are_names rest.now) }
    ensures value { IfOk result (λ v.
        v.items ≡ spec.addresses_of rest.now group.now) }
    ensures utf8 { IfOk result (λ v. AllByRecursion IsUtf8 v.items) }
{
    listed_addresses(alloc, listed_in(group.attrs().get(Attr::Mid)), rest)
}

// The addresses that values list.
fn listed_addresses(
    alloc: Global,
    members: &[Val],
    rest: &Segments,
) -> Result<Vec<Text>, OutOfMemory>
    requires { IsTrue (are_names rest.now) }
    ensures value { IfOk result (λ v.
        v.items ≡ map (spec.with_rest rest.now) (texts_of members.now)) }
    ensures utf8 { IfOk result (λ v. AllByRecursion IsUtf8 v.items) }
{
    let mut addresses = Vec::with_capacity(alloc, members.len())?;
    for member in members {
        add_address(alloc, &mut addresses, member, rest)?;
    }
    Ok(addresses)
}

// Puts the address of a member behind others.
fn add_address(
    alloc: Global,
    addresses: &mut Vec<Text>,
    member: &Val,
    rest: &Segments,
) -> Result<(), OutOfMemory>
    requires names { IsTrue (are_names rest.now) }
    requires utf8 { AllByRecursion IsUtf8 addresses.old.items }
    ensures value { OnOk result (addresses.new.items ≡ addresses.old.items
        ++ map (spec.with_rest rest.now) (texts_of (member.now ∷ []))) }
    ensures utf8 { OnOk result (AllByRecursion IsUtf8 addresses.new.items) }
{
    if let Some(text) = member.as_text() {
        addresses.push(with_rest(alloc, text, rest)?)?;
    }
    Ok(())
}

// The text of a member, and behind it the rest, with a slash before each of its parts.
#[tactic(auto, using(crate::proofs::MemberLemmas::written_so_far))]
fn with_rest(alloc: Global, member: &Text, rest: &Segments) -> Result<Text, OutOfMemory>
    requires names { IsTrue (are_names rest.now) }
    requires utf8 { IsUtf8 member.now }
    ensures value { IfOk result (λ t. t ≡ spec.with_rest rest.now member.now) }
    ensures utf8 { IfOk result IsUtf8 }
{
    let mut address = Vec::from_slice(alloc, member.entries())?;
    let parts = rest.entries();
    for part in parts {
        address.push(b'/')?;
        address.extend_from_slice(part)?;
    }
    Ok(Text::of(address))
}

//! Members of objects by their names, objects of the members that are there, and the kinds of
//! values that filters share with the primitives around them.
ghost use Rattle.std.specs.Prelude.{◌≡◌, ◌++◌, ◌∷◌, [], IfOk, IfSome, IsSome, OnErr, OnOk};
ghost use Rattle.std.specs.Prelude.{IsUtf8, bytes_eq, option_and_then};
ghost use Rattle.std.specs.Option.{option_copied};
ghost use Rattle.m2m_names.specs.Stamps.{timestamp};
ghost use Rattle.m2m_value.specs.Data as plain;
ghost use Rattle.m2m_value.specs.Data.{pairs_of};
ghost use Rattle.m2m_value.specs.Node.{AreSorted, HaveTextKeys};
ghost use Rattle.m2m_value.specs.View.{as_text, member_of};
ghost use Rattle.filter_criteria.specs.Bounds.{IsMoment};
ghost use Rattle.filter_criteria.specs.Values as spec;

use m2m_names::{is_type_number, write_stamp};
use m2m_value::{MemberKey, Members, Node, Text, Val};
use std::alloc::{AllocError as OutOfMemory, Global};

/// The members of an object; any other value has none.
pub fn members_in(value: &Val) -> &[(MemberKey, Val)]
    ensures { result.now ≡ spec.members_in value.now }
{
    match value.as_obj() {
        Some(members) => members.entries(),
        None => &[],
    }
}

/// The value of a member of an object.
pub fn value_at<'a>(value: &'a Val, name: &str) -> Option<&'a Val>
    ensures { option_copied result ≡ member_of name.now (spec.members_in value.now) }
{
    value_among(members_in(value), name.as_bytes())
}

/// Whether two names are the same. Most aren't of one length, which is told without a look at them.
#[tactic(auto, using(crate::proofs::Lists::lengths_apart))]
fn is_same(one: &[u8], other: &[u8]) -> bool
    ensures { result ≡ bytes_eq one.now other.now }
{
    one.len() == other.len() && one == other
}

/// The value that one of these members has whose name this is. It is sought from the first on,
/// which is quicker than halving where they are as few as those of a request or of a content.
pub fn value_among<'a>(members: &'a [(MemberKey, Val)], name: &[u8]) -> Option<&'a Val>
    ensures { option_copied result ≡ member_of name.now members.now }
{
    for (key, value) in members {
        if is_same(name, key.entries()) {
            return Some(value);
        }
    }
    None
}

/// The number of a resource type that a value is.
pub fn read_type_number(value: &Val) -> Option<u32>
    ensures { result ≡ spec.read_type_number value.now }
{
    let number = value.as_count()?;
    if is_type_number(number) {
        Some(number as u32)
    } else {
        None
    }
}

/// The text that a value is.
pub fn owned_text(value: Option<Val>) -> Option<Text>
    ensures value { result ≡ option_and_then as_text value }
    ensures utf8 { IfSome result IsUtf8 }
{
    match value?.into_node() {
        Node::Text(text) => Some(text),
        _ => None,
    }
}

/// A copy of the text as a value.
pub fn text_value(alloc: Global, text: &Text) -> Result<Val, OutOfMemory>
    requires { IsUtf8 text.now }
    ensures { IfOk result (λ v. v ≡ plain.text text.now) }
{
    Ok(Val::of_text(text.copy(alloc)?))
}

/// The timestamp of the moment.
pub fn moment_text(alloc: Global, at: u64) -> Result<Text, OutOfMemory>
    requires { IsMoment at }
    ensures value { IfOk result (λ text. text ≡ timestamp at) }
    ensures utf8 { IfOk result IsUtf8 }
{
    let mut stamp = [0; 15];
    let _written = write_stamp(at, &mut stamp);
    Ok(Text::from_slice(alloc, &stamp)?)
}

/// The timestamp of the moment as a value.
pub fn moment_value(alloc: Global, at: u64) -> Result<Val, OutOfMemory>
    requires { IsMoment at }
    ensures { IfOk result (λ v. v ≡ spec.moment_data at) }
{
    Ok(Val::of_text(moment_text(alloc, at)?))
}

/// Puts a member behind the others, where it has a value. Where memory runs out, the others stay.
pub fn push_member(
    entries: &mut Vec<(MemberKey, Val)>,
    name: &'static str,
    value: Option<Val>,
) -> Result<(), OutOfMemory>
    ensures ok { OnOk result (entries.new.items
        ≡ entries.old.items ++ spec.present ((name.now, value) ∷ [])) }
    ensures err { OnErr result (entries.new.items ≡ entries.old.items) }
    // No memory is taken for a member that has no value.
    ensures memory { OnErr result (IsSome value) }
{
    if let Some(value) = value {
        entries.push((MemberKey::named(name), value))?;
    }
    Ok(())
}

/// The object of these members.
pub fn sorted_object(entries: Vec<(MemberKey, Val)>) -> Val
    requires sorted { AreSorted entries.items }
    requires texts { HaveTextKeys entries.items }
    ensures { result ≡ plain.object (pairs_of entries.items) }
{
    Val::of_obj(Members::of(entries))
}

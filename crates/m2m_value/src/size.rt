//! The length of a value's text, which is not built for it.
ghost use Rattle.std.specs.Prelude.{◌≡◌, ◌+◌, ◌≤◌, length};
ghost use Rattle.std.specs.Fmt.{decimal, signed_decimal};
ghost use Rattle.m2m_value.specs.Data.{elements_of, pairs_of};
ghost use Rattle.m2m_value.specs.Spelling.{escaped, quoted, comma_at, text_of, elements_from};
ghost use Rattle.m2m_value.specs.Spelling.{pairs_from, size_of, capped};

use crate::key::MemberKey;
use crate::value::{Items, Members, Node, SharedItems, Val};
use crate::writing::short_escape;

impl Val {
    /// The bytes that count for the value: of a text those that it has, of any other value those
    /// of its compact text; 2^64 - 1 where they are more. It takes no memory.
    pub fn size(&self) -> u64
        ensures { result ≡ capped (size_of self.now) }
    {
        match &self.node {
            Node::Text(text) => text.entries().len() as u64,
            _ => text_len(self),
        }
    }
}

#[cycle(text_len)]
fn text_len(value: &Val) -> u64
    ensures { result ≡ capped (length (text_of value.now)) }
{
    match &value.node {
        Node::Null => 4,
        Node::Bool(true) => 4,
        Node::Bool(false) => 5,
        Node::Num(n) => number_len(*n),
        Node::Text(text) => quoted_len(text.entries()),
        Node::List(items) => items_len(items),
        Node::Obj(members) => members_len(members),
        Node::Shared(shared) => shared_len(shared),
    }
}

#[cycle(text_len)]
fn items_len(items: &Items) -> u64
    ensures { result ≡ capped (2 + length (elements_from (elements_of items.now) 0)) }
{
    let mut len = 2u64;
    for (place, value) in items.values.iter().enumerate() {
        len = len
            .saturating_add(comma_len(place))
            .saturating_add(text_len(value));
    }
    len
}

#[cycle(text_len)]
fn shared_len(shared: &SharedItems) -> u64
    ensures { result ≡ capped (2 + length (elements_from (elements_of shared.now) 0)) }
{
    items_len(shared.items())
}

#[cycle(text_len)]
fn members_len(members: &Members) -> u64
    ensures { result ≡ capped (2 + length (pairs_from (pairs_of members.now) 0)) }
{
    let mut len = 2u64;
    for (place, member) in members.entries.iter().enumerate() {
        len = len
            .saturating_add(comma_len(place))
            .saturating_add(member_len(&member.0, &member.1));
    }
    len
}

/// With the colon.
#[cycle(text_len)]
fn member_len(key: &MemberKey, value: &Val) -> u64
    ensures { result ≡ capped (length (quoted key.now) + 1 + length (text_of value.now)) }
{
    quoted_len(key.entries())
        .saturating_add(1)
        .saturating_add(text_len(value))
}

fn comma_len(place: usize) -> u64
    ensures { result ≡ length (comma_at place) }
{
    if place > 0 { 1 } else { 0 }
}

fn quoted_len(text: &[u8]) -> u64
    ensures { result ≡ capped (length (quoted text.now)) }
{
    let mut len = 2u64;
    for byte in text {
        len = len.saturating_add(escaped_len(*byte));
    }
    len
}

fn escaped_len(byte: u8) -> u64
    ensures { result ≡ length (escaped byte) }
{
    match short_escape(byte) {
        Some(_) => 2,
        None if byte < 32 => 6,
        None => 1,
    }
}

fn number_len(n: i64) -> u64
    ensures { result ≡ length (signed_decimal n) }
{
    let digits = digits_len(n.unsigned_abs());
    if n < 0 { digits + 1 } else { digits }
}

fn digits_len(n: u64) -> u64
    ensures value { result ≡ length (decimal n) }
    ensures bound { result ≤ 20 }
{
    if n < 10 { 1 } else { digits_len(n / 10) + 1 }
}

//! From bytes to a value, over what `json` reads in room that is lent. What has a number that isn't
//! whole is left to `serde_json`, and so is the reason where nothing is given.
ghost use Rattle.std.specs.Prelude.{◌≡◌, ◌==◌, ◌<◌, [], length, slice_index, Ok, Some, IfSome};
ghost use Rattle.std.specs.Prelude.{false, true, IsTrue, IsUtf8, OnSome, option_map};
ghost use Rattle.std.specs.BTreeMap.{insert_entry};
ghost use Rattle.std.specs.Cmp.Lexicographic.{slice_cmp};
ghost use Rattle.std.specs.Ordering.{nat_cmp};
ghost use Rattle.json.specs.Value.{value_view, items_view as items_read};
ghost use Rattle.json.specs.Value.{members_view as members_read};
ghost use Rattle.serde_json.specs.Data as json_data;
ghost use Rattle.serde_json.specs.Data.{no_members};
ghost use Rattle.serde_json.specs.Read.{of_json, of_items, of_members};
ghost use Rattle.serde_json.specs.Read.{number_of, number_from, read as read_text};
ghost use Rattle.serde_json.specs.View.{number_view};
ghost use Rattle.m2m_value.specs.Data as plain;
ghost use Rattle.m2m_value.specs.Data.{elements_of, pairs_of};
ghost use Rattle.m2m_value.specs.Node.{HaveTextKeys};
ghost use Rattle.m2m_value.specs.Reading.{elements_if, pairs_if, value_if};

use crate::key::MemberKey;
use crate::known::known_name;
use crate::parts::whole;
use crate::text::Text;
use crate::value::{Items, Members, Node, Val};
use fast_float::Numeral;
use json::{Reader, Scratch};
use serde_json::Number;
use simdutf8::basic::from_utf8;
use std::alloc::Global;

/// Lists and objects stand at most so deep.
const DEPTH_LIMIT: usize = 127;

/// The value that the bytes spell, if it is given.
pub(crate) fn parse_in(alloc: Global, scratch: &mut Scratch, bytes: &[u8]) -> Option<Val>
    ensures utf8 { IfSome result (λ v. IsUtf8 bytes.now) }
    ensures ok { IfSome result (λ v. value_if (read_text bytes.now) ≡ Ok v) }
{
    let text = from_utf8(bytes).ok()?;
    parse_text(alloc, scratch, text)
}

fn parse_text(alloc: Global, scratch: &mut Scratch, text: &str) -> Option<Val>
    ensures { IfSome result (λ v. value_if (read_text text.now) ≡ Ok v) }
{
    let mut reader = Reader::new(text, scratch).ok()?;
    let value = json::Value::read(alloc, &mut reader, DEPTH_LIMIT).ok()?;
    match reader.next() {
        Some(_) => None,
        None => taken(alloc, value),
    }
}

/// What is kept of a value that `json` read.
#[cycle(taken)]
#[tactic(auto, using(crate::proofs::Parses::list_kept, crate::proofs::Parses::object_kept))]
fn taken(alloc: Global, value: json::Value<'_>) -> Option<Val>
    ensures { IfSome result (λ v. value_if (of_json (value_view value.entry)) ≡ Ok v) }
{
    match value {
        json::Value::Null => Some(Val::of(Node::Null)),
        json::Value::Bool(b) => Some(Val::of(Node::Bool(b))),
        json::Value::Number(text) => Some(Val::of(Node::Num(number_taken(text)?))),
        json::Value::String(text) => Some(Val::of(Node::Text(text_taken(alloc, text)?))),
        json::Value::Array(items) => Some(Val::of_shared_list(alloc, items_taken(alloc, items)?)),
        json::Value::Object(members) => Some(Val::of(Node::Obj(members_taken(alloc, members)?))),
    }
}

fn text_taken(alloc: Global, text: &str) -> Option<Text>
    ensures value { IfSome result (λ t. t ≡ text.now) }
    ensures utf8 { IfSome result (λ t. IsUtf8 t) }
{
    Text::from_slice(alloc, text.as_bytes()).ok()
}

fn key_taken(alloc: Global, name: &str) -> Option<MemberKey>
    ensures value { IfSome result (λ k. k ≡ name.now) }
    ensures utf8 { IfSome result (λ k. IsUtf8 k) }
{
    match known_name(name.as_bytes()) {
        Some(known) => Some(MemberKey::named(known)),
        None => own_key(alloc, name),
    }
}

/// The key that a name is which doesn't stand in the program.
fn own_key(alloc: Global, name: &str) -> Option<MemberKey>
    ensures value { IfSome result (λ k. k ≡ name.now) }
    ensures utf8 { IfSome result (λ k. IsUtf8 k) }
{
    Some(MemberKey::of(text_taken(alloc, name)?))
}

#[cycle(taken)]
fn items_taken(alloc: Global, items: Vec<json::Value<'_>>) -> Option<Items>
    ensures { IfSome result (λ es. elements_if (of_items (items_read items.entry.items))
        ≡ Ok (elements_of es)) }
{
    let mut values = Vec::with_capacity(alloc, items.len()).ok()?;
    for item in items {
        values.push(taken(alloc, item)?).ok()?;
    }
    Some(Items::of(values))
}

/// The members go in one after another, so that of those with one key the last stays.
#[cycle(taken)]
fn members_taken(alloc: Global, members: Vec<(&str, json::Value<'_>)>) -> Option<Members>
    ensures value { IfSome result (λ ms. pairs_if (of_members (members_read members.entry.items)
        no_members) ≡ Ok (pairs_of ms)) }
    ensures texts { IfSome result (λ ms. HaveTextKeys ms) }
{
    let mut found = none_found(alloc, members.len())?;
    for member in members {
        let (key, value) = member_taken(alloc, member)?;
        put_taken(&mut found, key, value)?;
    }
    Some(found)
}

/// No member, with room for so many.
fn none_found(alloc: Global, room: usize) -> Option<Members>
    ensures { IfSome result (λ ms. ms ≡ []) }
{
    match Vec::with_capacity(alloc, room) {
        Ok(entries) => Some(Members::of(entries)),
        Err(_) => None,
    }
}

/// Puts a member in, or not where memory runs out.
fn put_taken(found: &mut Members, key: MemberKey, value: Val) -> Option<()>
    ensures put { OnSome result
        (found.new ≡ insert_entry (slice_cmp nat_cmp) found.old key value) }
    ensures texts { OnSome result
        (HaveTextKeys found.old → IsUtf8 key → HaveTextKeys found.new) }
{
    match found.put(key, value) {
        Ok(()) => Some(()),
        Err(_) => None,
    }
}

#[cycle(taken)]
fn member_taken(alloc: Global, member: (&str, json::Value<'_>)) -> Option<(MemberKey, Val)>
    ensures key { IfSome result (λ m. m.0 ≡ member.entry.0.now) }
    ensures utf8 { IfSome result (λ m. IsUtf8 m.0) }
    ensures value { IfSome result
        (λ m. value_if (of_json (value_view member.entry.1)) ≡ Ok m.1) }
{
    let (name, value) = member;
    Some((key_taken(alloc, name)?, taken(alloc, value)?))
}

/// The number that a text writes, where that is whole and is kept.
#[tactic(auto, using(crate::proofs::Parses::number_kept))]
fn number_taken(text: &str) -> Option<i64>
    ensures { IfSome result (λ z. value_if (option_map json_data.number (number_of text.now))
        ≡ Ok (plain.number z)) }
{
    match whole(whole_number(text)?) {
        Ok(n) => Some(n),
        Err(_) => None,
    }
}

/// The number that a text writes, where that is whole and has 64 bits.
fn whole_number(text: &str) -> Option<Number>
    ensures { IfSome result (λ n. number_of text.now ≡ Some (number_view n)) }
{
    let bytes = text.as_bytes();
    if has_minus(bytes) {
        below_zero(&Numeral::scan(&bytes[1..]))
    } else {
        from_zero(&Numeral::scan(bytes))
    }
}

fn has_minus(bytes: &[u8]) -> bool
    ensures value { result ≡ (slice_index bytes.now 0 == 45) }
    ensures some { IsTrue result → 0 < length bytes.now }
{
    !bytes.is_empty() && bytes[0] == b'-'
}

fn from_zero(numeral: &Numeral<'_>) -> Option<Number>
    ensures { IfSome result (λ n. number_from false numeral.now ≡ Some (number_view n)) }
{
    match numeral.to_u64() {
        Some(n) => Some(Number::from(n)),
        None => None,
    }
}

fn below_zero(numeral: &Numeral<'_>) -> Option<Number>
    ensures { IfSome result (λ n. number_from true numeral.now ≡ Some (number_view n)) }
{
    match numeral.to_i64(true) {
        Some(n) if n < 0 => Some(Number::from(n)),
        _ => None,
    }
}

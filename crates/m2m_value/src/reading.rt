//! From bytes to a value, over what `serde_json` keeps.
ghost use Rattle.std.specs.Prelude.{◌≤◌, IfOk};
ghost use Rattle.serde_json.specs.View.{view, items_view, members_view};
ghost use Rattle.m2m_value.specs.Data.{depth, elements_of, pairs_of};
ghost use Rattle.m2m_value.specs.Node.{HaveTextKeys};
ghost use Rattle.m2m_value.specs.Reading.{value_kept, elements_in, pairs_in, reading};
ghost use Rattle.m2m_value.specs.Reading.{Gives, reading_depth};

use crate::fault::ValFault;
use crate::parsing::parse_in;
use crate::parts::{key_of, text_of_string, whole};
use crate::value::{Items, Members, Node, Val};
use json::Scratch;
use serde_json::{Map, Value};
use std::alloc::Global;

/// The value that the bytes spell, at most 127 deep. Of members with one key the last stays. Of
/// faults in numbers the first is told: lists in order, members in the order of their keys.
pub fn read(alloc: Global, bytes: &[u8]) -> Result<Val, ValFault>
    ensures value { Gives (λ v. v) result (reading bytes.now) }
    ensures nests { IfOk result (λ v. depth v ≤ reading_depth) }
{
    match Value::from_slice(alloc, bytes) {
        Ok(value) => kept(alloc, value),
        Err(e) if !e.is_memory() => Err(ValFault::NotJson),
        Err(_) => Err(ValFault::OutOfMemory),
    }
}

/// The same, in room that is kept from one read to the next.
pub fn read_in(alloc: Global, scratch: &mut Scratch, bytes: &[u8]) -> Result<Val, ValFault>
    ensures value { Gives (λ v. v) result (reading bytes.now) }
    ensures nests { IfOk result (λ v. depth v ≤ reading_depth) }
{
    match parse_in(alloc, scratch, bytes) {
        Some(value) => Ok(value),
        None => read(alloc, bytes),
    }
}

#[cycle(kept)]
fn kept(alloc: Global, value: Value) -> Result<Val, ValFault>
    ensures { Gives (λ v. v) result (value_kept (view value)) }
{
    match value {
        Value::Null => Ok(Val::of(Node::Null)),
        Value::Bool(b) => Ok(Val::of(Node::Bool(b))),
        Value::Number(n) => Ok(Val::of(Node::Num(whole(n)?))),
        Value::String(s) => Ok(Val::of(Node::Text(text_of_string(s)))),
        Value::Array(items) => Ok(Val::of_shared_list(alloc, kept_items(alloc, items)?)),
        Value::Object(members) => Ok(Val::of(Node::Obj(kept_members(alloc, members)?))),
    }
}

#[cycle(kept)]
fn kept_items(alloc: Global, items: Vec<Value>) -> Result<Items, ValFault>
    ensures { Gives elements_of result (elements_in (items_view items.items)) }
{
    let mut values = Vec::with_capacity(alloc, items.len())?;
    for item in items {
        values.push(kept(alloc, item)?)?;
    }
    Ok(Items::of(values))
}

#[cycle(kept)]
fn kept_members(alloc: Global, members: Map<String, Value>) -> Result<Members, ValFault>
    ensures value { Gives pairs_of result (pairs_in (members_view members.entries)) }
    ensures texts { IfOk result HaveTextKeys }
{
    let mut entries = Vec::with_capacity(alloc, members.len())?;
    for (key, member) in members {
        entries.push((key_of(key), kept(alloc, member)?))?;
    }
    Ok(Members::of(entries))
}

//! What the reply to a fan-out tells of members, and which of these are at other CSEs.
ghost use Rattle.std.specs.Prelude.{◌≡◌, IfOk, IfSome, IsUtf8, option_map};
ghost use Rattle.std.specs.List.{list_any};
ghost use Rattle.m2m_names.specs.StatusCodes.{rsc_row};
ghost use Rattle.m2m_value.specs.View.{as_list, as_object, member_of, only_member};
ghost use Rattle.filter_criteria.specs.Values.{count_data};
ghost use Rattle.group_fanout.specs.Fan as fan;
ghost use Rattle.request_rules.specs.Rights as rights;
ghost use Rattle.remote_members.specs.Remote as spec;
ghost use Rattle.remote_members.specs.Wide.{tells_of_away};

use addressing::{Addr, AddrFault, parse};
use entity_model::object_of_one;
use filter_criteria::{members_in, push_member, sorted_object, value_among, value_at};
use m2m_names::Rsc;
use m2m_value::{Items, MemberKey, Members, Node, Text, Val};
use primitive_json::{Reply, ReplyParts};
use std::alloc::{AllocError as OutOfMemory, Global};
use tree_model::Home;

/// The name of an aggregated response.
const AGGREGATED: &str = "m2m:agr";
/// The name of the replies in it.
const REPLIES: &str = "m2m:rsp";

// ---- what a reply tells of members

// The only member of an object.
fn sole(value: &Val) -> Option<&(MemberKey, Val)>
    ensures { option_map (λ e. e.now) result ≡ rights.sole value.now }
{
    match value.as_obj()?.entries() {
        [entry] => Some(entry),
        _ => None,
    }
}

// The value of an entry of this name.
fn value_under<'a>(entry: &'a (MemberKey, Val), name: &str) -> Option<&'a Val>
    ensures { option_map (λ v. v.now) result ≡ spec.value_under name.now entry.now }
{
    if name.as_bytes() == entry.0.entries() {
        Some(&entry.1)
    } else {
        None
    }
}

// The value of the only member of an object, where this is its name.
fn alone_at<'a>(value: &'a Val, name: &str) -> Option<&'a Val>
    ensures { option_map (λ v. v.now) result ≡ spec.alone_at name.now value.now }
{
    match sole(value) {
        Some(entry) => value_under(entry, name),
        None => None,
    }
}

// The elements of a list.
fn list_in(value: &Val) -> Option<&[Val]>
    ensures { option_map (λ e. e.now) result ≡ as_list value.now }
{
    Some(value.as_list()?.entries())
}

// The values that the replies of an aggregated response are.
fn replies_in(aggregated: &Val) -> Option<&[Val]>
    ensures { option_map (λ e. e.now) result ≡ spec.replies_in aggregated.now }
{
    match alone_at(aggregated, REPLIES) {
        Some(replies) => list_in(replies),
        None => None,
    }
}

// What a content tells of members, where it is an aggregated response.
fn entries_in(content: &Val) -> Option<&[Val]>
    ensures { option_map (λ e. e.now) result ≡ spec.told_in content.now }
{
    match alone_at(content, AGGREGATED) {
        Some(aggregated) => replies_in(aggregated),
        None => None,
    }
}

// ---- taken out of it

// The members of an object. Any other value goes.
fn taken_members(value: Val) -> Option<Members>
    ensures { result ≡ as_object value }
{
    match value.into_node() {
        Node::Obj(members) => Some(members),
        _ => None,
    }
}

// The elements of a list. Any other value goes.
fn taken_elements(alloc: Global, value: Val) -> Result<Option<Vec<Val>>, OutOfMemory>
    ensures { IfOk result (λ o. option_map (λ v. v.items) o ≡ as_list value) }
{
    match value.into_list(alloc)? {
        Ok(items) => Ok(Some(items.into_vec())),
        Err(_) => Ok(None),
    }
}

// The only one of these members, where there is no other. All else goes.
fn taken_only(members: Members) -> Option<(MemberKey, Val)>
    ensures { result ≡ only_member members }
{
    let mut entries = members.into_vec();
    if entries.len() != 1 {
        return None;
    }
    entries.pop()
}

// The only member of an object. All else goes.
fn taken_sole(value: Val) -> Option<(MemberKey, Val)>
    ensures { result ≡ rights.sole value }
{
    match taken_members(value) {
        Some(members) => taken_only(members),
        None => None,
    }
}

// The value of the only member of an object, where this is its name. All else goes.
fn taken_alone(value: Val, name: &str) -> Option<Val>
    ensures { result ≡ spec.alone_at name.now value }
{
    match taken_sole(value) {
        Some((key, held)) => {
            if name.as_bytes() == key.entries() {
                Some(held)
            } else {
                None
            }
        }
        None => None,
    }
}

// The values that the replies of an aggregated response are. All else of it goes.
fn taken_replies(alloc: Global, aggregated: Val) -> Result<Option<Vec<Val>>, OutOfMemory>
    ensures { IfOk result (λ o. option_map (λ v. v.items) o ≡ spec.replies_in aggregated) }
{
    match taken_alone(aggregated, REPLIES) {
        Some(replies) => taken_elements(alloc, replies),
        None => Ok(None),
    }
}

// What a content tells of members, where it is an aggregated response. All else of it goes.
fn taken_told(alloc: Global, content: Val) -> Result<Option<Vec<Val>>, OutOfMemory>
    ensures { IfOk result (λ o. option_map (λ v. v.items) o ≡ spec.told_in content) }
{
    match taken_alone(content, AGGREGATED) {
        Some(aggregated) => taken_replies(alloc, aggregated),
        None => Ok(None),
    }
}

/// What the content of a reply tells of members, where it is an aggregated response. All else of it
/// goes.
pub(crate) fn taken_entries(
    alloc: Global,
    content: Option<Val>,
) -> Result<Option<Vec<Val>>, OutOfMemory>
    ensures { IfOk result (λ o. option_map (λ v. v.items) o ≡ spec.told_of_members content) }
{
    match content {
        Some(content) => taken_told(alloc, content),
        None => Ok(None),
    }
}

/// The content of a reply that tells these of members.
pub(crate) fn gathered(alloc: Global, entries: Vec<Val>) -> Result<Val, OutOfMemory>
    ensures { IfOk result (λ v. v ≡ fan.gathering entries.items) }
{
    let list = object_of_one(alloc, REPLIES, Val::of_list(Items::of(entries)))?;
    object_of_one(alloc, AGGREGATED, list)
}

// ---- which members are at other CSEs

// Where the request to the member went of which this is told.
fn target_in(entry: &Val) -> Option<&Text>
    ensures value { option_map (λ t. t.now) result ≡ spec.target_in entry.now }
    ensures utf8 { IfSome result (λ t. IsUtf8 t.now) }
{
    match value_at(entry, "to") {
        Some(target) => target.as_text(),
        None => None,
    }
}

// Whether a text is the address of another CSE of own provider.
fn is_remote(alloc: Global, home: &Home, text: &[u8]) -> Result<bool, OutOfMemory>
    ensures { IfOk result (λ b. b ≡ spec.is_remote home.now text.now) }
{
    match parse(alloc, text, home) {
        Ok(Addr::Local(_)) => Ok(false),
        Ok(Addr::Foreign(_)) => Ok(true),
        Ok(Addr::OtherProvider) => Ok(false),
        Err(AddrFault::OutOfMemory) => Err(OutOfMemory),
        Err(_) => Ok(false),
    }
}

// Whether the member of which this is told is at another CSE.
fn is_away(alloc: Global, home: &Home, entry: &Val) -> Result<bool, OutOfMemory>
    ensures { IfOk result (λ b. b ≡ spec.is_away home.now entry.now) }
{
    match target_in(entry) {
        Some(text) => is_remote(alloc, home, text.entries()),
        None => Ok(false),
    }
}

/// The address of the member of which this is told, where it is at another CSE.
pub(crate) fn remote_address(
    alloc: Global,
    home: &Home,
    entry: &Val,
) -> Result<Option<Text>, OutOfMemory>
    ensures value { IfOk result (λ a. a ≡ spec.remote_address home.now entry.now) }
    ensures utf8 { IfOk result (λ a. IfSome a IsUtf8) }
{
    let Some(text) = target_in(entry) else {
        return Ok(None);
    };
    if is_remote(alloc, home, text.entries())? {
        Ok(Some(text.copy(alloc)?))
    } else {
        Ok(None)
    }
}

// Whether one of the members of which these are told is at another CSE.
fn are_some_away(alloc: Global, home: &Home, entries: &[Val]) -> Result<bool, OutOfMemory>
    ensures { IfOk result (λ b. b ≡ list_any (spec.is_away home.now) entries.now) }
{
    for entry in entries {
        if is_away(alloc, home, entry)? {
            return Ok(true);
        }
    }
    Ok(false)
}

// What a reply tells of members.
fn told_of_members(reply: &Reply) -> Option<&[Val]>
    ensures { option_map (λ e. e.now) result ≡ spec.told_of_members reply.now.pc }
{
    match &reply.parts().pc {
        Some(content) => entries_in(content),
        None => None,
    }
}

/// Whether a reply tells of a member at another CSE.
pub(crate) fn tells_of_away(alloc: Global, home: &Home, reply: &Reply) -> Result<bool, OutOfMemory>
    ensures { IfOk result (λ b. b ≡ tells_of_away home.now reply.now) }
{
    match told_of_members(reply) {
        Some(entries) => are_some_away(alloc, home, entries),
        None => Ok(false),
    }
}

// ---- with the reply to its own request

// A copy of the value of a member of this name.
fn copied_value(
    alloc: Global,
    members: &[(MemberKey, Val)],
    name: &str,
) -> Result<Option<Val>, OutOfMemory>
    ensures { IfOk result (λ v. v ≡ member_of name.now members.now) }
{
    value_among(members, name.as_bytes())
        .map(|value| value.copy(alloc))
        .transpose()
}

fn status_value(rsc: Rsc) -> Val
    ensures { result ≡ count_data (rsc_row rsc).number }
{
    Val::of_num(i64::from(rsc.number()))
}

/// What is told of a member once its own request has this reply, which is moved.
pub(crate) fn told_anew(alloc: Global, entry: &Val, reply: Reply) -> Result<Val, OutOfMemory>
    ensures { IfOk result (λ v. v ≡ spec.told_anew entry.now reply) }
{
    let told = members_in(entry);
    let ReplyParts { rsc, pc, .. } = reply.into_parts();
    let rqi = copied_value(alloc, told, "rqi")?;
    let target = copied_value(alloc, told, "to")?;
    let mut entries = Vec::with_capacity(alloc, 4)?;
    push_member(&mut entries, "pc", pc)?;
    push_member(&mut entries, "rqi", rqi)?;
    push_member(&mut entries, "rsc", Some(status_value(rsc)))?;
    push_member(&mut entries, "to", target)?;
    Ok(sorted_object(entries))
}

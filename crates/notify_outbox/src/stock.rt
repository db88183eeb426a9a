//! What is in stock for items to come: request identifiers, and nodes of queues.
ghost use Rattle.std.specs.Prelude.{◌≡◌, ◌+◌, ◌<◌, ◌≤◌, ◌^◌, [], ◌∷◌, length, IsUtf8, OnOk, IfOk};
ghost use Rattle.m2m_value.specs.Shapes.{largest_count};
ghost use Rattle.notify_outbox.specs.Items as spec;
ghost use Rattle.notify_outbox.specs.Queues.{AreIds};

use crate::item::Item;
use m2m_names::Op;
use m2m_value::Text;
use primitive_json::{Dest, Kind, Note, NoteParts, Request, RequestParts};
use resource_model::numbered;
use std::alloc::{AllocError as OutOfMemory, Global};
use std::collections::{LinkedList, VecDeque};

/// The last number of an item.
pub(crate) const LAST_NUMBER: u64 = 9_223_372_036_854_775_807;

fn count_of(ids: &VecDeque<Text>) -> u64
    ensures { result ≡ length ids.now.items }
{
    ids.len() as u64
}

/// The number of the item that comes after so many; the last number stays.
pub(crate) fn next_number(count: u64) -> u64
    requires { count + 1 < 2 ^ 64 }
    ensures { result ≡ spec.next_number count }
{
    (count + 1).min(LAST_NUMBER)
}

/// Request identifiers for so many items that come after a count.
pub(crate) fn stock_ids(
    alloc: Global,
    ids: &mut VecDeque<Text>,
    count: u64,
    wanted: u64,
) -> Result<(), OutOfMemory>
    requires ids { AreIds count ids.old.items }
    requires count { count ≤ largest_count }
    requires wanted { wanted ≤ largest_count }
    ensures ids { AreIds count ids.new.items }
    ensures enough { OnOk result (wanted ≤ length ids.new.items) }
    ensures more { length ids.old.items ≤ length ids.new.items }
{
    'more: while count_of(ids) < wanted {
        let have = count_of(ids);
        let id = numbered(alloc, "n", "", next_number(count + have))?;
        ids.push_back(id)?;
    }
    Ok(())
}

// An item that stands in for one to come.
fn blank(alloc: Global) -> Item {
    let request = Request::of(RequestParts {
        op: Op::Notify,
        to: Text::of(Vec::new(alloc)),
        fr: None,
        rqi: Text::of(Vec::new(alloc)),
        ty: None,
        pc: None,
        rqet: None,
        rt: None,
        rcn: None,
        fc: None,
        drt: None,
    });
    let note = Note::of(NoteParts {
        kind: Kind::Notification,
        dest: Dest::Nowhere,
        request,
    });
    Item {
        number: 0,
        since: 0,
        note,
    }
}

/// Nodes for so many items.
pub(crate) fn stock_nodes(
    alloc: Global,
    nodes: &mut LinkedList<Item>,
    wanted: u64,
) -> Result<(), OutOfMemory>
    ensures enough { OnOk result (wanted ≤ length nodes.new) }
    ensures more { length nodes.old ≤ length nodes.new }
    ensures few { wanted ≤ length nodes.old → nodes.new ≡ nodes.old }
    ensures most { length nodes.old ≤ wanted → length nodes.new ≤ wanted }
{
    'more: while (nodes.len() as u64) < wanted {
        nodes.push_back(blank(alloc))?;
    }
    Ok(())
}

/// The next identifier.
pub(crate) fn next_id(ids: &mut VecDeque<Text>) -> Text
    requires { 0 < length ids.old.items }
    ensures { ids.old.items ≡ result ∷ ids.new.items }
{
    match ids.pop_front() {
        Some(id) => id,
        None => unreachable!(),
    }
}

// Takes one node.
fn cut(nodes: &mut LinkedList<Item>) -> LinkedList<Item>
    requires { 0 < length nodes.old }
    ensures one { length result ≡ 1 }
    ensures rest { length nodes.new + 1 ≡ length nodes.old }
{
    match nodes.split_off(1) {
        Ok(rest) => std::mem::replace(nodes, rest),
        Err(_) => unreachable!(),
    }
}

// Writes an item into a node.
fn fill(node: &mut LinkedList<Item>, item: Item)
    requires { length node.old ≡ 1 }
    ensures { node.new ≡ item ∷ [] }
{
    if let Some(slot) = node.front_mut() {
        *slot = item;
    }
}

/// A node with this item; no memory is taken.
#[inline(always)]
pub(crate) fn node_of(nodes: &mut LinkedList<Item>, item: Item) -> LinkedList<Item>
    requires { 0 < length nodes.old }
    ensures node { result ≡ item ∷ [] }
    ensures rest { length nodes.new + 1 ≡ length nodes.old }
{
    let mut node = cut(nodes);
    fill(&mut node, item);
    node
}

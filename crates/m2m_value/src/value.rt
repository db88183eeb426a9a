//! JSON values, and how they are made and taken apart.
ghost use Rattle.std.specs.Prelude.{◌≡◌};
ghost use Rattle.std.specs.Arc.{arc_value};
ghost use Rattle.std.specs.Cmp.Lexicographic.{slice_cmp};
ghost use Rattle.std.specs.Ordering.{nat_cmp};

use crate::copy::copied_items;
use crate::key::MemberKey;
use crate::text::Text;
use std::alloc::{AllocError as OutOfMemory, Global};
use std::cmp::Ordering;
use std::marker::Model;
use std::mem;
use std::sync::Arc;

/// A JSON value (RFC 8259) whose numbers are whole and have 64 bits with their sign. Its texts and
/// keys are UTF-8. Clauses see it as `Data`.
#[cycle(value)]
#[derive(Debug, Drop)]
pub struct Val {
    pub(crate) node: Node,
}

/// The top of a value, to be matched on. A list is `Shared` where its copies may have it too, and
/// `List` where this value alone has it. `Val::as_list` and `Val::into_list` give either.
#[cycle(value)]
#[derive(Debug, Drop)]
pub enum Node {
    Null,
    Bool(bool),
    Num(i64),
    Text(Text),
    List(Items),
    Obj(Members),
    Shared(SharedItems),
}

/// A list of values. Clauses see it as the list of their `Data`.
#[cycle(value)]
#[derive(Debug, Drop)]
pub struct Items {
    pub(crate) values: Vec<Val>,
}

/// A list of values that has several owners, who are counted. Clauses see it as the list of their
/// `Data`.
#[cycle(value)]
#[derive(Debug, Drop)]
pub struct SharedItems {
    items: Arc<Items>,
}

/// The members of an object, whose keys are distinct and in the order of their bytes. Clauses see
/// it as the list of its entries, each a key and the value's `Data`.
#[cycle(value)]
#[derive(Debug, Drop)]
pub struct Members {
    pub(crate) entries: Vec<(MemberKey, Val)>,
}

impl Model for Val {
    ghost use Rattle.std.specs.Prelude.{◌*◌, ◌+◌};
    ghost use Rattle.m2m_value.specs.Data.{Data, depth};
    ghost use Rattle.m2m_value.specs.Code.{data_code};

    ghost Value = { Data };

    ghost coded = { data_code };

    ghost use Rattle.m2m_value.specs.Node.{data_of, IsJsonNode};

    ghost view = { λ a. data_of a.node };

    ghost invariant = { λ a. IsJsonNode a.node };

    ghost size = { λ d. 3 * depth d };

    ghost use Rattle.m2m_value.specs.Falls.{node_falls};

    ghost size_decreases = { λ a h. node_falls a.node };
}

impl Model for Items {
    ghost use Rattle.std.specs.Prelude.{◌*◌, ◌+◌, List};
    ghost use Rattle.m2m_value.specs.Data.{Data, elements_depth, elements_of};
    ghost use Rattle.m2m_value.specs.Code.{data_code};
    ghost use Rattle.std.specs.Coded.{coded_list};

    ghost Value = { List Data };

    ghost coded = { coded_list data_code };

    ghost view = { λ a. a.values.items };

    ghost size = { λ ds. 3 * elements_depth (elements_of ds) + 1 };

    ghost use Rattle.std.proofs.Common.{arith};
    ghost use Rattle.m2m_value.specs.Falls.{elements_fall};

    ghost size_decreases = { λ a h. omega (arith, elements_fall a.values.items) };
}

impl Model for SharedItems {
    ghost use Rattle.std.specs.Arc.{arc_value};
    ghost use Rattle.std.specs.Prelude.{◌*◌, ◌+◌, List};
    ghost use Rattle.m2m_value.specs.Data.{Data, elements_depth, elements_of};
    ghost use Rattle.m2m_value.specs.Code.{data_code};
    ghost use Rattle.std.specs.Coded.{coded_list};

    ghost Value = { List Data };

    ghost coded = { coded_list data_code };

    ghost view = { λ a. arc_value a.items };

    ghost size = { λ ds. 3 * elements_depth (elements_of ds) + 2 };

    ghost use Rattle.std.proofs.Common.{arith};

    ghost size_decreases = { λ a h. omega arith };
}

impl Model for Members {
    ghost use Rattle.std.specs.Prelude.{◌*◌, ◌+◌, List};
    ghost use Rattle.m2m_value.specs.Data.{Data, Entry, pairs_depth, pairs_of};
    ghost use Rattle.m2m_value.specs.Code.{entry_code};
    ghost use Rattle.std.specs.Coded.{coded_list};

    ghost Value = { List Entry };

    ghost coded = { coded_list entry_code };

    ghost use Rattle.m2m_value.specs.Node.{AreSorted};

    ghost view = { λ a. a.entries.items };

    ghost invariant = { λ a. AreSorted a.entries.items };

    ghost size = { λ es. 3 * pairs_depth (pairs_of es) + 1 };

    ghost use Rattle.m2m_value.specs.Falls.{members_fall};

    ghost size_decreases = { λ a h. members_fall a };
}

impl Val {
    ghost use Rattle.std.specs.Prelude.{◌≡◌, ◌≢◌, ◌↔◌, IsTrue, IfOk, IfErr, IfSome, OnErr, Some};
    ghost use Rattle.std.specs.Prelude.{None, IsUtf8, option_map};
    ghost use Rattle.m2m_value.specs.Data as plain;
    ghost use Rattle.m2m_value.specs.Data.{elements_of, pairs_of};
    ghost use Rattle.m2m_value.specs.Node.{data_of, HaveTextKeys, IsJsonNode};
    ghost use Rattle.m2m_value.specs.View.{as_boolean, as_number, as_text, as_list, as_object};

    /// The value of which this is the top. Its text, or its keys, are UTF-8.
    pub fn of(node: Node) -> Val
        requires { IsJsonNode node }
        ensures { result ≡ data_of node }
    {
        Val { node }
    }

    /// Null.
    pub fn null() -> Val
        ensures { result ≡ plain.null }
    {
        Val::of(Node::Null)
    }

    /// True or false.
    pub fn of_bool(b: bool) -> Val
        ensures { result ≡ plain.boolean b }
    {
        Val::of(Node::Bool(b))
    }

    /// A whole number.
    pub fn of_num(n: i64) -> Val
        ensures { result ≡ plain.number n }
    {
        Val::of(Node::Num(n))
    }

    /// A text, which is moved.
    pub fn of_text(text: Text) -> Val
        requires { IsUtf8 text }
        ensures { result ≡ plain.text text }
    {
        Val::of(Node::Text(text))
    }

    /// A list of values, which are moved.
    pub fn of_list(items: Items) -> Val
        ensures { result ≡ plain.list (elements_of items) }
    {
        Val::of(Node::List(items))
    }

    /// The same, whose copies take no memory where its values are many. It takes memory once then,
    /// to count the owners of the list; where there is none, the list isn't shared.
    pub fn of_shared_list(alloc: Global, items: Items) -> Val
        ensures { result ≡ plain.list (elements_of items) }
    {
        if items.values.len() < SharedItems::FROM {
            return Val::of_list(items);
        }
        match SharedItems::of(alloc, items) {
            Ok(shared) => Val::of(Node::Shared(shared)),
            Err(items) => Val::of_list(items),
        }
    }

    /// An object of members, which are moved.
    pub fn of_obj(members: Members) -> Val
        requires { HaveTextKeys members }
        ensures { result ≡ plain.object (pairs_of members) }
    {
        Val::of(Node::Obj(members))
    }

    /// The top, to be matched on.
    pub fn node(&self) -> &Node
        ensures top { data_of result.now ≡ self.now }
        ensures keeps { IsJsonNode result.now }
    {
        &self.node
    }

    /// The top, with all below it; nothing is copied.
    pub fn into_node(self) -> Node
        ensures top { data_of result ≡ self }
        ensures keeps { IsJsonNode result }
    {
        self.node
    }

    /// Whether it is null.
    pub fn is_null(&self) -> bool
        ensures { IsTrue result ↔ (self.now ≡ plain.null) }
    {
        matches!(self.node, Node::Null)
    }

    /// The truth value that it is.
    pub fn as_bool(&self) -> Option<bool>
        ensures { result ≡ as_boolean self.now }
    {
        if let Node::Bool(b) = &self.node {
            Some(*b)
        } else {
            None
        }
    }

    /// The whole number that it is.
    pub fn as_num(&self) -> Option<i64>
        ensures { result ≡ as_number self.now }
    {
        if let Node::Num(n) = &self.node {
            Some(*n)
        } else {
            None
        }
    }

    /// The text that it is.
    pub fn as_text(&self) -> Option<&Text>
        ensures value { option_map (λ t. t.now) result ≡ as_text self.now }
        ensures utf8 { IfSome result (λ t. IsUtf8 t.now) }
    {
        if let Node::Text(text) = &self.node {
            Some(text)
        } else {
            None
        }
    }

    /// The list that it is, whoever else has it.
    pub fn as_list(&self) -> Option<&Items>
        ensures { option_map (λ i. i.now) result ≡ as_list self.now }
    {
        match &self.node {
            Node::List(items) => Some(items),
            Node::Shared(shared) => Some(shared.items()),
            _ => None,
        }
    }

    /// The list that it is, moved; only one that another value has too is copied. What is no list
    /// comes back.
    pub fn into_list(self, alloc: Global) -> Result<Result<Items, Val>, OutOfMemory>
        ensures list { IfOk result (λ found. IfOk found (λ items. as_list self ≡ Some items)) }
        ensures other { IfOk result (λ found. IfErr found
            (λ value. (value ≡ self) × (as_list self ≡ None))) }
        // What is no list needs no memory.
        ensures memory { OnErr result (as_list self ≢ None) }
    {
        match self.into_node() {
            Node::List(items) => Ok(Ok(items)),
            Node::Shared(shared) => Ok(Ok(shared.into_items(alloc)?)),
            node => Ok(Err(Val::of(node))),
        }
    }

    /// The object that it is.
    pub fn as_obj(&self) -> Option<&Members>
        ensures value { option_map (λ m. m.now) result ≡ as_object self.now }
        ensures texts { IfSome result (λ m. HaveTextKeys m.now) }
    {
        if let Node::Obj(members) = &self.node {
            Some(members)
        } else {
            None
        }
    }
}

impl Items {
    ghost use Rattle.std.specs.Prelude.{◌≡◌};

    /// Takes no memory.
    pub fn of(values: Vec<Val>) -> Items
        ensures { result ≡ values.items }
    {
        Items { values }
    }

    /// The values, in order.
    pub fn into_vec(self) -> Vec<Val>
        ensures { result.items ≡ self }
    {
        self.values
    }

    /// The values, in order.
    pub fn entries(&self) -> &[Val]
        ensures { result.now ≡ self.now }
    {
        &self.values
    }
}

impl SharedItems {
    ghost use Rattle.std.specs.Prelude.{◌≡◌, IfOk, IfErr, IfSome};

    /// A list of at least so many values is shared where it is read or copied.
    pub const FROM: usize = 64;

    /// The list, with one owner. Where there is no memory to count owners, the list comes back.
    pub fn of(alloc: Global, items: Items) -> Result<SharedItems, Items>
        ensures ok { IfOk result (λ shared. shared ≡ items) }
        ensures err { IfErr result (λ back. back ≡ items) }
    {
        match Arc::new(alloc, items) {
            Ok(items) => Ok(SharedItems { items }),
            Err(failed) => Err(failed.value),
        }
    }

    /// The list.
    pub fn items(&self) -> &Items
        ensures { result.now ≡ self.now }
    {
        &self.items
    }

    /// The list with one owner more, without memory, where it hasn't too many.
    pub(crate) fn again(&self) -> Option<SharedItems>
        ensures { IfSome result (λ shared. shared ≡ self.now) }
    {
        Some(SharedItems {
            items: Arc::try_clone(&self.items).ok()?,
        })
    }

    /// The list itself where it has no other owner, and a copy of it otherwise.
    pub fn into_items(self, alloc: Global) -> Result<Items, OutOfMemory>
        ensures { IfOk result (λ items. items ≡ self) }
    {
        match Arc::try_unwrap(self.items) {
            Ok(items) => Ok(items),
            Err(items) => copied_items(alloc, &items),
        }
    }
}

impl Members {
    ghost use Rattle.std.specs.Prelude.{OnSome, IfNone};
    ghost use Rattle.std.specs.Prelude.{◌≡◌, [], IfOk, IfErr, IsOk, IsSome, OnOk, OnErr, IsUtf8};
    ghost use Rattle.std.specs.Prelude.{option_map};
    ghost use Rattle.std.specs.BTreeMap.{insert_entry};
    ghost use Rattle.std.specs.Cmp.Lexicographic.{slice_cmp};
    ghost use Rattle.std.specs.Ordering.{nat_cmp};
    ghost use Rattle.m2m_value.specs.Data.{null};
    ghost use Rattle.m2m_value.specs.Node.{AreSorted, HaveTextKeys};
    ghost use Rattle.m2m_value.specs.View.{member_of, IsPlaceOf, IsGapFor};

    /// Takes no memory. The keys are distinct and in the order of their bytes.
    pub fn of(entries: Vec<(MemberKey, Val)>) -> Members
        requires { AreSorted entries.items }
        ensures { result ≡ entries.items }
    {
        Members { entries }
    }

    /// The members, in the order of their keys.
    pub fn into_vec(self) -> Vec<(MemberKey, Val)>
        ensures entries { result.items ≡ self }
        ensures sorted { AreSorted self }
    {
        self.entries
    }

    /// The members, in the order of their keys.
    pub fn entries(&self) -> &[(MemberKey, Val)]
        ensures all { result.now ≡ self.now }
        ensures sorted { AreSorted self.now }
    {
        &self.entries
    }

    /// No member, without memory.
    pub fn new(alloc: Global) -> Members
        ensures { result ≡ [] }
    {
        Members {
            entries: Vec::new(alloc),
        }
    }

    /// The value at the key, found by halving.
    pub fn get(&self, key: &[u8]) -> Option<&Val>
        ensures { option_map (λ v. v.now) result ≡ member_of key.now self.now }
    {
        match self.place_of(key) {
            Ok(place) => Some(&self.entries[place].1),
            Err(_) => None,
        }
    }

    /// Puts the value at the key, in place of the one that is there, if any. The entries behind a
    /// new key move up by one. It takes memory only where the key is new.
    pub fn put(&mut self, key: MemberKey, value: Val) -> Result<(), OutOfMemory>
        ensures succeeds { IsSome (member_of key self.old) → IsOk result }
        ensures ok { OnOk result
            (self.new ≡ insert_entry (slice_cmp nat_cmp) self.old key value) }
        ensures err { OnErr result (self.new ≡ self.old) }
        ensures texts { OnOk result
            (HaveTextKeys self.old → IsUtf8 key → HaveTextKeys self.new) }
    {
        match self.place_of(key.entries()) {
            Ok(place) => {
                self.entries[place].1 = value;
                Ok(())
            }
            Err(place) => Ok(self.entries.insert(place, (key, value))?),
        }
    }

    /// Takes the value at the key away, if there is one, and leaves null in its place. Nothing is
    /// copied, and no entry moves.
    pub fn take(&mut self, key: &[u8]) -> Option<Val>
        ensures value { result ≡ member_of key.now self.old }
        ensures taken { OnSome result
            (self.new ≡ insert_entry (slice_cmp nat_cmp) self.old key.now null) }
        ensures absent { IfNone result (self.new ≡ self.old) }
    {
        match self.place_of(key) {
            Ok(place) => Some(mem::replace(&mut self.entries[place].1, Val::null())),
            Err(_) => None,
        }
    }

    /// Where the key is, or where it would go.
    fn place_of(&self, key: &[u8]) -> Result<usize, usize>
        ensures found { IfOk result (IsPlaceOf key.now self.now) }
        ensures absent { IfErr result (IsGapFor key.now self.now) }
        ensures sorted { AreSorted self.now }
    {
        self.entries.binary_search_by(|entry| key_order(entry, key))
    }
}

/// How the entry's key and the key stand in the order of bytes.
fn key_order(entry: &(MemberKey, Val), key: &[u8]) -> Ordering
    ensures { result ≡ slice_cmp nat_cmp entry.now.0 key.now }
{
    entry.0.entries().cmp(key)
}

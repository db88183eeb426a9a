//! Copies, written out since a derived clone of a type that holds itself says nothing of the
//! result.
ghost use Rattle.std.specs.Prelude.{◌≡◌, IfOk};
ghost use Rattle.m2m_value.specs.Data.{elements_of, list};

use crate::key::MemberKey;
use crate::value::{Items, Members, Node, SharedItems, Val};
use std::alloc::{AllocError as OutOfMemory, Global};

impl Val {
    /// An equal value. It shares the lists that are shared, and what else is long in it is copied.
    pub fn copy(&self, alloc: Global) -> Result<Val, OutOfMemory>
        ensures { IfOk result (λ v. v ≡ self.now) }
    {
        copied(alloc, self)
    }
}

#[cycle(copy)]
fn copied(alloc: Global, value: &Val) -> Result<Val, OutOfMemory>
    ensures { IfOk result (λ v. v ≡ value.now) }
{
    match &value.node {
        Node::Null => Ok(Val::of(Node::Null)),
        Node::Bool(b) => Ok(Val::of(Node::Bool(*b))),
        Node::Num(n) => Ok(Val::of(Node::Num(*n))),
        Node::Text(text) => Ok(Val::of(Node::Text(text.copy(alloc)?))),
        Node::List(items) => Ok(Val::of_shared_list(alloc, copied_items(alloc, items)?)),
        Node::Obj(members) => Ok(Val::of(Node::Obj(copied_members(alloc, members)?))),
        Node::Shared(shared) => copied_shared(alloc, shared),
    }
}

// One owner more, and a list of its own where there are too many.
#[cycle(copy)]
fn copied_shared(alloc: Global, shared: &SharedItems) -> Result<Val, OutOfMemory>
    ensures { IfOk result (λ v. v ≡ list (elements_of shared.now)) }
{
    match shared.again() {
        Some(again) => Ok(Val::of(Node::Shared(again))),
        None => Ok(Val::of_shared_list(alloc, copied_items(alloc, shared.items())?)),
    }
}

#[cycle(copy)]
pub(crate) fn copied_items(alloc: Global, items: &Items) -> Result<Items, OutOfMemory>
    ensures { IfOk result (λ copy. copy ≡ items.now) }
{
    let mut values = Vec::with_capacity(alloc, items.values.len())?;
    for value in &items.values {
        values.push(copied(alloc, value)?)?;
    }
    Ok(Items::of(values))
}

#[cycle(copy)]
fn copied_members(alloc: Global, members: &Members) -> Result<Members, OutOfMemory>
    ensures { IfOk result (λ m. m ≡ members.now) }
{
    let mut entries = Vec::with_capacity(alloc, members.entries.len())?;
    for member in &members.entries {
        entries.push(copied_member(alloc, member)?)?;
    }
    Ok(Members::of(entries))
}

#[cycle(copy)]
fn copied_member(alloc: Global, member: &(MemberKey, Val)) -> Result<(MemberKey, Val), OutOfMemory>
    ensures { IfOk result (λ m. m ≡ member.now) }
{
    Ok((member.0.copy(alloc)?, copied(alloc, &member.1)?))
}

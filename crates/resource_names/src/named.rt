//! The resources that names, AE-IDs and CSE-IDs find.
ghost use Rattle.std.specs.Prelude.{◌≡◌, ◌≤◌, ℕ, ◌++◌, [], ◌∷◌, OnOk, OnErr, IsTrue, Some};
ghost use Rattle.std.specs.Prelude.{None, true, nat_eq, ◌&&◌, false, if◌then◌else◌, List};
ghost use Rattle.std.specs.Prelude.{option_map, length};
ghost use Rattle.std.specs.Option.{option_map_or};
ghost use Rattle.std.specs.Str.{bytes_eq};
ghost use Rattle.m2m_names.specs.Ids.{word_len};
ghost use Rattle.resource_model.specs.Resource.{ae_id, cse_id};
ghost use Rattle.tree_model.specs.Tree as tree;
ghost use Rattle.tree_model.specs.Tree.{at, has, is_tree, may_stand};
ghost use Rattle.resource_names.specs.Names as spec;
ghost use Rattle.resource_names.specs.Names.{checked, named_at, number_by, HasNames, IsNamed};
ghost use Rattle.resource_names.specs.Names.{tells_itself};

use crate::names::Names;
use m2m_names::read_digits;
use m2m_value::Text;
use plain_tree::{is_ae, is_child, is_cse};
use resource_model::Resource;
use resource_store::{NumberMap, Seeded, Store};
use std::alloc::{AllocError as OutOfMemory, Global};

// Most resources that go have no such id.
const FEW: usize = 64;

/// Of each parent the names of its children, and the AE-IDs and CSE-IDs of all resources. A child
/// whose name tells its number, as that of most instances does, stands in no table.
#[derive(Drop)]
pub struct Named {
    pub(crate) children: NumberMap<Names>,
    pub(crate) aes: Names,
    pub(crate) cses: Names,
    // A parent whose children have no table, or 0.
    nameless: u64,
}

impl Named {
    /// That of no resource; it takes no memory.
    pub fn new(alloc: Global, seeded: Seeded) -> Named
        ensures { IsNamed [] result }
    {
        Named {
            children: NumberMap::with_hasher(alloc, seeded),
            aes: Names::new(alloc, seeded),
            cses: Names::new(alloc, seeded),
            nameless: 0,
        }
    }

    /// With a resource that comes last in this list. Where memory runs out, it is that of the list.
    pub fn add(
        &mut self,
        alloc: Global,
        list: &Store,
        resource: &Resource,
    ) -> Result<(), OutOfMemory>
        requires named { IsNamed list.now self.old }
        requires next { IsTrue (may_stand list.now resource.now) }
        ensures ok { OnOk result (IsNamed (list.now ++ resource.now ∷ []) self.new) }
        ensures err { OnErr result (IsNamed list.now self.new) }
    {
        self.nameless = 0;
        add_child(alloc, &mut self.children, resource)?;
        add_id(alloc, &mut self.aes, resource.ae_id(), resource.number())?;
        add_id(alloc, &mut self.cses, resource.cse_id(), resource.number())
    }

    /// A resource has gone, and this list has those that are left. An instance had no children and
    /// no id, so that only its own name is looked for.
    pub fn note_gone(&mut self, list: &Store, number: u64, parent: u64, is_instance: bool)
        ensures { IsNamed list.now self.old → IsNamed list.now self.new }
    {
        self.note_child_gone(list, parent);
        if !is_instance {
            self.note_others_gone(list, number);
        }
    }

    // Where many go, most have one parent, whose children mostly have no table. So a table is looked
    // for once.
    fn note_child_gone(&mut self, list: &Store, parent: u64)
        ensures { IsNamed list.now self.old → IsNamed list.now self.new }
    {
        if parent == self.nameless {
            return;
        }
        if !note_gone_child(&mut self.children, list, parent) {
            self.nameless = parent;
        }
    }

    // Sweeps the names of its children, and the AE-IDs and CSE-IDs.
    fn note_others_gone(&mut self, list: &Store, number: u64)
        ensures { IsNamed list.now self.old → IsNamed list.now self.new }
    {
        let_go_children(&mut self.children, list, number);
        self.aes.note_gone(list, FEW);
        self.cses.note_gone(list, FEW);
    }

    /// The child of a name.
    pub fn child(&self, list: &Store, parent: u64, name: &[u8]) -> Option<u64>
        requires tree { IsTrue (is_tree list.now) }
        requires named { IsNamed list.now self.now }
        ensures { result ≡ tree.child_of parent name.now list.now }
    {
        match checked_child(list, number_told(name), parent, name) {
            Some(number) => Some(number),
            None => checked_child(list, find_child(&self.children, parent, name), parent, name),
        }
    }

    /// The application entity of an AE-ID.
    pub fn ae(&self, list: &Store, aei: &[u8]) -> Option<u64>
        requires tree { IsTrue (is_tree list.now) }
        requires named { IsNamed list.now self.now }
        ensures { result ≡ tree.ae_of aei.now list.now }
    {
        checked_ae(list, self.aes.find(aei), aei)
    }

    /// The remote CSE of a CSE-ID.
    pub fn cse(&self, list: &Store, csi: &[u8]) -> Option<u64>
        requires tree { IsTrue (is_tree list.now) }
        requires named { IsNamed list.now self.now }
        ensures { result ≡ tree.cse_of csi.now list.now }
    {
        checked_cse(list, self.cses.find(csi), csi)
    }
}

// How many bytes stand before the first digit.
fn word_len(text: &[u8]) -> usize
    ensures value { result ≡ word_len text.now }
    ensures bound { result ≤ length text.now }
{
    text.iter()
        .take_while(|byte| !byte.is_ascii_digit())
        .count()
}

// The number that a name tells, as cin_17 does.
fn number_told(name: &[u8]) -> Option<u64>
    ensures { result ≡ spec.number_told name.now }
{
    read_digits(&name[word_len(name)..])
}

fn tells_itself(resource: &Resource) -> bool
    ensures { result ≡ tells_itself resource.now }
{
    match number_told(resource.name().entries()) {
        Some(number) => resource.number() == number,
        None => false,
    }
}

fn find_child(children: &NumberMap<Names>, parent: u64, name: &[u8]) -> Option<u64>
    ensures { result ≡ named_at children.now parent name.now }
{
    match children.get(&parent) {
        Some(names) => names.find(name),
        None => None,
    }
}

// The number, where the resource that has it is that child.
fn checked_child(list: &Store, number: Option<u64>, parent: u64, name: &[u8]) -> Option<u64>
    ensures { result ≡ checked (tree.is_child parent name.now) list.now number }
{
    let number = number?;
    match list.get(number) {
        Some(resource) if is_child(resource, parent, name) => Some(number),
        _ => None,
    }
}

fn checked_ae(list: &Store, number: Option<u64>, aei: &[u8]) -> Option<u64>
    ensures { result ≡ checked (tree.is_ae aei.now) list.now number }
{
    let number = number?;
    match list.get(number) {
        Some(resource) if is_ae(resource, aei) => Some(number),
        _ => None,
    }
}

fn checked_cse(list: &Store, number: Option<u64>, csi: &[u8]) -> Option<u64>
    ensures { result ≡ checked (tree.is_cse csi.now) list.now number }
{
    let number = number?;
    match list.get(number) {
        Some(resource) if is_cse(resource, csi) => Some(number),
        _ => None,
    }
}

// Where its name tells its number, nothing is noted.
fn add_child(
    alloc: Global,
    children: &mut NumberMap<Names>,
    resource: &Resource,
) -> Result<(), OutOfMemory>
    ensures ok { (p : ℕ) (other : List ℕ) → OnOk result (named_at children.new p other
        ≡ if tells_itself resource.now then named_at children.old p other
        else (if nat_eq resource.now.parent p && bytes_eq resource.now.name other
        then Some resource.now.number else named_at children.old p other)) }
    ensures err { (p : ℕ) (other : List ℕ) →
        OnErr result (named_at children.new p other ≡ named_at children.old p other) }
{
    if tells_itself(resource) {
        return Ok(());
    }
    add_name(
        alloc,
        children,
        resource.parent(),
        resource.name().entries(),
        resource.number(),
    )
}

fn add_name(
    alloc: Global,
    children: &mut NumberMap<Names>,
    parent: u64,
    name: &[u8],
    number: u64,
) -> Result<(), OutOfMemory>
    ensures ok { (p : ℕ) (other : List ℕ) → OnOk result (named_at children.new p other
        ≡ if nat_eq parent p && bytes_eq name.now other then Some number
        else named_at children.old p other) }
    ensures err { (p : ℕ) (other : List ℕ) →
        OnErr result (named_at children.new p other ≡ named_at children.old p other) }
{
    if let Some(names) = children.get_mut(&parent) {
        return names.add(alloc, name, number);
    }
    let mut names = Names::new(alloc, *children.hasher());
    names.add(alloc, name, number)?;
    children.insert(parent, names)?;
    Ok(())
}

fn add_id(alloc: Global, ids: &mut Names, id: Option<&Text>, number: u64) -> Result<(), OutOfMemory>
    ensures ok { (other : List ℕ) → OnOk result (number_by other ids.new
        ≡ if option_map_or (λ text. bytes_eq text other) (option_map (λ t. t.now) id.entry) false
        then Some number else number_by other ids.old) }
    ensures err { (other : List ℕ) →
        OnErr result (number_by other ids.new ≡ number_by other ids.old) }
{
    match id {
        Some(text) => ids.add(alloc, text.entries(), number),
        None => Ok(()),
    }
}

// Of the children of a parent those are found still that are in the list.
fn let_go_children(children: &mut NumberMap<Names>, list: &Store, parent: u64)
    ensures { (p : ℕ) (name : List ℕ) (n : ℕ) → named_at children.old p name ≡ Some n
        → has n list.now ≡ true → named_at children.new p name ≡ Some n }
{
    if lets_names_go(children, list, parent) {
        forget_names(children, parent);
    }
}

// Whether the parent has a table of names, and none is left in it then.
fn lets_names_go(children: &mut NumberMap<Names>, list: &Store, parent: u64) -> bool
    ensures kept { (p : ℕ) (name : List ℕ) (n : ℕ) → named_at children.old p name ≡ Some n
        → has n list.now ≡ true → named_at children.new p name ≡ Some n }
    ensures none { (name : List ℕ) → result ≡ true → named_at children.new parent name ≡ None }
{
    match children.get_mut(&parent) {
        Some(names) => {
            names.let_go(list);
            names.is_empty()
        }
        None => false,
    }
}

// A child of a parent has gone. Whether the parent had a table of names is told.
fn note_gone_child(children: &mut NumberMap<Names>, list: &Store, parent: u64) -> bool
    ensures kept { (p : ℕ) (name : List ℕ) (n : ℕ) → named_at children.old p name ≡ Some n
        → has n list.now ≡ true → named_at children.new p name ≡ Some n }
    ensures none { (name : List ℕ) → result ≡ false → named_at children.new parent name ≡ None }
{
    let Some(is_empty) = notes_child_gone(children, list, parent) else {
        return false;
    };
    if is_empty {
        forget_names(children, parent);
    }
    true
}

// Whether no name is left then in the table of a parent, where it has one.
fn notes_child_gone(children: &mut NumberMap<Names>, list: &Store, parent: u64) -> Option<bool>
    ensures kept { (p : ℕ) (name : List ℕ) (n : ℕ) → named_at children.old p name ≡ Some n
        → has n list.now ≡ true → named_at children.new p name ≡ Some n }
    ensures empty { (name : List ℕ) → result ≡ Some true
        → named_at children.new parent name ≡ None }
    ensures none { (name : List ℕ) → result ≡ None → named_at children.new parent name ≡ None }
{
    match children.get_mut(&parent) {
        Some(names) => {
            names.note_gone(list, 0);
            Some(names.is_empty())
        }
        None => None,
    }
}

// The table of a parent goes, in which no name is left.
fn forget_names(children: &mut NumberMap<Names>, parent: u64)
    requires { (name : List ℕ) → named_at children.old parent name ≡ None }
    ensures { (p : ℕ) (name : List ℕ) →
        named_at children.new p name ≡ named_at children.old p name }
{
    let _empty = children.remove(&parent);
}

//! When resources are due.
ghost use Rattle.std.specs.Prelude.{◌≡◌, ◌≤◌, ℕ, List, [], Some, None, true, false, nat_eq};
ghost use Rattle.std.specs.Prelude.{IfOk, IsTrue, OnOk, slice_get, option_map, option_to_list};
ghost use Rattle.std.specs.Option.{option_map_or};
ghost use Rattle.resource_model.specs.Resource.{ResourceData};
ghost use Rattle.tree_model.specs.Tree as tree;
ghost use Rattle.tree_model.specs.Tree.{age_of, are_quiet, at, is_tree, replaced, standing};
ghost use Rattle.resource_dues.specs.Dues.{due_at, is_told, AreTold, HasDues, TellsAll};

use m2m_names::LAST_MOMENT;
use resource_model::Resource;
use resource_store::Store;
use std::alloc::{AllocError as OutOfMemory, Global};
use std::collections::BTreeSet;
use tree_model::lowered_age;

// So many entries may stand for nothing before they go.
const FEW: u64 = 64;

// Where there are so many times as many entries as resources, most stand for nothing.
const MOST: u64 = 8;

/// Moments with the numbers of the resources that are due then, the earliest first. A resource may
/// have an entry that is too early, and never one that is too late; that of one that has gone stays
/// for a while. What is due at the last moment that there is, as most resources are that nobody
/// gave an expiry, has none.
#[derive(Drop)]
pub struct Dues {
    pub moments: BTreeSet<(u64, u64)>,
    // Where memory ran out, or a container lowered the age of its instances, some may be missing.
    pub whole: bool,
}

impl Dues {
    /// Those of no resource; it takes no memory.
    pub fn new(alloc: Global) -> Dues
        ensures { HasDues [] result }
    {
        Dues {
            moments: BTreeSet::new(alloc),
            whole: true,
        }
    }

    /// Those of a list. Where memory runs out, there is none, and the table isn't whole.
    pub fn of(alloc: Global, list: &Store) -> Dues
        ensures { HasDues list.now result }
    {
        match moments_of(alloc, list) {
            Ok(moments) => Dues {
                moments,
                whole: true,
            },
            Err(_) => Dues {
                moments: BTreeSet::new(alloc),
                whole: false,
            },
        }
    }

    /// With the moment at which the resource of a number is due, if it ever is.
    pub fn add(&mut self, due: Option<u64>, number: u64) -> Result<(), OutOfMemory>
        ensures whole { self.new.whole ≡ self.old.whole }
        ensures kept { TellsAll self.old.moments.keys self.new.moments.keys }
        ensures ok { (moment : ℕ) → OnOk result (due ≡ Some moment
            → is_told moment number self.new.moments.keys ≡ true) }
    {
        if let Some(entry) = entry_of(due, number) {
            self.moments.insert(entry)?;
        }
        Ok(())
    }

    /// The same, where it can't fail: some may be missing from then on.
    pub fn note(&mut self, due: Option<u64>, number: u64)
        ensures whole { self.new.whole ≡ true → self.old.whole ≡ true }
        ensures kept { TellsAll self.old.moments.keys self.new.moments.keys }
        ensures noted { (moment : ℕ) → self.new.whole ≡ true → due ≡ Some moment
            → is_told moment number self.new.moments.keys ≡ true }
    {
        if let Err(_) = self.add(due, number) {
            self.whole = false;
        }
    }

    /// In this list a resource takes the place of another that stood as it does.
    pub fn replace(&mut self, list: &Store, resource: &Resource)
        requires tree { IsTrue (is_tree list.now) }
        requires dues { HasDues list.now self.old }
        requires stood { option_map standing (at resource.now.number list.now)
            ≡ Some (standing resource.now) }
        ensures { HasDues (replaced resource.now list.now) self.new }
    {
        if is_as_patient(list, resource) && !self.is_full(list) {
            self.note(list.due(resource), resource.number());
        } else {
            self.whole = false;
        }
    }

    /// Made anew, where some entries may be missing.
    pub fn refresh(&mut self, alloc: Global, list: &Store)
        ensures { HasDues list.now self.old → HasDues list.now self.new }
    {
        if !self.whole {
            *self = Dues::of(alloc, list);
        }
    }

    /// The number of the first that the entries tell to be due at a moment, if one is. Entries
    /// before it go, where their resources have gone; the others are noted again at the moment at
    /// which they are due.
    pub fn next_due(&mut self, list: &Store, moment: u64) -> Option<u64>
        ensures dues { HasDues list.now self.old → HasDues list.now self.new }
        ensures due { (n : ℕ) → result ≡ Some n
            → option_map_or (tree.has_come moment) (due_at n list.now) false ≡ true }
    {
        for _ in 0..self.moments.len() {
            let Some((at, number)) = self.first() else {
                return None;
            };
            if moment < at {
                return None;
            }
            let due_at = due_of(list, number);
            if has_come(due_at, moment) {
                return Some(number);
            }
            self.pop();
            self.note(due_at, number);
        }
        None
    }

    fn first(&self) -> Option<(u64, u64)>
        ensures { result ≡ slice_get self.now.moments.keys 0 }
    {
        self.moments.first().copied()
    }

    fn pop(&mut self)
        ensures whole { self.new.whole ≡ self.old.whole }
        ensures kept { (moment n : ℕ) (first : ℕ × ℕ) → slice_get self.old.moments.keys 0
            ≡ Some first → nat_eq first.1 n ≡ false
            → is_told moment n self.old.moments.keys ≡ true
            → is_told moment n self.new.moments.keys ≡ true }
    {
        let _first = self.moments.pop_first();
    }

    /// The number of the only entry up to a moment. None where there are more, or none, and at the
    /// last moment.
    pub fn sole(&self, moment: u64) -> Option<u64>
        ensures { (number early n : ℕ) → result ≡ Some number → early ≤ moment
            → is_told early n self.now.moments.keys ≡ true → number ≡ n }
    {
        if LAST_MOMENT <= moment {
            return None;
        }
        let mut entries = self.moments.iter();
        let first = entries.next()?;
        match entries.next() {
            Some(second) if second.0 <= moment => None,
            _ => Some(first.1),
        }
    }

    /// A moment before which nothing is due.
    pub fn quiet(&self) -> u64
        ensures { (nodes : List ResourceData) → is_tree nodes ≡ true
            → AreTold nodes self.now.moments.keys → IsTrue (are_quiet result nodes) }
    {
        match self.moments.first() {
            Some(entry) => entry.0.min(LAST_MOMENT),
            None => LAST_MOMENT,
        }
    }

    /// Resources have gone, and this list has those that are left. Where more entries stand for
    /// nothing than not, and some, these go; where most do, the entries are made anew.
    pub fn note_gone(&mut self, alloc: Global, list: &Store)
        ensures { HasDues list.now self.old → HasDues list.now self.new }
    {
        if !self.is_full(list) {
            return;
        }
        if self.is_mostly_gone(list) {
            *self = Dues::of(alloc, list);
        } else {
            self.let_go(list);
        }
    }

    // Whether it is quicker to note those that are left than to let the others go.
    fn is_mostly_gone(&self, list: &Store) -> bool {
        self.moments.len() as u64 / MOST > list.len()
    }

    fn is_full(&self, list: &Store) -> bool {
        self.moments.len() as u64 > list.len().saturating_mul(2).saturating_add(FEW)
    }

    fn let_go(&mut self, list: &Store)
        ensures { HasDues list.now self.old → HasDues list.now self.new }
    {
        self.moments.retain(|entry| list.has(entry.1));
    }
}

// The entry of a number that is due at a moment, if it needs one: at the last moment none does.
fn entry_of(due: Option<u64>, number: u64) -> Option<(u64, u64)>
    ensures { (moment : ℕ) → due ≡ Some moment
        → is_told moment number (option_to_list result) ≡ true }
{
    let moment = due?;
    if LAST_MOMENT <= moment {
        return None;
    }
    Some((moment, number))
}

// The entries of all resources of a list, made at once.
fn moments_of(alloc: Global, list: &Store) -> Result<BTreeSet<(u64, u64)>, OutOfMemory>
    ensures { IfOk result (λ moments. AreTold list.now moments.keys) }
{
    let mut entries = Vec::new(alloc);
    for number in list.numbers() {
        push_entry(&mut entries, due_of(list, *number), *number)?;
    }
    in_order(alloc, entries)
}

// Pushes the entry of a number, if it needs one.
fn push_entry(
    entries: &mut Vec<(u64, u64)>,
    due: Option<u64>,
    number: u64,
) -> Result<(), OutOfMemory>
    ensures kept { TellsAll entries.old.items entries.new.items }
    ensures ok { OnOk result ((moment : ℕ) → due ≡ Some moment
        → is_told moment number entries.new.items ≡ true) }
{
    if let Some(entry) = entry_of(due, number) {
        entries.push(entry)?;
    }
    Ok(())
}

// The entries in order, the earliest first.
fn in_order(alloc: Global, entries: Vec<(u64, u64)>) -> Result<BTreeSet<(u64, u64)>, OutOfMemory>
    ensures { IfOk result (λ moments. TellsAll entries.items moments.keys) }
{
    BTreeSet::from_iter(alloc, entries)
}

/// When the resource of a number is due, if it is there and ever is.
pub fn due_of(list: &Store, number: u64) -> Option<u64>
    ensures { result ≡ due_at number list.now }
{
    match list.get(number) {
        Some(resource) => list.due(resource),
        None => None,
    }
}

/// Whether a moment has come by another.
pub fn has_come(due: Option<u64>, moment: u64) -> bool
    ensures { result ≡ option_map_or (tree.has_come moment) due false }
{
    match due {
        Some(at) => at <= moment,
        None => false,
    }
}

// Whether the instances of a resource may get as old as those of the one of its number.
fn is_as_patient(list: &Store, resource: &Resource) -> bool
    ensures { IsTrue result → tree.lowered_age (age_of (at resource.now.number list.now))
        (age_of (Some resource.now)) ≡ None }
{
    lowered_age(list.get(resource.number()), resource).is_none()
}

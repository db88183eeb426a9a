//! Attributes with their values, and sets of attributes.
ghost use Rattle.std.specs.Prelude.{◌≡◌, ◌↔◌, ◌<◌, ◌≤◌, [], IsTrue, IfOk, IsOk, IsSome};
ghost use Rattle.std.specs.Prelude.{OnOk, OnErr, IfSome, IsUtf8, MatchResult, length, option_map};
ghost use Rattle.std.specs.List.{insert};
ghost use Rattle.std.specs.Cmp.{decided, partial_equiv_from_equiv};
ghost use Rattle.std.specs.Cmp.Lexicographic.{pointwise};
ghost use Rattle.m2m_names.specs.Ids.{count_bound};
ghost use Rattle.resource_model.specs.SameRows.{same_rows-Decides};
ghost use Rattle.resource_model.specs.Attributes.{attr_cmp, AreInOrder, HoldsRow, LacksRow};
ghost use Rattle.resource_model.specs.Attributes.{value_of, with_value, without_value, count_at};
ghost use Rattle.resource_model.specs.Attributes.{same_row, text_at};

use m2m_names::Attr;
use m2m_value::{Text, Val};
use std::alloc::{AllocError as OutOfMemory, Global};
use std::cmp::Ordering;
use std::marker::Model;

/// Attributes with their values, in byte order of the short names, each at most once.
#[derive(Drop)]
pub struct Attrs {
    rows: Vec<(Attr, Val)>,
}

impl Model for Attrs {
    ghost use Rattle.std.specs.Prelude.{List};
    ghost use Rattle.resource_model.specs.Attributes.{Row, AreInOrder};
    ghost use Rattle.resource_model.specs.Codes.{rows_code};

    ghost Value = { List Row };

    ghost coded = { rows_code };

    ghost view = { λ a. a.rows.items };

    ghost invariant = { λ a. AreInOrder a.rows.items };
}

impl Attrs {
    /// No attribute; it takes no memory.
    pub fn new(alloc: Global) -> Attrs
        ensures { result ≡ [] }
    {
        Attrs {
            rows: Vec::new(alloc),
        }
    }

    /// The attributes with their values, in their order; it takes no memory.
    pub fn of(entries: Vec<(Attr, Val)>) -> Attrs
        requires { AreInOrder entries.items }
        ensures { result ≡ entries.items }
    {
        Attrs { rows: entries }
    }

    /// The attributes with their values, in their order.
    pub fn into_vec(self) -> Vec<(Attr, Val)>
        ensures entries { result.items ≡ self }
        ensures order { AreInOrder self }
    {
        self.rows
    }

    /// The attributes with their values, in their order.
    pub fn entries(&self) -> &[(Attr, Val)]
        ensures all { result.now ≡ self.now }
        ensures order { AreInOrder self.now }
    {
        &self.rows
    }

    /// The value of an attribute.
    pub fn get(&self, attr: Attr) -> Option<&Val>
        ensures { option_map (λ v. v.now) result ≡ value_of attr self.now }
    {
        value_in(&self.rows, attr)
    }

    /// The value of an attribute, where it is a text.
    pub fn text(&self, attr: Attr) -> Option<&Text>
        ensures value { option_map (λ t. t.now) result ≡ text_at attr self.now }
        ensures utf8 { IfSome result (λ t. IsUtf8 t.now) }
    {
        self.get(attr)?.as_text()
    }

    /// The value of an attribute, where it is a count: a whole number from 0 on.
    pub fn count(&self, attr: Attr) -> Option<u64>
        ensures value { result ≡ count_at attr self.now }
        ensures bound { IfSome result (λ n. n < count_bound) }
    {
        self.get(attr)?.as_count()
    }

    /// Gives an attribute a value, in place of the one that it may have. It takes memory only
    /// where it has none.
    pub fn set(&mut self, attr: Attr, value: Val) -> Result<(), OutOfMemory>
        ensures succeeds { IsSome (value_of attr self.old) → IsOk result }
        ensures ok { OnOk result (self.new ≡ with_value attr value self.old) }
        ensures err { OnErr result (self.new ≡ self.old) }
    {
        put(&mut self.rows, attr, value)
    }

    /// Takes the value of an attribute away, where it has one.
    pub fn clear(&mut self, attr: Attr)
        ensures { self.new ≡ without_value attr self.old }
    {
        take_out(&mut self.rows, attr)
    }

    /// Equal attributes.
    pub fn copy(&self, alloc: Global) -> Result<Attrs, OutOfMemory>
        ensures { IfOk result (λ a. a ≡ self.now) }
    {
        Ok(Attrs::of(copied(alloc, &self.rows)?))
    }
}

/// How the attribute of a row and an attribute stand.
fn row_order(row: &(Attr, Val), attr: Attr) -> Ordering
    ensures { result ≡ attr_cmp row.now.0 attr }
{
    row.0.order(attr)
}

/// Where the attribute's row stands, or else where one would stand.
fn place(rows: &[(Attr, Val)], attr: Attr) -> Result<usize, usize>
    requires { AreInOrder rows.now }
    ensures { MatchResult result (HoldsRow attr rows.now) (LacksRow attr rows.now) }
{
    rows.binary_search_by(|row| row_order(row, attr))
}

/// Whether the attribute comes behind those of all rows.
#[tactic(auto, using(crate::proofs::AttributeLemmas::no_rows_lack))]
fn is_behind(rows: &[(Attr, Val)], attr: Attr) -> bool
    requires { AreInOrder rows.now }
    ensures { IsTrue result → LacksRow attr rows.now (length rows.now) }
{
    rows.is_empty() || row_order(&rows[rows.len() - 1], attr).is_lt()
}

/// The same as `place`, with no search for what comes behind all rows.
fn place_to_put(rows: &[(Attr, Val)], attr: Attr) -> Result<usize, usize>
    requires { AreInOrder rows.now }
    ensures { MatchResult result (HoldsRow attr rows.now) (LacksRow attr rows.now) }
{
    if is_behind(rows, attr) {
        Err(rows.len())
    } else {
        place(rows, attr)
    }
}

/// Inserts a row at its place. Behind the last one nothing is moved.
#[tactic(auto, using(crate::proofs::AttributeLemmas::insert_last))]
fn insert_row(rows: &mut Vec<(Attr, Val)>, at: usize, row: (Attr, Val)) -> Result<(), OutOfMemory>
    requires { at ≤ length rows.old.items }
    ensures ok { OnOk result (rows.new.items ≡ insert rows.old.items at row) }
    ensures err { OnErr result (rows.new.items ≡ rows.old.items) }
{
    if at < rows.len() {
        Ok(rows.insert(at, row)?)
    } else {
        Ok(rows.push(row)?)
    }
}

fn put(rows: &mut Vec<(Attr, Val)>, attr: Attr, value: Val) -> Result<(), OutOfMemory>
    requires { AreInOrder rows.old.items }
    ensures succeeds { IsSome (value_of attr rows.old.items) → IsOk result }
    ensures ok { OnOk result (rows.new.items ≡ with_value attr value rows.old.items) }
    ensures err { OnErr result (rows.new.items ≡ rows.old.items) }
    ensures order { AreInOrder rows.new.items }
{
    match place_to_put(rows, attr) {
        Ok(at) => {
            rows[at] = (attr, value);
            Ok(())
        }
        Err(at) => Ok(insert_row(rows, at, (attr, value))?),
    }
}

fn take_out(rows: &mut Vec<(Attr, Val)>, attr: Attr)
    requires { AreInOrder rows.old.items }
    ensures value { rows.new.items ≡ without_value attr rows.old.items }
    ensures order { AreInOrder rows.new.items }
{
    if let Ok(at) = place(rows, attr) {
        let _row = rows.remove(at);
    }
}

fn value_in(rows: &[(Attr, Val)], attr: Attr) -> Option<&Val>
    requires { AreInOrder rows.now }
    ensures { option_map (λ v. v.now) result ≡ value_of attr rows.now }
{
    match place(rows, attr) {
        Ok(at) => Some(&rows[at].1),
        Err(_) => None,
    }
}

impl PartialEq for Attrs {
    ghost eq = { pointwise same_row };

    ghost laws = { partial_equiv_from_equiv (decided (pointwise same_row) same_rows-Decides) };

    fn eq(&self, other: &Attrs) -> bool
        ensures value { result ≡ pointwise same_row self.now other.now }
        ensures means { IsTrue result ↔ (self.now ≡ other.now) }
    {
        have_same_rows(self, other)
    }
}

impl Eq for Attrs {
    ghost laws = { decided (pointwise same_row) same_rows-Decides };
}

fn have_same_rows(one: &Attrs, other: &Attrs) -> bool
    ensures { result ≡ pointwise same_row one.now other.now }
{
    are_same(&one.rows, &other.rows)
}

fn are_same(one: &[(Attr, Val)], other: &[(Attr, Val)]) -> bool
    ensures { result ≡ pointwise same_row one.now other.now }
{
    if one.len() != other.len() {
        return false;
    }
    for (i, row) in one.iter().enumerate() {
        if !is_same_row(row, &other[i]) {
            return false;
        }
    }
    true
}

fn is_same_row(one: &(Attr, Val), other: &(Attr, Val)) -> bool
    ensures { result ≡ same_row one.now other.now }
{
    one.0.short() == other.0.short() && one.1 == other.1
}

fn copied(alloc: Global, rows: &[(Attr, Val)]) -> Result<Vec<(Attr, Val)>, OutOfMemory>
    ensures { IfOk result (λ v. v.items ≡ rows.now) }
{
    let mut copies = Vec::with_capacity(alloc, rows.len())?;
    for row in rows {
        copies.push((row.0, row.1.copy(alloc)?))?;
    }
    Ok(copies)
}

/// A list of attributes.
#[derive(Debug, Drop)]
pub struct AttrSet {
    names: Vec<Attr>,
}

impl Model for AttrSet {
    ghost use Rattle.std.specs.Prelude.{List};
    ghost use Rattle.m2m_names.specs.declared.attributes.Attr.{Attr};

    ghost Value = { List Attr };

    ghost view = { λ s. s.names.items };
}

impl AttrSet {
    /// The names; it takes no memory.
    pub fn of(entries: Vec<Attr>) -> AttrSet
        ensures { result ≡ entries.items }
    {
        AttrSet { names: entries }
    }

    /// The names.
    pub fn into_vec(self) -> Vec<Attr>
        ensures { result.items ≡ self }
    {
        self.names
    }

    /// The names.
    pub fn entries(&self) -> &[Attr]
        ensures { result.now ≡ self.now }
    {
        &self.names
    }
}

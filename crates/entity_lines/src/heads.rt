//! The first line.
ghost use Rattle.std.specs.Prelude.{◌≡◌, ◌≤◌, ◌<◌, ◌+◌, [], ◌∷◌, ◌++◌, length, IfOk, IfSome, OnOk};
ghost use Rattle.std.specs.Prelude.{OnErr, ok_or, option_map};
ghost use Rattle.m2m_names.specs.Ids.{count_bound};
ghost use Rattle.m2m_value.specs.Same.{same};
ghost use Rattle.journal_lines.specs.Header.{home_data};
ghost use Rattle.journal_lines.specs.Lines as lines;
ghost use Rattle.entity_lines.specs.Heads as spec;
ghost use Rattle.entity_lines.specs.Heads.{SpellsHead, TellsHead};

use crate::values::{count_value, pair_value, triple_value, values_in};
use journal_lines::{HeaderFault, home_value, line_len, push_value};
use m2m_value::{Items, OutOfMemory, Scratch, Val, ValFault, read_in};
use resource_model::Home;
use std::alloc::Global;

/// The number of the format.
const FORMAT: u64 = 1;

/// What the first line says of an entity.
#[derive(Clone, Copy, Debug, PartialEq, Eq)]
pub struct Head {
    /// The number of the resource that is created next.
    pub next: u64,
    /// The moment of the last event, in seconds since 1970.
    pub last: u64,
    /// How many items were ever numbered.
    pub numbered: u64,
    /// How many resources there are.
    pub resources: u64,
    /// How many items there are.
    pub items: u64,
}

// ---- what is written

fn counters_value(alloc: Global, head: Head) -> Result<Val, OutOfMemory>
    requires next { head.next < count_bound }
    requires last { head.last < count_bound }
    requires numbered { head.numbered < count_bound }
    ensures { IfOk result (λ v. v ≡ spec.counters_data head) }
{
    let Head {
        next,
        last,
        numbered,
        ..
    } = head;
    triple_value(
        alloc,
        count_value(next),
        count_value(last),
        count_value(numbered),
    )
}

fn sizes_value(alloc: Global, head: Head) -> Result<Val, OutOfMemory>
    requires resources { head.resources < count_bound }
    requires items { head.items < count_bound }
    ensures { IfOk result (λ v. v ≡ spec.sizes_data head) }
{
    pair_value(alloc, count_value(head.resources), count_value(head.items))
}

fn head_value(alloc: Global, home: &Home, head: Head) -> Result<Val, OutOfMemory>
    requires next { head.next < count_bound }
    requires last { head.last < count_bound }
    requires numbered { head.numbered < count_bound }
    requires resources { head.resources < count_bound }
    requires items { head.items < count_bound }
    ensures { IfOk result (λ v. v ≡ spec.head_data home.now head) }
{
    let mut items = Vec::with_capacity(alloc, 4)?;
    items.push(count_value(FORMAT))?;
    items.push(home_value(alloc, home)?)?;
    items.push(counters_value(alloc, head)?)?;
    items.push(sizes_value(alloc, head)?)?;
    Ok(Val::of_list(Items::of(items)))
}

/// Appends the first line of an entity of a home, or leaves the text as it was.
pub fn push_head(
    alloc: Global,
    text: &mut Vec<u8>,
    home: &Home,
    head: Head,
) -> Result<(), OutOfMemory>
    requires next { head.next < count_bound }
    requires last { head.last < count_bound }
    requires numbered { head.numbered < count_bound }
    requires resources { head.resources < count_bound }
    requires items { head.items < count_bound }
    ensures written { OnOk result
        (text.new.items ≡ text.old.items ++ spec.head_line home.now head) }
    ensures spells { OnOk result (SpellsHead home.now head (spec.head_line home.now head)) }
    ensures err { OnErr result (text.new.items ≡ text.old.items) }
{
    let value = head_value(alloc, home, head)?;
    let mut line = Vec::new(alloc);
    push_value(&mut line, &value)?;
    text.extend_from_slice(&line)?;
    Ok(())
}

// ---- what is read

fn three_by(values: &[Val]) -> Option<(u64, u64, u64)>
    ensures { result ≡ spec.three_by values.now }
{
    match values {
        [a, b, c] => Some((a.as_count()?, b.as_count()?, c.as_count()?)),
        _ => None,
    }
}

fn two_by(values: &[Val]) -> Option<(u64, u64)>
    ensures { result ≡ spec.two_by values.now }
{
    match values {
        [a, b] => Some((a.as_count()?, b.as_count()?)),
        _ => None,
    }
}

fn head_in(counters: &Val, sizes: &Val) -> Option<Head>
    ensures { result ≡ spec.head_in counters.now sizes.now }
{
    let (next, last, numbered) = three_by(values_in(counters))?;
    let (resources, items) = two_by(values_in(sizes))?;
    Some(Head {
        next,
        last,
        numbered,
        resources,
        items,
    })
}

fn is_format(value: &Val) -> bool
    ensures { result ≡ spec.is_format value.now }
{
    match value.as_count() {
        Some(number) => number == FORMAT,
        None => false,
    }
}

fn is_home(alloc: Global, value: &Val, home: &Home) -> Result<bool, OutOfMemory>
    ensures { IfOk result (λ is. is ≡ same (home_data home.now) value.now) }
{
    Ok(home_value(alloc, home)? == *value)
}

/// What a list says as the head of an entity of a home.
fn head_by(alloc: Global, values: &[Val], home: &Home) -> Result<Head, HeaderFault>
    ensures { TellsHead (λ head. head) result (spec.head_by home.now values.now) }
{
    let [version, own, counters, sizes] = values else {
        return Err(HeaderFault::NoHeader);
    };
    if !is_format(version) {
        return Err(HeaderFault::OtherFormat);
    }
    if !is_home(alloc, own, home)? {
        return Err(HeaderFault::OtherHome);
    }
    match head_in(counters, sizes) {
        Some(head) => Ok(head),
        None => Err(HeaderFault::NoHeader),
    }
}

fn head_spelled(
    alloc: Global,
    scratch: &mut Scratch,
    line: &[u8],
    home: &Home,
) -> Result<Head, HeaderFault>
    ensures { TellsHead (λ head. head) result (spec.head_spelled home.now line.now) }
{
    match read_in(alloc, scratch, line) {
        Ok(value) => head_by(alloc, values_in(&value), home),
        Err(ValFault::OutOfMemory) => Err(HeaderFault::OutOfMemory),
        Err(_) => Err(HeaderFault::NoHeader),
    }
}

/// What the first line of a text says of an entity of a home, and how many bytes it has; or why it
/// says nothing.
pub fn first_head(
    alloc: Global,
    scratch: &mut Scratch,
    text: &[u8],
    home: &Home,
) -> Result<(Head, usize), HeaderFault>
    ensures head { TellsHead (λ h. h.0) result (spec.first_head home.now text.now) }
    ensures len { IfOk result (λ h. h.1 ≡ lines.line_len text.now + 1) }
    ensures within { IfOk result (λ h. h.1 ≤ length text.now) }
{
    let end = line_len(text);
    if end >= text.len() {
        return Err(HeaderFault::NoHeader);
    }
    let head = head_spelled(alloc, scratch, &text[..end], home)?;
    Ok((head, end + 1))
}

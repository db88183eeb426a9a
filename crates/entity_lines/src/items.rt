//! The lines of an item of the outbox.
ghost use Rattle.std.specs.Prelude.{◌≡◌, ℕ, ◌≤◌, ◌<◌, ◌++◌, List, Some, length, IfOk, IfSome, OnOk};
ghost use Rattle.std.specs.Prelude.{OnErr, IfNone, IsErrOf, IsUtf8, option_and_then, option_map};
ghost use Rattle.m2m_names.specs.Ids.{count_bound};
ghost use Rattle.m2m_value.specs.Shapes.{largest_count};
ghost use Rattle.m2m_value.specs.Data as json;
ghost use Rattle.m2m_value.specs.Spelling.{text_of};
ghost use Rattle.m2m_value.specs.View.{as_text};
ghost use Rattle.primitive_json.specs.Notes.{IsSomeUrl, IsSoundDest};
ghost use Rattle.primitive_json.specs.declared.note.Dest.{Dest};
ghost use Rattle.notify_outbox.specs.declared.item.Item.{Item};
ghost use Rattle.journal_lines.specs.Lines as lines;
ghost use Rattle.journal_lines.specs.Lines.{ended};
ghost use Rattle.entity_lines.specs.Items as spec;
ghost use Rattle.entity_lines.specs.Items.{CanBeKept, IsReadableDest, SpellsItem};
ghost use Rattle.entity_lines.specs.Values.{count_data, pair_data};
ghost use Rattle.entity_lines.specs.declared.items.Tag.{Tag};

use crate::values::{count_value, pair_value, triple_value, values_in};
use filter_criteria::text_value;
use journal_lines::{Dated, Deed, LineFault, first_dated, line_len, push_dated, push_value};
use m2m_names::{LARGEST_COUNT, read_url};
use m2m_value::{OutOfMemory, Scratch, Text, Val, ValFault, read_in};
use notify_outbox::Item;
use primitive_json::{Dest, Kind, Note, NoteParts, Request};
use std::alloc::Global;
use std::str;

/// A moment is below this number.
const MOMENT_BOUND: u64 = 1_000_000_000_000_000_000;

/// What a line says of an item, beside its moment and its request.
#[derive(Drop)]
struct Tag {
    number: u64,
    kind: Kind,
    dest: Dest,
}

// ---- what is written

fn kind_number(kind: Kind) -> u64
    ensures { result ≡ spec.kind_number kind }
{
    match kind {
        Kind::Notification => 1,
        Kind::Relay => 2,
        Kind::Copy => 3,
    }
}

/// Where an item leads; none where that isn't read back.
fn dest_value(alloc: Global, dest: &Dest) -> Result<Option<Val>, OutOfMemory>
    ensures some { IfOk result (λ v. IfSome v (λ v. v ≡ spec.dest_data dest.now)) }
    ensures none { IfOk result (λ v. IfNone v (¬ IsReadableDest dest.now)) }
{
    match dest {
        Dest::Direct(url) => led_to(alloc, 1, url),
        Dest::Peer(url) => led_to(alloc, 2, url),
        Dest::Channel(number) => led_into(alloc, *number),
        Dest::Nowhere => Ok(Some(pair_value(alloc, count_value(4), count_value(0))?)),
    }
}

/// A number that says how an item leads to a URL, and the URL.
fn led_to(alloc: Global, how: u64, url: &Text) -> Result<Option<Val>, OutOfMemory>
    requires { how < count_bound }
    ensures some { IfOk result (λ v. IfSome v
        (λ v. v ≡ pair_data (count_data how) (json.text url.now))) }
    ensures none { IfOk result (λ v. IfNone v (¬ IsUtf8 url.now)) }
{
    match str::from_utf8(url.entries()) {
        Ok(_) => {
            let url = text_value(alloc, url)?;
            Ok(Some(pair_value(alloc, count_value(how), url)?))
        }
        Err(_) => Ok(None),
    }
}

/// The number that says that an item leads into a channel, and the channel's.
fn led_into(alloc: Global, channel: u64) -> Result<Option<Val>, OutOfMemory>
    ensures some { IfOk result (λ v. IfSome v
        (λ v. v ≡ pair_data (count_data 3) (count_data channel))) }
    ensures none { IfOk result (λ v. IfNone v (¬ (channel ≤ largest_count))) }
{
    if channel > LARGEST_COUNT {
        return Ok(None);
    }
    Ok(Some(pair_value(alloc, count_value(3), count_value(channel))?))
}

/// Its number, its kind and where it leads; none where that isn't read back.
fn tag_value(alloc: Global, item: &Item) -> Result<Option<Val>, OutOfMemory>
    ensures some { IfOk result (λ v. IfSome v (λ v. v ≡ spec.tag_data item.now)) }
    ensures none { IfOk result (λ v. IfNone v
        (item.now.number ≤ largest_count → ¬ IsReadableDest item.now.note.dest)) }
{
    if item.number > LARGEST_COUNT {
        return Ok(None);
    }
    let parts = item.note.parts();
    let Some(dest) = dest_value(alloc, &parts.dest)? else {
        return Ok(None);
    };
    let number = count_value(item.number);
    let kind = count_value(kind_number(parts.kind));
    Ok(Some(triple_value(alloc, number, kind, dest)?))
}

/// The line of a tag.
fn push_tag(alloc: Global, text: &mut Vec<u8>, item: &Item) -> Result<(), LineFault>
    ensures written { OnOk result
        (text.new.items ≡ text.old.items ++ ended (text_of (spec.tag_data item.now))) }
    ensures spells { OnOk result
        (spec.tag_spelled (text_of (spec.tag_data item.now)) ≡ Some (spec.item_tag item.now)) }
    ensures unkept { IsErrOf result LineFault.Unkept → item.now.number ≤ largest_count
        → ¬ IsReadableDest item.now.note.dest }
{
    let Some(value) = tag_value(alloc, item)? else {
        return Err(LineFault::Unkept);
    };
    push_value(text, &value)?;
    Ok(())
}

/// The lines of an item.
fn push_lines(alloc: Global, text: &mut Vec<u8>, item: &Item) -> Result<(), LineFault>
    ensures written { OnOk result
        (text.new.items ≡ text.old.items ++ spec.item_lines item.now) }
    ensures spells { OnOk result (SpellsItem item.now (spec.item_lines item.now)) }
    ensures unkept { IsErrOf result LineFault.Unkept → ¬ CanBeKept item.now }
{
    if item.since >= MOMENT_BOUND {
        return Err(LineFault::Unkept);
    }
    push_tag(alloc, text, item)?;
    push_dated(alloc, text, item.since, &item.note.parts().request)?;
    Ok(())
}

/// Appends the lines of an item, or leaves the text as it was. An item is unkept that wouldn't be
/// read back as it is.
pub fn push_item(alloc: Global, text: &mut Vec<u8>, item: &Item) -> Result<(), LineFault>
    ensures written { OnOk result
        (text.new.items ≡ text.old.items ++ spec.item_lines item.now) }
    ensures spells { OnOk result (SpellsItem item.now (spec.item_lines item.now)) }
    ensures err { OnErr result (text.new.items ≡ text.old.items) }
    ensures unkept { IsErrOf result LineFault.Unkept → ¬ CanBeKept item.now }
{
    let mut lines = Vec::new(alloc);
    push_lines(alloc, &mut lines, item)?;
    text.extend_from_slice(&lines)?;
    Ok(())
}

// ---- what is read

fn kind_of(number: u64) -> Option<Kind>
    ensures { result ≡ spec.kind_of number }
{
    if number == 1 {
        return Some(Kind::Notification);
    }
    if number == 2 {
        return Some(Kind::Relay);
    }
    if number == 3 {
        return Some(Kind::Copy);
    }
    None
}

fn kind_in(value: &Val) -> Option<Kind>
    ensures { result ≡ spec.kind_in value.now }
{
    kind_of(value.as_count()?)
}

/// The text that a value is, where it is a URL.
fn url_in(alloc: Global, value: &Val) -> Result<Option<Text>, OutOfMemory>
    ensures found { IfOk result (λ url. IfSome url
        (λ url. (as_text value.now ≡ Some url) × IsSomeUrl url)) }
    ensures only { (url : List ℕ) → as_text value.now ≡ Some url → IsSomeUrl url
        → IfOk result (λ found. found ≡ Some url) }
{
    let Some(url) = value.as_text() else {
        return Ok(None);
    };
    match read_url(url.entries()) {
        Some(_) => Ok(Some(url.copy(alloc)?)),
        None => Ok(None),
    }
}

/// Where an item leads, by a number that says how.
fn dest_by(alloc: Global, how: u64, what: &Val) -> Result<Option<Dest>, OutOfMemory>
    ensures found { IfOk result (λ dest. IfSome dest
        (λ dest. (spec.dest_by how what.now ≡ Some dest) × IsSoundDest dest)) }
    ensures only { (dest : Dest) → spec.dest_by how what.now ≡ Some dest → IsSoundDest dest
        → IfOk result (λ found. found ≡ Some dest) }
{
    if how == 1 {
        return Ok(url_in(alloc, what)?.map(Dest::Direct));
    }
    if how == 2 {
        return Ok(url_in(alloc, what)?.map(Dest::Peer));
    }
    if how == 3 {
        return Ok(what.as_count().map(Dest::Channel));
    }
    if how == 4 {
        return Ok(Some(Dest::Nowhere));
    }
    Ok(None)
}

fn dest_in(alloc: Global, value: &Val) -> Result<Option<Dest>, OutOfMemory>
    ensures found { IfOk result (λ dest. IfSome dest
        (λ dest. (spec.dest_in value.now ≡ Some dest) × IsSoundDest dest)) }
    ensures only { (dest : Dest) → spec.dest_in value.now ≡ Some dest → IsSoundDest dest
        → IfOk result (λ found. found ≡ Some dest) }
{
    let [how, what] = values_in(value) else {
        return Ok(None);
    };
    match how.as_count() {
        Some(how) => dest_by(alloc, how, what),
        None => Ok(None),
    }
}

/// The tag that a value is.
fn tag_in(alloc: Global, value: &Val) -> Result<Option<Tag>, OutOfMemory>
    ensures found { IfOk result (λ tag. IfSome tag
        (λ tag. (spec.tag_in value.now ≡ Some tag) × IsSoundDest tag.dest)) }
    ensures only { (tag : Tag) → spec.tag_in value.now ≡ Some tag → IsSoundDest tag.dest
        → IfOk result (λ found. found ≡ Some tag) }
{
    let [own, kind, dest] = values_in(value) else {
        return Ok(None);
    };
    let (Some(number), Some(kind)) = (own.as_count(), kind_in(kind)) else {
        return Ok(None);
    };
    match dest_in(alloc, dest)? {
        Some(dest) => Ok(Some(Tag { number, kind, dest })),
        None => Ok(None),
    }
}

fn tag_spelled(
    alloc: Global,
    scratch: &mut Scratch,
    line: &[u8],
) -> Result<Option<Tag>, OutOfMemory>
    ensures found { IfOk result (λ tag. IfSome tag
        (λ tag. (spec.tag_spelled line.now ≡ Some tag) × IsSoundDest tag.dest)) }
    ensures only { (tag : Tag) → spec.tag_spelled line.now ≡ Some tag → IsSoundDest tag.dest
        → IfOk result (λ found. found ≡ Some tag) }
{
    match read_in(alloc, scratch, line) {
        Ok(value) => tag_in(alloc, &value),
        Err(ValFault::OutOfMemory) => Err(OutOfMemory),
        Err(_) => Ok(None),
    }
}

/// The item of a tag and a request at a moment.
fn item_of(tag: Tag, since: u64, request: Request) -> Item
    requires { IsSoundDest tag.dest }
    ensures { result ≡ spec.item_of tag since request }
{
    let Tag { number, kind, dest } = tag;
    let note = Note::of(NoteParts {
        kind,
        dest,
        request,
    });
    Item {
        number,
        since,
        note,
    }
}

/// A deed at a moment as an item, if it is a request.
fn dated_item(tag: Tag, dated: Dated) -> Option<Item>
    requires { IsSoundDest tag.dest }
    ensures { result ≡ spec.dated_item tag dated }
{
    let Dated { moment, deed } = dated;
    match deed {
        Deed::Ask(request) => Some(item_of(tag, moment, request)),
        Deed::Take | Deed::Tick => None,
    }
}

/// The item of a tag whose request has the lines at the front of a text, and how many bytes these
/// have.
fn asked_item(
    alloc: Global,
    scratch: &mut Scratch,
    tag: Tag,
    text: &[u8],
) -> Result<Option<(Item, usize)>, OutOfMemory>
    requires { IsSoundDest tag.dest }
    ensures item { IfOk result (λ found. option_map (λ f. f.0) found
        ≡ option_and_then (spec.dated_item tag) (lines.first_dated text.now)) }
    ensures len { IfOk result (λ found. IfSome found (λ f. f.1 ≡ lines.dated_len text.now)) }
    ensures within { IfOk result (λ found. IfSome found (λ f. f.1 ≤ length text.now)) }
{
    let Some((dated, len)) = first_dated(alloc, scratch, text)? else {
        return Ok(None);
    };
    match dated_item(tag, dated) {
        Some(item) => Ok(Some((item, len))),
        None => Ok(None),
    }
}

/// The item whose lines stand at the front of a text, if any stands there whose destination may be
/// one, and how many bytes they have.
pub fn first_item(
    alloc: Global,
    scratch: &mut Scratch,
    text: &[u8],
) -> Result<Option<(Item, usize)>, OutOfMemory>
    ensures found { IfOk result (λ found. IfSome found (λ f. spec.first_item text.now ≡ Some f.0)) }
    ensures only { (item : Item) → spec.first_item text.now ≡ Some item
        → IsSoundDest item.note.dest
        → IfOk result (λ found. option_map (λ f. f.0) found ≡ Some item) }
    ensures sound { IfOk result (λ found. IfSome found (λ f. IsSoundDest f.0.note.dest)) }
    ensures len { IfOk result (λ found. IfSome found (λ f. f.1 ≡ spec.item_len text.now)) }
    ensures within { IfOk result (λ found. IfSome found (λ f. f.1 ≤ length text.now)) }
{
    let end = line_len(text);
    if end >= text.len() {
        return Ok(None);
    }
    let Some(tag) = tag_spelled(alloc, scratch, &text[..end])? else {
        return Ok(None);
    };
    match asked_item(alloc, scratch, tag, &text[end + 1..])? {
        Some((item, len)) => Ok(Some((item, end + 1 + len))),
        None => Ok(None),
    }
}

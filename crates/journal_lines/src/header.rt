//! The first line of a journal.
ghost use Rattle.std.specs.Prelude.{◌≡◌, ◌≤◌, ◌<◌, ◌+◌, [], ◌∷◌, ◌++◌, length, IsUtf8};
ghost use Rattle.std.specs.Prelude.{IfOk, IfSome, OnOk, OnErr, ok_or};
ghost use Rattle.m2m_value.specs.Data as plain;
ghost use Rattle.journal_lines.specs.Header as spec;
ghost use Rattle.journal_lines.specs.Header.{Tells};
ghost use Rattle.journal_lines.specs.Lines as lines;

use crate::reading::line_len;
use crate::writing::push_value;
use filter_criteria::{push_member, sorted_object, text_value, value_at};
use m2m_value::{MemberKey, Scratch, Text, Val, ValFault, read_in};
use resource_model::Home;
use std::alloc::{AllocError as OutOfMemory, Global};

/// The number of the format of journals. It rises with each change of what the machine gives.
const FORMAT: u64 = 2;

/// A reading is below this number.
const READING_BOUND: u64 = 1_000_000_000_000_000_000;

/// Why a text isn't a journal of a home.
#[derive(Clone, Copy, Debug, PartialEq, Eq)]
pub enum HeaderFault {
    /// It has no first line of this form.
    NoHeader,
    /// It is a journal of another format.
    OtherFormat,
    /// It is a journal of another home.
    OtherHome,
    /// Memory ran out.
    OutOfMemory,
}

impl From<OutOfMemory> for HeaderFault {
    ghost use Rattle.journal_lines.specs.declared.header.HeaderFault.{HeaderFault};

    ghost from_gives = { λ _ e. e ≡ HeaderFault.OutOfMemory };

    fn from(_: OutOfMemory) -> Self {
        HeaderFault::OutOfMemory
    }
}

// ---- what is written

/// A member that is a text.
fn push_text(
    alloc: Global,
    entries: &mut Vec<(MemberKey, Val)>,
    name: &'static str,
    text: &Text,
) -> Result<(), OutOfMemory>
    requires { IsUtf8 text.now }
    ensures { OnOk result
        (entries.new.items ≡ entries.old.items ++ (name.now, plain.text text.now) ∷ []) }
{
    let value = text_value(alloc, text)?;
    push_member(entries, name, Some(value))
}

/// The home as an object.
pub fn home_value(alloc: Global, home: &Home) -> Result<Val, OutOfMemory>
    ensures { IfOk result (λ v. v ≡ spec.home_data home.now) }
{
    let mut entries = Vec::with_capacity(alloc, 5)?;
    push_text(alloc, &mut entries, "admin", home.admin())?;
    push_text(alloc, &mut entries, "base", home.base())?;
    push_text(alloc, &mut entries, "csi", home.csi())?;
    push_member(&mut entries, "cst", Some(Val::of_num(home.cst())))?;
    push_text(alloc, &mut entries, "sp", home.sp())?;
    Ok(sorted_object(entries))
}

/// The header as an object.
fn header_value(alloc: Global, home: &Home, opened: u64) -> Result<Val, OutOfMemory>
    requires { opened < lines.moment_bound }
    ensures { IfOk result (λ v. v ≡ spec.header_data home.now opened) }
{
    let home = home_value(alloc, home)?;
    let mut entries = Vec::with_capacity(alloc, 3)?;
    push_member(&mut entries, "format", Some(Val::of_num(FORMAT as i64)))?;
    push_member(&mut entries, "home", Some(home))?;
    push_member(&mut entries, "opened", Some(Val::of_num(opened as i64)))?;
    Ok(sorted_object(entries))
}

/// Appends the header of a journal of a home whose entity opens at a reading, or leaves the text as
/// it was.
pub fn push_header(
    alloc: Global,
    text: &mut Vec<u8>,
    home: &Home,
    opened: u64,
) -> Result<(), OutOfMemory>
    requires { opened < lines.moment_bound }
    ensures written { OnOk result
        (text.new.items ≡ text.old.items ++ spec.header_of home.now opened) }
    ensures err { OnErr result (text.new.items ≡ text.old.items) }
{
    let value = header_value(alloc, home, opened)?;
    let mut line = Vec::new(alloc);
    push_value(&mut line, &value)?;
    text.extend_from_slice(&line)
}

// ---- what is read

fn format_in(value: &Val) -> Option<u64>
    ensures { result ≡ spec.format_in value.now }
{
    value_at(value, "format")?.as_count()
}

/// Whether a header is one of a journal of this home.
pub fn is_of_home(alloc: Global, value: &Val, home: &Home) -> Result<bool, OutOfMemory>
    ensures { IfOk result (λ is. is ≡ spec.is_of_home home.now value.now) }
{
    let own = home_value(alloc, home)?;
    match value_at(value, "home") {
        Some(there) => Ok(own == *there),
        None => Ok(false),
    }
}

fn opened_in(value: &Val) -> Option<u64>
    ensures value { result ≡ spec.opened_in value.now }
    ensures bound { IfSome result (λ opened. opened < lines.moment_bound) }
{
    let opened = value_at(value, "opened")?.as_count()?;
    if opened < READING_BOUND {
        Some(opened)
    } else {
        None
    }
}

/// The reading that a value of this format says.
fn reading_said(value: &Val) -> Result<u64, HeaderFault>
    ensures value { Tells (λ opened. opened) result
        (ok_or (spec.opened_in value.now) HeaderFault.NoHeader) }
    ensures bound { IfOk result (λ opened. opened < lines.moment_bound) }
{
    match opened_in(value) {
        Some(opened) => Ok(opened),
        None => Err(HeaderFault::NoHeader),
    }
}

/// What a value of this format says as the header of a journal of a home.
fn header_at_home(alloc: Global, value: &Val, home: &Home) -> Result<u64, HeaderFault>
    ensures value { Tells (λ opened. opened) result (spec.header_at_home home.now value.now) }
    ensures bound { IfOk result (λ opened. opened < lines.moment_bound) }
{
    if !is_of_home(alloc, value, home)? {
        return Err(HeaderFault::OtherHome);
    }
    reading_said(value)
}

/// What a value of a format says.
fn header_by(alloc: Global, value: &Val, home: &Home, number: u64) -> Result<u64, HeaderFault>
    ensures value { Tells (λ opened. opened) result (spec.header_by home.now value.now number) }
    ensures bound { IfOk result (λ opened. opened < lines.moment_bound) }
{
    if number == FORMAT {
        header_at_home(alloc, value, home)
    } else {
        Err(HeaderFault::OtherFormat)
    }
}

fn header_in(alloc: Global, value: &Val, home: &Home) -> Result<u64, HeaderFault>
    ensures value { Tells (λ opened. opened) result (spec.header_in home.now value.now) }
    ensures bound { IfOk result (λ opened. opened < lines.moment_bound) }
{
    match format_in(value) {
        Some(number) => header_by(alloc, value, home, number),
        None => Err(HeaderFault::NoHeader),
    }
}

fn header_spelled(
    alloc: Global,
    scratch: &mut Scratch,
    line: &[u8],
    home: &Home,
) -> Result<u64, HeaderFault>
    ensures value { Tells (λ opened. opened) result (spec.header_spelled home.now line.now) }
    ensures bound { IfOk result (λ opened. opened < lines.moment_bound) }
{
    match read_in(alloc, scratch, line) {
        Ok(value) => header_in(alloc, &value, home),
        Err(ValFault::OutOfMemory) => Err(HeaderFault::OutOfMemory),
        Err(_) => Err(HeaderFault::NoHeader),
    }
}

/// The reading at which the entity opened whose journal a text is, and how many bytes its first
/// line has; or why it isn't a journal of this home.
pub fn first_header(
    alloc: Global,
    scratch: &mut Scratch,
    text: &[u8],
    home: &Home,
) -> Result<(u64, usize), HeaderFault>
    ensures opened { Tells (λ h. h.0) result (spec.first_header home.now text.now) }
    ensures bound { IfOk result (λ h. h.0 < lines.moment_bound) }
    ensures len { IfOk result (λ h. h.1 ≡ lines.line_len text.now + 1) }
    ensures within { IfOk result (λ h. h.1 ≤ length text.now) }
{
    let end = line_len(text);
    if end >= text.len() {
        return Err(HeaderFault::NoHeader);
    }
    let opened = header_spelled(alloc, scratch, &text[..end], home)?;
    Ok((opened, end + 1))
}

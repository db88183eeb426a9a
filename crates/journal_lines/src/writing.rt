//! From a deed to its lines.
ghost use Rattle.std.specs.Prelude.{◌≡◌, ◌<◌, ◌≤◌, ◌++◌, IsErrOf, Ok, OnOk, OnErr, false, true};
ghost use Rattle.std.specs.Prelude.{decimal};
ghost use Rattle.journal_lines.specs.Keeping as keeping;
ghost use Rattle.journal_lines.specs.Lines as spec;
ghost use Rattle.journal_lines.specs.Lines.{IsReadBack};
ghost use Rattle.journal_lines.specs.declared.deed.Deed.TheVariants.{Ask, Take, Tick};
ghost use Rattle.m2m_value.specs.Data.{depth};
ghost use Rattle.m2m_value.specs.Reading.{reading, reading_depth};
ghost use Rattle.m2m_value.specs.Sound.{BeginsWith, IsSound};
ghost use Rattle.m2m_value.specs.Spelling.{text_of};
ghost use Rattle.primitive_json.specs.Writing.{written_request};

use crate::keeping::can_be_kept;
use crate::primitive::push_primitive;
use m2m_value::{Val, write};
use primitive_json::Request;
use std::alloc::{AllocError as OutOfMemory, Global};

/// Why the lines of a request aren't written.
#[derive(Clone, Copy, Debug, PartialEq, Eq)]
pub enum LineFault {
    /// The request can't be kept: it wouldn't be read back as it is.
    Unkept,
    /// Memory ran out.
    OutOfMemory,
}

impl From<OutOfMemory> for LineFault {
    ghost use Rattle.journal_lines.specs.declared.writing.LineFault.{LineFault};

    ghost from_gives = { λ _ e. e ≡ LineFault.OutOfMemory };

    fn from(_: OutOfMemory) -> Self {
        LineFault::OutOfMemory
    }
}

/// A number in decimal digits.
fn push_number(text: &mut Vec<u8>, number: u64) -> Result<(), OutOfMemory>
    requires { number < spec.moment_bound }
    ensures written { OnOk result (text.new.items ≡ text.old.items ++ decimal number) }
    ensures err { OnErr result (BeginsWith text.old.items text.new.items) }
{
    write(&Val::of_num(number as i64), text)
}

/// The line of a moment.
fn push_moment(text: &mut Vec<u8>, moment: u64) -> Result<(), OutOfMemory>
    requires { moment < spec.moment_bound }
    ensures written { OnOk result
        (text.new.items ≡ text.old.items ++ spec.ended (spec.moment_line moment)) }
    ensures err { OnErr result (BeginsWith text.old.items text.new.items) }
{
    text.push(b'@')?;
    push_number(text, moment)?;
    text.push(b'\n')?;
    Ok(())
}

/// The line of a word.
fn push_word(text: &mut Vec<u8>, word: &[u8]) -> Result<(), OutOfMemory>
    ensures { OnOk result (text.new.items ≡ text.old.items ++ spec.ended word.now) }
{
    text.extend_from_slice(word)?;
    text.push(b'\n')?;
    Ok(())
}

/// The line of a value, which is read back as the value where it is no deeper than a text is read.
pub fn push_value(text: &mut Vec<u8>, value: &Val) -> Result<(), OutOfMemory>
    ensures written { OnOk result
        (text.new.items ≡ text.old.items ++ spec.ended (text_of value.now)) }
    ensures reads_back { OnOk result (depth value.now ≤ reading_depth
        → reading (text_of value.now) ≡ Ok value.now) }
{
    write(value, text)?;
    text.push(b'\n')?;
    Ok(())
}

/// The two lines of a request.
fn push_both(
    alloc: Global,
    text: &mut Vec<u8>,
    moment: u64,
    request: &Request,
) -> Result<(), OutOfMemory>
    requires small { moment < spec.moment_bound }
    requires kinds { keeping.is_of_kinds request.now ≡ true }
    ensures written { OnOk result
        (text.new.items ≡ text.old.items ++ spec.dated_lines moment (Ask request.now)) }
    ensures sound { OnOk result (IsSound (written_request request.now)) }
    ensures err { OnErr result (BeginsWith text.old.items text.new.items) }
{
    push_moment(text, moment)?;
    push_primitive(alloc, text, request)?;
    text.push(b'\n')?;
    Ok(())
}

/// A mark and the two lines of a request. Where memory runs out, a front of them may stand there.
fn push_all(
    alloc: Global,
    text: &mut Vec<u8>,
    mark: &[u8],
    moment: u64,
    request: &Request,
) -> Result<(), OutOfMemory>
    requires small { moment < spec.moment_bound }
    requires kinds { keeping.is_of_kinds request.now ≡ true }
    ensures written { OnOk result (text.new.items
        ≡ text.old.items ++ (mark.now ++ spec.dated_lines moment (Ask request.now))) }
    ensures sound { OnOk result (IsSound (written_request request.now)) }
    ensures err { OnErr result (BeginsWith text.old.items text.new.items) }
{
    text.extend_from_slice(mark)?;
    push_both(alloc, text, moment, request)
}

/// The mark and the two lines of a word.
fn push_words(text: &mut Vec<u8>, moment: u64, word: &[u8]) -> Result<(), OutOfMemory>
    requires { moment < spec.moment_bound }
    ensures { OnOk result (text.new.items ≡ text.old.items ++ (spec.deed_mark
        ++ (spec.ended (spec.moment_line moment) ++ spec.ended word.now))) }
{
    text.extend_from_slice(b"@2:")?;
    push_moment(text, moment)?;
    push_word(text, word)
}

/// Appends a mark and the two lines of a request, or leaves the text as it was.
fn push_lines(
    alloc: Global,
    text: &mut Vec<u8>,
    mark: &[u8],
    moment: u64,
    request: &Request,
) -> Result<(), OutOfMemory>
    requires small { moment < spec.moment_bound }
    requires kinds { keeping.is_of_kinds request.now ≡ true }
    ensures written { OnOk result (text.new.items
        ≡ text.old.items ++ (mark.now ++ spec.dated_lines moment (Ask request.now))) }
    ensures sound { OnOk result (IsSound (written_request request.now)) }
    ensures err { OnErr result (text.new.items ≡ text.old.items) }
{
    let before = text.len();
    let written = push_all(alloc, text, mark, moment, request);
    if written.is_err() {
        text.truncate(before);
    }
    written
}

/// Appends a mark and the two lines of a request.
fn push_marked(
    alloc: Global,
    text: &mut Vec<u8>,
    mark: &[u8],
    moment: u64,
    request: &Request,
) -> Result<(), LineFault>
    requires { moment < spec.moment_bound }
    ensures written { OnOk result (text.new.items
        ≡ text.old.items ++ (mark.now ++ spec.dated_lines moment (Ask request.now))) }
    ensures reads_back { OnOk result (IsReadBack (Ask request.now)) }
    ensures err { OnErr result (text.new.items ≡ text.old.items) }
    ensures unkept { IsErrOf result LineFault.Unkept → keeping.can_be_kept request.now ≡ false }
    ensures kept { OnOk result (keeping.can_be_kept request.now ≡ true) }
{
    if !can_be_kept(request) {
        return Err(LineFault::Unkept);
    }
    push_lines(alloc, text, mark, moment, request)?;
    Ok(())
}

/// Appends the two lines of a request at a moment, or leaves the text as it was. What is written is
/// read back as the request.
pub fn push_dated(
    alloc: Global,
    text: &mut Vec<u8>,
    moment: u64,
    request: &Request,
) -> Result<(), LineFault>
    requires { moment < spec.moment_bound }
    ensures written { OnOk result
        (text.new.items ≡ text.old.items ++ spec.dated_lines moment (Ask request.now)) }
    ensures reads_back { OnOk result (IsReadBack (Ask request.now)) }
    ensures err { OnErr result (text.new.items ≡ text.old.items) }
    ensures unkept { IsErrOf result LineFault.Unkept → keeping.can_be_kept request.now ≡ false }
    ensures kept { OnOk result (keeping.can_be_kept request.now ≡ true) }
{
    push_marked(alloc, text, b"", moment, request)
}

/// Appends the lines of a request that was answered, as a deed of a journal, or leaves the text as
/// it was. What is written is read back as the request.
pub fn push_request(
    alloc: Global,
    text: &mut Vec<u8>,
    moment: u64,
    request: &Request,
) -> Result<(), LineFault>
    requires { moment < spec.moment_bound }
    ensures written { OnOk result
        (text.new.items ≡ text.old.items ++ spec.lines_of moment (Ask request.now)) }
    ensures reads_back { OnOk result (IsReadBack (Ask request.now)) }
    ensures err { OnErr result (text.new.items ≡ text.old.items) }
    ensures unkept { IsErrOf result LineFault.Unkept → keeping.can_be_kept request.now ≡ false }
    ensures kept { OnOk result (keeping.can_be_kept request.now ≡ true) }
{
    push_marked(alloc, text, b"@2:", moment, request)
}

/// Appends the lines of the taking of an item, or leaves the text as it was.
pub fn push_take(alloc: Global, text: &mut Vec<u8>, moment: u64) -> Result<(), OutOfMemory>
    requires { moment < spec.moment_bound }
    ensures written { OnOk result
        (text.new.items ≡ text.old.items ++ spec.lines_of moment Take) }
    ensures err { OnErr result (text.new.items ≡ text.old.items) }
{
    let mut line = Vec::new(alloc);
    push_words(&mut line, moment, b"take")?;
    text.extend_from_slice(&line)
}

/// Appends the lines of an expiry, or leaves the text as it was.
pub fn push_tick(alloc: Global, text: &mut Vec<u8>, moment: u64) -> Result<(), OutOfMemory>
    requires { moment < spec.moment_bound }
    ensures written { OnOk result
        (text.new.items ≡ text.old.items ++ spec.lines_of moment Tick) }
    ensures err { OnErr result (text.new.items ≡ text.old.items) }
{
    let mut line = Vec::new(alloc);
    push_words(&mut line, moment, b"tick")?;
    text.extend_from_slice(&line)
}

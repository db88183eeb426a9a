//! From a word to its lines.
ghost use Rattle.std.specs.Prelude.{◌≡◌, ◌++◌, ◌≤◌, IsErrOf, None, Ok, OnErr, OnOk};
ghost use Rattle.journal_lines.specs.Lines.{ended};
ghost use Rattle.m2m_value.specs.Data.{depth};
ghost use Rattle.m2m_value.specs.Reading.{reading, reading_depth};
ghost use Rattle.m2m_value.specs.Spelling.{text_of};
ghost use Rattle.later_lines.specs.Keeping as keeping;
ghost use Rattle.later_lines.specs.Words as spec;
ghost use Rattle.later_lines.specs.Words.{IsReadBack};
ghost use Rattle.later_lines.specs.declared.word.Word.TheVariants.{Accepted, Due, Given, Gone, Ran};

use crate::keeping::{accepted_value, count_value, ran_value};
use accepted_requests::LaterEntry;
use journal_lines::{LineFault, push_value};
use m2m_value::Val;
use primitive_json::Reply;
use std::alloc::{AllocError as OutOfMemory, Global};

/// The line of a name behind the mark.
fn push_name(text: &mut Vec<u8>, name: &[u8]) -> Result<(), OutOfMemory>
    ensures { OnOk result
        (text.new.items ≡ text.old.items ++ (spec.word_mark ++ ended name.now)) }
{
    text.extend_from_slice(b"@3:")?;
    text.extend_from_slice(name)?;
    text.push(b'\n')?;
    Ok(())
}

/// The two lines of a word.
fn push_both(text: &mut Vec<u8>, name: &[u8], value: &Val) -> Result<(), OutOfMemory>
    ensures written { OnOk result (text.new.items ≡ text.old.items
        ++ (spec.word_mark ++ (ended name.now ++ ended (text_of value.now)))) }
    ensures reads_back { OnOk result (depth value.now ≤ reading_depth
        → reading (text_of value.now) ≡ Ok value.now) }
{
    push_name(text, name)?;
    push_value(text, value)
}

/// Appends the two lines of a word, or leaves the text as it was.
fn push_lines(
    alloc: Global,
    text: &mut Vec<u8>,
    name: &[u8],
    value: &Val,
) -> Result<(), OutOfMemory>
    ensures written { OnOk result (text.new.items ≡ text.old.items
        ++ (spec.word_mark ++ (ended name.now ++ ended (text_of value.now)))) }
    ensures reads_back { OnOk result (depth value.now ≤ reading_depth
        → reading (text_of value.now) ≡ Ok value.now) }
    ensures err { OnErr result (text.new.items ≡ text.old.items) }
{
    let mut lines = Vec::new(alloc);
    push_both(&mut lines, name, value)?;
    text.extend_from_slice(&lines)
}

/// Appends the lines of a word that has this value, if it can be kept.
fn push_kept(
    alloc: Global,
    text: &mut Vec<u8>,
    name: &[u8],
    kept: &Option<Val>,
) -> Result<(), LineFault>
    ensures written { OnOk result (keeping.IsWritten name.now kept.now
        text.old.items text.new.items) }
    ensures err { OnErr result (text.new.items ≡ text.old.items) }
    ensures unkept { IsErrOf result LineFault.Unkept → kept.now ≡ None }
{
    match kept {
        Some(value) => {
            push_lines(alloc, text, name, value)?;
            Ok(())
        }
        None => Err(LineFault::Unkept),
    }
}

/// Appends the lines of the acceptance of a request, or leaves the text as it was. What is written
/// is read back as the request, as it stood before it was run.
pub fn push_accepted(alloc: Global, text: &mut Vec<u8>, entry: &LaterEntry) -> Result<(), LineFault>
    ensures written { OnOk result (text.new.items
        ≡ text.old.items ++ spec.word_lines (Accepted (keeping.before_run entry.now))) }
    ensures reads_back { OnOk result (IsReadBack (Accepted (keeping.before_run entry.now))) }
    ensures err { OnErr result (text.new.items ≡ text.old.items) }
    ensures unkept { IsErrOf result LineFault.Unkept → keeping.accepted_value entry.now ≡ None }
{
    let kept = accepted_value(alloc, entry)?;
    push_kept(alloc, text, b"accepted", &kept)
}

/// Appends the lines of the run of a request that was accepted, or leaves the text as it was. What
/// is written is read back as its reply.
pub fn push_ran(
    alloc: Global,
    text: &mut Vec<u8>,
    number: u64,
    reply: &Reply,
) -> Result<(), LineFault>
    ensures written { OnOk result
        (text.new.items ≡ text.old.items ++ spec.word_lines (Ran number reply.now)) }
    ensures reads_back { OnOk result (IsReadBack (Ran number reply.now)) }
    ensures err { OnErr result (text.new.items ≡ text.old.items) }
    ensures unkept { IsErrOf result LineFault.Unkept
        → keeping.ran_value number reply.now ≡ None }
{
    let kept = ran_value(alloc, number, reply)?;
    push_kept(alloc, text, b"ran", &kept)
}

/// Appends the lines of a request that its originator deleted, or leaves the text as it was.
pub fn push_gone(alloc: Global, text: &mut Vec<u8>, number: u64) -> Result<(), LineFault>
    ensures written { OnOk result
        (text.new.items ≡ text.old.items ++ spec.word_lines (Gone number)) }
    ensures reads_back { OnOk result (IsReadBack (Gone number)) }
    ensures err { OnErr result (text.new.items ≡ text.old.items) }
    ensures unkept { IsErrOf result LineFault.Unkept → keeping.count_value number ≡ None }
{
    let kept = count_value(number);
    push_kept(alloc, text, b"gone", &kept)
}

/// Appends the lines of those that were due at a moment, or leaves the text as it was.
pub fn push_due(alloc: Global, text: &mut Vec<u8>, moment: u64) -> Result<(), LineFault>
    ensures written { OnOk result
        (text.new.items ≡ text.old.items ++ spec.word_lines (Due moment)) }
    ensures reads_back { OnOk result (IsReadBack (Due moment)) }
    ensures err { OnErr result (text.new.items ≡ text.old.items) }
    ensures unkept { IsErrOf result LineFault.Unkept → keeping.count_value moment ≡ None }
{
    let kept = count_value(moment);
    push_kept(alloc, text, b"due", &kept)
}

/// Appends the lines of the number that was given last, or leaves the text as it was.
pub fn push_given(alloc: Global, text: &mut Vec<u8>, number: u64) -> Result<(), LineFault>
    ensures written { OnOk result
        (text.new.items ≡ text.old.items ++ spec.word_lines (Given number)) }
    ensures reads_back { OnOk result (IsReadBack (Given number)) }
    ensures err { OnErr result (text.new.items ≡ text.old.items) }
    ensures unkept { IsErrOf result LineFault.Unkept → keeping.count_value number ≡ None }
{
    let kept = count_value(number);
    push_kept(alloc, text, b"given", &kept)
}

//! The line.
ghost use Rattle.std.specs.Prelude.{◌≡◌, ◌++◌, IfOk, OnOk};
ghost use Rattle.made_input.specs.Counts as spec;

use crate::tally::Tally;
use itoa::Buffer;
use std::alloc::{AllocError as OutOfMemory, Global};

/// The line has at most so many bytes.
const ROOM: usize = 256;

// A word, and a number in decimal digits.
fn push_count(text: &mut Vec<u8>, word: &str, count: u64) -> Result<(), OutOfMemory>
    ensures { OnOk result (text.new.items ≡ text.old.items ++ spec.counted word.now count) }
{
    text.extend_from_slice(word.as_bytes())?;
    text.extend_from_slice(Buffer::new().format(count).as_bytes())
}

// What the requests were answered.
fn push_tally(text: &mut Vec<u8>, tally: &Tally) -> Result<(), OutOfMemory>
    ensures { OnOk result (text.new.items ≡ text.old.items ++ spec.tally_words tally.now) }
{
    push_count(text, " created ", tally.created)?;
    push_count(text, " retrieved ", tally.retrieved)?;
    push_count(text, " fanned ", tally.fanned)?;
    push_count(text, " refused ", tally.refused)
}

/// The line on so many requests, their answers, and the sizes of the tree and of the outbox.
pub(crate) fn line_of(
    alloc: Global,
    requests: u64,
    tally: &Tally,
    resources: u64,
    notes: u64,
) -> Result<Vec<u8>, OutOfMemory>
    ensures { IfOk result (λ text. text.items ≡ spec.line requests tally.now resources notes) }
{
    let mut text = Vec::with_capacity(alloc, ROOM)?;
    push_count(&mut text, "requests ", requests)?;
    push_tally(&mut text, tally)?;
    push_count(&mut text, " resources ", resources)?;
    push_count(&mut text, " notes ", notes)?;
    text.push(b'\n')?;
    Ok(text)
}

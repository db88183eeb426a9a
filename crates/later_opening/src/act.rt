//! What stands in the journal of a CSE that answers later.
ghost use Rattle.std.specs.Prelude.{◌≡◌, ◌≤◌, IfOk, IfSome, length, option_map};
ghost use Rattle.later_opening.specs.Acts as spec;

use journal_lines::{Dated, first_deed};
use later_lines::{Word, first_word};
use m2m_value::Scratch;
use std::alloc::{AllocError as OutOfMemory, Global};

/// What was done: at the entity inside, or with the accepted requests.
#[derive(Drop)]
pub enum Act {
    /// A deed at a moment.
    Deed(Dated),
    /// A word on accepted requests.
    Word(Word),
}

/// The word whose lines stand at the front of a text, as an act.
fn first_worded(
    alloc: Global,
    scratch: &mut Scratch,
    text: &[u8],
) -> Result<Option<(Act, usize)>, OutOfMemory>
    ensures act { IfOk result
        (λ found. option_map (λ f. f.0) found ≡ spec.first_worded text.now) }
    ensures len { IfOk result (λ found. IfSome found (λ f. f.1 ≡ spec.len_of f.0 text.now)) }
    ensures within { IfOk result (λ found. IfSome found (λ f. f.1 ≤ length text.now)) }
{
    match first_word(alloc, scratch, text)? {
        Some((word, len)) => Ok(Some((Act::Word(word), len))),
        None => Ok(None),
    }
}

/// The act whose lines stand at the front of a text, if any stands there, and how many bytes they
/// have.
pub(crate) fn first_act(
    alloc: Global,
    scratch: &mut Scratch,
    text: &[u8],
) -> Result<Option<(Act, usize)>, OutOfMemory>
    ensures act { IfOk result (λ found. option_map (λ f. f.0) found ≡ spec.first_act text.now) }
    ensures len { IfOk result (λ found. IfSome found (λ f. f.1 ≡ spec.len_of f.0 text.now)) }
    ensures within { IfOk result (λ found. IfSome found (λ f. f.1 ≤ length text.now)) }
{
    match first_deed(alloc, scratch, text)? {
        Some((dated, len)) => Ok(Some((Act::Deed(dated), len))),
        None => first_worded(alloc, scratch, text),
    }
}

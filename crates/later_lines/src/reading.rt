//! From the lines of a word to the word.
ghost use Rattle.std.specs.Prelude.{◌≡◌, ◌≤◌, IfOk, IfSome, IsTrue, length, option_map, true};
ghost use Rattle.filter_criteria.specs.Bounds.{IsMoment};
ghost use Rattle.m2m_names.specs.Name as names;
ghost use Rattle.later_lines.specs.Words as spec;

use crate::Word;
use accepted_requests::LaterEntry;
use filter_criteria::value_at;
use journal_lines::line_len;
use m2m_names::{LAST_MOMENT, is_originator};
use m2m_value::{Scratch, Val, ValFault, read_in};
use primitive_json::{PrimFault, Reply, Request, read_reply, read_request};
use std::alloc::{AllocError as OutOfMemory, Global};

/// Whether a timestamp has the moment.
pub(crate) fn is_moment(at: u64) -> bool
    ensures value { result ≡ spec.is_moment at }
    ensures moment { result ≡ true → IsMoment at }
{
    at <= LAST_MOMENT
}

/// The moment of an acceptance, if a timestamp has it.
fn moment_in(value: &Val) -> Option<u64>
    ensures value { result ≡ spec.moment_in value.now }
    ensures moment { IfSome result IsMoment }
{
    let at = value_at(value, "ct")?.as_count()?;
    if is_moment(at) { Some(at) } else { None }
}

/// The number of an accepted request.
fn number_in(value: &Val) -> Option<u64>
    ensures { result ≡ spec.number_in value.now }
{
    value_at(value, "number")?.as_count()
}

/// The originator of an accepted request, if it is one.
fn originator_in(value: &Val) -> Option<&[u8]>
    ensures value { option_map (λ o. o.now) result ≡ spec.originator_in value.now }
    ensures originator { IfSome result (λ o. IsTrue (names.is_originator o.now)) }
{
    let who = value_at(value, "org")?.as_text()?.entries();
    if is_originator(who) { Some(who) } else { None }
}

/// The request that a value has.
fn request_in(alloc: Global, value: &Val) -> Result<Option<Request>, OutOfMemory>
    ensures { IfOk result (λ r. r ≡ spec.request_in value.now) }
{
    let Some(written) = value_at(value, "req") else {
        return Ok(None);
    };
    match read_request(alloc, written) {
        Ok(request) => Ok(Some(request)),
        Err(PrimFault::OutOfMemory) => Err(OutOfMemory),
        Err(_) => Ok(None),
    }
}

/// The reply that a value has.
fn reply_in(alloc: Global, value: &Val) -> Result<Option<Reply>, OutOfMemory>
    ensures { IfOk result (λ r. r ≡ spec.reply_in value.now) }
{
    let Some(written) = value_at(value, "rsp") else {
        return Ok(None);
    };
    match read_reply(alloc, written) {
        Ok(reply) => Ok(Some(reply)),
        Err(PrimFault::OutOfMemory) => Err(OutOfMemory),
        Err(_) => Ok(None),
    }
}

/// The accepted request that a value says.
fn entry_in(alloc: Global, value: &Val) -> Result<Option<LaterEntry>, OutOfMemory>
    ensures { IfOk result (λ e. e ≡ spec.entry_in value.now) }
{
    let Some(moment) = moment_in(value) else {
        return Ok(None);
    };
    let Some(number) = number_in(value) else {
        return Ok(None);
    };
    let Some(who) = originator_in(value) else {
        return Ok(None);
    };
    let Some(request) = request_in(alloc, value)? else {
        return Ok(None);
    };
    let entry = LaterEntry::accept(alloc, number, who, &request, moment)?;
    Ok(Some(entry))
}

/// The acceptance that a value says.
fn accepted_in(alloc: Global, value: &Val) -> Result<Option<Word>, OutOfMemory>
    ensures { IfOk result (λ w. w ≡ spec.accepted_in value.now) }
{
    match entry_in(alloc, value)? {
        Some(entry) => Ok(Some(Word::Accepted(entry))),
        None => Ok(None),
    }
}

/// The run that a value says.
fn ran_in(alloc: Global, value: &Val) -> Result<Option<Word>, OutOfMemory>
    ensures { IfOk result (λ w. w ≡ spec.ran_in value.now) }
{
    let Some(number) = number_in(value) else {
        return Ok(None);
    };
    match reply_in(alloc, value)? {
        Some(reply) => Ok(Some(Word::Ran(number, reply))),
        None => Ok(None),
    }
}

/// The word of a name that has a number alone.
fn counted_word(name: &[u8], number: u64) -> Option<Word>
    ensures { result ≡ spec.counted_word name.now number }
{
    if name == b"gone".as_slice() {
        return Some(Word::Gone(number));
    }
    if name == b"due".as_slice() {
        return Some(Word::Due(number));
    }
    if name == b"given".as_slice() {
        return Some(Word::Given(number));
    }
    None
}

/// The word of a name and a value.
fn word_of(alloc: Global, name: &[u8], value: &Val) -> Result<Option<Word>, OutOfMemory>
    ensures { IfOk result (λ w. w ≡ spec.word_of name.now value.now) }
{
    if name == b"accepted".as_slice() {
        return accepted_in(alloc, value);
    }
    if name == b"ran".as_slice() {
        return ran_in(alloc, value);
    }
    match value.as_count() {
        Some(number) => Ok(counted_word(name, number)),
        None => Ok(None),
    }
}

/// The word of two lines, if they are one.
fn word_in(
    alloc: Global,
    scratch: &mut Scratch,
    name: &[u8],
    line: &[u8],
) -> Result<Option<Word>, OutOfMemory>
    ensures { IfOk result (λ w. w ≡ spec.word_in name.now line.now) }
{
    match read_in(alloc, scratch, line) {
        Ok(value) => word_of(alloc, name, &value),
        Err(ValFault::OutOfMemory) => Err(OutOfMemory),
        Err(_) => Ok(None),
    }
}

/// The word that the first two lines of a text are, without the mark, and how many bytes they have.
fn first_named(
    alloc: Global,
    scratch: &mut Scratch,
    text: &[u8],
) -> Result<Option<(Word, usize)>, OutOfMemory>
    ensures word { IfOk result (λ found. option_map (λ f. f.0) found ≡ spec.first_named text.now) }
    ensures len { IfOk result (λ found. IfSome found (λ f. f.1 ≡ spec.named_len text.now)) }
    ensures within { IfOk result (λ found. IfSome found (λ f. f.1 ≤ length text.now)) }
{
    let end = line_len(text);
    if end >= text.len() {
        return Ok(None);
    }
    let (name, behind) = (&text[..end], &text[end + 1..]);
    let len = line_len(behind);
    if len >= behind.len() {
        return Ok(None);
    }
    match word_in(alloc, scratch, name, &behind[..len])? {
        Some(word) => Ok(Some((word, end + 1 + (len + 1)))),
        None => Ok(None),
    }
}

/// The word whose lines stand at the front of a text, if any stands there, and how many bytes they
/// have.
pub fn first_word(
    alloc: Global,
    scratch: &mut Scratch,
    text: &[u8],
) -> Result<Option<(Word, usize)>, OutOfMemory>
    ensures word { IfOk result (λ found. option_map (λ f. f.0) found ≡ spec.first_word text.now) }
    ensures len { IfOk result (λ found. IfSome found (λ f. f.1 ≡ spec.word_len text.now)) }
    ensures within { IfOk result (λ found. IfSome found (λ f. f.1 ≤ length text.now)) }
{
    if !text.starts_with(b"@3:") {
        return Ok(None);
    }
    match first_named(alloc, scratch, &text[3..])? {
        Some((word, len)) => Ok(Some((word, 3 + len))),
        None => Ok(None),
    }
}

//! From the lines of a deed to the deed.
ghost use Rattle.std.specs.Prelude.{◌≡◌, ◌≤◌, ◌<◌, IfOk, IfSome, length, option_map};
ghost use Rattle.std.specs.Result.{result_ok};
ghost use Rattle.journal_lines.specs.Lines as spec;
ghost use Rattle.primitive_json.specs.Reading.{read_request};

use crate::{Dated, Deed};
use m2m_names::number_spelled;
use m2m_value::{Scratch, Val, ValFault, read_in};
use primitive_json::{PrimFault, Request, request_from};
use std::alloc::{AllocError as OutOfMemory, Global};

/// How many bytes the first line has, without its end, or how many there are where no line ends.
pub fn line_len(text: &[u8]) -> usize
    ensures value { result ≡ spec.line_len text.now }
    ensures bound { result ≤ length text.now }
{
    text.iter().take_while(|byte| **byte != b'\n').count()
}

/// The moment of a line, if it is one.
fn moment_of(line: &[u8]) -> Option<u64>
    ensures value { result ≡ spec.moment_of line.now }
    ensures bound { IfSome result (λ moment. moment < spec.moment_bound) }
{
    match line {
        [b'@', digits @ ..] => number_spelled(digits),
        _ => None,
    }
}

fn request_in(alloc: Global, value: Val) -> Result<Option<Request>, OutOfMemory>
    ensures { IfOk result (λ r. r ≡ result_ok (read_request value)) }
{
    match request_from(alloc, value) {
        Ok(request) => Ok(Some(request)),
        Err(PrimFault::OutOfMemory) => Err(OutOfMemory),
        Err(_) => Ok(None),
    }
}

fn request_spelled(
    alloc: Global,
    scratch: &mut Scratch,
    text: &[u8],
) -> Result<Option<Request>, OutOfMemory>
    ensures { IfOk result (λ r. r ≡ spec.request_spelled text.now) }
{
    match read_in(alloc, scratch, text) {
        Ok(value) => request_in(alloc, value),
        Err(ValFault::OutOfMemory) => Err(OutOfMemory),
        Err(_) => Ok(None),
    }
}

/// The deed of a word, if it is one.
fn deed_of(alloc: Global, scratch: &mut Scratch, word: &[u8]) -> Result<Option<Deed>, OutOfMemory>
    ensures { IfOk result (λ deed. deed ≡ spec.deed_of word.now) }
{
    if word == b"take".as_slice() {
        return Ok(Some(Deed::Take));
    }
    if word == b"tick".as_slice() {
        return Ok(Some(Deed::Tick));
    }
    match request_spelled(alloc, scratch, word)? {
        Some(request) => Ok(Some(Deed::Ask(request))),
        None => Ok(None),
    }
}

/// Two lines as a deed, if they are one.
fn deed_in(
    alloc: Global,
    scratch: &mut Scratch,
    stamp: &[u8],
    word: &[u8],
) -> Result<Option<Dated>, OutOfMemory>
    ensures { IfOk result (λ dated. dated ≡ spec.deed_in stamp.now word.now) }
{
    let Some(moment) = moment_of(stamp) else {
        return Ok(None);
    };
    match deed_of(alloc, scratch, word)? {
        Some(deed) => Ok(Some(Dated { moment, deed })),
        None => Ok(None),
    }
}

/// The deed at a moment whose two lines stand at the front of a text, if any stands there, and how
/// many bytes they have.
pub fn first_dated(
    alloc: Global,
    scratch: &mut Scratch,
    text: &[u8],
) -> Result<Option<(Dated, usize)>, OutOfMemory>
    ensures deed { IfOk result (λ found. option_map (λ f. f.0) found ≡ spec.first_dated text.now) }
    ensures len { IfOk result (λ found. IfSome found (λ f. f.1 ≡ spec.dated_len text.now)) }
    ensures within { IfOk result (λ found. IfSome found (λ f. f.1 ≤ length text.now)) }
{
    let end = line_len(text);
    if end >= text.len() {
        return Ok(None);
    }
    let (stamp, behind) = (&text[..end], &text[end + 1..]);
    let len = line_len(behind);
    if len >= behind.len() {
        return Ok(None);
    }
    match deed_in(alloc, scratch, stamp, &behind[..len])? {
        Some(dated) => Ok(Some((dated, end + 1 + (len + 1)))),
        None => Ok(None),
    }
}

/// The deed of a journal whose lines stand at the front of a text, if any stands there, and how
/// many bytes they have.
pub fn first_deed(
    alloc: Global,
    scratch: &mut Scratch,
    text: &[u8],
) -> Result<Option<(Dated, usize)>, OutOfMemory>
    ensures deed { IfOk result (λ found. option_map (λ f. f.0) found ≡ spec.first_deed text.now) }
    ensures len { IfOk result (λ found. IfSome found (λ f. f.1 ≡ spec.deed_len text.now)) }
    ensures within { IfOk result (λ found. IfSome found (λ f. f.1 ≤ length text.now)) }
{
    if !text.starts_with(b"@2:") {
        return Ok(None);
    }
    match first_dated(alloc, scratch, &text[3..])? {
        Some((dated, len)) => Ok(Some((dated, 3 + len))),
        None => Ok(None),
    }
}

/// Whether a deed of a journal of the format 1 begins a text: it has no mark.
pub fn begins_unmarked(text: &[u8]) -> bool
    ensures { result ≡ spec.begins_unmarked text.now }
{
    moment_of(&text[..line_len(text)]).is_some()
}

//! What a word does to the accepted requests.
ghost use Rattle.std.specs.Prelude.{◌≡◌, ◌≤◌, length, OnOk, true};
ghost use Rattle.std.specs.List.{position_or_len};
ghost use Rattle.accepted_requests.specs.Entries.{does_wait};
ghost use Rattle.later_opening.specs.Making as spec;

use accepted_requests::{LaterEntry, LaterRequests};
use later_lines::Word;
use primitive_json::Reply;
use std::alloc::{AllocError as OutOfMemory, Global};

/// Whether the word fits where the entity inside has this moment: numbers rise, and nothing was
/// accepted later than that.
pub(crate) fn fits(word: &Word, last: u64, requests: &LaterRequests) -> bool
    ensures { result ≡ spec.fits word.now last requests.now }
{
    match word {
        Word::Accepted(entry) => requests.given < entry.number() && entry.accepted() <= last,
        Word::Ran(_, _) | Word::Gone(_) | Word::Due(_) => true,
        Word::Given(number) => requests.given <= *number,
    }
}

/// Where the first stands that waits under a number, or how many there are where none does.
fn place_of(entries: &[LaterEntry], number: u64) -> usize
    ensures value { result ≡ position_or_len (spec.waits_as number) entries.now }
    ensures bound { result ≤ length entries.now }
{
    entries
        .iter()
        .take_while(|entry| !(entry.is_numbered(number) && entry.waits()))
        .count()
}

/// One that waits gets its result.
fn keep_result(alloc: Global, entry: &mut LaterEntry, reply: Reply)
    requires { does_wait entry.old ≡ true }
    ensures { entry.new ≡ spec.with_result reply entry.old }
{
    let request = entry.begin(alloc);
    entry.finish(request, Some(reply));
}

/// The first that waits under a number gets its result.
fn keep_ran(alloc: Global, entries: &mut Vec<LaterEntry>, number: u64, reply: Reply)
    ensures { entries.new.items ≡ spec.ran_in number reply entries.old.items }
{
    let place = place_of(entries, number);
    if place < entries.len() {
        let entry = &mut entries[place];
        keep_result(alloc, entry, reply);
    }
}

/// One more was accepted.
fn put_entry(requests: &mut LaterRequests, entry: LaterEntry) -> Result<(), OutOfMemory>
    ensures { OnOk result (requests.new ≡ spec.with_entry entry requests.old) }
{
    let number = entry.number();
    requests.entries.push(entry)?;
    requests.given = number;
    Ok(())
}

/// Does with the accepted requests what a word says.
pub(crate) fn apply(
    alloc: Global,
    requests: &mut LaterRequests,
    word: Word,
) -> Result<(), OutOfMemory>
    ensures { OnOk result (requests.new ≡ spec.by_word word requests.old) }
{
    match word {
        Word::Accepted(entry) => put_entry(requests, entry)?,
        Word::Ran(number, reply) => keep_ran(alloc, &mut requests.entries, number, reply),
        Word::Gone(number) => requests.remove(number),
        Word::Due(moment) => requests.drop_due(moment),
        Word::Given(number) => requests.given = number,
    }
    Ok(())
}

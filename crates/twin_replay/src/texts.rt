//! What is written.
ghost use Rattle.std.specs.Prelude.{◌≡◌, ◌++◌, IfOk, OnOk};
ghost use Rattle.cse_machine.specs.Answer.{starved};
ghost use Rattle.primitive_replay.specs.Script.{as_line};
ghost use Rattle.twin_replay.specs.Texts as spec;

use cse_machine::Outcome;
use m2m_names::Rsc;
use m2m_value::write;
use primitive_json::{Reply, ReplyParts, Request, reply_into};
use primitive_replay::push_request;
use retarget::Url;
use std::alloc::{AllocError as OutOfMemory, Global};

/// Most outcomes have at most so many bytes; for a longer one the room grows.
const ROOM: usize = 512;

/// These words as a line.
pub(crate) fn line_of(alloc: Global, words: &[u8]) -> Result<Vec<u8>, OutOfMemory>
    ensures { IfOk result (λ text. text.items ≡ as_line words.now) }
{
    let mut text = Vec::new(alloc);
    text.extend_from_slice(words)?;
    text.push(b'\n')?;
    Ok(text)
}

/// Appends a word, and what stands behind it, as a line.
fn push_line(text: &mut Vec<u8>, word: &[u8], behind: &[u8]) -> Result<(), OutOfMemory>
    ensures { OnOk result (text.new.items ≡ text.old.items ++ as_line (word.now ++ behind.now)) }
{
    text.extend_from_slice(word)?;
    text.extend_from_slice(behind)?;
    text.push(b'\n')?;
    Ok(())
}

/// The text of a reply.
fn reply_text(alloc: Global, reply: Reply) -> Result<Vec<u8>, OutOfMemory>
    ensures { IfOk result (λ text. text.items ≡ spec.reply_text reply) }
{
    let value = reply_into(alloc, reply)?;
    let mut text = Vec::with_capacity(alloc, ROOM)?;
    write(&value, &mut text)?;
    Ok(text)
}

/// The text of a request that goes on to the CSE at a URL.
fn forward_text(alloc: Global, poa: &Url, onward: Request) -> Result<Vec<u8>, OutOfMemory>
    ensures { IfOk result (λ text. text.items ≡ spec.forward_text poa.now onward) }
{
    let mut text = Vec::with_capacity(alloc, ROOM)?;
    text.extend_from_slice(b"forward ")?;
    text.extend_from_slice(poa.entries())?;
    text.push(b' ')?;
    push_request(alloc, &mut text, onward)?;
    Ok(text)
}

/// The reply to a request for which memory ran out.
fn starved_reply(alloc: Global, request: &Request) -> Result<Reply, OutOfMemory>
    ensures { IfOk result (λ reply. reply ≡ starved request.now) }
{
    let rqi = request.parts().rqi.copy(alloc)?;
    Ok(Reply::of(ReplyParts {
        rsc: Rsc::Internal,
        rqi: Some(rqi),
        pc: None,
    }))
}

/// The text of what comes of a request.
pub(crate) fn outcome_text(
    alloc: Global,
    request: &Request,
    outcome: Outcome,
) -> Result<Vec<u8>, OutOfMemory>
    ensures { IfOk result (λ text. text.items ≡ spec.outcome_text request.now outcome) }
{
    match outcome {
        Outcome::Done(reply) => reply_text(alloc, reply),
        Outcome::Forward { poa, request } => forward_text(alloc, &poa, request),
        Outcome::Item(_) | Outcome::Ticked | Outcome::Starved { .. } => {
            reply_text(alloc, starved_reply(alloc, request)?)
        }
    }
}

/// What is written for a request of which these are the outcomes on both sides.
pub(crate) fn answer_text(alloc: Global, left: &[u8], right: &[u8]) -> Result<Vec<u8>, OutOfMemory>
    ensures { IfOk result (λ text. text.items ≡ spec.answer_text left.now right.now) }
{
    let mut text = Vec::with_capacity(alloc, ROOM)?;
    if left == right {
        push_line(&mut text, b"same ", left)?;
    } else {
        push_line(&mut text, b"left ", left)?;
        push_line(&mut text, b"right ", right)?;
    }
    Ok(text)
}

//! The acts of a journal, played one after another.
ghost use Rattle.std.specs.Prelude.{◌≡◌, ◌≤◌, IfErr, IfNone, IfOk, IfSome, OnOk, drop, length};
ghost use Rattle.std.specs.Prelude.{None, option_map, true};
ghost use Rattle.accepted_requests.specs.Entries.{no_entries};
ghost use Rattle.journal_file.specs.Gates as gates;
ghost use Rattle.later_opening.specs.Acts.{len_of};
ghost use Rattle.later_opening.specs.Making as spec;
ghost use Rattle.later_opening.specs.Playing.{HaltsPlayingActs, PlaysActs, PlaysFirstAct};
ghost use Rattle.later_opening.specs.Playing.{first_fitting};

use crate::act::{Act, first_act};
use crate::making::{apply, fits};
use accepted_requests::LaterRequests;
use entity_model::Entity;
use journal_opening::{OpeningFault, fault_at, is_shut, play};
use m2m_value::Scratch;
use std::alloc::{AllocError as OutOfMemory, Global};
use tree_model::Tree;

/// Whether the act fits.
fn act_fits(act: &Act, last: u64, requests: &LaterRequests) -> bool
    ensures { result ≡ spec.act_fits act.now last requests.now }
{
    match act {
        Act::Deed(_) => true,
        Act::Word(word) => fits(word, last, requests),
    }
}

/// The act whose lines stand at the front of a text, if it fits, and how many bytes they have.
fn fitting_act(
    alloc: Global,
    scratch: &mut Scratch,
    last: u64,
    requests: &LaterRequests,
    text: &[u8],
) -> Result<Option<(Act, usize)>, OutOfMemory>
    ensures act { IfOk result
        (λ found. option_map (λ f. f.0) found ≡ first_fitting last requests.now text.now) }
    ensures len { IfOk result (λ found. IfSome found (λ f. f.1 ≡ len_of f.0 text.now)) }
    ensures within { IfOk result (λ found. IfSome found (λ f. f.1 ≤ length text.now)) }
{
    match first_act(alloc, scratch, text)? {
        Some((act, len)) if act_fits(&act, last, requests) => Ok(Some((act, len))),
        _ => Ok(None),
    }
}

/// Does an act again.
fn play_act<T: Tree>(
    alloc: Global,
    entity: &mut Entity<T>,
    requests: &mut LaterRequests,
    act: Act,
) -> Result<(), OutOfMemory>
    ensures inner { OnOk result (entity.new ≡ spec.inner_after act entity.old) }
    ensures requests { OnOk result (requests.new ≡ spec.requests_after act requests.old) }
{
    match act {
        Act::Deed(dated) => play(alloc, entity, dated),
        Act::Word(word) => apply(alloc, requests, word),
    }
}

/// Does the act again whose lines stand at the front of the bytes, and tells how many bytes these
/// have; None where no act begins there that fits.
fn play_first<T: Tree>(
    alloc: Global,
    scratch: &mut Scratch,
    entity: &mut Entity<T>,
    requests: &mut LaterRequests,
    bytes: &[u8],
) -> Result<Option<usize>, OutOfMemory>
    ensures played { IfOk result (λ len. IfSome len (λ n.
        PlaysFirstAct bytes.now n entity.old requests.old entity.new requests.new)) }
    ensures none { IfOk result
        (λ len. IfNone len (first_fitting entity.old.last requests.old bytes.now ≡ None)) }
{
    let found = fitting_act(alloc, scratch, entity.last, requests, bytes)?;
    let Some((act, len)) = found else {
        return Ok(None);
    };
    play_act(alloc, entity, requests, act)?;
    Ok(Some(len))
}

/// Does what the lines say that stand in the bytes from a place on, until the text ends; and tells
/// the place where it ends.
pub(crate) fn play_acts<T: Tree>(
    alloc: Global,
    scratch: &mut Scratch,
    entity: &mut Entity<T>,
    requests: &mut LaterRequests,
    bytes: &[u8],
    from: usize,
) -> Result<usize, OpeningFault>
    requires from { from ≤ length bytes.now }
    requires none { requests.old ≡ no_entries }
    ensures played { IfOk result
        (λ end. PlaysActs bytes.now from end entity.old entity.new requests.new) }
    ensures shut { IfOk result (λ end. gates.is_shut (drop end bytes.now) ≡ true) }
    ensures fault { IfErr result (HaltsPlayingActs entity.old bytes.now from) }
{
    let mut at = from;
    'acts: while !is_shut(&bytes[at..]) {
        let Some(len) = play_first(alloc, scratch, entity, requests, &bytes[at..])? else {
            return Err(fault_at(bytes, at));
        };
        at += len;
    }
    Ok(at)
}

//! Whether a run gave what its case says.
ghost use Rattle.std.specs.Prelude.{◌≡◌, ◌↔◌, Some, IfOk, IsNone, IfSome};
ghost use Rattle.cases.specs.Agreement.{Agrees, NumbersAgree, TextsAgree};

use crate::came::Came;
use crate::case::Case;
use std::alloc::{AllocError, Global};

/// How many bytes are shown before the first that differs; behind it twice as many are.
const SHOWN: usize = 40;

/// Where two texts differ first, and what stands there in each.
fn text_difference(
    alloc: Global,
    what: &str,
    want: &[u8],
    came: &[u8],
) -> Result<Option<String>, AllocError>
    ensures { IfOk result (λ d. IsNone d ↔ (came.now ≡ want.now)) }
{
    if came == want {
        return Ok(None);
    }
    Ok(Some(told_texts(alloc, what, want, came)?))
}

fn told_texts(alloc: Global, what: &str, want: &[u8], came: &[u8]) -> Result<String, AllocError> {
    let at = want
        .iter()
        .zip(came.iter())
        .take_while(|(a, b)| **a == **b)
        .count();
    let want = shown_at(alloc, want, at)?;
    let came = shown_at(alloc, came, at)?;
    format!(in alloc; "{what} differs at byte {at}: {want:?} must come, {came:?} came")
}

/// What a text has round a place.
fn shown_at(alloc: Global, text: &[u8], at: usize) -> Result<String, AllocError> {
    let start = at.saturating_sub(SHOWN).min(text.len());
    let behind = text.split_at(start).1;
    let count = behind.len().min(3 * SHOWN);
    String::from_utf8_lossy(alloc, behind.split_at(count).0)
}

fn number_difference(
    alloc: Global,
    what: &str,
    want: Option<u64>,
    came: u64,
) -> Result<Option<String>, AllocError>
    ensures { IfOk result (λ d. IsNone d ↔ (want ≡ Some came)) }
{
    if want == Some(came) {
        return Ok(None);
    }
    let want = want.unwrap_or(0);
    Ok(Some(format!(in alloc; "{what}: {want} must come, {came} came")?))
}

fn left_difference(
    alloc: Global,
    want: Option<u64>,
    came: u64,
) -> Result<Option<String>, AllocError>
    ensures { IfOk result (λ d. IsNone d ↔ IfSome want (λ left. came ≡ left)) }
{
    match want {
        None => Ok(None),
        Some(_) => number_difference(alloc, "left", want, came),
    }
}

/// The one that is there, if any.
fn either(one: Option<String>, other: Option<String>) -> Option<String>
    ensures { IsNone result ↔ (IsNone one × IsNone other) }
{
    match one {
        Some(_) => one,
        None => other,
    }
}

/// What differs among the texts, if anything.
fn texts_difference(alloc: Global, case: &Case, came: &Came) -> Result<Option<String>, AllocError>
    ensures { IfOk result (λ d. IsNone d ↔ TextsAgree case.now came.now) }
{
    let out = text_difference(alloc, "out", &case.streams.out, &came.out)?;
    let err = text_difference(alloc, "err", &case.err, &came.err)?;
    let asked = text_difference(alloc, "what is asked", &case.asked, &came.asked)?;
    Ok(either(either(out, err), asked))
}

/// What differs among the numbers, if anything.
fn numbers_difference(alloc: Global, case: &Case, came: &Came) -> Result<Option<String>, AllocError>
    ensures { IfOk result (λ d. IsNone d ↔ NumbersAgree case.now came.now) }
{
    let status = number_difference(alloc, "status", case.status, came.status)?;
    let served = number_difference(alloc, "served", case.served, came.served)?;
    let left = left_difference(alloc, case.left, came.left)?;
    Ok(either(either(status, served), left))
}

/// What differs, if anything.
pub fn difference(alloc: Global, case: &Case, came: &Came) -> Result<Option<String>, AllocError>
    ensures { IfOk result (λ d. IsNone d ↔ Agrees case.now came.now) }
{
    let number = numbers_difference(alloc, case, came)?;
    let text = texts_difference(alloc, case, came)?;
    Ok(either(number, text))
}

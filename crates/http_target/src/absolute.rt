//! Targets in absolute-form.
ghost use Rattle.std.specs.Prelude.{◌≡◌, ◌≤◌, false, IfOk, OnOk, length};
ghost use Rattle.http_uri.specs.ByteClasses as uri;
ghost use Rattle.http_uri.specs.Error.{IsOutOfMemory};
ghost use Rattle.http_uri.specs.Grammar.{scheme_len, authority_len};
ghost use Rattle.http_target.specs.Targets as spec;

use crate::OutOfMemory;
use crate::target::{URI_LIMIT, before, is_path_and_query};
use http_uri::{Authority, UriError};
use std::alloc::Global;

/// A scheme has at most so many bytes.
const SCHEME_LIMIT: usize = 64;

fn is_scheme_byte(byte: u8) -> bool
    ensures { result ≡ uri.is_scheme_byte byte }
{
    byte.is_ascii_alphanumeric() || matches!(byte, b'+' | b'-' | b'.' | b'~')
}

fn is_delimiter(byte: u8) -> bool
    ensures { result ≡ uri.is_delimiter byte }
{
    matches!(byte, b'/' | b'?' | b'#')
}

/// How long the scheme at the front of a text is.
fn scheme_len(text: &[u8]) -> usize
    ensures value { result ≡ scheme_len text.now }
    ensures within { result ≤ length text.now }
{
    text.iter()
        .take_while(|byte| is_scheme_byte(**byte))
        .count()
}

/// How long the authority at the front of a text is.
fn authority_len(text: &[u8]) -> usize
    ensures value { result ≡ authority_len text.now }
    ensures within { result ≤ length text.now }
{
    text.iter().take_while(|byte| !is_delimiter(**byte)).count()
}

/// What stands behind a scheme and `://`.
fn hierarchy_of(text: &[u8]) -> &[u8]
    ensures { result.now ≡ spec.hierarchy_of text.now }
{
    text.get(scheme_len(text) + 3..).unwrap_or(b"")
}

fn authority_of(text: &[u8]) -> &[u8]
    ensures { result.now ≡ spec.authority_of text.now }
{
    let rest = hierarchy_of(text);
    &rest[..authority_len(rest)]
}

/// What stands behind the authority.
pub(crate) fn tail_of(text: &[u8]) -> &[u8]
    ensures { result.now ≡ spec.tail_of text.now }
{
    let rest = hierarchy_of(text);
    &rest[authority_len(rest)..]
}

fn has_scheme(text: &[u8]) -> bool
    ensures { result ≡ spec.has_scheme text.now }
{
    let len = scheme_len(text);
    len <= SCHEME_LIMIT && text[len..].starts_with(b"://")
}

fn is_tail(text: &[u8]) -> bool
    ensures { result ≡ spec.is_tail text.now }
{
    text.is_empty() || (is_delimiter(text[0]) && is_path_and_query(before(b'#', text)))
}

/// What a reader that fails tells of its text: that it isn't valid, unless memory ran out.
fn refused(error: UriError) -> Result<bool, OutOfMemory>
    ensures no { IfOk result (λ is. is ≡ false) }
    ensures told { OnOk result (¬ (IsOutOfMemory error)) }
{
    match error {
        UriError::Invalid(_) => Ok(false),
        UriError::OutOfMemory => Err(OutOfMemory),
    }
}

/// Whether the text is an authority.
fn is_authority(alloc: Global, text: &[u8]) -> Result<bool, OutOfMemory>
    ensures { IfOk result (λ is. is ≡ spec.is_authority text.now) }
{
    match Authority::from_bytes(alloc, text) {
        Ok(_authority) => Ok(true),
        Err(error) => refused(error),
    }
}

/// Whether the target is in absolute-form.
#[tactic(auto, unfolding(crate::specs::Targets::is_absolute_form))]
pub(crate) fn is_absolute_form(alloc: Global, target: &[u8]) -> Result<bool, OutOfMemory>
    ensures { IfOk result (λ is. is ≡ spec.is_absolute_form target.now) }
{
    if target.len() <= URI_LIMIT && has_scheme(target) && is_tail(tail_of(target)) {
        is_authority(alloc, authority_of(target))
    } else {
        Ok(false)
    }
}

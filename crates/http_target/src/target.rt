//! The target of a request: its path and its query, and the address that a path is.
ghost use Rattle.std.specs.Prelude.{◌≡◌, ◌≤◌, ◌∷◌, IfOk, IsUtf8, drop, length, option_map};
ghost use Rattle.std.specs.List.{list_all};
ghost use Rattle.std.specs.Option.{option_copied};
ghost use Rattle.std.specs.Str.{is_utf8};
ghost use Rattle.http_uri.specs.ByteClasses as uri;
ghost use Rattle.http_target.specs.Chain.{ReadsAs};
ghost use Rattle.http_target.specs.Said.{target_of, said_by_target};
ghost use Rattle.http_target.specs.Seen.{seen_parts, seen_target};
ghost use Rattle.http_target.specs.Targets as spec;

use crate::absolute::{is_absolute_form, tail_of};
use crate::{BindFault, OutOfMemory};
use http_frames::Start;
use m2m_names::is_filled;
use m2m_value::Text;
use primitive_json::TARGET_LIMIT;
use std::alloc::Global;

/// A URI has at most so many bytes.
pub(crate) const URI_LIMIT: usize = 65_534;

/// The path of a target, and its query, where it has one.
#[derive(Clone, Copy)]
struct PathAndQuery<'a> {
    path: &'a [u8],
    query: Option<&'a [u8]>,
}

/// What a target says: the address, and the query, which is empty where there is none.
#[derive(Drop)]
pub struct Target<'a> {
    pub to: Text,
    pub query: &'a [u8],
}

fn is_path_byte(byte: u8) -> bool
    ensures { result ≡ uri.is_path_byte byte }
{
    matches!(byte, 33..=34 | 36..=59 | 61 | 64..=95 | 97..=126 | 128..=255)
}

fn is_query_byte(byte: u8) -> bool
    ensures { result ≡ uri.is_query_byte byte }
{
    matches!(byte, 33 | 36..=59 | 61 | 63..=126 | 128..=255)
}

fn are_of_path(text: &[u8]) -> bool
    ensures { result ≡ list_all uri.is_path_byte text.now }
{
    text.iter().all(|byte| is_path_byte(*byte))
}

fn are_of_query(text: &[u8]) -> bool
    ensures { result ≡ list_all uri.is_query_byte text.now }
{
    text.iter().all(|byte| is_query_byte(*byte))
}

/// Where the mark first stands, or the length.
pub fn index_of(mark: u8, text: &[u8]) -> usize
    ensures value { result ≡ uri.index_of mark text.now }
    ensures within { result ≤ length text.now }
{
    text.iter().take_while(|byte| **byte != mark).count()
}

/// What stands before the first mark, or all, and what stands behind it, if there is one.
fn split_at_mark(mark: u8, text: &[u8]) -> (&[u8], Option<&[u8]>)
    ensures front { result.0.now ≡ uri.split_once_front mark text.now }
    ensures back { option_copied result.1 ≡ uri.split_once_back mark text.now }
{
    let place = index_of(mark, text);
    if place < text.len() {
        (&text[..place], Some(&text[place + 1..]))
    } else {
        (&text[..place], None)
    }
}

/// What stands before the first mark, or all.
pub fn before(mark: u8, text: &[u8]) -> &[u8]
    ensures { result.now ≡ uri.split_once_front mark text.now }
{
    &text[..index_of(mark, text)]
}

/// What stands behind the first mark, if there is one.
pub fn behind(mark: u8, text: &[u8]) -> Option<&[u8]>
    ensures { option_copied result ≡ uri.split_once_back mark text.now }
{
    split_at_mark(mark, text).1
}

pub(crate) fn is_utf8(bytes: &[u8]) -> bool
    ensures { result ≡ is_utf8 bytes.now }
{
    match std::str::from_utf8(bytes) {
        Ok(_) => true,
        Err(_) => false,
    }
}

/// The path, which is `/` where the text has none, and the query.
fn split_target(text: &[u8]) -> PathAndQuery<'_>
    ensures { seen_parts result ≡ spec.split_target text.now }
{
    let (path, query) = split_at_mark(b'?', text);
    PathAndQuery {
        path: if path.is_empty() { b"/" } else { path },
        query,
    }
}

pub(crate) fn is_path_and_query(text: &[u8]) -> bool
    ensures { result ≡ spec.is_path_and_query text.now }
{
    let (path, query) = split_at_mark(b'?', text);
    are_of_path(path) && query.is_none_or(|query| are_of_query(query)) && is_utf8(text)
}

/// Whether the target, whose text without a fragment this is, is in origin-form.
fn is_origin_form(target: &[u8]) -> bool
    ensures { result ≡ spec.is_origin_form target.now }
{
    target.starts_with(b"/") && target.len() <= URI_LIMIT && is_path_and_query(before(b'#', target))
}

/// The path and the query of a target.
fn target_parts(alloc: Global, target: &[u8]) -> Result<Option<PathAndQuery<'_>>, OutOfMemory>
    ensures { IfOk result (λ parts. option_map seen_parts parts ≡ spec.target_parts target.now) }
{
    if is_origin_form(target) {
        Ok(Some(split_target(before(b'#', target))))
    } else if is_absolute_form(alloc, target)? {
        Ok(Some(split_target(before(b'#', tail_of(target)))))
    } else {
        Ok(None)
    }
}

/// Whether the path begins with `%7E`, in either case.
fn begins_coded(path: &[u8]) -> bool
    ensures { result ≡ spec.begins_coded path.now }
{
    matches!(path, [b'%', b'7', b'E' | b'e', ..])
}

/// The path with `~` for each `%7E`.
fn with_tildes(alloc: Global, path: &[u8]) -> Result<Vec<u8>, OutOfMemory>
    ensures { IfOk result (λ text. text.items ≡ spec.with_tildes path.now) }
{
    let mut text = Vec::with_capacity(alloc, path.len())?;
    let mut at = 0;
    while at < path.len() {
        if begins_coded(&path[at..]) {
            text.push(b'~')?;
            at += 3;
        } else {
            text.push(path[at])?;
            at += 1;
        }
    }
    Ok(text)
}

/// Whether the text begins with a segment of at least one byte.
fn has_segment(text: &[u8]) -> bool
    ensures { result ≡ spec.has_segment text.now }
{
    !before(b'/', text).is_empty()
}

fn is_of_sp(path: &[u8]) -> bool
    ensures { result ≡ spec.is_of_sp path.now }
{
    path.starts_with(b"/~/") && has_segment(&path[3..])
}

fn is_of_world(path: &[u8]) -> bool
    ensures { result ≡ spec.is_of_world path.now }
{
    path.starts_with(b"/_/") && has_provider(&path[3..])
}

/// Whether a segment stands at the front, and one behind the next slash.
fn has_provider(text: &[u8]) -> bool
    ensures { result ≡ spec.has_provider text.now }
{
    has_segment(text) && behind(b'/', text).is_some_and(|rest| has_segment(rest))
}

/// The address that a path is.
fn address_of_path(alloc: Global, path: &[u8]) -> Result<Text, OutOfMemory>
    ensures { IfOk result (λ text. text ≡ spec.address_of_path path.now) }
{
    if is_of_sp(path) {
        Text::from_slice(alloc, &path[2..])
    } else if is_of_world(path) {
        address_of_world(alloc, path)
    } else {
        Text::from_slice(alloc, path.get(1..).unwrap_or(b""))
    }
}

/// The address of a path whose first segment is `_`.
fn address_of_world(alloc: Global, path: &[u8]) -> Result<Text, OutOfMemory>
    requires { 2 ≤ length path.now }
    ensures { IfOk result (λ text. text ≡ uri.slash ∷ drop 2 path.now) }
{
    let mut text = Vec::with_capacity(alloc, path.len())?;
    text.push(b'/')?;
    text.extend_from_slice(&path[2..])?;
    Ok(Text::of(text))
}

/// Whether nothing in the path is coded.
fn are_uncoded(path: &[u8]) -> bool
    ensures { result ≡ list_all spec.is_uncoded_byte path.now }
{
    path.iter().all(|byte| *byte != b'%')
}

/// The same, of a path in which `%7E` stands for `~`.
#[tactic(auto, using(crate::proofs::TargetLemmas::tildes_kept))]
fn read_address(alloc: Global, path: &[u8]) -> Result<Text, OutOfMemory>
    ensures { IfOk result (λ text. text ≡ spec.address_of_path (spec.with_tildes path.now)) }
{
    if are_uncoded(path) {
        return address_of_path(alloc, path);
    }
    let path = with_tildes(alloc, path)?;
    address_of_path(alloc, &path)
}

/// What the path and the query of a target say.
fn said_by_target(alloc: Global, parts: PathAndQuery<'_>) -> Result<Target<'_>, BindFault>
    ensures value { ReadsAs seen_target result (said_by_target (seen_parts parts.entry)) }
    ensures utf8 { IfOk result (λ target. IsUtf8 target.to) }
{
    let to = read_address(alloc, parts.path)?;
    if is_filled(to.entries(), TARGET_LIMIT) && is_utf8(to.entries()) {
        Ok(Target {
            to,
            query: parts.query.unwrap_or(b""),
        })
    } else {
        Err(BindFault::Target)
    }
}

/// What the target of a message says.
pub fn target_of(alloc: Global, start: &Start) -> Result<Target<'_>, BindFault>
    ensures value { ReadsAs seen_target result (target_of start.now) }
    ensures utf8 { IfOk result (λ target. IsUtf8 target.to) }
{
    let Start::Ask { target, .. } = start else {
        return Err(BindFault::Target);
    };
    match target_parts(alloc, target.entries())? {
        Some(parts) => said_by_target(alloc, parts),
        None => Err(BindFault::Target),
    }
}

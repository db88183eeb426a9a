//! The target of a request, of a URL and of the address of the request.
ghost use Rattle.std.specs.Prelude.{◌≡◌, ◌++◌, IfOk, OnOk};
ghost use Rattle.http_uri.specs.Grammar.{or_slash};
ghost use Rattle.primitive_json.specs.Notes.{IsSomeUrl};
ghost use Rattle.http_client_binding.specs.Asking.{target_text};
ghost use Rattle.http_client_binding.specs.QueryWriting.{query_text, query_part};
ghost use Rattle.http_client_binding.specs.TargetWriting as spec;

use crate::OutOfMemory;
use crate::query::query_text;
use http_binding::index_of;
use m2m_value::Text;
use primitive_json::RequestParts;
use std::alloc::Global;

/// What a URL stands for, where a request is sent to it.
#[derive(Clone, Copy, Debug, PartialEq, Eq)]
pub enum Aim {
    /// The target itself: its path and its query are asked for.
    Direct,
    /// An entity: the address of the request is asked for, behind the path of the URL.
    Peer,
}

/// How long `http://` is.
const SCHEME_LEN: usize = 7;

/// What stands behind `http://`.
fn behind_scheme(url: &[u8]) -> &[u8]
    requires { IsSomeUrl url.now }
    ensures { result.now ≡ spec.behind_scheme url.now }
{
    &url[SCHEME_LEN..]
}

/// The host of a URL, with its port where it has one, as they are written.
pub fn host_of(url: &[u8]) -> &[u8]
    requires { IsSomeUrl url.now }
    ensures { result.now ≡ spec.host_of url.now }
{
    let rest = behind_scheme(url);
    &rest[..index_of(b'/', rest)]
}

/// The path of a URL with its query.
fn path_and_query_of(url: &[u8]) -> &[u8]
    requires { IsSomeUrl url.now }
    ensures { result.now ≡ spec.path_and_query_of url.now }
{
    let rest = behind_scheme(url);
    &rest[index_of(b'/', rest)..]
}

fn without_last_slash(path: &[u8]) -> &[u8]
    ensures { result.now ≡ spec.without_last_slash path.now }
{
    if !path.is_empty() && path[path.len() - 1] == b'/' {
        &path[..path.len() - 1]
    } else {
        path
    }
}

/// The path of a URL without its query and without a last slash.
fn root_path(url: &[u8]) -> &[u8]
    requires { IsSomeUrl url.now }
    ensures { result.now ≡ spec.root_path url.now }
{
    let path = path_and_query_of(url);
    without_last_slash(&path[..index_of(b'?', path)])
}

/// Appends the path of an address.
fn append_address(out: &mut Vec<u8>, to: &[u8]) -> Result<(), OutOfMemory>
    ensures { OnOk result (out.new.items ≡ out.old.items ++ spec.path_of_address to.now) }
{
    if to.starts_with(b"//") {
        out.extend_from_slice(b"/_")?;
        out.extend_from_slice(&to[1..])
    } else if to.starts_with(b"/") {
        out.extend_from_slice(b"/~")?;
        out.extend_from_slice(to)
    } else {
        out.extend_from_slice(b"/")?;
        out.extend_from_slice(to)
    }
}

/// Appends a query behind its mark, unless it is empty.
fn append_query(out: &mut Vec<u8>, query: &[u8]) -> Result<(), OutOfMemory>
    ensures { OnOk result (out.new.items ≡ out.old.items ++ query_part query.now) }
{
    if !query.is_empty() {
        out.extend_from_slice(b"?")?;
        out.extend_from_slice(query)?;
    }
    Ok(())
}

/// The target that a URL has alone.
fn direct_target(alloc: Global, url: &[u8]) -> Result<Text, OutOfMemory>
    requires { IsSomeUrl url.now }
    ensures { IfOk result (λ target. target ≡ or_slash (spec.path_and_query_of url.now)) }
{
    let target = path_and_query_of(url);
    Text::from_slice(alloc, if target.is_empty() { b"/" } else { target })
}

/// The target of a request at the entity to which a URL leads.
fn peer_target(alloc: Global, request: &RequestParts, url: &[u8]) -> Result<Text, OutOfMemory>
    requires { IsSomeUrl url.now }
    ensures { IfOk result (λ target. target
        ≡ spec.root_path url.now ++ spec.path_of_address request.now.to
        ++ query_part (query_text request.now)) }
{
    let query = query_text(alloc, request)?;
    let mut target = Vec::from_slice(alloc, root_path(url))?;
    append_address(&mut target, request.to.entries())?;
    append_query(&mut target, &query)?;
    Ok(Text::of(target))
}

/// The target of a request to a URL.
pub(crate) fn target_text(
    alloc: Global,
    request: &RequestParts,
    url: &[u8],
    aim: Aim,
) -> Result<Text, OutOfMemory>
    requires { IsSomeUrl url.now }
    ensures { IfOk result (λ target. target ≡ target_text request.now url.now aim) }
{
    match aim {
        Aim::Direct => direct_target(alloc, url),
        Aim::Peer => peer_target(alloc, request, url),
    }
}

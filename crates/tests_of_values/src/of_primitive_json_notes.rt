//! Copies of the items of the outbox.
ghost use Rattle.std.specs.Prelude.{IfOk, IsUtf8};
ghost use Rattle.primitive_json.specs.Notes.{IsSomeUrl, IsSoundDest};

use crate::lines::parsed;
use m2m_names::read_url;
use m2m_value::Text;
use primitive_json::{Dest, Kind, Note, NoteParts, OutOfMemory, PrimFault, request_from};
use std::alloc::{AllocGlobal, Global};
use std::process::Abort;
use std::test::Fail;

const URL: &str = "http://h:8080/in";

fn url(rt: &(impl Abort + AllocGlobal)) -> Result<Text, OutOfMemory>
    ensures { IfOk result (λ t. IsSomeUrl t) }
{
    let url = Text::of(Vec::from_slice(rt.alloc(), URL.as_bytes())?);
    read_url(url.entries()).expect(rt, "a URL");
    Ok(url)
}

/// An item that goes there.
fn note(alloc: Global, dest: Dest) -> Result<Note, PrimFault>
    requires { IsSoundDest dest }
{
    let value = parsed(alloc, r#"{"op":4,"rqi":"r1","to":"a"}"#)?;
    Ok(Note::of(NoteParts {
        kind: Kind::Copy,
        dest,
        request: request_from(alloc, value)?,
    }))
}

/// Where a copy of an item that goes there goes.
fn copied(alloc: Global, dest: Dest) -> Result<Dest, Fail>
    requires { IsSoundDest dest }
{
    let copy = note(alloc, dest)?.copy(alloc)?;
    Ok(copy.into_parts().dest)
}

/// A destination by its variant, its URL and its number.
fn parts_of(dest: &Dest) -> (u8, &[u8], u64) {
    match dest {
        Dest::Direct(url) => (0, url.entries(), 0),
        Dest::Peer(url) => (1, url.entries(), 0),
        Dest::Channel(number) => (2, b"", *number),
        Dest::Nowhere => (3, b"", 0),
    }
}

#[test]
fn items_to_urls_are_copied(rt: HostRuntime) -> Result<(), Fail> {
    let direct = copied(rt.alloc(), Dest::Direct(url(&rt)?))?;
    assert!(rt; parts_of(&direct) == (0, URL.as_bytes(), 0));
    let peer = copied(rt.alloc(), Dest::Peer(url(&rt)?))?;
    assert!(rt; parts_of(&peer) == (1, URL.as_bytes(), 0));
    Ok(())
}

#[test]
fn items_to_channels_are_copied(rt: HostRuntime) -> Result<(), Fail> {
    let channel = copied(rt.alloc(), Dest::Channel(7))?;
    assert!(rt; parts_of(&channel) == (2, b"", 7));
    let nowhere = copied(rt.alloc(), Dest::Nowhere)?;
    assert!(rt; parts_of(&nowhere) == (3, b"", 0));
    Ok(())
}

//! From a value to its text.
ghost use Rattle.std.specs.Prelude.{◌≡◌, ◌<◌, ◌≤◌, ◌++◌, ◌∷◌, [], OnOk, OnErr, flat_map, length};
ghost use Rattle.std.specs.Char.{digit_char};
ghost use Rattle.std.specs.Fmt.{decimal, signed_decimal};
ghost use Rattle.m2m_value.specs.Data.{depth, elements_of, pairs_of};
ghost use Rattle.m2m_value.specs.Node.{AreSorted};
ghost use Rattle.m2m_value.specs.Reading.{reading, reading_depth};
ghost use Rattle.m2m_value.specs.Sound.{IsSound, AreSound, HaveSound, BeginsWith};
ghost use Rattle.m2m_value.specs.Spelling.{short_escape, escaped, quoted, comma_at};
ghost use Rattle.m2m_value.specs.Spelling.{text_of, elements_from, pairs_from};

use crate::key::MemberKey;
use crate::plain::{all_plain, plain_end};
use crate::value::{Items, Members, Node, SharedItems, Val};
use itoa::Buffer;
use std::alloc::AllocError as OutOfMemory;

/// Appends the compact text of the value, or leaves `out` as it was.
pub fn write(value: &Val, out: &mut Vec<u8>) -> Result<(), OutOfMemory>
    ensures ok { OnOk result (out.new.items ≡ out.old.items ++ text_of value.now) }
    ensures err { OnErr result (out.new.items ≡ out.old.items) }
    ensures sound { OnOk result (IsSound value.now) }

    // The text is read as the value.
    ensures reads_back { OnOk result (depth value.now ≤ reading_depth
        → reading (text_of value.now) ≡ Ok value.now) }
{
    let before = out.len();
    let written = write_value(value, out);
    if written.is_err() {
        out.truncate(before);
    }
    written
}

#[cycle(write)]
fn write_value(value: &Val, out: &mut Vec<u8>) -> Result<(), OutOfMemory>
    ensures ok { OnOk result (out.new.items ≡ out.old.items ++ text_of value.now) }
    ensures err { OnErr result (BeginsWith out.old.items out.new.items) }
    ensures sound { OnOk result (IsSound value.now) }
{
    match &value.node {
        Node::Null => out.extend_from_slice(b"null"),
        Node::Bool(true) => out.extend_from_slice(b"true"),
        Node::Bool(false) => out.extend_from_slice(b"false"),
        Node::Num(n) => write_number(*n, out),
        Node::Text(text) => write_text(text.entries(), out),
        Node::List(items) => write_items(items, out),
        Node::Obj(members) => write_members(members, out),
        Node::Shared(shared) => write_shared(shared, out),
    }
}

#[cycle(write)]
#[inline(never)]
fn write_items(items: &Items, out: &mut Vec<u8>) -> Result<(), OutOfMemory>
    ensures ok { OnOk result (out.new.items
        ≡ out.old.items ++ 91 ∷ (elements_from (elements_of items.now) 0 ++ 93 ∷ [])) }
    ensures err { OnErr result (BeginsWith out.old.items out.new.items) }
    ensures sound { OnOk result (AreSound (elements_of items.now)) }
{
    out.push(b'[')?;
    for (place, value) in items.values.iter().enumerate() {
        write_comma(place, out)?;
        match value.as_num() {
            Some(n) => write_number(n, out)?,
            None => write_value(value, out)?,
        }
    }
    out.push(b']')?;
    Ok(())
}

#[cycle(write)]
fn write_shared(shared: &SharedItems, out: &mut Vec<u8>) -> Result<(), OutOfMemory>
    ensures ok { OnOk result (out.new.items
        ≡ out.old.items ++ 91 ∷ (elements_from (elements_of shared.now) 0 ++ 93 ∷ [])) }
    ensures err { OnErr result (BeginsWith out.old.items out.new.items) }
    ensures sound { OnOk result (AreSound (elements_of shared.now)) }
{
    write_items(shared.items(), out)
}

#[cycle(write)]
#[inline(never)]
fn write_members(members: &Members, out: &mut Vec<u8>) -> Result<(), OutOfMemory>
    ensures ok { OnOk result (out.new.items
        ≡ out.old.items ++ 123 ∷ (pairs_from (pairs_of members.now) 0 ++ 125 ∷ [])) }
    ensures err { OnErr result (BeginsWith out.old.items out.new.items) }
    ensures sorted { OnOk result (AreSorted members.now) }
    ensures sound { OnOk result (HaveSound (pairs_of members.now)) }
{
    out.push(b'{')?;
    for (place, member) in members.entries.iter().enumerate() {
        write_comma(place, out)?;
        write_member(&member.0, &member.1, out)?;
    }
    out.push(b'}')?;
    Ok(())
}

#[cycle(write)]
fn write_member(key: &MemberKey, value: &Val, out: &mut Vec<u8>) -> Result<(), OutOfMemory>
    ensures ok { OnOk result (out.new.items
        ≡ out.old.items ++ (quoted key.now ++ 58 ∷ text_of value.now)) }
    ensures err { OnErr result (BeginsWith out.old.items out.new.items) }
    ensures sound { OnOk result (IsSound value.now) }
{
    write_text(key.entries(), out)?;
    out.push(b':')?;
    write_value(value, out)
}

fn write_comma(place: usize, out: &mut Vec<u8>) -> Result<(), OutOfMemory>
    ensures ok { OnOk result (out.new.items ≡ out.old.items ++ comma_at place) }
    ensures err { OnErr result (out.new.items ≡ out.old.items) }
{
    if place > 0 {
        out.push(b',')?;
    }
    Ok(())
}

fn write_number(n: i64, out: &mut Vec<u8>) -> Result<(), OutOfMemory>
    ensures ok { OnOk result (out.new.items ≡ out.old.items ++ signed_decimal n) }
    ensures err { OnErr result (BeginsWith out.old.items out.new.items) }
{
    if n < 0 {
        out.push(b'-')?;
    }
    write_digits(n.unsigned_abs(), out)
}

/// Appends a number in decimal digits.
#[tactic(auto, using(std::proofs::lemmas::Fmt::decimal_digit))]
fn write_digits(n: u64, out: &mut Vec<u8>) -> Result<(), OutOfMemory>
    ensures ok { OnOk result (out.new.items ≡ out.old.items ++ decimal n) }
    ensures err { OnErr result (out.new.items ≡ out.old.items) }
{
    if n < 10 {
        Ok(out.push(b'0' + n as u8)?)
    } else {
        write_long(n, out)
    }
}

/// The same, where there are several digits.
#[inline(never)]
fn write_long(n: u64, out: &mut Vec<u8>) -> Result<(), OutOfMemory>
    ensures ok { OnOk result (out.new.items ≡ out.old.items ++ decimal n) }
    ensures err { OnErr result (out.new.items ≡ out.old.items) }
{
    out.extend_from_slice(Buffer::new().format(n).as_bytes())
}

fn write_text(text: &[u8], out: &mut Vec<u8>) -> Result<(), OutOfMemory>
    ensures ok { OnOk result (out.new.items ≡ out.old.items ++ quoted text.now) }
    ensures err { OnErr result (BeginsWith out.old.items out.new.items) }
{
    out.push(b'"')?;
    write_inside(text, out)?;
    out.push(b'"')?;
    Ok(())
}

/// Appends what stands for the bytes of a text, which mostly stand for themselves.
fn write_inside(text: &[u8], out: &mut Vec<u8>) -> Result<(), OutOfMemory>
    ensures ok { OnOk result (out.new.items ≡ out.old.items ++ flat_map escaped text.now) }
    ensures err { OnErr result (BeginsWith out.old.items out.new.items) }
{
    if all_plain(text) {
        out.extend_from_slice(text)
    } else {
        write_escaped(text, out)
    }
}

/// The same: those that stand for themselves go out at once, up to each that doesn't.
#[inline(never)]
fn write_escaped(text: &[u8], out: &mut Vec<u8>) -> Result<(), OutOfMemory>
    ensures ok { OnOk result (out.new.items ≡ out.old.items ++ flat_map escaped text.now) }
    ensures err { OnErr result (BeginsWith out.old.items out.new.items) }
{
    let mut at = 0;
    loop {
        let stop = plain_end(text, at);
        out.extend_from_slice(&text[at..stop])?;
        if stop == text.len() {
            return Ok(());
        }
        write_byte(text[stop], out)?;
        at = stop + 1;
    }
}

fn write_byte(byte: u8, out: &mut Vec<u8>) -> Result<(), OutOfMemory>
    ensures ok { OnOk result (out.new.items ≡ out.old.items ++ escaped byte) }
    ensures err { OnErr result (out.new.items ≡ out.old.items) }
{
    match short_escape(byte) {
        Some(letter) => out.extend_from_slice(&[b'\\', letter]),
        None if byte < 32 => {
            out.extend_from_slice(&[
                b'\\',
                b'u',
                b'0',
                b'0',
                hex_digit(byte / 16),
                hex_digit(byte % 16),
            ])
        }
        None => Ok(out.push(byte)?),
    }
}

/// The letter after the backslash, where the byte has a short escape.
pub(crate) fn short_escape(byte: u8) -> Option<u8>
    ensures { result ≡ short_escape byte }
{
    match byte {
        b'"' => Some(b'"'),
        b'\\' => Some(b'\\'),
        8 => Some(b'b'),
        12 => Some(b'f'),
        b'\n' => Some(b'n'),
        b'\r' => Some(b'r'),
        b'\t' => Some(b't'),
        _ => None,
    }
}

fn hex_digit(n: u8) -> u8
    requires { n < 16 }
    ensures { result ≡ digit_char n }
{
    if n < 10 { b'0' + n } else { b'a' + (n - 10) }
}

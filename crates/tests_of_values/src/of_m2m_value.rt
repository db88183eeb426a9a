//! Values from outside: what JSON texts spell, and how values print.
use crate::lines::{number, parts, word};
use m2m_value::*;
use std::alloc::{AllocGlobal, Global};
use std::process::Abort;
use std::test::Fail;

const TOLD: &str = r#"read -1 => -1
read 9223372036854775807 => 9223372036854775807
read -9223372036854775808 => -9223372036854775808
read 9223372036854775808 => too wide
read 18446744073709551616 => fraction
read -9223372036854775809 => fraction
read -0 => fraction
read 1e2 => fraction
read 01 => not JSON
read [1.5,9223372036854775808] => fraction
read [9223372036854775808,1.5] => too wide
read {"b":1.5,"a":9223372036854775808} => too wide
read {"a":1.5,"a":1} => {"a":1}
read [{"a":[1.5]},9223372036854775808, => not JSON
read  [ null , true,false ]  => [null,true,false]
read { } => {}
read {"b":1,"a":{"y":[],"x":2},"b":3} => {"a":{"x":2,"y":[]},"b":3}
read {"B":1,"a":2,"":3} => {"":3,"B":1,"a":2}
read "\u0041\/\u00e9\ud83d\ude00" => "A/é😀"
read "\"\\\b\f\n\r\t" => "\"\\\b\f\n\r\t"
read "\u0000\u001F" => "\u0000\u001f"
read  => not JSON
read [1] 2 => not JSON
read [1,] => not JSON
read nul => not JSON
read "\ud83d" => not JSON
read +1 => not JSON
size "\n\u00e9" => 3
size {"a":"\u0001","b":[1,-2]} => 25
depth 127 => read
depth 128 => not JSON
twice a => 2
list a => same
truth yes => true
truth no => false"#;

fn fault_word(fault: ValFault) -> &'static str {
    match fault {
        ValFault::NotJson => "not JSON",
        ValFault::TooWide => "too wide",
        ValFault::Fraction => "fraction",
        ValFault::OutOfMemory => "out of memory",
    }
}

fn spelled(alloc: Global, value: &Val) -> Result<String, OutOfMemory> {
    let mut out = Vec::new(alloc);
    write(value, &mut out)?;
    String::from_utf8_lossy(alloc, out.as_slice())
}

/// The text of what is read, or the fault.
fn read_again(alloc: Global, text: &str) -> Result<String, OutOfMemory> {
    match read(alloc, text.as_bytes()) {
        Ok(value) => spelled(alloc, &value),
        Err(fault) => word(alloc, fault_word(fault)),
    }
}

/// The size of a value, if a copy of it is equal.
fn measured(alloc: Global, value: &Val) -> Result<Option<u64>, OutOfMemory> {
    if value.copy(alloc)? == *value {
        Ok(Some(value.size()))
    } else {
        Ok(None)
    }
}

fn size(alloc: Global, text: &str) -> Result<String, OutOfMemory> {
    match read(alloc, text.as_bytes()) {
        Ok(value) => number(alloc, measured(alloc, &value)?),
        Err(fault) => word(alloc, fault_word(fault)),
    }
}

fn nested(alloc: Global, depth: usize) -> Result<String, OutOfMemory> {
    let mut text = String::new(alloc);
    for _ in 0..depth {
        text.push('[')?;
    }
    for _ in 0..depth {
        text.push(']')?;
    }
    Ok(text)
}

/// What is told of a text of lists in one another, so many deep.
fn depth(alloc: Global, text: &str) -> Result<String, OutOfMemory> {
    let text = nested(alloc, text.parse::<usize>().unwrap_or(0))?;
    match read(alloc, text.as_bytes()) {
        Ok(_) => word(alloc, "read"),
        Err(fault) => word(alloc, fault_word(fault)),
    }
}

fn put(alloc: Global, members: &mut Members, key: &str, n: i64) -> Result<(), OutOfMemory> {
    let key = MemberKey::of(Text::from_slice(alloc, key.as_bytes())?);
    members.put(key, Val::of_num(n))
}

/// A member that is written twice.
fn twice(alloc: Global, key: &str) -> Result<String, OutOfMemory> {
    let mut members = Members::new(alloc);
    put(alloc, &mut members, key, 1)?;
    put(alloc, &mut members, key, 2)?;
    number(alloc, members.get(key.as_bytes()).and_then(Val::as_count))
}

/// A list of a text and a byte that is none, copied.
fn list(alloc: Global, text: &str) -> Result<String, OutOfMemory> {
    let mut texts = Vec::new(alloc);
    texts.push(Text::from_slice(alloc, b"\xff")?)?;
    texts.push(Text::from_slice(alloc, text.as_bytes())?)?;
    let labels = Labels::of(texts);
    let same = labels.copy(alloc)? == labels;
    word(alloc, if same { "same" } else { "other" })
}

fn told(alloc: Global, asked: &str, text: &str) -> Result<String, OutOfMemory> {
    match asked {
        "read" => read_again(alloc, text),
        "size" => size(alloc, text),
        "depth" => depth(alloc, text),
        "twice" => twice(alloc, text),
        "list" => list(alloc, text),
        "truth" => spelled(alloc, &Val::of_bool(text == "yes")),
        _ => word(alloc, "no such word"),
    }
}

fn check(rt: &(impl Abort + AllocGlobal), line: &str) -> Result<(), Fail> {
    let (asked, text, want) = parts(rt, line);
    let told = told(rt.alloc(), asked, text)?;
    assert!(rt; told.as_str() == want, "{line}: {told}");
    Ok(())
}

#[test]
fn values_are_read_and_written(rt: HostRuntime) -> Result<(), Fail> {
    for line in TOLD.lines() {
        check(&rt, line)?;
    }
    Ok(())
}

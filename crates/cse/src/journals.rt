//! What is seen to beside the opening of a journal.
use devices::TcpDoor;
use disk_file::is_new;
use filter_criteria::value_at;
use journal_lines::{home_value, line_len};
use kept_file::KeptFile;
use m2m_io::{Door, Sink, Status};
use m2m_value::{Scratch, Val, read_in, write};
use std::alloc::{AllocError, Global};
use std::io::Eprint;
use std::net::{Net, TcpListener, TcpStream};
use std::time::Clock;
use tree_model::Home;

/// The names of a home's members, each with the option that says it.
const OPTIONS: [(&str, &str); 5] = [
    ("csi", "--id"),
    ("base", "--base"),
    ("sp", "--sp"),
    ("admin", "--admin"),
    ("cst", "--type"),
];

/// Sees to it that no new journal of this name is made for a server that can't listen here. Where
/// it can't, the door says why.
pub(crate) fn can_listen_for<R>(
    rt: &HostRuntime,
    name: &str,
    listen: &str,
    door: &mut TcpDoor<R>,
) -> bool
where
    R: Net<Listener = TcpListener, Stream = TcpStream> + Clock + Eprint + Copy + Send,
{
    !is_new(rt, name)
        || TcpListener::bind(rt, listen).is_ok()
        || door.open(listen.as_bytes()).is_ok()
}

/// The home that a value says, which is the first line of a journal: a header, or that of a
/// snapshot.
fn home_in(value: &Val) -> Option<&Val> {
    match value.as_list() {
        Some(items) => items.entries().get(1),
        None => value_at(value, "home"),
    }
}

/// Whether these are equal, or neither is there.
fn are_alike(one: Option<&Val>, other: Option<&Val>) -> bool {
    match (one, other) {
        (Some(one), Some(other)) => *one == *other,
        (None, None) => true,
        _ => false,
    }
}

/// Appends a value as JSON, or that there is none.
fn push_shown(line: &mut Vec<u8>, value: Option<&Val>) -> Result<(), AllocError> {
    match value {
        Some(value) => write(value, line),
        None => line.extend_from_slice(b"nothing"),
    }
}

/// Appends a line for what a journal of this name has otherwise than a CSE.
fn push_difference(
    lines: &mut Vec<u8>,
    name: &str,
    option: &str,
    theirs: Option<&Val>,
    ours: Option<&Val>,
) -> Result<(), AllocError> {
    if are_alike(theirs, ours) {
        return Ok(());
    }
    for text in [name, ": it has ", option, " "] {
        lines.extend_from_slice(text.as_bytes())?;
    }
    push_shown(lines, theirs)?;
    lines.extend_from_slice(b", not ")?;
    push_shown(lines, ours)?;
    lines.push(b'\n')?;
    Ok(())
}

/// A home as a journal has it, where there is memory for it.
pub(crate) fn own_home(alloc: Global, home: &Home) -> Option<Val> {
    home_value(alloc, home).ok()
}

/// What a journal's home has otherwise than this one, as lines that name the options.
fn differences(alloc: Global, name: &str, bytes: &[u8], own: &Val) -> Result<Vec<u8>, AllocError> {
    let mut lines = Vec::new(alloc);
    let mut scratch = Scratch::new(alloc);
    let Ok(value) = read_in(alloc, &mut scratch, &bytes[..line_len(bytes)]) else {
        return Ok(lines);
    };
    let Some(there) = home_in(&value) else {
        return Ok(lines);
    };
    for (member, option) in OPTIONS {
        let (theirs, ours) = (value_at(there, member), value_at(own, member));
        push_difference(&mut lines, name, option, theirs, ours)?;
    }
    Ok(lines)
}

/// Where a journal was refused, says in what its home differs from this one.
pub(crate) fn say_differences<F: KeptFile, E: Sink>(
    alloc: Global,
    name: &str,
    file: &mut F,
    own: Option<Val>,
    err: &mut E,
) {
    if let Some(own) = own
        && let Ok(bytes) = file.read(alloc)
        && let Ok(lines) = differences(alloc, name, &bytes, &own)
    {
        let _ = err.put(&lines);
    }
}

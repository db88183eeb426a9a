//! Plays cases against `cse_cli::run` over objects in memory, prints one line for each that
//! differs, and then how many were played. `args` names the files of cases, which lie in `data/`;
//! `stdout` has the count that must come. A new case needs no proof and no build.
//!
//! # The format
//!
//! A file is UTF-8 text in lines. Empty lines are skipped, and so are those that begin with `#`. A
//! line that isn't one of the following, or stands where it can't, is named, and the run fails. A
//! case begins with its title:
//!
//! - `== TITLE`: what the case shows.
//!
//! Behind it, in any order, what goes in:
//!
//! - `words WORD ..`: the words of the command line; none where the line is missing.
//! - `clock N ..`: what the clock tells, call for call, and then the last again; 0 where it is
//!   missing.
//! - `in`: standard input, a block.
//! - `cut N ..`: read k of the input gives at most the k-th number of bytes, a later one as many as
//!   fit.
//! - `cut N*`: each read gives at most N bytes.
//! - `cut each`: the case is played once for each place inside the input, which is cut in two
//!   there.
//! - `cut turns`: the client waits. Each block of `in`, of 4,096 bytes at most, is given by a read
//!   of its own, and only once as many replies were put as blocks were given before; a read that
//!   comes earlier fails.
//! - `prefixes NAME`: the case is played once for each proper prefix of the named text that isn't
//!   empty, which stands behind the input.
//! - `fail in N ..`: the reads of these numbers fail, from 1; and so do the calls of `out`, `err`,
//!   `link` and `door`.
//! - `answer`: an answer of the link of `first`, a block. Answers are given in order.
//! - `conn`, `conn N`: a connection of the door, or so many alike. The lines `in`, `cut N ..`,
//!   `cut N*`, `fail in`, `fail out` and `out` behind it are its own.
//!
//! And what must come:
//!
//! - `out`: standard output, a block.
//! - `err TEXT`: standard error, the text and a line feed; nothing where the line is missing.
//! - `status N`: the number of the status; 0 where the line is missing.
//! - `left N`: so many bytes of the input are left unread; not compared where the line is missing.
//! - `asked HOST`: an exchange of the link of `first`: what was sent to this host, a block. All
//!   exchanges stand, in order.
//! - `served N`: so many connections of the door got just what their `out` says; all where it is
//!   missing.
//!
//! A block is the lines behind its head that begin with `|`: behind a blank each is one line, which
//! ends in CR LF. It may have a number in its head, `in 3`, and stands so often; and the name of a
//! text in place of lines, `in get` or `out 3 get`. Blocks of one kind stand one behind another.
//! Above the first title stand the texts, each a block with the head `text NAME`, and `words` and
//! `clock` for all cases of the file that have no such line.
//!
//! In blocks and behind `err` a backslash at the end takes the end of the line away; `\n`, `\r`,
//! `\t` and `\\` are LF, CR, tab and backslash, `\xHH` is any byte, and `\{N}` says that the byte
//! before it stands N times.
#![tactic(auto)]

mod came;
mod case;
mod client;
mod escapes;
mod fault;
mod link;
mod play;
mod reader;
mod verdict;

use case::Case;
use fault::Fault;
use std::alloc::{AllocError, Global};
use std::process::ExitCode;
use std::rt::{Env, Files};
use std::sync::Wait;
use std::thread::Threads;
use std::{env, fs, io, time};

/// How many cases were played, and how many of them differed.
#[derive(Clone, Copy)]
struct Count {
    played: u64,
    differ: u64,
}

fn print_difference(
    rt: &impl Print,
    file: &str,
    case: &Case,
    form: usize,
    difference: &str,
) -> io::Result<()> {
    let (line, title) = (case.line, case.title.as_str());
    let forms = case.forms();
    if forms == 1 {
        return println!(rt; "{file}:{line}: {title}: {difference}");
    }
    let number = form.saturating_add(1);
    println!(rt; "{file}:{line}: {title}, form {number} of {forms}: {difference}")
}

/// Plays a case in each of its forms, and prints a line for each form that differs.
fn play_case<R>(rt: &R, file: &str, case: &Case, count: &mut Count) -> io::Result<()>
where
    R: Wait + Threads + time::Clock + AllocGlobal + Print + Clone + Drop + Sync + Send,
{
    for form in 0..case.forms() {
        count.played = count.played.saturating_add(1);
        if let Some(difference) = play::play(rt, rt.alloc(), case, form)? {
            count.differ = count.differ.saturating_add(1);
            print_difference(rt, file, case, form, difference.as_str())?;
        }
    }
    Ok(())
}

/// Plays the cases of a file. False where a line of it is malformed, which is printed.
fn play_file<R>(rt: &R, file: &str, count: &mut Count) -> io::Result<bool>
where
    R: Wait + Threads + time::Clock + Files + AllocGlobal + Print + Clone + Drop + Sync + Send,
{
    let text = fs::read_to_string(rt, file)?;
    match reader::read(rt.alloc(), text.as_str()) {
        Ok(cases) => {
            for case in &cases {
                play_case(rt, file, case, count)?;
            }
            Ok(true)
        }
        Err(Fault::OutOfMemory) => Err(io::Error::from(io::ErrorKind::OutOfMemory)),
        Err(Fault::Line { line, why }) => {
            println!(rt; "{file}:{line}: {why}")?;
            Ok(false)
        }
    }
}

/// The words behind the program's name; none where they can't be read.
fn words<R: Env + AllocGlobal>(rt: &R) -> Result<Vec<String>, AllocError> {
    match env::args(rt) {
        Ok(args) => args.skip(1).collect(rt.alloc()),
        Err(_) => Ok(Vec::new(rt.alloc())),
    }
}

fn main(rt: HostRuntime) -> io::Result<ExitCode> {
    let mut count = Count {
        played: 0,
        differ: 0,
    };
    let mut whole = true;
    for file in &words(&rt)? {
        whole &= play_file(&rt, file.as_str(), &mut count)?;
    }
    println!(&rt; "{} cases, {} differ", count.played, count.differ)?;
    let passes = whole && 0 < count.played && count.differ == 0;
    Ok(ExitCode::from(if passes { 0 } else { 1 }))
}

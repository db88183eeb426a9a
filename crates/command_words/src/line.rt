//! What a command line asks for.
ghost use Rattle.std.specs.Prelude.{◌≡◌, ◌∷◌, [], IfOk, List, None, Some, map, option_map};
ghost use Rattle.std.specs.Prelude.{option_and_then};
ghost use Rattle.clap.specs.Words.{found_of, rows_of};
ghost use Rattle.command_words.specs.Options.{Choice, in_one_word, options_in};
ghost use Rattle.command_words.specs.Program.{rows_by};
ghost use Rattle.command_words.specs.Command.{home_options, http_options, serve_options};
ghost use Rattle.command_words.specs.Command.{home_said, snapshot_options};
ghost use Rattle.command_words.specs.Line.{runs};
ghost use Rattle.command_words.specs.Line as spec;
ghost use Rattle.command_words.specs.Reading.{Reads, asked_by, command_by, task_by};

use crate::command::{
    Command, Task, count_said, file_said, later_said, option_value, serving_said,
};
use crate::faults::{LineFault, WordFault};
use crate::options::begins_with_dash;
use crate::program::options_of;
use crate::{command, names};
use clap::ArgMatches;
use resource_model::Home;
use std::alloc::{AllocError as OutOfMemory, Global};

/// What a command line asks for.
#[derive(Debug, Drop)]
pub enum Asked<'a> {
    /// A command over an entity that is kept nowhere.
    Run(Command<'a>),
    /// A command over the entity that is kept in the file of this name.
    RunOver(&'a str, Command<'a>),
    /// That the journal in the file of this name is made short, which is that of this home.
    Snapshot(&'a str, Home),
    /// What the commands and their options are.
    Help,
    /// Which version the program is.
    Version,
}

/// As many requests as can be made.
const MOST_MADE: u64 = 100_000;

/// Whether a task is done over an entity that can be kept in a file.
pub fn may_keep(task: Task<'_>) -> bool
    ensures { result ≡ spec.may_keep (task_by task.entry) }
{
    match task {
        Task::Http(_) | Task::Serve(_) => true,
        Task::Replay | Task::Twin | Task::Generate(_) => false,
    }
}

/// Whether a task is done over a CSE that answers later where it is asked so.
pub fn answers_later(task: Task<'_>) -> bool
    ensures { result ≡ spec.answers_later (task_by task.entry) }
{
    match task {
        Task::Http(later) => later,
        Task::Serve(serving) => serving.later,
        Task::Replay | Task::Twin | Task::Generate(_) => false,
    }
}

/// A command over the journal in a file.
fn over_file<'a>(file: &'a str, command: Command<'a>) -> Result<Asked<'a>, LineFault<'a>>
    ensures { Reads asked_by (spec.over (Some file.now) (command_by command.entry)) result }
{
    if may_keep(command.task) {
        Ok(Asked::RunOver(file, command))
    } else {
        Err(LineFault::Words(WordFault::NoOption(names::JOURNAL)))
    }
}

/// A command over the journal in a file, where one is named.
fn over<'a>(file: Option<&'a str>, command: Command<'a>) -> Result<Asked<'a>, LineFault<'a>>
    ensures { Reads asked_by
        (spec.over (option_map (λ text. text.now) file.entry) (command_by command.entry)) result }
{
    match file {
        Some(file) => over_file(file, command),
        None => Ok(Asked::Run(command)),
    }
}

/// A task, with the home and the journal that its options say.
fn task_at<'a>(
    alloc: Global,
    task: Task<'a>,
    options: &ArgMatches<'a>,
) -> Result<Asked<'a>, LineFault<'a>>
    ensures { (os : List Choice) → rows_of (found_of options.now) ≡ rows_by os
        → Reads asked_by (spec.task_at (task_by task.entry) os) result }
{
    let file = file_said(option_value(names::JOURNAL, options))?;
    let home = command::home_said(alloc, options)?;
    over(file, Command { task, home })
}

fn http_said<'a>(alloc: Global, words: &'a [&'a str]) -> Result<Asked<'a>, LineFault<'a>>
    ensures { Reads asked_by (option_and_then spec.connection_at
        (options_in http_options (map (λ word. word.now) words.now))) result }
{
    let taken = [
        names::ID,
        names::BASE,
        names::SP,
        names::ADMIN,
        names::TYPE,
        names::LATER,
        names::JOURNAL,
    ];
    let options = options_of(alloc, &taken, words)?;
    let later = later_said(option_value(names::LATER, &options))?;
    task_at(alloc, Task::Http(later), &options)
}

/// A task with the options of a home alone.
fn homed_said<'a>(
    alloc: Global,
    task: Task<'a>,
    words: &'a [&'a str],
) -> Result<Asked<'a>, LineFault<'a>>
    ensures { Reads asked_by (option_and_then (spec.task_at (task_by task.entry))
        (options_in home_options (map (λ word. word.now) words.now))) result }
{
    let taken = [names::ID, names::BASE, names::SP, names::ADMIN, names::TYPE];
    let options = options_of(alloc, &taken, words)?;
    task_at(alloc, task, &options)
}

fn serve_said<'a>(alloc: Global, words: &'a [&'a str]) -> Result<Asked<'a>, LineFault<'a>>
    ensures { Reads asked_by (option_and_then spec.server_at
        (options_in serve_options (map (λ word. word.now) words.now))) result }
{
    let taken = [
        names::ID,
        names::BASE,
        names::SP,
        names::ADMIN,
        names::TYPE,
        names::LISTEN,
        names::ACCEPT,
        names::WORKERS,
        names::LOG,
        names::BIND,
        names::LATER,
        names::JOURNAL,
    ];
    let options = options_of(alloc, &taken, words)?;
    let serving = serving_said(&options)?;
    task_at(alloc, Task::Serve(serving), &options)
}

/// What the words behind `gen` say: one number. No option stands there.
fn gen_said<'a>(alloc: Global, words: &[&'a str]) -> Result<Asked<'a>, LineFault<'a>>
    ensures { Reads asked_by (spec.gen_says (map (λ word. word.now) words.now)) result }
{
    match words {
        [text] => making_said(alloc, text),
        [_, word, ..] => Err(LineFault::Words(WordFault::TooMany(word))),
        [] => Err(LineFault::Words(WordFault::NoNumber)),
    }
}

/// The command that makes as many requests as a text says.
fn making_said<'a>(alloc: Global, text: &'a str) -> Result<Asked<'a>, LineFault<'a>>
    ensures { Reads asked_by (spec.gen_says (text.now ∷ [])) result }
{
    let requests = count_said(names::GEN, text, MOST_MADE)?;
    let home = Home::with_defaults(alloc)?;
    Ok(Asked::Run(Command {
        task: Task::Generate(requests),
        home,
    }))
}

/// Whether the word names a file: it isn't empty, and begins with no dash.
fn is_file_word(word: &str) -> bool
    ensures { result ≡ spec.is_file_word word.now }
{
    match word.as_bytes() {
        [first, ..] => *first != b'-',
        [] => false,
    }
}

/// The home that words say which are the options of one.
fn home_in<'a>(alloc: Global, words: &'a [&'a str]) -> Result<Home, LineFault<'a>>
    ensures { Reads (λ home. home) (option_and_then home_said
        (options_in snapshot_options (map (λ word. word.now) words.now))) result }
{
    let taken = [names::ID, names::BASE, names::SP, names::ADMIN, names::TYPE];
    let options = options_of(alloc, &taken, words)?;
    command::home_said(alloc, &options)
}

/// What the words behind `snapshot` say: the name of a file, and the options of a home.
fn snapshot_said<'a>(alloc: Global, words: &'a [&'a str]) -> Result<Asked<'a>, LineFault<'a>>
    ensures { Reads asked_by (spec.snapshot_says (map (λ word. word.now) words.now)) result }
{
    match words {
        [file, options @ ..] if is_file_word(file) => {
            let home = home_in(alloc, options)?;
            Ok(Asked::Snapshot(file, home))
        }
        _ => Err(LineFault::Words(WordFault::NoFile)),
    }
}

/// This, where no word stands behind.
fn alone<'a>(asked: Asked<'a>, words: &[&'a str]) -> Result<Asked<'a>, LineFault<'a>>
    ensures { Reads asked_by (spec.alone (asked_by asked.entry) (map (λ word. word.now) words.now))
        result }
{
    match words {
        [] => Ok(asked),
        [word, ..] => Err(LineFault::Words(WordFault::TooMany(word))),
    }
}

/// What the program is asked of itself.
fn said_of_itself<'a>(first: &'a str, words: &[&'a str]) -> Result<Asked<'a>, LineFault<'a>>
    ensures { Reads asked_by
        (spec.asked_of_itself first.now (map (λ word. word.now) words.now)) result }
{
    if first == names::HELP || first == names::HELP_OPTION {
        alone(Asked::Help, words)
    } else if first == names::VERSION_OPTION {
        alone(Asked::Version, words)
    } else {
        Err(LineFault::Words(WordFault::NoCommand(first)))
    }
}

fn said_behind<'a>(
    alloc: Global,
    first: &'a str,
    words: &'a [&'a str],
) -> Result<Asked<'a>, LineFault<'a>>
    ensures { Reads asked_by
        (spec.asked_behind first.now (map (λ word. word.now) words.now)) result }
{
    if first == names::HTTP {
        http_said(alloc, words)
    } else if first == names::REPLAY {
        homed_said(alloc, Task::Replay, words)
    } else if first == names::TWIN {
        homed_said(alloc, Task::Twin, words)
    } else if first == names::SERVE {
        serve_said(alloc, words)
    } else if first == names::GEN {
        gen_said(alloc, words)
    } else if first == names::SNAPSHOT {
        snapshot_said(alloc, words)
    } else {
        said_of_itself(first, words)
    }
}

// ---- a journal that is named in front of the command

/// A command over the journal in a file that is named in front of it.
fn command_kept<'a>(file: &'a str, command: Command<'a>) -> Result<Asked<'a>, LineFault<'a>>
    ensures { Reads asked_by (spec.kept_in file.now (runs (command_by command.entry))) result }
{
    let file = file_said(Some(file))?;
    over(file, command)
}

/// What is asked for with the journal in a file in front of it.
fn kept_in<'a>(file: &'a str, asked: Asked<'a>) -> Result<Asked<'a>, LineFault<'a>>
    ensures { Reads asked_by (spec.kept_in file.now (asked_by asked.entry)) result }
{
    match asked {
        Asked::Run(command) => command_kept(file, command),
        Asked::RunOver(..) => Err(LineFault::Words(WordFault::Twice(names::JOURNAL))),
        Asked::Snapshot(..) | Asked::Help | Asked::Version => {
            Err(LineFault::Words(WordFault::NoOption(names::JOURNAL)))
        }
    }
}

/// What a command asks for behind the name of a journal's file.
fn said_over<'a>(
    alloc: Global,
    file: &'a str,
    words: &'a [&'a str],
) -> Result<Asked<'a>, LineFault<'a>>
    ensures { Reads asked_by (spec.asked_over file.now (map (λ word. word.now) words.now)) result }
{
    match words {
        [first, rest @ ..] => {
            let asked = said_behind(alloc, first, rest)?;
            kept_in(file, asked)
        }
        [] => Err(LineFault::Words(WordFault::NoWords)),
    }
}

/// What is asked for behind `--journal`: the name of a file stands there, and then a command.
fn said_over_next<'a>(alloc: Global, words: &'a [&'a str]) -> Result<Asked<'a>, LineFault<'a>>
    ensures { Reads asked_by (spec.asked_over_next (map (λ word. word.now) words.now)) result }
{
    match words {
        [file, rest @ ..] if !begins_with_dash(file) => said_over(alloc, file, rest),
        _ => Err(LineFault::Words(WordFault::NoValue(names::JOURNAL))),
    }
}

/// The value that the word gives `--journal` in itself, behind an equals sign.
fn journal_within(word: &str) -> Option<&str>
    ensures { option_map (λ value. value.now) result
        ≡ spec.journal_of (in_one_word word.now) }
{
    let (name, value) = word.split_once('=')?;
    if name == names::JOURNAL {
        Some(value)
    } else {
        None
    }
}

/// What is asked for where the first word doesn't give `--journal` its value in itself.
fn said_from<'a>(
    alloc: Global,
    first: &'a str,
    words: &'a [&'a str],
) -> Result<Asked<'a>, LineFault<'a>>
    ensures { Reads asked_by
        (spec.asked_from None first.now (map (λ word. word.now) words.now)) result }
{
    if first == names::JOURNAL {
        said_over_next(alloc, words)
    } else {
        said_behind(alloc, first, words)
    }
}

/// What the words of a command line ask for, as they stand behind the program's name.
pub fn read_line<'a>(alloc: Global, words: &'a [&'a str]) -> Result<Asked<'a>, LineFault<'a>>
    // What is asked for is what the words say. Where they are faulty they say nothing.
    ensures { Reads asked_by (spec.asked_in (map (λ word. word.now) words.now)) result }
{
    match words {
        [first, rest @ ..] => match journal_within(first) {
            Some(file) => said_over(alloc, file, rest),
            None => said_from(alloc, first, rest),
        },
        [] => Err(LineFault::Words(WordFault::NoWords)),
    }
}

/// The command that is asked for, where it is one that keeps nothing.
fn command_of(asked: Asked<'_>) -> Option<Command<'_>>
    ensures { option_map command_by result ≡ spec.command_of (asked_by asked.entry) }
{
    match asked {
        Asked::Run(command) => Some(command),
        _ => None,
    }
}

/// The command that words are, as they stand behind the program's name: one that keeps nothing. An
/// `Err` is want of memory.
pub fn read_command<'a>(
    alloc: Global,
    words: &'a [&'a str],
) -> Result<Option<Command<'a>>, OutOfMemory>
    ensures { IfOk result (λ said. option_map command_by said
        ≡ spec.command_in (map (λ word. word.now) words.now)) }
{
    match read_line(alloc, words) {
        Ok(asked) => Ok(command_of(asked)),
        Err(LineFault::Words(_)) => Ok(None),
        Err(LineFault::OutOfMemory) => Err(OutOfMemory),
    }
}

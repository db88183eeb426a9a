//! Options as `clap` reads them.
ghost use Rattle.std.specs.Prelude.{◌≡◌, IfOk, take, drop, map, false, fold, codes};
ghost use Rattle.std.specs.List.{list_any};
ghost use Rattle.clap.specs.Words.{app_of, rule_of};
ghost use Rattle.clap.specs.declared.builder.command.Command.TheViews.{out-Command as fields_of};
ghost use Rattle.command_words.specs.Options.{options_in};
ghost use Rattle.command_words.specs.Program as spec;
ghost use Rattle.command_words.specs.Program.{AreOptionNames, FindsOptions};

use crate::faults::LineFault;
use crate::options::option_fault;
use clap::error::ErrorKind;
use clap::{Arg, ArgAction, ArgMatches, Command};
use std::alloc::{AllocError as OutOfMemory, Global};

/// The word begins with a dash and is no option: `--`, or what has one dash alone. `clap` would
/// take a `-` for a value, and a `--` for the end of the options.
fn is_stray(word: &str) -> bool
    ensures { result ≡ spec.is_stray word.now }
{
    match word.as_bytes() {
        [first, second, _, ..] => *first == b'-' && *second != b'-',
        [first, ..] => *first == b'-',
        [] => false,
    }
}

fn has_stray(words: &[&str]) -> bool
    ensures { result ≡ list_any (λ word. spec.is_stray word.now) words.now }
{
    words.iter().any(|word| is_stray(word))
}

/// The name of an option as `clap` has it: without the two dashes in front.
fn long_name(name: &str) -> &str
    requires { take 2 name.now ≡ codes "--" }
    ensures { result.now ≡ drop 2 name.now }
{
    match name.strip_prefix("--") {
        Some(long) => long,
        None => name,
    }
}

/// An option with one value. Its id is its name.
fn option<'a>(alloc: Global, name: &'a str) -> Arg<'a>
    requires { take 2 name.now ≡ codes "--" }
    ensures rule { rule_of result ≡ spec.option_rule name.entry.now }
    ensures local { result.global ≡ false }
{
    Arg::new(alloc, name)
        .long(long_name(name))
        .action(ArgAction::Set)
}

/// The command with one option more.
fn with_option<'a>(
    alloc: Global,
    command: Command<'a>,
    name: &'a str,
) -> Result<Command<'a>, OutOfMemory>
    requires { take 2 name.now ≡ codes "--" }
    ensures { IfOk result (λ made. app_of made
        ≡ spec.with_option (app_of command.entry) name.entry.now) }
{
    command.arg(option(alloc, name))
}

/// The command with options of these names more.
fn with_options<'a>(
    alloc: Global,
    command: Command<'a>,
    names: &[&'a str],
) -> Result<Command<'a>, OutOfMemory>
    requires { AreOptionNames (map (λ name. name.now) names.now) }
    ensures { IfOk result (λ made. app_of made
        ≡ fold spec.with_option (app_of command.entry) (map (λ name. name.now) names.now)) }
{
    match names {
        [] => Ok(command),
        [name, rest @ ..] => with_options(alloc, with_option(alloc, command, *name)?, rest),
    }
}

/// A command with no option yet: no name of the program stands among the words, and nothing asks
/// for help.
fn bare_command<'a>(alloc: Global) -> Command<'a>
    ensures { app_of result ≡ spec.bare_command }
{
    Command::new(alloc, "cse")
        .no_binary_name(true)
        .disable_help_flag(true)
        .disable_help_subcommand(true)
}

/// The options that words are, where each has one of these names and none stands twice.
pub(crate) fn options_of<'a>(
    alloc: Global,
    names: &[&'a str],
    words: &'a [&'a str],
) -> Result<ArgMatches<'a>, LineFault<'a>>
    requires { AreOptionNames (map (λ name. name.now) names.now) }
    ensures { FindsOptions (options_in (map (λ name. name.now) names.now)
        (map (λ word. word.now) words.now)) result }
{
    if has_stray(words) {
        return Err(LineFault::Words(option_fault(names, words)));
    }
    match with_options(alloc, bare_command(alloc), names)?.try_get_matches_from(words) {
        Ok(matches) => Ok(matches),
        Err(error) => match error.kind() {
            ErrorKind::OutOfMemory => Err(LineFault::OutOfMemory),
            _ => Err(LineFault::Words(option_fault(names, words))),
        },
    }
}

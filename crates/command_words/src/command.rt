//! Commands, and what their options say.
ghost use Rattle.std.specs.Prelude.{◌≡◌, List, option_map};
ghost use Rattle.std.specs.Result.{result_ok};
ghost use Rattle.clap.specs.Words.{found_of, rows_of};
ghost use Rattle.command_words.specs.Options.{Choice};
ghost use Rattle.command_words.specs.Options as choices;
ghost use Rattle.command_words.specs.Program.{rows_by};
ghost use Rattle.command_words.specs.Command as spec;
ghost use Rattle.command_words.specs.Reading.{Reads, bind_by, home_by, logged_by, serving_by};

use crate::faults::{LineFault, Wanted, WordFault};
use crate::home::HomeWords;
use crate::names;
use clap::ArgMatches;
use m2m_names::read_digits;
use resource_model::{ADMIN, BASE, CSE_ID, CSE_TYPE, Home, LAST_CSE_TYPE, SERVICE_PROVIDER};
use std::alloc::Global;

/// What a server writes into its log.
#[derive(Clone, Copy, Debug, PartialEq, Eq)]
pub enum Logged {
    /// A line for each request, and one for each fault.
    Requests,
    /// A line for each fault, and one of figures, once a minute at most.
    Figures,
    /// A line for each fault of a connection.
    Faults,
    Nothing,
}

/// The protocol that a server speaks on its connections.
#[derive(Clone, Copy, Debug, PartialEq, Eq)]
pub enum Bind {
    Http,
    /// WebSocket.
    Ws,
}

/// Where a server listens, how many connections it accepts, where that is limited, how many it
/// serves at a time, what it logs, the protocol that it speaks on each, and whether requests that
/// ask for it are answered later.
#[derive(Clone, Copy, Debug)]
pub struct Serving<'a> {
    pub listen: &'a str,
    pub accept: Option<u64>,
    pub workers: u64,
    pub log: Logged,
    pub bind: Bind,
    pub later: bool,
}

/// What is to be done.
#[derive(Clone, Copy, Debug)]
pub enum Task<'a> {
    /// To serve standard input and output as one connection. What it says is whether requests that
    /// ask for it are answered later.
    Http(bool),
    /// To answer the lines of standard input.
    Replay,
    /// To compare two entities, each of which lines of standard input prepare.
    Twin,
    /// To serve many connections.
    Serve(Serving<'a>),
    /// To make so many requests, and to count what they are answered.
    Generate(u64),
}

/// A task, and the home of the entity that it is for.
#[derive(Debug, Drop)]
pub struct Command<'a> {
    pub task: Task<'a>,
    pub home: Home,
}

/// The address at which a server listens that is told none.
const USUAL_ADDRESS: &str = "127.0.0.1:8080";

/// As many connections as a server can be told to accept.
const MOST_ACCEPTED: u64 = 1_000_000_000;

/// So many connections are served at a time where a server is told nothing.
const USUAL_WORKERS: u64 = 256;

/// As many workers as a server can be told to have.
const MOST_WORKERS: u64 = 4_096;

/// What the option of this name says.
pub(crate) fn option_value<'a>(name: &str, options: &ArgMatches<'a>) -> Option<&'a str>
    ensures { (os : List Choice) → rows_of (found_of options.now) ≡ rows_by os
        → option_map (λ value. value.now) result ≡ choices.option_value name.now os }
{
    options.get_str(name)
}

/// The count that a text says, which is at least 1 and at most this one.
fn count_in(text: &str, most: u64) -> Option<u64>
    ensures { result ≡ spec.count_in text.now most }
{
    let count = read_digits(text.as_bytes())?;
    if 1 <= count && count <= most {
        Some(count)
    } else {
        None
    }
}

/// The count that the value of an option says.
pub(crate) fn count_said<'a>(
    option: &'a str,
    value: &'a str,
    most: u64,
) -> Result<u64, WordFault<'a>>
    ensures { result_ok result ≡ spec.count_in value.now most }
{
    match count_in(value, most) {
        Some(count) => Ok(count),
        None => Err(WordFault::Value {
            option,
            value,
            wanted: Wanted::Count(most),
        }),
    }
}

// ---- the home

fn cse_type_said(said: Option<&str>) -> Result<i64, WordFault<'_>>
    ensures { result_ok result ≡ spec.cse_type_said (option_map (λ text. text.now) said.entry) }
{
    match said {
        Some(text) => Ok(count_said(names::TYPE, text, LAST_CSE_TYPE)? as i64),
        None => Ok(CSE_TYPE),
    }
}

/// What options say of a home of this type.
fn home_words<'a>(cst: i64, options: &ArgMatches<'a>) -> HomeWords<'a>
    ensures { (os : List Choice) → rows_of (found_of options.now) ≡ rows_by os
        → home_by result ≡ spec.home_of_type cst os }
{
    HomeWords {
        sp: option_value(names::SP, options).unwrap_or(SERVICE_PROVIDER),
        csi: option_value(names::ID, options).unwrap_or(CSE_ID),
        base: option_value(names::BASE, options).unwrap_or(BASE),
        cst,
        admin: option_value(names::ADMIN, options).unwrap_or(ADMIN),
    }
}

/// The home that options say.
pub(crate) fn home_said<'a>(alloc: Global, options: &ArgMatches<'a>) -> Result<Home, LineFault<'a>>
    ensures { (os : List Choice) → rows_of (found_of options.now) ≡ rows_by os
        → Reads (λ home. home) (spec.home_said os) result }
{
    let cst = cse_type_said(option_value(names::TYPE, options))?;
    home_words(cst, options).home(alloc)
}

// ---- a server

fn accept_said(said: Option<&str>) -> Result<Option<u64>, WordFault<'_>>
    ensures { result_ok result ≡ spec.accept_said (option_map (λ text. text.now) said.entry) }
{
    match said {
        Some(text) => Ok(Some(count_said(names::ACCEPT, text, MOST_ACCEPTED)?)),
        None => Ok(None),
    }
}

fn workers_said(said: Option<&str>) -> Result<u64, WordFault<'_>>
    ensures { result_ok result ≡ spec.workers_said (option_map (λ text. text.now) said.entry) }
{
    match said {
        Some(text) => count_said(names::WORKERS, text, MOST_WORKERS),
        None => Ok(USUAL_WORKERS),
    }
}

/// What a text says that is to be logged.
fn logged_in(text: &str) -> Result<Logged, WordFault<'_>>
    ensures { option_map logged_by (result_ok result) ≡ spec.logged_in text.now }
{
    if text == names::REQUESTS {
        Ok(Logged::Requests)
    } else if text == names::FIGURES {
        Ok(Logged::Figures)
    } else if text == names::FAULTS {
        Ok(Logged::Faults)
    } else if text == names::NOTHING {
        Ok(Logged::Nothing)
    } else {
        Err(WordFault::Value {
            option: names::LOG,
            value: text,
            wanted: Wanted::Logged,
        })
    }
}

fn log_said(said: Option<&str>) -> Result<Logged, WordFault<'_>>
    ensures { option_map logged_by (result_ok result)
        ≡ spec.log_said (option_map (λ text. text.now) said.entry) }
{
    match said {
        Some(text) => logged_in(text),
        None => Ok(Logged::Faults),
    }
}

/// The protocol that a text says.
fn bind_in(text: &str) -> Result<Bind, WordFault<'_>>
    ensures { option_map bind_by (result_ok result) ≡ spec.bind_in text.now }
{
    if text == names::HTTP {
        Ok(Bind::Http)
    } else if text == names::WS {
        Ok(Bind::Ws)
    } else {
        Err(WordFault::Value {
            option: names::BIND,
            value: text,
            wanted: Wanted::Bind,
        })
    }
}

fn bind_said(said: Option<&str>) -> Result<Bind, WordFault<'_>>
    ensures { option_map bind_by (result_ok result)
        ≡ spec.bind_said (option_map (λ text. text.now) said.entry) }
{
    match said {
        Some(text) => bind_in(text),
        None => Ok(Bind::Http),
    }
}

/// Whether a text says that requests are answered later.
fn later_in(text: &str) -> Result<bool, WordFault<'_>>
    ensures { result_ok result ≡ spec.is_yes text.now }
{
    if text == names::YES {
        Ok(true)
    } else if text == names::NO {
        Ok(false)
    } else {
        Err(WordFault::Value {
            option: names::LATER,
            value: text,
            wanted: Wanted::YesOrNo,
        })
    }
}

pub(crate) fn later_said(said: Option<&str>) -> Result<bool, WordFault<'_>>
    ensures { result_ok result ≡ spec.later_said (option_map (λ text. text.now) said.entry) }
{
    match said {
        Some(text) => later_in(text),
        None => Ok(false),
    }
}

/// The server that options say.
pub(crate) fn serving_said<'a>(options: &ArgMatches<'a>) -> Result<Serving<'a>, WordFault<'a>>
    ensures { (os : List Choice) → rows_of (found_of options.now) ≡ rows_by os
        → option_map serving_by (result_ok result) ≡ spec.serving_said os }
{
    let accept = accept_said(option_value(names::ACCEPT, options))?;
    let workers = workers_said(option_value(names::WORKERS, options))?;
    let log = log_said(option_value(names::LOG, options))?;
    let bind = bind_said(option_value(names::BIND, options))?;
    let later = later_said(option_value(names::LATER, options))?;
    Ok(Serving {
        listen: option_value(names::LISTEN, options).unwrap_or(USUAL_ADDRESS),
        accept,
        workers,
        log,
        bind,
        later,
    })
}

// ---- a journal

/// The file of a journal that an option names, if one does.
pub(crate) fn file_said(said: Option<&str>) -> Result<Option<&str>, WordFault<'_>>
    ensures { option_map (λ file. option_map (λ text. text.now) file) (result_ok result)
        ≡ spec.file_said (option_map (λ text. text.now) said.entry) }
{
    match said {
        Some("") => Err(WordFault::Value {
            option: names::JOURNAL,
            value: "",
            wanted: Wanted::File,
        }),
        other => Ok(other),
    }
}

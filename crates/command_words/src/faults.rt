//! Why words ask for nothing.
use std::alloc::AllocError as OutOfMemory;
use std::fmt;

/// What the value of an option has to be.
#[derive(Clone, Copy, Debug, PartialEq, Eq)]
pub enum Wanted {
    /// A number from 1 to this one.
    Count(u64),
    /// What a server can log.
    Logged,
    /// A protocol that a server can speak.
    Bind,
    /// Whether something is done.
    YesOrNo,
    /// The name of a file.
    File,
    /// A name of 1 to 64 characters.
    Name,
    /// Such a name that is in the form of no id.
    BaseName,
    /// An originator.
    Originator,
}

impl fmt::Display for Wanted {
    fn fmt<W: fmt::Write>(&self, f: &mut fmt::Formatter<W>) -> fmt::Result {
        match self {
            Wanted::Count(most) => write!(f, "a number from 1 to {most}"),
            Wanted::Logged => f.write_str("requests, figures, faults or nothing"),
            Wanted::Bind => f.write_str("http or ws"),
            Wanted::YesOrNo => f.write_str("yes or no"),
            Wanted::File => f.write_str("the name of a file"),
            Wanted::Name => f.write_str("a name of 1 to 64 letters, digits, -, ., _ and ~"),
            Wanted::BaseName => f.write_str(
                "a name of 1 to 64 letters, digits, -, ., _ and ~ that isn't in the form of an id",
            ),
            Wanted::Originator => {
                f.write_str("1 to 256 printable characters of ASCII without a space")
            }
        }
    }
}

/// Why words are no command line of the program: a word that can't stand there, and what was
/// wanted.
#[derive(Clone, Copy, Debug, PartialEq, Eq)]
pub enum WordFault<'a> {
    /// No word is left where a command was wanted.
    NoWords,
    /// The first word names no command.
    NoCommand(&'a str),
    /// The command takes no option of this name.
    NoOption(&'a str),
    /// The option stands there twice.
    Twice(&'a str),
    /// The option has no value behind it.
    NoValue(&'a str),
    /// The option has a value that isn't as it has to be.
    Value {
        option: &'a str,
        value: &'a str,
        wanted: Wanted,
    },
    /// `gen` has no number behind it.
    NoNumber,
    /// `snapshot` has no name of a file behind it.
    NoFile,
    /// Nothing may stand where this word does.
    TooMany(&'a str),
}

impl fmt::Display for WordFault<'_> {
    fn fmt<W: fmt::Write>(&self, f: &mut fmt::Formatter<W>) -> fmt::Result {
        match self {
            WordFault::NoWords => f.write_str(
                "no command: http, serve, replay, twin, gen, snapshot or help",
            ),
            WordFault::NoCommand(word) => {
                write!(
                    f,
                    "{word}: http, serve, replay, twin, gen, snapshot or help"
                )
            }
            WordFault::NoOption(word) => {
                write!(f, "{word}: an option of this command, as cse help says")
            }
            WordFault::Twice(option) => write!(f, "{option}: this option only once"),
            WordFault::NoValue(option) => write!(f, "{option}: a value behind it"),
            WordFault::Value {
                option,
                value,
                wanted,
            } => write!(f, "{option} {value}: {wanted}"),
            WordFault::NoNumber => f.write_str("gen: a number behind it"),
            WordFault::NoFile => f.write_str("snapshot: the name of a file behind it"),
            WordFault::TooMany(word) => write!(f, "{word}: nothing more"),
        }
    }
}

/// Why nothing is read of words.
#[derive(Clone, Copy, Debug, PartialEq, Eq)]
pub enum LineFault<'a> {
    /// They are no command line of the program.
    Words(WordFault<'a>),
    /// Memory ran out.
    OutOfMemory,
}

impl<'a> From<WordFault<'a>> for LineFault<'a> {
    ghost use Rattle.std.specs.Prelude.{◌≡◌};
    ghost use Rattle.command_words.specs.declared.faults.LineFault.{LineFault};

    ghost from_gives = { λ fault e. e ≡ LineFault.Words fault };

    fn from(fault: WordFault<'a>) -> Self {
        LineFault::Words(fault)
    }
}

impl From<OutOfMemory> for LineFault<'_> {
    ghost use Rattle.std.specs.Prelude.{◌≡◌};
    ghost use Rattle.command_words.specs.declared.faults.LineFault.{LineFault};

    ghost from_gives = { λ _ e. e ≡ LineFault.OutOfMemory };

    fn from(_: OutOfMemory) -> Self {
        LineFault::OutOfMemory
    }
}

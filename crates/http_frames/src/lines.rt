//! The header lines of a message.
ghost use Rattle.std.specs.Prelude.{◌≡◌};
ghost use Rattle.http_frames.specs.Lines.{IsFound, found_as, found_with, found_with_line};
ghost use Rattle.http_frames.specs.Lines.{is_same_name, values_named};

use m2m_value::Text;
use std::marker::Model;

/// Header lines in order: each is a name, and a value without the white space around it.
#[derive(Debug, Drop)]
pub struct Lines {
    lines: Vec<(Text, Text)>,
}

impl Model for Lines {
    ghost use Rattle.std.specs.Prelude.{List, ℕ};

    ghost Value = { List (List ℕ × List ℕ) };

    ghost view = { λ l. l.lines.items };
}

/// What lines have of one name.
#[derive(Clone, Copy, Debug, PartialEq, Eq)]
pub enum Found<T> {
    /// No line has the name.
    Absent,
    /// One line has it, with this value.
    One(T),
    /// Two lines have it, or more.
    Repeated,
}

/// Whether two names of fields are the same, without regard to case (RFC 9110, section 5.1). Most
/// are spelled alike.
pub fn is_same_name(name: &[u8], wanted: &[u8]) -> bool
    ensures { result ≡ is_same_name name.now wanted.now }
{
    name == wanted || name.eq_ignore_ascii_case(wanted)
}

impl<T: Copy> Found<T> {
    /// With one more value behind what was found.
    pub(crate) fn and(self, value: T) -> Found<T>
        ensures { result ≡ found_with self value }
    {
        match self {
            Found::Absent => Found::One(value),
            Found::One(_) | Found::Repeated => Found::Repeated,
        }
    }
}

impl<'a> Found<&'a [u8]> {
    /// With one more line behind what was found of a name.
    pub fn and_line(self, name: &[u8], line: &'a (Text, Text)) -> Found<&'a [u8]>
        ensures { found_as (λ value. value.now) result
            ≡ found_with_line (found_as (λ value. value.now) self.entry) name.now line.now }
    {
        if is_same_name(line.0.entries(), name) {
            self.and(line.1.entries())
        } else {
            self
        }
    }
}

impl Lines {
    /// The lines, each a name and a value; it takes no memory.
    pub fn of(lines: Vec<(Text, Text)>) -> Lines
        ensures { result ≡ lines.items }
    {
        Lines { lines }
    }

    /// The lines, each a name and a value, in order.
    pub fn into_vec(self) -> Vec<(Text, Text)>
        ensures { result.items ≡ self }
    {
        self.lines
    }

    /// The lines, each a name and a value, in order.
    pub fn entries(&self) -> &[(Text, Text)]
        ensures { result.now ≡ self.now }
    {
        &self.lines
    }

    /// What the lines have of this name, which is compared without regard to case (RFC 9110,
    /// section 5.1).
    pub fn find(&self, name: &[u8]) -> Found<&[u8]>
        ensures { IsFound (λ value. value.now) result (values_named name.now self.now) }
    {
        let mut found = Found::Absent;
        for line in &self.lines {
            found = found.and_line(name, line);
        }
        found
    }
}

//! The lines of a table: a word that says what is asked, a text, an arrow, and the answer.
use m2m_value::{OutOfMemory, Val, read, write};
use std::alloc::Global;
use std::process::Abort;

/// The word, the text and the answer of a line.
pub(crate) fn parts<'a>(rt: &impl Abort, line: &'a str) -> (&'a str, &'a str, &'a str) {
    let (question, answer) = line.split_once(" => ").expect(rt, "an arrow");
    let (word, text) = question.split_once(' ').expect(rt, "a word");
    (word, text, answer)
}

/// A word of an answer.
pub(crate) fn word(alloc: Global, word: &str) -> Result<String, OutOfMemory> {
    String::from_str(alloc, word)
}

pub(crate) fn number(alloc: Global, found: Option<u64>) -> Result<String, OutOfMemory> {
    match found {
        Some(number) => format!(in alloc; "{number}"),
        None => word(alloc, "none"),
    }
}

/// The value that a text spells; null where it spells none.
pub(crate) fn parsed(alloc: Global, json: &str) -> Result<Val, OutOfMemory> {
    match read(alloc, json.as_bytes()) {
        Ok(value) => Ok(value),
        Err(_) => Ok(Val::null()),
    }
}

/// The text of a value.
pub(crate) fn spelled(alloc: Global, value: &Val) -> Result<String, OutOfMemory> {
    let mut out = Vec::new(alloc);
    write(value, &mut out)?;
    String::from_utf8_lossy(alloc, out.as_slice())
}

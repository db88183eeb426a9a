//! The lines of a head that is written, one behind another, and its body.
ghost use Rattle.std.specs.Prelude.{◌≡◌, ◌++◌, ◌∷◌, [], IfOk, OnOk};
ghost use Rattle.std.specs.Fmt.{decimal};
ghost use Rattle.http_binding.specs.Headers.{length_field};
ghost use Rattle.http_binding.specs.Replying.{body_of, close_lines};

use crate::OutOfMemory;
use crate::names::{CONNECTION_FIELD, LENGTH_FIELD};
use m2m_value::{Text, Val, write};
use std::alloc::Global;

/// A line of a head, with a name and a value.
pub(crate) type Line = (Text, Text);

/// Room for most contents.
pub(crate) const CONTENT_ROOM: usize = 512;

/// Puts one line behind the others.
pub fn push_field(
    alloc: Global,
    lines: &mut Vec<Line>,
    name: &str,
    value: &[u8],
) -> Result<(), OutOfMemory>
    ensures { OnOk result (lines.new.items ≡ lines.old.items ++ (name.now, value.now) ∷ []) }
{
    let name = Text::from_slice(alloc, name.as_bytes())?;
    lines.push((name, Text::from_slice(alloc, value)?))?;
    Ok(())
}

/// Puts one line with a number behind the others.
pub(crate) fn push_number_field(
    alloc: Global,
    lines: &mut Vec<Line>,
    name: &str,
    n: usize,
) -> Result<(), OutOfMemory>
    ensures { OnOk result (lines.new.items ≡ lines.old.items ++ (name.now, decimal n) ∷ []) }
{
    let digits = format!(in alloc; "{n}")?;
    push_field(alloc, lines, name, digits.as_bytes())
}

/// Puts the line that says how long the body is behind the others.
pub fn push_length(alloc: Global, lines: &mut Vec<Line>, len: usize) -> Result<(), OutOfMemory>
    ensures { OnOk result (lines.new.items ≡ lines.old.items ++ (length_field, decimal len) ∷ []) }
{
    push_number_field(alloc, lines, LENGTH_FIELD, len)
}

/// Puts the line that says that the connection closes behind the others, where it does.
pub fn push_close(alloc: Global, lines: &mut Vec<Line>, close: bool) -> Result<(), OutOfMemory>
    ensures { OnOk result (lines.new.items ≡ lines.old.items ++ close_lines close) }
{
    if close {
        push_field(alloc, lines, CONNECTION_FIELD, b"close")?;
    }
    Ok(())
}

/// The bytes of the body.
pub fn body_of(alloc: Global, content: &Option<Val>) -> Result<Vec<u8>, OutOfMemory>
    ensures { IfOk result (λ bytes. bytes.items ≡ body_of content.now) }
{
    let Some(value) = content else {
        return Ok(Vec::new(alloc));
    };
    let mut bytes = Vec::with_capacity(alloc, CONTENT_ROOM)?;
    write(value, &mut bytes)?;
    Ok(bytes)
}

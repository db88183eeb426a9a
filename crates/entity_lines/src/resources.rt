//! The line of a resource.
ghost use Rattle.std.specs.Prelude.{◌≡◌, ◌≤◌, ◌+◌, ◌++◌, length, IfOk, IfSome, OnOk, OnErr};
ghost use Rattle.std.specs.Prelude.{IsErrOf, false, option_map};
ghost use Rattle.journal_lines.specs.Lines as lines;
ghost use Rattle.entity_lines.specs.Resources as spec;
ghost use Rattle.entity_lines.specs.Resources.{SpellsResource};

use journal_lines::{LineFault, is_within, line_len, push_value};
use m2m_value::{OutOfMemory, Scratch, Val, ValFault, read_in};
use resource_lines::{resource_in, resource_value};
use resource_model::Resource;
use std::alloc::Global;

/// The depth to which a text is read.
const READING_DEPTH: u64 = 127;

/// Appends the line of a resource, or leaves the text as it was. A resource is unkept whose value
/// is too deep to be read back.
pub fn push_resource(
    alloc: Global,
    text: &mut Vec<u8>,
    resource: &Resource,
) -> Result<(), LineFault>
    ensures written { OnOk result
        (text.new.items ≡ text.old.items ++ spec.resource_line resource.now) }
    ensures spells { OnOk result (SpellsResource resource.now (spec.resource_line resource.now)) }
    ensures err { OnErr result (text.new.items ≡ text.old.items) }
    ensures unkept { IsErrOf result LineFault.Unkept → spec.is_readable resource.now ≡ false }
{
    let value = resource_value(alloc, resource)?;
    if !is_within(&value, READING_DEPTH) {
        return Err(LineFault::Unkept);
    }
    let mut line = Vec::new(alloc);
    push_value(&mut line, &value)?;
    text.extend_from_slice(&line)?;
    Ok(())
}

fn resource_spelled(
    alloc: Global,
    scratch: &mut Scratch,
    line: &[u8],
) -> Result<Option<Resource>, OutOfMemory>
    ensures { IfOk result (λ r. r ≡ spec.resource_spelled line.now) }
{
    match read_in(alloc, scratch, line) {
        Ok(value) => resource_in(alloc, &value),
        Err(ValFault::OutOfMemory) => Err(OutOfMemory),
        Err(_) => Ok(None),
    }
}

/// The resource whose line is the first of a text, if it is one, and how many bytes the line has.
pub fn first_resource(
    alloc: Global,
    scratch: &mut Scratch,
    text: &[u8],
) -> Result<Option<(Resource, usize)>, OutOfMemory>
    ensures resource { IfOk result
        (λ found. option_map (λ f. f.0) found ≡ spec.first_resource text.now) }
    ensures len { IfOk result (λ found. IfSome found (λ f. f.1 ≡ lines.line_len text.now + 1)) }
    ensures within { IfOk result (λ found. IfSome found (λ f. f.1 ≤ length text.now)) }
{
    let end = line_len(text);
    if end >= text.len() {
        return Ok(None);
    }
    match resource_spelled(alloc, scratch, &text[..end])? {
        Some(resource) => Ok(Some((resource, end + 1))),
        None => Ok(None),
    }
}

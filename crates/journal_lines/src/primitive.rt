//! The text of a request that can be kept.
ghost use Rattle.std.specs.Prelude.{◌≡◌, ◌++◌, IfSome, IsUtf8, OnErr, OnOk, Some, option_map};
ghost use Rattle.std.specs.Prelude.{true};
ghost use Rattle.m2m_value.specs.Data as plain;
ghost use Rattle.m2m_value.specs.Sound.{BeginsWith, IsSound};
ghost use Rattle.m2m_value.specs.Spelling.{text_of};
ghost use Rattle.primitive_json.specs.Requests.{IsSoundRequest, IsSoundWhen};
ghost use Rattle.primitive_json.specs.Writing.{expiry_data, written_request};
ghost use Rattle.journal_lines.specs.Keeping as keeping;
ghost use Rattle.journal_lines.specs.Primitive as spec;

use filter_criteria::text_value;
use m2m_names::Op;
use m2m_value::{Text, Val, write};
use primitive_json::{Request, RequestParts, When, expiry_text};
use std::alloc::{AllocError as OutOfMemory, Global};

/// A value behind its head, and a comma behind it.
fn push_member(text: &mut Vec<u8>, head: &[u8], value: &Val) -> Result<(), OutOfMemory>
    ensures written { OnOk result
        (text.new.items ≡ text.old.items ++ spec.behind head.now (Some value.now)) }
    ensures sound { OnOk result (IsSound value.now) }
    ensures err { OnErr result (BeginsWith text.old.items text.new.items) }
{
    text.extend_from_slice(head)?;
    write(value, text)?;
    text.push(b',')?;
    Ok(())
}

fn push_number_member(
    text: &mut Vec<u8>,
    head: &[u8],
    number: Option<i64>,
) -> Result<(), OutOfMemory>
    ensures written { OnOk result (text.new.items
        ≡ text.old.items ++ spec.behind head.now (option_map plain.number number)) }
    ensures sound { OnOk result (IfSome (option_map plain.number number) IsSound) }
    ensures err { OnErr result (BeginsWith text.old.items text.new.items) }
{
    if let Some(n) = number {
        push_member(text, head, &Val::of_num(n))?;
    }
    Ok(())
}

fn push_text_member(
    alloc: Global,
    text: &mut Vec<u8>,
    head: &[u8],
    member: &Text,
) -> Result<(), OutOfMemory>
    requires { IsUtf8 member.now }
    ensures written { OnOk result (text.new.items
        ≡ text.old.items ++ spec.behind head.now (Some (plain.text member.now))) }
    ensures err { OnErr result (BeginsWith text.old.items text.new.items) }
{
    let value = text_value(alloc, member)?;
    push_member(text, head, &value)?;
    Ok(())
}

fn push_originator(
    alloc: Global,
    text: &mut Vec<u8>,
    head: &[u8],
    originator: &Option<Text>,
) -> Result<(), OutOfMemory>
    requires { IfSome originator.now IsUtf8 }
    ensures written { OnOk result (text.new.items
        ≡ text.old.items ++ spec.behind head.now (option_map plain.text originator.now)) }
    ensures err { OnErr result (BeginsWith text.old.items text.new.items) }
{
    if let Some(fr) = originator {
        push_text_member(alloc, text, head, fr)?;
    }
    Ok(())
}

fn push_operation(text: &mut Vec<u8>, head: &[u8], op: Op) -> Result<(), OutOfMemory>
    ensures written { OnOk result (text.new.items
        ≡ text.old.items ++ spec.behind head.now (Some (spec.operation_data op))) }
    ensures sound { OnOk result (IsSound (spec.operation_data op)) }
    ensures err { OnErr result (BeginsWith text.old.items text.new.items) }
{
    push_member(text, head, &Val::of_num(op.number()))?;
    Ok(())
}

/// The content, of which nothing is copied.
fn push_content(text: &mut Vec<u8>, head: &[u8], content: &Option<Val>) -> Result<(), OutOfMemory>
    ensures written { OnOk result
        (text.new.items ≡ text.old.items ++ spec.behind head.now content.now) }
    ensures sound { OnOk result (IfSome content.now IsSound) }
    ensures err { OnErr result (BeginsWith text.old.items text.new.items) }
{
    if let Some(value) = content {
        push_member(text, head, value)?;
    }
    Ok(())
}

fn push_expiry(
    alloc: Global,
    text: &mut Vec<u8>,
    head: &[u8],
    when: Option<When>,
) -> Result<(), OutOfMemory>
    requires { IfSome when IsSoundWhen }
    ensures written { OnOk result (text.new.items
        ≡ text.old.items ++ spec.behind head.now (option_map expiry_data when)) }
    ensures sound { OnOk result (IfSome (option_map expiry_data when) IsSound) }
    ensures err { OnErr result (BeginsWith text.old.items text.new.items) }
{
    if let Some(when) = when {
        let value = Val::of_text(expiry_text(alloc, when)?);
        push_member(text, head, &value)?;
    }
    Ok(())
}

/// The members up to the content.
fn push_front(alloc: Global, text: &mut Vec<u8>, request: &RequestParts) -> Result<(), OutOfMemory>
    requires { IsSoundRequest request.now }
    ensures written { OnOk result (text.new.items
        ≡ text.old.items ++ spec.with_commas (spec.front_rows request.now)) }
    ensures sound { OnOk result (spec.AreSoundRows (spec.front_rows request.now)) }
    ensures err { OnErr result (BeginsWith text.old.items text.new.items) }
{
    push_number_member(text, b"\"drt\":", request.drt)?;
    push_originator(alloc, text, b"\"fr\":", &request.fr)?;
    push_operation(text, b"\"op\":", request.op)?;
    push_content(text, b"\"pc\":", &request.pc)?;
    Ok(())
}

/// Those behind it, up to the target.
fn push_back(alloc: Global, text: &mut Vec<u8>, request: &RequestParts) -> Result<(), OutOfMemory>
    requires { IsSoundRequest request.now }
    ensures written { OnOk result (text.new.items
        ≡ text.old.items ++ spec.with_commas (spec.back_rows request.now)) }
    ensures sound { OnOk result (spec.AreSoundRows (spec.back_rows request.now)) }
    ensures err { OnErr result (BeginsWith text.old.items text.new.items) }
{
    push_number_member(text, b"\"rcn\":", request.rcn)?;
    push_expiry(alloc, text, b"\"rqet\":", request.rqet)?;
    push_text_member(alloc, text, b"\"rqi\":", &request.rqi)?;
    push_number_member(text, b"\"rt\":", request.rt)?;
    Ok(())
}

fn push_target(alloc: Global, text: &mut Vec<u8>, to: &Text) -> Result<(), OutOfMemory>
    requires { IsUtf8 to.now }
    ensures written { OnOk result (text.new.items ≡ text.old.items ++ spec.target_text to.now) }
    ensures err { OnErr result (BeginsWith text.old.items text.new.items) }
{
    let value = text_value(alloc, to)?;
    text.extend_from_slice(b"\"to\":")?;
    write(&value, text)
}

fn push_type(text: &mut Vec<u8>, request: &RequestParts) -> Result<(), OutOfMemory>
    ensures written { OnOk result
        (text.new.items ≡ text.old.items ++ spec.type_text (spec.type_data request.now)) }
    ensures sound { OnOk result (IfSome (spec.type_data request.now) IsSound) }
    ensures err { OnErr result (BeginsWith text.old.items text.new.items) }
{
    if let Some(number) = request.ty {
        text.extend_from_slice(b",\"ty\":")?;
        write(&Val::of_num(i64::from(number)), text)?;
    }
    Ok(())
}

/// Appends the text of a request whose parameters are of their kinds. Its texts are copied, and its
/// content isn't.
pub(crate) fn push_primitive(
    alloc: Global,
    text: &mut Vec<u8>,
    request: &Request,
) -> Result<(), OutOfMemory>
    requires { keeping.is_of_kinds request.now ≡ true }
    ensures written { OnOk result
        (text.new.items ≡ text.old.items ++ text_of (written_request request.now)) }
    ensures sound { OnOk result (IsSound (written_request request.now)) }
    ensures err { OnErr result (BeginsWith text.old.items text.new.items) }
{
    let parts = request.parts();
    text.push(b'{')?;
    push_front(alloc, text, parts)?;
    push_back(alloc, text, parts)?;
    push_target(alloc, text, &parts.to)?;
    push_type(text, parts)?;
    text.push(b'}')?;
    Ok(())
}

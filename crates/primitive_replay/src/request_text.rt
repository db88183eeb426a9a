//! The text of a request that is let go.
ghost use Rattle.std.specs.Prelude.{◌≡◌, ◌++◌, IfOk, IfSome, IsUtf8, OnOk, option_map};
ghost use Rattle.m2m_names.specs.declared.operations.Op.TheVariants.{Notify};
ghost use Rattle.m2m_value.specs.Spelling.{text_of};
ghost use Rattle.primitive_json.specs.Requests.{IsSoundRequest, IsSoundWhen};
ghost use Rattle.primitive_json.specs.Writing.{expiry_data, written_request};
ghost use Rattle.primitive_replay.specs.Requests as spec;

use m2m_names::Op;
use m2m_value::{Text, Val, write};
use primitive_json::{Request, RequestParts, When, expiry_text, write_request};
use std::alloc::{AllocError as OutOfMemory, Global};

// A value behind its head, where it is there, and a comma behind it.
fn push_member(text: &mut Vec<u8>, head: &[u8], value: Option<Val>) -> Result<(), OutOfMemory>
    ensures { OnOk result (text.new.items ≡ text.old.items ++ spec.behind head.now value) }
{
    let Some(value) = value else {
        return Ok(());
    };
    text.extend_from_slice(head)?;
    write(&value, text)?;
    text.push(b',')?;
    Ok(())
}

fn expiry_value(alloc: Global, when: Option<When>) -> Result<Option<Val>, OutOfMemory>
    requires { IfSome when IsSoundWhen }
    ensures { IfOk result (λ v. v ≡ option_map expiry_data when) }
{
    match when {
        Some(when) => Ok(Some(Val::of_text(expiry_text(alloc, when)?))),
        None => Ok(None),
    }
}

// The members up to the content.
fn push_front(
    text: &mut Vec<u8>,
    drt: Option<i64>,
    fr: Option<Text>,
    op: Op,
    pc: Option<Val>,
) -> Result<(), OutOfMemory>
    requires { IfSome fr IsUtf8 }
    ensures { OnOk result (text.new.items
        ≡ text.old.items ++ spec.with_commas (spec.front_rows drt fr op pc)) }
{
    push_member(text, b"\"drt\":", drt.map(Val::of_num))?;
    push_member(text, b"\"fr\":", fr.map(Val::of_text))?;
    push_member(text, b"\"op\":", Some(Val::of_num(op.number())))?;
    push_member(text, b"\"pc\":", pc)
}

// Those behind it, up to the target.
fn push_back(
    text: &mut Vec<u8>,
    rcn: Option<i64>,
    rqet: Option<Val>,
    rqi: Text,
    rt: Option<i64>,
) -> Result<(), OutOfMemory>
    requires { IsUtf8 rqi }
    ensures { OnOk result (text.new.items
        ≡ text.old.items ++ spec.with_commas (spec.back_rows rcn rqet rqi rt)) }
{
    push_member(text, b"\"rcn\":", rcn.map(Val::of_num))?;
    push_member(text, b"\"rqet\":", rqet)?;
    push_member(text, b"\"rqi\":", Some(Val::of_text(rqi)))?;
    push_member(text, b"\"rt\":", rt.map(Val::of_num))
}

// A text behind its head.
fn push_target(text: &mut Vec<u8>, to: Text) -> Result<(), OutOfMemory>
    requires { IsUtf8 to }
    ensures { OnOk result (text.new.items ≡ text.old.items ++ spec.target_text to) }
{
    text.extend_from_slice(b"\"to\":")?;
    write(&Val::of_text(to), text)
}

// A Notify, whose parts are moved.
fn push_notify(alloc: Global, text: &mut Vec<u8>, parts: RequestParts) -> Result<(), OutOfMemory>
    requires notify { parts.op ≡ Notify }
    requires sound { IsSoundRequest parts }
    ensures { OnOk result (text.new.items ≡ text.old.items ++ text_of (written_request parts)) }
{
    let rqet = expiry_value(alloc, parts.rqet)?;
    text.push(b'{')?;
    push_front(text, parts.drt, parts.fr, parts.op, parts.pc)?;
    push_back(text, parts.rcn, rqet, parts.rqi, parts.rt)?;
    push_target(text, parts.to)?;
    text.push(b'}')?;
    Ok(())
}

fn push_written(alloc: Global, text: &mut Vec<u8>, request: Request) -> Result<(), OutOfMemory>
    ensures { OnOk result (text.new.items ≡ text.old.items ++ text_of (written_request request)) }
{
    let value = write_request(alloc, &request)?;
    write(&value, text)
}

/// Appends the compact text of a request. Of a Notify nothing is copied first.
pub fn push_request(alloc: Global, text: &mut Vec<u8>, request: Request) -> Result<(), OutOfMemory>
    ensures { OnOk result (text.new.items ≡ text.old.items ++ text_of (written_request request)) }
{
    let parts = request.into_parts();
    match parts.op {
        Op::Notify => push_notify(alloc, text, parts),
        _ => push_written(alloc, text, Request::of(parts)),
    }
}

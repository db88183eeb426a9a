//! Why a request is refused.
ghost use Rattle.std.specs.Prelude.{◌≡◌, IfOk, OnOk, map};
ghost use Rattle.std.specs.Option.{option_copied};
ghost use Rattle.refusal_reasons.specs.Causes as spec;
ghost use Rattle.refusal_reasons.specs.Texts as texts;

use crate::OutOfMemory;
use crate::cause::Cause;
use crate::content::content_fault;
use crate::facts::Facts;
use crate::phrase::reason_of_content;
use attribute_rules::AttrFault;
use m2m_names::Rsc;
use primitive_json::Request;
use resource_model::Home;
use std::alloc::Global;

/// Those of these causes that the status and what the request says leave.
fn left_among(
    alloc: Global,
    facts: &Facts,
    code: Rsc,
    causes: &[Cause],
) -> Result<Vec<Cause>, OutOfMemory>
    ensures { IfOk result (λ left. left.items ≡ spec.left_among facts.now code causes.now) }
{
    let mut left = Vec::new(alloc);
    for cause in causes {
        if facts.leave(code, *cause) {
            left.push(*cause)?;
        }
    }
    Ok(left)
}

/// The causes for which a request may be refused with a status. They are told by the home, the
/// request and the status alone.
pub fn causes(
    alloc: Global,
    home: &Home,
    request: &Request,
    code: Rsc,
) -> Result<Vec<Cause>, OutOfMemory>
    ensures { IfOk result (λ left. left.items ≡ spec.causes home.now request.now code) }
{
    let facts = Facts::of(alloc, home, request)?;
    left_among(alloc, &facts, code, &Cause::ALL)
}

/// Puts a text behind others.
fn push_other(text: &mut Vec<u8>, other: &[u8]) -> Result<(), OutOfMemory>
    ensures { OnOk result (text.new.items ≡ texts.with_other text.old.items other.now) }
{
    if !text.is_empty() {
        text.extend_from_slice(b", or ")?;
    }
    text.extend_from_slice(other)?;
    Ok(())
}

/// Puts what is told of a cause behind others, the content having this first fault.
fn push_told(
    alloc: Global,
    text: &mut Vec<u8>,
    fault: Option<&AttrFault>,
    cause: Cause,
) -> Result<(), OutOfMemory>
    ensures { OnOk result (text.new.items
        ≡ texts.with_other text.old.items (texts.told_of (option_copied fault.entry) cause)) }
{
    match (cause, fault) {
        (Cause::Content, Some(fault)) => {
            let reason = reason_of_content(alloc, fault)?;
            push_other(text, &reason)
        }
        _ => push_other(text, cause.words().as_bytes()),
    }
}

/// What is told of these causes.
fn told_of(
    alloc: Global,
    fault: Option<&AttrFault>,
    causes: &[Cause],
) -> Result<Vec<u8>, OutOfMemory>
    ensures { IfOk result (λ text. text.items
        ≡ texts.alternatives (map (texts.told_of (option_copied fault.entry)) causes.now)) }
{
    let mut text = Vec::new(alloc);
    for cause in causes {
        push_told(alloc, &mut text, fault, *cause)?;
    }
    Ok(text)
}

/// What is told of a request that is refused with a status; nothing where its causes aren't known.
pub fn reason_of(
    alloc: Global,
    home: &Home,
    request: Request,
    code: Rsc,
) -> Result<Vec<u8>, OutOfMemory>
    ensures { IfOk result (λ text. text.items ≡ texts.reason_of home.now request code) }
{
    let causes = causes(alloc, home, &request, code)?;
    let fault = content_fault(alloc, request)?;
    told_of(alloc, fault.as_ref(), &causes)
}

//! Which requests can be kept.
ghost use Rattle.std.specs.Prelude.{◌≡◌, nat_le, true};
ghost use Rattle.std.specs.Option.{option_map_or};
ghost use Rattle.m2m_names.specs.Name as names;
ghost use Rattle.m2m_value.specs.Data.{depth};
ghost use Rattle.primitive_json.specs.Form as form;
ghost use Rattle.journal_lines.specs.Keeping as spec;

use crate::shallow::is_within;
use m2m_names::{is_filled, is_originator};
use m2m_value::Val;
use primitive_json::{
    Request, RequestParts, TARGET_LIMIT, When, creates, has_content, has_form, has_result,
    is_moment,
};

/// The most digits of a number of milliseconds.
const SHORT_BOUND: u64 = 1_000_000_000_000_000_000;

/// The depth to which a text is read.
const READING_DEPTH: u64 = 127;

fn has_no_more(request: &RequestParts) -> bool
    ensures { result ≡ form.has_no_more request.now }
{
    (creates(request.op) || request.ty.is_none())
        && (has_content(request.op) || request.pc.is_none())
        && (has_result(request.op) || request.rcn.is_none())
}

fn is_short_when(when: When) -> bool
    ensures { result ≡ spec.is_short_when when }
{
    match when {
        When::At(at) => is_moment(at),
        When::Millis(n) => n < SHORT_BOUND,
    }
}

fn has_short_expiry(request: &RequestParts) -> bool
    ensures { result ≡ option_map_or spec.is_short_when request.now.rqet true }
{
    match request.rqet {
        Some(when) => is_short_when(when),
        None => true,
    }
}

fn has_graphic_originator(request: &RequestParts) -> bool
    ensures { result ≡ option_map_or names.is_originator request.now.fr true }
{
    match &request.fr {
        Some(fr) => is_originator(fr.entries()),
        None => true,
    }
}

fn is_of_kinds(request: &Request) -> bool
    ensures { result ≡ spec.is_of_kinds request.now }
{
    let parts = request.parts();
    has_form(request)
        && has_no_more(parts)
        && is_filled(parts.to.entries(), TARGET_LIMIT)
        && has_graphic_originator(parts)
        && has_short_expiry(parts)
        && parts.fc.is_none()
}

/// Whether the content is so shallow that a text is read as deep as what is written of the request.
fn is_shallow_content(content: &Option<Val>) -> bool
    ensures { result ≡ option_map_or (λ d. nat_le (depth d) 126) content.now true }
{
    match content {
        Some(value) => is_within(value, READING_DEPTH - 1),
        None => true,
    }
}

/// Whether the request can be kept.
#[tactic(auto, using(crate::proofs::PrimitiveLemmas::kept_by))]
pub fn can_be_kept(request: &Request) -> bool
    ensures { result ≡ spec.can_be_kept request.now }
{
    is_of_kinds(request) && is_shallow_content(&request.parts().pc)
}

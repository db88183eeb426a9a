//! A look for a head at the front of some bytes.
ghost use Rattle.std.specs.Prelude.{length};
ghost use Rattle.http_frames.specs.Spans.{IfWhole, OnNotYet, OnNever, IsHeadAt, HasNoHead};
ghost use Rattle.http_frames.specs.Spans.{HeadExceeds};
ghost use Rattle.http_frames.specs.Waiting.{MayBecomeHead};

use crate::Side;
use httparse::Status;
use httparse::spans::{HeaderSpan, Span, parse_request, parse_response};

/// Where the parts of a start line are.
#[derive(Clone, Copy)]
pub(crate) enum StartSpans {
    Ask {
        method: Span,
        target: Span,
        minor: u8,
    },
    Answer {
        status: u16,
        minor: u8,
    },
}

/// Where the parts of a head are.
#[derive(Clone, Copy)]
pub(crate) struct HeadSpans {
    pub(crate) start: StartSpans,
    /// How many lines it has.
    pub(crate) lines: usize,
    pub(crate) len: usize,
}

/// What stands at the front of the bytes.
#[derive(Clone, Copy)]
pub(crate) enum HeadLook {
    Whole(HeadSpans),
    /// No whole head so far.
    NotYet,
    /// No head with lines for which there is room, whatever follows.
    Never,
}

#[tactic(auto, using(crate::proofs::HeadLemmas::request_cases))]
fn look_for_request(bytes: &[u8], headers: &mut [HeaderSpan]) -> HeadLook
    ensures whole { IfWhole result (IsHeadAt Side.Request bytes.now headers.new) }
    ensures not_yet { OnNotYet result (HasNoHead Side.Request bytes.now) }
    ensures may { OnNotYet result (MayBecomeHead Side.Request bytes.now) }
    ensures never { OnNever result (HeadExceeds Side.Request (length headers.old) bytes.now) }
{
    match parse_request(bytes, headers) {
        Ok(Status::Complete(head)) => HeadLook::Whole(HeadSpans {
            start: StartSpans::Ask {
                method: head.method,
                target: head.path,
                minor: head.version,
            },
            lines: head.headers,
            len: head.len,
        }),
        Ok(Status::Partial) => HeadLook::NotYet,
        Err(_) => HeadLook::Never,
    }
}

#[tactic(auto, using(crate::proofs::HeadLemmas::reply_cases))]
fn look_for_reply(bytes: &[u8], headers: &mut [HeaderSpan]) -> HeadLook
    ensures whole { IfWhole result (IsHeadAt Side.Reply bytes.now headers.new) }
    ensures not_yet { OnNotYet result (HasNoHead Side.Reply bytes.now) }
    ensures may { OnNotYet result (MayBecomeHead Side.Reply bytes.now) }
    ensures never { OnNever result (HeadExceeds Side.Reply (length headers.old) bytes.now) }
{
    match parse_response(bytes, headers) {
        Ok(Status::Complete(head)) => HeadLook::Whole(HeadSpans {
            start: StartSpans::Answer {
                status: head.code,
                minor: head.version,
            },
            lines: head.headers,
            len: head.len,
        }),
        Ok(Status::Partial) => HeadLook::NotYet,
        Err(_) => HeadLook::Never,
    }
}

/// What head of that side stands at the front of the bytes. Where its lines are is written to
/// `headers`.
pub(crate) fn look_for_head(side: Side, bytes: &[u8], headers: &mut [HeaderSpan]) -> HeadLook
    ensures whole { IfWhole result (IsHeadAt side bytes.now headers.new) }
    ensures not_yet { OnNotYet result (HasNoHead side bytes.now) }
    ensures may { OnNotYet result (MayBecomeHead side bytes.now) }
    ensures never { OnNever result (HeadExceeds side (length headers.old) bytes.now) }
{
    match side {
        Side::Request => look_for_request(bytes, headers),
        Side::Reply => look_for_reply(bytes, headers),
    }
}

//! Frames, one after another, out of what a source gives.
ghost use Rattle.std.specs.Prelude.{◌≡◌, ◌≢◌, ◌<◌, ◌≤◌, ℕ, List, [], Option, false, true, None, Ok};
ghost use Rattle.std.specs.Prelude.{Err, IfOk, OnOk, OnErr, length, drop};
ghost use Rattle.std.specs.Io.KnownBytes.{IsAtEnd};
ghost use Rattle.m2m_io.specs.Counts.{CountsFault};
ghost use Rattle.http_frames.specs.Frame.{lines_limit};
ghost use Rattle.http_frames.specs.Stream.{HasNoFrame};
ghost use Rattle.http_frames.specs.Spans.{IsFrameAt, AreWithin, frame_at};
ghost use Rattle.http_frames.specs.Inbox.{Reads, GivesAsNeeded, HoldsNoFrame, IfMessage};
ghost use Rattle.http_frames.specs.Inbox.{IfHeld, UnlessMessage, is_refusal, TakesNext};
ghost use Rattle.http_frames.specs.Waiting.{ReadsAsNeeded};
ghost use Rattle.http_frames.specs.Settled.{IfSettled, OnSettledEnd, OnSettledNever, IsNoFrame};

use crate::chunks::Walked;
use crate::held::ReadBuffer;
use crate::look::{FrameSpans, FrameStatus, LINES_LIMIT, look_for_frame};
use crate::parts::frame_of;
use crate::rooms::Rooms;
use crate::{Frame, FrameFault, Next, Side};
use httparse::spans::{EMPTY_HEADER_SPAN, HeaderSpan};
use m2m_io::Source;
use m2m_value::OutOfMemory;
use std::alloc::{AllocError, Global};
use std::marker::Model;

/// What stands at the front of a stream, once that is settled.
#[derive(Clone, Copy)]
enum Settled {
    Whole(FrameSpans),
    End,
    Never,
}

/// What is settled once nothing comes any more, and the bytes held are no whole frame.
fn settled_at_end(held: &ReadBuffer) -> Settled
    ensures end { result ≡ Settled.End → held.now ≡ [] }
    ensures never { result ≡ Settled.Never → held.now ≢ [] }
    ensures either { IsNoFrame result }
{
    if held.bytes().is_empty() {
        Settled::End
    } else {
        Settled::Never
    }
}

/// Reads until it is settled what stands at the front of the stream: only while the bytes held
/// settle nothing. Where a frame's lines are is written to `headers`, and what its chunks carry to
/// `walked`.
#[tactic(auto, using(crate::proofs::LookLemmas::walked_none_yet))]
fn settle<S: Source>(
    held: &mut ReadBuffer,
    src: &mut S,
    side: Side,
    headers: &mut [HeaderSpan],
    walked: &mut Walked,
) -> Result<Settled, FrameFault>
    requires room { length headers.old ≡ lines_limit }
    requires head { walked.old.head ≡ None }
    requires at { walked.old.at ≡ 0 }
    requires body { walked.old.body.items ≡ [] }
    ensures reads { Reads (S.left src.old) (S.left src.new) held.old held.new }
    ensures needed { ReadsAsNeeded side held.old held.new src.old src.new }
    ensures whole { IfSettled result
        (IsFrameAt side held.new headers.new walked.new.body.items) }
    ensures end { OnSettledEnd result (held.new ≡ []) }
    ensures at_end { OnSettledEnd result (IsAtEnd (S.left src.new)) }
    ensures never { OnSettledNever result (HoldsNoFrame side held.new (S.left src.new)) }
    ensures waiting { result ≡ Err FrameFault.ReadFault → HasNoFrame side held.new }
    ensures beside { S.kept_by_read src.new ≡ S.kept_by_read src.old }
    ensures faults { CountsFault FrameFault.ReadFault result (S.faults src.old) (S.faults src.new) }
    ensures other { result ≢ Err FrameFault.NoFrame }
{
    'reads: loop {
        let look = look_for_frame(side, held.bytes(), headers, walked)?;
        match look {
            FrameStatus::Whole(spans) => return Ok(Settled::Whole(spans)),
            FrameStatus::Never => return Ok(Settled::Never),
            FrameStatus::Short(need) => {
                if !held.fill(src, need)? {
                    return Ok(settled_at_end(held));
                }
            }
        }
    }
}

/// Takes the frame that the spans cover off the front.
fn take_frame(
    held: &mut ReadBuffer,
    rooms: &mut Rooms,
    alloc: Global,
    headers: &[HeaderSpan],
    spans: FrameSpans,
    chunks: Vec<u8>,
) -> Result<Frame, AllocError>
    requires { AreWithin held.old headers.now spans }
    ensures frame { IfOk result
        (λ frame. frame ≡ frame_at held.old headers.now chunks.items spans) }
    ensures ok { OnOk result (held.new ≡ drop spans.end held.old) }
    ensures err { OnErr result (held.new ≡ held.old) }
{
    let frame = frame_of(rooms, alloc, held.bytes(), headers, spans, chunks)?;
    held.skip(spans.end);
    Ok(frame)
}

/// Reads what stands next. Where its lines are is written to `headers`.
fn read_next<S: Source>(
    held: &mut ReadBuffer,
    rooms: &mut Rooms,
    headers: &mut [HeaderSpan],
    alloc: Global,
    src: &mut S,
    side: Side,
) -> Result<Next, FrameFault>
    requires { length headers.old ≡ lines_limit }
    ensures message { IfMessage result
        (GivesAsNeeded side (S.left src.old) (S.left src.new) held.old held.new src.old src.new) }
    ensures kept { UnlessMessage result
        (Reads (S.left src.old) (S.left src.new) held.old held.new) }
    ensures needed { UnlessMessage result (ReadsAsNeeded side held.old held.new src.old src.new) }
    ensures end { result ≡ Ok Next.End → (held.new ≡ []) × IsAtEnd (S.left src.new) }
    ensures no_frame { result ≡ Err FrameFault.NoFrame
        → HoldsNoFrame side held.new (S.left src.new) }
    ensures waiting { result ≡ Err FrameFault.ReadFault → HasNoFrame side held.new }
    ensures beside { S.kept_by_read src.new ≡ S.kept_by_read src.old }
    ensures faults { CountsFault FrameFault.ReadFault result (S.faults src.old) (S.faults src.new) }
{
    let mut walked = Walked::new(alloc);
    match settle(held, src, side, headers, &mut walked)? {
        Settled::Whole(spans) => {
            let frame = take_frame(held, rooms, alloc, headers, spans, walked.body)?;
            Ok(Next::Message(frame))
        }
        Settled::End => Ok(Next::End),
        Settled::Never => Err(FrameFault::NoFrame),
    }
}

/// Takes the frame that stands whole in the bytes held; none where more has to be read, so that it
/// is settled what stands there.
#[tactic(auto, using(crate::proofs::LookLemmas::walked_none_yet))]
fn take_held(
    held: &mut ReadBuffer,
    rooms: &mut Rooms,
    headers: &mut [HeaderSpan],
    alloc: Global,
    side: Side,
) -> Result<Option<Frame>, FrameFault>
    requires { length headers.old ≡ lines_limit }
    ensures message { (left : Option (List ℕ)) → IfHeld result (λ next. IfMessage next
        (GivesAsNeeded side left left held.old held.new held.old held.old)) }
    ensures kept { IfHeld result (λ next. UnlessMessage next (held.new ≡ held.old)) }
    ensures none { result ≡ Ok None → (held.new ≡ held.old) × HasNoFrame side held.old }
    ensures no_frame { result ≡ Err FrameFault.NoFrame
        → (left : Option (List ℕ)) → HoldsNoFrame side held.new left }
    ensures other { result ≢ Err FrameFault.ReadFault }
{
    let mut walked = Walked::new(alloc);
    let look = look_for_frame(side, held.bytes(), headers, &mut walked)?;
    match look {
        FrameStatus::Whole(spans) => {
            let frame = take_frame(held, rooms, alloc, headers, spans, walked.body)?;
            Ok(Some(frame))
        }
        FrameStatus::Never => Err(FrameFault::NoFrame),
        FrameStatus::Short(_) => Ok(None),
    }
}

fn is_refusal(next: &Result<Next, FrameFault>) -> bool
    ensures { result ≡ is_refusal next.now }
{
    matches!(next, Err(FrameFault::NoFrame))
}

fn is_refused(held: &Result<Option<Frame>, FrameFault>) -> bool
    ensures answer { IfHeld held.now (λ next. result ≡ is_refusal next) }
    ensures none { held.now ≡ Ok None → result ≡ false }
{
    matches!(held, Err(FrameFault::NoFrame))
}

/// The bytes of a stream that were read and are not yet given in a frame, and some room for the
/// texts of frames and the places of their lines.
#[derive(Debug, Drop)]
pub struct Inbox {
    held: ReadBuffer,
    refused: bool,
    rooms: Rooms,
    headers: [HeaderSpan; LINES_LIMIT],
}

impl Model for Inbox {
    ghost use Rattle.http_frames.specs.Inbox.{Intake};

    ghost Value = { Intake };

    ghost view = { λ i. record { held = i.held; refused = i.refused } };
}

impl Inbox {
    /// An inbox that holds nothing. It has room for a head, so that reads need memory only for
    /// long bodies.
    pub fn new(alloc: Global) -> Result<Inbox, OutOfMemory>
        ensures held { IfOk result (λ inbox. inbox.held ≡ []) }
        ensures refused { IfOk result (λ inbox. inbox.refused ≡ false) }
    {
        Ok(Inbox {
            held: ReadBuffer::new(alloc)?,
            refused: false,
            rooms: Rooms::new(alloc),
            headers: [EMPTY_HEADER_SPAN; LINES_LIMIT],
        })
    }

    /// Takes back a frame that is done with. The texts of the next ones stand in its room, so that
    /// they need no memory, but for long ones.
    pub fn give_back(&mut self, frame: Frame)
        ensures { self.new ≡ self.old }
    {
        self.rooms.keep_frame(frame);
    }

    fn next<S: Source>(
        &mut self,
        alloc: Global,
        src: &mut S,
        side: Side,
    ) -> Result<Next, FrameFault>
        ensures message { IfMessage result
            (GivesAsNeeded side (S.left src.old) (S.left src.new)
            self.old.held self.new.held src.old src.new) }
        ensures kept { UnlessMessage result
            (Reads (S.left src.old) (S.left src.new) self.old.held self.new.held) }
        ensures needed { UnlessMessage result
            (ReadsAsNeeded side self.old.held self.new.held src.old src.new) }
        ensures end { result ≡ Ok Next.End → (self.new.held ≡ []) × IsAtEnd (S.left src.new) }
        ensures no_frame { self.old.refused ≡ false → result ≡ Err FrameFault.NoFrame
            → HoldsNoFrame side self.new.held (S.left src.new) }
        ensures refused { self.new.refused ≡ is_refusal result }
        ensures over { self.old.refused ≡ true → result ≡ Err FrameFault.NoFrame }
        ensures over_still { self.old.refused ≡ true → (self.new ≡ self.old) × (src.new ≡ src.old) }
        ensures waiting { result ≡ Err FrameFault.ReadFault → HasNoFrame side self.new.held }
        ensures beside { S.kept_by_read src.new ≡ S.kept_by_read src.old }
        ensures faults { CountsFault FrameFault.ReadFault result (S.faults src.old)
            (S.faults src.new) }
    {
        if self.refused {
            return Err(FrameFault::NoFrame);
        }
        let next = read_next(
            &mut self.held,
            &mut self.rooms,
            &mut self.headers,
            alloc,
            src,
            side,
        );
        self.refused = is_refusal(&next);
        next
    }

    /// The request that stands whole in the bytes held; none where more has to be read, so that it
    /// is settled what stands there. Nothing is read. Whatever the source has left, the answer is
    /// that of `next_request`, which reads nothing then.
    pub fn held_request(&mut self, alloc: Global) -> Result<Option<Frame>, FrameFault>
        ensures next { (left : Option (List ℕ)) → IfHeld result
            (λ next. TakesNext Side.Request left left self.old self.new next) }
        ensures none { result ≡ Ok None
            → (self.new ≡ self.old) × HasNoFrame Side.Request self.old.held }

        // After NoFrame the inbox stays as it is.
        ensures over { self.old.refused ≡ true → self.new ≡ self.old }
        ensures other { result ≢ Err FrameFault.ReadFault }
    {
        if self.refused {
            return Err(FrameFault::NoFrame);
        }
        let held = take_held(
            &mut self.held,
            &mut self.rooms,
            &mut self.headers,
            alloc,
            Side::Request,
        );
        self.refused = is_refused(&held);
        held
    }

    /// The next request of the stream, which is the bytes held and then those that the source has
    /// left. It reads at most 4,096 bytes at a time, and only while the bytes held have no request
    /// at their front and may still become a head, by its grammar alone, or are a head within the
    /// limits and a part of its body. What the lines of a head say is judged once it ends. After
    /// `NoFrame` each call answers it; after another fault the next call goes on where this one
    /// stopped.
    pub fn next_request<S: Source>(
        &mut self,
        alloc: Global,
        src: &mut S,
    ) -> Result<Next, FrameFault>
        ensures next { TakesNext Side.Request (S.left src.old) (S.left src.new)
            self.old self.new result }

        // Nothing is read, and the source is as it was; or the first read and the last begin where
        // the bytes held have no request at their front, and may still become a head by its grammar
        // or are a head and a part of its body, and the last gives a piece at most.
        ensures message { IfMessage result
            (GivesAsNeeded Side.Request (S.left src.old) (S.left src.new)
            self.old.held self.new.held src.old src.new) }
        ensures needed { UnlessMessage result
            (ReadsAsNeeded Side.Request self.old.held self.new.held src.old src.new) }

        // After NoFrame the source and the inbox stay as they are.
        ensures over { self.old.refused ≡ true → (self.new ≡ self.old) × (src.new ≡ src.old) }

        // ReadFault comes where the source failed in this call, and only there.
        ensures faults { CountsFault FrameFault.ReadFault result (S.faults src.old)
            (S.faults src.new) }

        // The side that is written, of a source that is a sink as well, stays as it is.
        ensures beside { S.kept_by_read src.new ≡ S.kept_by_read src.old }
    {
        self.next(alloc, src, Side::Request)
    }

    /// The next reply of the stream, as `next_request` has the next request.
    pub fn next_reply<S: Source>(&mut self, alloc: Global, src: &mut S) -> Result<Next, FrameFault>
        ensures next { TakesNext Side.Reply (S.left src.old) (S.left src.new)
            self.old self.new result }

        // Nothing is read, and the source is as it was; or the first read and the last begin where
        // the bytes held have no reply at their front, and may still become a head by its grammar
        // or are a head and a part of its body, and the last gives a piece at most.
        ensures message { IfMessage result
            (GivesAsNeeded Side.Reply (S.left src.old) (S.left src.new)
            self.old.held self.new.held src.old src.new) }
        ensures needed { UnlessMessage result
            (ReadsAsNeeded Side.Reply self.old.held self.new.held src.old src.new) }

        // After NoFrame the source and the inbox stay as they are.
        ensures over { self.old.refused ≡ true → (self.new ≡ self.old) × (src.new ≡ src.old) }

        // ReadFault comes where the source failed in this call, and only there.
        ensures faults { CountsFault FrameFault.ReadFault result (S.faults src.old)
            (S.faults src.new) }

        // The side that is written, of a source that is a sink as well, stays as it is.
        ensures beside { S.kept_by_read src.new ≡ S.kept_by_read src.old }
    {
        self.next(alloc, src, Side::Reply)
    }
}

//! A talk from its first payload to its end.
ghost use Rattle.std.specs.Prelude.{◌≡◌, ◌∷◌, [], MatchOption, OnErr, OnOk, Some};
ghost use Rattle.m2m_io.specs.Counts.{CountsFault};
ghost use Rattle.m2m_io.specs.Told.{TellsStill};
ghost use Rattle.cse_server.specs.Outside.{EndsByFault, link_told};
ghost use Rattle.ws_binding.specs.Payloads.{reply_payload};
ghost use Rattle.ws_binding.specs.Talk.{ServesTalk, ServesUpTo};
ghost use Rattle.ws_binding.specs.Talker.{MaySay, NoneToCome, SaysAll, talk_told};
ghost use Rattle.ws_binding.specs.Way.{Answers, Goes, Hears};

use crate::payload::{Heard, hear_payload};
use crate::room::PayloadRoom;
use crate::talker::{Got, TalkFault, Talker};
use cse_machine::{Event, Outcome};
use desk_replies::{Replier, bare_reply};
use m2m_io::{Clock, Link};
use m2m_names::Rsc;
use m2m_value::{Scratch, Text, write};
use primitive_json::{Reply, reply_into};
use std::alloc::{AllocError as OutOfMemory, Global};
use turn_desk::Desk;

/// So many payloads are answered in one talk.
const MOST_PAYLOADS: u64 = 10_000;

/// Most replies have at most so many bytes; for a longer one the room grows.
const REPLY_ROOM: usize = 512;

/// How a talk ended.
#[derive(Clone, Copy, Debug, PartialEq, Eq)]
pub enum TalkEnded {
    /// No payload is to come, or the 10,000th was answered.
    Closed,
    /// The talker failed: its count of faults rose in the call.
    Failed,
    /// Memory ran out.
    Memory,
}

impl From<TalkFault> for TalkEnded {
    ghost use Rattle.std.specs.Prelude.{◌≡◌};
    ghost use Rattle.ws_binding.specs.Way.{end_of};

    ghost from_gives = { λ fault e. e ≡ end_of fault };

    fn from(fault: TalkFault) -> Self {
        match fault {
            TalkFault::Failed => TalkEnded::Failed,
            TalkFault::OutOfMemory => TalkEnded::Memory,
        }
    }
}

/// What payloads are read and answered with, and kept from one to the next.
#[derive(Drop)]
struct Rooms {
    scratch: Scratch,
    replies: PayloadRoom,
}

/// What answers the payloads of a talk: where their requests are asked, and what makes replies of
/// the answers.
struct Answering<'a, D, W> {
    alloc: Global,
    desk: &'a D,
    replier: &'a W,
}

impl<D, W> Drop for Answering<'_, D, W> {
    fn drop(self) {
        let Answering {
            alloc: _,
            desk: _,
            replier: _,
        } = self;
    }
}

/// Writes a reply as a payload, in place of what stands in the text.
fn write_payload(alloc: Global, text: &mut Vec<u8>, reply: Reply) -> Result<(), OutOfMemory>
    ensures { OnOk result (text.new.items ≡ reply_payload reply) }
{
    let value = reply_into(alloc, reply)?;
    text.clear();
    text.reserve(REPLY_ROOM)?;
    write(&value, text)
}

/// Says the reply to a payload, and tells the talker its status.
fn say_told<K: Talker>(
    talker: &mut K,
    text: &[u8],
    payload: &[u8],
    rsc: Rsc,
) -> Result<(), TalkFault>
    ensures ok { OnOk result (SaysAll (text.now ∷ []) (K.said talker.old) (K.said talker.new)) }
    ensures err { OnErr result (MaySay text.now (K.said talker.old) (K.said talker.new)) }
    ensures kept { TellsStill (K.to_come talker.old) (K.to_come talker.new) }
    ensures faults { CountsFault TalkFault.Failed result
        (K.faults talker.old) (K.faults talker.new) }
{
    let said = talker.say(text);
    if said.is_ok() {
        talker.answered(payload, rsc);
    }
    said
}

impl<D, W> Answering<'_, D, W>
where
    D: Desk<Event = Event, Outcome = Outcome>,
    W: Replier,
{
    /// The reply to a payload: to the request that it is, if any.
    fn reply_to<C: Clock, L: Link>(
        &self,
        seat: &mut D::Seat,
        clock: &mut C,
        link: &mut L,
        scratch: &mut Scratch,
        payload: &[u8],
    ) -> Result<Reply, OutOfMemory>
        requires { D.seats self.now.desk.now seat.old }
        ensures seats { D.seats self.now.desk.now seat.new }
        ensures hears { Hears (W.rule self.now.replier.now) D.grown seat.old seat.new
            (C.readings clock.old) (C.readings clock.new)
            (link_told (L.exchanges link.old) (L.faults link.old))
            (link_told (L.exchanges link.new) (L.faults link.new)) payload.now result }
    {
        match hear_payload(self.alloc, scratch, payload)? {
            Heard::Refused(rqi) => Ok(bare_reply(Rsc::BadRequest, rqi)),
            Heard::Asks(id, request) => self.replier.reply(
                self.alloc,
                self.desk,
                seat,
                clock,
                link,
                id.entries(),
                request,
            ),
        }
    }

    /// Answers a payload that was received. None where the talk goes on.
    fn answer<K: Talker, C: Clock, L: Link>(
        &self,
        seat: &mut D::Seat,
        talker: &mut K,
        clock: &mut C,
        link: &mut L,
        rooms: &mut Rooms,
        payload: Text,
    ) -> Option<TalkEnded>
        requires { D.seats self.now.desk.now seat.old }
        ensures seats { D.seats self.now.desk.now seat.new }
        ensures answers { Answers (W.rule self.now.replier.now) D.grown seat.old seat.new
            (C.readings clock.old) (C.readings clock.new)
            (link_told (L.exchanges link.old) (L.faults link.old))
            (link_told (L.exchanges link.new) (L.faults link.new)) payload
            (K.said talker.old) (K.said talker.new) result }
        ensures kept { TellsStill (K.to_come talker.old) (K.to_come talker.new) }
        ensures faults { EndsByFault (Some TalkEnded.Failed) result
            (K.faults talker.old) (K.faults talker.new) }
    {
        let bytes = payload.entries();
        let Ok(reply) = self.reply_to(seat, clock, link, &mut rooms.scratch, bytes) else {
            return Some(TalkEnded::Memory);
        };
        let rsc = reply.parts().rsc;
        let mut text = rooms.replies.take(self.alloc);
        let Ok(()) = write_payload(self.alloc, &mut text, reply) else {
            return Some(TalkEnded::Memory);
        };
        let said = say_told(talker, &text, bytes, rsc);
        rooms.replies.keep(self.alloc, text);
        match said {
            Ok(()) => None,
            Err(fault) => Some(TalkEnded::from(fault)),
        }
    }

    /// Answers the next payload. None where the talk goes on.
    fn answer_next<K: Talker, C: Clock, L: Link>(
        &self,
        seat: &mut D::Seat,
        talker: &mut K,
        clock: &mut C,
        link: &mut L,
        rooms: &mut Rooms,
    ) -> Option<TalkEnded>
        requires { D.seats self.now.desk.now seat.old }
        ensures seats { D.seats self.now.desk.now seat.new }
        ensures next { let rule = W.rule self.now.replier.now in
            let old = talk_told (K.to_come talker.old) (K.said talker.old) in
            let new = talk_told (K.to_come talker.new) (K.said talker.new) in
            let told = link_told (L.exchanges link.old) (L.faults link.old) in
            let more = link_told (L.exchanges link.new) (L.faults link.new) in
            MatchOption result
            (Goes 1 rule D.grown seat.old seat.new (C.readings clock.old) (C.readings clock.new)
            told more old new)
            (ServesUpTo 1 rule D.grown seat.old seat.new (C.readings clock.old)
            (C.readings clock.new) told more old new) }
        ensures closed { result ≡ Some TalkEnded.Closed → NoneToCome (K.to_come talker.new) }
        ensures faults { EndsByFault (Some TalkEnded.Failed) result
            (K.faults talker.old) (K.faults talker.new) }
    {
        match talker.receive() {
            Ok(Got::Payload(payload)) => self.answer(seat, talker, clock, link, rooms, payload),
            Ok(Got::End) => Some(TalkEnded::Closed),
            Err(fault) => Some(TalkEnded::from(fault)),
        }
    }
}

/// Serves one talk to its end: its payloads are answered one after another, in order, up to the
/// 10,000th.
///
/// A payload that is a request is asked at the desk, at a reading of the clock, and answered as the
/// replier does; one that isn't is refused, and the talk goes on. Where memory runs out in the event
/// of a request, its reply says so and the talk goes on; elsewhere it ends the talk. A request that
/// goes on to another CSE is carried over the link once the desk has answered.
pub fn serve_talk<D, K, C, L, W>(
    alloc: Global,
    desk: &D,
    seat: &mut D::Seat,
    talker: &mut K,
    clock: &mut C,
    link: &mut L,
    replier: &W,
) -> TalkEnded
where
    D: Desk<Event = Event, Outcome = Outcome>,
    K: Talker,
    C: Clock,
    L: Link,
    W: Replier,
    requires { D.seats desk.now seat.old }
    ensures seats { D.seats desk.now seat.new }
    ensures serves { ServesTalk (W.rule replier.now) D.grown seat.old seat.new
        (C.readings clock.old) (C.readings clock.new)
        (link_told (L.exchanges link.old) (L.faults link.old))
        (link_told (L.exchanges link.new) (L.faults link.new))
        (talk_told (K.to_come talker.old) (K.said talker.old))
        (talk_told (K.to_come talker.new) (K.said talker.new)) result }

    // It ends by a fault where the talker failed in this call, and only there.
    ensures faults { EndsByFault TalkEnded.Failed result (K.faults talker.old)
        (K.faults talker.new) }
{
    let answering = Answering {
        alloc,
        desk,
        replier,
    };
    let mut rooms = Rooms {
        scratch: Scratch::new(alloc),
        replies: PayloadRoom::new(alloc),
    };
    for _ in 0..MOST_PAYLOADS {
        if let Some(ended) = answering.answer_next(seat, talker, clock, link, &mut rooms) {
            return ended;
        }
    }
    TalkEnded::Closed
}

//! One connection, from its first frame to its end.
ghost use Rattle.std.specs.Prelude.{◌≡◌, ◌<◌, ◌+◌, [], length, false, true, Some, None, IfSome};
ghost use Rattle.std.specs.Prelude.{MatchOption};
ghost use Rattle.m2m_io.specs.Counts.{CountsFault};
ghost use Rattle.m2m_value.specs.Sound.{IsSound};
ghost use Rattle.desk_replies.specs.Rule.{plainly};
ghost use Rattle.cse_server.specs.Closing.{closes};
ghost use Rattle.cse_server.specs.Outside.{EndsByFault, link_told, outside, sink_told};
ghost use Rattle.http_frames.specs.Inbox.{TakesNext, most_held, stream_of};
ghost use Rattle.http_frames.specs.declared.frame.Side.TheVariants.{Request as AsRequest};
ghost use Rattle.http_binding.specs.Replying.{reply_text};
ghost use Rattle.cse_server.specs.Connection.{Serves};
ghost use Rattle.cse_server.specs.Way.{AnswersFrame, Goes, Refuses, SaysTurn, StopsFrom, is_put};

use crate::closing::{MOST_FRAMES, closes};
use crate::replying::{id_of, push_last_reply, refusal_of};
use crate::waiting::{put_last, put_many_replies, put_replies};
use cse_machine::{Event, Outcome};
use desk_replies::{Plainly, Replier};
use http_binding::{BindFault, BodyRoom, ReplyRoom, push_reply_text, to_request_in};
use http_frames::{Frame, FrameFault, Inbox, Next};
use m2m_io::{Clock, Connection, Link};
use primitive_json::Reply;
use service_observer::ReplyObserver;
use std::alloc::Global;
use turn_desk::Desk;

/// How a connection ended.
#[derive(Clone, Copy, Debug, PartialEq, Eq)]
pub enum Ended {
    /// A frame closed it, or its stream ended behind a frame.
    Closed,
    /// Bytes are left, and no frame stands at their front.
    NoFrame,
    /// Reading failed: the connection's count of faults as a source rose in the call.
    ReadFault,
    /// Writing failed: the connection's count of faults as a sink rose in the call.
    WriteFault,
    /// Memory ran out.
    Memory,
}

/// What answers the requests of connections: where they are asked, and what makes replies of the
/// answers.
pub struct Answerer<'a, D, W> {
    pub alloc: Global,
    pub desk: &'a D,
    pub replier: &'a W,
}

impl<D, W> Drop for Answerer<'_, D, W> {
    fn drop(self) {
        let Answerer {
            alloc: _,
            desk: _,
            replier: _,
        } = self;
    }
}

/// What one connection is read and answered with, and the bytes of replies that wait to be put.
#[derive(Drop)]
struct Rooms {
    inbox: Inbox,
    bodies: BodyRoom,
    replies: ReplyRoom,
    waiting: Vec<u8>,
}

/// A frame, and its place on its connection, from 1.
#[derive(Drop)]
struct Heard {
    place: u64,
    frame: Frame,
}

/// Ends a connection on which no frame can stand.
fn end_refused<X: Connection + ReplyObserver>(
    alloc: Global,
    conn: &mut X,
    waiting: &mut Vec<u8>,
    room: &mut ReplyRoom,
) -> Ended
    ensures refuses { Refuses waiting.old.items waiting.new.items
        (sink_told (X.written conn.old) (X.puts conn.old))
        (sink_told (X.written conn.new) (X.puts conn.new)) result }
    ensures writes { EndsByFault Ended.WriteFault result
        (X.Sink.faults conn.old) (X.Sink.faults conn.new) }
    ensures left { X.left conn.new ≡ X.left conn.old }
    ensures read_faults { X.Source.faults conn.new ≡ X.Source.faults conn.old }
    ensures holds { (X.kept_by_read conn.new).holds ≡ (X.kept_by_read conn.old).holds }
{
    let Ok(()) = push_last_reply(alloc, conn, waiting, room) else {
        return Ended::Memory;
    };
    match put_many_replies(waiting, conn) {
        Ok(()) => Ended::NoFrame,
        Err(_) => Ended::WriteFault,
    }
}

/// Reads what stands next on a connection. What was written to it stays as it is.
fn read_next<X: Connection>(
    alloc: Global,
    conn: &mut X,
    inbox: &mut Inbox,
) -> Result<Next, FrameFault>
    ensures next { TakesNext AsRequest (X.left conn.old) (X.left conn.new)
        inbox.old inbox.new result }
    ensures faults { CountsFault FrameFault.ReadFault result
        (X.Source.faults conn.old) (X.Source.faults conn.new) }
    ensures written { X.written conn.new ≡ X.written conn.old }
    ensures puts { X.puts conn.new ≡ X.puts conn.old }
    ensures write_faults { X.Sink.faults conn.new ≡ X.Sink.faults conn.old }
    ensures holds { (X.kept_by_read conn.new).holds ≡ (X.kept_by_read conn.old).holds }
{
    inbox.next_request(alloc, conn)
}

/// Says the reply to a frame that was heard, and tells the connection of it, and why the frame
/// binds to no request. None where the connection goes on.
fn say_reply<X: Connection + ReplyObserver>(
    alloc: Global,
    conn: &mut X,
    waiting: &mut Vec<u8>,
    room: &mut ReplyRoom,
    heard: &Heard,
    fault: Option<&BindFault>,
    reply: &Reply,
) -> Option<Ended>
    ensures says { SaysTurn heard.now.place heard.now.frame result
        (reply_text reply.now (closes heard.now.place heard.now.frame))
        waiting.old.items waiting.new.items
        (sink_told (X.written conn.old) (X.puts conn.old))
        (sink_told (X.written conn.new) (X.puts conn.new)) }
    ensures sound { is_put result ≡ true → IfSome reply.now.pc IsSound }
    ensures writes { EndsByFault (Some Ended.WriteFault) result
        (X.Sink.faults conn.old) (X.Sink.faults conn.new) }
    ensures left { X.left conn.new ≡ X.left conn.old }
    ensures read_faults { X.Source.faults conn.new ≡ X.Source.faults conn.old }
    ensures holds { (X.kept_by_read conn.new).holds ≡ (X.kept_by_read conn.old).holds }
{
    let close = closes(heard.place, &heard.frame);
    let from = waiting.len();
    let Ok(()) = push_reply_text(alloc, reply, close, room, waiting) else {
        return Some(Ended::Memory);
    };
    conn.replied(&heard.frame, fault, reply, &waiting[from..]);
    match put_many_replies(waiting, conn) {
        Ok(()) if close => Some(Ended::Closed),
        Ok(()) => None,
        Err(_) => Some(Ended::WriteFault),
    }
}

impl<D, W> Answerer<'_, D, W>
where
    D: Desk<Event = Event, Outcome = Outcome>,
    W: Replier,
{
    /// Answers a frame. None where the connection goes on.
    fn answer<X: Connection + ReplyObserver, C: Clock, L: Link>(
        &self,
        seat: &mut D::Seat,
        conn: &mut X,
        clock: &mut C,
        link: &mut L,
        rooms: &mut Rooms,
        heard: &Heard,
    ) -> Option<Ended>
        requires { D.seats self.now.desk.now seat.old }
        ensures seats { D.seats self.now.desk.now seat.new }
        ensures answers { let old = outside (X.left conn.old)
            (sink_told (X.written conn.old) (X.puts conn.old)) (C.readings clock.old)
            (link_told (L.exchanges link.old) (L.faults link.old)) in
            let new = outside (X.left conn.new)
            (sink_told (X.written conn.new) (X.puts conn.new)) (C.readings clock.new)
            (link_told (L.exchanges link.new) (L.faults link.new)) in
            AnswersFrame heard.now.place (W.rule self.now.replier.now) D.grown seat.old seat.new
            rooms.old.waiting.items rooms.new.waiting.items old new heard.now.frame result }
        ensures writes { EndsByFault (Some Ended.WriteFault) result
            (X.Sink.faults conn.old) (X.Sink.faults conn.new) }
        ensures left { X.left conn.new ≡ X.left conn.old }
        ensures read_faults { X.Source.faults conn.new ≡ X.Source.faults conn.old }
        ensures holds { (X.kept_by_read conn.new).holds ≡ (X.kept_by_read conn.old).holds }
        ensures inbox { rooms.new.inbox ≡ rooms.old.inbox }
    {
        match to_request_in(self.alloc, &mut rooms.bodies, &heard.frame) {
            Ok(request) => {
                let id = id_of(&heard.frame, &request);
                let Ok(reply) = self
                    .replier
                    .reply(self.alloc, self.desk, seat, clock, link, id, request)
                else {
                    return Some(Ended::Memory);
                };
                say_reply(
                    self.alloc,
                    conn,
                    &mut rooms.waiting,
                    &mut rooms.replies,
                    heard,
                    None,
                    &reply,
                )
            }
            Err(fault) => {
                if let BindFault::OutOfMemory = fault {
                    return Some(Ended::Memory);
                }
                match refusal_of(self.alloc, &heard.frame) {
                    Ok(reply) => {
                        let told = Some(&fault);
                        say_reply(
                            self.alloc,
                            conn,
                            &mut rooms.waiting,
                            &mut rooms.replies,
                            heard,
                            told,
                            &reply,
                        )
                    }
                    Err(_) => Some(Ended::Memory),
                }
            }
        }
    }

    /// Answers a frame, and gives its room back. None where the connection goes on.
    fn answer_frame<X: Connection + ReplyObserver, C: Clock, L: Link>(
        &self,
        seat: &mut D::Seat,
        conn: &mut X,
        clock: &mut C,
        link: &mut L,
        rooms: &mut Rooms,
        heard: Heard,
    ) -> Option<Ended>
        requires { D.seats self.now.desk.now seat.old }
        ensures seats { D.seats self.now.desk.now seat.new }
        ensures answers { let old = outside (X.left conn.old)
            (sink_told (X.written conn.old) (X.puts conn.old)) (C.readings clock.old)
            (link_told (L.exchanges link.old) (L.faults link.old)) in
            let new = outside (X.left conn.new)
            (sink_told (X.written conn.new) (X.puts conn.new)) (C.readings clock.new)
            (link_told (L.exchanges link.new) (L.faults link.new)) in
            AnswersFrame heard.place (W.rule self.now.replier.now) D.grown seat.old seat.new
            rooms.old.waiting.items rooms.new.waiting.items old new heard.frame result }
        ensures writes { EndsByFault (Some Ended.WriteFault) result
            (X.Sink.faults conn.old) (X.Sink.faults conn.new) }
        ensures left { X.left conn.new ≡ X.left conn.old }
        ensures read_faults { X.Source.faults conn.new ≡ X.Source.faults conn.old }
        ensures holds { (X.kept_by_read conn.new).holds ≡ (X.kept_by_read conn.old).holds }
        ensures inbox { rooms.new.inbox ≡ rooms.old.inbox }
    {
        let ended = self.answer(seat, conn, clock, link, rooms, &heard);
        rooms.inbox.give_back(heard.frame);
        ended
    }

    /// Serves what stands next on a connection, at the place `place`, from 1, once more is read for
    /// it. Nothing waits meanwhile. None where the connection goes on.
    fn serve_read<X: Connection + ReplyObserver, C: Clock, L: Link>(
        &self,
        seat: &mut D::Seat,
        conn: &mut X,
        clock: &mut C,
        link: &mut L,
        rooms: &mut Rooms,
        place: u64,
    ) -> Option<Ended>
        requires seats { D.seats self.now.desk.now seat.old }
        requires still_open { rooms.old.inbox.refused ≡ false }
        requires few { length rooms.old.inbox.held < most_held AsRequest }
        requires put { rooms.old.waiting.items ≡ [] }
        ensures few { length rooms.new.inbox.held < most_held AsRequest }
        ensures seats { D.seats self.now.desk.now seat.new }
        ensures next { let rule = W.rule self.now.replier.now in
            let stream = stream_of rooms.old.inbox.held (X.left conn.old) in
            let old = outside stream (sink_told (X.written conn.old) (X.puts conn.old))
            (C.readings clock.old) (link_told (L.exchanges link.old) (L.faults link.old)) in
            let new = outside (X.left conn.new)
            (sink_told (X.written conn.new) (X.puts conn.new)) (C.readings clock.new)
            (link_told (L.exchanges link.new) (L.faults link.new)) in
            let on = record new { left = stream_of rooms.new.inbox.held (X.left conn.new) } in
            MatchOption result ((rooms.new.inbox.refused ≡ false)
            × Goes place (place + 1) rule D.grown seat.old seat.new
            rooms.old.waiting.items rooms.new.waiting.items old on)
            (StopsFrom place rule D.grown seat.old seat.new
            rooms.old.waiting.items rooms.new.waiting.items old new) }
        ensures reads { EndsByFault (Some Ended.ReadFault) result
            (X.Source.faults conn.old) (X.Source.faults conn.new) }
        ensures writes { EndsByFault (Some Ended.WriteFault) result
            (X.Sink.faults conn.old) (X.Sink.faults conn.new) }
        ensures holds { (X.kept_by_read conn.new).holds ≡ (X.kept_by_read conn.old).holds }
    {
        match read_next(self.alloc, conn, &mut rooms.inbox) {
            Ok(Next::Message(frame)) => {
                self.answer_frame(seat, conn, clock, link, rooms, Heard { place, frame })
            }
            Ok(Next::End) => Some(Ended::Closed),
            Err(FrameFault::NoFrame) => Some(end_refused(
                self.alloc,
                conn,
                &mut rooms.waiting,
                &mut rooms.replies,
            )),
            Err(FrameFault::ReadFault) => Some(Ended::ReadFault),
            Err(FrameFault::OutOfMemory) => Some(Ended::Memory),
        }
    }

    /// Serves what stands next on a connection, where it has the place `place`, from 1. Where no
    /// request stands whole in what is held, all that waits is put before more is read. None where
    /// the connection goes on.
    fn serve_next<X: Connection + ReplyObserver, C: Clock, L: Link>(
        &self,
        seat: &mut D::Seat,
        conn: &mut X,
        clock: &mut C,
        link: &mut L,
        rooms: &mut Rooms,
        place: u64,
    ) -> Option<Ended>
        requires seats { D.seats self.now.desk.now seat.old }
        requires still_open { rooms.old.inbox.refused ≡ false }
        requires few { length rooms.old.inbox.held < most_held AsRequest }
        ensures few { length rooms.new.inbox.held < most_held AsRequest }
        ensures seats { D.seats self.now.desk.now seat.new }
        ensures next { let rule = W.rule self.now.replier.now in
            let stream = stream_of rooms.old.inbox.held (X.left conn.old) in
            let old = outside stream (sink_told (X.written conn.old) (X.puts conn.old))
            (C.readings clock.old) (link_told (L.exchanges link.old) (L.faults link.old)) in
            let new = outside (X.left conn.new)
            (sink_told (X.written conn.new) (X.puts conn.new)) (C.readings clock.new)
            (link_told (L.exchanges link.new) (L.faults link.new)) in
            let on = record new { left = stream_of rooms.new.inbox.held (X.left conn.new) } in
            MatchOption result ((rooms.new.inbox.refused ≡ false)
            × Goes place (place + 1) rule D.grown seat.old seat.new
            rooms.old.waiting.items rooms.new.waiting.items old on)
            (StopsFrom place rule D.grown seat.old seat.new
            rooms.old.waiting.items rooms.new.waiting.items old new) }
        ensures reads { EndsByFault (Some Ended.ReadFault) result
            (X.Source.faults conn.old) (X.Source.faults conn.new) }
        ensures writes { EndsByFault (Some Ended.WriteFault) result
            (X.Sink.faults conn.old) (X.Sink.faults conn.new) }
        ensures holds { (X.kept_by_read conn.new).holds ≡ (X.kept_by_read conn.old).holds }
    {
        match rooms.inbox.held_request(self.alloc) {
            Ok(Some(frame)) => {
                self.answer_frame(seat, conn, clock, link, rooms, Heard { place, frame })
            }
            Ok(None) => match put_replies(&mut rooms.waiting, conn) {
                Ok(()) => self.serve_read(seat, conn, clock, link, rooms, place),
                Err(_) => Some(Ended::WriteFault),
            },
            Err(FrameFault::NoFrame) => Some(end_refused(
                self.alloc,
                conn,
                &mut rooms.waiting,
                &mut rooms.replies,
            )),
            Err(_) => Some(Ended::Memory),
        }
    }

    /// Serves one connection to its end, as `serve_connection` does, by what the replier makes of
    /// the answers.
    pub fn serve<X: Connection + ReplyObserver, C: Clock, L: Link>(
        &self,
        seat: &mut D::Seat,
        conn: &mut X,
        clock: &mut C,
        link: &mut L,
    ) -> Ended
        requires { D.seats self.now.desk.now seat.old }
        ensures seats { D.seats self.now.desk.now seat.new }
        ensures serves { let old = outside (X.left conn.old)
            (sink_told (X.written conn.old) (X.puts conn.old)) (C.readings clock.old)
            (link_told (L.exchanges link.old) (L.faults link.old)) in
            let new = outside (X.left conn.new)
            (sink_told (X.written conn.new) (X.puts conn.new)) (C.readings clock.new)
            (link_told (L.exchanges link.new) (L.faults link.new)) in
            Serves (W.rule self.now.replier.now) D.grown seat.old seat.new old new result }

        // A fault is answered where the connection failed in this call, and only there.
        ensures reads { EndsByFault Ended.ReadFault result
            (X.Source.faults conn.old) (X.Source.faults conn.new) }
        ensures writes { EndsByFault Ended.WriteFault result
            (X.Sink.faults conn.old) (X.Sink.faults conn.new) }

        // A connection that borrows its sides still holds these.
        ensures holds { (X.kept_by_read conn.new).holds ≡ (X.kept_by_read conn.old).holds }
    {
        let Ok(inbox) = Inbox::new(self.alloc) else {
            return Ended::Memory;
        };
        let waiting = Vec::new(self.alloc);
        let mut rooms = Rooms {
            inbox,
            bodies: BodyRoom::new(),
            replies: ReplyRoom::new(self.alloc),
            waiting,
        };
        for place in 1..MOST_FRAMES + 1 {
            if let Some(ended) = self.serve_next(seat, conn, clock, link, &mut rooms, place) {
                return put_last(&mut rooms.waiting, conn, ended);
            }
        }
        Ended::Closed
    }
}

/// Serves one connection to its end: its frames are answered one after another, in order.
///
/// A frame that binds to a request is asked at the desk, at a reading of the clock; one that
/// doesn't is refused, and the connection goes on. It closes behind the reply to a frame that asks
/// for it, to one of HTTP/1.0 and to the 10,000th. Where no frame can stand, one last reply says
/// so. Whenever more is read, and where the connection ends, the replies to all frames that were
/// read are written. While a frame that was read stands to be answered, the replies before it wait,
/// fewer than 16,384 bytes of them, and one call of the connection writes all that wait, with the
/// last one behind them. Where memory runs out in the event of a request, its reply says so and the
/// connection goes on; elsewhere it ends the connection, and a reply for which it ran out isn't
/// begun. A request that goes on to another CSE is carried over
/// the link once the desk has answered, and its exchange gives its reply; where memory runs out in
/// carrying it, the reply says so.
pub fn serve_connection<D, X, C, L>(
    alloc: Global,
    desk: &D,
    seat: &mut D::Seat,
    conn: &mut X,
    clock: &mut C,
    link: &mut L,
) -> Ended
where
    D: Desk<Event = Event, Outcome = Outcome>,
    X: Connection + ReplyObserver,
    C: Clock,
    L: Link,
    requires { D.seats desk.now seat.old }
    ensures seats { D.seats desk.now seat.new }
    ensures serves { let old = outside (X.left conn.old)
        (sink_told (X.written conn.old) (X.puts conn.old)) (C.readings clock.old)
        (link_told (L.exchanges link.old) (L.faults link.old)) in
        let new = outside (X.left conn.new)
        (sink_told (X.written conn.new) (X.puts conn.new)) (C.readings clock.new)
        (link_told (L.exchanges link.new) (L.faults link.new)) in
        Serves plainly D.grown seat.old seat.new old new result }

    // A fault is answered where the connection failed in this call, and only there.
    ensures reads { EndsByFault Ended.ReadFault result
        (X.Source.faults conn.old) (X.Source.faults conn.new) }
    ensures writes { EndsByFault Ended.WriteFault result
        (X.Sink.faults conn.old) (X.Sink.faults conn.new) }

    // A connection that borrows its sides still holds these.
    ensures holds { (X.kept_by_read conn.new).holds ≡ (X.kept_by_read conn.old).holds }
{
    let answerer = Answerer {
        alloc,
        desk,
        replier: &Plainly,
    };
    answerer.serve(seat, conn, clock, link)
}

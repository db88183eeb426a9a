//! Replies, and their way to those that wait to be put.
ghost use Rattle.std.specs.Prelude.{◌≡◌, ◌++◌, Some, IfOk, IfSome, OnErr, OnOk, IsUtf8};
ghost use Rattle.http_binding.specs.Binding.{echo_of};
ghost use Rattle.cse_server.specs.Talk as spec;
ghost use Rattle.cse_server.specs.Talk.{last_reply, request_in};

use desk_replies::bare_reply;
use http_binding::{ReplyRoom, echo_id, push_reply_text};
use http_frames::Frame;
use m2m_names::Rsc;
use m2m_value::Text;
use primitive_json::{Reply, Request};
use service_observer::ReplyObserver;
use std::alloc::{AllocError as OutOfMemory, Global};

/// The identifier that the frame has, as a text of its own.
fn echo_of(alloc: Global, frame: &Frame) -> Result<Option<Text>, OutOfMemory>
    ensures value { IfOk result (λ id. id ≡ echo_of frame.now) }
    ensures utf8 { IfOk result (λ id. IfSome id IsUtf8) }
{
    match echo_id(frame) {
        Some(id) => Ok(Some(Text::from_slice(alloc, id)?)),
        None => Ok(None),
    }
}

/// The reply to a frame that binds to no request.
pub(crate) fn refusal_of(alloc: Global, frame: &Frame) -> Result<Reply, OutOfMemory>
    ensures { IfOk result (λ r. r ≡ spec.malformed (echo_of frame.now)) }
{
    let rqi = echo_of(alloc, frame)?;
    Ok(bare_reply(Rsc::BadRequest, rqi))
}

/// The identifier of the request to which a frame binds.
pub(crate) fn id_of<'f>(frame: &'f Frame, request: &Request) -> &'f [u8]
    requires { request_in frame.now ≡ Some request.now }
    ensures id { request.now.rqi ≡ result.now }
    ensures text { IsUtf8 result.now }
{
    let Some(id) = echo_id(frame) else {
        unreachable!()
    };
    id
}

/// Says the last reply of a connection on which no frame can stand, and tells the connection.
pub(crate) fn push_last_reply<X: ReplyObserver>(
    alloc: Global,
    conn: &X,
    waiting: &mut Vec<u8>,
    room: &mut ReplyRoom,
) -> Result<(), OutOfMemory>
    ensures ok { OnOk result (waiting.new.items ≡ waiting.old.items ++ last_reply) }
    ensures err { OnErr result (waiting.new.items ≡ waiting.old.items) }
{
    let from = waiting.len();
    let reply = bare_reply(Rsc::BadRequest, None);
    push_reply_text(alloc, &reply, true, room, waiting)?;
    conn.refused(&reply, &waiting[from..]);
    Ok(())
}

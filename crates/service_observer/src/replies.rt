//! Replies that were written.
use http_frames::Frame;
use http_target::BindFault;
use m2m_io::MemConn;
use m2m_names::Rsc;
use primitive_json::Reply;

/// What is told of the replies of its connection.
pub trait ReplyObserver {
    /// The reply to a message was said, and these are its bytes, which wait to be written. Where
    /// the message is no request, this is why.
    fn replied(&self, frame: &Frame, fault: Option<&BindFault>, reply: &Reply, text: &[u8]);

    /// The last reply was said, as what was read can be no message, and these are its bytes.
    fn refused(&self, reply: &Reply, text: &[u8]);

    /// The reply to a payload was said, in a talk of messages of JSON alone. This is its status.
    fn answered(&self, payload: &[u8], rsc: Rsc);
}

impl ReplyObserver for MemConn {
    fn replied(&self, _: &Frame, _: Option<&BindFault>, _: &Reply, _: &[u8]) {}

    fn refused(&self, _: &Reply, _: &[u8]) {}

    fn answered(&self, _: &[u8], _: Rsc) {}
}

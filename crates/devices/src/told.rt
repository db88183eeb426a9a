//! What a connection tells of the replies that were said on it.
use crate::clock::since_start;
use crate::conn::TcpConn;
use crate::printing::printable;
use crate::reasons::{
    Unread, payload_request, why_none, why_refused, why_refused_in, why_unbound, why_unread,
};
use crate::replies::{operation_of, originator_of, start_of, with_reason};
use http_frames::Frame;
use http_target::BindFault;
use m2m_names::Rsc;
use primitive_json::{Reply, Request};
use service_observer::ReplyObserver;
use std::alloc::{AllocError, Global};
use std::io::Eprint;
use std::str;
use std::sync::atomic::Ordering;
use std::time::{Clock, Duration};

/// What a line says of a reply.
#[derive(Clone, Copy, Debug)]
struct SaidReply {
    /// The status of HTTP; 0 where it has none.
    status: u16,
    /// How many bytes it has.
    length: usize,
    /// How many microseconds it took.
    micros: u64,
}

pub(crate) fn micros_of(time: Duration) -> u64 {
    time.as_secs()
        .saturating_mul(1_000_000)
        .saturating_add(time.subsec_micros() as u64)
}

/// How a message of HTTP begins, but for the digits of its status.
const HTTP_FRONT: &[u8] = b"HTTP/1.1 ";

/// The status of HTTP in what was written; 0 where it has none.
fn status_in(written: &[u8]) -> u16 {
    if !written.starts_with(HTTP_FRONT) {
        return 0;
    }
    match written
        .get(9..12)
        .and_then(|text| str::from_utf8(text).ok())
    {
        Some(text) => text.parse::<u16>().unwrap_or(0),
        None => 0,
    }
}

impl<R: Clock + Eprint + Copy> TcpConn<R> {
    /// What a line says of the reply with these bytes, on which the server worked until now.
    fn measure(&self, text: &[u8]) -> SaidReply {
        let now = micros_of(since_start(&self.log.runtime()));
        let busy = self.busy.swap(now, Ordering::SeqCst);
        SaidReply {
            status: status_in(text),
            length: text.len(),
            micros: now.saturating_sub(busy),
        }
    }

    /// The same of a message of JSON, which was put last.
    fn measure_put(&self) -> SaidReply {
        SaidReply {
            status: 0,
            length: self.put_length,
            micros: self.measure(b"").micros,
        }
    }

    /// Counts a reply by its status of HTTP.
    pub(crate) fn count_reply(&self, text: &[u8]) {
        if let Some(figures) = self.log.figures() {
            figures.reply(status_in(text) as u64 / 100);
        }
    }

    /// A reply with these bytes was said. It is counted here, and not once more where it is put.
    fn count_said(&self, text: &[u8]) {
        self.said.fetch_add(1, Ordering::SeqCst);
        self.count_reply(text);
    }

    /// What a line says of a message with this start, from this originator: the client, the
    /// originator, the start, and how it was answered: the status of HTTP and the code of oneM2M,
    /// the bytes of the reply, and the time that it took.
    fn line_of(
        &self,
        originator: &str,
        start: &str,
        rsc: Rsc,
        said: SaidReply,
    ) -> Result<String, AllocError> {
        let alloc = self.log.allocator();
        let peer = &self.peer;
        let SaidReply {
            status,
            length,
            micros,
        } = said;
        let code = rsc.number();
        let status = match status {
            0 => String::from_str(alloc, "-")?,
            status => format!(in alloc; "{status}")?,
        };
        let status = status.as_str();
        format!(in alloc; "{peer} {originator} {start} {status} {code} {length}B {micros}us")
    }

    /// A line for the reply to a message, which says why the message is no request, or why the
    /// request was refused.
    fn line_for(
        &self,
        frame: &Frame,
        fault: Option<&BindFault>,
        reply: &Reply,
        said: SaidReply,
    ) -> Result<String, AllocError> {
        let alloc = self.log.allocator();
        let originator = originator_of(alloc, frame)?;
        let start = start_of(alloc, frame)?;
        let rsc = reply.parts().rsc;
        let line = self.line_of(originator.as_str(), start.as_str(), rsc, said)?;
        let why = match fault {
            Some(fault) => why_unbound(alloc, fault)?,
            None => why_refused(alloc, self.log.home(), frame, rsc)?,
        };
        with_reason(alloc, line, why)
    }

    /// A line for the reply to a payload of a talk, by the request that it is. It says why that was
    /// refused, or why the payload is none, and what it was.
    fn line_for_payload(
        &self,
        payload: &[u8],
        request: Result<Request, Unread>,
        rsc: Rsc,
        said: SaidReply,
    ) -> Result<String, AllocError> {
        let alloc = self.log.allocator();
        let request = match request {
            Ok(request) => request,
            Err(fault) => return self.line_for_unread(payload, &fault, rsc, said),
        };
        let parts = request.parts();
        let originator = match &parts.fr {
            Some(fr) => printable(alloc, fr.entries())?,
            None => printable(alloc, b"")?,
        };
        let target = printable(alloc, parts.to.entries())?;
        let (operation, target) = (operation_of(parts.op), target.as_str());
        let start = format!(in alloc; "{operation} {target}")?;
        let line = self.line_of(originator.as_str(), start.as_str(), rsc, said)?;
        let why = why_refused_in(alloc, self.log.home(), request, rsc)?;
        with_reason(alloc, line, why)
    }

    /// A line for the reply to a payload that is no request.
    fn line_for_unread(
        &self,
        payload: &[u8],
        fault: &Unread,
        rsc: Rsc,
        said: SaidReply,
    ) -> Result<String, AllocError> {
        let alloc = self.log.allocator();
        let why = why_unread(alloc, fault)?;
        let heard = printable(alloc, payload)?;
        let line = self.line_of("-", "- -", rsc, said)?;
        let (line, why, heard) = (line.as_str(), why.as_str(), heard.as_str());
        format!(in alloc; "{line} no request, {why}: {heard}")
    }

    /// A line for the reply to what is no message. It says what was read since the last reply.
    fn line_for_none(&self, reply: &Reply, said: SaidReply) -> Result<String, AllocError> {
        let alloc = self.log.allocator();
        let heard = printable(alloc, &self.heard)?;
        let line = self.line_of("-", "- -", reply.parts().rsc, said)?;
        let why = why_none(&self.heard);
        let (line, heard) = (line.as_str(), heard.as_str());
        format!(in alloc; "{line} {why}: {heard}")
    }
}

impl<R: Clock + Eprint + Copy> ReplyObserver for TcpConn<R> {
    fn replied(&self, frame: &Frame, fault: Option<&BindFault>, reply: &Reply, text: &[u8]) {
        self.boundary.answer(frame);
        self.count_said(text);
        if self.log.has_requests()
            && let Ok(line) = self.line_for(frame, fault, reply, self.measure(text))
        {
            self.log.tell(line.as_str());
        }
    }

    fn refused(&self, reply: &Reply, text: &[u8]) {
        self.count_said(text);
        if self.log.has_requests()
            && let Ok(line) = self.line_for_none(reply, self.measure(text))
        {
            self.log.tell(line.as_str());
        }
    }

    fn answered(&self, payload: &[u8], rsc: Rsc) {
        self.answered.fetch_add(1, Ordering::SeqCst);
        if let Some(figures) = self.log.figures() {
            figures.reply(rsc.number() as u64 / 1_000);
        }
        if self.log.has_requests() {
            let request = payload_request(self.log.allocator(), payload);
            let said = self.measure_put();
            if let Ok(line) = self.line_for_payload(payload, request, rsc, said) {
                self.log.tell(line.as_str());
            }
        }
    }
}

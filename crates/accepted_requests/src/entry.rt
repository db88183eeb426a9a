//! A request that was accepted.
ghost use Rattle.std.specs.Prelude.{◌≡◌, nat_lt, IfOk, unwrap_or};
ghost use Rattle.accepted_requests.specs.Entries as spec;
ghost use Rattle.accepted_requests.specs.Sizes.{content_size, most_kept};

use entity_model::refuse;
use m2m_names::{LAST_MOMENT, Op, Rsc};
use m2m_value::Text;
use primitive_json::{Reply, Request, RequestParts};
use std::alloc::{AllocError as OutOfMemory, Global};
use std::marker::Model;
use std::mem::replace;

/// For how long an accepted request is kept, in seconds.
const ENTRY_TIME: u64 = 86400;

/// Where more bytes of results are kept than these, no more is run.
const MOST_KEPT: u64 = 67_108_864;

/// A request that was accepted, and its reply once it was run. Contracts see it as what is kept of
/// it (`LaterEntryData` of specs/Entries).
#[derive(Drop)]
pub struct LaterEntry {
    number: u64,
    originator: Text,
    accepted: u64,
    // What is asked when it is run.
    request: Request,
    has_run: bool,
    // Its reply; before it was run, the one for which memory runs out.
    reply: Reply,
    // The bytes of the content of that reply.
    size: u64,
}

impl Model for LaterEntry {
    ghost use Rattle.accepted_requests.specs.Entries.{LaterEntryData};

    ghost Value = { LaterEntryData };

    ghost use Rattle.m2m_value.specs.Code.{data_code};
    ghost use Rattle.std.specs.Coded.{codes};

    ghost coded = { Prim.hlevel (codes, data_code) };

    ghost use Rattle.accepted_requests.specs.Kept.{IsKeptReady, reply_kept};

    ghost view = { λ e. record {
      number = e.number;
      originator = e.originator;
      request = e.request;
      accepted = e.accepted;
      reply = reply_kept e.has_run e.reply;
    } };

    ghost invariant = { λ e. IsKeptReady e.originator e.accepted e.request e.has_run e.reply e.size };
}

// The request as it is run: with nothing said of how its reply is wanted.
fn as_run(alloc: Global, request: &Request) -> Result<Request, OutOfMemory>
    ensures { IfOk result (λ r. r ≡ spec.as_run request.now) }
{
    let mut parts = request.copy(alloc)?.into_parts();
    parts.rt = None;
    Ok(Request::of(parts))
}

// No request: nothing is asked.
fn no_request(alloc: Global) -> Request
    ensures { result ≡ spec.no_request }
{
    Request::of(RequestParts {
        op: Op::Retrieve,
        to: Text::of(Vec::new(alloc)),
        fr: None,
        rqi: Text::of(Vec::new(alloc)),
        ty: None,
        pc: None,
        rqet: None,
        rt: None,
        rcn: None,
        fc: None,
        drt: None,
    })
}

// The bytes of the content of a reply.
fn content_size(reply: &Reply) -> u64
    ensures { result ≡ content_size reply.now }
{
    match &reply.parts().pc {
        Some(content) => content.size(),
        None => 0,
    }
}

/// Whether results of so many bytes leave no room for one more.
pub fn leave_no_room(kept: u64) -> bool
    ensures { result ≡ nat_lt most_kept kept }
{
    kept > MOST_KEPT
}

// The reply is the one that is told, where one is.
fn put(kept: &mut Reply, told: Option<Reply>)
    ensures { kept.new ≡ unwrap_or told kept.old }
{
    match told {
        Some(reply) => *kept = reply,
        None => {}
    }
}

impl LaterEntry {
    ghost use Rattle.std.specs.Prelude.{◌≡◌, ◌==◌, ◌&&◌, ◌||◌, nat_lt, true, false, IfOk, IsTrue};
    ghost use Rattle.std.specs.Prelude.{IsUtf8, option_map};
    ghost use Rattle.filter_criteria.specs.Bounds.{IsMoment};
    ghost use Rattle.m2m_names.specs.Name as names;
    ghost use Rattle.accepted_requests.specs.Entries as spec;
    ghost use Rattle.accepted_requests.specs.Sizes.{result_size};

    /// The request of an originator, in the short form, accepted under a number at a moment.
    pub fn accept(
        alloc: Global,
        number: u64,
        originator: &[u8],
        request: &Request,
        moment: u64,
    ) -> Result<LaterEntry, OutOfMemory>
        requires originator { IsTrue (names.is_originator originator.now) }
        requires moment { IsMoment moment }
        ensures { IfOk result (λ e. e
            ≡ spec.accepted_entry number originator.now request.now moment) }
    {
        let who = Text::from_slice(alloc, originator)?;
        let asked = as_run(alloc, request)?;
        let reply = refuse(alloc, request, Rsc::Internal)?;
        Ok(LaterEntry {
            number,
            originator: who,
            accepted: moment,
            request: asked,
            has_run: false,
            reply,
            size: 0,
        })
    }

    /// Whether it has this number.
    pub fn is_numbered(&self, number: u64) -> bool
        ensures { result ≡ (self.now.number == number) }
    {
        self.number == number
    }

    /// Whether it wasn't run yet.
    pub fn waits(&self) -> bool
        ensures { result ≡ spec.does_wait self.now }
    {
        !self.has_run
    }

    /// Whether it is run by an event at this moment, or by one that runs whatever waits.
    pub fn is_to_run(&self, moment: u64, runs_all: bool) -> bool
        ensures { result
            ≡ spec.does_wait self.now && (runs_all || nat_lt self.now.accepted moment) }
    {
        self.waits() && (runs_all || self.accepted < moment)
    }

    /// The moment at which it is due.
    pub fn due(&self) -> u64
        ensures value { result ≡ spec.due_of self.now }
        ensures moment { IsMoment result }
    {
        self.accepted.min(LAST_MOMENT - ENTRY_TIME) + ENTRY_TIME
    }

    /// Whether it isn't due at a moment.
    pub fn stands(&self, moment: u64) -> bool
        ensures { result ≡ spec.still_stands moment self.now }
    {
        moment < self.due()
    }

    /// Its number.
    pub fn number(&self) -> u64
        ensures { result ≡ self.now.number }
    {
        self.number
    }

    /// The moment of its acceptance.
    pub fn accepted(&self) -> u64
        ensures value { result ≡ self.now.accepted }
        ensures moment { IsMoment result }
    {
        self.accepted
    }

    /// Its originator, in the short form.
    pub fn originator(&self) -> &Text
        ensures value { result.now ≡ self.now.originator }
        ensures utf8 { IsUtf8 result.now }
    {
        &self.originator
    }

    /// The request as it is run.
    pub fn request(&self) -> &Request
        ensures { result.now ≡ self.now.request }
    {
        &self.request
    }

    /// Its reply, once it was run.
    pub fn reply(&self) -> Option<&Reply>
        ensures { option_map (λ r. r.now) result ≡ self.now.reply }
    {
        if self.has_run {
            Some(&self.reply)
        } else {
            None
        }
    }

    /// The bytes of its result, once it was run: those of the content of its reply.
    pub fn result_size(&self) -> u64
        ensures { result ≡ result_size self.now }
    {
        self.size
    }

    /// Begins its run: gives the request that is to be asked. Until the run is finished, the reply
    /// is the one for which memory runs out.
    pub fn begin(&mut self, alloc: Global) -> Request
        requires { spec.does_wait self.old ≡ true }
        ensures request { result ≡ self.old.request }
        ensures begun { self.new ≡ spec.begun self.old }
    {
        self.has_run = true;
        replace(&mut self.request, no_request(alloc))
    }

    /// Finishes its run: the request is back, and the reply is this one, where one is given.
    pub fn finish(&mut self, request: Request, told: Option<Reply>)
        requires { spec.does_wait self.old ≡ false }
        ensures { self.new ≡ spec.finished self.old request told }
    {
        self.request = request;
        put(&mut self.reply, told);
        self.size = content_size(&self.reply);
    }
}

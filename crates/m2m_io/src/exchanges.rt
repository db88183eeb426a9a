//! The exchanges of a link, as it tells them.
ghost use Rattle.std.specs.Prelude.{◌≡◌, ◌++◌, ◌∷◌, [], IfOk, IsNone, None, OnErr, OnOk, Some};
ghost use Rattle.std.specs.Option.{option_map};
ghost use Rattle.m2m_io.specs.Link.{TellsExchange, told_behind};

use std::alloc::{AllocError, Global};
use std::marker::Model;

/// One exchange that a link has made.
#[derive(Debug, Drop)]
pub struct Exchanged {
    host: Vec<u8>,
    request: Vec<u8>,
    answer: Option<Vec<u8>>,
}

impl Model for Exchanged {
    ghost use Rattle.std.specs.Option.{option_map};
    ghost use Rattle.m2m_io.specs.Link.{Exchange};

    ghost Value = { Exchange };

    ghost view = { λ e. record {
      host = e.host.items;
      request = e.request.items;
      answer = option_map (λ a. a.items) e.answer;
    } };
}

impl Exchanged {
    fn new(
        alloc: Global,
        host: &[u8],
        request: &[u8],
        answer: Option<&[u8]>,
    ) -> Result<Exchanged, AllocError>
        ensures { IfOk result (λ e. e ≡ record {
          host = host.now;
          request = request.now;
          answer = option_map (λ a. a.now) answer.entry;
        }) }
    {
        let host = Vec::from_slice(alloc, host)?;
        let request = Vec::from_slice(alloc, request)?;
        let answer = match answer {
            None => None,
            Some(bytes) => Some(Vec::from_slice(alloc, bytes)?),
        };
        Ok(Exchanged {
            host,
            request,
            answer,
        })
    }

    /// The host that was asked, as it was named: with its port or without.
    pub fn host(&self) -> &[u8]
        ensures { result.now ≡ self.now.host }
    {
        &self.host
    }

    /// The bytes of the request.
    pub fn request(&self) -> &[u8]
        ensures { result.now ≡ self.now.request }
    {
        &self.request
    }

    /// The bytes of the answer, or `None` where the exchange failed.
    pub fn answer(&self) -> Option<&[u8]>
        ensures { option_map (λ a. a.now) result ≡ self.now.answer }
    {
        match &self.answer {
            None => None,
            Some(bytes) => Some(bytes),
        }
    }
}

/// The exchanges of a link, in order. They are told until memory runs out in telling one of them.
#[derive(Debug, Drop)]
pub struct Exchanges {
    list: Option<Vec<Exchanged>>,
}

impl Model for Exchanges {
    ghost use Rattle.std.specs.Prelude.{List, Option};
    ghost use Rattle.std.specs.Option.{option_map};
    ghost use Rattle.m2m_io.specs.Link.{Exchange};

    ghost Value = { Option (List Exchange) };

    ghost view = { λ e. option_map (λ t. t.items) e.list };
}

fn keep(
    alloc: Global,
    list: &mut Vec<Exchanged>,
    host: &[u8],
    request: &[u8],
    answer: Option<&[u8]>,
) -> Result<(), AllocError>
    ensures { OnOk result (list.new.items ≡ list.old.items ++ record {
      host = host.now;
      request = request.now;
      answer = option_map (λ a. a.now) answer.entry;
    } ∷ []) }
{
    let exchanged = Exchanged::new(alloc, host, request, answer)?;
    list.push(exchanged)?;
    Ok(())
}

impl Exchanges {
    /// No exchange was made yet.
    pub fn new(alloc: Global) -> Exchanges
        ensures { result ≡ Some [] }
    {
        Exchanges {
            list: Some(Vec::new(alloc)),
        }
    }

    /// Those made so far, in order, or `None` where they aren't told any more.
    pub fn list(&self) -> Option<&[Exchanged]>
        ensures { option_map (λ t. t.now) result ≡ self.now }
    {
        match &self.list {
            None => None,
            Some(list) => Some(list),
        }
    }

    /// Tells none of them any more.
    pub fn hush(&mut self)
        ensures { self.new ≡ None }
    {
        self.list = None;
    }

    /// Tells one more exchange behind the others, if any are told. After want of memory none are.
    fn tell(
        &mut self,
        alloc: Global,
        host: &[u8],
        request: &[u8],
        answer: Option<&[u8]>,
    ) -> Result<(), AllocError>
        ensures ok { OnOk result (self.new ≡ told_behind self.old (record {
          host = host.now;
          request = request.now;
          answer = option_map (λ a. a.now) answer.entry;
        })) }
        ensures err { OnErr result (IsNone self.new) }
    {
        let Some(list) = &mut self.list else {
            return Ok(());
        };
        match keep(alloc, list, host, request, answer) {
            Ok(()) => Ok(()),
            Err(e) => {
                self.list = None;
                Err(e)
            }
        }
    }

    /// Tells an exchange that failed. After want of memory none is told any more.
    pub fn tell_failure(
        &mut self,
        alloc: Global,
        host: &[u8],
        request: &[u8],
    ) -> Result<(), AllocError>
        ensures ok { OnOk result (self.new ≡ told_behind self.old
            (record { host = host.now; request = request.now; answer = None })) }
        ensures err { OnErr result (IsNone self.new) }
        ensures tells { TellsExchange self.old self.new
            (record { host = host.now; request = request.now; answer = None }) }
    {
        self.tell(alloc, host, request, None)
    }

    /// Appends an answer to the reply, and tells the exchange. After want of memory the reply is as
    /// it was, and nothing is told any more.
    pub fn hand_over(
        &mut self,
        alloc: Global,
        host: &[u8],
        request: &[u8],
        answer: &[u8],
        reply: &mut Vec<u8>,
    ) -> Result<(), AllocError>
        ensures told { OnOk result (self.new ≡ told_behind self.old
            (record { host = host.now; request = request.now; answer = Some answer.now })) }
        ensures reply { OnOk result (reply.new.items ≡ reply.old.items ++ answer.now) }
        ensures err { OnErr result (reply.new.items ≡ reply.old.items) }
        ensures memory { OnErr result (IsNone self.new) }
    {
        let start = reply.len();
        if let Err(e) = reply.extend_from_slice(answer) {
            self.list = None;
            return Err(e);
        }
        if let Err(e) = self.tell(alloc, host, request, Some(answer)) {
            reply.truncate(start);
            return Err(e);
        }
        Ok(())
    }
}

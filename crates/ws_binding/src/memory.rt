//! A talker in memory.
ghost use Rattle.std.specs.Prelude.{◌≡◌, [], map, Some};
ghost use Rattle.m2m_io.specs.Counts.{no_calls};

use crate::talker::{Got, TalkFault, Talker};
use m2m_io::Calls;
use m2m_names::Rsc;
use m2m_value::Text;
use std::alloc::Global;
use std::collections::VecDeque;
use std::marker::Model;

/// A talker in memory: the payloads that are to come, those that were said, and which calls fail.
/// Calls of both kinds are numbered together, from 1.
#[derive(Debug, Drop)]
pub struct MemTalker {
    alloc: Global,
    payloads: VecDeque<Text>,
    said: Vec<Text>,
    calls: Calls,
}

impl Model for MemTalker {
    ghost use Rattle.ws_binding.specs.Memory.{TalkerData};

    ghost Value = { TalkerData };

    ghost view = { λ t. record {
      to_come = t.payloads.items;
      said = t.said.items;
      calls = t.calls;
    } };
}

impl MemTalker {
    /// A talker with these payloads to come, whose calls of these numbers, from 1, fail. Takes no
    /// memory.
    pub fn new(payloads: Vec<Text>, fails: Vec<u64>) -> Self
        ensures to_come { result.to_come ≡ payloads.items }
        ensures said { result.said ≡ [] }
        ensures calls { result.calls ≡ no_calls fails.items }
    {
        let alloc = *payloads.allocator();
        MemTalker {
            alloc,
            payloads: VecDeque::from_vec(payloads),
            said: Vec::new(alloc),
            calls: Calls::new(fails),
        }
    }

    /// The payloads that were said.
    pub fn said(&self) -> &[Text]
        ensures { result.now ≡ self.now.said }
    {
        &self.said
    }
}

impl Talker for MemTalker {
    ghost to_come = { λ t. Some t.to_come };

    ghost said = { λ t. Some t.said };

    ghost faults = { λ t. t.calls.faults };

    fn receive(&mut self) -> Result<Got, TalkFault> {
        if self.calls.is_next_to_fail() {
            self.calls.count_fault();
            return Err(TalkFault::Failed);
        }
        self.calls.count();
        match self.payloads.pop_front() {
            Some(payload) => Ok(Got::Payload(payload)),
            None => Ok(Got::End),
        }
    }

    fn say(&mut self, payload: &[u8]) -> Result<(), TalkFault> {
        if self.calls.is_next_to_fail() {
            self.calls.count_fault();
            return Err(TalkFault::Failed);
        }
        self.calls.count();
        let payload = Text::from_slice(self.alloc, payload)?;
        match self.said.push(payload) {
            Ok(()) => Ok(()),
            Err(_) => Err(TalkFault::OutOfMemory),
        }
    }

    fn answered(&self, _: &[u8], _: Rsc) {}
}

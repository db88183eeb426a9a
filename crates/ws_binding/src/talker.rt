//! What gives payloads and takes replies.
ghost use Rattle.std.specs.Prelude.{◌≡◌, ◌∷◌, [], ℕ, List, Option, OnOk, OnErr};
ghost use Rattle.m2m_io.specs.Counts.{CountsFault};
ghost use Rattle.m2m_io.specs.Told.{TellsStill};
ghost use Rattle.ws_binding.specs.Talker.{MaySay, Receives, SaysAll};
ghost use Rattle.ws_binding.specs.declared.talker.TalkFault.TheVariants.{Failed as failed};

use m2m_names::Rsc;
use m2m_value::Text;
use std::alloc::AllocError as OutOfMemory;

/// What a talker received.
#[derive(Debug, Drop)]
pub enum Got {
    Payload(Text),
    /// No payload comes any more.
    End,
}

/// Why a call of a talker failed.
#[derive(Clone, Copy, Debug, PartialEq, Eq)]
pub enum TalkFault {
    /// The talker failed: its count of faults rose in the call.
    Failed,
    OutOfMemory,
}

impl From<OutOfMemory> for TalkFault {
    ghost use Rattle.ws_binding.specs.declared.talker.TalkFault.{TalkFault};

    ghost from_gives = { λ _ e. e ≡ TalkFault.OutOfMemory };

    fn from(_: OutOfMemory) -> Self {
        TalkFault::OutOfMemory
    }
}

/// A talk with one peer: payloads that come, one after another, and payloads that are said.
pub trait Talker {
    /// The payloads that are to come, where the talker tells them.
    ghost to_come: { Self → Option (List (List ℕ)) };

    /// The payloads that were said, where the talker tells them.
    ghost said: { Self → Option (List (List ℕ)) };

    /// How often the talker has failed: the count rises in the calls that fail, and in no other. It
    /// stops at 2^64 - 1.
    ghost faults: { Self → ℕ };

    /// Takes the next payload. Where the call failed, none was taken.
    fn receive(&mut self) -> Result<Got, TalkFault>
        ensures given { Receives (to_come self.old) (to_come self.new) result }
        ensures kept { TellsStill (said self.old) (said self.new) }
        ensures faults { CountsFault failed result (faults self.old) (faults self.new) };

    /// Says a payload. Where the call failed, it was said or not.
    fn say(&mut self, payload: &[u8]) -> Result<(), TalkFault>
        ensures ok { OnOk result (SaysAll (payload.now ∷ []) (said self.old) (said self.new)) }
        ensures err { OnErr result (MaySay payload.now (said self.old) (said self.new)) }
        ensures kept { TellsStill (to_come self.old) (to_come self.new) }
        ensures faults { CountsFault failed result (faults self.old) (faults self.new) };

    /// Is told that the reply to a payload was said, and its status, for whoever writes that down.
    fn answered(&self, payload: &[u8], rsc: Rsc);
}

//! What the requests were answered, counted.
ghost use Rattle.std.specs.Prelude.{◌≡◌, ◌+◌, ◌-◌, ◌<◌, ◌^◌, ℕ, bytes_eq, cond};
ghost use Rattle.turn_desk.specs.Entries.{entry_of};
ghost use Rattle.made_input.specs.Counts as spec;
ghost use Rattle.made_input.specs.Making.{HasRoom};
ghost use Rattle.made_input.specs.Requests.{fan_point};

use crate::requests::FAN_POINT;
use cse_machine::{Event, Outcome};
use m2m_names::Rsc;
use primitive_json::{Request, retrieves};

/// How many requests were answered how.
#[derive(Clone, Copy)]
pub(crate) struct Tally {
    /// The Creates whose resource was made.
    pub(crate) created: u64,
    /// The Retrieves that were answered.
    pub(crate) retrieved: u64,
    /// The fan-outs that were answered.
    pub(crate) fanned: u64,
    /// All others.
    pub(crate) refused: u64,
}

/// No request yet.
pub(crate) const NONE: Tally = Tally {
    created: 0,
    retrieved: 0,
    fanned: 0,
    refused: 0,
};

// The outcome is a reply with this status code.
fn gives(rsc: Rsc, outcome: &Outcome) -> bool
    ensures { result ≡ spec.gives rsc outcome.now }
{
    match outcome {
        Outcome::Done(reply) => reply.parts().rsc.number() == rsc.number(),
        _ => false,
    }
}

// The request is a Retrieve.
fn reads(event: &Event) -> bool
    ensures { result ≡ spec.reads event.now }
{
    match event {
        Event::Ask(request) => retrieves(request.parts().op),
        _ => false,
    }
}

fn is_to_fan_point(request: &Request) -> bool
    ensures { result ≡ bytes_eq request.now.to fan_point }
{
    request.parts().to.entries() == FAN_POINT.as_bytes()
}

// The request is sent to the fan-out point.
fn fans_out(event: &Event) -> bool
    ensures { result ≡ spec.fans_out event.now }
{
    match event {
        Event::Ask(request) => is_to_fan_point(request),
        _ => false,
    }
}

// One more, where it is one.
fn more(count: u64, is_one: bool) -> u64
    requires { count < 2 ^ 64 - 1 }
    ensures { result ≡ count + cond is_one 1 0 }
{
    if is_one { count + 1 } else { count }
}

impl Tally {
    /// The counts with one request more, which had this outcome.
    pub(crate) fn with(self, event: &Event, outcome: &Outcome) -> Tally
        requires { HasRoom self }
        ensures { (reading : ℕ) → result
            ≡ spec.with_one self (entry_of reading event.now outcome.now) }
    {
        let created = gives(Rsc::Created, outcome);
        let fine = gives(Rsc::Ok, outcome);
        let retrieved = reads(event) && fine;
        let fanned = fans_out(event) && fine;
        Tally {
            created: more(self.created, created),
            retrieved: more(self.retrieved, retrieved),
            fanned: more(self.fanned, fanned),
            refused: more(self.refused, !(created || retrieved || fanned)),
        }
    }
}

//! What came of an event, as it is handed on.
ghost use Rattle.std.specs.Prelude.{◌≡◌, IfSome};
ghost use Rattle.cse_machine.specs.declared.event.Outcome.TheVariants.{Done, Starved};
ghost use Rattle.journal_events.specs.Came.{machine_outcome};
ghost use Rattle.journal_events.specs.declared.event.KeptOutcome.TheVariants.{OfMachine, Taken};

use crate::KeptOutcome;
use cse_machine::Outcome;
use primitive_json::Reply;
use std::alloc::Global;
use std::marker::Model;

/// What came of an event of an entity that is kept. Most that comes is a reply, which stands here
/// itself. What has more parts stands in a box, so that this has few bytes: it is handed from layer
/// to layer. Clauses see it as what came.
#[derive(Drop)]
pub struct Came {
    form: CameForm,
}

/// How what came is held.
#[derive(Drop)]
pub(crate) enum CameForm {
    Replied(Reply),
    Starved(u32),
    Ticked,
    NoneLeft,
    Taken,
    Boxed(Box<KeptOutcome>),
}

impl Model for Came {
    ghost use Rattle.journal_events.specs.declared.event.KeptOutcome.{KeptOutcome};
    ghost use Rattle.m2m_value.specs.Code.{data_code};
    ghost use Rattle.std.specs.Coded.{codes};
    ghost use Rattle.journal_events.specs.Came.{came_of};

    ghost Value = { KeptOutcome };

    ghost coded = { Prim.hlevel (codes, data_code) };

    ghost view = { λ c. came_of c.form };
}

// What has more parts than a reply, in a box. It stands apart, so that these parts are looked at
// here alone.
#[inline(never)]
fn boxed(alloc: Global, outcome: KeptOutcome) -> Option<Came>
    ensures { IfSome result (λ came. came ≡ outcome) }
{
    match Box::new(alloc, outcome) {
        Ok(kept) => Some(Came {
            form: CameForm::Boxed(kept),
        }),
        Err(_) => None,
    }
}

#[inline(never)]
fn boxed_outcome(alloc: Global, outcome: Outcome) -> Option<Came>
    ensures { IfSome result (λ came. came ≡ OfMachine outcome) }
{
    boxed(alloc, KeptOutcome::OfMachine(outcome))
}

// The outcome of the machine that stands in a box.
#[inline(never)]
fn outcome_in(kept: Box<KeptOutcome>) -> Outcome
    ensures { result ≡ machine_outcome kept.value }
{
    match Box::into_inner(kept) {
        KeptOutcome::OfMachine(outcome) => outcome,
        KeptOutcome::Next(_) | KeptOutcome::Taken => Outcome::Starved { done: 0 },
    }
}

impl Came {
    /// That memory ran out when so many members of a fan-out had been served.
    pub fn starved(done: u32) -> Came
        ensures { result ≡ OfMachine (Starved done) }
    {
        Came {
            form: CameForm::Starved(done),
        }
    }

    /// That the item that was sent isn't the next one any more.
    pub fn taken() -> Came
        ensures { result ≡ Taken }
    {
        Came {
            form: CameForm::Taken,
        }
    }

    /// The reply to a request.
    #[inline(always)]
    pub fn of_reply(reply: Reply) -> Came
        ensures { result ≡ OfMachine (Done reply) }
    {
        Came {
            form: CameForm::Replied(reply),
        }
    }

    /// What came of an event of the machine. Only what has more parts than a reply takes memory;
    /// None where that ran out.
    pub fn of_machine(alloc: Global, outcome: Outcome) -> Option<Came>
        ensures { IfSome result (λ came. came ≡ OfMachine outcome) }
    {
        match outcome {
            Outcome::Done(reply) => Some(Came::of_reply(reply)),
            Outcome::Starved { done } => Some(Came::starved(done)),
            Outcome::Ticked => Some(Came {
                form: CameForm::Ticked,
            }),
            _ => boxed_outcome(alloc, outcome),
        }
    }

    /// What came of an event. Only what has more parts than a reply takes memory; None where that
    /// ran out.
    pub fn of_outcome(alloc: Global, outcome: KeptOutcome) -> Option<Came>
        ensures { IfSome result (λ came. came ≡ outcome) }
    {
        match outcome {
            KeptOutcome::OfMachine(came) => Came::of_machine(alloc, came),
            KeptOutcome::Next(None) => Some(Came {
                form: CameForm::NoneLeft,
            }),
            KeptOutcome::Next(item) => boxed(alloc, KeptOutcome::Next(item)),
            KeptOutcome::Taken => Some(Came::taken()),
        }
    }

    /// What came, to be taken apart.
    pub fn into_outcome(self) -> KeptOutcome
        ensures { result ≡ self }
    {
        match self.form {
            CameForm::Replied(reply) => KeptOutcome::OfMachine(Outcome::Done(reply)),
            CameForm::Starved(done) => KeptOutcome::OfMachine(Outcome::Starved { done }),
            CameForm::Ticked => KeptOutcome::OfMachine(Outcome::Ticked),
            CameForm::NoneLeft => KeptOutcome::Next(None),
            CameForm::Taken => KeptOutcome::Taken,
            CameForm::Boxed(kept) => Box::into_inner(kept),
        }
    }

    /// The outcome of the machine; or that memory ran out, where no event of it was asked.
    #[inline(always)]
    pub fn into_machine_outcome(self) -> Outcome
        ensures { result ≡ machine_outcome self }
    {
        match self.form {
            // It returns here, so that a reply isn't moved through the room of a whole outcome.
            CameForm::Replied(reply) => return Outcome::Done(reply),
            CameForm::Starved(done) => Outcome::Starved { done },
            CameForm::Ticked => Outcome::Ticked,
            CameForm::NoneLeft | CameForm::Taken => Outcome::Starved { done: 0 },
            CameForm::Boxed(kept) => outcome_in(kept),
        }
    }
}

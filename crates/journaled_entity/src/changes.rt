//! Which events may change more than an expiry does.
ghost use Rattle.std.specs.Prelude.{◌≡◌};
ghost use Rattle.m2m_names.specs.StatusCodes as status;
ghost use Rattle.journaled_entity.specs.Changes as spec;

use cse_machine::{Event, ObservedStep, Outcome};
use m2m_names::Rsc;
use primitive_json::{Request, retrieves};

/// Whether memory ran out when members of a fan-out had been served.
pub(crate) fn is_cut_short(outcome: &Outcome) -> bool
    ensures { result ≡ spec.is_cut_short outcome.now }
{
    match outcome {
        Outcome::Starved { done } => *done > 0,
        _ => false,
    }
}

/// Whether the status says that a request was served.
fn is_success(rsc: Rsc) -> bool
    ensures { result ≡ status.is_success rsc }
{
    let number = rsc.number();
    2000 <= number && number <= 2999
}

fn asking_may_change(request: &Request, observed: &ObservedStep) -> bool
    ensures { result
        ≡ spec.asking_may_change request.now observed.now.took observed.now.outcome }
{
    match &observed.outcome {
        Outcome::Done(reply) => {
            is_success(reply.parts().rsc) && (!retrieves(request.parts().op) || observed.took)
        }
        _ => false,
    }
}

/// Whether an event of which this was observed may have changed more than an expiry does.
pub fn may_change(event: &Event, observed: &ObservedStep) -> bool
    ensures { result ≡ spec.may_change_by event.now observed.now.took observed.now.outcome }
{
    match event {
        Event::Ask(request) => asking_may_change(request, observed),
        Event::Take => observed.took,
        Event::Tick => false,
    }
}

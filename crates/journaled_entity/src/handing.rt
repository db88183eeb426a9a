//! What came of an event, as it is handed on.
ghost use Rattle.std.specs.Prelude.{◌≡◌, IfSome};
ghost use Rattle.journaled_entity.specs.Handing as spec;

use crate::changes::is_cut_short;
use cse_machine::{ObservedStep, Outcome};
use journal_events::{Came, KeptOutcome};
use notify_outbox::Item;
use std::alloc::Global;

/// Whether the request goes on to another CSE.
fn goes_on(outcome: &Outcome) -> bool
    ensures { result ≡ spec.goes_on outcome.now }
{
    matches!(outcome, Outcome::Forward { .. })
}

/// What came of an event of the machine, to be handed on. A request that goes on is answered as one
/// for which memory ran out, where it runs out here. None where it does for an item that was taken.
#[inline(never)]
fn hand_outcome_on(alloc: Global, outcome: Outcome) -> Option<Came>
    ensures { IfSome result (spec.IsMachineHandedOn outcome) }
{
    let forwarded = goes_on(&outcome);
    match Came::of_machine(alloc, outcome) {
        Some(came) => Some(came),
        None => {
            if forwarded {
                Some(Came::starved(0))
            } else {
                None
            }
        }
    }
}

/// What came of a step that was observed, to be handed on as by `hand_outcome_on`. A reply is moved
/// alone here, and not the whole outcome, which has many more bytes.
#[inline(always)]
pub(crate) fn hand_observed_on(alloc: Global, observed: ObservedStep) -> Option<Came>
    ensures { IfSome result (spec.IsMachineHandedOn observed.outcome) }
{
    match observed.outcome {
        Outcome::Done(reply) => Some(Came::of_reply(reply)),
        other => hand_outcome_on(alloc, other),
    }
}

/// What came of a step that gave no reply, to be handed on as an outcome is. None where memory ran
/// out when members of a fan-out had been served.
#[inline(never)]
pub(crate) fn hand_unserved_on(alloc: Global, outcome: Outcome) -> Option<Came>
    ensures { IfSome result (spec.IsUncutHandedOn outcome) }
{
    if is_cut_short(&outcome) {
        return None;
    }
    hand_outcome_on(alloc, outcome)
}

/// The item that is sent next, to be handed on; or that memory ran out.
fn hand_item_on(alloc: Global, item: Option<Item>) -> Came
    ensures { spec.IsToldOrStarved (spec.next_told item) result }
{
    match Came::of_outcome(alloc, KeptOutcome::Next(item)) {
        Some(came) => came,
        None => Came::starved(0),
    }
}

/// What came of an event, to be handed on. Where memory runs out here, a request that goes on and
/// an item that is to be sent are answered as where it ran out before. None where it does for an
/// item that was taken.
pub fn hand_on(alloc: Global, told: KeptOutcome) -> Option<Came>
    ensures { IfSome result (spec.IsHandedOn told) }
{
    match told {
        KeptOutcome::OfMachine(outcome) => hand_outcome_on(alloc, outcome),
        KeptOutcome::Next(item) => Some(hand_item_on(alloc, item)),
        KeptOutcome::Taken => Some(Came::taken()),
    }
}

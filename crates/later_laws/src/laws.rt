//! The laws of a CSE that answers later.
ghost use Rattle.later_laws.specs.Laws.{AcceptanceAloneAdds, EventsComeTo, GoesWhenDueOrByOwn};
ghost use Rattle.later_laws.specs.Laws.{InnerEntriesAreSteps, InnerStepsAreGuarded};
ghost use Rattle.later_laws.specs.Laws.{KeptResultsAreOfRuns, LaterHistoriesAreLegal};
ghost use Rattle.later_laws.specs.Laws.{LaterStaysSound, OpensSound, OthersAreRefused};
ghost use Rattle.later_laws.specs.Laws.{OwnAloneIsShown, ResultsAreRepliesOfRuns, RunsOnce};
ghost use Rattle.later_laws.specs.Laws.{RunsRise, WhatIsAcceptableIsAccepted};
ghost use Rattle.later_laws.specs.Laws.{WhatIsNotRunStays, WhatWaitsIsRun};
ghost use Rattle.later_laws.specs.Once.{AcceptedAreDoneOnce, StaysUntilItGoes};
ghost use Rattle.later_laws.specs.Sizes.{OpensWithin, ResultsStayWithin};
ghost use Rattle.later_laws.specs.Sights.{EqualSightsAnswerAlikeLater, EqualSightsStayAlikeLater};

/// After every list of events the entity inside is left by a legal history of the machine, which
/// consists, event by event, of the runs of accepted requests and then of the event itself. So each
/// of these is a step of a sound entity, and guarded: a run for the originator of the accepted
/// request.
pub fn the_entity_inside_has_a_legal_history()
    ensures legal { LaterHistoriesAreLegal }
    ensures steps { InnerEntriesAreSteps }
    ensures guarded { InnerStepsAreGuarded }
{}

/// A CSE that answers later is sound after every list of events: its numbers rise and are never
/// given again, no more accepted requests are kept than there is room for, and none that is due.
pub fn a_cse_that_answers_later_stays_sound()
    ensures opens { OpensSound }
    ensures stays { LaterStaysSound }
{}

/// What may be accepted is accepted, under the next number, where there is room; and nothing else
/// is ever kept.
pub fn what_may_be_accepted_is_accepted()
    ensures accepted { WhatIsAcceptableIsAccepted }
    ensures alone { AcceptanceAloneAdds }
{}

/// Accepted requests are run in the order of their acceptance, and none twice. What waits is run by
/// a take, by a tick and by an event of a later moment than that of its acceptance; any other event
/// leaves it. So it is run exactly once where such an event follows, and its originator didn't
/// delete it before.
pub fn accepted_requests_are_run_once_in_order()
    ensures order { RunsRise }
    ensures run { WhatWaitsIsRun }
    ensures left { WhatIsNotRunStays }
    ensures once { RunsOnce }
{}

/// An accepted request is kept until it is due or its originator deletes it. It is run once, by the
/// events before a crash or by those behind it.
pub fn accepted_requests_are_done_once()
    ensures stays { StaysUntilItGoes }
    ensures once { AcceptedAreDoneOnce }
{}

/// The result that is kept of an accepted request is the reply of its run, and no other result is
/// kept but what was kept before.
pub fn results_are_the_replies_of_runs()
    ensures results { ResultsAreRepliesOfRuns }
    ensures alone { KeptResultsAreOfRuns }
{}

/// The results that are kept have at most 64 MiB, and the bytes of one result, after every list of
/// events.
pub fn kept_results_are_bounded()
    ensures opens { OpensWithin }
    ensures stay { ResultsStayWithin }
{}

/// A reply that isn't that of the entity inside shows nothing but the number of a request that was
/// just accepted, and an accepted request to its own originator. A request that names another's has
/// no right there, and nothing is accepted, shown or taken away.
pub fn an_accepted_request_is_shown_to_its_originator_alone()
    ensures comes { EventsComeTo }
    ensures own { OwnAloneIsShown }
    ensures others { OthersAreRefused }
{}

/// An accepted request goes only when it is due, or by its originator's Delete.
pub fn an_accepted_request_goes_when_due_or_by_its_originator()
    ensures { GoesWhenDueOrByOwn }
{}

/// Two CSEs of which an originator sees the same answer its request alike, where the event runs
/// nothing but its own requests by them, and there is memory for all that is run. So they answer its
/// requests one after another alike, where nothing but its own requests waits by them before.
pub fn equal_sights_are_answered_alike_later()
    ensures steps { EqualSightsAnswerAlikeLater }
    ensures histories { EqualSightsStayAlikeLater }
{}

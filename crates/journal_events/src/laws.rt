//! The laws of an entity that is kept.
ghost use Rattle.journal_events.specs.Kept.{SweepsThatTakeNothingChangeNothing};
ghost use Rattle.journal_events.specs.Kept.{WhatIsKeptMakesTheEntity};
ghost use Rattle.journal_events.specs.Losses.{AnItemStaysUntilItWasSent, WhatIsToldStays};
ghost use Rattle.journal_events.specs.Machine.{EachEventIsOneOfTheMachine};

/// Who sends takes no item from the outbox before it says that it was sent: an item that hasn't
/// waited the keeping time stays there whatever else it asks.
pub fn an_item_stays_until_it_was_sent()
    ensures { AnItemStaysUntilItWasSent }
{}

/// The item that is told to be sent next is in the outbox, and stays there.
pub fn what_is_told_stays()
    ensures { WhatIsToldStays }
{}

/// Each event is one of the machine: where the item that was sent is still the next one, it is
/// taken; and else what is due goes.
pub fn each_event_is_one_of_the_machine()
    ensures { EachEventIsOneOfTheMachine }
{}

/// What is kept of a history is a history by itself, from the same opening entity. It leaves the
/// entity that the whole history leaves, but for the moment, which may be an earlier one.
pub fn what_is_kept_makes_the_entity()
    ensures { WhatIsKeptMakesTheEntity }
{}

/// An expiry that leaves a sound entity as many resources and as many items as it had leaves it as
/// it was, but for the moment.
pub fn a_sweep_that_takes_nothing_changes_nothing()
    ensures { SweepsThatTakeNothingChangeNothing }
{}

//! Laws of the machine, over its definitions.
ghost use Rattle.guard_laws.specs.Guard.{StepsKeepTheEntity};
ghost use Rattle.machine_laws.specs.Asked.{CreatesAddOne, DeletesTakeTheirTarget};
ghost use Rattle.machine_laws.specs.Asked.{NumbersRiseByWhatIsNew, UpdatesChangeTheirTarget};
ghost use Rattle.machine_laws.specs.Complete.{WhatIsAnsweredIsTaken, WhatMayBeFannedOutIsFannedOut};
ghost use Rattle.machine_laws.specs.Complete.{WhatMayBeServedIsServed, WhatMayGoOnGoesOn};
ghost use Rattle.machine_laws.specs.Complete.{WhatWaitsIsGiven};
ghost use Rattle.machine_laws.specs.Order.{KindsHaveTheForm, RetrievesAreRefusedInOrder};
ghost use Rattle.machine_laws.specs.Outbox.{OutboxesAreAccounted};
ghost use Rattle.machine_laws.specs.Sight.{IsAnsweredBySight, EqualSightsAnswerAlike};
ghost use Rattle.machine_laws.specs.Sight.{EqualSightsHaveOneShape, EqualSightsKeepOneShape};
ghost use Rattle.machine_laws.specs.Sight.{EqualSightsStayAlike, EqualSightsStayEqual};
ghost use Rattle.machine_laws.specs.Sight.{SightHasItsShape, WithoutTheSegmentNonePolls};

/// The outcome of a request, but of a Create, an Update or a poll, is a function of what its
/// originator sees of the entity, of the reading and of the request.
pub fn an_originator_is_answered_by_what_it_sees()
    ensures { IsAnsweredBySight }
{}

/// Two sound entities of which an originator sees the same answer the same request at the same
/// reading alike, by a reply or by sending it on to another CSE, unless it is a poll: at a step,
/// and so all along a history in which it alone asks and time passes, up to and with the first
/// request that names policies or rules. So they do where the request is fanned out. Afterwards it
/// sees the same of both; behind a request that names policies or rules they have one shape for it.
/// Which subscriptions are told of what it does, how often, and which go then, is the same for both.
/// What they are told needn't be; nor need what is sent about copies, since `at` and `aa` are seen
/// with RETRIEVE alone.
pub fn equal_sights_are_answered_alike()
    ensures steps { EqualSightsAnswerAlike }
    ensures seen { EqualSightsStayEqual }
    ensures shaped { EqualSightsKeepOneShape }
    ensures histories { EqualSightsStayAlike }
{}

/// A poll has the segment of a poll point in its address. So in a history in which no Retrieve has
/// such an address, nothing polls.
pub fn a_poll_has_the_segment_of_a_poll_point()
    ensures { WithoutTheSegmentNonePolls }
{}

/// What an originator sees of a sound entity has the shape of that entity, by which it is judged;
/// so two of which it sees the same have one shape.
pub fn a_sight_has_the_shape_of_its_entity()
    ensures kept { SightHasItsShape }
    ensures same { EqualSightsHaveOneShape }
{}

/// A request is served which nothing speaks against, unless memory runs out: it is answered by the
/// success of its operation, with the content that is asked for. So is a fan-out, by what comes of
/// its members; a poll, by the first item that waits for its channel; and the answer to a request
/// that a poll gave away. One to another CSE goes on to that one's first URL.
pub fn what_may_be_served_is_served()
    ensures served { WhatMayBeServedIsServed }
    ensures fanned { WhatMayBeFannedOutIsFannedOut }
    ensures polled { WhatWaitsIsGiven }
    ensures taken { WhatIsAnsweredIsTaken }
    ensures onward { WhatMayGoOnGoesOn }
{}

/// A step keeps the home and the moment of the event. Unless it is a fan-out, the next number rises
/// by exactly as many as are new. A Create that is served adds exactly one resource under its target, an Update changes
/// its target alone, and both remove at most instances of it; a Delete takes its target and what
/// stands below that, and changes nothing else. What is changed so is then told, by which
/// subscriptions that count are lowered, or go; and it is sent to where copies stand.
pub fn a_step_changes_what_is_asked_alone()
    ensures entity { StepsKeepTheEntity }
    ensures created { CreatesAddOne }
    ensures updated { UpdatesChangeTheirTarget }
    ensures deleted { DeletesTakeTheirTarget }
    ensures numbers { NumbersRiseByWhatIsNew }
{}

/// After every history from an empty outbox, the outbox is the list of all items that were
/// appended, in order, less those that were given away and those that were dropped. Each step
/// appends the items of its expiry, and then those of its request: one for each change and each
/// subscription that looks for it, as long as it has notifications left, one for each deletion
/// notice, and behind these one for each request about a copy; or one for a Notify that is handed
/// on; of a fan-out those of each of its members, one after another, as far as memory lasts. A poll
/// is given the first item that waits for its channel. Only what waited the keeping time is
/// dropped.
pub fn the_outbox_holds_what_was_appended()
    ensures { OutboxesAreAccounted }
{}

/// No request is refused for its form whose parameters are of their kinds, as are those of each
/// that is read from a value or from a frame.
pub fn what_is_of_its_kinds_has_the_form()
    ensures { KindsHaveTheForm }
{}

/// The order of refusals holds of a Retrieve as of every other operation: the place that refuses it
/// there is what it is answered.
pub fn a_retrieve_is_refused_in_order()
    ensures { RetrievesAreRefusedInOrder }
{}

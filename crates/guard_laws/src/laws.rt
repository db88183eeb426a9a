//! Laws of what a step shows and changes and of what a history leaves, over the definitions of
//! cse_machine.
ghost use Rattle.guard_laws.specs.Guard.{CutStepsAreGuarded, HistoriesAreGuarded};
ghost use Rattle.guard_laws.specs.Guard.{FanOutsAloneAreCutShort, WantOfMemoryChangesNothing};
ghost use Rattle.guard_laws.specs.Guard.{NotifiesChangeNoResource, OnwardsChangeNothing};
ghost use Rattle.guard_laws.specs.Guard.{RefusalsChangeNothing, RetrievesChangeNoResource};
ghost use Rattle.guard_laws.specs.Guard.{StepsAreGuarded};
ghost use Rattle.guard_laws.specs.Legal.{BeginsLegal, EntriesAreSteps, GoesOneWay, StaysLegal};
ghost use Rattle.guard_laws.specs.Legal.{StaysSound};

/// Nothing of a sound entity is shown or changed but by a grant to the originator, judged on the
/// entity before the request: at a step, and so anywhere in a legal history. A reply with content,
/// or with the status that a request was served, comes only to an originator with the right that
/// the request needs on the resource that it addressed; other resources are shown by RETRIEVE, and
/// found by DISCOVERY. A resource is new only under a parent with CREATE. It differs only with
/// UPDATE, and then not in its `acpi`; or in that alone with the right to change it; or in its
/// state tag alone where a new instance stands in it, but for the moment of its last change; or it
/// is a subscription with fewer notifications left, and else as it was. It is gone only at or below
/// a target with DELETE, or as an instance of a container that the operation adds to or changes by
/// right, or as a subscription with no notification left. What a poll shows is the first item that
/// waits for its channel, to whom the channel's rule gives RETRIEVE. A fan-out is gathered, by a
/// right on its group, from what comes of one request to each of the group's members, one after
/// another, and each of these is guarded so, in the entity that those before it left; also where
/// memory runs out after some of them. Shown is what a reply says. What subscriptions are told, and
/// what copies at other CSEs are given, isn't judged here: a right was needed to create the
/// subscription, and to set the `at` and the `aa` of the resource.
pub fn nothing_is_shown_or_changed_without_a_grant()
    ensures steps { StepsAreGuarded }
    ensures short { CutStepsAreGuarded }
    ensures histories { HistoriesAreGuarded }
{}

/// A refused request and want of memory leave the entity as it was, but that what is due is gone;
/// and not even that where the expiry ran out of memory. Neither a Retrieve nor a Notify changes a
/// resource, nor does a request that goes on to another CSE. No member is told as done but by a
/// fan-out.
pub fn what_is_refused_or_read_changes_nothing()
    ensures refused { RefusalsChangeNothing }
    ensures retrieved { RetrievesChangeNoResource }
    ensures notified { NotifiesChangeNoResource }
    ensures onward { OnwardsChangeNothing }
    ensures starved { WantOfMemoryChangesNothing }
    ensures members { FanOutsAloneAreCutShort }
{}

/// An entity that opens leaves the empty history, and each step of the entity that a history leaves
/// makes a longer one, which leaves the entity after it. A sound entity stays sound on the way.
pub fn steps_make_a_legal_history()
    ensures begins { BeginsLegal }
    ensures grows { StaysLegal }
    ensures sound { StaysSound }
{}

/// An entry of a legal history is a step of the sound entity that the entries before it left, so
/// that what holds of each step of a sound entity holds of each entry.
pub fn the_entries_of_a_history_are_its_steps()
    ensures { EntriesAreSteps }
{}

/// The same events at the same readings have the same outcomes, where there is memory for them.
pub fn a_history_goes_one_way()
    ensures { GoesOneWay }
{}

//! Laws of what operations change for copies.
ghost use Rattle.copy_changes.specs.Quiet.{RestampingIsQuiet, SpendingIsQuiet};
ghost use Rattle.copy_changes.specs.Quiet.{ToldChangesAreOperations, ToldRemovalsAreOperations};
ghost use Rattle.copy_changes.specs.Updating.{WhatIsNotFollowedStays};

/// An Update that names nothing that copies follow leaves what they have, but for the members of a
/// group, which an Update of their greatest number may change.
pub fn what_is_not_followed_stays()
    ensures { WhatIsNotFollowedStays }
{}

/// Subscriptions that are lowered, and those that are spent and go, change nothing for copies; nor
/// does it that a container counts its changes.
pub fn marks_are_quiet()
    ensures spending { SpendingIsQuiet }
    ensures restamping { RestampingIsQuiet }
{}

/// A removal whose changes are then told is an operation: a deletion, and an expiry. So is what
/// makes or changes a resource and pushes out instances.
pub fn what_is_told_is_an_operation()
    ensures removals { ToldRemovalsAreOperations }
    ensures changes { ToldChangesAreOperations }
{}

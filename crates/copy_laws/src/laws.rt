//! Laws of announced copies.
ghost use Rattle.copy_laws.specs.Following.{CopiesFollow, CopiesFollowAnOperation};
ghost use Rattle.copy_laws.specs.Following.{QuietChangesBelongToOperations, RemovalsAreOperations};
ghost use Rattle.copy_laws.specs.Following.{JoiningIsAnOperation, ReplacingIsAnOperation};
ghost use Rattle.copy_laws.specs.Following.{RemovalsBelongToOperations};

/// What stands at a CSE follows an operation, once what this sends there is carried out.
pub fn copies_follow_an_operation()
    ensures { CopiesFollowAnOperation }
{}

/// What stands at a CSE follows every run of operations from resources of which none is announced.
pub fn copies_follow()
    ensures { CopiesFollow }
{}

/// What changes nothing for copies, behind an operation, belongs to it: subscriptions that are
/// lowered or go, and containers that are stamped anew.
pub fn quiet_changes_belong_to_operations()
    ensures { QuietChangesBelongToOperations }
{}

/// A removal is an operation: of what a Delete names, of what is due, or of what is pushed out.
pub fn removals_are_operations()
    ensures { RemovalsAreOperations }
{}

/// A new resource is an operation; so is one that takes the place of another by an Update; and a
/// removal behind such an operation belongs to it, as of instances that are pushed out.
pub fn creations_and_updates_are_operations()
    ensures joining { JoiningIsAnOperation }
    ensures replacing { ReplacingIsAnOperation }
    ensures removing { RemovalsBelongToOperations }
{}

//! The law of what is sent about copies.
ghost use Rattle.copy_rights.specs.Sent.{ExpiriesWithdrawCopies, OperationsAnnounceByRight};

/// A request about a copy goes only to a CSE that `at` of the resource listed before the operation,
/// or that it lists behind the operation by a right of its originator, judged on the sound entity
/// before: CREATE on the parent of a new resource, or UPDATE on one that was there. It has no
/// content, or that of a copy of this resource as the operation leaves it. Behind an expiry such a
/// request has no content, and goes where `at` of what is gone says.
pub fn what_is_sent_about_copies_is_announced_by_right()
    ensures operations { OperationsAnnounceByRight }
    ensures expiries { ExpiriesWithdrawCopies }
{}

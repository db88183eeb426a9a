//! The law of announced copies along histories.
ghost use Rattle.copy_histories.specs.Histories.{CopiesFollowFromOpenings, CopiesFollowHistories};

/// What stands at a CSE follows the resources of this one along every history: requests of every
/// kind, fan-outs to members, expiries, polls, and want of memory. So it is from a sound CSE of
/// which nothing is announced, and from one as it opens.
pub fn copies_follow_histories()
    ensures histories { CopiesFollowHistories }
    ensures openings { CopiesFollowFromOpenings }
{}

//! The laws.
ghost use Rattle.totality_laws.specs.Ends.{LinesTakeBytes, MessagesTakeBytes};
ghost use Rattle.totality_laws.specs.Ends.{FewLinesAreHeard, FewMessagesAreHeard};
ghost use Rattle.totality_laws.specs.Statuses.{LaterStepsAreAnsweredByName};
ghost use Rattle.totality_laws.specs.Statuses.{MembersAreAnsweredByName, StepsAreAnsweredByName};

/// A message takes at least one byte of its stream, and so does a line.
pub fn what_is_read_takes_bytes()
    ensures messages { MessagesTakeBytes }
    ensures lines { LinesTakeBytes }
{}

/// On one connection at most 10,000 messages are heard, and of one stream of lines at most
/// 1,000,000.
pub fn what_is_read_is_limited()
    ensures messages { FewMessagesAreHeard }
    ensures lines { FewLinesAreHeard }
{}

/// The reply that a step gives says that the request was served, or for which of thirteen reasons
/// it is refused. So does each reply of a member in a fan-out, and each that a CSE gives which
/// answers later, where it doesn't say that a request is accepted. 5000 is none of these: it stands
/// in place of a reply that didn't come.
pub fn each_reply_has_a_named_status()
    ensures steps { StepsAreAnsweredByName }
    ensures members { MembersAreAnsweredByName }
    ensures later { LaterStepsAreAnsweredByName }
{}

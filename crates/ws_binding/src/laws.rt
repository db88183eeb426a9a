//! Laws of talks, over the definitions that the calls cite.
ghost use Rattle.ws_binding.specs.Laws.{AClosedTalkHasAllThatWasToCome};

/// Where a talk is closed, its talker tells, and nothing is asked behind a request: the payloads that
/// were given are those that were to come, up to the 10,000th; the requests among them were asked, in
/// order, and nothing else; and what was said is one reply to each payload, by the outcomes of those
/// requests.
pub fn a_closed_talk_has_all_that_was_to_come()
    ensures { AClosedTalkHasAllThatWasToCome }
{}

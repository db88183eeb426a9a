//! Laws of the definitions.
ghost use Rattle.service_laws.specs.Laws.{EqualSightsAreServedAlike, IsAnsweredInOneWay};
ghost use Rattle.service_laws.specs.Laws.{NothingIsAnsweredBehindClose, ServesGuarded};
ghost use Rattle.service_laws.specs.Laws.{TheRulesAskForTheOriginator, TheRulesPollNoneBehind};
ghost use Rattle.service_laws.specs.Laws.{WhatIsHeardTellsWhoAsks, WithoutTheSegmentNonePolled};
ghost use Rattle.service_laws.specs.Members.{EachMemberAnswersAtItsPlace};
ghost use Rattle.service_laws.specs.Onward.{WhatGoesOnIsAnsweredThere, WhatGoesOnSaysAll};
ghost use Rattle.service_laws.specs.Parts.{EachIsAnsweredAtItsPlace};
ghost use Rattle.service_laws.specs.Peers.{AnAnswerIsThePeers, TheRequestIsAnsweredThere};
ghost use Rattle.service_laws.specs.Peers.{WhatBindsToNothingIsRefusedThere};
ghost use Rattle.service_laws.specs.Peers.{WhatIsNoMessageIsRefusedThere};
ghost use Rattle.service_laws.specs.Repeating.{EachReplyRepeatsTheIdentifier};
ghost use Rattle.service_laws.specs.Repeating.{RepliesToFormsAreOfKinds};
ghost use Rattle.service_laws.specs.Repeating.{TheRulesKeepTheIdentifier};
ghost use Rattle.service_laws.specs.SentOn.{WhatIsSentOnCanStandInHead};
ghost use Rattle.service_laws.specs.SentOn.{WhatIsSentOnIsAnsweredOrRefused};
ghost use Rattle.desk_replies.specs.Replies.{TheLinkTellsAllThatIsCarried};
ghost use Rattle.desk_replies.specs.Replies.{WhatIsAnsweredHereIsNotCarried};
ghost use Rattle.desk_replies.specs.Rule.{EachRequestIsAskedAlone};

/// Once a frame closes the connection, what is behind it is not answered.
pub fn what_is_behind_a_closing_frame_is_not_answered()
    ensures { NothingIsAnsweredBehindClose }
{}

/// Where nothing is asked behind a request, the requests that a connection heard were asked, in
/// order, and nothing else; and what it said are the replies that their outcomes gave.
pub fn each_request_is_asked_alone()
    ensures { EachRequestIsAskedAlone }
{}

/// A link tells the exchanges of all requests that were carried one after another, and its count of
/// faults rose where one of them failed, and only there.
pub fn the_link_tells_all_that_is_carried()
    ensures { TheLinkTellsAllThatIsCarried }
{}

/// Where the entity answers each request itself, nothing is carried to another CSE; so no exchange
/// fails, and the link's count of faults stays.
pub fn what_is_answered_here_is_not_carried()
    ensures { WhatIsAnsweredHereIsNotCarried }
{}

/// What a connection of a sound entity shows and changes, it does by a grant to the originator of
/// the request.
pub fn a_connection_shows_and_changes_by_grant_alone()
    ensures { ServesGuarded }
{}

/// Each reply repeats the identifier of its request, whatever comes of it; so this is of its kind
/// where the request has its form.
pub fn each_reply_repeats_the_identifier()
    ensures repeats { EachReplyRepeatsTheIdentifier }
    ensures kinds { RepliesToFormsAreOfKinds }
    ensures rules { TheRulesKeepTheIdentifier }
{}

/// The answer of a link that is the talk of another CSE with the bytes of a request is what the
/// machine of that CSE gives to what these bytes are bound to.
pub fn an_answer_is_the_peers()
    ensures { AnAnswerIsThePeers }
{}

/// Where the bytes of a request are no message of a request, or one that binds to none, the answer
/// of another CSE is the refusal BAD_REQUEST, and it stays as it is.
pub fn what_is_no_request_is_refused_there()
    ensures unbound { WhatBindsToNothingIsRefusedThere }
    ensures none { WhatIsNoMessageIsRefusedThere }
{}

/// The request that goes on is the one that the machine of the other CSE answers, where its frame
/// says all of it.
pub fn the_request_is_answered_there()
    ensures { TheRequestIsAnsweredThere }
{}

/// The frame of a request that goes on says all of it, where an HTTP request can.
pub fn what_goes_on_says_all()
    ensures { WhatGoesOnSaysAll }
{}

/// Where the answer of the link is the talk of another CSE, the reply to a request that goes on is
/// the one that its machine gives to that request.
pub fn what_goes_on_is_answered_there()
    ensures { WhatGoesOnIsAnsweredThere }
{}

/// The texts of each request that goes on can stand in a head, so that the bytes for it are one
/// message, or begin with none.
pub fn what_is_sent_on_can_stand_in_a_head()
    ensures { WhatIsSentOnCanStandInHead }
{}

/// Whatever a request holds that goes on: where the answer of the link is the talk of another CSE,
/// the reply is the one that its machine gives to the request that the bytes bind to; and it is the
/// refusal BAD_REQUEST where they bind to none.
pub fn what_is_sent_on_is_answered_or_refused()
    ensures { WhatIsSentOnIsAnsweredOrRefused }
{}

/// The replies to a stream are settled by the entity, the stream, the readings and the rule.
pub fn a_stream_is_answered_in_one_way()
    ensures { IsAnsweredInOneWay }
{}

/// By whatever rule, to one originator a stream is answered by what it sees of the entity, where each
/// question is its own and none of them polls, up to and with the first that names policies or rules.
/// Where no Retrieve that was heard has an address with the segment of a poll point, none polls; and
/// the requests that were heard tell whose each question is, and whether it names policies or rules.
pub fn equal_sights_are_served_alike()
    ensures alike { EqualSightsAreServedAlike }
    ensures unpolled { WithoutTheSegmentNonePolled }
    ensures heard { WhatIsHeardTellsWhoAsks }
    ensures rules { TheRulesPollNoneBehind }
    ensures asks { TheRulesAskForTheOriginator }
{}

/// Each entry of the reply to a fan-out is what the originator gets from that member alone at its
/// place, in the order of `mid`: also from a member at another CSE.
pub fn each_member_answers_at_its_place()
    ensures { EachMemberAnswersAtItsPlace }
{}

/// Each request of a connection that was answered whole is answered at its place as it is alone, by
/// whatever rule; so what a law says of one request holds of each request of a connection.
pub fn each_request_is_answered_at_its_place()
    ensures { EachIsAnsweredAtItsPlace }
{}

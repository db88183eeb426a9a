//! Laws of the definitions.
ghost use Rattle.http_forwarding.specs.Answers.{AnswerGivesOneReply, WhatIsToldIsCarried};

/// An answer gives one reply: its bytes are one message at most.
pub fn an_answer_gives_one_reply()
    ensures { AnswerGivesOneReply }
{}

/// What another CSE writes of a reply is what the caller gets, with the identifier of the caller's
/// request.
pub fn what_is_told_is_carried()
    ensures { WhatIsToldIsCarried }
{}

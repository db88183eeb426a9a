//! The law.
ghost use Rattle.twin_laws.specs.Laws.{AgreeingSidesAnswerTheSame};

/// Behind `sights agree`, where there is memory for the requests on both sides, each is answered by
/// a line that begins with `same`, unless it polls, up to and with the first by which others are
/// judged anew: an Update that names policies, or a policy's rules.
pub fn agreeing_sides_answer_the_same()
    ensures { AgreeingSidesAnswerTheSame }
{}

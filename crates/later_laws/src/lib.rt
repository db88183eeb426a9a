//! The laws of a CSE that answers later, over the definitions of later_replies.
//!
//! What happens inside is told event by event (specs/Turns): each event has a turn, which is the
//! runs of accepted requests, in order, and then the event itself, each with what the entity inside
//! answered. The laws say of the turns of every list of events what the definitions promise: they
//! are one legal history of the machine; accepted requests are run in order, and none twice; what
//! is kept is the reply of that run; and an accepted request is shown to its originator alone, and
//! goes when it is due or by its originator. Whatever comes, the CSE stays sound, and the results
//! that are kept are bounded (specs/Sizes). Across a crash an accepted request is run once too
//! (specs/Once).
//!
//! Two CSEs of which an originator sees the same (specs/Sights) answer it alike, as long as nothing
//! but its own requests is run by them.
//!
//! Each law is a public function with an empty body.
//!
//! ```text
//! // history: Runs LaterStep before history after, as an OwnDesk of a LaterEntity gives it
//! the_entity_inside_has_a_legal_history(); // its turns, and that they lead from before to after
//! ```
#![tactic(auto)]

mod laws;

pub use laws::{
    a_cse_that_answers_later_stays_sound, accepted_requests_are_done_once,
    accepted_requests_are_run_once_in_order,
    an_accepted_request_goes_when_due_or_by_its_originator,
    an_accepted_request_is_shown_to_its_originator_alone, equal_sights_are_answered_alike_later,
    kept_results_are_bounded, results_are_the_replies_of_runs,
    the_entity_inside_has_a_legal_history, what_may_be_accepted_is_accepted,
};

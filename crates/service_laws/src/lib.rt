//! Laws of what a connection shows, changes and is answered, over the definitions of cse_server.
//!
//! No program stands on them. Each is the clause of a function without a body. What a connection
//! shows and changes, it does by a grant to the originator of the request. A stream is answered in
//! one way, and two entities of which an originator sees the same answer its stream alike, by whatever
//! rule of replies (desk_replies). The answer of another CSE to a request that goes on is what its
//! machine gives. Each reply repeats the identifier of its request. Each entry of the reply to a
//! fan-out is what its member alone gives at its place.
//!
//! ```text
//! a_connection_shows_and_changes_by_grant_alone(); // each call has its law as its contract
//! a_stream_is_answered_in_one_way();
//! what_goes_on_is_answered_there();
//! ```
#![tactic(auto)]

mod laws;

pub use laws::{
    a_connection_shows_and_changes_by_grant_alone, a_stream_is_answered_in_one_way,
    an_answer_is_the_peers, each_member_answers_at_its_place, each_reply_repeats_the_identifier,
    each_request_is_answered_at_its_place, each_request_is_asked_alone,
    equal_sights_are_served_alike, the_link_tells_all_that_is_carried,
    the_request_is_answered_there, what_goes_on_is_answered_there, what_goes_on_says_all,
    what_is_answered_here_is_not_carried, what_is_behind_a_closing_frame_is_not_answered,
    what_is_no_request_is_refused_there, what_is_sent_on_can_stand_in_a_head,
    what_is_sent_on_is_answered_or_refused,
};

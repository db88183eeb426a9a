//! Laws of the definitions.
ghost use Rattle.http_client_binding.specs.Laws.{AddressIsReadBack, EachConditionIsWritten};
ghost use Rattle.http_client_binding.specs.Laws.{ReplyIsSaid, RequestIsReadBack};

/// The frame of a reply says the reply, where its identifier is one and its content no deeper than
/// a text is read.
pub fn a_reply_is_said_by_its_frame()
    ensures { ReplyIsSaid }
{}

/// An address is read back from the path that is written of it, where that path stands for no
/// other: the two directions of one rule (TS-0009, 6.2.2.2).
pub fn an_address_is_read_back()
    ensures { AddressIsReadBack }
{}

/// Each condition that a filter may have is written, where the filter has it, and at one place: the
/// order of writing is an order of all conditions (TS-0009, 6.2.2.3).
pub fn each_condition_is_written()
    ensures { EachConditionIsWritten }
{}

/// The text of a request is read back as its frame, whatever follows, where its parameters are of
/// their kinds, its target is one of the grammar, and its head and its body are within the limits
/// of a frame's.
pub fn a_request_is_read_back()
    ensures { RequestIsReadBack }
{}

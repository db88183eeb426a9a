//! Laws of the definitions.
ghost use Rattle.http_binding.specs.Laws.{
  BindsToOne,
  BindsToKinds,
  EchoIsId,
  OperationIsReadBack,
  ReplyIsReadBack,
};

/// A frame binds to at most one request.
pub fn a_frame_binds_to_one_request()
    ensures { BindsToOne }
{}

/// A frame binds to requests alone whose parameters are of their kinds, with those that the
/// operation needs, and no others that it doesn't read.
pub fn a_frame_binds_to_requests_of_their_kinds()
    ensures { BindsToKinds }
{}

/// The identifier that is told of a frame that binds is the request's.
pub fn the_echo_is_the_request_id()
    ensures { EchoIsId }
{}

/// The text of a reply is read back as its frame, whatever follows, where the identifier that it
/// repeats is one and its body is within the limit of a frame's.
pub fn a_reply_is_read_back()
    ensures { ReplyIsReadBack }
{}

/// The method that asks for an operation is read as that operation: the two directions of one table
/// (TS-0009, 6.2.1).
pub fn an_operation_is_read_back()
    ensures { OperationIsReadBack }
{}

//! Laws of reading and writing, over the definitions that the calls cite.
ghost use Rattle.primitive_json.specs.Laws.{RequestsAreOfKinds, RequestsAreReadBack};
ghost use Rattle.primitive_json.specs.Laws.{ReadingsAreReadBack, RepliesAreOfKinds};
ghost use Rattle.primitive_json.specs.Laws.{RepliesAreReadBack};

/// What is written of a request whose parameters are of their kinds is read as that request; so
/// every reading of a value is read back. Milliseconds of expiry have at most 18 digits there.
pub fn requests_are_read_back()
    ensures kinds { RequestsAreOfKinds }
    ensures back { RequestsAreReadBack }
    ensures readings { ReadingsAreReadBack }
{}

/// What is written of a reply is read as that reply, where its request identifier is of its kind,
/// as that of every reading is.
pub fn replies_are_read_back()
    ensures kinds { RepliesAreOfKinds }
    ensures back { RepliesAreReadBack }
{}

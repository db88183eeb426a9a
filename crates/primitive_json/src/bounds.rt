//! The test of what a request identifier keeps to.
ghost use Rattle.std.specs.Prelude.{◌≡◌, IsUtf8};
ghost use Rattle.std.specs.Bool.{OnTrue};
ghost use Rattle.primitive_json.specs.Bounds as spec;

use m2m_names::{are_graphic, is_filled};

/// The most bytes that a request identifier has.
const REQUEST_ID_LIMIT: usize = 128;

/// Whether the text is a request identifier: 1 to 128 printable ASCII characters without a space.
#[tactic(auto, using(m2m_names::proofs::NameLemmas::graphic_is_utf8))]
pub fn is_request_id(text: &[u8]) -> bool
    ensures value { result ≡ spec.is_request_id text.now }
    ensures utf8 { OnTrue result (IsUtf8 text.now) }
{
    is_filled(text, REQUEST_ID_LIMIT) && are_graphic(text)
}

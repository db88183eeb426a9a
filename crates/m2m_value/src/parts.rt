//! What is kept of numbers, texts and keys that were read.
ghost use Rattle.std.specs.Prelude.{◌≡◌, IsUtf8, string_bytes};
ghost use Rattle.serde_json.specs.View.{number_view};
ghost use Rattle.m2m_value.specs.Reading.{whole_of, Gives};

use crate::fault::ValFault;
use crate::key::MemberKey;
use crate::text::Text;
use serde_json::Number;

/// The number, where it is whole and has 64 bits with its sign.
pub(crate) fn whole(n: Number) -> Result<i64, ValFault>
    ensures { Gives (λ z. z) result (whole_of (number_view n)) }
{
    match n.as_i64() {
        Some(z) => Ok(z),
        None if n.is_u64() => Err(ValFault::TooWide),
        None => Err(ValFault::Fraction),
    }
}

/// The text that it is; nothing is copied.
pub(crate) fn text_of_string(s: String) -> Text
    ensures value { result ≡ string_bytes s }
    ensures utf8 { IsUtf8 (string_bytes s) }
{
    Text::of(s.into_bytes())
}

/// The key that it is; nothing is copied.
pub(crate) fn key_of(s: String) -> MemberKey
    ensures value { result ≡ string_bytes s }
    ensures utf8 { IsUtf8 (string_bytes s) }
{
    MemberKey::of(text_of_string(s))
}

//! Names, resource ids and originators as texts.
ghost use Rattle.std.specs.Prelude.{◌≡◌, IsUtf8};
ghost use Rattle.std.specs.Bool.{OnTrue};
ghost use Rattle.std.specs.List.{list_all};
ghost use Rattle.std.specs.Char as chars;
ghost use Rattle.m2m_names.specs.Name as spec;
ghost use Rattle.m2m_names.specs.Name.{virtual_names, address_marks};

use crate::Ty;

/// The most bytes that a name of a resource has.
const NAME_LIMIT: usize = 64;

/// The most bytes that an originator has.
const ORIGINATOR_LIMIT: usize = 256;

/// Whether the text has 1 to `most` bytes.
pub fn is_filled(text: &[u8], most: usize) -> bool
    ensures { result ≡ spec.is_filled most text.now }
{
    0 < text.len() && text.len() <= most
}

/// Whether the text is a name: 1 to 64 letters, digits, `-`, `.`, `_` and `~` (TS-0001, 9.6.1.3;
/// the length is the profile's).
#[tactic(auto, using(crate::proofs::NameLemmas::unreserved_is_utf8))]
pub fn is_name(text: &[u8]) -> bool
    ensures value { result ≡ spec.is_name text.now }
    ensures utf8 { OnTrue result (IsUtf8 text.now) }
{
    is_filled(text, NAME_LIMIT) && are_unreserved(text)
}

fn are_unreserved(text: &[u8]) -> bool
    ensures { result ≡ list_all spec.is_unreserved text.now }
{
    text.iter().all(|byte| is_unreserved(*byte))
}

fn is_unreserved(byte: u8) -> bool
    ensures { result ≡ spec.is_unreserved byte }
{
    byte.is_ascii_alphanumeric() || b"-._~".contains(&byte)
}

/// Whether a resource may be given this name: it addresses nothing else, as `la` does.
pub fn is_free_name(text: &[u8]) -> bool
    ensures value { result ≡ spec.is_free_name text.now }
    ensures utf8 { OnTrue result (IsUtf8 text.now) }
{
    is_name(text) && !(is_virtual(text) || is_mark(text))
}

fn is_virtual(text: &[u8]) -> bool
    ensures { result ≡ spec.is_one_of virtual_names text.now }
{
    matches!(text, b"la" | b"ol" | b"fopt" | b"pcu")
}

fn is_mark(text: &[u8]) -> bool
    ensures { result ≡ spec.is_one_of address_marks text.now }
{
    matches!(text, b"-" | b"~" | b"_" | b"." | b"..")
}

/// Whether the text has the form of a resource id: the short word of a type and digits.
pub fn is_resource_id(text: &[u8]) -> bool
    ensures { result ≡ spec.is_resource_id text.now }
{
    Ty::ALL
        .iter()
        .any(|ty| is_numbered(text, ty.word().as_bytes()))
}

/// Whether the text has the form of the id of a request that is answered later: `req` and digits.
pub fn is_request_id(text: &[u8]) -> bool
    ensures { result ≡ spec.is_request_id text.now }
{
    is_numbered(text, b"req")
}

fn is_numbered(text: &[u8], word: &[u8]) -> bool
    ensures { result ≡ spec.is_numbered word.now text.now }
{
    text.starts_with(word) && word.len() < text.len() && are_digits(&text[word.len()..])
}

/// Whether all bytes are decimal digits, zeros in front of others too.
pub fn are_digits(text: &[u8]) -> bool
    ensures { result ≡ list_all chars.is_ascii_digit text.now }
{
    text.iter().all(|byte| byte.is_ascii_digit())
}

/// Whether the text is an originator: 1 to 256 printable ASCII characters without a space
/// (TS-0004, 6.3.3).
#[tactic(auto, using(crate::proofs::NameLemmas::graphic_is_utf8))]
pub fn is_originator(text: &[u8]) -> bool
    ensures value { result ≡ spec.is_originator text.now }
    ensures utf8 { OnTrue result (IsUtf8 text.now) }
{
    is_filled(text, ORIGINATOR_LIMIT) && are_graphic(text)
}

/// Whether the text is an originator that doesn't begin with `/`.
pub fn is_local_originator(text: &[u8]) -> bool
    ensures value { result ≡ spec.is_local_originator text.now }
    ensures utf8 { OnTrue result (IsUtf8 text.now) }
{
    is_originator(text) && !text.starts_with(b"/")
}

/// Whether the text is of printable ASCII characters without a space.
#[tactic(auto, using(crate::proofs::NameLemmas::graphic_is_utf8))]
pub fn are_graphic(text: &[u8]) -> bool
    ensures value { result ≡ list_all chars.is_ascii_graphic text.now }
    ensures utf8 { OnTrue result (IsUtf8 text.now) }
{
    all_graphic(text)
}

fn all_graphic(text: &[u8]) -> bool
    ensures { result ≡ list_all chars.is_ascii_graphic text.now }
{
    text.iter().all(|byte| byte.is_ascii_graphic())
}

//! Numbers in decimal, and resource ids.
ghost use Rattle.std.specs.Prelude.{◌≡◌, ℕ, ◌<◌, ◌≤◌, length, IfSome, IsTrue, Some};
ghost use Rattle.std.specs.Fmt.{decimal};
ghost use Rattle.std.specs.Str.Parse.{digits_value};
ghost use Rattle.m2m_names.specs.Name.{is_numeral};
ghost use Rattle.m2m_names.specs.declared.types.Ty.{Ty};
ghost use Rattle.m2m_names.specs.Ids as spec;
ghost use Rattle.m2m_names.specs.Ids.{id_text};

use crate::{Ty, are_digits, is_filled};

/// The largest count, and the largest number of a resource.
pub const LARGEST_COUNT: u64 = 9_223_372_036_854_775_807;

/// The most digits of a number that a text spells.
const NUMERAL_LIMIT: usize = 18;

fn with_digit(n: u64, digit: u8) -> Option<u64>
    requires { n < spec.count_bound }
    ensures value { result ≡ spec.with_digit n digit }
    ensures bound { IfSome result (λ m. m < spec.count_bound) }
{
    if !digit.is_ascii_digit() {
        return None;
    }
    let number = 10 * u128::from(n) + u128::from(digit - b'0');
    if number < LARGEST_COUNT as u128 + 1 {
        Some(number as u64)
    } else {
        None
    }
}

fn number_in(digits: &[u8]) -> Option<u64>
    ensures value { result ≡ spec.number_from 0 digits.now }
    ensures bound { IfSome result (λ n. n < spec.count_bound) }
{
    let mut number = 0;
    for digit in digits {
        number = with_digit(number, *digit)?;
    }
    Some(number)
}

/// Digits as a number is written: one at least, and no 0 before others.
fn is_written(digits: &[u8]) -> bool
    ensures { result ≡ spec.is_written digits.now }
{
    match digits {
        [] => false,
        [digit, digits @ ..] => *digit != b'0' || digits.is_empty(),
    }
}

/// The number below 2^63 of which this is the text in decimal.
pub fn read_digits(text: &[u8]) -> Option<u64>
    ensures value { result ≡ spec.number_written text.now }
    ensures found { IfSome result (λ n. decimal n ≡ text.now) }
    ensures only { (n : ℕ) → n < spec.count_bound → text.now ≡ decimal n → result ≡ Some n }
    ensures bound { IfSome result (λ n. n < spec.count_bound) }
{
    number_written(text)
}

fn number_written(text: &[u8]) -> Option<u64>
    ensures value { result ≡ spec.number_written text.now }
    ensures bound { IfSome result (λ n. n < spec.count_bound) }
{
    if is_written(text) {
        number_in(text)
    } else {
        None
    }
}

/// The number that the digits write.
pub fn digits_number(digits: &[u8]) -> u64
    requires { IsTrue (is_numeral digits.now) }
    ensures value { result ≡ digits_value 10 digits.now }
    ensures bound { result < spec.spelled_bound }
{
    let mut number = 0;
    for digit in digits {
        number = number * 10 + u64::from(digit - b'0');
    }
    number
}

/// Whether the text is 1 to 18 digits.
pub fn is_numeral(text: &[u8]) -> bool
    ensures { result ≡ is_numeral text.now }
{
    is_filled(text, NUMERAL_LIMIT) && are_digits(text)
}

/// The number that 1 to 18 digits write.
pub fn number_spelled(text: &[u8]) -> Option<u64>
    ensures value { result ≡ spec.number_spelled text.now }
    ensures bound { IfSome result (λ n. n < spec.spelled_bound) }
{
    if is_numeral(text) {
        Some(digits_number(text))
    } else {
        None
    }
}

/// How many bytes stand before the first digit.
fn word_len(text: &[u8]) -> usize
    ensures value { result ≡ spec.word_len text.now }
    ensures bound { result ≤ length text.now }
{
    text.iter()
        .take_while(|byte| !byte.is_ascii_digit())
        .count()
}

/// The type and the number below 2^63 of which this is the resource id: the short word of the
/// type, and the number in decimal.
pub fn read_id(text: &[u8]) -> Option<(Ty, u64)>
    ensures value { result ≡ spec.id_parts text.now }
    ensures found { IfSome result (λ id. id_text id.0 id.1 ≡ text.now) }
    ensures only { (ty : Ty) (n : ℕ) →
        n < spec.count_bound → text.now ≡ id_text ty n → result ≡ Some (ty, n) }
    ensures bound { IfSome result (λ id. id.1 < spec.count_bound) }
{
    id_of_parts(text)
}

fn id_of_parts(text: &[u8]) -> Option<(Ty, u64)>
    ensures value { result ≡ spec.id_parts text.now }
    ensures bound { IfSome result (λ id. id.1 < spec.count_bound) }
{
    let len = word_len(text);
    let ty = Ty::from_word(&text[..len])?;
    Some((ty, read_digits(&text[len..])?))
}

//! What the address of a request says, without memory.
ghost use Rattle.std.specs.Prelude.{◌≡◌, ◌∷◌, ◌≤◌, length, option_map, is_ok, true};
ghost use Rattle.std.specs.Prelude.{option_and_then};
ghost use Rattle.std.specs.List.{position_or_len};
ghost use Rattle.addressing.specs.Addresses.{address_of, between_slashes, is_slash, parts_left};
ghost use Rattle.addressing.specs.Addresses as addresses;
ghost use Rattle.accepted_requests.specs.Here as spec;
ghost use Rattle.accepted_requests.specs.Names as names;

use m2m_names::read_digits;
use resource_model::Home;

// The place of the first slash, or the length where there is none.
fn first_slash(text: &[u8]) -> usize
    ensures value { result ≡ position_or_len is_slash text.now }
    ensures bound { result ≤ length text.now }
{
    text.iter().take_while(|byte| **byte != b'/').count()
}

// What stands before the first slash, and behind it.
fn cut_at(text: &[u8]) -> Option<(&[u8], &[u8])>
    ensures { option_map (λ c. (c.0.now, c.1.now)) result ≡ addresses.cut_at text.now }
{
    let at = first_slash(text);
    if at < text.len() {
        Some((&text[..at], &text[at + 1..]))
    } else {
        None
    }
}

// What stands before the first slash, and behind it, where there is one.
#[tactic(auto, using(addressing::proofs::ReadLemmas::parts_alone))]
fn first_part(text: &[u8]) -> (&[u8], Option<&[u8]>)
    ensures { between_slashes text.now
        ≡ result.0.now ∷ parts_left (option_map (λ t. t.now) result.1) }
{
    match cut_at(text) {
        Some((front, behind)) => (front, Some(behind)),
        None => (text, None),
    }
}

// What stands under own CSE-ID, where a text begins with that.
fn own_rest<'a>(text: &'a [u8], home: &Home) -> Option<Option<&'a [u8]>>
    ensures { option_map (λ rest. parts_left (option_map (λ t. t.now) rest)) result
        ≡ spec.own_parts home.now (between_slashes text.now) }
{
    let (csi, behind) = first_part(text);
    if csi == home.csi().entries() {
        Some(behind)
    } else {
        None
    }
}

// What stands under own provider and CSE-ID, where a text begins with these.
fn provided_rest<'a>(text: &'a [u8], home: &Home) -> Option<Option<&'a [u8]>>
    ensures { option_map (λ rest. parts_left (option_map (λ t. t.now) rest)) result
        ≡ option_and_then (spec.provided_parts home.now) (addresses.cut_at text.now) }
{
    match cut_at(text) {
        Some((sp, behind)) if sp == home.sp().entries() => own_rest(behind, home),
        _ => None,
    }
}

// What stands in a text behind own CSE-ID, where it says no other: the CSEBase alone has nothing
// there.
fn rest_here<'a>(text: &'a [u8], home: &Home) -> Option<Option<&'a [u8]>>
    ensures { option_map (λ rest. parts_left (option_map (λ t. t.now) rest)) result
        ≡ spec.parts_here home.now text.now }
{
    if text.starts_with(b"//") {
        return provided_rest(&text[2..], home);
    }
    if text.starts_with(b"/") {
        return own_rest(&text[1..], home);
    }
    Some(Some(text))
}

// The number of which a text is the name of an accepted request.
fn entry_number(text: &[u8]) -> Option<u64>
    ensures { result ≡ names.entry_number text.now }
{
    if text.starts_with(b"req") {
        read_digits(&text[3..])
    } else {
        None
    }
}

// That of a text that is one segment alone.
fn number_alone(text: &[u8]) -> Option<u64>
    ensures { result ≡ names.number_named (between_slashes text.now) }
{
    match first_part(text) {
        (segment, None) => entry_number(segment),
        (_, Some(_)) => None,
    }
}

// The number that stands there, where that is the name of an accepted request alone.
fn number_named(rest: Option<&[u8]>) -> Option<u64>
    ensures { result
        ≡ names.number_named (parts_left (option_map (λ t. t.now) rest.entry)) }
{
    match rest {
        Some(text) => number_alone(text),
        None => None,
    }
}

/// Where a text is sent: whether to this CSE, if to an address at all, and the number of the
/// accepted request that it names.
pub(crate) fn target_of(text: &[u8], home: &Home) -> (bool, Option<u64>)
    ensures here { is_ok (address_of home.now text.now) ≡ true
        → result.0 ≡ names.is_here (address_of home.now text.now) }
    ensures number { is_ok (address_of home.now text.now) ≡ true
        → result.1 ≡ names.number_in (address_of home.now text.now) }
{
    match rest_here(text, home) {
        Some(rest) => (true, number_named(rest)),
        None => (false, None),
    }
}

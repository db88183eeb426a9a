//! URLs of points of access and of notification targets.
ghost use Rattle.std.specs.Prelude.{◌≡◌, ◌+◌, ◌≤◌, ℕ, length, IfSome, IfNone, IsSomeAnd};
ghost use Rattle.std.specs.Char.{is_ascii_digit};
ghost use Rattle.std.specs.List.{list_all, prefix_len};
ghost use Rattle.std.specs.Option.{option_map};
ghost use Rattle.m2m_names.specs.Urls as spec;
ghost use Rattle.m2m_names.specs.Urls.{IsUrl, host_limit, port_digits_limit};
ghost use Rattle.m2m_names.specs.UrlReading.{past_scheme, host_at, port_digits_at, port_at};
ghost use Rattle.m2m_names.specs.UrlReading.{host_end_at};

use crate::digits_number;

/// The most bytes that an address or a URL has (the profile's).
pub const POINT_LIMIT: usize = 512;

/// The most bytes that a host has.
const HOST_LIMIT: usize = 253;

/// The most digits that the number of a port has, and the largest such number.
const PORT_DIGITS_LIMIT: usize = 5;

const LARGEST_PORT: u64 = 65_535;

/// The parts of a URL.
#[derive(Clone, Copy, Debug, PartialEq, Eq)]
pub struct UrlParts {
    /// The place at which the host and the port end.
    pub host_end: usize,
}

fn is_host_byte(b: u8) -> bool
    ensures { result ≡ spec.is_host_byte b }
{
    b.is_ascii_alphanumeric() || b == b'.' || b == b'-'
}

fn is_rest_byte(b: u8) -> bool
    ensures { result ≡ spec.is_rest_byte b }
{
    b.is_ascii_graphic() && b != b'#'
}

fn host_len(bytes: &[u8]) -> usize
    ensures value { result ≡ prefix_len spec.is_host_byte bytes.now }
    ensures bound { result ≤ length bytes.now }
{
    bytes.iter().take_while(|b| is_host_byte(**b)).count()
}

fn digits_len(bytes: &[u8]) -> usize
    ensures value { result ≡ prefix_len is_ascii_digit bytes.now }
    ensures bound { result ≤ length bytes.now }
{
    bytes.iter().take_while(|b| b.is_ascii_digit()).count()
}

fn are_rest_bytes(bytes: &[u8]) -> bool
    ensures { result ≡ list_all spec.is_rest_byte bytes.now }
{
    bytes.iter().all(|b| is_rest_byte(*b))
}

fn is_path(bytes: &[u8]) -> bool
    ensures { result ≡ spec.is_path bytes.now }
{
    match bytes {
        [] => true,
        [b'/', rest @ ..] => are_rest_bytes(rest),
        _ => false,
    }
}

fn after_scheme(bytes: &[u8]) -> Option<&[u8]>
    ensures { option_map (λ x. x.now) result ≡ past_scheme bytes.now }
{
    bytes.strip_prefix(b"http://")
}

#[tactic(auto, unfolding(crate::specs::UrlReading::host_at))]
fn host(bytes: &[u8]) -> Option<(usize, &[u8])>
    ensures value { option_map (λ x. (x.0, x.1.now)) result ≡ host_at bytes.now }
    ensures bound { IfSome result (λ x. x.0 ≤ host_limit) }
{
    let len = host_len(bytes);
    if len < 1 || len > HOST_LIMIT {
        return None;
    }
    Some((len, &bytes[len..]))
}

#[tactic(auto, unfolding(crate::specs::UrlReading::port_digits_at))]
fn port_digits(bytes: &[u8]) -> Option<(usize, &[u8])>
    ensures value { option_map (λ x. (x.0, x.1.now)) result ≡ port_digits_at bytes.now }
    ensures bound { IfSome result (λ x. x.0 ≤ port_digits_limit) }
{
    let len = digits_len(bytes);
    if len < 1 || len > PORT_DIGITS_LIMIT {
        return None;
    }
    let (digits, rest) = bytes.split_at(len);
    let number = digits_number(digits);
    if number < 1 || number > LARGEST_PORT {
        return None;
    }
    Some((len, rest))
}

#[tactic(auto, unfolding(crate::specs::UrlReading::port_at))]
fn port(bytes: &[u8]) -> Option<(usize, &[u8])>
    ensures value { option_map (λ x. (x.0, x.1.now)) result ≡ port_at bytes.now }
    ensures bound { IfSome result (λ x. x.0 ≤ 1 + port_digits_limit) }
{
    match bytes {
        [b':', rest @ ..] => {
            let (len, rest) = port_digits(rest)?;
            Some((1 + len, rest))
        }
        _ => Some((0, bytes)),
    }
}

#[tactic(auto, unfolding(crate::specs::UrlReading::host_end_at))]
fn host_end(text: &[u8]) -> Option<usize>
    ensures { result ≡ host_end_at text.now }
{
    let rest = after_scheme(text)?;
    let (host_len, rest) = host(rest)?;
    let (port_len, rest) = port(rest)?;
    if !is_path(rest) || text.len() > POINT_LIMIT {
        return None;
    }
    Some(7 + host_len + port_len)
}

/// Reads a URL: `http://`, a host of 1 to 253 letters, digits, `.` and `-`, then nothing or `:` and
/// 1 to 5 digits of a number from 1 to 65,535, then nothing or `/` and any printable ASCII
/// characters but space and `#`; at most 512 bytes.
pub fn read_url(text: &[u8]) -> Option<UrlParts>
    ensures found { IfSome result (λ parts. IsUrl text.now parts.host_end) }
    ensures only { (place : ℕ) → IsUrl text.now place
        → IsSomeAnd result (λ parts. parts.host_end ≡ place) }
    ensures none { IfNone result ((place : ℕ) → ¬ (IsUrl text.now place)) }
    ensures within { IfSome result (λ parts. parts.host_end ≤ length text.now) }
{
    let host_end = host_end(text)?;
    Some(UrlParts { host_end })
}

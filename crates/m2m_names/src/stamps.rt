//! Timestamps in UTC (TS-0004, 6.3.3).
ghost use Rattle.std.specs.Prelude.{◌≡◌, ◌↔◌, ◌<◌, ◌≤◌, ℕ, take, IfSome, IfNone, IsTrue, Some, pos};
ghost use Rattle.std.specs.Prelude.{◌≤ℤ◌, unsigned_abs};
ghost use Rattle.jiff.specs.Words.{epoch_day};
ghost use Rattle.std.specs.Option.{option_map};
ghost use Rattle.std.specs.Bool.{OnTrue, OnFalse};
ghost use Rattle.m2m_names.specs.Calendar.{day_number, day_of};
ghost use Rattle.m2m_names.specs.Stamps.{IsTimestamp, is_fraction, is_stamp, stamp_bytes, stamp_of};
ghost use Rattle.m2m_names.specs.Stamps.{last_moment, timestamp, two};
ghost use Rattle.m2m_names.specs.StampReading.{two_at, four_at, past_t, stamp_at, stamp_of_fields};
ghost use Rattle.m2m_names.specs.StampReading.{checked_day, checked_moment, moment_at};

use crate::name::are_digits;
use jiff::civil::{Date, date};

/// The last moment that a timestamp has, in seconds since 1970: the end of 9999.
pub const LAST_MOMENT: u64 = 253_402_300_799;

/// The numbers that stand in a timestamp.
#[derive(Clone, Copy)]
struct Fields {
    year: u16,
    month: u8,
    day: u8,
    hour: u8,
    minute: u8,
    second: u8,
}

fn two_digit_number(bytes: &[u8]) -> Option<(u8, &[u8])>
    ensures value { option_map (λ x. (x.0, x.1.now)) result ≡ two_at bytes.now }
    ensures bound { IfSome result (λ x. x.0 < 100) }
{
    let [tens, units, rest @ ..] = bytes else {
        return None;
    };
    if !tens.is_ascii_digit() || !units.is_ascii_digit() {
        return None;
    }
    Some(((tens - b'0') * 10 + (units - b'0'), rest))
}

#[tactic(auto, unfolding(crate::specs::StampReading::four_at))]
fn four_digit_number(bytes: &[u8]) -> Option<(u16, &[u8])>
    ensures value { option_map (λ x. (x.0, x.1.now)) result ≡ four_at bytes.now }
    ensures bound { IfSome result (λ x. x.0 < 10_000) }
{
    let (high, rest) = two_digit_number(bytes)?;
    let (low, rest) = two_digit_number(rest)?;
    Some((u16::from(high) * 100 + u16::from(low), rest))
}

fn after_t(bytes: &[u8]) -> Option<&[u8]>
    ensures { option_map (λ x. x.now) result ≡ past_t bytes.now }
{
    match bytes {
        [b'T', rest @ ..] => Some(rest),
        _ => None,
    }
}

#[tactic(auto, unfolding(crate::specs::StampReading::stamp_at))]
fn read_fields(bytes: &[u8]) -> Option<(Fields, &[u8])>
    ensures value { option_map (λ x. (stamp_of_fields x.0, x.1.now)) result ≡ stamp_at bytes.now }
    ensures year { IfSome result (λ x. x.0.year < 10_000) }
    ensures month { IfSome result (λ x. x.0.month < 100) }
    ensures day { IfSome result (λ x. x.0.day < 100) }
{
    let (year, rest) = four_digit_number(bytes)?;
    let (month, rest) = two_digit_number(rest)?;
    let (day, rest) = two_digit_number(rest)?;
    let rest = after_t(rest)?;
    let (hour, rest) = two_digit_number(rest)?;
    let (minute, rest) = two_digit_number(rest)?;
    let (second, rest) = two_digit_number(rest)?;
    Some((
        Fields {
            year,
            month,
            day,
            hour,
            minute,
            second,
        },
        rest,
    ))
}

fn ends_stamp(bytes: &[u8]) -> bool
    ensures { result ≡ is_fraction bytes.now }
{
    match bytes {
        [] => true,
        [b',', digits @ ..] => 1 <= digits.len() && digits.len() <= 6 && are_digits(digits),
        _ => false,
    }
}

/// How many days lie between 1 January 1970 and the date.
fn days_before(date: Date) -> u64
    requires { pos 1970 ≤ℤ date.year }
    ensures value { result ≡ day_number (unsigned_abs date.year) date.month date.day }
    ensures bound { result ≤ 2_932_896 }
{
    date.to_plain().to_unix_epoch_day() as u64
}

fn day_of_date(year: u16, month: u8, day: u8) -> Option<u64>
    requires year_in { year < 10_000 }
    requires month_in { month < 100 }
    requires day_in { day < 100 }
    ensures value { result ≡ checked_day year month day }
    ensures bound { IfSome result (λ n. n ≤ 2_932_896) }
{
    if year < 1970 {
        return None;
    }
    match Date::new(year as i16, month as i8, day as i8) {
        Ok(date) => Some(days_before(date)),
        Err(_) => None,
    }
}

/// The date that so many days after 1 January 1970 is.
fn date_of_day(day: u64) -> Date
    requires { day ≤ 2_932_896 }
    ensures { epoch_day result ≡ pos day }
{
    let first = date(1970, 1, 1).to_plain();
    Date::from_plain(first.checked_add(day as i64).unwrap())
}

fn moment_of(fields: Fields) -> Option<u64>
    requires year { fields.year < 10_000 }
    requires month { fields.month < 100 }
    requires day { fields.day < 100 }
    ensures { result ≡ checked_moment (stamp_of_fields fields) }
{
    let day = day_of_date(fields.year, fields.month, fields.day)?;
    if fields.hour >= 24 || fields.minute >= 60 || fields.second >= 60 {
        return None;
    }
    let hours = day * 24 + u64::from(fields.hour);
    let minutes = hours * 60 + u64::from(fields.minute);
    Some(minutes * 60 + u64::from(fields.second))
}

fn year_month_day(day: u64) -> (u16, u8, u8)
    requires { day ≤ 2_932_896 }
    ensures { record { year = result.0; month = result.1; day = result.2 } ≡ day_of day }
{
    let date = date_of_day(day);
    (date.year() as u16, date.month() as u8, date.day() as u8)
}

fn fields_of(moment: u64) -> Fields
    requires { moment ≤ last_moment }
    ensures { stamp_of_fields result ≡ stamp_of moment }
{
    let (year, month, day) = year_month_day(moment / 86_400);
    let seconds = moment % 86_400;
    Fields {
        year,
        month,
        day,
        hour: (seconds / 3600) as u8,
        minute: (seconds % 3600 / 60) as u8,
        second: (seconds % 60) as u8,
    }
}

fn two_digits(n: u8) -> [u8; 2]
    requires { n < 100 }
    ensures { result ≡ two n }
{
    [b'0' + n / 10, b'0' + n % 10]
}

fn bytes_of(fields: Fields) -> [u8; 15]
    requires { IsTrue (is_stamp (stamp_of_fields fields)) }
    ensures { result ≡ stamp_bytes (stamp_of_fields fields) }
{
    let [y1, y2] = two_digits((fields.year / 100) as u8);
    let [y3, y4] = two_digits((fields.year % 100) as u8);
    let [m1, m2] = two_digits(fields.month);
    let [d1, d2] = two_digits(fields.day);
    let [h1, h2] = two_digits(fields.hour);
    let [n1, n2] = two_digits(fields.minute);
    let [s1, s2] = two_digits(fields.second);
    [y1, y2, y3, y4, m1, m2, d1, d2, b'T', h1, h2, n1, n2, s1, s2]
}

#[tactic(auto, unfolding(crate::specs::StampReading::moment_at))]
fn moment_of_text(text: &[u8]) -> Option<u64>
    ensures { result ≡ moment_at text.now }
{
    let (fields, rest) = read_fields(text)?;
    if !ends_stamp(rest) {
        return None;
    }
    moment_of(fields)
}

/// Reads a timestamp: `YYYYMMDDTHHMMSS` in UTC, then nothing, or a comma and one to six digits,
/// which are dropped. The answer is in seconds since 1970.
pub fn read_stamp(text: &[u8]) -> Option<u64>
    ensures value { result ≡ moment_at text.now }

    // What is read is a timestamp of that moment, and each timestamp is read.
    ensures found { IfSome result (IsTimestamp text.now) }
    ensures only { (at : ℕ) → IsTimestamp text.now at → result ≡ Some at }
    ensures none { IfNone result ((at : ℕ) → ¬ (IsTimestamp text.now at)) }
    ensures last { IfSome result (λ at. at ≤ last_moment) }

    // It begins with what `write_stamp` writes, and what that writes is read as its moment.
    ensures front { IfSome result (λ at. take 15 text.now ≡ timestamp at) }
    ensures again { (at : ℕ) → at ≤ last_moment → text.now ≡ timestamp at → result ≡ Some at }
{
    moment_of_text(text)
}

/// Writes the timestamp of a moment, in seconds since 1970. It answers false after the end of 9999.
pub fn write_stamp(moment: u64, out: &mut [u8; 15]) -> bool
    ensures succeeds { IsTrue result ↔ (moment ≤ last_moment) }
    ensures ok { OnTrue result (out.new ≡ timestamp moment) }
    ensures means { OnTrue result (IsTimestamp out.new moment) }
    ensures err { OnFalse result (out.new ≡ out.old) }
{
    if moment > LAST_MOMENT {
        return false;
    }
    *out = bytes_of(fields_of(moment));
    true
}

//! The moment of an event.
ghost use Rattle.std.specs.Prelude.{◌≡◌};
ghost use Rattle.entity_model.specs.Entity as spec;

use m2m_names::LAST_MOMENT;

// The last moment of an event, in seconds since 1970: a second before the last timestamp.
const LAST_READING: u64 = LAST_MOMENT - 1;

// What is taken of a clock's reading.
pub(crate) fn cut(reading: u64) -> u64
    ensures { result ≡ spec.cut reading }
{
    reading.min(LAST_READING)
}

/// The moment of an event, in seconds since 1970: the clock's reading, but at most a second before
/// the last timestamp, and never before the moment of the last event.
pub fn event_moment(last: u64, reading: u64) -> u64
    ensures { result ≡ spec.event_moment last reading }
{
    last.max(cut(reading))
}

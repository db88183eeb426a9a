//! The tests of what the numbers of filters keep to.
ghost use Rattle.std.specs.Prelude.{◌↔◌, IsTrue};
ghost use Rattle.filter_criteria.specs.Bounds.{IsMoment, IsCount};

use m2m_names::{LARGEST_COUNT, LAST_MOMENT};

/// Whether a timestamp has the moment, in seconds since 1970.
pub fn is_moment(at: u64) -> bool
    ensures { IsTrue result ↔ IsMoment at }
{
    at <= LAST_MOMENT
}

/// Whether the number is at most 2^63 - 1.
pub fn is_count(n: u64) -> bool
    ensures { IsTrue result ↔ IsCount n }
{
    n <= LARGEST_COUNT
}

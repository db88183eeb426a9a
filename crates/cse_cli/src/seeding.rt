//! What clients don't know.

use std::time::Duration;
use std::{io, time};

fn nanos_of(time: io::Result<Duration>) -> u64 {
    match time {
        Ok(time) => time
            .as_secs()
            .wrapping_mul(1_000_000_000)
            .wrapping_add(time.subsec_nanos() as u64),
        Err(_) => 0,
    }
}

/// What clients don't know, for the tables of an entity: how long the machine has run, and the
/// moment, in nanoseconds.
pub fn seed<R: time::Clock>(rt: &R) -> u64 {
    nanos_of(rt.monotonic()) ^ nanos_of(rt.since_1970())
}

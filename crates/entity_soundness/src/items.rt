//! Tests of items of the outbox.
ghost use Rattle.std.specs.Prelude.{◌≡◌};
ghost use Rattle.entity_model.specs.Sound.{is_waiting};
ghost use Rattle.entity_soundness.specs.Tested as spec;

use notify_outbox::{Item, KEEPING_TIME};

/// Whether the item was appended by a moment, and hasn't waited the keeping time then.
fn is_waiting(item: &Item, last: u64) -> bool
    ensures { result ≡ is_waiting last item.now }
{
    item.since <= last && (last as u128) < item.since as u128 + KEEPING_TIME as u128
}

/// Whether the item may stand behind one of this number that was appended at this moment, in an
/// entity that has numbered so many items, and whose last moment is this one.
pub fn follows(item: &Item, number: u64, since: u64, most: u64, last: u64) -> bool
    ensures { result ≡ spec.follows last most number since item.now }
{
    number < item.number && item.number <= most && since <= item.since && is_waiting(item, last)
}

//! Bits by number, in a table that no choice of numbers makes slow.
ghost use Rattle.std.specs.Prelude.{◌≡◌};

use std::alloc::Global;
use std::marker::Model;

// How many rows may stand right below one.
const FAN: u64 = 16;

// A number has 16 digits to that base, so that no row stands below so many others.
const MOST_STEPS: u64 = 17;

// A place below this is written in 32 bits.
const MOST_ROWS: usize = 4_294_967_295;

/// Numbers with their bits, which clauses see as the list of these pairs.
///
/// The rows stand below each other, the first above all. A number is sought from there on: its last
/// digit to the base 16 says below which place to look next, its last but one where after that. So
/// a client can't choose numbers by which a look-up is long: among numbers below a million it
/// visits six rows at most.
#[derive(Drop)]
pub(crate) struct BitTable {
    rows: Vec<(u64, u32)>,
    // For each row the places of the 16 that may stand right below it. There is none at 0.
    below: Vec<u32>,
}

impl Model for BitTable {
    ghost use Rattle.std.specs.Prelude.{ℕ, List};

    ghost Value = { List (ℕ × ℕ) };

    ghost view = { λ t. t.rows.items };
}

impl BitTable {
    ghost use Rattle.std.specs.Prelude.{[], IfSome, Contains};
    ghost use Rattle.known_rights.specs.Tables.{NotesOrStays};

    /// No row; it takes no memory.
    pub(crate) fn new(alloc: Global) -> BitTable
        ensures { result ≡ [] }
    {
        BitTable {
            rows: Vec::new(alloc),
            below: Vec::new(alloc),
        }
    }

    /// The bits of a number that has a row.
    pub(crate) fn bits_at(&self, number: u64) -> Option<u32>
        ensures { IfSome result (λ bits. Contains self.now (number, bits)) }
    {
        let mut place = 0;
        let mut digits = number;
        for _ in 0..MOST_STEPS {
            let row = self.rows.get(place as usize)?;
            if row.0 == number {
                return Some(row.1);
            }
            place = *self.below.get(slot_of(place, digits))?;
            if place == 0 {
                return None;
            }
            digits /= FAN;
        }
        None
    }

    /// The number has these bits in a row besides, where there is room for it.
    pub(crate) fn note(&mut self, number: u64, bits: u32)
        ensures { NotesOrStays self.old self.new number bits }
    {
        let place = self.rows.len();
        if place >= MOST_ROWS {
            return;
        }
        let gap = self.gap_for(number);
        // Without room the bits are read again.
        if let Err(_) = self.below.extend_from_slice(&[0; 16]) {
            return;
        }
        if let Err(_) = self.rows.push((number, bits)) {
            return;
        }
        if let Some(gap) = gap {
            self.put_below(gap, place as u32);
        }
    }

    // Where the place of a new row of this number goes, but of the first one.
    fn gap_for(&self, number: u64) -> Option<usize> {
        let mut place = 0;
        let mut digits = number;
        for _ in 0..MOST_STEPS {
            let slot = slot_of(place, digits);
            place = *self.below.get(slot)?;
            if place == 0 {
                return Some(slot);
            }
            digits /= FAN;
        }
        None
    }

    fn put_below(&mut self, slot: usize, place: u32)
        ensures { self.new ≡ self.old }
    {
        if slot < self.below.len() {
            self.below[slot] = place;
        }
    }
}

// Where the place of the row is kept that stands below this one by the last of the digits.
fn slot_of(place: u32, digits: u64) -> usize {
    place as usize * FAN as usize + (digits % FAN) as usize
}

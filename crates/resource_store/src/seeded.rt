//! Tables by number.
ghost use Rattle.std.specs.Prelude.{◌≡◌, fold, length};
ghost use Rattle.std.specs.Hash.FoldHasher.{folded_multiply};
ghost use Rattle.std.specs.Int.{from_le_bytes, w64};
ghost use Rattle.resource_store.specs.Seeded as spec;

use std::collections::HashMap;
use std::hash::{BuildHasher, Hasher};

/// A table by number. Which numbers fall together in it hangs on the seed.
pub type NumberMap<V> = HashMap<u64, V, Seeded>;

// The first digits of pi behind the point, to base 16.
const FIRST_STATE: u64 = 0x243f_6a88_85a3_08d3;

// It is odd, and its bits look like chance. It is the one that std's `FoldHasher` has.
const MULTIPLIER: u64 = 0x9e37_79b9_7f4a_7c05;

// So many numbers in a row stand side by side in a table. Who goes through resources in order of
// creation finds most of them where it looked just now.
const ROW: u64 = 4;

// By so much the hashes of two numbers in a row differ. A table tells by these bits which of those
// that stand side by side is meant.
const STEP: u64 = 0x100_0000;

/// Makes the hashers of tables by number. Who doesn't know the seed can't choose numbers that fall
/// together.
#[derive(Clone, Copy)]
pub struct Seeded {
    pub(crate) initial: SeededHasher,
}

impl Seeded {
    /// By a seed, which clients don't know.
    pub fn of(seed: u64) -> Seeded
        ensures { result ≡ spec.seeded_by seed }
    {
        Seeded {
            initial: SeededHasher {
                state: mixed(FIRST_STATE, seed),
            },
        }
    }
}

impl BuildHasher for Seeded {
    type Hasher = SeededHasher;

    ghost build_hasher = { λ s. s.initial };

    #[inline(always)]
    fn build_hasher(&self) -> SeededHasher {
        self.initial
    }
}

/// Hashes a number or a byte by one multiplication, and other bytes one after another. The hashes
/// of four numbers in a row are alike but for two bits, by which a table tells them apart.
#[derive(Clone, Copy)]
pub struct SeededHasher {
    pub(crate) state: u64,
}

impl Hasher for SeededHasher {
    ghost write = { spec.written };

    ghost finish = { λ h. h.state };

    #[inline(always)]
    fn finish(&self) -> u64 {
        self.state
    }

    fn write(&mut self, bytes: &[u8]) {
        self.state = state_behind(self.state, bytes);
    }

    #[inline(always)]
    fn write_u8(&mut self, i: u8) {
        self.state = mixed(self.state, i as u64);
    }

    #[inline(always)]
    fn write_u64(&mut self, i: u64) {
        self.state = placed(self.state, i);
    }

    #[inline(always)]
    fn write_usize(&mut self, i: usize) {
        self.state = placed(self.state, i as u64);
    }
}

#[inline(always)]
fn mixed(state: u64, number: u64) -> u64
    ensures { result ≡ spec.mixed state number }
{
    folded_multiply(state ^ number, MULTIPLIER)
}

// The state behind a number: four in a row differ by their place among the four alone.
#[inline(always)]
fn placed(state: u64, number: u64) -> u64
    ensures { result ≡ spec.placed state number }
{
    mixed(state, number / ROW) ^ ((number % ROW) * STEP)
}

// The halves of a product of 128 bits, joined by xor.
#[inline(always)]
fn folded_multiply(a: u64, b: u64) -> u64
    ensures { result ≡ folded_multiply a b }
{
    let product = a as u128 * b as u128;
    (product & 0xFFFF_FFFF_FFFF_FFFF) as u64 ^ (product >> 64) as u64
}

fn state_behind(state: u64, bytes: &[u8]) -> u64
    ensures { result ≡ spec.state_behind state bytes.now }
{
    if bytes.len() == 8 {
        placed(state, number_of(bytes))
    } else {
        state_after_each(state, bytes)
    }
}

// The number of eight bytes, the lowest first.
fn number_of(bytes: &[u8]) -> u64
    requires { length bytes.now ≡ 8 }
    ensures { result ≡ from_le_bytes w64 bytes.now }
{
    u64::from_le_bytes([
        bytes[0], bytes[1], bytes[2], bytes[3], bytes[4], bytes[5], bytes[6], bytes[7],
    ])
}

fn state_after_each(state: u64, bytes: &[u8]) -> u64
    ensures { result ≡ fold spec.mixed state bytes.now }
{
    let mut after = state;
    for byte in bytes {
        after = mixed(after, *byte as u64);
    }
    after
}

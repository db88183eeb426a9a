//! The segments of an address.
ghost use Rattle.std.specs.Prelude.{◌≡◌, drop};

use arrayvec::ArrayVec;
use std::alloc::{AllocError, Global};
use std::marker::Model;

/// Most addresses have no more segments.
pub(crate) const FEW: usize = 6;

/// The segments of an address, which stand in its text. Clauses see them as the list of their
/// bytes.
#[derive(Debug, Drop)]
pub struct Segments<'a> {
    parts: Parts<'a>,
}

// Few segments take no memory.
#[derive(Debug, Drop)]
enum Parts<'a> {
    Few(ArrayVec<&'a [u8], FEW>),
    Many(Vec<&'a [u8]>),
}

impl<'a> Model for Segments<'a> {
    ghost use Rattle.std.specs.Prelude.{List, ℕ};

    ghost Value = { List (List ℕ) };

    ghost use Rattle.addressing.specs.Segments.{parts_of};

    ghost view = { λ s. parts_of s.parts };
}

impl<'a> Segments<'a> {
    ghost use Rattle.std.specs.Prelude.{◌≡◌, IfOk, drop, map};

    /// Takes no memory.
    pub fn of(parts: Vec<&'a [u8]>) -> Segments<'a>
        ensures { result ≡ map (λ p. p.now) parts.entry.items }
    {
        Segments {
            parts: Parts::Many(parts),
        }
    }

    /// The same of few.
    pub(crate) fn few(parts: ArrayVec<&'a [u8], FEW>) -> Segments<'a>
        ensures { result ≡ map (λ p. p.now) parts.entry.items }
    {
        Segments {
            parts: Parts::Few(parts),
        }
    }

    /// Its parts.
    pub fn entries(&self) -> &[&'a [u8]]
        ensures { map (λ p. p.now) result.now ≡ self.now }
    {
        match &self.parts {
            Parts::Few(parts) => parts.as_slice(),
            Parts::Many(parts) => parts,
        }
    }

    /// Those from a place on, from 0.
    #[tactic(auto, using(crate::proofs::PartLemmas::mapped_rest))]
    pub fn from_place(&self, alloc: Global, place: u64) -> Result<Segments<'a>, AllocError>
        ensures { IfOk result (λ s. s ≡ drop place self.now) }
    {
        let parts = Vec::from_slice(alloc, rest_of(self.entries(), place))?;
        Ok(Segments::of(parts))
    }
}

// What is left of parts from a place on.
fn rest_of<'s, 'a>(parts: &'s [&'a [u8]], place: u64) -> &'s [&'a [u8]]
    ensures { result.now ≡ drop place parts.now }
{
    if place < parts.len() as u64 {
        &parts[place as usize..]
    } else {
        &[]
    }
}

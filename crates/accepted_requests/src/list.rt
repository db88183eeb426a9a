//! The requests that were accepted.
ghost use Rattle.std.specs.Prelude.{◌≡◌, ◌==◌, filter, find, not, option_map};
ghost use Rattle.m2m_value.specs.Spelling.{capped};
ghost use Rattle.accepted_requests.specs.Entries.{still_stands};
ghost use Rattle.accepted_requests.specs.Sizes as sizes;

use crate::entry::LaterEntry;
use std::alloc::Global;
use std::marker::Model;

/// The requests that were accepted and are kept, in the order of their acceptance, and the last
/// number that was given to one. Contracts see them as these (`LaterRequestsData` of
/// specs/Entries).
#[derive(Drop)]
pub struct LaterRequests {
    pub entries: Vec<LaterEntry>,
    pub given: u64,
}

impl Model for LaterRequests {
    ghost use Rattle.accepted_requests.specs.Entries.{LaterRequestsData};

    ghost Value = { LaterRequestsData };

    ghost use Rattle.m2m_value.specs.Code.{data_code};
    ghost use Rattle.std.specs.Coded.{codes};

    ghost coded = { Prim.hlevel (codes, data_code) };

    ghost view = { λ r. record { entries = r.entries.items; given = r.given } };
}

/// The bytes of the results that are kept of these; 2^64 - 1 where they are more.
pub fn results_size(entries: &[LaterEntry]) -> u64
    ensures { result ≡ capped (sizes.results_size entries.now) }
{
    let mut kept = 0u64;
    let mut place = 0;
    'each: while place < entries.len() {
        kept = kept.saturating_add(entries[place].result_size());
        place += 1;
    }
    kept
}

// The one of a number.
fn numbered(entries: &[LaterEntry], number: u64) -> Option<&LaterEntry>
    ensures { option_map (λ e. e.now) result ≡ find (λ e. e.number == number) entries.now }
{
    entries.iter().find(|entry| entry.is_numbered(number))
}

// All but that one.
fn take_out(entries: &mut Vec<LaterEntry>, number: u64)
    ensures { entries.new.items ≡ filter (λ e. not (e.number == number)) entries.old.items }
{
    entries.retain(|entry| !entry.is_numbered(number));
}

// Those that aren't due.
fn keep_standing(entries: &mut Vec<LaterEntry>, moment: u64)
    ensures { entries.new.items ≡ filter (still_stands moment) entries.old.items }
{
    entries.retain(|entry| entry.stands(moment));
}

impl LaterRequests {
    ghost use Rattle.std.specs.Prelude.{◌≡◌, length, option_and_then, option_map};
    ghost use Rattle.accepted_requests.specs.Entries as spec;

    /// None yet.
    pub fn new(alloc: Global) -> LaterRequests
        ensures { result ≡ spec.no_entries }
    {
        LaterRequests {
            entries: Vec::new(alloc),
            given: 0,
        }
    }

    /// How many are kept.
    pub fn len(&self) -> u64
        ensures { result ≡ length self.now.entries }
    {
        self.entries.len() as u64
    }

    /// The last number that was given to one.
    pub(crate) fn last_number(&self) -> u64
        ensures { result ≡ self.now.given }
    {
        self.given
    }

    /// The one of a number.
    pub(crate) fn numbered(&self, number: u64) -> Option<&LaterEntry>
        ensures { option_map (λ e. e.now) result ≡ spec.numbered number self.now }
    {
        numbered(&self.entries, number)
    }

    /// The same where no number may be said.
    pub(crate) fn named(&self, number: Option<u64>) -> Option<&LaterEntry>
        ensures { option_map (λ e. e.now) result
            ≡ option_and_then (λ n. spec.numbered n self.now) number }
    {
        match number {
            Some(number) => self.numbered(number),
            None => None,
        }
    }

    /// That one goes.
    pub fn remove(&mut self, number: u64)
        ensures { self.new ≡ spec.without number self.old }
    {
        take_out(&mut self.entries, number);
    }

    /// Those that are due go.
    pub fn drop_due(&mut self, moment: u64)
        ensures { self.new ≡ spec.still_standing moment self.old }
    {
        keep_standing(&mut self.entries, moment);
    }
}

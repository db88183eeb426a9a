//! A filter whose labels and types are ready to be looked up.
ghost use Rattle.std.specs.Prelude.{◌≡◌, IfOk};
ghost use Rattle.retrieve_discover.specs.Asked as spec;

use filter_criteria::FilterParts;
use m2m_value::Text;
use std::alloc::{AllocError as OutOfMemory, Global};
use std::collections::BTreeSet;
use std::marker::Model;

/// A filter whose labels and types stand in sets, so that a resource is compared with few of them
/// however many are asked for. Clauses see it as the filter.
#[derive(Drop)]
pub struct Asked<'a> {
    filter: &'a FilterParts,
    labels: BTreeSet<Vec<u8>>,
    types: BTreeSet<u64>,
}

impl<'a> Model for Asked<'a> {
    ghost use Rattle.filter_criteria.specs.declared.filter.FilterParts.{FilterParts};
    ghost use Rattle.retrieve_discover.specs.Asked.{IsAsked};

    ghost Value = { FilterParts };

    ghost view = { λ a. a.filter.now };

    ghost invariant = { λ a. IsAsked a.filter.now a.labels a.types };
}

impl<'a> Asked<'a> {
    ghost use Rattle.std.specs.Prelude.{◌≡◌, ◌==◌, IfOk};
    ghost use Rattle.std.specs.List.{list_any};
    ghost use Rattle.retrieve_discover.specs.Asked as spec;

    /// The filter, with its labels and types copied into sets.
    pub fn of(alloc: Global, filter: &'a FilterParts) -> Result<Asked<'a>, OutOfMemory>
        ensures { IfOk result (λ a. a ≡ filter.now) }
    {
        Ok(Asked {
            filter,
            labels: label_set(alloc, filter.lbl.entries())?,
            types: number_set(alloc, filter.ty.entries())?,
        })
    }

    /// The filter.
    pub fn filter(&self) -> &FilterParts
        ensures { result.now ≡ self.now }
    {
        self.filter
    }

    /// Whether a text is one of the labels.
    pub(crate) fn has_label(&self, text: &[u8]) -> bool
        ensures { result ≡ spec.is_one_of self.now.lbl text.now }
    {
        self.labels.contains(text)
    }

    /// Whether a number is one of the types.
    pub(crate) fn has_type(&self, number: u64) -> bool
        ensures { result ≡ list_any (λ n. n == number) self.now.ty }
    {
        self.types.contains(&number)
    }
}

fn label_set(alloc: Global, labels: &[Text]) -> Result<BTreeSet<Vec<u8>>, OutOfMemory>
    ensures { IfOk result (λ set. spec.HasLabels labels.now set) }
{
    let mut set = BTreeSet::new(alloc);
    for label in labels {
        set.insert(Vec::from_slice(alloc, label.entries())?)?;
    }
    Ok(set)
}

fn number_set(alloc: Global, numbers: &[u64]) -> Result<BTreeSet<u64>, OutOfMemory>
    ensures { IfOk result (λ set. spec.HasNumbers numbers.now set) }
{
    let mut set = BTreeSet::new(alloc);
    for number in numbers {
        set.insert(*number)?;
    }
    Ok(set)
}

//! The filter of a request: conditions on resources, and how they are used.
ghost use Rattle.std.specs.Prelude.{◌≡◌, IfOk};

use m2m_value::{Labels, Numbers};
use std::alloc::{AllocError as OutOfMemory, Global};
use std::marker::Model;

/// What a filter is used for (TS-0001, 8.1.2).
#[derive(Clone, Copy, Debug, PartialEq, Eq)]
pub enum FilterUsage {
    /// The addresses of the resources that meet the conditions are wanted.
    Discovery,
    /// The operation is done only where the target meets the conditions.
    Conditional,
}

impl FilterUsage {
    ghost use Rattle.std.specs.Prelude.{◌≡◌};
    ghost use Rattle.filter_criteria.specs.Conditions as spec;

    /// All uses, in the order of their numbers.
    const ALL: [FilterUsage; 2] = [FilterUsage::Discovery, FilterUsage::Conditional];

    /// Its number (TS-0004, 6.3.4.2.31).
    pub fn number(self) -> i64
        ensures { result ≡ spec.usage_number self }
    {
        match self {
            FilterUsage::Discovery => 1,
            FilterUsage::Conditional => 2,
        }
    }

    /// The use of a number.
    pub fn numbered(number: i64) -> Option<FilterUsage>
        ensures { result ≡ spec.usage_numbered number }
    {
        FilterUsage::ALL
            .iter()
            .copied()
            .find(|usage| usage.number() == number)
    }
}

/// The fields of a filter, by their short names (TS-0004, 8.2.5). Moments are in seconds since
/// 1970, sizes in bytes; an empty list is no condition.
#[derive(Debug, Drop)]
pub struct FilterParts {
    /// Created before.
    pub crb: Option<u64>,
    /// Created after.
    pub cra: Option<u64>,
    /// Modified since.
    pub ms: Option<u64>,
    /// Unmodified since.
    pub us: Option<u64>,
    /// State tag smaller than.
    pub sts: Option<u64>,
    /// State tag bigger than.
    pub stb: Option<u64>,
    /// Expires before.
    pub exb: Option<u64>,
    /// Expires after.
    pub exa: Option<u64>,
    /// One of these labels.
    pub lbl: Labels,
    /// One of these type numbers.
    pub ty: Numbers,
    /// Size of this or above.
    pub sza: Option<u64>,
    /// Size below.
    pub szb: Option<u64>,
    /// How the filter is used.
    pub fu: Option<FilterUsage>,
    /// At most so many answers.
    pub lim: Option<u64>,
}

/// A filter. Its parts stand apart, so that a request, which seldom has one, is moved at less cost.
#[derive(Debug, Drop)]
pub struct Filter {
    parts: Box<FilterParts>,
}

impl Model for Filter {
    ghost use Rattle.filter_criteria.specs.declared.filter.FilterParts.{FilterParts};

    ghost Value = { FilterParts };

    ghost use Rattle.filter_criteria.specs.Filters.{IsSoundFilter};

    ghost view = { λ f. f.parts.value };

    ghost invariant = { λ f. IsSoundFilter f.parts.value };
}

impl FilterParts {
    /// Equal parts.
    pub fn copy(&self, alloc: Global) -> Result<FilterParts, OutOfMemory>
        ensures { IfOk result (λ f. f ≡ self.now) }
    {
        Ok(FilterParts {
            crb: self.crb,
            cra: self.cra,
            ms: self.ms,
            us: self.us,
            sts: self.sts,
            stb: self.stb,
            exb: self.exb,
            exa: self.exa,
            lbl: self.lbl.copy(alloc)?,
            ty: Numbers::of(Vec::from_slice(alloc, self.ty.entries())?),
            sza: self.sza,
            szb: self.szb,
            fu: self.fu,
            lim: self.lim,
        })
    }
}

impl Filter {
    ghost use Rattle.std.specs.Prelude.{◌≡◌, IfOk, IsUtf8};
    ghost use Rattle.std.specs.List.{AllByRecursion};
    ghost use Rattle.filter_criteria.specs.Conditions.{relabelled};
    ghost use Rattle.filter_criteria.specs.Filters.{IsSoundFilter};

    /// The filter of these parts.
    pub fn of(alloc: Global, parts: FilterParts) -> Result<Filter, OutOfMemory>
        requires { IsSoundFilter parts }
        ensures { IfOk result (λ f. f ≡ parts) }
    {
        let parts = Box::new(alloc, parts)?;
        Ok(Filter { parts })
    }

    /// Its parts, to be read.
    pub fn parts(&self) -> &FilterParts
        ensures same { result.now ≡ self.now }
        ensures sound { IsSoundFilter result.now }
    {
        &*self.parts
    }

    /// Its parts, to be kept.
    pub fn into_parts(self) -> FilterParts
        ensures same { result ≡ self }
        ensures sound { IsSoundFilter result }
    {
        Box::into_inner(self.parts)
    }

    /// The same with these labels. It takes no memory.
    pub(crate) fn with_labels(self, labels: Labels) -> Filter
        requires { AllByRecursion IsUtf8 labels }
        ensures { result ≡ relabelled labels self }
    {
        let Filter { mut parts } = self;
        parts.lbl = labels;
        Filter { parts }
    }

    /// An equal filter.
    pub fn copy(&self, alloc: Global) -> Result<Filter, OutOfMemory>
        ensures { IfOk result (λ f. f ≡ self.now) }
    {
        Filter::of(alloc, self.parts().copy(alloc)?)
    }
}

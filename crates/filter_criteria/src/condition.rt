//! The conditions of a filter, as a table.
ghost use Rattle.std.specs.Prelude.{◌≡◌};
ghost use Rattle.filter_criteria.specs.Conditions as spec;

/// A condition of a filter, or how the filter is used (TS-0001, 8.1.2).
#[derive(Clone, Copy, Debug, PartialEq, Eq)]
pub enum Condition {
    CreatedAfter,
    CreatedBefore,
    ExpireAfter,
    ExpireBefore,
    Usage,
    OneLabel,
    Limit,
    ModifiedSince,
    StateTagBigger,
    StateTagSmaller,
    SizeAbove,
    SizeBelow,
    OneType,
    UnmodifiedSince,
}

use Condition::*;

/// What the value of a condition is.
#[derive(Clone, Copy)]
pub enum Sort {
    /// A timestamp.
    Moment,
    /// A whole number from 0.
    Count,
    /// A label, or a list of them.
    Labels,
    /// The number of a resource type, or a list of them.
    Types,
    /// How the filter is used.
    Use,
}

/// A row of the table of conditions.
#[derive(Clone, Copy)]
struct Row {
    name: &'static str,
    sort: Sort,
}

impl Condition {
    /// All conditions, in byte order of their short names.
    pub const ALL: [Condition; 14] = [
        CreatedAfter,
        CreatedBefore,
        ExpireAfter,
        ExpireBefore,
        Usage,
        OneLabel,
        Limit,
        ModifiedSince,
        StateTagBigger,
        StateTagSmaller,
        SizeAbove,
        SizeBelow,
        OneType,
        UnmodifiedSince,
    ];

    /// Its row of the table.
    fn row(self) -> Row
        ensures name { result.name.now ≡ (spec.row_of_condition self).name }
        ensures sort { result.sort ≡ (spec.row_of_condition self).sort }
    {
        let (name, sort) = match self {
            CreatedAfter => ("cra", Sort::Moment),
            CreatedBefore => ("crb", Sort::Moment),
            ExpireAfter => ("exa", Sort::Moment),
            ExpireBefore => ("exb", Sort::Moment),
            Usage => ("fu", Sort::Use),
            OneLabel => ("lbl", Sort::Labels),
            Limit => ("lim", Sort::Count),
            ModifiedSince => ("ms", Sort::Moment),
            StateTagBigger => ("stb", Sort::Count),
            StateTagSmaller => ("sts", Sort::Count),
            SizeAbove => ("sza", Sort::Count),
            SizeBelow => ("szb", Sort::Count),
            OneType => ("ty", Sort::Types),
            UnmodifiedSince => ("us", Sort::Moment),
        };
        Row { name, sort }
    }

    /// Its short name (TS-0004, 8.2.5).
    pub fn name(self) -> &'static str
        ensures { result.now ≡ spec.name_of_condition self }
    {
        self.row().name
    }

    /// What its value is.
    pub fn sort(self) -> Sort
        ensures { result ≡ (spec.row_of_condition self).sort }
    {
        self.row().sort
    }

    /// The condition of a short name.
    pub fn named(name: &[u8]) -> Option<Condition>
        ensures { result ≡ spec.condition_named name.now }
    {
        Condition::ALL
            .iter()
            .copied()
            .find(|condition| condition.name().as_bytes() == name)
    }
}

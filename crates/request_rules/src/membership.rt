//! Which members an operation asks a group to have.
ghost use Rattle.std.specs.Prelude.{◌<◌};
ghost use Rattle.m2m_names.specs.Ids.{count_bound};

use m2m_value::Val;

/// The members that an operation asks a group to have.
#[derive(Clone, Copy)]
pub struct Membership<'a> {
    /// The values that name them.
    pub values: &'a [Val],
    /// How many there may be.
    pub most: u64,
    /// The number of their type, 0 for any.
    pub of_type: u64,
    /// What becomes of those of another type: 1 where they are left out, 2 where the group is
    /// refused, 3 where it is then one of any type.
    pub strategy: u64,
    pub ghost known_type: { of_type < count_bound },
    pub ghost known_strategy: { strategy < count_bound },
}

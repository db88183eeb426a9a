//! What is known of the rights of one originator.
ghost use Rattle.std.specs.Prelude.{◌≡◌};

use crate::table::BitTable;
use std::alloc::Global;

/// The bits that one originator has by rules which were read already, as the tree stands. What
/// there is no room for is read again.
#[derive(Drop)]
pub struct Known {
    // By `pv` of a policy.
    pub(crate) policies: BitTable,
    // By the policies that a container names, or as its owner.
    pub(crate) linked: BitTable,
    // By the long list of policies that was read last.
    pub(crate) last: Option<ReadList>,
}

/// A list of policies that was read: the number of a resource that has it, and the bits that these
/// policies give.
#[derive(Clone, Copy, Drop)]
pub(crate) struct ReadList {
    pub(crate) number: u64,
    pub(crate) bits: u32,
}

impl Known {
    ghost use Rattle.std.specs.Prelude.{ℕ, List};
    ghost use Rattle.resource_model.specs.Home.{HomeData};
    ghost use Rattle.resource_model.specs.Resource.{ResourceData};
    ghost use Rattle.known_rights.specs.Known as spec;

    /// Nothing is known; it takes no memory.
    pub fn nothing(alloc: Global) -> Known
        ensures { (home : HomeData) (nodes : List ResourceData) (originator : List ℕ)
            → spec.IsKnown home nodes originator result }
    {
        Known {
            policies: BitTable::new(alloc),
            linked: BitTable::new(alloc),
            last: None,
        }
    }
}

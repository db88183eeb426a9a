//! Addresses in the tree with an index.
ghost use Rattle.std.specs.Prelude.{◌≡◌, ◌+◌, ◌≤◌, length};
ghost use Rattle.addressing.specs.Names.{IsLocal, segments_of, spot_of};

use addressing::{Addr, Spot, resolve};
use resource_tree::IndexTree;
use std::sync::ledger::Ledger;
use tree_model::Steps;

/// What a local address names, by at most one step for each of its segments.
pub fn resolve_by_index<L: Ledger>(
    tree: &IndexTree,
    addr: &Addr,
    steps: &mut Steps<L>,
) -> Option<Spot>
    requires { IsLocal addr.now }
    ensures value { result ≡ spot_of (segments_of addr.now) tree.now }
    ensures counted { steps.old ≤ steps.new }
    ensures cost { steps.new ≤ steps.old + length (segments_of addr.now) }
{
    resolve(tree, addr, steps)
}

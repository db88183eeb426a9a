//! Homes.
ghost use Rattle.std.specs.Prelude.{◌≡◌};
ghost use Rattle.sight_compare.specs.Same.{same_home};

use tree_model::Home;

/// Whether two homes are equal in all their parts.
pub fn are_one_home(left: &Home, right: &Home) -> bool
    ensures { result ≡ same_home left.now right.now }
{
    left.sp().entries() == right.sp().entries()
        && left.csi().entries() == right.csi().entries()
        && left.base().entries() == right.base().entries()
        && left.cst() == right.cst()
        && left.admin().entries() == right.admin().entries()
}

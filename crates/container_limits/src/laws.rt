//! What holds of every container's instances.
ghost use Rattle.std.specs.Prelude.{◌≡◌, ℕ, ◌≤◌, List, [], ◌++◌, length, IsTrue, Option};
ghost use Rattle.resource_model.specs.Resource.{ResourceData};
ghost use Rattle.container_limits.specs.Limits.{do_fit, longest_fit};
ghost use Rattle.container_limits.specs.declared.limits.Limits as limits;

/// What stays of some instances is a suffix; it fits, unless not even the one that follows does;
/// and no suffix that fits is longer.
pub fn what_stays_is_the_longest_suffix_that_fits()
    ensures suffix { (l : limits.Limits) (new : Option ℕ) (rs : List ResourceData)
        → (front : List ResourceData) × (front ++ longest_fit l new rs ≡ rs) }
    ensures fits { (l : limits.Limits) (new : Option ℕ) (rs : List ResourceData)
        → IsTrue (do_fit l new []) → IsTrue (do_fit l new (longest_fit l new rs)) }
    ensures longest { (l : limits.Limits) (new : Option ℕ) (front rest : List ResourceData)
        → IsTrue (do_fit l new rest) → length rest ≤ length (longest_fit l new (front ++ rest)) }
{}

//! Laws of two lists that have one shape for an originator.
ghost use Rattle.std.specs.Prelude.{◌≡◌, Bool, List, ℕ, Option};
ghost use Rattle.std.specs.Prelude.{Some, IsTrue, map, option_map};
ghost use Rattle.resource_model.specs.Home.{HomeData};
ghost use Rattle.resource_model.specs.Resource.{ResourceData};
ghost use Rattle.tree_model.specs.Tree.{at, is_well_formed, replaced, without};
ghost use Rattle.policy_eval.specs.Rights.{grants, relinks, fan_grants};
ghost use Rattle.equal_sights.specs.Shape.{shape_list, shape_of};
ghost use Rattle.policy_laws.specs.Changes.{CountsSubscriptions, LeaveEnds, NewValue, changed};
ghost use Rattle.policy_laws.specs.Changes.{counted_anew, shape_changes};

/// On the shape of a list the originator finds the same resources and has the same rights. So what
/// it may do is decided by what it sees whatever its rights.
pub fn a_shape_keeps_rights()
    ensures found { (home : HomeData) (nodes : List ResourceData) (originator : List ℕ) (n : ℕ) →
        at n (shape_list home nodes originator)
        ≡ option_map (shape_of home nodes originator) (at n nodes) }
    ensures rights { (home : HomeData) (nodes : List ResourceData) (originator : List ℕ)
        (bit n : ℕ) →
        grants home (shape_list home nodes originator) originator bit n
        ≡ grants home nodes originator bit n }
    ensures links { (home : HomeData) (nodes : List ResourceData) (originator : List ℕ) (n : ℕ) →
        relinks home (shape_list home nodes originator) originator n
        ≡ relinks home nodes originator n }
    ensures fans { (home : HomeData) (nodes : List ResourceData) (originator : List ℕ) (bit n : ℕ) →
        fan_grants home (shape_list home nodes originator) originator bit n
        ≡ fan_grants home nodes originator bit n }
{}

/// Two lists of one shape have one shape after the same resources are removed from both, with what
/// stands below them.
pub fn equal_shapes_stay_equal_under_a_removal()
    ensures { (home : HomeData) (xs ys : List ResourceData) (originator : List ℕ)
        (picks : ℕ → Bool) → IsTrue (is_well_formed xs) → IsTrue (is_well_formed ys) →
        shape_list home xs originator ≡ shape_list home ys originator →
        shape_list home (without (λ r. picks r.number) xs) originator
        ≡ shape_list home (without (λ r. picks r.number) ys) originator }
{}

/// Two lists of one shape have one shape after a resource of each gets changes of which the shape
/// keeps the same, and the same expiry or its own. The changes may be of attributes by which
/// somebody is judged, but not of when others are due.
pub fn equal_shapes_stay_equal_under_a_replacement()
    ensures { (home : HomeData) (xs ys : List ResourceData) (originator : List ℕ) (n : ℕ)
        (r q : ResourceData) (changes more : List NewValue) (lt since et : Option ℕ) →
        IsTrue (is_well_formed xs) → IsTrue (is_well_formed ys) →
        at n xs ≡ Some r → at n ys ≡ Some q → LeaveEnds r changes → LeaveEnds q more →
        shape_changes home originator r changes ≡ shape_changes home originator q more →
        shape_list home xs originator ≡ shape_list home ys originator →
        shape_list home (replaced (changed changes lt et r) xs) originator
        ≡ shape_list home (replaced (changed more since et q) ys) originator }
{}

/// Two lists of one shape have one shape after the same subscriptions of both are counted anew.
pub fn equal_shapes_stay_equal_under_a_count()
    ensures { (home : HomeData) (xs ys : List ResourceData) (originator : List ℕ)
        (left : ℕ → Option ℕ) →
        IsTrue (is_well_formed xs) → IsTrue (is_well_formed ys) → CountsSubscriptions left xs →
        shape_list home xs originator ≡ shape_list home ys originator →
        shape_list home (map (counted_anew left) xs) originator
        ≡ shape_list home (map (counted_anew left) ys) originator }
{}

//! Laws of two lists of which an originator sees the same.
ghost use Rattle.std.specs.Prelude.{◌≡◌, ◌++◌, ◌∷◌, [], Bool, false, List, ℕ, Option};
ghost use Rattle.std.specs.Prelude.{Some, IsTrue, map};
ghost use Rattle.resource_model.specs.Home.{HomeData};
ghost use Rattle.m2m_names.specs.declared.types.Ty.TheVariants.{ContentInstance};
ghost use Rattle.resource_model.specs.Resource.{ResourceData, is_ty};
ghost use Rattle.tree_model.specs.Tree.{at, has, due, live, is_well_formed};
ghost use Rattle.tree_model.specs.Tree.{replaced, without};
ghost use Rattle.policy_laws.specs.Changes.{CountsSubscriptions, NewValue, ShowNoMore, changed};
ghost use Rattle.policy_laws.specs.Changes.{counted_anew, is_linked, learns_limits, seen_changes};
ghost use Rattle.equal_sights.specs.Seen.{Shows, seen, seen_list};

/// Two lists of which an originator sees the same have resources of the same numbers, and show it
/// the same of each: what shows it the one resource shows it the other.
pub fn equal_sights_show_the_same()
    ensures numbers { (home : HomeData) (originator : List ℕ) (xs ys : List ResourceData) →
        seen_list home xs originator ≡ seen_list home ys originator →
        (n : ℕ) → has n xs ≡ has n ys }
    ensures shown { (home : HomeData) (originator : List ℕ) (xs ys : List ResourceData) →
        seen_list home xs originator ≡ seen_list home ys originator →
        (n : ℕ) (r q s : ResourceData) → at n xs ≡ Some r → at n ys ≡ Some q →
        Shows home xs originator r s → Shows home ys originator q s }
{}

/// Where an originator sees the same of two lists, it still does after the same resources are
/// removed from both, with what stands below them, and after what is due is removed.
pub fn equal_sights_stay_equal_under_a_removal()
    ensures removed { (home : HomeData) (xs ys : List ResourceData) (originator : List ℕ)
        (picks : ℕ → Bool) → IsTrue (is_well_formed xs) → IsTrue (is_well_formed ys) →
        seen_list home xs originator ≡ seen_list home ys originator →
        seen_list home (without (λ r. picks r.number) xs) originator
        ≡ seen_list home (without (λ r. picks r.number) ys) originator }
    ensures live { (home : HomeData) (xs ys : List ResourceData) (originator : List ℕ)
        (moment : ℕ) →
        IsTrue (is_well_formed xs) → IsTrue (is_well_formed ys) →
        seen_list home xs originator ≡ seen_list home ys originator →
        seen_list home (live moment xs) originator ≡ seen_list home (live moment ys) originator }
{}

/// A resource that is appended changes nothing of what an originator sees of the others, where no
/// `acpi` or `macp` names it yet as a policy. So where it sees the same of two lists, it still does
/// after the same resource is appended to both. It sees when a content instance is due, and so it
/// has to learn the limits of that one's container.
pub fn equal_sights_stay_equal_under_an_append()
    ensures others { (home : HomeData) (nodes : List ResourceData) (originator : List ℕ)
        (r : ResourceData) →
        IsTrue (is_well_formed (nodes ++ r ∷ [])) → is_linked r nodes ≡ false →
        seen_list home (nodes ++ r ∷ []) originator
        ≡ seen_list home nodes originator ++ seen home (nodes ++ r ∷ []) originator r ∷ [] }
    ensures appended { (home : HomeData) (xs ys : List ResourceData) (originator : List ℕ)
        (r : ResourceData) →
        IsTrue (is_well_formed (xs ++ r ∷ [])) → IsTrue (is_well_formed (ys ++ r ∷ [])) →
        is_linked r xs ≡ false →
        (IsTrue (is_ty r.ty ContentInstance) → IsTrue (learns_limits home xs originator r.parent)) →
        seen_list home xs originator ≡ seen_list home ys originator →
        seen_list home (xs ++ r ∷ []) originator ≡ seen_list home (ys ++ r ∷ []) originator }
{}

/// A resource that is changed changes nothing of what an originator sees of the others, where the
/// changes show it nothing but themselves. So where it sees the same of two lists, it still does
/// after a resource of each gets the same changes, and even after changes of which it only sees the
/// same. Both get the same moments for `lt` and `et`, or keep theirs.
pub fn equal_sights_stay_equal_under_a_replacement()
    ensures others { (home : HomeData) (nodes : List ResourceData) (originator : List ℕ) (n : ℕ)
        (r : ResourceData) (changes : List NewValue) (lt et : Option ℕ) →
        IsTrue (is_well_formed nodes) → at n nodes ≡ Some r →
        ShowNoMore home nodes originator r changes →
        seen_list home (replaced (changed changes lt et r) nodes) originator
        ≡ replaced
        (seen home (replaced (changed changes lt et r) nodes) originator (changed changes lt et r))
        (seen_list home nodes originator) }
    ensures changed { (home : HomeData) (xs ys : List ResourceData) (originator : List ℕ) (n : ℕ)
        (r q : ResourceData) (changes : List NewValue) (lt et : Option ℕ) →
        IsTrue (is_well_formed xs) → IsTrue (is_well_formed ys) →
        at n xs ≡ Some r → at n ys ≡ Some q → ShowNoMore home xs originator r changes →
        seen_list home xs originator ≡ seen_list home ys originator →
        seen_list home (replaced (changed changes lt et r) xs) originator
        ≡ seen_list home (replaced (changed changes lt et q) ys) originator }
    ensures unseen { (home : HomeData) (xs ys : List ResourceData) (originator : List ℕ) (n : ℕ)
        (r q : ResourceData) (changes more : List NewValue) (lt et : Option ℕ) →
        IsTrue (is_well_formed xs) → IsTrue (is_well_formed ys) →
        at n xs ≡ Some r → at n ys ≡ Some q → ShowNoMore home xs originator r changes →
        seen_changes home xs originator r changes ≡ seen_changes home ys originator q more →
        seen_list home xs originator ≡ seen_list home ys originator →
        seen_list home (replaced (changed changes lt et r) xs) originator
        ≡ seen_list home (replaced (changed more lt et q) ys) originator }
{}

/// Where an originator sees the same of two lists, it still does after the same subscriptions of
/// both are counted anew: whatever its rights, it sees how many notifications are left to each.
pub fn equal_sights_stay_equal_under_a_count()
    ensures seen { (home : HomeData) (nodes : List ResourceData) (originator : List ℕ)
        (left : ℕ → Option ℕ) →
        IsTrue (is_well_formed nodes) → CountsSubscriptions left nodes →
        seen_list home (map (counted_anew left) nodes) originator
        ≡ map (counted_anew left) (seen_list home nodes originator) }
    ensures same { (home : HomeData) (xs ys : List ResourceData) (originator : List ℕ)
        (left : ℕ → Option ℕ) →
        IsTrue (is_well_formed xs) → IsTrue (is_well_formed ys) → CountsSubscriptions left xs →
        seen_list home xs originator ≡ seen_list home ys originator →
        seen_list home (map (counted_anew left) xs) originator
        ≡ seen_list home (map (counted_anew left) ys) originator }
{}

//! Laws of what is told, over every list.
ghost use Rattle.std.specs.Prelude.{◌≡◌, ◌+◌, ◌-◌, ℕ, List, Some, map};
ghost use Rattle.resource_model.specs.Home.{HomeData};
ghost use Rattle.resource_model.specs.Resource.{ResourceData};
ghost use Rattle.subscription_match.specs.Matching.{matching};
ghost use Rattle.subscription_match.specs.Notices.{told_to_all};
ghost use Rattle.subscription_match.specs.Spending.{count_for, kept, left_at};
ghost use Rattle.subscription_match.specs.declared.drafts.DraftParts.{DraftParts};
ghost use Rattle.tree_model.specs.Changes.{ChangeData};

/// Each subscription that matches a change is told of it once, in order of creation, and no other
/// is.
pub fn each_that_matches_is_told_once()
    ensures { (home : HomeData) (nodes : List ResourceData) (going : List ℕ) (change : ChangeData)
        → map (λ (d : DraftParts). d.subscription) (told_to_all home nodes going change)
        ≡ map (λ (r : ResourceData). Some r.number) (matching nodes going change) }
{}

/// What is kept for a subscription that counts, and what is left to it then, add up to what was
/// left before the operation.
pub fn what_is_kept_and_what_is_left_add_up()
    ensures { (nodes : List ResourceData) (drafts : List DraftParts) (n left : ℕ) →
        left_at nodes n ≡ Some left →
        count_for n (kept nodes drafts) + (left - count_for n drafts) ≡ left }
{}

//! Laws of rights, over every list.
ghost use Rattle.std.specs.Prelude.{◌≡◌, List, ℕ};
ghost use Rattle.resource_model.specs.Home.{HomeData};
ghost use Rattle.resource_model.specs.Resource.{ResourceData};
ghost use Rattle.tree_model.specs.Tree.{has};
ghost use Rattle.equal_sights.specs.Alike.{AreAlike};
ghost use Rattle.policy_laws.specs.Laws.{IsNeverGained};
ghost use Rattle.policy_eval.specs.Rights.{grants, relinks, fan_grants};

/// A removal grants nothing to anyone, whatever goes: not that of a policy to those whose resource
/// names it, nor to the owner of that resource.
pub fn removal_grants_nothing()
    ensures rights { (home : HomeData) (originator : List ℕ) (bit n : ℕ) →
        IsNeverGained (λ nodes. grants home nodes originator bit n) }
    ensures links { (home : HomeData) (originator : List ℕ) (n : ℕ) →
        IsNeverGained (λ nodes. relinks home nodes originator n) }
    ensures fans { (home : HomeData) (originator : List ℕ) (bit n : ℕ) →
        IsNeverGained (λ nodes. fan_grants home nodes originator bit n) }
{}

/// An originator has the same rights on two lists that are alike for it, place by place.
pub fn alike_lists_give_the_same_rights()
    ensures rights { (home : HomeData) (originator : List ℕ) (ss rs : List ResourceData) →
        AreAlike home originator ss rs → (bit n : ℕ) →
        grants home ss originator bit n ≡ grants home rs originator bit n }
    ensures links { (home : HomeData) (originator : List ℕ) (ss rs : List ResourceData) →
        AreAlike home originator ss rs → (n : ℕ) →
        relinks home ss originator n ≡ relinks home rs originator n }
    ensures fans { (home : HomeData) (originator : List ℕ) (ss rs : List ResourceData) →
        AreAlike home originator ss rs → (bit n : ℕ) →
        fan_grants home ss originator bit n ≡ fan_grants home rs originator bit n }
{}

//! Laws of what is shown and found, over every list.
ghost use Rattle.std.specs.Prelude.{◌≡◌, ℕ, List, IsTrue, Some, false};
ghost use Rattle.std.specs.List.{All};
ghost use Rattle.m2m_names.specs.Ids.{count_bound};
ghost use Rattle.m2m_names.specs.declared.codes.Rsc.TheVariants.{NoPrivilege};
ghost use Rattle.filter_criteria.specs.declared.filter.FilterParts.{FilterParts};
ghost use Rattle.primitive_json.specs.declared.request.RequestParts.{RequestParts};
ghost use Rattle.resource_model.specs.Home.{HomeData, IsHome};
ghost use Rattle.resource_model.specs.Resource.{ResourceData};
ghost use Rattle.tree_model.specs.Tree.{are_below, at, has, is_tree};
ghost use Rattle.addressing.specs.Laws.{have_free_names};
ghost use Rattle.policy_eval.specs.Rights.{grants, discovery_bit, retrieve_bit};
ghost use Rattle.retrieve_discover.specs.Contents.{referred, shown_below, shown_forest};
ghost use Rattle.retrieve_discover.specs.Descendants.{preorder};
ghost use Rattle.retrieve_discover.specs.Findings.{found};
ghost use Rattle.retrieve_laws.specs.Guard.{HasOwnAddresses, OthersAreShownByRight, is_address_of};
ghost use Rattle.retrieve_discover.specs.Replies.{discovered, refusal, retrieved};

/// What a Retrieve shows below a resource are the first of its descendants on which the originator
/// has RETRIEVE, and on all between: a filter over the list.
pub fn what_is_shown_is_a_filter()
    ensures { (home : HomeData) (nodes : List ResourceData) (originator : List ℕ) (n : ℕ)
        (r : ResourceData) → IsTrue (is_tree nodes) → at n nodes ≡ Some r →
        preorder (shown_forest home nodes originator n) ≡ shown_below home nodes originator n }
{}

/// Nothing is shown or found without a grant. Without the right on the target the answer is that
/// alone, whatever else is asked for. Of other resources those alone are shown or referred to on
/// which the originator has RETRIEVE, and those alone are found on which it has DISCOVERY.
pub fn nothing_is_shown_or_found_without_a_grant()
    ensures retrieved { (home : HomeData) (nodes : List ResourceData) (originator : List ℕ)
        (request : RequestParts) (n : ℕ) → IsTrue (has n nodes) →
        grants home nodes originator retrieve_bit n ≡ false →
        retrieved home nodes originator request n ≡ refusal request NoPrivilege }
    ensures shown { (home : HomeData) (nodes : List ResourceData) (originator : List ℕ) (n : ℕ) →
        All (λ r. IsTrue (grants home nodes originator retrieve_bit r.number))
        (preorder (shown_forest home nodes originator n)) }
    ensures referred { (home : HomeData) (nodes : List ResourceData) (originator : List ℕ) (n : ℕ) →
        All (λ r. IsTrue (grants home nodes originator retrieve_bit r.number))
        (referred home nodes originator n) }
    ensures discovered { (home : HomeData) (nodes : List ResourceData) (originator : List ℕ)
        (request : RequestParts) (n : ℕ) → grants home nodes originator discovery_bit n ≡ false →
        discovered home nodes originator request n ≡ refusal request NoPrivilege }
    ensures found { (home : HomeData) (nodes : List ResourceData) (originator : List ℕ)
        (f : FilterParts) (n : ℕ) →
        All (λ r. IsTrue (grants home nodes originator discovery_bit r.number))
        (found home nodes originator f n) }
{}

/// What a reply tells of other resources is told by right, where no two resources have one address.
/// Each resource whose object it shows below the first, and each child to which it refers, is one
/// on which the originator has RETRIEVE, and each address that it gives is that of one on which it
/// has DISCOVERY. No two have one address in a tree where each has a free name, the CSEBase that of
/// the home, and a number below 2^63.
pub fn others_are_shown_and_found_by_right()
    ensures retrieved { (home : HomeData) (nodes : List ResourceData) (originator : List ℕ)
        (request : RequestParts) (n : ℕ) → HasOwnAddresses nodes →
        OthersAreShownByRight home nodes originator (retrieved home nodes originator request n) }
    ensures discovered { (home : HomeData) (nodes : List ResourceData) (originator : List ℕ)
        (request : RequestParts) (n : ℕ) → HasOwnAddresses nodes →
        OthersAreShownByRight home nodes originator (discovered home nodes originator request n) }
    ensures addresses { (nodes : List ResourceData) (address : List ℕ)
        (r s : ResourceData) → HasOwnAddresses nodes →
        at r.number nodes ≡ Some r → at s.number nodes ≡ Some s →
        IsTrue (is_address_of nodes address r) → IsTrue (is_address_of nodes address s) →
        r.number ≡ s.number }
    ensures own { (home : HomeData) (nodes : List ResourceData) → IsHome home →
        IsTrue (is_tree nodes) →
        ((r : ResourceData) → at r.number nodes ≡ Some r → r.parent ≡ 0 → r.name ≡ home.base) →
        IsTrue (have_free_names nodes) → IsTrue (are_below count_bound nodes) →
        HasOwnAddresses nodes }
{}

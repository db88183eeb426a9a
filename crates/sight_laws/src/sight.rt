//! What is named, shown and found is the same on the list as an originator sees it.
ghost use Rattle.std.specs.Prelude.{◌≡◌, ℕ, List, IsTrue};
ghost use Rattle.primitive_json.specs.declared.request.RequestParts.{RequestParts};
ghost use Rattle.resource_model.specs.Home.{HomeData};
ghost use Rattle.resource_model.specs.Resource.{ResourceData};
ghost use Rattle.tree_model.specs.Tree.{is_well_formed};
ghost use Rattle.equal_sights.specs.Seen.{seen_list};
ghost use Rattle.retrieve_discover.specs.Replies.{discovered, retrieved};
ghost use Rattle.addressing.specs.Names.{spot_of};

/// What an address names is the same on the list as an originator sees it.
pub fn sight_keeps_what_is_named()
    ensures { (home : HomeData) (nodes : List ResourceData) (originator : List ℕ)
        (segments : List (List ℕ)) →
        spot_of segments (seen_list home nodes originator) ≡ spot_of segments nodes }
{}

/// A discovery is answered the same on the list as its originator sees it.
pub fn sight_keeps_what_is_found()
    ensures { (home : HomeData) (nodes : List ResourceData) (originator : List ℕ)
        (request : RequestParts) (n : ℕ) → IsTrue (is_well_formed nodes) →
        discovered home (seen_list home nodes originator) originator request n
        ≡ discovered home nodes originator request n }
{}

/// A Retrieve is answered the same on the list as its originator sees it.
pub fn sight_keeps_what_is_shown()
    ensures { (home : HomeData) (nodes : List ResourceData) (originator : List ℕ)
        (request : RequestParts) (n : ℕ) → IsTrue (is_well_formed nodes) →
        retrieved home (seen_list home nodes originator) originator request n
        ≡ retrieved home nodes originator request n }
{}

//! Laws of what an originator sees of a list, over every list.
ghost use Rattle.std.specs.Prelude.{◌≡◌, List, ℕ};
ghost use Rattle.std.specs.Prelude.{Some, IsTrue, map, option_map};
ghost use Rattle.resource_model.specs.Home.{HomeData};
ghost use Rattle.resource_model.specs.Resource.{ResourceData, ae_id};
ghost use Rattle.tree_model.specs.Shown.{attributes_of};
ghost use Rattle.tree_model.specs.Tree.{at, child_of, has, due, is_due, live, is_well_formed};
ghost use Rattle.policy_eval.specs.Rights.{retrieve_bit, grants, relinks, fan_grants};
ghost use Rattle.equal_sights.specs.Seen.{Shows, seen, seen_list, with_seen_owner};
ghost use Rattle.policy_laws.specs.Laws.{SightHasShape};

/// The list as an originator sees it has of each resource what is always seen and what its rights
/// show, and nothing else, and the originator finds the same on it and has the same rights. Always
/// seen are number, type, name and parent, when it is due, `acpi`, `macp` and whether the
/// originator owns it; the `aei` of an AE; the `csi` of a remote CSE and the first http URL of its
/// `poa`; the `enc` and the `exc` of a subscription; and of a policy the bits that the originator
/// has by `pv` and by `pvs`.
pub fn sight_keeps_rights()
    ensures shown { (home : HomeData) (nodes : List ResourceData) (originator : List ℕ)
        (r : ResourceData) →
        Shows home nodes originator r (seen home nodes originator r) }
    ensures found { (home : HomeData) (nodes : List ResourceData) (originator : List ℕ) (n : ℕ) →
        at n (seen_list home nodes originator)
        ≡ option_map (seen home nodes originator) (at n nodes) }
    ensures children { (home : HomeData) (nodes : List ResourceData) (originator : List ℕ)
        (parent : ℕ) (name : List ℕ) →
        child_of parent name (seen_list home nodes originator) ≡ child_of parent name nodes }
    ensures entities { (home : HomeData) (nodes : List ResourceData) (originator : List ℕ)
        (r : ResourceData) →
        ae_id (seen home nodes originator r) ≡ ae_id r }
    ensures rights { (home : HomeData) (nodes : List ResourceData) (originator : List ℕ)
        (bit n : ℕ) →
        grants home (seen_list home nodes originator) originator bit n
        ≡ grants home nodes originator bit n }
    ensures links { (home : HomeData) (nodes : List ResourceData) (originator : List ℕ) (n : ℕ) →
        relinks home (seen_list home nodes originator) originator n
        ≡ relinks home nodes originator n }
    ensures fans { (home : HomeData) (nodes : List ResourceData) (originator : List ℕ) (bit n : ℕ) →
        fan_grants home (seen_list home nodes originator) originator bit n
        ≡ fan_grants home nodes originator bit n }
{}

/// On the list as an originator sees it each resource is due when it is due, so that the same
/// resources are live at each moment, and the originator has the same rights on what is live. What
/// it may then retrieve it sees whole, but for the owner's name, and with the same attributes as
/// they are shown, the count and the sizes of a container's instances among them.
pub fn sight_keeps_what_is_live()
    ensures due { (home : HomeData) (nodes : List ResourceData) (originator : List ℕ)
        (r : ResourceData) →
        IsTrue (is_well_formed nodes) → at r.number nodes ≡ Some r →
        due (seen_list home nodes originator) (seen home nodes originator r) ≡ due nodes r }
    ensures picks { (home : HomeData) (nodes : List ResourceData) (originator : List ℕ) (moment : ℕ)
        (r : ResourceData) → IsTrue (is_well_formed nodes) → at r.number nodes ≡ Some r →
        is_due (seen_list home nodes originator) moment (seen home nodes originator r)
        ≡ is_due nodes moment r }
    ensures live { (home : HomeData) (nodes : List ResourceData) (originator : List ℕ)
        (moment : ℕ) →
        IsTrue (is_well_formed nodes) →
        live moment (seen_list home nodes originator)
        ≡ map (seen home nodes originator) (live moment nodes) }
    ensures rights { (home : HomeData) (nodes : List ResourceData) (originator : List ℕ)
        (moment bit n : ℕ) → IsTrue (is_well_formed nodes) →
        grants home (live moment (seen_list home nodes originator)) originator bit n
        ≡ grants home (live moment nodes) originator bit n }
    ensures links { (home : HomeData) (nodes : List ResourceData) (originator : List ℕ)
        (moment n : ℕ) →
        IsTrue (is_well_formed nodes) →
        relinks home (live moment (seen_list home nodes originator)) originator n
        ≡ relinks home (live moment nodes) originator n }
    ensures fans { (home : HomeData) (nodes : List ResourceData) (originator : List ℕ)
        (moment bit n : ℕ) → IsTrue (is_well_formed nodes) →
        fan_grants home (live moment (seen_list home nodes originator)) originator bit n
        ≡ fan_grants home (live moment nodes) originator bit n }
    ensures retrieved { (home : HomeData) (nodes : List ResourceData) (originator : List ℕ)
        (moment n : ℕ) → IsTrue (is_well_formed nodes) →
        IsTrue (grants home (live moment nodes) originator retrieve_bit n) →
        at n (live moment (seen_list home nodes originator))
        ≡ option_map (with_seen_owner home originator) (at n (live moment nodes)) }
    ensures attributes { (home : HomeData) (nodes : List ResourceData) (originator : List ℕ)
        (moment n : ℕ) (r : ResourceData) → IsTrue (is_well_formed nodes) →
        at n (live moment nodes) ≡ Some r →
        IsTrue (grants home (live moment nodes) originator retrieve_bit n) →
        attributes_of home (live moment (seen_list home nodes originator))
        (seen home nodes originator r)
        ≡ attributes_of home (live moment nodes) r }
{}

/// What an originator sees of a well-formed list has the shape of that list, which is what it sees
/// whatever its rights. So two lists of which it sees the same have the same shape.
pub fn sight_has_the_shape_of_the_list()
    ensures { SightHasShape }
{}

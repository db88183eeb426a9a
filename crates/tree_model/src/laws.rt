//! What holds of every tree, whatever keeps it.
ghost use Rattle.std.specs.Prelude.{◌≡◌, ℕ, ◌<◌, List, [], ◌∷◌, ◌++◌, filter, Bool, IsTrue, Some};
ghost use Rattle.std.specs.Prelude.{length, option_map};
ghost use Rattle.std.specs.Option.{option_or};
ghost use Rattle.m2m_names.specs.Ids.{count_bound};
ghost use Rattle.m2m_names.specs.declared.attributes.Attr.{Attr};
ghost use Rattle.m2m_names.specs.declared.attributes.Attr.TheVariants.{Cbs, Cni, Ri};
ghost use Rattle.m2m_names.specs.declared.types.Ty.TheVariants.{Container};
ghost use Rattle.m2m_value.specs.Data.{text};
ghost use Rattle.resource_model.specs.Attributes.{value_of, AreInOrder};
ghost use Rattle.resource_model.specs.Home.{HomeData};
ghost use Rattle.resource_model.specs.Resource.{ResourceData, ae_id, cse_id, id_of, is_ty};
ghost use Rattle.tree_model.specs.Shown.{added_rows, shown_rows, shown_count};
ghost use Rattle.tree_model.specs.Tree.{at, line_of, replaced, without, is_spared, fits_in};
ghost use Rattle.tree_model.specs.Tree.{is_tree, is_well_formed, standing, are_quiet, live};
ghost use Rattle.tree_model.specs.Tree.{instances_of, resource_of_id, sizes_of};

/// A removal takes exactly the resources that are picked, and those with a picked resource among
/// the ones that they stand under.
pub fn a_removal_takes_what_is_picked_and_what_stands_below()
    ensures { (picks : ResourceData → Bool) (nodes : List ResourceData) → IsTrue (is_tree nodes)
        → without picks nodes ≡ filter (λ r. is_spared picks nodes r.number) nodes }
{}

/// The line of a resource is the resource and then the line of its parent, whose number is smaller.
pub fn a_line_goes_up_from_parent_to_parent()
    ensures line { (nodes : List ResourceData) (n : ℕ) (r : ResourceData) → IsTrue (is_tree nodes)
        → at n nodes ≡ Some r → line_of n nodes ≡ r ∷ line_of r.parent nodes }
    ensures up { (nodes : List ResourceData) (n : ℕ) (r : ResourceData) → IsTrue (is_tree nodes)
        → at n nodes ≡ Some r → r.parent < n }
{}

/// A well-formed tree stays one: where a resource that fits comes last, where one is replaced that
/// keeps its standing, and where some are removed with all below them.
pub fn a_well_formed_tree_stays_one()
    ensures appended { (nodes : List ResourceData) (r : ResourceData)
        → IsTrue (is_well_formed nodes)
        → IsTrue (fits_in nodes r) → IsTrue (is_well_formed (nodes ++ r ∷ [])) }
    ensures replaced { (nodes : List ResourceData) (r : ResourceData)
        → IsTrue (is_well_formed nodes)
        → option_map standing (at r.number nodes) ≡ Some (standing r)
        → IsTrue (is_well_formed (replaced r nodes)) }
    ensures removed { (picks : ResourceData → Bool) (nodes : List ResourceData)
        → IsTrue (is_well_formed nodes) → IsTrue (is_well_formed (without picks nodes)) }
{}

/// A resource is named by its resource id.
pub fn a_resource_is_named_by_its_id()
    ensures { (nodes : List ResourceData) (r : ResourceData) → r.number < count_bound
        → at r.number nodes ≡ Some r → resource_of_id (id_of r) nodes ≡ Some r }
{}

/// No two resources share what stands once: siblings their name, application entities their AE-ID,
/// remote CSEs their CSE-ID.
pub fn no_two_resources_share_what_stands_once()
    ensures names { (nodes : List ResourceData) (m n : ℕ) (r s : ResourceData)
        → IsTrue (is_tree nodes) → at m nodes ≡ Some r → at n nodes ≡ Some s
        → r.parent ≡ s.parent → r.name ≡ s.name → m ≡ n }
    ensures ae_ids { (nodes : List ResourceData) (m n : ℕ) (r s : ResourceData) (aei : List ℕ)
        → IsTrue (is_tree nodes) → at m nodes ≡ Some r → at n nodes ≡ Some s
        → ae_id r ≡ Some aei → ae_id s ≡ Some aei → m ≡ n }
    ensures cse_ids { (nodes : List ResourceData) (m n : ℕ) (r s : ResourceData) (csi : List ℕ)
        → IsTrue (is_tree nodes) → at m nodes ≡ Some r → at n nodes ≡ Some s
        → cse_id r ≡ Some csi → cse_id s ≡ Some csi → m ≡ n }
{}

/// Before the moment until which a tree is quiet, all its resources are live.
pub fn all_is_live_while_it_is_quiet()
    ensures { (until moment : ℕ) (nodes : List ResourceData) → IsTrue (is_tree nodes)
        → IsTrue (are_quiet until nodes) → moment < until → live moment nodes ≡ nodes }
{}

/// What is shown of an attribute is what the entity adds, where it adds that one, and else what the
/// resource keeps; attributes are shown in their order, each once. A resource shows its own
/// identifier, and a container how many instances it has and what their sizes add up to.
pub fn an_attribute_is_shown_as_added_or_else_as_kept()
    ensures value { (home : HomeData) (nodes : List ResourceData) (r : ResourceData) (a : Attr)
        → value_of a (shown_rows home nodes r)
        ≡ option_or (value_of a (added_rows home nodes r)) (value_of a r.attrs) }
    ensures order { (home : HomeData) (nodes : List ResourceData) (r : ResourceData)
        → AreInOrder r.attrs → AreInOrder (shown_rows home nodes r) }
    ensures identifier { (home : HomeData) (nodes : List ResourceData) (r : ResourceData)
        → value_of Ri (shown_rows home nodes r) ≡ Some (text (id_of r)) }
    ensures count { (home : HomeData) (nodes : List ResourceData) (r : ResourceData)
        → IsTrue (is_ty r.ty Container) → value_of Cni (shown_rows home nodes r)
        ≡ Some (shown_count (length (instances_of r.number nodes))) }
    ensures sizes { (home : HomeData) (nodes : List ResourceData) (r : ResourceData)
        → IsTrue (is_ty r.ty Container) → value_of Cbs (shown_rows home nodes r)
        ≡ Some (shown_count (sizes_of r.number nodes)) }
{}

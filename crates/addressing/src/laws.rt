//! Laws of addresses, over every list.
ghost use Rattle.std.specs.Prelude.{◌≡◌, ◌<◌, ◌≤◌, ℕ, List, length, IsTrue, None, Ok, Some};
ghost use Rattle.m2m_names.specs.Ids.{count_bound};
ghost use Rattle.resource_model.specs.Home.{HomeData, IsHome};
ghost use Rattle.resource_model.specs.Resource.{ResourceData, id_of};
ghost use Rattle.tree_model.specs.Tree.{at, child_of, is_tree};
ghost use Rattle.addressing.specs.declared.spot.Spot.TheVariants.{Resource};
ghost use Rattle.addressing.specs.declared.addr.Addr.{Addr};
ghost use Rattle.m2m_names.specs.Urls.{point_limit};
ghost use Rattle.addressing.specs.Addresses.{KeepsText, address_of, printed};
ghost use Rattle.addressing.specs.Laws.{have_free_names, spot_named};
ghost use Rattle.addressing.specs.Names.{structured_of};

/// What an address that was read prints as is read as the same address, where it keeps a text.
pub fn what_is_printed_is_read_back()
    ensures { (home : HomeData) (text : List ℕ) (addr : Addr) → IsHome home →
        address_of home text ≡ Ok addr → KeepsText addr →
        address_of home (printed home addr) ≡ Ok addr }
{}

/// The structured address of a resource names it, where it is no longer than an address is, and so
/// does its resource id, where the CSEBase has another name.
pub fn a_resource_is_named_by_its_addresses()
    ensures structured { (home : HomeData) (nodes : List ResourceData) (r : ResourceData) →
        IsTrue (is_tree nodes) → IsTrue (have_free_names nodes) →
        at r.number nodes ≡ Some r → length (structured_of r.number nodes) ≤ point_limit →
        spot_named home (structured_of r.number nodes) nodes ≡ Some (Resource r.number) }
    ensures id { (home : HomeData) (nodes : List ResourceData) (r : ResourceData) →
        at r.number nodes ≡ Some r → r.number < count_bound → child_of 0 (id_of r) nodes ≡ None →
        spot_named home (id_of r) nodes ≡ Some (Resource r.number) }
{}

//! What a group keeps of its members.
ghost use Rattle.std.specs.Prelude.{◌≡◌, ℕ, List, None, Some, IsTrue};
ghost use Rattle.m2m_names.specs.declared.operations.Op.TheVariants.{Create, Update};
ghost use Rattle.m2m_names.specs.declared.types.Ty.TheVariants.{Group};
ghost use Rattle.primitive_json.specs.declared.request.RequestParts.{RequestParts};
ghost use Rattle.resource_model.specs.Resource.{ResourceData};
ghost use Rattle.tree_model.specs.Tree.{at};
ghost use Rattle.entity_model.specs.Entity.{EntityData};
ghost use Rattle.entity_model.specs.Sound.{IsSoundEntity};
ghost use Rattle.request_rules.specs.Creation.{new_resource};
ghost use Rattle.request_rules.specs.Groups.{does_edit_members, members_edited, members_wanted};
ghost use Rattle.request_rules.specs.Order.{creation_by, fault_at};
ghost use Rattle.request_rules.specs.Requests.{child_ty, named_by, named_for};
ghost use Rattle.create_delete.specs.Changing.{updated_by};
ghost use Rattle.change_laws.specs.Groups.{KeepsMembers};

/// A group keeps of the members that it is asked to have each once, and only those: by its
/// creation, and by an Update that names them or how many there may be. Who was asked for stays,
/// but for a member of another type where such members are left out. A group of a type has no
/// member that names a live resource of another one. It shows how many its members are, and whether
/// each names a live resource.
pub fn a_group_keeps_its_members_once()
    ensures created { (e : EntityData) (originator : List ℕ) (request : RequestParts) (n : ℕ)
        (parent : ResourceData)
        → fault_at Create e originator request n ≡ None
        → at n e.nodes ≡ Some parent → child_ty request ≡ Some Group
        → KeepsMembers e (members_wanted (named_for request Group))
        (new_resource (creation_by e originator request parent Group)).attrs }
    ensures updated { (e : EntityData) (originator : List ℕ) (request : RequestParts) (n : ℕ)
        (r : ResourceData) → IsSoundEntity e
        → fault_at Update e originator request n ≡ None → at n e.nodes ≡ Some r
        → IsTrue (does_edit_members r (named_by Update request r))
        → KeepsMembers e (members_edited r (named_by Update request r))
        (updated_by e request r).attrs }
{}

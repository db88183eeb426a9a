//! The changes that an operation makes.
ghost use Rattle.std.specs.Prelude.{◌≡◌, ℕ, List, None, Some, IsTrue};
ghost use Rattle.m2m_names.specs.Name.{is_originator};
ghost use Rattle.m2m_names.specs.declared.operations.Op.TheVariants.{Create, Update, Delete};
ghost use Rattle.m2m_names.specs.declared.types.Ty.{Ty};
ghost use Rattle.primitive_json.specs.declared.request.RequestParts.{RequestParts};
ghost use Rattle.resource_model.specs.Resource.{ResourceData};
ghost use Rattle.tree_model.specs.Tree.{at};
ghost use Rattle.entity_model.specs.Entity.{EntityData};
ghost use Rattle.entity_model.specs.Sound.{IsSoundEntity};
ghost use Rattle.request_rules.specs.Creation.{new_resource};
ghost use Rattle.request_rules.specs.Order.{creation_by, fault_at};
ghost use Rattle.request_rules.specs.Requests.{child_ty};
ghost use Rattle.create_delete.specs.Changes.{changes_at, creation_changes, deletion_changes};
ghost use Rattle.create_delete.specs.Changes.{named_attrs, update_changes};
ghost use Rattle.create_delete.specs.Changing.{container_update_of, pushed_by, updated_by};
ghost use Rattle.create_delete.specs.Joining.{gone_by};

/// The changes that an operation makes of a sound entity, where no place refuses it, are just what
/// it prepares. A creation: the new resource, and what is pushed out. An update: the resource as it
/// was and is, with the attributes that the request named, and what is pushed out. A deletion: the
/// target, and what stands below it.
pub fn the_changes_are_those_that_are_prepared()
    ensures creation { (e : EntityData) (originator : List ℕ) (request : RequestParts) (n : ℕ)
        (parent : ResourceData) (ty : Ty)
        → IsSoundEntity e → IsTrue (is_originator originator)
        → fault_at Create e originator request n ≡ None
        → at n e.nodes ≡ Some parent → child_ty request ≡ Some ty
        → changes_at Create e originator request n
        ≡ creation_changes e.nodes (new_resource (creation_by e originator request parent ty))
        (gone_by (container_update_of (creation_by e originator request parent ty))) }
    ensures update { (e : EntityData) (originator : List ℕ) (request : RequestParts) (n : ℕ)
        (r : ResourceData) → IsSoundEntity e
        → fault_at Update e originator request n ≡ None → at n e.nodes ≡ Some r
        → changes_at Update e originator request n
        ≡ update_changes e.nodes r (updated_by e request r) (named_attrs request r)
        (pushed_by e (updated_by e request r)) }
    ensures deletion { (e : EntityData) (originator : List ℕ) (request : RequestParts) (n : ℕ)
        → IsSoundEntity e → fault_at Delete e originator request n ≡ None
        → changes_at Delete e originator request n ≡ deletion_changes e.nodes n }
{}

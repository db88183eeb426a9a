//! What an operation changes, it changes by right, and an entity stays sound.
ghost use Rattle.std.specs.Prelude.{◌≡◌, ℕ, ◌++◌, ◌∷◌, [], List, Some, None, IsTrue};
ghost use Rattle.m2m_names.specs.Name.{is_originator};
ghost use Rattle.m2m_names.specs.declared.operations.Op.{Op};
ghost use Rattle.m2m_names.specs.declared.types.Ty.TheVariants.{Container};
ghost use Rattle.primitive_json.specs.declared.request.RequestParts.{RequestParts};
ghost use Rattle.resource_model.specs.Resource.{ResourceData, is_ty};
ghost use Rattle.tree_model.specs.Tree.{at, instances_of, instance_size};
ghost use Rattle.container_limits.specs.Limits.{kept, limits_of};
ghost use Rattle.entity_model.specs.Entity.{EntityData};
ghost use Rattle.entity_model.specs.Sound.{IsSoundEntity};
ghost use Rattle.create_delete.specs.Changing.{with_new_instance, nodes_updated};
ghost use Rattle.create_delete.specs.Guard.{ChangesByRight};
ghost use Rattle.create_delete.specs.Joining.{MayJoinContainer};
ghost use Rattle.create_delete.specs.NewResource.{IsReplacement};
ghost use Rattle.create_delete.specs.Telling.{drafts_at, told_effect_at};
ghost use Rattle.create_delete.specs.declared.joining.ContainerUpdate.{ContainerUpdate};

/// Of a sound entity an operation on a resource changes nothing but by a grant to the originator,
/// judged on the entity before. A resource is new only under the target, with CREATE. It differs
/// only with UPDATE, and then not in its `acpi`; or in that alone with the right to change it; or
/// in its state tag alone where a new instance stands in it, but for the moment of its last change;
/// or it is a subscription that counts, and was lowered alone, by as many as it was told. It is
/// gone only at or below a target with DELETE, or as an instance of a target to which the operation
/// adds with CREATE, or which it changes with UPDATE, or as a subscription that was told all that
/// was left to it.
pub fn nothing_is_changed_without_a_grant()
    ensures { (op : Op) (e : EntityData) (originator : List ℕ) (request : RequestParts) (n : ℕ)
        → IsSoundEntity e → IsTrue (is_originator originator)
        → ChangesByRight op e originator n (drafts_at op e originator request n)
        (told_effect_at op e originator request n).after }
{}

/// A sound entity stays sound under each operation.
pub fn an_entity_stays_sound()
    ensures { (op : Op) (e : EntityData) (originator : List ℕ) (request : RequestParts) (n : ℕ)
        → IsSoundEntity e → IsTrue (is_originator originator)
        → IsSoundEntity (told_effect_at op e originator request n).after }
{}

/// In a sound entity each container has just the longest run of its newest instances that its
/// limits allow, and none that is due. So after an update it has that run of those that it had, and
/// after a creation that run of those which fit beside the new one, and this.
pub fn a_container_keeps_the_newest_that_fit()
    ensures always { (e : EntityData) (c : ResourceData) → IsSoundEntity e
        → at c.number e.nodes ≡ Some c → IsTrue (is_ty c.ty Container)
        → kept (limits_of c) None e.last (instances_of c.number e.nodes)
        ≡ instances_of c.number e.nodes }
    ensures updated { (e : EntityData) (c : ResourceData) → IsSoundEntity e → IsReplacement e c
        → IsTrue (is_ty c.ty Container) → instances_of c.number (nodes_updated e c)
        ≡ kept (limits_of c) None e.last (instances_of c.number e.nodes) }
    ensures filled { (e : EntityData) (r : ResourceData) (f : ContainerUpdate) → IsSoundEntity e
        → (may : MayJoinContainer e r f) → instances_of r.parent (with_new_instance e r f).nodes
        ≡ kept (limits_of may.parent) (Some (instance_size r)) e.last
        (instances_of r.parent e.nodes) ++ r ∷ [] }
{}

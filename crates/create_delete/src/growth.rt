//! A resource joins a sound entity, or is updated in it.
ghost use Rattle.std.specs.Prelude.{◌≡◌, [], ◌∷◌, ◌++◌, false, IsTrue, OnOk, OnErr};
ghost use Rattle.m2m_names.specs.declared.types.Ty.TheVariants.{ContentInstance};
ghost use Rattle.resource_model.specs.Resource.{ResourceData, is_ty};
ghost use Rattle.tree_model.specs.Tree.{may_stand};
ghost use Rattle.entity_model.specs.Entity.{EntityData};
ghost use Rattle.entity_model.specs.Sound.{IsSoundEntity};
ghost use Rattle.create_delete.specs.Changing.{with_new_instance, nodes_updated, with_new_resource};
ghost use Rattle.create_delete.specs.Joining.{MayJoinContainer};
ghost use Rattle.create_delete.specs.NewResource.{IsNewResource, IsReplacement};
ghost use Rattle.create_delete.specs.declared.joining.ContainerUpdate.{ContainerUpdate};

use std::alloc::AllocError as OutOfMemory;
use tree_model::{Resource, Tree};

/// An entity stays sound where a resource comes last that may, but for a content instance, which
/// moves others besides.
pub fn an_entity_stays_sound_where_a_resource_joins()
    ensures { (e : EntityData) (r : ResourceData) → IsSoundEntity e → IsNewResource e r
        → is_ty r.ty ContentInstance ≡ false
        → IsSoundEntity (with_new_resource e r) }
{}

/// An entity stays sound where a content instance comes last that may, its container is stamped
/// anew, and what the limits of that push out goes.
pub fn an_entity_stays_sound_where_an_instance_joins()
    ensures { (e : EntityData) (r : ResourceData) (f : ContainerUpdate) → IsSoundEntity e
        → MayJoinContainer e r f
        → IsSoundEntity (with_new_instance e r f) }
{}

/// An entity stays sound where a resource takes the place of the one of its number, and what the
/// limits of a container push out goes.
pub fn an_entity_stays_sound_where_a_resource_is_updated()
    ensures { (e : EntityData) (c : ResourceData) → IsSoundEntity e → IsReplacement e c
        → IsSoundEntity (record e { nodes = nodes_updated e c }) }
{}

/// Puts a resource last. Only this takes memory, and where there is none nothing has changed.
pub(crate) fn put_last<T: Tree>(tree: &mut T, resource: Resource) -> Result<(), OutOfMemory>
    requires { IsTrue (may_stand (T.nodes tree.old) resource) }
    ensures ok { OnOk result (T.nodes tree.new ≡ T.nodes tree.old ++ resource ∷ []) }
    ensures err { OnErr result (T.nodes tree.new ≡ T.nodes tree.old) }
{
    match tree.insert(resource) {
        Ok(()) => Ok(()),
        Err((_, fault)) => Err(fault),
    }
}

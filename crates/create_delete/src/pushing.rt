//! What the limits of a container push out (TS-0001, 9.6.6).
ghost use Rattle.std.specs.Prelude.{◌≡◌, IfOk};
ghost use Rattle.m2m_names.specs.declared.types.Ty.TheVariants.{Container};
ghost use Rattle.resource_model.specs.Resource.{is_ty};
ghost use Rattle.create_delete.specs.Changing as spec;

use container_limits::{Limits, evictions};
use entity_model::Entity;
use m2m_names::Ty;
use m2m_value::Numbers;
use std::alloc::{AllocError as OutOfMemory, Global};
use tree_model::{Resource, Tree};

/// The numbers of the instances that a container pushes out as it is, before one of this size, if
/// any, oldest first.
pub(crate) fn pushed_out<T: Tree>(
    alloc: Global,
    entity: &Entity<T>,
    container: &Resource,
    size: Option<u64>,
) -> Result<Numbers, OutOfMemory>
    ensures { IfOk result (λ n. n ≡ spec.pushed_out entity.now container.now size) }
{
    evictions(
        alloc,
        &entity.tree,
        container.number(),
        Limits::of(container),
        size,
        entity.last,
    )
}

/// The numbers of the instances that a resource pushes out that was changed, where it is a
/// container.
pub(crate) fn pushed_by<T: Tree>(
    alloc: Global,
    entity: &Entity<T>,
    resource: &Resource,
) -> Result<Numbers, OutOfMemory>
    ensures { IfOk result (λ n. n ≡ spec.pushed_by entity.now resource.now) }
{
    if resource.is(Ty::Container) {
        pushed_out(alloc, entity, resource, None)
    } else {
        Ok(Numbers::of(Vec::new(alloc)))
    }
}

//! What must not stand twice.
ghost use Rattle.std.specs.Prelude.{◌≡◌, true, not, IfOk, Some, option_map, IsTrue};
ghost use Rattle.std.specs.Option.{option_map_or};
ghost use Rattle.m2m_names.specs.Ids as ids;
ghost use Rattle.m2m_names.specs.Name.{is_originator};
ghost use Rattle.m2m_names.specs.declared.types.Ty.TheVariants.{Ae};
ghost use Rattle.tree_model.specs.Tree as trees;
ghost use Rattle.request_rules.specs.Creation as spec;
ghost use Rattle.request_rules.specs.Creation.{creation_of};

use crate::naming::{new_ae_id, text_named};
use entity_model::Entity;
use m2m_names::{Attr, Ty};
use m2m_value::{Members, Text};
use std::alloc::{AllocError as OutOfMemory, Global};
use tree_model::{Resource, Tree, has_ae, has_channel, has_child, has_cse, own_cse_id};

fn has_free_cse_id<T: Tree>(
    alloc: Global,
    entity: &Entity<T>,
    csi: Option<&Text>,
) -> Result<bool, OutOfMemory>
    ensures { IfOk result (λ b. b ≡ option_map_or (spec.is_free_cse_id entity.now)
        (option_map (λ t. t.now) csi.entry) true) }
{
    match csi {
        Some(csi) => {
            let own = own_cse_id(alloc, &entity.home)?;
            Ok(!has_cse(&entity.tree, csi.entries()) && own.entries() != csi.entries())
        }
        None => Ok(true),
    }
}

fn has_free_ae_id<T: Tree>(
    alloc: Global,
    entity: &Entity<T>,
    originator: &[u8],
) -> Result<bool, OutOfMemory>
    requires { IsTrue (is_originator originator.now) }
    ensures { IfOk result (λ b. b
        ≡ not (trees.has_ae_id (Some (spec.ae_id_for originator.now entity.now.next))
        entity.now.nodes)) }
{
    let aei = new_ae_id(alloc, originator, entity.next)?;
    Ok(!has_ae(&entity.tree, aei.entries()))
}

// Whether it is nothing that it alone may be.
fn is_single<T: Tree>(
    alloc: Global,
    entity: &Entity<T>,
    originator: &[u8],
    ty: Ty,
    parent: &Resource,
    members: &Members,
) -> Result<bool, OutOfMemory>
    requires { IsTrue (is_originator originator.now) }
    ensures { IfOk result (λ b. b
        ≡ spec.is_single ty (creation_of entity.now originator.now ty parent.now members.now)) }
{
    match ty {
        Ty::Ae => has_free_ae_id(alloc, entity, originator),
        Ty::RemoteCse => has_free_cse_id(alloc, entity, text_named(Attr::Csi, members)),
        Ty::PollingChannel => Ok(!has_channel(&entity.tree, parent.number())),
        _ => Ok(true),
    }
}

/// Whether nothing stands in the tree already that a creation of this name alone may be.
pub(crate) fn is_unique<T: Tree>(
    alloc: Global,
    entity: &Entity<T>,
    originator: &[u8],
    ty: Ty,
    parent: &Resource,
    members: &Members,
    name: &Text,
) -> Result<bool, OutOfMemory>
    requires originator { IsTrue (is_originator originator.now) }
    requires name { name.now ≡ spec.name_for ty entity.now.next members.now }
    ensures { IfOk result (λ b. b
        ≡ spec.is_unique (creation_of entity.now originator.now ty parent.now members.now)) }
{
    if has_child(&entity.tree, parent.number(), name.entries()) {
        return Ok(false);
    }
    is_single(alloc, entity, originator, ty, parent, members)
}

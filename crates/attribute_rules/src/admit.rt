//! The contents of a Create and of an Update: judged, and what they say.
ghost use Rattle.std.specs.Prelude.{◌≡◌, ◌≤◌, IfOk, IfSome, IfNone, IsOkUnless, IsTrue};
ghost use Rattle.std.specs.Prelude.{IsUtf8};
ghost use Rattle.m2m_names.specs.Name.{is_free_name};
ghost use Rattle.m2m_names.specs.Stamps.{last_moment};
ghost use Rattle.m2m_names.specs.declared.attributes.Attr.TheVariants.{Et};
ghost use Rattle.resource_model.specs.Attributes.{value_of};
ghost use Rattle.attribute_kinds.specs.Kinds.{has_kind};
ghost use Rattle.attribute_kinds.specs.declared.kinds.Kind.TheVariants.{Stamp};
ghost use Rattle.attribute_rules.specs.Admission.{fault_of, Refuses};
ghost use Rattle.attribute_rules.specs.Contents.{edit_of, wanted_of};
ghost use Rattle.attribute_rules.specs.declared.table.Writing.TheVariants.{Create, Update};

use crate::admission::sort_out;
use crate::contents::{Edit, Wanted, edit_in, wanted_in};
use crate::faults::AttrFault;
use crate::table::Writing;
use m2m_names::Ty;
use m2m_value::{OutOfMemory, Val};
use std::alloc::Global;

/// What a creation of a resource of the type wants by this content, or the first fault of the
/// content. Only the name of an unknown attribute may take memory to say.
pub fn admit_create(alloc: Global, ty: Ty, content: Val) -> Result<Wanted, AttrFault>
    ensures value { IfOk result (λ w. w ≡ wanted_of ty content) }
    ensures name { IfOk result (λ w. IfSome w.name (λ t. IsTrue (is_free_name t))) }
    ensures utf8 { IfOk result (λ w. IfSome w.name (λ t. IsUtf8 t)) }
    ensures last { IfOk result (λ w. IfSome w.et (λ m. m ≤ last_moment)) }
    ensures admitted { IfNone (fault_of Create ty content)
        (IsOkUnless result AttrFault.OutOfMemory) }
    ensures refused { IfSome (fault_of Create ty content) (Refuses result) }
{
    match sort_out(alloc, Writing::Create, ty, content) {
        Ok(members) => Ok(wanted_in(alloc, ty, &members)?),
        Err(fault) => Err(fault),
    }
}

/// What an update of a resource of the type changes by this content, or the first fault of the
/// content. Only the name of an unknown attribute may take memory to say.
pub fn admit_update(alloc: Global, ty: Ty, content: Val) -> Result<Edit, AttrFault>
    ensures value { IfOk result (λ e. e ≡ edit_of ty content) }
    ensures expiry { IfOk result (λ e.
        IfSome (value_of Et e.sets) (λ d. IsTrue (has_kind Stamp d))) }
    ensures admitted { IfNone (fault_of Update ty content)
        (IsOkUnless result AttrFault.OutOfMemory) }
    ensures refused { IfSome (fault_of Update ty content) (Refuses result) }
{
    match sort_out(alloc, Writing::Update, ty, content) {
        Ok(members) => Ok(edit_in(alloc, ty, &members)?),
        Err(fault) => Err(fault),
    }
}

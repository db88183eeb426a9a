//! The attributes that an update names.
ghost use Rattle.std.specs.Prelude.{◌≡◌, IfOk};
ghost use Rattle.create_delete.specs.Changes as spec;

use m2m_names::Attr;
use m2m_value::Members;
use std::alloc::{AllocError as OutOfMemory, Global};
use tree_model::AttrSet;

/// The attributes that the content of an update names, as its change tells them.
pub fn named_attrs(alloc: Global, members: &Members) -> Result<AttrSet, OutOfMemory>
    ensures { IfOk result (λ a. a ≡ spec.attrs_of members.now) }
{
    let mut attrs = Vec::new(alloc);
    for (name, _) in members.entries() {
        if let Some(attr) = Attr::from_short_bytes(name.entries()) {
            attrs.push(attr)?;
        }
    }
    Ok(AttrSet::of(attrs))
}

//! Where copies stand.
ghost use Rattle.std.specs.Prelude.{◌≡◌, ◌++◌, ◌<◌, codes, IfOk, IsUtf8};
ghost use Rattle.m2m_names.specs.Ids.{count_bound};
ghost use Rattle.announce_copy.specs.Announced as announced;
ghost use Rattle.announce_copy.specs.Copies as spec;

use m2m_names::Ty;
use m2m_value::Text;
use resource_model::id_text;
use std::alloc::{AllocError as OutOfMemory, Global};
use tree_model::{Home, Resource};

// A text, and another one behind it.
fn joined(alloc: Global, first: &[u8], second: &[u8]) -> Result<Text, OutOfMemory>
    requires first { IsUtf8 first.now }
    requires second { IsUtf8 second.now }
    ensures value { IfOk result (λ t. t ≡ first.now ++ second.now) }
    ensures utf8 { IfOk result (λ t. IsUtf8 t) }
{
    let room = first.len().saturating_add(second.len());
    let mut bytes = Vec::with_capacity(alloc, room)?;
    bytes.extend_from_slice(first)?;
    bytes.extend_from_slice(second)?;
    Ok(Text::of(bytes))
}

/// The name of the copy of a resource of this type and number.
pub(crate) fn copy_name(alloc: Global, ty: Ty, number: u64) -> Result<Text, OutOfMemory>
    ensures value { IfOk result (λ t. t ≡ announced.copy_name ty number) }
    ensures utf8 { IfOk result (λ t. IsUtf8 t) }
{
    joined(alloc, id_text(alloc, ty, number)?.entries(), b"A")
}

// The path to the copy of this name below this path.
fn path_below(alloc: Global, path: &[u8], name: &[u8]) -> Result<Text, OutOfMemory>
    requires path { IsUtf8 path.now }
    requires name { IsUtf8 name.now }
    ensures value { IfOk result (λ t. t ≡ path.now ++ codes "/" ++ name.now) }
    ensures utf8 { IfOk result (λ t. IsUtf8 t) }
{
    joined(alloc, path, joined(alloc, b"/", name)?.entries())
}

/// The path to what the copy of a resource stands under.
pub(crate) fn parent_path(
    alloc: Global,
    home: &Home,
    resource: &Resource,
) -> Result<Text, OutOfMemory>
    ensures value { IfOk result (λ t. t ≡ spec.parent_path home.now resource.now) }
    ensures utf8 { IfOk result (λ t. IsUtf8 t) }
{
    let path = joined(alloc, b"/-/", home.csi().entries())?;
    if !resource.is(Ty::ContentInstance) {
        return Ok(path);
    }
    let name = copy_name(alloc, Ty::Container, resource.parent())?;
    path_below(alloc, path.entries(), name.entries())
}

/// The path to the copy itself.
pub(crate) fn copy_path(
    alloc: Global,
    home: &Home,
    resource: &Resource,
) -> Result<Text, OutOfMemory>
    ensures value { IfOk result (λ t. t ≡ spec.copy_path home.now resource.now) }
    ensures utf8 { IfOk result (λ t. IsUtf8 t) }
{
    let path = parent_path(alloc, home, resource)?;
    let name = copy_name(alloc, resource.ty(), resource.number())?;
    path_below(alloc, path.entries(), name.entries())
}

/// The address at a CSE to which a path leads.
pub(crate) fn address_at(alloc: Global, peer: &Text, path: &Text) -> Result<Text, OutOfMemory>
    requires peer { IsUtf8 peer.now }
    requires path { IsUtf8 path.now }
    ensures value { IfOk result (λ t. t ≡ peer.now ++ path.now) }
    ensures utf8 { IfOk result (λ t. IsUtf8 t) }
{
    joined(alloc, peer.entries(), path.entries())
}

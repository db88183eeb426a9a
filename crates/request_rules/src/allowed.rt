//! What no place refuses, and what was learned of it.
use m2m_names::{Attr, Ty};
use m2m_value::{Members, Text, Val};
use tree_model::Resource;

/// The policies that a content names at `acpi` and at `macp`, by their resource ids, in order and
/// with repeats.
#[derive(Drop)]
pub struct Links {
    pub acpi: Vec<Val>,
    pub macp: Vec<Val>,
}

/// A Create that no place refuses, and what was learned of it: the parent of the new resource, its
/// type, the attributes that the content names, its name, the moment at which it expires, in
/// seconds since 1970, the size in bytes of a content, the attributes in which a group keeps its
/// members, and the policies that are named.
#[derive(Drop)]
pub struct AllowedCreate<'a> {
    pub parent: &'a Resource,
    pub ty: Ty,
    pub named: &'a Members,
    pub name: Text,
    pub et: u64,
    pub size: u64,
    pub members: Vec<(Attr, Val)>,
    pub links: Links,
}

/// An Update that no place refuses: the resource, the attributes that the content names, those in
/// which a group keeps the members that it is to have from now on, and the policies that are named.
#[derive(Drop)]
pub struct AllowedUpdate<'a> {
    pub target: &'a Resource,
    pub named: &'a Members,
    pub members: Vec<(Attr, Val)>,
    pub links: Links,
}

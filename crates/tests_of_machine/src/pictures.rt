//! All that an entity has, but for its moment.
use crate::session::{LAST, OPENED, made_by};
use entity_model::Entity;
use m2m_value::write;
use notify_outbox::Outbox;
use primitive_json::{Note, write_request};
use resource_model::Resource;
use resource_tree::IndexTree;
use std::alloc::{AllocError as OutOfMemory, AllocGlobal, Global};
use std::process::Abort;
use tree_model::Tree;

fn push_numbers(alloc: Global, out: &mut Vec<u8>, resource: &Resource) -> Result<(), OutOfMemory> {
    let (number, ty, parent) = (resource.number(), resource.ty().number(), resource.parent());
    let (ct, lt, et) = (resource.ct(), resource.lt(), resource.et());
    let numbers = format!(in alloc; "{number} {ty} {parent} {ct} {lt} {et}\n")?;
    out.extend_from_slice(numbers.as_bytes())
}

fn push_attrs(out: &mut Vec<u8>, resource: &Resource) -> Result<(), OutOfMemory> {
    for entry in resource.attrs().entries() {
        out.extend_from_slice(entry.0.short().as_bytes())?;
        write(&entry.1, out)?;
    }
    Ok(())
}

fn push_resource(alloc: Global, out: &mut Vec<u8>, resource: &Resource) -> Result<(), OutOfMemory> {
    push_numbers(alloc, out, resource)?;
    out.extend_from_slice(resource.name().entries())?;
    out.extend_from_slice(resource.owner().entries())?;
    push_attrs(out, resource)
}

fn push_tree(alloc: Global, out: &mut Vec<u8>, tree: &IndexTree) -> Result<(), OutOfMemory> {
    for place in 0..tree.len() {
        if let Some(resource) = tree.nth(place) {
            push_resource(alloc, out, resource)?;
        }
    }
    Ok(())
}

fn push_note(alloc: Global, out: &mut Vec<u8>, note: &Note) -> Result<(), OutOfMemory> {
    let value = write_request(alloc, &note.parts().request)?;
    write(&value, out)
}

/// Every item, which is taken for it.
fn push_items(alloc: Global, out: &mut Vec<u8>, outbox: &mut Outbox) -> Result<(), OutOfMemory> {
    for _ in 0..outbox.len() {
        if let Some(note) = outbox.take_first() {
            push_note(alloc, out, &note)?;
        }
    }
    Ok(())
}

fn picture_of(alloc: Global, entity: Entity<IndexTree>) -> Result<Vec<u8>, OutOfMemory> {
    let Entity {
        home: _home,
        tree,
        next,
        last: _,
        mut outbox,
    } = entity;
    let mut out = format!(in alloc; "{next}\n")?.into_bytes();
    push_tree(alloc, &mut out, &tree)?;
    push_items(alloc, &mut out, &mut outbox)?;
    Ok(out)
}

/// All that an entity has: the number of its next resource, each resource by all that is kept of
/// it, and each item of its outbox.
pub(crate) fn picture(rt: &(impl Abort + AllocGlobal), entity: Entity<IndexTree>) -> Vec<u8> {
    picture_of(rt.alloc(), entity).expect(rt, "memory")
}

/// What the session makes up to each moment, where nothing fails.
pub(crate) fn pictures(rt: &(impl Abort + AllocGlobal)) -> Result<Vec<Vec<u8>>, OutOfMemory> {
    let mut pictures = Vec::new(rt.alloc());
    for moment in OPENED..=LAST {
        pictures.push(picture(rt, made_by(rt, moment)))?;
    }
    Ok(pictures)
}

/// What the session makes up to a moment, of what it makes up to each.
pub(crate) fn picture_by<'a>(rt: &impl Abort, pictures: &'a [Vec<u8>], moment: u64) -> &'a [u8] {
    let place = moment.saturating_sub(OPENED) as usize;
    pictures.get(place).expect(rt, "a picture").as_slice()
}

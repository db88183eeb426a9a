//! The lines of tables, and trees from lines: one for each resource says its number, type, name,
//! parent and owner, when it was created and changed and when it expires, and its attributes.
ghost use Rattle.std.specs.Prelude.{◌≤◌, ◌<◌, IfOk, IsUtf8};
ghost use Rattle.m2m_names.specs.Ids.{count_bound};
ghost use Rattle.m2m_names.specs.Stamps.{last_moment};

use m2m_names::{Attr, LAST_MOMENT, Ty, read_digits};
use m2m_value::{Members, OutOfMemory, Text, Val, read, write};
use plain_tree::ListTree;
use std::alloc::Global;
use tree_model::{Attrs, Moments, Resource, Tree, may_insert};

/// A word of an answer.
pub(crate) fn word(alloc: Global, word: &str) -> Result<String, OutOfMemory> {
    String::from_str(alloc, word)
}

/// The number that a text is in decimal, or 0.
pub(crate) fn number(text: &str) -> u64
    ensures { result < count_bound }
{
    read_digits(text.as_bytes()).unwrap_or(0)
}

/// The moment that a text is, or the last.
pub(crate) fn moment(text: &str) -> u64
    ensures { result ≤ last_moment }
{
    read_digits(text.as_bytes())
        .unwrap_or(LAST_MOMENT)
        .min(LAST_MOMENT)
}

/// The text of these words.
pub(crate) fn text(alloc: Global, words: &str) -> Result<Text, OutOfMemory>
    ensures { IfOk result (λ t. IsUtf8 t) }
{
    Text::from_slice(alloc, words.as_bytes())
}

/// The value that a text spells; null where it spells none.
fn parsed(alloc: Global, json: &str) -> Result<Val, OutOfMemory> {
    match read(alloc, json.as_bytes()) {
        Ok(value) => Ok(value),
        Err(_) => Ok(Val::null()),
    }
}

/// The text of a value.
pub(crate) fn spelled(alloc: Global, value: &Val) -> Result<String, OutOfMemory> {
    let mut out = Vec::new(alloc);
    write(value, &mut out)?;
    String::from_utf8_lossy(alloc, out.as_slice())
}

fn named(alloc: Global, members: &Members) -> Result<Attrs, OutOfMemory> {
    let mut attrs = Attrs::new(alloc);
    for (key, value) in members.entries() {
        if let Some(attr) = Attr::from_short_bytes(key.entries()) {
            attrs.set(attr, value.copy(alloc)?)?;
        }
    }
    Ok(attrs)
}

fn attrs_of(alloc: Global, json: &str) -> Result<Attrs, OutOfMemory> {
    match parsed(alloc, json)?.as_obj() {
        Some(members) => named(alloc, members),
        None => Ok(Attrs::new(alloc)),
    }
}

fn made(alloc: Global, words: &[&str]) -> Result<Option<Resource>, OutOfMemory> {
    match words {
        [n, ty, name, parent, owner, ct, lt, et, json] => {
            let moments = Moments {
                ct: moment(ct),
                lt: moment(lt),
                et: moment(et),
            };
            let ty = Ty::from_word(ty.as_bytes()).unwrap_or(Ty::CseBase);
            let (name, owner) = (text(alloc, name)?, text(alloc, owner)?);
            let attrs = attrs_of(alloc, json)?;
            let resource = Resource::of(number(n), ty, name, number(parent), owner, moments, attrs);
            Ok(Some(resource))
        }
        _ => Ok(None),
    }
}

fn resource(alloc: Global, line: &str) -> Result<Option<Resource>, OutOfMemory> {
    let words: Vec<&str> = line.split(' ').collect(alloc)?;
    made(alloc, words.as_slice())
}

/// Puts a resource where it may stand.
pub(crate) fn put<T: Tree>(tree: &mut T, resource: Resource) {
    if may_insert(&*tree, &resource) {
        let _put = tree.insert(resource);
    }
}

/// The tree of these resources.
pub(crate) fn tree_of(alloc: Global, lines: &str) -> Result<ListTree, OutOfMemory> {
    let mut tree = ListTree::new(alloc);
    for line in lines.lines() {
        if let Some(resource) = resource(alloc, line)? {
            put(&mut tree, resource);
        }
    }
    Ok(tree)
}

//! From a value to a resource.
ghost use Rattle.std.specs.Prelude.{◌≡◌, ◌≤◌, ◌<◌, [], IfOk, IfSome, IsUtf8};
ghost use Rattle.m2m_names.specs.Ids.{count_bound};
ghost use Rattle.m2m_names.specs.Stamps.{last_moment};
ghost use Rattle.m2m_value.specs.View.{as_text};
ghost use Rattle.resource_lines.specs.Read as spec;

use filter_criteria::{is_moment, read_type_number};
use m2m_names::{Attr, Ty};
use m2m_value::{MemberKey, OutOfMemory, Text, Val};
use resource_model::{Attrs, Moments, Resource};
use std::alloc::Global;

/// Where a resource stands: its number, its type, and the number of its parent.
#[derive(Clone, Copy)]
struct Place {
    number: u64,
    ty: Ty,
    parent: u64,
}

fn moment_in(value: &Val) -> Option<u64>
    ensures value { result ≡ spec.moment_in value.now }
    ensures bound { IfSome result (λ moment. moment ≤ last_moment) }
{
    let moment = value.as_count()?;
    if is_moment(moment) {
        Some(moment)
    } else {
        None
    }
}

/// The values of a list; any other value has none.
fn values_in(value: &Val) -> &[Val]
    ensures { result.now ≡ spec.values_in value.now }
{
    match value.as_list() {
        Some(items) => items.entries(),
        None => &[],
    }
}

fn moments_by(values: &[Val]) -> Option<Moments>
    ensures value { result ≡ spec.moments_by values.now }
    ensures ct { IfSome result (λ m. m.ct ≤ last_moment) }
    ensures lt { IfSome result (λ m. m.lt ≤ last_moment) }
    ensures et { IfSome result (λ m. m.et ≤ last_moment) }
{
    match values {
        [ct, lt, et] => {
            let ct = moment_in(ct)?;
            let lt = moment_in(lt)?;
            let et = moment_in(et)?;
            Some(Moments { ct, lt, et })
        }
        _ => None,
    }
}

fn ty_in(value: &Val) -> Option<Ty>
    ensures { result ≡ spec.ty_in value.now }
{
    Ty::from_number(read_type_number(value)?)
}

fn place_by(values: &[Val]) -> Option<Place>
    ensures value { result ≡ spec.place_by values.now }
    ensures number { IfSome result (λ p. p.number < count_bound) }
    ensures parent { IfSome result (λ p. p.parent < count_bound) }
{
    match values {
        [own, ty, parent] => {
            let number = own.as_count()?;
            let ty = ty_in(ty)?;
            let parent = parent.as_count()?;
            Some(Place { number, ty, parent })
        }
        _ => None,
    }
}

/// The attributes that the members of an object are, each in its place.
fn attrs_with(alloc: Global, members: &[(MemberKey, Val)]) -> Result<Option<Attrs>, OutOfMemory>
    ensures { IfOk result (λ a. a ≡ spec.rows_with [] members.now) }
{
    let mut attrs = Attrs::new(alloc);
    for member in members {
        let Some(attr) = Attr::from_short_bytes(member.0.entries()) else {
            return Ok(None);
        };
        attrs.set(attr, member.1.copy(alloc)?)?;
    }
    Ok(Some(attrs))
}

fn attrs_in(alloc: Global, value: &Val) -> Result<Option<Attrs>, OutOfMemory>
    ensures { IfOk result (λ a. a ≡ spec.rows_in value.now) }
{
    match value.as_obj() {
        Some(members) => attrs_with(alloc, members.entries()),
        None => Ok(None),
    }
}

/// The moments that a value is.
fn moments_in(value: &Val) -> Option<Moments>
    ensures value { result ≡ spec.moments_in value.now }
    ensures ct { IfSome result (λ m. m.ct ≤ last_moment) }
    ensures lt { IfSome result (λ m. m.lt ≤ last_moment) }
    ensures et { IfSome result (λ m. m.et ≤ last_moment) }
{
    moments_by(values_in(value))
}

/// The place that a value is.
fn place_in(value: &Val) -> Option<Place>
    ensures value { result ≡ spec.place_in value.now }
    ensures number { IfSome result (λ p. p.number < count_bound) }
    ensures parent { IfSome result (λ p. p.parent < count_bound) }
{
    place_by(values_in(value))
}

fn text_in(value: &Val, alloc: Global) -> Result<Option<Text>, OutOfMemory>
    ensures value { IfOk result (λ t. t ≡ as_text value.now) }
    ensures utf8 { IfOk result (λ t. IfSome t IsUtf8) }
{
    match value.as_text() {
        Some(text) => Ok(Some(text.copy(alloc)?)),
        None => Ok(None),
    }
}

/// Five values as a resource.
fn resource_by(alloc: Global, values: &[Val]) -> Result<Option<Resource>, OutOfMemory>
    ensures { IfOk result (λ r. r ≡ spec.resource_by values.now) }
{
    let [place, name, owner, moments, attrs] = values else {
        return Ok(None);
    };
    let (Some(place), Some(moments)) = (place_in(place), moments_in(moments)) else {
        return Ok(None);
    };
    let Some(name) = text_in(name, alloc)? else {
        return Ok(None);
    };
    let Some(owner) = text_in(owner, alloc)? else {
        return Ok(None);
    };
    let Some(attrs) = attrs_in(alloc, attrs)? else {
        return Ok(None);
    };
    let Place { number, ty, parent } = place;
    Ok(Some(Resource::of(number, ty, name, parent, owner, moments, attrs)))
}

/// The resource that a value is, if it is one.
pub fn resource_in(alloc: Global, value: &Val) -> Result<Option<Resource>, OutOfMemory>
    ensures { IfOk result (λ r. r ≡ spec.resource_in value.now) }
{
    resource_by(alloc, values_in(value))
}

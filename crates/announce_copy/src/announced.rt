//! What is announced of a resource.
ghost use Rattle.std.specs.Prelude.{◌≡◌};
ghost use Rattle.std.specs.Str.{bytes_eq};
ghost use Rattle.m2m_names.specs.Attributes.{attr_short};
ghost use Rattle.m2m_value.specs.Shapes.{is_text_of};
ghost use Rattle.policy_eval.specs.Rules.{is_attr_in};
ghost use Rattle.announce_copy.specs.Announced as spec;

use m2m_names::{Attr, Ty};
use m2m_value::Val;
use policy_eval::listed_in;
use tree_model::Resource;

/// The type of the announced resources of a type's resources, where these can be announced.
pub fn announced_type(ty: Ty) -> Option<Ty>
    ensures { result ≡ spec.announced_type ty }
{
    match ty {
        Ty::AccessControlPolicy => Some(Ty::AccessControlPolicyAnnc),
        Ty::Ae => Some(Ty::AeAnnc),
        Ty::Container => Some(Ty::ContainerAnnc),
        Ty::ContentInstance => Some(Ty::ContentInstanceAnnc),
        Ty::Group => Some(Ty::GroupAnnc),
        _ => None,
    }
}

/// The type by which a resource is announced: its own where it can't be.
pub(crate) fn copy_type(ty: Ty) -> Ty
    ensures { result ≡ spec.copy_type ty }
{
    announced_type(ty).unwrap_or(ty)
}

/// The attributes of a type that can be announced, in the order of the table.
pub fn announceable(ty: Ty) -> &'static [Attr]
    ensures { result.now ≡ spec.announceable_attrs ty }
{
    match ty {
        Ty::AccessControlPolicy => &[Attr::Pv, Attr::Pvs],
        Ty::Ae => &[Attr::Apn, Attr::Api, Attr::Aei, Attr::Poa, Attr::Rr],
        Ty::Container => &[Attr::Mni, Attr::Mbs, Attr::Mia],
        Ty::ContentInstance => &[Attr::Cnf, Attr::Con, Attr::Cs],
        Ty::Group => &[Attr::Mnm, Attr::Mid, Attr::Csy, Attr::Gn],
        _ => &[],
    }
}

fn is_name_of(value: &Val, attr: Attr) -> bool
    ensures { result ≡ is_text_of (bytes_eq (attr_short attr)) value.now }
{
    match value.as_text() {
        Some(text) => attr.short().as_bytes() == text.entries(),
        None => false,
    }
}

// Whether a resource names an attribute in `aa`.
fn lists_attr(resource: &Resource, attr: Attr) -> bool
    ensures { result ≡ spec.lists_attr resource.now attr }
{
    listed_in(resource.attrs().get(Attr::Aa))
        .iter()
        .any(|value| is_name_of(value, attr))
}

// The attributes that are announced though `aa` doesn't name them: the rules of a policy.
const ALWAYS_ANNOUNCED: [Attr; 2] = [Attr::Pv, Attr::Pvs];

// The attributes whose change is announced in any case.
const ALWAYS_FOLLOWED: [Attr; 5] = [Attr::Aa, Attr::Et, Attr::Lbl, Attr::Pv, Attr::Pvs];

fn is_among(attrs: &[Attr], attr: Attr) -> bool
    ensures { result ≡ is_attr_in attrs.now attr }
{
    attrs.iter().any(|other| attr.order(*other).is_eq())
}

/// Whether an attribute of a resource is announced, where it can be.
pub(crate) fn is_announced(resource: &Resource, attr: Attr) -> bool
    ensures { result ≡ spec.is_announced resource.now attr }
{
    is_among(&ALWAYS_ANNOUNCED, attr) || lists_attr(resource, attr)
}

fn is_followed(resource: &Resource, attr: Attr) -> bool
    ensures { result ≡ spec.is_followed resource.now attr }
{
    is_among(&ALWAYS_FOLLOWED, attr) || lists_attr(resource, attr)
}

/// Whether an Update that named these attributes, and left the resource so, is announced.
pub(crate) fn does_renew(named: &[Attr], resource: &Resource) -> bool
    ensures { result ≡ spec.does_renew named.now resource.now }
{
    named.iter().any(|attr| is_followed(resource, *attr))
}

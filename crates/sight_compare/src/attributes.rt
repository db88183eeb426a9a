//! Which attributes of a resource are shown.
ghost use Rattle.std.specs.Prelude.{◌≡◌};
ghost use Rattle.equal_sights.specs.Alike.{shape_attrs};
ghost use Rattle.equal_sights.specs.Seen as seen;
ghost use Rattle.policy_eval.specs.Rules.{is_attr_in};
ghost use Rattle.sight_compare.specs.Looks as spec;

use crate::looks::Look;
use m2m_names::{Attr, Ty};
use tree_model::Resource;

/// Whether the attribute is one of these.
fn is_among(attr: Attr, attrs: &[Attr]) -> bool
    ensures { result ≡ is_attr_in attrs.now attr }
{
    attrs.iter().any(|one| attr.order(*one).is_eq())
}

/// The attributes by which a resource of the type is judged, named or told, and which are shown to
/// everyone.
fn shape_attrs(ty: Ty) -> &'static [Attr]
    ensures { result.now ≡ shape_attrs ty }
{
    match ty {
        Ty::Ae => &[Attr::Acpi, Attr::Macp, Attr::Aei],
        Ty::RemoteCse => &[Attr::Acpi, Attr::Macp, Attr::Csi],
        Ty::Subscription => &[Attr::Acpi, Attr::Macp, Attr::Enc, Attr::Exc],
        Ty::AccessControlPolicy
        | Ty::Container
        | Ty::ContentInstance
        | Ty::CseBase
        | Ty::Group
        | Ty::PollingChannel
        | Ty::AccessControlPolicyAnnc
        | Ty::AeAnnc
        | Ty::ContainerAnnc
        | Ty::ContentInstanceAnnc
        | Ty::GroupAnnc => &[Attr::Acpi, Attr::Macp],
    }
}

/// Whether the value of the attribute is shown to who may learn this of the resource.
pub fn is_shown(look: Look, resource: &Resource, attr: Attr) -> bool
    ensures { result ≡ spec.shows look resource.now attr }
{
    is_among(attr, shape_attrs(resource.ty()))
        || look.retrieves
        || (look.discovers && is_among(attr, &[Attr::Lbl, Attr::St, Attr::Cs]))
        || (look.fills && is_among(attr, &[Attr::Mni, Attr::Mbs, Attr::Mia, Attr::St]))
        || (look.is_inside && is_among(attr, &[Attr::Cs]))
        || (look.uses && is_among(attr, &[Attr::Mid, Attr::Mnm, Attr::Mt, Attr::Csy]))
}

/// Whether the attribute has rules of a policy.
pub fn is_policy_rules(resource: &Resource, attr: Attr) -> bool
    ensures { result ≡ seen.is_policy_rules resource.now attr }
{
    resource.is(Ty::AccessControlPolicy) && is_among(attr, &[Attr::Pv, Attr::Pvs])
}

/// Whether the attribute has the points of access of a remote CSE.
pub fn is_way(resource: &Resource, attr: Attr) -> bool
    ensures { result ≡ seen.is_way resource.now attr }
{
    resource.is(Ty::RemoteCse) && attr.order(Attr::Poa).is_eq()
}

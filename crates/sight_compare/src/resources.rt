//! Two resources as an originator sees them.
ghost use Rattle.std.specs.Prelude.{◌≡◌, bytes_eq};
ghost use Rattle.policy_eval.specs.Originators as spec_names;
ghost use Rattle.equal_sights.specs.Seen as spec_seen;
ghost use Rattle.sight_compare.specs.Looks as spec;
ghost use Rattle.sight_compare.specs.Same.{same_place, same_resource, same_view};
ghost use Rattle.sight_compare.specs.Shown.{IsGlance};

use crate::looks::{Viewer, look_at};
use crate::rows::are_rows_alike;
use crate::values::Glance;
use policy_eval::is_same;
use tree_model::{Resource, Tree, due};

/// Whether two resources stand at one place: their numbers, types, names and parents are equal.
fn stand_alike(left: &Resource, right: &Resource) -> bool
    ensures { result ≡ same_place left.now right.now }
{
    left.number() == right.number()
        && left.is(right.ty())
        && left.name().entries() == right.name().entries()
        && left.parent() == right.parent()
}

fn owns<T: Tree>(viewer: &Viewer<T>, resource: &Resource) -> bool
    ensures { result ≡ spec_names.is_same viewer.now.home.now viewer.now.originator.now
        resource.now.owner }
{
    is_same(viewer.home, viewer.originator, resource.owner().entries())
}

/// Whether an originator owns both resources, or neither.
fn are_owned_alike<T: Tree>(
    left: &Viewer<T>,
    resource: &Resource,
    right: &Viewer<T>,
    other: &Resource,
) -> bool
    requires { left.now.originator.now ≡ right.now.originator.now }
    ensures { result ≡ bytes_eq
        (spec_seen.seen_owner left.now.home.now left.now.originator.now resource.now)
        (spec_seen.seen_owner right.now.home.now right.now.originator.now other.now) }
{
    if owns(left, resource) {
        owns(right, other)
    } else {
        !owns(right, other)
    }
}

fn glance_at<'a, T: Tree>(viewer: &Viewer<'a, T>, resource: &'a Resource) -> Glance<'a>
    ensures { IsGlance viewer.now.home.now (T.nodes viewer.now.tree.now)
        viewer.now.originator.now resource.now result }
{
    Glance {
        home: viewer.home,
        originator: viewer.originator,
        resource,
        look: look_at(viewer, resource),
    }
}

/// When the resource was created, as it is seen.
fn seen_ct(glance: &Glance) -> u64
    ensures { result ≡ spec.ct_at glance.now.look glance.now.resource.now }
{
    if glance.look.retrieves || glance.look.discovers || glance.look.is_inside {
        glance.resource.ct()
    } else {
        0
    }
}

/// When the resource was last changed, as it is seen.
fn seen_lt(glance: &Glance) -> u64
    ensures { result ≡ spec.lt_at glance.now.look glance.now.resource.now }
{
    if glance.look.retrieves || glance.look.discovers {
        glance.resource.lt()
    } else {
        0
    }
}

/// When the resource expires, as it is seen: where that is hidden, when it is due.
fn seen_et<T: Tree>(tree: &T, glance: &Glance) -> u64
    ensures { result ≡ spec.et_at (T.nodes tree.now) glance.now.look glance.now.resource.now }
{
    if glance.look.retrieves || glance.look.is_inside {
        return glance.resource.et();
    }
    due(tree, glance.resource).unwrap_or(0)
}

/// Whether equal moments are seen of two resources.
fn are_one_time<T: Tree>(left: &T, glance: &Glance, right: &T, beside: &Glance) -> bool
    ensures { result ≡ spec.same_times (T.nodes left.now) glance.now.look glance.now.resource.now
        (T.nodes right.now) beside.now.look beside.now.resource.now }
{
    seen_ct(glance) == seen_ct(beside)
        && seen_lt(glance) == seen_lt(beside)
        && seen_et(left, glance) == seen_et(right, beside)
}

/// Whether equal moments and equal attributes are seen of two resources.
fn show_alike<T: Tree>(
    left: &Viewer<T>,
    resource: &Resource,
    right: &Viewer<T>,
    other: &Resource,
) -> bool
    ensures { result ≡ same_view
        (spec_seen.seen left.now.home.now (T.nodes left.now.tree.now) left.now.originator.now
        resource.now)
        (spec_seen.seen right.now.home.now (T.nodes right.now.tree.now) right.now.originator.now
        other.now) }
{
    let glance = glance_at(left, resource);
    let beside = glance_at(right, other);
    if !are_one_time(left.tree, &glance, right.tree, &beside) {
        return false;
    }
    let rows = resource.attrs().entries();
    are_rows_alike(&glance, &beside, rows, other.attrs().entries())
}

/// Whether two viewers, who are one originator, see equal resources.
pub fn is_seen_alike<T: Tree>(
    left: &Viewer<T>,
    resource: &Resource,
    right: &Viewer<T>,
    other: &Resource,
) -> bool
    requires { left.now.originator.now ≡ right.now.originator.now }
    ensures { result ≡ same_resource
        (spec_seen.seen left.now.home.now (T.nodes left.now.tree.now) left.now.originator.now
        resource.now)
        (spec_seen.seen right.now.home.now (T.nodes right.now.tree.now) right.now.originator.now
        other.now) }
{
    stand_alike(resource, other)
        && are_owned_alike(left, resource, right, other)
        && show_alike(left, resource, right, other)
}

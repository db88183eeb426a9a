//! The limits of a container.
ghost use Rattle.std.specs.Prelude.{◌≡◌};
ghost use Rattle.tree_model.specs.Tree as trees;
ghost use Rattle.container_limits.specs.Limits as spec;

use m2m_names::Attr;
use resource_model::Resource;

/// The limits of a container on its instances; where one is absent, there is none.
#[derive(Clone, Copy, Debug, PartialEq, Eq)]
pub struct Limits {
    /// The greatest count.
    pub mni: Option<u64>,
    /// The greatest sum of sizes, in bytes.
    pub mbs: Option<u64>,
    /// The greatest age of each, in seconds.
    pub mia: Option<u64>,
}

impl Limits {
    /// The limits that a container has.
    pub fn of(container: &Resource) -> Limits
        ensures { result ≡ spec.limits_of container.now }
    {
        let attrs = container.attrs();
        Limits {
            mni: attrs.count(Attr::Mni),
            mbs: attrs.count(Attr::Mbs),
            mia: attrs.count(Attr::Mia),
        }
    }
}

/// Whether a number is at most the limit, where there is one.
pub fn is_within(n: u128, limit: Option<u64>) -> bool
    ensures { result ≡ spec.is_within n limit }
{
    match limit {
        Some(most) => n <= most as u128,
        None => true,
    }
}

/// How many instances there are, and what their sizes add up to.
#[derive(Clone, Copy)]
pub(crate) struct Total {
    pub(crate) count: u128,
    pub(crate) sizes: u128,
}

/// Whether a count and a sum of sizes are within the limits.
pub(crate) fn is_total_within(total: Total, limits: Limits) -> bool
    ensures { result ≡ spec.are_within limits total.count total.sizes }
{
    is_within(total.count, limits.mni) && is_within(total.sizes, limits.mbs)
}

fn end_by(resource: &Resource, mia: Option<u64>) -> u64
    ensures { result ≡ trees.end_by mia resource.now }
{
    match mia {
        Some(age) => resource.et().min(resource.ct().saturating_add(age)),
        None => resource.et(),
    }
}

/// Whether an instance is due at a moment that may reach this age.
pub(crate) fn is_due_by(resource: &Resource, mia: Option<u64>, moment: u64) -> bool
    ensures { result ≡ spec.is_due_by mia moment resource.now }
{
    end_by(resource, mia) <= moment
}

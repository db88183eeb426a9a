//! Who looks at a tree, and what it may learn of a resource by its rights.
ghost use Rattle.std.specs.Prelude.{◌≡◌};
ghost use Rattle.equal_sights.specs.Seen as seen;
ghost use Rattle.policy_eval.specs.Rights.{bits_by};
ghost use Rattle.policy_eval.specs.Rules.{fan_rules, rules_of};
ghost use Rattle.sight_compare.specs.Looks as spec;

use m2m_names::{DISCOVERY_BIT, Op, Ty};
use policy_eval::{bits, fan_bits, has_bits};
use tree_model::{Home, Resource, Tree};

/// An originator that looks at a tree, and the home of that tree.
#[derive(Drop)]
pub struct Viewer<'a, T: Tree> {
    pub home: &'a Home,
    pub tree: &'a T,
    pub originator: &'a [u8],
}

/// What an originator may learn of a resource, by its rights.
#[derive(Clone, Copy)]
pub struct Look {
    /// It may retrieve the resource.
    pub retrieves: bool,
    /// It may discover the resource.
    pub discovers: bool,
    /// The resource is a container that it may add to or change.
    pub fills: bool,
    /// The resource is an instance of such a container.
    pub is_inside: bool,
    /// The resource is a group that it may change, or fan out to.
    pub uses: bool,
}

/// Whether these bits let an originator add to a resource, or change it.
fn lets_fill(bits: u32) -> bool
    ensures { result ≡ spec.lets_fill bits }
{
    has_bits(bits, Op::Create.bit()) || has_bits(bits, Op::Update.bit())
}

/// Whether the resource is a container that the originator may fill.
fn fills<T: Tree>(viewer: &Viewer<T>, resource: &Resource) -> bool
    ensures { result ≡ seen.fills viewer.now.home.now (T.nodes viewer.now.tree.now)
        viewer.now.originator.now resource.now }
{
    resource.is(Ty::Container)
        && lets_fill(bits(viewer.tree, viewer.home, viewer.originator, resource))
}

/// Whether the resource is an instance of a container that the originator may fill.
fn is_filled_in<T: Tree>(viewer: &Viewer<T>, resource: &Resource) -> bool
    ensures { result ≡ seen.is_filled_in viewer.now.home.now (T.nodes viewer.now.tree.now)
        viewer.now.originator.now resource.now }
{
    if !resource.is(Ty::ContentInstance) {
        return false;
    }
    match viewer.tree.get(resource.parent()) {
        Some(container) => fills(viewer, container),
        None => false,
    }
}

/// Whether the resource is a group that the originator may change, or fan out to.
fn may_use<T: Tree>(viewer: &Viewer<T>, resource: &Resource, own: u32) -> bool
    requires { own ≡ bits_by viewer.now.home.now viewer.now.originator.now
        (rules_of (T.nodes viewer.now.tree.now) resource.now) }
    ensures { result ≡ seen.may_use viewer.now.home.now (T.nodes viewer.now.tree.now)
        viewer.now.originator.now resource.now }
{
    resource.is(Ty::Group)
        && (has_bits(own, Op::Update.bit())
            || fan_bits(viewer.tree, viewer.home, viewer.originator, resource) > 0)
}

/// What the originator may learn of the resource.
pub fn look_at<T: Tree>(viewer: &Viewer<T>, resource: &Resource) -> Look
    ensures { result ≡ spec.look_at viewer.now.home.now (T.nodes viewer.now.tree.now)
        viewer.now.originator.now resource.now }
{
    let own = bits(viewer.tree, viewer.home, viewer.originator, resource);
    Look {
        retrieves: has_bits(own, Op::Retrieve.bit()),
        discovers: has_bits(own, DISCOVERY_BIT),
        fills: resource.is(Ty::Container) && lets_fill(own),
        is_inside: is_filled_in(viewer, resource),
        uses: may_use(viewer, resource, own),
    }
}

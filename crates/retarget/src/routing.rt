//! Where a request goes.
ghost use Rattle.std.specs.Prelude.{◌≡◌};
ghost use Rattle.addressing.specs.Names.{IsLocal};
ghost use Rattle.retarget.specs.Routes as spec;
ghost use Rattle.retarget.specs.declared.routing.Route.TheVariants.{Local};

use addressing::Addr;
use subscription_match::{cse_named, first_url, leading_cse_id};
use tree_model::{Resource, Tree};

/// Where a request goes by its address.
#[derive(Clone, Copy, Debug, PartialEq, Eq)]
pub enum Route {
    /// It stays here.
    Local,
    /// Its address leads to no registered CSE: 4004.
    Unknown,
    /// It comes from another CSE and leads to another CSE: 5103.
    NoHop,
    /// The CSE that it leads to has no point of access: 5103.
    NoPoint,
    /// It goes on to the registered CSE of this number.
    Forward(u64),
}

/// Whether the originator is a registered CSE, or stands under one.
fn comes_from_cse<T: Tree>(tree: &T, originator: &[u8]) -> bool
    ensures { result ≡ spec.comes_from_cse (T.nodes tree.now) originator.now }
{
    originator.starts_with(b"/") && tree.cse(leading_cse_id(originator)).is_some()
}

/// Where a request goes that leads to a registered CSE.
fn route_to<T: Tree>(tree: &T, originator: &[u8], cse: &Resource) -> Route
    ensures { result ≡ spec.routed_to (T.nodes tree.now) originator.now cse.now }
{
    if comes_from_cse(tree, originator) {
        return Route::NoHop;
    }
    match first_url(cse) {
        Some(_) => Route::Forward(cse.number()),
        None => Route::NoPoint,
    }
}

/// Where a request of this originator goes by its address. Whoever has told a local address from
/// others asks of the others alone.
pub fn route_of<T: Tree>(tree: &T, originator: &[u8], addr: &Addr) -> Route
    ensures route { result ≡ spec.routed (T.nodes tree.now) originator.now addr.now }
    ensures local { result ≡ Local → IsLocal addr.now }
{
    match addr {
        Addr::Local(_) => Route::Local,
        Addr::Foreign(text) => match cse_named(tree, text.entries()) {
            Some(cse) => route_to(tree, originator, cse),
            None => Route::Unknown,
        },
        Addr::OtherProvider => Route::Unknown,
    }
}

//! What a request says before it is answered.
ghost use Rattle.std.specs.Prelude.{◌≡◌, IfSome, IsTrue, Some, false, is_ok, option_map, true};
ghost use Rattle.std.specs.Prelude.{ℕ, List, option_and_then, unwrap_or};
ghost use Rattle.std.specs.Option.{option_map_or};
ghost use Rattle.m2m_names.specs.Name.{is_originator};
ghost use Rattle.addressing.specs.Addresses.{address_of};
ghost use Rattle.addressing.specs.Short.{short_of};
ghost use Rattle.policy_eval.specs.Originators as originators;
ghost use Rattle.request_rules.specs.Creation.{c_stem};
ghost use Rattle.accepted_requests.specs.Asked.{IsAskedAs};
ghost use Rattle.accepted_requests.specs.Entries as entries;

use crate::list::LaterRequests;
use crate::naming::target_of;
use addressing::short_fr;
use policy_eval::is_same;
use primitive_json::Request;
use resource_model::Home;

/// What a request says of who asks, and of where it is sent.
#[derive(Clone, Copy)]
pub struct Asked<'a> {
    /// Who asks, in the short form, where what it says has one.
    pub originator: Option<&'a [u8]>,
    /// Whether it is sent to this CSE, if to an address at all.
    pub is_here: bool,
    /// The number of the accepted request that the address names.
    pub number: Option<u64>,
    /// Whether that one is kept, and the originator's own.
    pub is_own: bool,
}

// Whom the request says that asks: without a word of it `C`.
fn asking(request: &Request) -> &[u8]
    ensures { result.now ≡ unwrap_or request.now.fr c_stem }
{
    match &request.parts().fr {
        Some(fr) => fr.entries(),
        None => b"C".as_slice(),
    }
}

// The same in the short form.
fn short_asking<'a>(request: &'a Request, home: &Home) -> Option<&'a [u8]>
    ensures value { option_map (λ o. o.now) result
        ≡ short_of home.now (unwrap_or request.now.fr c_stem) }
    ensures originator { IfSome result (λ o. IsTrue (is_originator o.now)) }
{
    short_fr(asking(request), home)
}

// Whether the accepted request of a number is kept, and this originator's own.
fn owns_as(home: &Home, requests: &LaterRequests, originator: &[u8], number: Option<u64>) -> bool
    ensures { result
        ≡ option_map_or (λ e. originators.is_same home.now e.originator originator.now)
        (option_and_then (λ n. entries.numbered n requests.now) number) false }
{
    match requests.named(number) {
        Some(entry) => is_same(home, entry.originator().entries(), originator),
        None => false,
    }
}

// The same of an originator that may have no short form.
fn owns(
    home: &Home,
    requests: &LaterRequests,
    originator: Option<&[u8]>,
    number: Option<u64>,
) -> bool
    ensures { (who : List ℕ) → option_map (λ o. o.now) originator.entry ≡ Some who → result
        ≡ option_map_or (λ e. originators.is_same home.now e.originator who)
        (option_and_then (λ n. entries.numbered n requests.now) number) false }
{
    match originator {
        Some(originator) => owns_as(home, requests, originator, number),
        None => false,
    }
}

impl<'a> Asked<'a> {
    /// What a request says, beside these accepted requests.
    pub fn of(request: &'a Request, home: &Home, requests: &LaterRequests) -> Asked<'a>
        ensures asked { (who : List ℕ) → is_ok (address_of home.now request.now.to) ≡ true
            → short_of home.now (unwrap_or request.now.fr c_stem) ≡ Some who
            → IsAskedAs home.now who requests.now request.now result }
        ensures originator { IfSome result.originator (λ o. IsTrue (is_originator o.now)) }
    {
        let originator = short_asking(request, home);
        let target = request.parts().to.entries();
        let (is_here, number) = target_of(target, home);
        let is_own = owns(home, requests, originator, number);
        Asked {
            originator,
            is_here,
            number,
            is_own,
        }
    }
}

//! What a request says that its refusal may turn on.
ghost use Rattle.std.specs.Prelude.{◌≡◌, IfOk, Ok, map};
ghost use Rattle.std.specs.List.{list_any};
ghost use Rattle.refusal_reasons.specs.Facts as spec;
ghost use Rattle.addressing.specs.Addresses.{address_of};

use crate::OutOfMemory;
use crate::naming::{attributes_of, is_relink, names, subject_of, writing_by};
use addressing::{Addr, AddrFault, parse, short_fr};
use attribute_rules::are_admitted;
use filter_criteria::FilterUsage;
use m2m_names::{Attr, Op, Ty, is_request_id};
use primitive_json::{Request, creates, has_form};
use resource_model::Home;
use std::alloc::Global;

/// Where an address leads.
#[derive(Clone, Copy, Debug, PartialEq, Eq)]
pub enum Place {
    /// It is no address.
    Nowhere,
    /// To another CSE, or here to what is no resource.
    Apart,
    /// Here, to a resource if anything.
    Here,
}

/// What a request says that its refusal may turn on.
#[derive(Clone, Copy, Debug)]
pub struct Facts {
    pub op: Op,
    /// The type that it is about, where it names one.
    pub ty: Option<Ty>,
    /// Its parameters are of their kinds.
    pub is_formed: bool,
    /// It says who asks, as far as it has to.
    pub has_originator: bool,
    pub place: Place,
    /// It has a filter.
    pub is_filtered: bool,
    /// It looks for resources.
    pub is_discovery: bool,
    /// It asks for an answer later.
    pub is_deferred: bool,
    /// It says when it expires.
    pub expires: bool,
    /// Its content is of `acpi` alone.
    pub is_relink: bool,
    /// Its content is admitted for the type.
    pub is_admitted: bool,
    pub names_et: bool,
    pub names_acpi: bool,
    pub names_macp: bool,
    pub names_mid: bool,
}

/// Whether the request says who asks, as far as it has to.
fn has_originator(home: &Home, request: &Request) -> bool
    ensures { result ≡ spec.has_originator home.now request.now }
{
    match &request.parts().fr {
        Some(fr) => short_fr(fr.entries(), home).is_some(),
        None => creates(request.parts().op) && is_ae(subject_of(request)),
    }
}

fn is_ae(ty: Option<Ty>) -> bool
    ensures { result ≡ spec.is_ae ty }
{
    match ty {
        Some(ty) => ty.number() == Ty::Ae.number(),
        None => false,
    }
}

/// Whether a part of an address names no resource.
fn is_apart(part: &[u8]) -> bool
    ensures { result ≡ spec.is_apart part.now }
{
    matches!(part, b"fopt" | b"pcu") || is_request_id(part)
}

fn has_apart(parts: &[&[u8]]) -> bool
    ensures { result ≡ list_any spec.is_apart (map (λ p. p.now) parts.now) }
{
    for part in parts {
        if is_apart(*part) {
            return true;
        }
    }
    false
}

/// Where an address leads.
fn place_at(addr: &Addr<'_>) -> Place
    ensures { result ≡ spec.place_at (Ok addr.now) }
{
    match addr {
        Addr::Local(parts) if has_apart(parts.entries()) => Place::Apart,
        Addr::Local(_) => Place::Here,
        Addr::Foreign(_) | Addr::OtherProvider => Place::Apart,
    }
}

/// Where the address leads that a text is.
fn place_of(alloc: Global, home: &Home, to: &[u8]) -> Result<Place, OutOfMemory>
    ensures { IfOk result (λ p. p ≡ spec.place_at (address_of home.now to.now)) }
{
    match parse(alloc, to, home) {
        Ok(addr) => Ok(place_at(&addr)),
        Err(AddrFault::TooLong) | Err(AddrFault::Shape) => Ok(Place::Nowhere),
        Err(AddrFault::OutOfMemory) => Err(OutOfMemory),
    }
}

/// Whether the request looks for resources.
fn is_discovery(request: &Request) -> bool
    ensures { result ≡ spec.is_discovery request.now }
{
    match &request.parts().fc {
        Some(filter) => match filter.parts().fu {
            Some(FilterUsage::Discovery) => true,
            Some(FilterUsage::Conditional) | None => false,
        },
        None => false,
    }
}

/// Whether it asks for another answer than one that it waits for.
fn is_deferred(request: &Request) -> bool
    ensures { result ≡ spec.is_deferred request.now }
{
    match request.parts().rt {
        Some(number) => number != BLOCKING,
        None => false,
    }
}

/// The number of the response type blockingRequest (TS-0004, 6.3.4.2.6).
const BLOCKING: i64 = 3;

/// Whether its content is admitted for the type that it is about.
fn is_admitted(request: &Request) -> bool
    ensures { result ≡ spec.is_admitted request.now }
{
    match (subject_of(request), attributes_of(request)) {
        (Some(ty), Some(named)) => are_admitted(writing_by(request.parts().op), ty, named),
        _ => false,
    }
}

impl Facts {
    /// What this request says.
    pub(crate) fn of(alloc: Global, home: &Home, request: &Request) -> Result<Facts, OutOfMemory>
        ensures { IfOk result (λ f. f ≡ spec.facts_of home.now request.now) }
    {
        let parts = request.parts();
        Ok(Facts {
            op: parts.op,
            ty: subject_of(request),
            is_formed: has_form(request),
            has_originator: has_originator(home, request),
            place: place_of(alloc, home, parts.to.entries())?,
            is_filtered: parts.fc.is_some(),
            is_discovery: is_discovery(request),
            is_deferred: is_deferred(request),
            expires: parts.rqet.is_some(),
            is_relink: is_relink(request),
            is_admitted: is_admitted(request),
            names_et: names(request, Attr::Et),
            names_acpi: names(request, Attr::Acpi),
            names_macp: names(request, Attr::Macp),
            names_mid: names(request, Attr::Mid),
        })
    }
}

//! Where a target leads.
ghost use Rattle.std.specs.Prelude.{◌≡◌, ◌≤◌, IfOk, IfSome, IsTrue, option_map, length};
ghost use Rattle.primitive_json.specs.declared.note.Dest.TheVariants.{Direct, Peer};
ghost use Rattle.std.specs.List.{position_or_len};
ghost use Rattle.addressing.specs.Addresses.{is_slash};
ghost use Rattle.primitive_json.specs.Notes.{IsSomeUrl, IsSoundDest};
ghost use Rattle.subscription_match.specs.Destinations as spec;

use addressing::{Addr, AddrFault, Spot, name_segments, parse};
use m2m_names::{Attr, Ty, read_url};
use m2m_value::Text;
use policy_eval::listed_in;
use primitive_json::Dest;
use std::alloc::{AllocError as OutOfMemory, Global};
use tree_model::{Home, Resource, Tree, typed_at};

// ---- how an application entity or another CSE is reached

fn is_url(text: &[u8]) -> bool
    ensures value { result ≡ spec.is_url text.now }
    ensures url { IsTrue result → IsSomeUrl text.now }
{
    read_url(text).is_some()
}

/// The first URL among a resource's points of access.
pub fn first_url(resource: &Resource) -> Option<&Text>
    ensures value { option_map (λ t. t.now) result ≡ spec.first_url resource.now }
    ensures url { IfSome result (λ t. IsSomeUrl t.now) }
{
    for point in listed_in(resource.attrs().get(Attr::Poa)) {
        if let Some(text) = point.as_text() {
            if is_url(text.entries()) {
                return Some(text);
            }
        }
    }
    None
}

// An application entity: by its polling channel, without one at its first URL.
fn reached_directly<T: Tree>(alloc: Global, tree: &T, ae: &Resource) -> Result<Dest, OutOfMemory>
    ensures value { IfOk result (λ d. d ≡ spec.reached Direct (T.nodes tree.now) ae.now) }
    ensures sound { IfOk result IsSoundDest }
{
    if let Some(channel) = tree.channel(ae.number()) {
        return Ok(Dest::Channel(channel));
    }
    match first_url(ae) {
        Some(url) => Ok(Dest::Direct(url.copy(alloc)?)),
        None => Ok(Dest::Nowhere),
    }
}

// Another CSE.
fn reached_as_peer<T: Tree>(alloc: Global, tree: &T, cse: &Resource) -> Result<Dest, OutOfMemory>
    ensures value { IfOk result (λ d. d ≡ spec.reached Peer (T.nodes tree.now) cse.now) }
    ensures sound { IfOk result IsSoundDest }
{
    if let Some(channel) = tree.channel(cse.number()) {
        return Ok(Dest::Channel(channel));
    }
    match first_url(cse) {
        Some(url) => Ok(Dest::Peer(url.copy(alloc)?)),
        None => Ok(Dest::Nowhere),
    }
}

// ---- whom an address names

fn ae_at<T: Tree>(tree: &T, spot: Option<Spot>) -> Option<&Resource>
    ensures { option_map (λ r. r.now) result ≡ spec.ae_at spot (T.nodes tree.now) }
{
    match spot? {
        Spot::Resource(number) => typed_at(tree, Ty::Ae, number),
        _ => None,
    }
}

/// The CSE-ID that an address or an originator of a CSE begins with: its slash, and what stands
/// before the next one.
pub fn leading_cse_id(text: &[u8]) -> &[u8]
    ensures { result.now ≡ spec.leading_cse_id text.now }
{
    match text {
        [_, rest @ ..] => &text[..first_slash(rest) + 1],
        [] => text,
    }
}

// The place of the first slash, or the length where there is none.
fn first_slash(text: &[u8]) -> usize
    ensures value { result ≡ position_or_len is_slash text.now }
    ensures bound { result ≤ length text.now }
{
    text.iter().take_while(|byte| **byte != b'/').count()
}

/// The registered CSE that the text of a foreign address leads to.
pub fn cse_named<'a, T: Tree>(tree: &'a T, text: &[u8]) -> Option<&'a Resource>
    ensures { option_map (λ r. r.now) result ≡ spec.cse_named text.now (T.nodes tree.now) }
{
    let number = tree.cse(leading_cse_id(text))?;
    tree.get(number)
}

// ---- texts

fn address_leads<T: Tree>(alloc: Global, tree: &T, addr: &Addr) -> Result<Dest, OutOfMemory>
    ensures value { IfOk result (λ d. d ≡ spec.address_leads (Ok addr.now) (T.nodes tree.now)) }
    ensures sound { IfOk result IsSoundDest }
{
    match addr {
        Addr::Local(segments) => match ae_at(tree, name_segments(tree, segments)) {
            Some(ae) => reached_directly(alloc, tree, ae),
            None => Ok(Dest::Nowhere),
        },
        Addr::Foreign(text) => match cse_named(tree, text.entries()) {
            Some(cse) => reached_as_peer(alloc, tree, cse),
            None => Ok(Dest::Nowhere),
        },
        Addr::OtherProvider => Ok(Dest::Nowhere),
    }
}

/// Where the text of a target leads: to the URL that it is; to the application entity or the other
/// CSE that it is an address of, by its polling channel or at its first URL; else nowhere.
pub fn aim<T: Tree>(alloc: Global, tree: &T, home: &Home, text: &[u8]) -> Result<Dest, OutOfMemory>
    ensures value { IfOk result (λ d. d ≡ spec.aimed home.now (T.nodes tree.now) text.now) }
    ensures sound { IfOk result IsSoundDest }
{
    if is_url(text) {
        return Ok(Dest::Direct(Text::from_slice(alloc, text)?));
    }
    match parse(alloc, text, home) {
        Ok(addr) => address_leads(alloc, tree, &addr),
        Err(AddrFault::OutOfMemory) => Err(OutOfMemory),
        Err(_) => Ok(Dest::Nowhere),
    }
}

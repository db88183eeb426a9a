//! How a text is read as an address.
ghost use Rattle.std.specs.Prelude.{◌≡◌, ◌<◌, ◌≤◌, ◌⊎◌, [], ◌∷◌, length, Some, option_map, false};
ghost use Rattle.std.specs.Prelude.{◌++◌, IsTrue, IfOk, IfErr, IfSome, map};
ghost use Rattle.std.specs.List.{position_or_len};
ghost use Rattle.addressing.specs.declared.addr.AddrFault.TheVariants.{OutOfMemory, Shape};
ghost use Rattle.addressing.specs.Addresses as spec;
ghost use Rattle.addressing.specs.Addresses.{GivesAddress, address_of, are_names, parts_left};
ghost use Rattle.addressing.specs.Addresses.{between_slashes, unless_shapeless};

use crate::addr::{Addr, AddrFault, slashed};
use crate::segments::{FEW, Segments};
use arrayvec::ArrayVec;
use m2m_names::{POINT_LIMIT, is_name};
use std::alloc::Global;
use tree_model::Home;

/// Reads a text as an address. It is too long where it has over 512 bytes, and else shapeless where
/// it has none of the three forms. To tell that it is too long, or of another provider, takes no
/// memory.
pub fn parse<'a>(alloc: Global, text: &'a [u8], home: &Home) -> Result<Addr<'a>, AddrFault>
    ensures { GivesAddress result (address_of home.now text.now) }
{
    if text.len() > POINT_LIMIT {
        return Err(AddrFault::TooLong);
    }
    shaped(alloc, text, home)
}

fn shaped<'a>(alloc: Global, text: &'a [u8], home: &Home) -> Result<Addr<'a>, AddrFault>
    ensures { GivesAddress result (unless_shapeless (spec.shaped home.now text.now)) }
{
    if text.starts_with(b"//") {
        return by_provider(alloc, &text[2..], home);
    }
    if text.starts_with(b"/") {
        return by_cse(alloc, &text[1..], home);
    }
    by_names(alloc, text)
}

/// What stands before the first slash, and behind it.
fn cut_at(text: &[u8]) -> Option<(&[u8], &[u8])>
    ensures parts { option_map (λ c. (c.0.now, c.1.now)) result ≡ spec.cut_at text.now }
    ensures shorter { IfSome result (λ c. length c.1.now < length text.now) }
{
    let at = first_slash(text);
    if at < text.len() {
        Some((&text[..at], &text[at + 1..]))
    } else {
        None
    }
}

/// The place of the first slash, or the length where there is none.
fn first_slash(text: &[u8]) -> usize
    ensures value { result ≡ position_or_len spec.is_slash text.now }
    ensures bound { result ≤ length text.now }
{
    text.iter().take_while(|byte| !is_slash(**byte)).count()
}

fn is_slash(byte: u8) -> bool
    ensures { result ≡ spec.is_slash byte }
{
    byte == b'/'
}

/// A provider, and behind it the slash of an SP-relative address.
#[tactic(auto, using(crate::proofs::ReadLemmas::by_provider_cases))]
fn by_provider<'a>(alloc: Global, rest: &'a [u8], home: &Home) -> Result<Addr<'a>, AddrFault>
    ensures { GivesAddress result (unless_shapeless (spec.by_provider home.now rest.now)) }
{
    match cut_at(rest) {
        Some((sp, behind)) => of_provider(alloc, sp, behind, home),
        None => Err(AddrFault::Shape),
    }
}

fn of_provider<'a>(
    alloc: Global,
    sp: &[u8],
    behind: &'a [u8],
    home: &Home,
) -> Result<Addr<'a>, AddrFault>
    ensures { GivesAddress result
        (unless_shapeless (spec.of_provider home.now sp.now behind.now)) }
{
    if !is_name(sp) {
        return Err(AddrFault::Shape);
    }
    if sp == home.sp().entries() {
        return by_cse(alloc, behind, home);
    }
    if are_names(behind) {
        Ok(Addr::OtherProvider)
    } else {
        Err(AddrFault::Shape)
    }
}

/// A CSE-ID without its slash, and behind it nothing, or a slash and names.
#[tactic(auto, using(crate::proofs::ReadLemmas::by_cse_cases))]
fn by_cse<'a>(alloc: Global, rest: &'a [u8], home: &Home) -> Result<Addr<'a>, AddrFault>
    ensures { GivesAddress result (unless_shapeless (spec.by_cse home.now rest.now)) }
{
    match cut_at(rest) {
        Some((csi, behind)) => under(alloc, rest, csi, behind, home),
        None => alone(alloc, rest, home),
    }
}

fn under<'a>(
    alloc: Global,
    rest: &[u8],
    csi: &[u8],
    behind: &'a [u8],
    home: &Home,
) -> Result<Addr<'a>, AddrFault>
    ensures { GivesAddress result
        (unless_shapeless (spec.under home.now rest.now (csi.now ∷ between_slashes behind.now))) }
{
    if !is_name(csi) {
        return Err(AddrFault::Shape);
    }
    if csi == home.csi().entries() {
        return by_names(alloc, behind);
    }
    if are_names(behind) {
        Ok(Addr::Foreign(slashed(alloc, rest)?))
    } else {
        Err(AddrFault::Shape)
    }
}

fn alone<'a>(alloc: Global, csi: &'a [u8], home: &Home) -> Result<Addr<'a>, AddrFault>
    ensures { GivesAddress result
        (unless_shapeless (spec.under home.now csi.now (csi.now ∷ []))) }
{
    if !is_name(csi) {
        return Err(AddrFault::Shape);
    }
    if csi == home.csi().entries() {
        Ok(Addr::Local(Segments::of(Vec::new(alloc))))
    } else {
        Ok(Addr::Foreign(slashed(alloc, csi)?))
    }
}

/// Whether what stands between the slashes is names.
fn are_names(text: &[u8]) -> bool
    ensures { result ≡ are_names (between_slashes text.now) }
{
    text.split(|byte| *byte == b'/').all(|part| is_name(part))
}

/// Names with a slash between them.
#[tactic(auto, using(crate::proofs::ReadLemmas::names_may_take))]
fn by_names(alloc: Global, text: &[u8]) -> Result<Addr<'_>, AddrFault>
    ensures { GivesAddress result (unless_shapeless (spec.by_names text.now)) }
{
    Ok(Addr::Local(names_in(alloc, text)?))
}

#[tactic(auto, using(crate::proofs::ReadLemmas::names_so_far))]
fn names_in(alloc: Global, text: &[u8]) -> Result<Segments<'_>, AddrFault>
    ensures ok { IfOk result (λ names.
        (names ≡ between_slashes text.now) × IsTrue (are_names (between_slashes text.now))) }
    ensures err { IfErr result (λ fault. (fault ≡ OutOfMemory)
        ⊎ ((fault ≡ Shape) × (are_names (between_slashes text.now) ≡ false))) }
{
    let mut names = ArrayVec::<&[u8], FEW>::new();
    let mut left = Some(text);
    while let Some(rest) = left {
        if names.is_full() {
            return more_names(alloc, names.as_slice(), rest);
        }
        let (name, behind) = first_part(rest);
        if !is_name(name) {
            return Err(AddrFault::Shape);
        }
        names.push(name);
        left = behind;
    }
    Ok(Segments::few(names))
}

/// The same of a text before which these names stand.
#[tactic(auto, using(crate::proofs::ReadLemmas::names_so_far))]
fn more_names<'a>(
    alloc: Global,
    front: &[&'a [u8]],
    text: &'a [u8],
) -> Result<Segments<'a>, AddrFault>
    requires { IsTrue (are_names (map (λ n. n.now) front.now)) }
    ensures ok { IfOk result (λ names.
        (names ≡ map (λ n. n.now) front.now ++ between_slashes text.now)
        × IsTrue (are_names (map (λ n. n.now) front.now ++ between_slashes text.now))) }
    ensures err { IfErr result (λ fault. (fault ≡ OutOfMemory) ⊎ ((fault ≡ Shape)
        × (are_names (map (λ n. n.now) front.now ++ between_slashes text.now) ≡ false))) }
{
    let mut names = Vec::from_slice(alloc, front)?;
    let mut left = Some(text);
    while let Some(rest) = left {
        let (name, behind) = first_part(rest);
        if !is_name(name) {
            return Err(AddrFault::Shape);
        }
        names.push(name)?;
        left = behind;
    }
    Ok(Segments::of(names))
}

/// What stands before the first slash, and behind it, where there is one.
#[tactic(auto, using(crate::proofs::ReadLemmas::parts_cut, crate::proofs::ReadLemmas::parts_alone))]
fn first_part(text: &[u8]) -> (&[u8], Option<&[u8]>)
    ensures parts { between_slashes text.now
        ≡ result.0.now ∷ parts_left (option_map (λ t. t.now) result.1) }
    ensures shorter { IfSome result.1 (λ t. length t.now < length text.now) }
{
    match cut_at(text) {
        Some((front, behind)) => (front, Some(behind)),
        None => (text, None),
    }
}

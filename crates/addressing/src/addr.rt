//! Addresses, and how they print.
ghost use Rattle.std.specs.Prelude.{◌≡◌, ◌∷◌, ◌++◌, IfOk, OnOk, map};
ghost use Rattle.addressing.specs.declared.addr.Addr.TheVariants.{Local};
ghost use Rattle.addressing.specs.Addresses.{KeepsText, joined, printed, slash_at};

use crate::segments::Segments;
use m2m_value::Text;
use std::alloc::{AllocError, AllocFailed, Global};
use tree_model::Home;

/// An address (TS-0001, 7.2), whose segments stand in the text that it was read from.
#[derive(Debug, Drop)]
pub enum Addr<'a> {
    /// The segments of an address of this CSE; none is the CSEBase.
    Local(Segments<'a>),
    /// The SP-relative text of an address of another CSE of own provider.
    Foreign(Text),
    /// Of another provider; nothing is kept.
    OtherProvider,
}

/// Why a text is no address.
#[derive(Clone, Copy, Debug, PartialEq, Eq)]
pub enum AddrFault {
    /// It has over 512 bytes.
    TooLong,
    /// It has none of the three forms.
    Shape,
    OutOfMemory,
}

impl From<AllocError> for AddrFault {
    ghost use Rattle.std.specs.Prelude.{◌≡◌};
    ghost use Rattle.addressing.specs.declared.addr.AddrFault.TheVariants.{OutOfMemory};

    ghost from_gives = { λ _ e. e ≡ OutOfMemory };

    fn from(_e: AllocError) -> AddrFault {
        AddrFault::OutOfMemory
    }
}

impl<T: Drop> From<AllocFailed<T>> for AddrFault {
    ghost use Rattle.std.specs.Prelude.{◌≡◌};
    ghost use Rattle.addressing.specs.declared.addr.AddrFault.TheVariants.{OutOfMemory};

    ghost from_gives = { λ _ e. e ≡ OutOfMemory };

    fn from(_e: AllocFailed<T>) -> AddrFault {
        AddrFault::OutOfMemory
    }
}

/// The text of an address that keeps one. What an address that was read prints as is read as the
/// same address (`what_is_printed_is_read_back`).
pub fn print(alloc: Global, addr: &Addr, home: &Home) -> Result<Text, AllocError>
    requires { KeepsText addr.now }
    ensures { IfOk result (λ text. text ≡ printed home.now addr.now) }
{
    match addr {
        Addr::Local(segments) => of_segments(alloc, segments.entries(), home),
        Addr::Foreign(text) => text.copy(alloc),
        Addr::OtherProvider => unreachable!(),
    }
}

fn of_segments(alloc: Global, segments: &[&[u8]], home: &Home) -> Result<Text, AllocError>
    ensures { IfOk result (λ text. text
        ≡ printed home.now (Local (map (λ s. s.now) segments.now))) }
{
    if segments.is_empty() {
        slashed(alloc, home.csi().entries())
    } else {
        with_slashes(alloc, segments)
    }
}

/// A slash, and these bytes.
pub(crate) fn slashed(alloc: Global, bytes: &[u8]) -> Result<Text, AllocError>
    ensures { IfOk result (λ text. text ≡ 47 ∷ bytes.now) }
{
    let mut text = Vec::new(alloc);
    text.push(b'/')?;
    text.extend_from_slice(bytes)?;
    Ok(Text::of(text))
}

/// Texts with a slash between them.
pub(crate) fn with_slashes(alloc: Global, parts: &[&[u8]]) -> Result<Text, AllocError>
    ensures { IfOk result (λ text. text ≡ joined (map (λ t. t.now) parts.now)) }
{
    let mut text = Vec::new(alloc);
    for (place, part) in parts.iter().enumerate() {
        add_part(&mut text, place, part)?;
    }
    Ok(Text::of(text))
}

/// Appends the part at a place, behind a slash where it isn't the first.
fn add_part(text: &mut Vec<u8>, place: usize, part: &[u8]) -> Result<(), AllocError>
    ensures { OnOk result (text.new.items ≡ text.old.items ++ (slash_at place ++ part.now)) }
{
    if place > 0 {
        text.push(b'/')?;
    }
    text.extend_from_slice(part)
}

//! The short form of originators.
ghost use Rattle.std.specs.Prelude.{◌≡◌, option_map, IfSome, IsTrue};
ghost use Rattle.m2m_names.specs.Name as names;
ghost use Rattle.addressing.specs.Short as spec;

use m2m_names::is_originator;
use tree_model::Home;

/// The short form of an originator: a leading `//` own provider is dropped where `/` or the end
/// follows it, then a leading own CSE-ID and `/`. None where nothing is left, or the text is no
/// originator.
pub fn short_fr<'a>(text: &'a [u8], home: &Home) -> Option<&'a [u8]>
    ensures value { option_map (λ t. t.now) result ≡ spec.short_of home.now text.now }
    ensures originator { IfSome result (λ t. IsTrue (names.is_originator t.now)) }
{
    short_form(text, home)
}

fn short_form<'a>(text: &'a [u8], home: &Home) -> Option<&'a [u8]>
    ensures { option_map (λ t. t.now) result ≡ spec.short_of home.now text.now }
{
    if !is_originator(text) {
        return None;
    }
    let short = without_cse(without_provider(text, home), home);
    if short.is_empty() { None } else { Some(short) }
}

/// Behind `//` own provider, where `/` or the end follows it; else the text.
fn without_provider<'a>(text: &'a [u8], home: &Home) -> &'a [u8]
    ensures { result.now ≡ spec.without_provider home.now text.now }
{
    match behind_provider(text, home) {
        Some(rest) if rest.is_empty() || rest.starts_with(b"/") => rest,
        _ => text,
    }
}

fn behind_provider<'a>(text: &'a [u8], home: &Home) -> Option<&'a [u8]>
    ensures { option_map (λ t. t.now) result ≡ spec.behind_provider home.now text.now }
{
    behind_front(behind_front(text, b"//")?, home.sp().entries())
}

/// Behind own CSE-ID and `/`; else the text.
fn without_cse<'a>(text: &'a [u8], home: &Home) -> &'a [u8]
    ensures { result.now ≡ spec.without_cse home.now text.now }
{
    match behind_cse(text, home) {
        Some(rest) => rest,
        None => text,
    }
}

fn behind_cse<'a>(text: &'a [u8], home: &Home) -> Option<&'a [u8]>
    ensures { option_map (λ t. t.now) result ≡ spec.behind_cse home.now text.now }
{
    behind_front(
        behind_front(behind_front(text, b"/")?, home.csi().entries())?,
        b"/",
    )
}

/// What stands behind a front, where the text has it.
fn behind_front<'a>(text: &'a [u8], front: &[u8]) -> Option<&'a [u8]>
    ensures { option_map (λ t. t.now) result ≡ spec.behind front.now text.now }
{
    if text.starts_with(front) {
        Some(&text[front.len()..])
    } else {
        None
    }
}

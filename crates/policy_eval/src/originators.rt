//! Originators, and the entries of a rule that name them.
ghost use Rattle.std.specs.Prelude.{◌≡◌, ◌++◌, codes, nat_eq, false, MatchOption};
ghost use Rattle.std.specs.List.{starts_with};
ghost use Rattle.std.specs.Str.{bytes_eq};
ghost use Rattle.policy_eval.specs.Forms.{IsForm, end_alike, last_byte, may_name};
ghost use Rattle.policy_eval.specs.Originators as spec;
ghost use Rattle.policy_eval.specs.Originators.{own_lead};

use tree_model::Home;

/// An originator by its full form, which begins with `/`.
#[derive(Clone, Copy)]
pub enum Form<'a> {
    /// Behind `/` stand own CSE-ID, `/` and this.
    Own(&'a [u8]),
    /// Behind `/` stands this, which doesn't begin with own CSE-ID and `/`.
    Other(&'a [u8]),
}

/// The full form of a text, read apart.
pub(crate) fn form_of<'a>(home: &Home, text: &'a [u8]) -> Form<'a>
    ensures { IsForm home.now text.now result }
{
    let Some(path) = text.strip_prefix(b"/".as_slice()) else {
        return Form::Own(text);
    };
    match own_part(home, path) {
        Some(own) => Form::Own(own),
        None => Form::Other(path),
    }
}

/// What stands in a path behind own CSE-ID and `/`.
fn own_part<'a>(home: &Home, path: &'a [u8]) -> Option<&'a [u8]>
    ensures { MatchOption result (starts_with nat_eq path.now (own_lead home.now) ≡ false)
        (λ own. path.now ≡ own_lead home.now ++ own.now) }
{
    path.strip_prefix(home.csi().entries())?
        .strip_prefix(b"/".as_slice())
}

/// Whether two texts are as long as each other, and end in one byte.
fn end_alike(a: &[u8], b: &[u8]) -> bool
    ensures { result ≡ end_alike a.now b.now }
{
    let n = a.len();
    n == b.len() && (n == 0 || a[n - 1] == b[n - 1])
}

/// Whether two texts are equal. Most that differ do so in their lengths or their last bytes.
#[tactic(auto, using(crate::proofs::FormLemmas::ends_apart))]
fn are_equal(a: &[u8], b: &[u8]) -> bool
    ensures { result ≡ bytes_eq a.now b.now }
{
    end_alike(a, b) && a == b
}

/// Whether the full form of a text is this behind `/`, own CSE-ID and `/`.
fn is_own(home: &Home, own: &[u8], text: &[u8]) -> bool
    ensures { result
        ≡ bytes_eq (codes "/" ++ (own_lead home.now ++ own.now)) (spec.full_form home.now text.now) }
{
    match form_of(home, text) {
        Form::Own(said) => are_equal(own, said),
        Form::Other(_) => false,
    }
}

/// Whether the full form of a text is this behind `/`, which isn't one of this CSE's own.
fn is_other(home: &Home, path: &[u8], text: &[u8]) -> bool
    requires { starts_with nat_eq path.now (own_lead home.now) ≡ false }
    ensures { result ≡ bytes_eq (codes "/" ++ path.now) (spec.full_form home.now text.now) }
{
    match form_of(home, text) {
        Form::Own(_) => false,
        Form::Other(said) => are_equal(path, said),
    }
}

/// Whether a text names the originator whose full form is read apart so.
fn is_of_form(home: &Home, originator: &[u8], form: Form, text: &[u8]) -> bool
    requires { IsForm home.now originator.now form }
    ensures { result ≡ spec.is_same home.now originator.now text.now }
{
    match form {
        Form::Own(own) => is_own(home, own, text),
        Form::Other(path) => is_other(home, path, text),
    }
}

/// Whether two texts name one originator: their full forms are equal.
pub fn is_same(home: &Home, a: &[u8], b: &[u8]) -> bool
    ensures { result ≡ spec.is_same home.now a.now b.now }
{
    is_of_form(home, a, form_of(home, a), b)
}

/// Whether the full form of a text stands at the front of the originator's.
fn is_front(home: &Home, originator: &[u8], text: &[u8]) -> bool
    ensures { result ≡ spec.is_front home.now originator.now text.now }
{
    match (form_of(home, originator), form_of(home, text)) {
        (Form::Own(originator), Form::Own(text)) => originator.starts_with(text),
        (Form::Other(originator), Form::Other(text)) => originator.starts_with(text),
        (Form::Own(_), Form::Other(text)) => home.csi().entries().starts_with(text),
        (Form::Other(_), Form::Own(_)) => false,
    }
}

fn fits_pattern(home: &Home, originator: &[u8], entry: &[u8]) -> bool
    ensures { result ≡ spec.fits_pattern home.now originator.now entry.now }
{
    entry.ends_with(b"*".as_slice()) && is_front(home, originator, &entry[..entry.len() - 1])
}

fn names(home: &Home, originator: &[u8], form: Form, entry: &[u8]) -> bool
    requires { IsForm home.now originator.now form }
    ensures { result ≡ spec.does_name home.now originator.now entry.now }
{
    entry == b"all".as_slice()
        || entry == b"*".as_slice()
        || is_of_form(home, originator, form, entry)
        || fits_pattern(home, originator, entry)
}

/// The last byte of the full form of a text: its own, or the slash behind own CSE-ID where it is
/// empty.
pub fn last_byte(text: &[u8]) -> u8
    ensures { result ≡ last_byte text.now }
{
    match text.last() {
        Some(byte) => *byte,
        None => b'/',
    }
}

/// Whether the full form of an entry ends in this byte, or the entry in the last one of `all` or in
/// `*`. An entry of which this isn't so names nobody whose full form ends in the byte.
pub fn may_name(last: u8, entry: &[u8]) -> bool
    ensures { result ≡ may_name last entry.now }
{
    let byte = last_byte(entry);
    byte == last || byte == b'l' || byte == b'*'
}

/// Whether an entry of `acor` names the originator, whose full form is read apart so and ends in
/// this byte. Most entries that don't differ in their last byte.
#[tactic(auto, using(crate::proofs::LastLemmas::names_nobody))]
pub(crate) fn does_name(home: &Home, originator: &[u8], form: Form, last: u8, entry: &[u8]) -> bool
    requires form { IsForm home.now originator.now form }
    requires last { last ≡ last_byte originator.now }
    ensures { result ≡ spec.does_name home.now originator.now entry.now }
{
    may_name(last, entry) && names(home, originator, form, entry)
}

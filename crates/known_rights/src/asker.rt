//! An originator whose full form is built once.
ghost use Rattle.std.specs.Prelude.{◌≡◌, IfOk, drop};
ghost use Rattle.policy_eval.specs.Originators.{full_form};
ghost use Rattle.known_rights.specs.Askers.{own_start};

use std::alloc::{AllocError as OutOfMemory, Global};
use std::marker::Model;
use tree_model::Home;

/// An originator at a home. Clauses see it as these two.
#[derive(Drop)]
pub struct Asker<'a> {
    home: &'a Home,
    originator: &'a [u8],
    form: Vec<u8>,
    // Whether the full form is one of this CSE's own, and what stands behind own CSE-ID then.
    is_own: bool,
    own: Vec<u8>,
}

impl<'a> Model for Asker<'a> {
    ghost use Rattle.known_rights.specs.Askers.{AskerData, IsFormOf, asker_of};

    ghost Value = { AskerData };

    ghost view = { λ a. asker_of a.home.now a.originator.now };

    ghost invariant = { λ a. IsFormOf (asker_of a.home.now a.originator.now) a.form.items a.is_own
        a.own.items };
}

impl<'a> Asker<'a> {
    ghost use Rattle.std.specs.Prelude.{◌≡◌, IfOk};
    ghost use Rattle.policy_eval.specs.Originators.{is_front, is_same};
    ghost use Rattle.known_rights.specs.Askers.{asker_of};

    /// The originator at the home.
    pub fn of(alloc: Global, home: &'a Home, originator: &'a [u8]) -> Result<Asker<'a>, OutOfMemory>
        ensures { IfOk result (λ a. a ≡ asker_of home.now originator.now) }
    {
        let start = start_of(alloc, home)?;
        let form = form_of(alloc, &start, home, originator)?;
        let is_own = form.starts_with(start.as_slice());
        let own = behind(alloc, &form, start.len())?;
        Ok(Asker {
            home,
            originator,
            form,
            is_own,
            own,
        })
    }

    /// The home.
    pub fn home(&self) -> &Home
        ensures { result.now ≡ self.now.home }
    {
        self.home
    }

    /// The originator.
    pub fn originator(&self) -> &[u8]
        ensures { result.now ≡ self.now.originator }
    {
        self.originator
    }

    /// Whether a text names the originator: their full forms are equal.
    pub(crate) fn is_same(&self, text: &[u8]) -> bool
        ensures { result ≡ is_same self.now.home self.now.originator text.now }
    {
        if text.starts_with(b"/".as_slice()) {
            return self.form.as_slice() == text;
        }
        self.is_own && self.own.as_slice() == text
    }

    /// Whether the full form of a text stands at the front of the originator's.
    pub(crate) fn has_front(&self, text: &[u8]) -> bool
        ensures { result ≡ is_front self.now.home self.now.originator text.now }
    {
        if text.starts_with(b"/".as_slice()) {
            return self.form.starts_with(text);
        }
        self.is_own && self.own.starts_with(text)
    }
}

fn start_of(alloc: Global, home: &Home) -> Result<Vec<u8>, OutOfMemory>
    ensures { IfOk result (λ v. v.items ≡ own_start home.now) }
{
    let mut start = Vec::new(alloc);
    start.push(b'/')?;
    start.extend_from_slice(home.csi().entries())?;
    start.push(b'/')?;
    Ok(start)
}

fn form_of(
    alloc: Global,
    start: &[u8],
    home: &Home,
    originator: &[u8],
) -> Result<Vec<u8>, OutOfMemory>
    requires { start.now ≡ own_start home.now }
    ensures { IfOk result (λ v. v.items ≡ full_form home.now originator.now) }
{
    if originator.starts_with(b"/".as_slice()) {
        return Vec::from_slice(alloc, originator);
    }
    let mut form = Vec::from_slice(alloc, start)?;
    form.extend_from_slice(originator)?;
    Ok(form)
}

// What stands in a text behind so many bytes.
fn behind(alloc: Global, text: &[u8], n: usize) -> Result<Vec<u8>, OutOfMemory>
    ensures { IfOk result (λ v. v.items ≡ drop n text.now) }
{
    if n <= text.len() {
        Vec::from_slice(alloc, &text[n..])
    } else {
        Ok(Vec::new(alloc))
    }
}

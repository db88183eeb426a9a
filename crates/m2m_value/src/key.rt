//! The keys of the members of objects, which clauses see as the list of their bytes.
ghost use Rattle.std.specs.Prelude.{◌≡◌, IfOk, nat_eq};
ghost use Rattle.std.specs.Cmp.Rules.{comparing};
ghost use Rattle.std.specs.Cmp.Lexicographic.{pointwise};
ghost use Rattle.std.proofs.Common.{rules};

use crate::text::Text;
use std::alloc::{AllocError as OutOfMemory, Global};
use std::marker::Model;

/// The key of a member: a text, or a name that stands in the program, which takes no memory.
/// Clauses see it as the list of its bytes, whichever it is.
#[derive(Debug)]
pub struct MemberKey {
    form: Form,
}

// Where its bytes are.
#[derive(Debug, Drop)]
enum Form {
    Own(Text),
    Fixed(&'static str),
}

impl Model for MemberKey {
    ghost use Rattle.std.specs.Prelude.{List, ℕ};

    ghost Value = { List ℕ };

    ghost use Rattle.m2m_value.specs.Keys.{bytes_of};

    ghost view = { λ k. bytes_of k.form };
}

// Written out, so that where a key goes out of scope is a call, and no case of what it is.
impl Drop for MemberKey {
    fn drop(self) {
        let MemberKey { form } = self;
        drop(form);
    }
}

impl MemberKey {
    /// The key that a text is; nothing is copied.
    pub fn of(text: Text) -> MemberKey
        ensures { result ≡ text }
    {
        MemberKey {
            form: Form::Own(text),
        }
    }

    /// The key of a name that stands in the program; no memory is taken.
    pub fn named(name: &'static str) -> MemberKey
        ensures { result ≡ name.now }
    {
        MemberKey {
            form: Form::Fixed(name),
        }
    }

    /// Its bytes.
    pub fn entries(&self) -> &[u8]
        ensures { result.now ≡ self.now }
    {
        match &self.form {
            Form::Own(text) => text.entries(),
            Form::Fixed(name) => name.as_bytes(),
        }
    }

    /// Its text. Nothing is copied but a name that stands in the program.
    pub fn into_text(self, alloc: Global) -> Result<Text, OutOfMemory>
        ensures { IfOk result (λ t. t ≡ self) }
    {
        let MemberKey { form } = self;
        match form {
            Form::Own(text) => Ok(text),
            Form::Fixed(name) => Text::from_slice(alloc, name.as_bytes()),
        }
    }

    /// An equal key. A name that stands in the program takes no memory.
    pub fn copy(&self, alloc: Global) -> Result<MemberKey, OutOfMemory>
        ensures { IfOk result (λ k. k ≡ self.now) }
    {
        match &self.form {
            Form::Own(text) => Ok(MemberKey::of(text.copy(alloc)?)),
            Form::Fixed(name) => Ok(MemberKey::named(*name)),
        }
    }
}

impl PartialEq for MemberKey {
    ghost eq = { pointwise nat_eq };

    ghost laws = { Prim.search (comparing, rules) };

    fn eq(&self, other: &MemberKey) -> bool {
        self.entries() == other.entries()
    }
}

impl Eq for MemberKey {
    ghost laws = { Prim.search (comparing, rules) };
}

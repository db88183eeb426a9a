//! A URL, to which requests are sent.
ghost use Rattle.std.specs.Prelude.{◌≡◌, IfOk};
ghost use Rattle.primitive_json.specs.Notes.{IsSomeUrl};

use crate::OutOfMemory;
use m2m_value::Text;
use std::alloc::Global;
use std::marker::Model;

/// A URL; contracts see its text.
#[derive(Debug, Drop)]
pub struct Url {
    text: Text,
}

impl Model for Url {
    ghost use Rattle.std.specs.Prelude.{List, ℕ};
    ghost use Rattle.primitive_json.specs.Notes.{IsSomeUrl};

    ghost Value = { List ℕ };

    ghost view = { λ u. u.text };

    ghost invariant = { λ u. IsSomeUrl u.text };
}

impl Url {
    /// The URL of this text. Takes no memory.
    pub fn of(text: Text) -> Url
        requires { IsSomeUrl text }
        ensures { result ≡ text }
    {
        Url { text }
    }

    /// Its text.
    pub fn entries(&self) -> &[u8]
        ensures text { result.now ≡ self.now }
        ensures url { IsSomeUrl result.now }
    {
        self.text.entries()
    }

    /// An equal URL.
    pub fn copy(&self, alloc: Global) -> Result<Url, OutOfMemory>
        ensures { IfOk result (λ u. u ≡ self.now) }
    {
        Ok(Url::of(self.text.copy(alloc)?))
    }
}

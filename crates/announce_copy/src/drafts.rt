//! Operations on copies, before they have their numbers and their destinations.
use m2m_names::{Op, Ty};
use m2m_value::{Text, Val};
use std::marker::Model;

/// An operation on a copy: the operation, the address that it goes to, for a Create the type, and
/// the content, which a Delete hasn't.
pub type CopyDraft = (Op, Text, Option<Ty>, Option<Val>);

/// Operations on copies, in order. Their addresses are UTF-8.
#[derive(Drop)]
pub struct CopyDrafts {
    drafts: Vec<CopyDraft>,
}

impl Model for CopyDrafts {
    ghost use Rattle.std.specs.Prelude.{List};
    ghost use Rattle.announce_copy.specs.Codes.{drafts_code};
    ghost use Rattle.announce_copy.specs.Copies.{AreAddressed, CopyDraft};

    ghost Value = { List CopyDraft };

    ghost coded = { drafts_code };

    ghost view = { λ d. d.drafts.items };

    ghost invariant = { λ d. AreAddressed d.drafts.items };
}

impl CopyDrafts {
    ghost use Rattle.std.specs.Prelude.{◌≡◌};
    ghost use Rattle.announce_copy.specs.Copies.{AreAddressed};

    /// The operations; it takes no memory.
    pub fn of(entries: Vec<CopyDraft>) -> CopyDrafts
        requires { AreAddressed entries.items }
        ensures { result ≡ entries.items }
    {
        CopyDrafts { drafts: entries }
    }

    /// The operations, to be kept.
    pub fn into_vec(self) -> Vec<CopyDraft>
        ensures entries { result.items ≡ self }
        ensures texts { AreAddressed self }
    {
        self.drafts
    }

    /// The operations, to be read.
    pub fn entries(&self) -> &[CopyDraft]
        ensures all { result.now ≡ self.now }
        ensures texts { AreAddressed self.now }
    {
        &self.drafts
    }
}

//! What is to be sent, before it has its number and its destination.
use m2m_value::{Text, Val};
use std::marker::Model;

/// The content of a notification or of a deletion notice, and whom it is for, by its parts.
#[derive(Drop)]
pub struct DraftParts {
    /// The number of the subscription that is told of an event by it; None for a deletion notice.
    pub subscription: Option<u64>,
    /// The text of its target.
    pub target: Text,
    pub content: Val,
}

/// The content of a notification or of a deletion notice, and whom it is for. Its target is UTF-8.
#[derive(Drop)]
pub struct Draft {
    parts: DraftParts,
}

impl Model for Draft {
    ghost use Rattle.subscription_match.specs.declared.drafts.DraftParts.{DraftParts};

    ghost Value = { DraftParts };

    ghost use Rattle.m2m_value.specs.Code.{data_code};
    ghost use Rattle.std.specs.Coded.{codes};

    ghost coded = { Prim.hlevel (codes, data_code) };

    ghost use Rattle.std.specs.Prelude.{IsUtf8};

    ghost view = { λ d. d.parts };

    ghost invariant = { λ d. IsUtf8 d.parts.target };
}

impl Draft {
    ghost use Rattle.std.specs.Prelude.{◌≡◌, IsUtf8};

    /// The draft of these parts.
    pub fn of(parts: DraftParts) -> Draft
        requires { IsUtf8 parts.target }
        ensures { result ≡ parts }
    {
        Draft { parts }
    }

    /// Its parts, to be read.
    pub fn parts(&self) -> &DraftParts
        ensures same { result.now ≡ self.now }
        ensures utf8 { IsUtf8 result.now.target }
    {
        &self.parts
    }

    /// Its parts, to be kept.
    pub fn into_parts(self) -> DraftParts
        ensures same { result ≡ self }
        ensures utf8 { IsUtf8 result.target }
    {
        self.parts
    }
}

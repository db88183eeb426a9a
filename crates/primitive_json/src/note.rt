//! The items of the outbox: requests that the entity makes itself, and where they go.
ghost use Rattle.std.specs.Prelude.{◌≡◌, IfOk};

use crate::request::Request;
use m2m_value::Text;
use std::alloc::{AllocError as OutOfMemory, Global};
use std::marker::Model;

/// Why a request is sent.
#[derive(Clone, Copy, Debug, PartialEq, Eq)]
pub enum Kind {
    /// A subscription matched a change (TS-0001, 10.2.10).
    Notification,
    /// An originator's Notify is handed on.
    Relay,
    /// An announced resource follows its original (TS-0001, 9.6.26).
    Copy,
}

/// Where a request is sent.
#[derive(Debug, Drop)]
pub enum Dest {
    /// To a URL.
    Direct(Text),
    /// To another entity, at a URL.
    Peer(Text),
    /// Into a polling channel, by its number.
    Channel(u64),
    /// The target can't be reached.
    Nowhere,
}

/// An item of the outbox, by its parts.
#[derive(Drop)]
pub struct NoteParts {
    pub kind: Kind,
    pub dest: Dest,
    pub request: Request,
}

/// An item of the outbox.
#[derive(Drop)]
pub struct Note {
    parts: NoteParts,
}

impl Model for Note {
    ghost use Rattle.primitive_json.specs.declared.note.NoteParts.{NoteParts};

    ghost Value = { NoteParts };

    ghost use Rattle.m2m_value.specs.Code.{data_code};
    ghost use Rattle.std.specs.Coded.{codes};

    ghost coded = { Prim.hlevel (codes, data_code) };

    ghost use Rattle.primitive_json.specs.Notes.{IsSoundNote};

    ghost view = { λ n. n.parts };

    ghost invariant = { λ n. IsSoundNote n.parts };
}

impl Dest {
    /// An equal destination.
    pub fn copy(&self, alloc: Global) -> Result<Dest, OutOfMemory>
        ensures { IfOk result (λ d. d ≡ self.now) }
    {
        match self {
            Dest::Direct(url) => Ok(Dest::Direct(url.copy(alloc)?)),
            Dest::Peer(url) => Ok(Dest::Peer(url.copy(alloc)?)),
            Dest::Channel(number) => Ok(Dest::Channel(*number)),
            Dest::Nowhere => Ok(Dest::Nowhere),
        }
    }
}

impl NoteParts {
    /// Equal parts.
    pub fn copy(&self, alloc: Global) -> Result<NoteParts, OutOfMemory>
        ensures { IfOk result (λ n. n ≡ self.now) }
    {
        Ok(NoteParts {
            kind: self.kind,
            dest: self.dest.copy(alloc)?,
            request: self.request.copy(alloc)?,
        })
    }
}

impl Note {
    ghost use Rattle.std.specs.Prelude.{◌≡◌, IfOk};
    ghost use Rattle.primitive_json.specs.Notes.{IsSoundNote};

    /// The item of these parts.
    pub fn of(parts: NoteParts) -> Note
        requires { IsSoundNote parts }
        ensures { result ≡ parts }
    {
        Note { parts }
    }

    /// Its parts, to be read.
    pub fn parts(&self) -> &NoteParts
        ensures same { result.now ≡ self.now }
        ensures sound { IsSoundNote result.now }
    {
        &self.parts
    }

    /// Its parts, to be kept.
    pub fn into_parts(self) -> NoteParts
        ensures same { result ≡ self }
        ensures sound { IsSoundNote result }
    {
        self.parts
    }

    /// An equal item.
    pub fn copy(&self, alloc: Global) -> Result<Note, OutOfMemory>
        ensures { IfOk result (λ n. n ≡ self.now) }
    {
        Ok(Note::of(self.parts().copy(alloc)?))
    }
}

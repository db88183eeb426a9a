//! Replies.
ghost use Rattle.std.specs.Prelude.{◌≡◌, IfOk};

use crate::request::{copied_content, copied_text};
use m2m_names::Rsc;
use m2m_value::{Text, Val};
use std::alloc::{AllocError as OutOfMemory, Global};
use std::marker::Model;

/// The short name of the status of a reply.
pub const RSC: &str = "rsc";

/// The short name of the identifier of the request.
pub const RQI: &str = "rqi";

/// The short name of the content.
pub const PC: &str = "pc";

/// The parameters of a reply, by their short names (TS-0001, 8.1.3; TS-0004, 8.2.2).
#[derive(Drop)]
pub struct ReplyParts {
    pub rsc: Rsc,
    /// The identifier of the request, where the request had one.
    pub rqi: Option<Text>,
    /// The content.
    pub pc: Option<Val>,
}

/// A reply.
#[derive(Drop)]
pub struct Reply {
    parts: ReplyParts,
}

impl Model for Reply {
    ghost use Rattle.primitive_json.specs.declared.reply.ReplyParts.{ReplyParts};

    ghost Value = { ReplyParts };

    ghost use Rattle.m2m_value.specs.Code.{data_code};
    ghost use Rattle.std.specs.Coded.{codes};

    ghost coded = { Prim.hlevel (codes, data_code) };

    ghost use Rattle.primitive_json.specs.Replies.{IsSoundReply};

    ghost view = { λ r. r.parts };

    ghost invariant = { λ r. IsSoundReply r.parts };
}

impl ReplyParts {
    /// Equal parts.
    pub fn copy(&self, alloc: Global) -> Result<ReplyParts, OutOfMemory>
        ensures { IfOk result (λ r. r ≡ self.now) }
    {
        Ok(ReplyParts {
            rsc: self.rsc,
            rqi: copied_text(alloc, self.rqi.as_ref())?,
            pc: copied_content(alloc, self.pc.as_ref())?,
        })
    }
}

impl Reply {
    ghost use Rattle.std.specs.Prelude.{◌≡◌, IfOk};
    ghost use Rattle.primitive_json.specs.Replies.{IsSoundReply};

    /// The reply of these parts.
    pub fn of(parts: ReplyParts) -> Reply
        requires { IsSoundReply parts }
        ensures { result ≡ parts }
    {
        Reply { parts }
    }

    /// Its parts, to be read.
    pub fn parts(&self) -> &ReplyParts
        ensures same { result.now ≡ self.now }
        ensures sound { IsSoundReply result.now }
    {
        &self.parts
    }

    /// Its parts, to be kept.
    pub fn into_parts(self) -> ReplyParts
        ensures same { result ≡ self }
        ensures sound { IsSoundReply result }
    {
        self.parts
    }

    /// An equal reply.
    pub fn copy(&self, alloc: Global) -> Result<Reply, OutOfMemory>
        ensures { IfOk result (λ r. r ≡ self.now) }
    {
        Ok(Reply::of(self.parts().copy(alloc)?))
    }
}

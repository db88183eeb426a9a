//! Requests.
ghost use Rattle.std.specs.Prelude.{◌≡◌, IfOk};
ghost use Rattle.std.specs.Option.{option_copied};

use filter_criteria::Filter;
use m2m_names::Op;
use m2m_value::{Text, Val};
use std::alloc::{AllocError as OutOfMemory, Global};
use std::marker::Model;

/// When a request expires (TS-0004, 6.3.3).
#[derive(Clone, Copy, Debug, PartialEq, Eq)]
pub enum When {
    /// After a moment, in seconds since 1970.
    At(u64),
    /// After so many milliseconds, which never pass here.
    Millis(u64),
}

/// The parameters of a request, by their short names (TS-0001, 8.1.2; TS-0004, 8.2.2).
#[derive(Drop)]
pub struct RequestParts {
    pub op: Op,
    pub to: Text,
    pub fr: Option<Text>,
    /// The request identifier.
    pub rqi: Text,
    /// The number of the type that is to be created.
    pub ty: Option<u32>,
    /// The content.
    pub pc: Option<Val>,
    /// When the request expires.
    pub rqet: Option<When>,
    /// The response type.
    pub rt: Option<i64>,
    /// The result content.
    pub rcn: Option<i64>,
    pub fc: Option<Filter>,
    /// The desired form of the addresses that a discovery gives.
    pub drt: Option<i64>,
}

/// A request.
#[derive(Drop)]
pub struct Request {
    parts: RequestParts,
}

impl Model for Request {
    ghost use Rattle.primitive_json.specs.declared.request.RequestParts.{RequestParts};

    ghost Value = { RequestParts };

    ghost use Rattle.m2m_value.specs.Code.{data_code};
    ghost use Rattle.std.specs.Coded.{codes};

    ghost coded = { Prim.hlevel (codes, data_code) };

    ghost use Rattle.primitive_json.specs.Requests.{IsSoundRequest};

    ghost view = { λ r. r.parts };

    ghost invariant = { λ r. IsSoundRequest r.parts };
}

/// An equal text, where there is one.
pub(crate) fn copied_text(alloc: Global, text: Option<&Text>) -> Result<Option<Text>, OutOfMemory>
    ensures { IfOk result (λ t. t ≡ option_copied text.entry) }
{
    text.map(|t| t.copy(alloc)).transpose()
}

/// Equal content, where there is some.
pub(crate) fn copied_content(
    alloc: Global,
    content: Option<&Val>,
) -> Result<Option<Val>, OutOfMemory>
    ensures { IfOk result (λ v. v ≡ option_copied content.entry) }
{
    content.map(|v| v.copy(alloc)).transpose()
}

/// An equal filter, where there is one.
fn copied_filter(alloc: Global, filter: &Option<Filter>) -> Result<Option<Filter>, OutOfMemory>
    ensures { IfOk result (λ f. f ≡ filter.now) }
{
    filter.as_ref().map(|f| f.copy(alloc)).transpose()
}

impl RequestParts {
    /// Equal parts.
    pub fn copy(&self, alloc: Global) -> Result<RequestParts, OutOfMemory>
        ensures { IfOk result (λ r. r ≡ self.now) }
    {
        Ok(RequestParts {
            op: self.op,
            to: self.to.copy(alloc)?,
            fr: copied_text(alloc, self.fr.as_ref())?,
            rqi: self.rqi.copy(alloc)?,
            ty: self.ty,
            pc: copied_content(alloc, self.pc.as_ref())?,
            rqet: self.rqet,
            rt: self.rt,
            rcn: self.rcn,
            fc: copied_filter(alloc, &self.fc)?,
            drt: self.drt,
        })
    }
}

impl Request {
    ghost use Rattle.std.specs.Prelude.{◌≡◌, IfOk};
    ghost use Rattle.primitive_json.specs.Requests.{IsSoundRequest};

    /// The request of these parts.
    pub fn of(parts: RequestParts) -> Request
        requires { IsSoundRequest parts }
        ensures { result ≡ parts }
    {
        Request { parts }
    }

    /// Its parts, to be read.
    pub fn parts(&self) -> &RequestParts
        ensures same { result.now ≡ self.now }
        ensures sound { IsSoundRequest result.now }
    {
        &self.parts
    }

    /// Its parts, to be kept.
    pub fn into_parts(self) -> RequestParts
        ensures same { result ≡ self }
        ensures sound { IsSoundRequest result }
    {
        self.parts
    }

    /// An equal request.
    pub fn copy(&self, alloc: Global) -> Result<Request, OutOfMemory>
        ensures { IfOk result (λ r. r ≡ self.now) }
    {
        Ok(Request::of(self.parts().copy(alloc)?))
    }
}

//! Why a frame binds to no request.
use m2m_value::{Text, ValFault};
use std::alloc::AllocError;
use std::error::Error;
use std::fmt;

/// Why a frame binds to no request. The name of a header is written as TS-0009 writes it.
#[derive(Debug, Drop, PartialEq, Eq)]
pub enum BindFault {
    /// The method is none of those that are served, or the frame is no request.
    Method,
    /// The target names nothing that is served.
    Target,
    /// Lines with this name stand where none may, or too often, or have a value that none may have.
    Header(Text),
    /// What this header, or this parameter, says is missing.
    Missing(Text),
    /// The query has this key in vain.
    Query(Text),
    /// The body is no content.
    Body(ValFault),
    OutOfMemory,
}

impl fmt::Display for BindFault {
    ghost use Rattle.std.specs.Prelude.{Some};
    ghost use Rattle.http_target.specs.Faults.{bind_fault_text};

    ghost output = { λ fault. Some (bind_fault_text fault) };

    fn fmt<W: fmt::Write>(&self, f: &mut fmt::Formatter<W>) -> fmt::Result {
        f.write_str(match self {
            BindFault::Method => "the method is not served",
            BindFault::Target => "the target is not served",
            BindFault::Header(_) => "a header is malformed",
            BindFault::Missing(_) => "a part is missing",
            BindFault::Query(_) => "the query is malformed",
            BindFault::Body(_) => "the body is malformed",
            BindFault::OutOfMemory => "no memory for the request",
        })
    }
}

impl Error for BindFault {}

impl From<AllocError> for BindFault {
    ghost use Rattle.std.specs.Prelude.{◌≡◌};
    ghost use Rattle.http_target.specs.declared.fault.BindFault.{BindFault};

    ghost from_gives = { λ _ e. e ≡ BindFault.OutOfMemory };

    fn from(_: AllocError) -> Self {
        BindFault::OutOfMemory
    }
}

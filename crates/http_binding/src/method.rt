//! The methods of requests, as a table.
ghost use Rattle.std.specs.Prelude.{◌≡◌, find};
ghost use Rattle.http_binding.specs.Binding.{method_of};
ghost use Rattle.http_target.specs.Chain.{ReadsAs};
ghost use Rattle.http_binding.specs.Methods as spec;

use crate::BindFault;
use http_frames::Start;
use m2m_names::Op;

/// A method that is served (TS-0009, 6.2.1).
#[derive(Clone, Copy)]
pub(crate) enum Method {
    Get,
    Post,
    Put,
    Delete,
}

/// A row of the table of methods.
#[derive(Clone, Copy)]
struct Row {
    name: &'static str,
    /// The operation that is asked for beside the type that is to be created.
    typed: Op,
    /// The operation that is asked for without one.
    plain: Op,
}

fn is_operation(op: Op, other: Op) -> bool
    ensures { result ≡ spec.is_operation op other }
{
    op.number() == other.number()
}

impl Method {
    /// The methods that are served.
    const ALL: [Method; 4] = [Method::Get, Method::Post, Method::Put, Method::Delete];

    /// Its row of the table.
    fn row(self) -> Row
        ensures name { result.name.now ≡ spec.name_of_method self }
        ensures typed { result.typed ≡ (spec.row_of_method self).typed }
        ensures plain { result.plain ≡ (spec.row_of_method self).plain }
    {
        let (name, typed, plain) = match self {
            Method::Get => ("GET", Op::Retrieve, Op::Retrieve),
            Method::Post => ("POST", Op::Create, Op::Notify),
            Method::Put => ("PUT", Op::Update, Op::Update),
            Method::Delete => ("DELETE", Op::Delete, Op::Delete),
        };
        Row { name, typed, plain }
    }

    fn name(self) -> &'static str
        ensures { result.now ≡ spec.name_of_method self }
    {
        self.row().name
    }

    fn named(name: &[u8]) -> Option<Method>
        ensures { result ≡ spec.method_named name.now }
    {
        Method::ALL
            .iter()
            .copied()
            .find(|method| method.name().as_bytes() == name)
    }

    /// The method of a message.
    pub(crate) fn of(start: &Start) -> Result<Method, BindFault>
        ensures { ReadsAs (λ method. method) result (method_of start.now) }
    {
        match start {
            Start::Ask { method, .. } => match Method::named(method.entries()) {
                Some(method) => Ok(method),
                None => Err(BindFault::Method),
            },
            Start::Answer { .. } => Err(BindFault::Method),
        }
    }

    /// The operation that it asks for, beside the number of a type or none.
    pub(crate) fn operation(self, ty: Option<u32>) -> Op
        ensures { result ≡ spec.operation_of self ty }
    {
        let row = self.row();
        if ty.is_some() { row.typed } else { row.plain }
    }

    /// Whether it asks for the operation, beside a type or without one.
    fn asks_for(self, op: Op) -> bool
        ensures { result ≡ spec.asks_for op self }
    {
        let row = self.row();
        is_operation(row.typed, op) || is_operation(row.plain, op)
    }

    fn asking_for(op: Op) -> Option<Method>
        ensures { result ≡ find (spec.asks_for op) spec.all_methods }
    {
        Method::ALL
            .iter()
            .copied()
            .find(|method| method.asks_for(op))
    }
}

/// The name of the method that asks for an operation.
pub fn method_text(op: Op) -> &'static str
    ensures { result.now ≡ spec.method_text op }
{
    match Method::asking_for(op) {
        Some(method) => method.name(),
        None => "",
    }
}

//! The header fields of a request, and what lines say of each.
ghost use Rattle.std.specs.Prelude.{◌≡◌, ◌⊎◌, IfOk, IfSome, IsUtf8};
ghost use Rattle.std.specs.Option.{option_copied};
ghost use Rattle.http_frames.specs.Lines.{IsFound, values_named};
ghost use Rattle.http_binding.specs.Headers as spec;
ghost use Rattle.http_binding.specs.Binding.{header_value, header_values};
ghost use Rattle.http_binding.specs.Seen.{seen_values, seen_caller};
ghost use Rattle.http_binding.specs.Binding.{required, unless_empty, caller_of, echo_of};
ghost use Rattle.http_binding.specs.declared.headers.Field.TheVariants as fields;
ghost use Rattle.http_target.specs.Chain.{ReadsAs};
ghost use Rattle.http_target.specs.declared.fault.BindFault.TheVariants as fault;

use crate::media_type::{admits_type, type_number};
use crate::method::Method;
use crate::names::{CODING_FIELD, EXPIRY_FIELD, ID_FIELD, ORIGIN_FIELD, TYPE_FIELD};
use crate::{BindFault, OutOfMemory};
use http_frames::{Found, Frame, Lines};
use m2m_names::is_originator;
use m2m_value::Text;
use primitive_json::{When, expiry_spelled, is_request_id};
use std::alloc::Global;

/// A field that is read.
#[derive(Clone, Copy)]
pub(crate) enum Field {
    Origin,
    Id,
    Expiry,
    /// The type of the content, which is judged by the method.
    ContentType(Method),
    ContentEncoding,
}

impl Field {
    fn name(self) -> &'static [u8]
        ensures { result.now ≡ spec.field_name self }
    {
        match self {
            Field::Origin => ORIGIN_FIELD.as_bytes(),
            Field::Id => ID_FIELD.as_bytes(),
            Field::Expiry => EXPIRY_FIELD.as_bytes(),
            Field::ContentType(_) => TYPE_FIELD.as_bytes(),
            Field::ContentEncoding => CODING_FIELD.as_bytes(),
        }
    }

    fn admits_value(self, value: &[u8]) -> bool
        ensures { result ≡ spec.admits_value self value.now }
    {
        match self {
            Field::Origin => value.is_empty() || is_originator(value),
            Field::Id => is_request_id(value),
            Field::Expiry => expiry_spelled(value).is_some(),
            Field::ContentType(method) => admits_type(method, value),
            Field::ContentEncoding => value == b"identity".as_slice(),
        }
    }

    fn name_text(self, alloc: Global) -> Result<Text, OutOfMemory>
        ensures { IfOk result (λ text. text ≡ spec.field_name self) }
    {
        Text::from_slice(alloc, self.name())
    }

    /// The fault of lines of this field.
    fn malformed(self, alloc: Global) -> BindFault
        ensures { (result ≡ fault.OutOfMemory) ⊎ (result ≡ fault.Header (spec.field_name self)) }
    {
        match self.name_text(alloc) {
            Ok(name) => BindFault::Header(name),
            Err(_) => BindFault::OutOfMemory,
        }
    }

    /// The fault of lines that say nothing of this field.
    fn absent(self, alloc: Global) -> BindFault
        ensures { (result ≡ fault.OutOfMemory) ⊎ (result ≡ fault.Missing (spec.field_name self)) }
    {
        match self.name_text(alloc) {
            Ok(name) => BindFault::Missing(name),
            Err(_) => BindFault::OutOfMemory,
        }
    }

    /// What the lines say of the field, of whose values this was found.
    fn value<'a>(
        self,
        alloc: Global,
        lines: &'a Lines,
        found: Found<&'a [u8]>,
    ) -> Result<Option<&'a [u8]>, BindFault>
        requires { IsFound (λ value. value.now) found
            (values_named (spec.field_name self) lines.now) }
        ensures { ReadsAs option_copied result (header_value self lines.now) }
    {
        match found {
            Found::Absent => Ok(None),
            Found::One(value) if self.admits_value(value) => Ok(Some(value)),
            Found::One(_) | Found::Repeated => Err(self.malformed(alloc)),
        }
    }

    /// The value, which has to be there.
    fn required<'a>(self, alloc: Global, value: Option<&'a [u8]>) -> Result<&'a [u8], BindFault>
        ensures { ReadsAs (λ text. text.now) result (required self (option_copied value.entry)) }
    {
        match value {
            Some(text) => Ok(text),
            None => Err(self.absent(alloc)),
        }
    }
}

/// What lines have of the name of each field.
#[derive(Clone, Copy)]
struct FieldLines<'a> {
    origin: Found<&'a [u8]>,
    id: Found<&'a [u8]>,
    expiry: Found<&'a [u8]>,
    ty: Found<&'a [u8]>,
    encoding: Found<&'a [u8]>,
}

/// What lines say of each field, where they do.
#[derive(Clone, Copy)]
struct HeaderValues<'a> {
    origin: Option<&'a [u8]>,
    id: Option<&'a [u8]>,
    expiry: Option<&'a [u8]>,
    ty: Option<&'a [u8]>,
}

/// Who asks, where that is said, the identifier of the request, when it expires, and the number of
/// the type that is to be created.
#[derive(Clone, Copy)]
pub(crate) struct Caller<'a> {
    pub(crate) originator: Option<&'a [u8]>,
    pub(crate) id: &'a [u8],
    pub(crate) expiry: Option<When>,
    pub(crate) ty: Option<u32>,
}

/// What the lines have of the name of each field, by one pass over them.
fn field_lines(method: Method, lines: &[(Text, Text)]) -> FieldLines<'_>
    ensures origin { IsFound (λ value. value.now) result.origin
        (values_named (spec.field_name fields.Origin) lines.now) }
    ensures id { IsFound (λ value. value.now) result.id
        (values_named (spec.field_name fields.Id) lines.now) }
    ensures expiry { IsFound (λ value. value.now) result.expiry
        (values_named (spec.field_name fields.Expiry) lines.now) }
    ensures ty { IsFound (λ value. value.now) result.ty
        (values_named (spec.field_name (fields.ContentType method)) lines.now) }
    ensures encoding { IsFound (λ value. value.now) result.encoding
        (values_named (spec.field_name fields.ContentEncoding) lines.now) }
{
    let mut origin = Found::Absent;
    let mut id = Found::Absent;
    let mut expiry = Found::Absent;
    let mut ty = Found::Absent;
    let mut encoding = Found::Absent;
    for line in lines {
        origin = origin.and_line(Field::Origin.name(), line);
        id = id.and_line(Field::Id.name(), line);
        expiry = expiry.and_line(Field::Expiry.name(), line);
        ty = ty.and_line(Field::ContentType(method).name(), line);
        encoding = encoding.and_line(Field::ContentEncoding.name(), line);
    }
    FieldLines {
        origin,
        id,
        expiry,
        ty,
        encoding,
    }
}

/// The fields in the order in which their faults are told.
fn header_values(
    alloc: Global,
    method: Method,
    lines: &Lines,
) -> Result<HeaderValues<'_>, BindFault>
    ensures { ReadsAs seen_values result (header_values method lines.now) }
{
    let found = field_lines(method, lines.entries());
    let origin = Field::Origin.value(alloc, lines, found.origin)?;
    let id = Field::Id.value(alloc, lines, found.id)?;
    let expiry = Field::Expiry.value(alloc, lines, found.expiry)?;
    let ty = Field::ContentType(method).value(alloc, lines, found.ty)?;
    Field::ContentEncoding.value(alloc, lines, found.encoding)?;
    Ok(HeaderValues {
        origin,
        id,
        expiry,
        ty,
    })
}

/// The value, unless it is empty.
fn unless_empty(value: Option<&[u8]>) -> Option<&[u8]>
    ensures { option_copied result ≡ unless_empty (option_copied value.entry) }
{
    match value {
        Some(text) if !text.is_empty() => Some(text),
        _ => None,
    }
}

/// The caller that the lines name.
pub(crate) fn caller_of(
    alloc: Global,
    method: Method,
    lines: &Lines,
) -> Result<Caller<'_>, BindFault>
    ensures { ReadsAs seen_caller result (caller_of method lines.now) }
{
    let values = header_values(alloc, method, lines)?;
    let id = Field::Id.required(alloc, values.id)?;
    Ok(Caller {
        originator: unless_empty(values.origin),
        id,
        expiry: values.expiry.and_then(|value| expiry_spelled(value)),
        ty: values.ty.and_then(|value| type_number(value)),
    })
}

/// The identifier that a reply to the frame repeats: the value of its only X-M2M-RI line, if that
/// is a request identifier. It takes no memory.
pub fn echo_id(frame: &Frame) -> Option<&[u8]>
    ensures value { option_copied result ≡ echo_of frame.now }
    ensures utf8 { IfSome (option_copied result) IsUtf8 }
{
    match frame.lines.find(Field::Id.name()) {
        Found::One(value) if is_request_id(value) => Some(value),
        _ => None,
    }
}

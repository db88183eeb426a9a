//! The requests.
ghost use Rattle.std.specs.Prelude.{◌≡◌, ◌<◌, ◌≤◌, IfOk, IsUtf8, get_or, length};
ghost use Rattle.m2m_names.specs.Ids as ids;
ghost use Rattle.made_input.specs.Requests as spec;

use crate::contents::{
    ae_attributes, container_attributes, content_of, group_attributes, instance_attributes,
    subscription_attributes,
};
use m2m_names::{Op, Ty};
use m2m_value::{Text, Val};
use primitive_json::{Request, RequestParts};
use resource_model::BASE;
use std::alloc::{AllocError as OutOfMemory, Global};

/// The fan-out point of the group.
pub(crate) const FAN_POINT: &str = "grp9/fopt";

/// The texts that every request has: who makes it, and its identifier. They go from one request to
/// the next.
#[derive(Drop)]
pub(crate) struct Maker {
    pub(crate) fr: Text,
    pub(crate) rqi: Text,
}

impl Maker {
    /// That of all requests.
    pub(crate) fn new(alloc: Global) -> Result<Maker, OutOfMemory>
        ensures { IfOk result spec.IsMaker }
    {
        let fr = Text::from_slice(alloc, b"CGen")?;
        let rqi = Text::from_slice(alloc, b"q")?;
        Ok(Maker { fr, rqi })
    }

    /// That of a request which has been made.
    pub(crate) fn of(alloc: Global, request: Request) -> Result<Maker, OutOfMemory>
        requires { spec.IsMade request }
        ensures { IfOk result spec.IsMaker }
    {
        let RequestParts { fr, rqi, .. } = request.into_parts();
        match fr {
            Some(fr) => Ok(Maker { fr, rqi }),
            None => Maker::new(alloc),
        }
    }
}

// A request of the one who makes all of them: its operation and target, the number of the type that
// it creates, its content, and the result content that it wants.
fn asked(
    maker: Maker,
    op: Op,
    to: Text,
    ty: Option<u32>,
    pc: Option<Val>,
    rcn: Option<i64>,
) -> Request
    requires maker { spec.IsMaker maker }
    requires target { IsUtf8 to }
    ensures { result ≡ spec.asked op to ty pc rcn }
{
    Request::of(RequestParts {
        op,
        to,
        fr: Some(maker.fr),
        rqi: maker.rqi,
        ty,
        pc,
        rqet: None,
        rt: None,
        rcn,
        fc: None,
        drt: None,
    })
}

// The Create of a resource of a type with these attributes, which is answered without content.
fn creation(
    alloc: Global,
    maker: Maker,
    to: Text,
    ty: Ty,
    attributes: Val,
) -> Result<Request, OutOfMemory>
    requires maker { spec.IsMaker maker }
    requires target { IsUtf8 to }
    ensures { IfOk result (λ r. r ≡ spec.creation to ty attributes) }
{
    let content = content_of(alloc, ty, attributes)?;
    Ok(asked(
        maker,
        Op::Create,
        to,
        Some(ty.number()),
        Some(content),
        Some(0),
    ))
}

// The Retrieve of what stands at an address.
fn retrieval(maker: Maker, to: Text) -> Request
    requires maker { spec.IsMaker maker }
    requires target { IsUtf8 to }
    ensures { result ≡ spec.retrieval to }
{
    asked(maker, Op::Retrieve, to, None, None, None)
}

// ---- those that come first

fn registration(alloc: Global, maker: Maker) -> Result<Request, OutOfMemory>
    requires { spec.IsMaker maker }
    ensures { IfOk result (λ r. r ≡ spec.registration) }
{
    let to = Text::from_slice(alloc, BASE.as_bytes())?;
    creation(alloc, maker, to, Ty::Ae, ae_attributes(alloc)?)
}

fn container(alloc: Global, maker: Maker, name: &str) -> Result<Request, OutOfMemory>
    requires { spec.IsMaker maker }
    ensures { IfOk result (λ r. r ≡ spec.container name.now) }
{
    let to = Text::from_slice(alloc, b"ae3")?;
    creation(
        alloc,
        maker,
        to,
        Ty::Container,
        container_attributes(alloc, name)?,
    )
}

fn subscription(alloc: Global, maker: Maker) -> Result<Request, OutOfMemory>
    requires { spec.IsMaker maker }
    ensures { IfOk result (λ r. r ≡ spec.subscription) }
{
    let to = Text::from_slice(alloc, b"cnt4")?;
    creation(
        alloc,
        maker,
        to,
        Ty::Subscription,
        subscription_attributes(alloc)?,
    )
}

fn group(alloc: Global, maker: Maker) -> Result<Request, OutOfMemory>
    requires { spec.IsMaker maker }
    ensures { IfOk result (λ r. r ≡ spec.group) }
{
    let to = Text::from_slice(alloc, b"ae3")?;
    creation(alloc, maker, to, Ty::Group, group_attributes(alloc)?)
}

/// So many requests come first.
pub(crate) const FIRST: u64 = 7;

/// Of those that come first, the one at this place, from 0.
pub(crate) fn first_request(alloc: Global, maker: Maker, place: u64) -> Result<Request, OutOfMemory>
    requires maker { spec.IsMaker maker }
    requires place { place < length spec.first_requests }
    ensures { IfOk result (λ r. r ≡ get_or spec.first_requests place spec.group) }
{
    match place {
        0 => registration(alloc, maker),
        1 => container(alloc, maker, "k0"),
        2 => container(alloc, maker, "k1"),
        3 => container(alloc, maker, "k2"),
        4 => container(alloc, maker, "k3"),
        5 => subscription(alloc, maker),
        _ => group(alloc, maker),
    }
}

// ---- those that are counted

// The number of the container with which the request of this number works.
fn container_number(i: u64) -> u64
    ensures { result ≡ spec.container_number i }
{
    4 + i % 4
}

// The address of the container of a number, of the four that there are, and that of the newest
// instance in it.
fn addresses_of(number: u64) -> (&'static str, &'static str)
    requires low { 4 ≤ number }
    requires high { number ≤ 7 }
    ensures container { result.0.now ≡ spec.address_of number }
    ensures newest { result.1.now ≡ spec.newest_of number }
{
    if number == 4 {
        ("cnt4", "cnt4/la")
    } else if number == 5 {
        ("cnt5", "cnt5/la")
    } else if number == 6 {
        ("cnt6", "cnt6/la")
    } else {
        ("cnt7", "cnt7/la")
    }
}

// The address of that container.
fn container_id(alloc: Global, i: u64) -> Result<Text, OutOfMemory>
    ensures value { IfOk result (λ t. t ≡ spec.container_id i) }
    ensures utf8 { IfOk result (λ t. IsUtf8 t) }
{
    let (container, _) = addresses_of(container_number(i));
    Text::from_slice(alloc, container.as_bytes())
}

// The Create of the instance of a number at an address.
fn instance_at(alloc: Global, maker: Maker, to: Text, i: u64) -> Result<Request, OutOfMemory>
    requires maker { spec.IsMaker maker }
    requires target { IsUtf8 to }
    ensures { IfOk result (λ r. r ≡ spec.instance_at to i) }
{
    creation(
        alloc,
        maker,
        to,
        Ty::ContentInstance,
        instance_attributes(alloc, i)?,
    )
}

// The address of the newest instance of that container.
fn newest(alloc: Global, i: u64) -> Result<Text, OutOfMemory>
    ensures value { IfOk result (λ t. t ≡ spec.newest i) }
    ensures utf8 { IfOk result (λ t. IsUtf8 t) }
{
    let (_, newest) = addresses_of(container_number(i));
    Text::from_slice(alloc, newest.as_bytes())
}

/// Of those that are counted, the one of this number, from 0.
pub(crate) fn made_request(alloc: Global, maker: Maker, i: u64) -> Result<Request, OutOfMemory>
    requires { spec.IsMaker maker }
    ensures { IfOk result (λ r. r ≡ spec.made_request i) }
{
    let turn = i % 5;
    if turn == 4 {
        let to = Text::from_slice(alloc, FAN_POINT.as_bytes())?;
        instance_at(alloc, maker, to, i)
    } else if turn == 3 {
        Ok(retrieval(maker, newest(alloc, i)?))
    } else {
        instance_at(alloc, maker, container_id(alloc, i)?, i)
    }
}

//! A resource, and a change of one.
ghost use Rattle.std.specs.Prelude.{◌≡◌, ◌<◌, ◌≤◌, IfOk, IsOk, IsSome, OnOk, OnErr};
ghost use Rattle.std.specs.Prelude.{◌++◌, IsUtf8, option_map};
ghost use Rattle.std.specs.Fmt.{decimal};
ghost use Rattle.m2m_names.specs.Ids as ids;
ghost use Rattle.m2m_names.specs.Stamps.{last_moment};
ghost use Rattle.resource_model.specs.Attributes.{value_of, with_value, without_value};
ghost use Rattle.resource_model.specs.Resource.{ResourceData, is_ty, ae_id, cse_id, id_of};

use crate::attrs::{AttrSet, Attrs};
use itoa::Buffer;
use m2m_names::{Attr, Ty};
use m2m_value::{Text, Val};
use std::alloc::{AllocError as OutOfMemory, Global};
use std::marker::Model;

/// The moments of a resource: of its creation, of its last change and of its expiry, in seconds
/// since 1970.
#[derive(Clone, Copy, Debug, PartialEq, Eq)]
pub struct Moments {
    pub ct: u64,
    pub lt: u64,
    pub et: u64,
}

/// A word, a mark behind it, and a number in decimal digits.
pub fn numbered(alloc: Global, word: &str, mark: &str, number: u64) -> Result<Text, OutOfMemory>
    ensures value { IfOk result (λ t. t ≡ word.now ++ mark.now ++ decimal number) }
    ensures utf8 { IfOk result (λ t. IsUtf8 t) }
{
    let mut digits = Buffer::new();
    let digits = digits.format(number).as_bytes();
    Ok(Text::from_parts(alloc, word.as_bytes(), mark.as_bytes(), digits)?)
}

/// The resource identifier of a type and a number: the short word of the type, and the number.
pub fn id_text(alloc: Global, ty: Ty, number: u64) -> Result<Text, OutOfMemory>
    ensures value { IfOk result (λ t. t ≡ ids.id_text ty number) }
    ensures utf8 { IfOk result (λ t. IsUtf8 t) }
{
    numbered(alloc, ty.word(), "", number)
}

/// A resource (TS-0001, 9.6).
#[derive(Drop)]
pub struct Resource {
    number: u64,
    ty: Ty,
    name: Text,
    parent: u64,
    owner: Text,
    moments: Moments,
    attrs: Attrs,
}

impl Model for Resource {
    ghost use Rattle.resource_model.specs.Resource.{ResourceData};
    ghost use Rattle.resource_model.specs.Codes.{resource_code};

    ghost Value = { ResourceData };

    ghost coded = { resource_code };

    ghost use Rattle.resource_model.specs.Parts.{resource_kept};
    ghost use Rattle.resource_model.specs.Resource.{IsResource};

    ghost view = { resource_kept };

    ghost invariant = { λ r. IsResource (resource_kept r) };
}

impl Resource {
    /// A resource of its number, type, name, parent (0 for the CSEBase), owner, moments and
    /// attributes.
    pub fn of(
        number: u64,
        ty: Ty,
        name: Text,
        parent: u64,
        owner: Text,
        moments: Moments,
        attrs: Attrs,
    ) -> Resource
        requires name { IsUtf8 name }
        requires owner { IsUtf8 owner }
        requires number { number < ids.count_bound }
        requires parent { parent < ids.count_bound }
        requires ct { moments.ct ≤ last_moment }
        requires lt { moments.lt ≤ last_moment }
        requires et { moments.et ≤ last_moment }
        ensures { result ≡ record {
          number = number;
          ty = ty;
          name = name;
          parent = parent;
          owner = owner;
          ct = moments.ct;
          lt = moments.lt;
          et = moments.et;
          attrs = attrs;
        } }
    {
        Resource {
            number,
            ty,
            name,
            parent,
            owner,
            moments,
            attrs,
        }
    }

    /// The number in its resource id.
    pub fn number(&self) -> u64
        ensures value { result ≡ self.now.number }
        ensures count { result < ids.count_bound }
    {
        self.number
    }

    /// Its type.
    pub fn ty(&self) -> Ty
        ensures { result ≡ self.now.ty }
    {
        self.ty
    }

    /// Whether it is of this type.
    pub fn is(&self, ty: Ty) -> bool
        ensures { result ≡ is_ty self.now.ty ty }
    {
        self.ty.number() == ty.number()
    }

    /// Its name.
    pub fn name(&self) -> &Text
        ensures value { result.now ≡ self.now.name }
        ensures utf8 { IsUtf8 result.now }
    {
        &self.name
    }

    /// The number of its parent; 0 for the CSEBase.
    pub fn parent(&self) -> u64
        ensures value { result ≡ self.now.parent }
        ensures count { result < ids.count_bound }
    {
        self.parent
    }

    /// The originator of its creation; of an AE its AE-ID.
    pub fn owner(&self) -> &Text
        ensures value { result.now ≡ self.now.owner }
        ensures utf8 { IsUtf8 result.now }
    {
        &self.owner
    }

    /// When it was created, in seconds since 1970.
    pub fn ct(&self) -> u64
        ensures value { result ≡ self.now.ct }
        ensures last { result ≤ last_moment }
    {
        self.moments.ct
    }

    /// When it was last changed, in seconds since 1970.
    pub fn lt(&self) -> u64
        ensures value { result ≡ self.now.lt }
        ensures last { result ≤ last_moment }
    {
        self.moments.lt
    }

    /// When it expires, in seconds since 1970. The CSEBase never does, whatever stands here.
    pub fn et(&self) -> u64
        ensures value { result ≡ self.now.et }
        ensures last { result ≤ last_moment }
    {
        self.moments.et
    }

    /// Its attributes.
    pub fn attrs(&self) -> &Attrs
        ensures { result.now ≡ self.now.attrs }
    {
        &self.attrs
    }

    /// The AE-ID of an application entity (TS-0001, 7.1.2).
    pub fn ae_id(&self) -> Option<&Text>
        ensures { option_map (λ t. t.now) result ≡ ae_id self.now }
    {
        if self.is(Ty::Ae) {
            self.attrs.text(Attr::Aei)
        } else {
            None
        }
    }

    /// The CSE-ID of a remote CSE, with its slash (TS-0001, 9.6.4).
    pub fn cse_id(&self) -> Option<&Text>
        ensures { option_map (λ t. t.now) result ≡ cse_id self.now }
    {
        if self.is(Ty::RemoteCse) {
            self.attrs.text(Attr::Csi)
        } else {
            None
        }
    }

    /// Its resource identifier: the short word of its type, and its number.
    pub fn id(&self, alloc: Global) -> Result<Text, OutOfMemory>
        ensures value { IfOk result (λ t. t ≡ id_of self.now) }
        ensures utf8 { IfOk result (λ t. IsUtf8 t) }
    {
        id_text(alloc, self.ty, self.number)
    }

    /// It was last changed at this moment.
    pub fn set_lt(&mut self, moment: u64)
        requires { moment ≤ last_moment }
        ensures { self.new ≡ record self.old { lt = moment } }
    {
        self.moments.lt = moment;
    }

    /// It expires at this moment.
    pub fn set_et(&mut self, moment: u64)
        requires { moment ≤ last_moment }
        ensures { self.new ≡ record self.old { et = moment } }
    {
        self.moments.et = moment;
    }

    /// Gives an attribute a value. It takes memory only where the attribute has none.
    pub fn set(&mut self, attr: Attr, value: Val) -> Result<(), OutOfMemory>
        ensures succeeds { IsSome (value_of attr self.old.attrs) → IsOk result }
        ensures ok { OnOk result
            (self.new ≡ record self.old { attrs = with_value attr value self.old.attrs }) }
        ensures err { OnErr result (self.new ≡ self.old) }
    {
        self.attrs.set(attr, value)
    }

    /// Takes the value of an attribute away, where it has one.
    pub fn clear(&mut self, attr: Attr)
        ensures { self.new ≡ record self.old { attrs = without_value attr self.old.attrs } }
    {
        self.attrs.clear(attr)
    }

    /// An equal resource.
    pub fn copy(&self, alloc: Global) -> Result<Resource, OutOfMemory>
        ensures { IfOk result (λ r. r ≡ self.now) }
    {
        let name = self.name.copy(alloc)?;
        let owner = self.owner.copy(alloc)?;
        Ok(Resource {
            number: self.number,
            ty: self.ty,
            name,
            parent: self.parent,
            owner,
            moments: self.moments,
            attrs: self.attrs.copy(alloc)?,
        })
    }
}

/// What happened to a resource. The resources are lent, since a copy of one costs its contents.
#[derive(Clone, Copy)]
pub enum Change<'a> {
    /// It is new.
    Created(&'a Resource),
    /// It was changed.
    Updated {
        before: &'a Resource,
        after: &'a Resource,
        /// The attributes that the request named.
        named: &'a AttrSet,
    },
    /// It is gone, and was this one.
    Deleted(&'a Resource),
}

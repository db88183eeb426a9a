//! What an entity is called, and who runs it.
ghost use Rattle.std.specs.Prelude.{◌≡◌, ◌↔◌, ℕ, Some, Err, IfOk, IfNone, IsUtf8};
ghost use Rattle.std.specs.Bool.{OnTrue};
ghost use Rattle.resource_model.specs.declared.home.HomeFault.TheVariants.{Bad};
ghost use Rattle.resource_model.specs.Home as spec;
ghost use Rattle.resource_model.specs.Home.{default_home};
ghost use Rattle.m2m_names.specs.Name as names;

use m2m_names::{is_free_name, is_originator, is_request_id, is_resource_id};
use m2m_value::{OutOfMemory, Text};
use std::alloc::Global;
use std::marker::Model;

/// The service provider of a home where none is named.
pub const SERVICE_PROVIDER: &str = "sp.example";
/// The CSE-ID, without its slash, of a home where none is named.
pub const CSE_ID: &str = "id-in";
/// The name of the CSEBase where none is given.
pub const BASE: &str = "cse-in";
/// The CSE type of a home where none is named: an infrastructure node.
pub const CSE_TYPE: i64 = 1;
/// The last of the numbers of CSE types: an application service node.
pub const LAST_CSE_TYPE: u64 = 3;
/// The administrator of a home where none is named.
pub const ADMIN: &str = "CAdmin";

/// Why there is no such home.
#[derive(Clone, Copy, Debug, PartialEq, Eq)]
pub enum HomeFault {
    /// The argument at this place, from 0, is the first that isn't admitted.
    Bad(usize),
    /// Memory ran out.
    OutOfMemory,
}

impl From<OutOfMemory> for HomeFault {
    ghost use Rattle.std.specs.Prelude.{◌≡◌};
    ghost use Rattle.resource_model.specs.declared.home.HomeFault.{HomeFault};

    ghost from_gives = { λ _ e. e ≡ HomeFault.OutOfMemory };

    fn from(_: OutOfMemory) -> Self {
        HomeFault::OutOfMemory
    }
}

/// A home: the service provider, the CSE-ID without its slash, the name of the CSEBase, the CSE
/// type and the administrator. Each is admitted.
#[derive(Debug, Drop)]
pub struct Home {
    sp: Text,
    csi: Text,
    base: Text,
    cst: i64,
    admin: Text,
}

impl Model for Home {
    ghost use Rattle.resource_model.specs.Home.{HomeData, IsHome};

    ghost Value = { HomeData };

    ghost view = { λ h. record {
      sp = h.sp;
      csi = h.csi;
      base = h.base;
      cst = h.cst;
      admin = h.admin;
    } };

    ghost invariant = { λ h. IsHome (record {
      sp = h.sp;
      csi = h.csi;
      base = h.base;
      cst = h.cst;
      admin = h.admin;
    }) };
}

fn is_base_name(text: &[u8]) -> bool
    ensures value { result ≡ spec.is_base_name text.now }
    ensures utf8 { OnTrue result (IsUtf8 text.now) }
{
    is_free_name(text) && !(is_resource_id(text) || is_request_id(text))
}

/// The place of the first argument that isn't admitted.
fn first_bad(sp: &[u8], csi: &[u8], base: &[u8], cst: i64, admin: &[u8]) -> Option<usize>
    ensures value { result ≡ spec.first_bad (record {
      sp = sp.now;
      csi = csi.now;
      base = base.now;
      cst = cst;
      admin = admin.now;
    }) }
    ensures texts { IfNone result
        (IsUtf8 sp.now × IsUtf8 csi.now × IsUtf8 base.now × IsUtf8 admin.now) }
{
    if !is_free_name(sp) {
        return Some(0);
    }
    if !is_free_name(csi) {
        return Some(1);
    }
    if !is_base_name(base) {
        return Some(2);
    }
    if cst < 1 || cst > LAST_CSE_TYPE as i64 {
        return Some(3);
    }
    if !is_originator(admin) {
        return Some(4);
    }
    None
}

impl Home {
    ghost use Rattle.std.specs.Prelude.{◌≡◌, ◌↔◌, ℕ, Some, Err, IfOk, IsUtf8};
    ghost use Rattle.resource_model.specs.declared.home.HomeFault.TheVariants.{Bad};
    ghost use Rattle.resource_model.specs.Home.{first_bad, default_home};

    /// A home of these parts. The service provider, the CSE-ID, here without its slash, and the
    /// name of the CSEBase are free names, the last of them in the form of no id; the CSE type is
    /// 1, 2 or 3; the administrator is an originator.
    pub fn new(
        alloc: Global,
        sp: &[u8],
        csi: &[u8],
        base: &[u8],
        cst: i64,
        admin: &[u8],
    ) -> Result<Home, HomeFault>
        ensures ok { IfOk result (λ home. home ≡ record {
          sp = sp.now;
          csi = csi.now;
          base = base.now;
          cst = cst;
          admin = admin.now;
        }) }
        ensures bad { (k : ℕ) → (result ≡ Err (Bad k)) ↔ (first_bad (record {
          sp = sp.now;
          csi = csi.now;
          base = base.now;
          cst = cst;
          admin = admin.now;
        }) ≡ Some k) }
    {
        if let Some(place) = first_bad(sp, csi, base, cst, admin) {
            return Err(HomeFault::Bad(place));
        }
        Ok(Home {
            sp: Text::from_slice(alloc, sp)?,
            csi: Text::from_slice(alloc, csi)?,
            base: Text::from_slice(alloc, base)?,
            cst,
            admin: Text::from_slice(alloc, admin)?,
        })
    }

    /// The home of an entity where nothing else is said.
    pub fn with_defaults(alloc: Global) -> Result<Home, OutOfMemory>
        ensures { IfOk result (λ home. home ≡ default_home) }
    {
        Ok(Home {
            sp: Text::from_slice(alloc, SERVICE_PROVIDER.as_bytes())?,
            csi: Text::from_slice(alloc, CSE_ID.as_bytes())?,
            base: Text::from_slice(alloc, BASE.as_bytes())?,
            cst: CSE_TYPE,
            admin: Text::from_slice(alloc, ADMIN.as_bytes())?,
        })
    }

    /// The service provider.
    pub fn sp(&self) -> &Text
        ensures value { result.now ≡ self.now.sp }
        ensures utf8 { IsUtf8 result.now }
    {
        &self.sp
    }

    /// The CSE-ID without its slash.
    pub fn csi(&self) -> &Text
        ensures value { result.now ≡ self.now.csi }
        ensures utf8 { IsUtf8 result.now }
    {
        &self.csi
    }

    /// The name of the CSEBase.
    pub fn base(&self) -> &Text
        ensures value { result.now ≡ self.now.base }
        ensures utf8 { IsUtf8 result.now }
    {
        &self.base
    }

    /// The CSE type: 1, 2 or 3.
    pub fn cst(&self) -> i64
        ensures { result ≡ self.now.cst }
    {
        self.cst
    }

    /// The administrator.
    pub fn admin(&self) -> &Text
        ensures value { result.now ≡ self.now.admin }
        ensures utf8 { IsUtf8 result.now }
    {
        &self.admin
    }

    /// An equal home.
    pub fn copy(&self, alloc: Global) -> Result<Home, OutOfMemory>
        ensures { IfOk result (λ home. home ≡ self.now) }
    {
        Ok(Home {
            sp: self.sp.copy(alloc)?,
            csi: self.csi.copy(alloc)?,
            base: self.base.copy(alloc)?,
            cst: self.cst,
            admin: self.admin.copy(alloc)?,
        })
    }
}

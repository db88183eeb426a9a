//! The attributes of resources.
ghost use Rattle.std.specs.Prelude.{◌≡◌, ◌≢◌, [], IfSome, IfNone, Some};
ghost use Rattle.std.specs.Cmp.Lexicographic.{slice_cmp};
ghost use Rattle.std.specs.Ordering.{nat_cmp};
ghost use Rattle.m2m_names.specs.declared.attributes.Attr.{Attr};
ghost use Rattle.m2m_names.specs.Attributes.{attr_short, attr_of_short, attr_cmp, attr_place};

use std::cmp::Ordering;

/// An attribute of a resource, named by its short name (TS-0004, 8.2.3).
///
/// `order` is that of the keys of an object in canonical JSON, in which the variants stand.
#[derive(Clone, Copy, Debug, PartialEq, Eq)]
pub enum Attr {
    Aa,
    Acpi,
    Aei,
    Api,
    Apn,
    At,
    Cb,
    Cbs,
    Cnf,
    Cni,
    Cnm,
    Con,
    Cr,
    Cs,
    Csi,
    Cst,
    Csy,
    Ct,
    Enc,
    Et,
    Exc,
    Gn,
    Lbl,
    Lnk,
    Lt,
    Macp,
    Mbs,
    Mia,
    Mid,
    Mni,
    Mnm,
    Mt,
    Mtv,
    Nct,
    Nu,
    Pi,
    Poa,
    Pv,
    Pvs,
    Ri,
    Rn,
    Rr,
    Srt,
    Srv,
    St,
    Su,
    Ty,
}

// In the order of bytes of their short names.
const ALL: [Attr; 47] = [
    Attr::Aa,
    Attr::Acpi,
    Attr::Aei,
    Attr::Api,
    Attr::Apn,
    Attr::At,
    Attr::Cb,
    Attr::Cbs,
    Attr::Cnf,
    Attr::Cni,
    Attr::Cnm,
    Attr::Con,
    Attr::Cr,
    Attr::Cs,
    Attr::Csi,
    Attr::Cst,
    Attr::Csy,
    Attr::Ct,
    Attr::Enc,
    Attr::Et,
    Attr::Exc,
    Attr::Gn,
    Attr::Lbl,
    Attr::Lnk,
    Attr::Lt,
    Attr::Macp,
    Attr::Mbs,
    Attr::Mia,
    Attr::Mid,
    Attr::Mni,
    Attr::Mnm,
    Attr::Mt,
    Attr::Mtv,
    Attr::Nct,
    Attr::Nu,
    Attr::Pi,
    Attr::Poa,
    Attr::Pv,
    Attr::Pvs,
    Attr::Ri,
    Attr::Rn,
    Attr::Rr,
    Attr::Srt,
    Attr::Srv,
    Attr::St,
    Attr::Su,
    Attr::Ty,
];

/// How a short name and a text stand, in the order of bytes. A short name has few bytes, so that
/// one after another is quicker than what compares long texts.
fn order_of(short: &[u8], text: &[u8]) -> Ordering
    ensures { result ≡ slice_cmp nat_cmp short.now text.now }
{
    match short {
        [] => order_behind(text),
        [byte, behind @ ..] => match text {
            [] => Ordering::Greater,
            [own, left @ ..] => match byte.cmp(own) {
                Ordering::Equal => order_of(behind, left),
                order => order,
            },
        },
    }
}

/// How nothing and a text stand.
fn order_behind(text: &[u8]) -> Ordering
    ensures { result ≡ slice_cmp nat_cmp [] text.now }
{
    match text {
        [] => Ordering::Equal,
        _ => Ordering::Less,
    }
}

impl Attr {
    /// How its short name and a text stand, in the order of bytes.
    fn order_to(self, text: &[u8]) -> Ordering
        ensures { result ≡ slice_cmp nat_cmp (attr_short self) text.now }
    {
        order_of(self.short().as_bytes(), text)
    }

    /// The attribute that `ALL` has at a short name, found by halving.
    fn find(text: &[u8]) -> Option<Attr>
        ensures { result ≡ attr_of_short text.now }
    {
        match ALL.binary_search_by(|attr| attr.order_to(text)) {
            Ok(place) => Some(ALL[place]),
            Err(_) => None,
        }
    }

    /// The attribute of a short name.
    pub fn from_short(text: &str) -> Option<Attr>
        ensures value { result ≡ attr_of_short text.now }
        ensures found { IfSome result (λ a. attr_short a ≡ text.now) }
        ensures none { IfNone result ((a : Attr) → attr_short a ≢ text.now) }
    {
        Attr::from_short_bytes(text.as_bytes())
    }

    /// The attribute of a short name that stands as bytes.
    pub fn from_short_bytes(text: &[u8]) -> Option<Attr>
        ensures value { result ≡ attr_of_short text.now }
        ensures found { IfSome result (λ a. attr_short a ≡ text.now) }
        ensures none { IfNone result ((a : Attr) → attr_short a ≢ text.now) }
    {
        Attr::find(text)
    }

    /// Its short name.
    pub fn short(self) -> &'static str
        ensures value { result.now ≡ attr_short self }
        ensures back { attr_of_short result.now ≡ Some self }
    {
        match self {
            Attr::Aa => "aa",
            Attr::Acpi => "acpi",
            Attr::Aei => "aei",
            Attr::Api => "api",
            Attr::Apn => "apn",
            Attr::At => "at",
            Attr::Cb => "cb",
            Attr::Cbs => "cbs",
            Attr::Cnf => "cnf",
            Attr::Cni => "cni",
            Attr::Cnm => "cnm",
            Attr::Con => "con",
            Attr::Cr => "cr",
            Attr::Cs => "cs",
            Attr::Csi => "csi",
            Attr::Cst => "cst",
            Attr::Csy => "csy",
            Attr::Ct => "ct",
            Attr::Enc => "enc",
            Attr::Et => "et",
            Attr::Exc => "exc",
            Attr::Gn => "gn",
            Attr::Lbl => "lbl",
            Attr::Lnk => "lnk",
            Attr::Lt => "lt",
            Attr::Macp => "macp",
            Attr::Mbs => "mbs",
            Attr::Mia => "mia",
            Attr::Mid => "mid",
            Attr::Mni => "mni",
            Attr::Mnm => "mnm",
            Attr::Mt => "mt",
            Attr::Mtv => "mtv",
            Attr::Nct => "nct",
            Attr::Nu => "nu",
            Attr::Pi => "pi",
            Attr::Poa => "poa",
            Attr::Pv => "pv",
            Attr::Pvs => "pvs",
            Attr::Ri => "ri",
            Attr::Rn => "rn",
            Attr::Rr => "rr",
            Attr::Srt => "srt",
            Attr::Srv => "srv",
            Attr::St => "st",
            Attr::Su => "su",
            Attr::Ty => "ty",
        }
    }

    /// How many attributes have a smaller short name.
    fn place(self) -> u8
        ensures { result ≡ attr_place self }
    {
        self as u8
    }

    /// How it stands to another: as their short names do in the order of bytes.
    pub fn order(self, other: Attr) -> Ordering
        ensures { result ≡ attr_cmp self other }
    {
        let mine = self.place();
        let theirs = other.place();
        mine.cmp(&theirs)
    }
}

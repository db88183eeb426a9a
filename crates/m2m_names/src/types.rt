//! The resource types.
ghost use Rattle.std.specs.Prelude.{◌≡◌, ◌≢◌, ◌≤◌, ◌↔◌, IfSome, IfNone, IsTrue, Some};
ghost use Rattle.std.specs.Bool.{OnTrue};
ghost use Rattle.m2m_names.specs.declared.types.Ty.{Ty};
ghost use Rattle.m2m_names.specs.Types.{ty_row, ty_of_number, ty_of_word, ty_member, Takes};
ghost use Rattle.m2m_names.specs.Types.{does_take, is_type_number, largest_type};

/// A resource type, by the standard's own names (TS-0001, 9.6; `Annc` ends those of announced
/// resources).
#[derive(Clone, Copy, Debug, PartialEq, Eq)]
pub enum Ty {
    AccessControlPolicy,
    Ae,
    Container,
    ContentInstance,
    CseBase,
    Group,
    PollingChannel,
    RemoteCse,
    Subscription,
    AccessControlPolicyAnnc,
    AeAnnc,
    ContainerAnnc,
    ContentInstanceAnnc,
    GroupAnnc,
}

use Ty::*;

/// A row of the table of types.
#[derive(Clone, Copy)]
struct Row {
    number: u32,
    word: &'static str,
    member: &'static str,
    takes: &'static [Ty],
}

impl Ty {
    /// All types, in the order of their numbers.
    pub const ALL: [Ty; 14] = [
        AccessControlPolicy,
        Ae,
        Container,
        ContentInstance,
        CseBase,
        Group,
        PollingChannel,
        RemoteCse,
        Subscription,
        AccessControlPolicyAnnc,
        AeAnnc,
        ContainerAnnc,
        ContentInstanceAnnc,
        GroupAnnc,
    ];

    /// The type that `ALL` has at a number.
    fn find(n: u32) -> Option<Ty>
        ensures { result ≡ ty_of_number n }
    {
        Ty::ALL.iter().copied().find(|ty| ty.number() == n)
    }

    /// The type that `ALL` has at a short word.
    fn find_word(word: &[u8]) -> Option<Ty>
        ensures { result ≡ ty_of_word word.now }
    {
        Ty::ALL
            .iter()
            .copied()
            .find(|ty| ty.word().as_bytes() == word)
    }

    /// Its row of the table.
    fn row(self) -> Row
        ensures number { result.number ≡ (ty_row self).number }
        ensures word { result.word.now ≡ (ty_row self).word }
        ensures takes { result.takes.now ≡ (ty_row self).takes }
        ensures member { result.member.now ≡ ty_member self }
    {
        match self {
            AccessControlPolicy => Row {
                number: 1,
                word: "acp",
                member: "m2m:acp",
                takes: &[Subscription],
            },
            Ae => Row {
                number: 2,
                word: "ae",
                member: "m2m:ae",
                takes: &[
                    AccessControlPolicy,
                    Container,
                    Group,
                    Subscription,
                    PollingChannel,
                ],
            },
            Container => Row {
                number: 3,
                word: "cnt",
                member: "m2m:cnt",
                takes: &[Container, ContentInstance, Subscription],
            },
            ContentInstance => Row {
                number: 4,
                word: "cin",
                member: "m2m:cin",
                takes: &[],
            },
            CseBase => Row {
                number: 5,
                word: "cb",
                member: "m2m:cb",
                takes: &[
                    AccessControlPolicy,
                    Ae,
                    Container,
                    Group,
                    Subscription,
                    RemoteCse,
                ],
            },
            Group => Row {
                number: 9,
                word: "grp",
                member: "m2m:grp",
                takes: &[Subscription],
            },
            PollingChannel => Row {
                number: 15,
                word: "pch",
                member: "m2m:pch",
                takes: &[],
            },
            RemoteCse => Row {
                number: 16,
                word: "csr",
                member: "m2m:csr",
                takes: &[
                    AccessControlPolicy,
                    Container,
                    Group,
                    Subscription,
                    PollingChannel,
                    AeAnnc,
                    ContainerAnnc,
                    GroupAnnc,
                    AccessControlPolicyAnnc,
                ],
            },
            Subscription => Row {
                number: 23,
                word: "sub",
                member: "m2m:sub",
                takes: &[],
            },
            AccessControlPolicyAnnc => Row {
                number: 10001,
                word: "acpA",
                member: "m2m:acpA",
                takes: &[],
            },
            AeAnnc => Row {
                number: 10002,
                word: "aeA",
                member: "m2m:aeA",
                takes: &[ContainerAnnc],
            },
            ContainerAnnc => Row {
                number: 10003,
                word: "cntA",
                member: "m2m:cntA",
                takes: &[ContainerAnnc, ContentInstanceAnnc],
            },
            ContentInstanceAnnc => Row {
                number: 10004,
                word: "cinA",
                member: "m2m:cinA",
                takes: &[],
            },
            GroupAnnc => Row {
                number: 10009,
                word: "grpA",
                member: "m2m:grpA",
                takes: &[],
            },
        }
    }

    /// The type of a number.
    pub fn from_number(n: u32) -> Option<Ty>
        ensures value { result ≡ ty_of_number n }
        ensures found { IfSome result (λ ty. (ty_row ty).number ≡ n) }
        ensures none { IfNone result ((ty : Ty) → (ty_row ty).number ≢ n) }
    {
        Ty::find(n)
    }

    /// Its number (TS-0004, 6.3.4.2.1).
    pub fn number(self) -> u32
        ensures value { result ≡ (ty_row self).number }
        ensures back { ty_of_number result ≡ Some self }
    {
        self.row().number
    }

    /// Its short word, with which resource identifiers begin.
    pub fn word(self) -> &'static str
        ensures { result.now ≡ (ty_row self).word }
    {
        self.row().word
    }

    /// The type of a short word.
    pub fn from_word(word: &[u8]) -> Option<Ty>
        ensures value { result ≡ ty_of_word word.now }
        ensures found { IfSome result (λ ty. (ty_row ty).word ≡ word.now) }
        ensures none { IfNone result ((ty : Ty) → (ty_row ty).word ≢ word.now) }
    {
        Ty::find_word(word)
    }

    /// Its name in JSON, `m2m:` and the short word (TS-0004, 8.2.4).
    pub fn member(self) -> &'static str
        ensures { result.now ≡ ty_member self }
    {
        self.row().member
    }

    /// Whether a resource of this type may have such a child.
    pub fn takes(self, child: Ty) -> bool
        ensures taken { IsTrue result ↔ Takes self child }
        ensures value { result ≡ does_take self child }
    {
        self.row().takes.contains(&child)
    }
}

/// The largest number that a resource type may have (the profile's).
const LARGEST_TYPE: u64 = 65_535;

/// Whether a resource type may have the number, be it known or not.
pub fn is_type_number(number: u64) -> bool
    ensures value { result ≡ is_type_number number }
    ensures bound { OnTrue result (number ≤ largest_type) }
{
    number <= LARGEST_TYPE
}

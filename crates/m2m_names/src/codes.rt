//! Response status codes.
ghost use Rattle.std.specs.Prelude.{◌≡◌, ◌↔◌, IsTrue, IfSome, IsSome, Some};
ghost use Rattle.std.specs.Int.{IsInRange};
ghost use Rattle.m2m_names.specs.StatusNumbers.{is_other};

/// A number from 1001 to 9999 that no other status code has.
#[derive(Clone, Copy, Debug, PartialEq, Eq)]
pub struct OtherNumber {
    pub number: u16,
    pub ghost outside: { IsTrue (is_other number) },
}

/// A response status code (TS-0004, 6.6.3).
#[derive(Clone, Copy, Debug, PartialEq, Eq)]
pub enum Rsc {
    Accepted,
    Ok,
    Created,
    Deleted,
    Updated,
    BadRequest,
    NotFound,
    NotAllowed,
    RequestTimeout,
    NoPrivilege,
    Conflict,
    BadChild,
    Internal,
    NotImplemented,
    NotReachable,
    NotSubscribable,
    NonBlocking,
    NotAcceptable,
    TooManyMembers,
    WrongMember,
    /// A number that this entity never gives itself, and passes on where a peer gave it.
    Other(OtherNumber),
}

/// The numbers of status codes have four digits: the least and the greatest of them.
const LEAST_CODE: u16 = 1000;

const GREATEST_CODE: u16 = 9999;

const NAMED: [Rsc; 20] = [
    Rsc::Accepted,
    Rsc::Ok,
    Rsc::Created,
    Rsc::Deleted,
    Rsc::Updated,
    Rsc::BadRequest,
    Rsc::NotFound,
    Rsc::NotAllowed,
    Rsc::RequestTimeout,
    Rsc::NoPrivilege,
    Rsc::Conflict,
    Rsc::BadChild,
    Rsc::Internal,
    Rsc::NotImplemented,
    Rsc::NotReachable,
    Rsc::NotSubscribable,
    Rsc::NonBlocking,
    Rsc::NotAcceptable,
    Rsc::TooManyMembers,
    Rsc::WrongMember,
];

impl Rsc {
    ghost use Rattle.m2m_names.specs.declared.codes.Rsc.{Rsc};
    ghost use Rattle.m2m_names.specs.StatusCodes.{rsc_row, rsc_of_number, named_code};
    ghost use Rattle.m2m_names.specs.StatusCodes.{http_status_of_other};
    ghost use Rattle.m2m_names.specs.StatusNumbers.{least_code, greatest_code};

    /// The HTTP status of a number that has no name.
    fn http_of_other(n: u16) -> u16
        ensures { result ≡ http_status_of_other n }
    {
        match n {
            2000..=2999 => 200,
            4000..=4999 => 400,
            _ => 500,
        }
    }

    /// Its row of the table: its number and its HTTP status.
    fn row(self) -> (u16, u16)
        ensures number { result.0 ≡ (rsc_row self).number }
        ensures http { result.1 ≡ (rsc_row self).http }
    {
        match self {
            Rsc::Accepted => (1000, 202),
            Rsc::Ok => (2000, 200),
            Rsc::Created => (2001, 201),
            Rsc::Deleted => (2002, 200),
            Rsc::Updated => (2004, 200),
            Rsc::BadRequest => (4000, 400),
            Rsc::NotFound => (4004, 404),
            Rsc::NotAllowed => (4005, 405),
            Rsc::RequestTimeout => (4008, 408),
            Rsc::NoPrivilege => (4103, 403),
            Rsc::Conflict => (4105, 409),
            Rsc::BadChild => (4108, 403),
            Rsc::Internal => (5000, 500),
            Rsc::NotImplemented => (5001, 501),
            Rsc::NotReachable => (5103, 404),
            Rsc::NotSubscribable => (5203, 403),
            Rsc::NonBlocking => (5206, 501),
            Rsc::NotAcceptable => (5207, 406),
            Rsc::TooManyMembers => (6010, 400),
            Rsc::WrongMember => (6011, 400),
            Rsc::Other(OtherNumber { number }) => (number, Rsc::http_of_other(number)),
        }
    }

    /// The status code of a number that has a name.
    fn named(n: u16) -> Option<Rsc>
        ensures { result ≡ named_code n }
    {
        NAMED.iter().copied().find(|code| code.number() == n)
    }

    /// The status code of a number, as it stands in a reply.
    pub fn from_number(n: u16) -> Option<Rsc>
        ensures value { result ≡ rsc_of_number n }
        ensures found { IfSome result (λ r. (rsc_row r).number ≡ n) }
        ensures some { IsSome result ↔ IsInRange least_code greatest_code n }
    {
        match Rsc::named(n) {
            Some(code) => Some(code),
            None if (LEAST_CODE..=GREATEST_CODE).contains(&n) => {
                Some(Rsc::Other(OtherNumber { number: n }))
            }
            None => None,
        }
    }

    /// Its number in a reply.
    pub fn number(self) -> u16
        ensures value { result ≡ (rsc_row self).number }
        ensures back { rsc_of_number result ≡ Some self }
    {
        self.row().0
    }

    /// The HTTP status that goes with it (TS-0009, 6.3.2; where the standard has none, the
    /// profile's).
    pub fn http_status(self) -> u16
        ensures { result ≡ (rsc_row self).http }
    {
        self.row().1
    }
}

//! The members of a request, as a table.
ghost use Rattle.std.specs.Prelude.{◌≡◌, ◌≢◌, IfSome, IfNone};
ghost use Rattle.primitive_json.specs.Members as spec;
ghost use Rattle.primitive_json.specs.Members.{row_of_member, name_of_member, member_named};
ghost use Rattle.primitive_json.specs.Members.{is_one_unread};
ghost use Rattle.primitive_json.specs.declared.member.Member.{Member};

use m2m_names::Op;

/// A member of a request that is acted on, named by its parameter (TS-0001, 8.1.2).
#[derive(Clone, Copy, Debug, PartialEq, Eq)]
pub enum Member {
    DesiredForm,
    FilterCriteria,
    Originator,
    Operation,
    Content,
    ResultContent,
    Expiry,
    RequestId,
    ResponseType,
    Target,
    ResourceType,
}

use Member::*;

/// What the value of a member is.
#[derive(Clone, Copy)]
pub enum MemberKind {
    /// 1 or 2.
    AddressForm,
    /// An object of conditions, on Retrieve alone.
    FilterObject,
    /// An originator.
    OriginatorText,
    /// The number of an operation.
    OperationNumber,
    AnyObject,
    /// A number by the operation.
    ResultNumber,
    /// A timestamp, or milliseconds as digits or as a number.
    ExpiryTime,
    /// A request identifier.
    IdText,
    /// A number, or an object that has one at `rtv`.
    ResponseForm,
    /// A text of 1 to 1,024 bytes.
    AddressText,
    /// 0 to 65,535.
    TypeNumber,
}

/// On which operations a member is read.
#[derive(Clone, Copy)]
pub enum Scope {
    /// On all, and where the operation is not known.
    Always,
    /// On Create.
    OnCreate,
    /// On those that have content: Create, Update and Notify.
    WithContent,
    /// On those whose result can be chosen: all but Notify.
    WithResult,
}

/// A row of the table of members.
#[derive(Clone, Copy)]
struct Row {
    name: &'static str,
    kind: MemberKind,
    scope: Scope,
    /// Whether it is needed where it is read.
    needed: bool,
}

/// Whether the operation creates a resource.
pub fn creates(op: Op) -> bool
    ensures { result ≡ spec.creates op }
{
    matches!(op, Op::Create)
}

/// Whether it retrieves, and so may have a filter.
pub fn retrieves(op: Op) -> bool
    ensures { result ≡ spec.retrieves op }
{
    matches!(op, Op::Retrieve)
}

/// Whether it has content.
pub fn has_content(op: Op) -> bool
    ensures { result ≡ spec.has_content op }
{
    matches!(op, Op::Create | Op::Update | Op::Notify)
}

/// Whether the content of its result can be chosen.
pub fn has_result(op: Op) -> bool
    ensures { result ≡ spec.has_result op }
{
    !matches!(op, Op::Notify)
}

/// Whether the name is that of a member that is accepted and never read.
pub fn is_unread(name: &[u8]) -> bool
    ensures { result ≡ is_one_unread name.now }
{
    matches!(
        name,
        b"da" | b"ec" | b"gid" | b"oet" | b"ot" | b"rp" | b"rset" | b"rvi" | b"vsi"
    )
}

impl Scope {
    fn covers(self, op: Option<Op>) -> bool
        ensures { result ≡ spec.covers self op }
    {
        match (self, op) {
            (Scope::Always, _) => true,
            (_, None) => false,
            (Scope::OnCreate, Some(op)) => creates(op),
            (Scope::WithContent, Some(op)) => has_content(op),
            (Scope::WithResult, Some(op)) => has_result(op),
        }
    }
}

impl Member {
    /// All members, in byte order of their short names.
    pub const ALL: [Member; 11] = [
        DesiredForm,
        FilterCriteria,
        Originator,
        Operation,
        Content,
        ResultContent,
        Expiry,
        RequestId,
        ResponseType,
        Target,
        ResourceType,
    ];

    /// Its row of the table.
    fn row(self) -> Row
        ensures name { result.name.now ≡ (row_of_member self).name }
        ensures kind { result.kind ≡ (row_of_member self).kind }
        ensures scope { result.scope ≡ (row_of_member self).scope }
        ensures needed { result.needed ≡ (row_of_member self).needed }
    {
        let (name, kind, scope, needed) = match self {
            DesiredForm => ("drt", MemberKind::AddressForm, Scope::Always, false),
            FilterCriteria => ("fc", MemberKind::FilterObject, Scope::Always, false),
            Originator => ("fr", MemberKind::OriginatorText, Scope::Always, false),
            Operation => ("op", MemberKind::OperationNumber, Scope::Always, true),
            Content => ("pc", MemberKind::AnyObject, Scope::WithContent, true),
            ResultContent => ("rcn", MemberKind::ResultNumber, Scope::WithResult, false),
            Expiry => ("rqet", MemberKind::ExpiryTime, Scope::Always, false),
            RequestId => ("rqi", MemberKind::IdText, Scope::Always, true),
            ResponseType => ("rt", MemberKind::ResponseForm, Scope::Always, false),
            Target => ("to", MemberKind::AddressText, Scope::Always, true),
            ResourceType => ("ty", MemberKind::TypeNumber, Scope::OnCreate, true),
        };
        Row {
            name,
            kind,
            scope,
            needed,
        }
    }

    /// Its short name (TS-0004, 8.2.2).
    pub fn name(self) -> &'static str
        ensures { result.now ≡ name_of_member self }
    {
        self.row().name
    }

    /// What its value is.
    pub fn kind(self) -> MemberKind
        ensures { result ≡ (row_of_member self).kind }
    {
        self.row().kind
    }

    /// The member that `ALL` has at a short name.
    fn find(name: &[u8]) -> Option<Member>
        ensures { result ≡ member_named name.now }
    {
        Member::ALL
            .iter()
            .copied()
            .find(|member| member.name().as_bytes() == name)
    }

    /// The member of a short name.
    pub fn named(name: &[u8]) -> Option<Member>
        ensures value { result ≡ member_named name.now }
        ensures found { IfSome result (λ member. name_of_member member ≡ name.now) }
        ensures none { IfNone result ((member : Member) → name_of_member member ≢ name.now) }
    {
        Member::find(name)
    }

    /// Whether it is read on the operation, as far as that is known.
    pub fn is_read(self, op: Option<Op>) -> bool
        ensures { result ≡ spec.is_read op self }
    {
        self.row().scope.covers(op)
    }

    /// Whether it must be there on the operation.
    pub fn is_needed(self, op: Option<Op>) -> bool
        ensures { result ≡ spec.is_needed op self }
    {
        let row = self.row();
        row.needed && row.scope.covers(op)
    }
}

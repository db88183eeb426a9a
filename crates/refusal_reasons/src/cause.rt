//! The causes of refusals, as a table.
ghost use Rattle.std.specs.Prelude.{◌≡◌};
ghost use Rattle.refusal_reasons.specs.Causes as spec;

use crate::facts::{Facts, Place};
use m2m_names::{Op, Rsc, Ty};

/// Why a request is refused: a place of the order in which requests are.
#[derive(Clone, Copy, Debug, PartialEq, Eq)]
pub enum Cause {
    /// A parameter isn't of its kind.
    Form,
    /// Nobody is said to ask, or what no originator is.
    Originator,
    /// The target is no address.
    Address,
    /// The content isn't admitted.
    Content,
    /// The target is of another type than the content.
    OtherType,
    /// `et` isn't later than the moment.
    NotLater,
    /// `acpi` names what is no policy.
    NoPolicy,
    /// `macp` names what is no policy.
    NoFanPolicy,
    /// `mid` names what is no address.
    NoMember,
    /// Nothing has the address.
    Absent,
    /// The conditions of the filter don't hold of the target.
    Unmatched,
    /// The target is of a type that isn't updated.
    NeverUpdated,
    /// The target is the CSEBase.
    NeverDeleted,
    /// The target is no application entity.
    NeverNotified,
    /// The request has expired.
    Expired,
    /// The right CREATE is wanting.
    NoCreate,
    /// The right CREATE is wanting, or RETRIEVE beside it.
    NoSubscribe,
    /// The right RETRIEVE is wanting.
    NoRetrieve,
    /// The right DISCOVERY is wanting.
    NoDiscovery,
    /// The right UPDATE is wanting.
    NoUpdate,
    /// The right to change `acpi` is wanting.
    NoRelink,
    /// The right DELETE is wanting.
    NoDelete,
    /// The right NOTIFY is wanting.
    NoNotify,
    /// A sibling has the name.
    NameTaken,
    /// The AE-ID is another's.
    AeIdTaken,
    /// The CSE-ID is another's.
    CseIdTaken,
    /// The parent has a polling channel.
    ChannelTaken,
    /// No type has the number.
    UnknownType,
    /// The target takes no child of the type.
    WrongParent,
    /// The target takes no subscription.
    NotSubscribable,
    /// Another answer than the one that it waits for is asked for.
    Deferred,
    /// A limit of the CSE is passed.
    Full,
    /// The container takes no such instance.
    TooLarge,
    /// Too many requests are to be answered later.
    TooManyDeferred,
    /// The group would have too many members.
    TooManyMembers,
    /// A member is of another type than the group.
    WrongMember,
}

/// A row of the table of causes.
#[derive(Clone, Copy)]
struct Row {
    /// The status by which a request is refused for the cause.
    code: Rsc,
    words: &'static str,
}

/// Whether the operation has the content of a resource.
fn is_written(op: Op) -> bool
    ensures { result ≡ spec.is_written op }
{
    matches!(op, Op::Create | Op::Update)
}

impl Facts {
    fn is_said(&self) -> bool
        ensures { result ≡ spec.is_said self.now }
    {
        self.is_formed && self.has_originator
    }

    fn is_judged(&self) -> bool
        ensures { result ≡ spec.is_judged self.now }
    {
        self.is_said() && matches!(self.place, Place::Here)
    }

    fn says(&self, word: bool) -> bool
        ensures { result ≡ spec.says self.now word }
    {
        self.is_judged() && word
    }

    fn is_of(&self, op: Op) -> bool
        ensures { result ≡ spec.is_op self.now.op op }
    {
        self.op.number() == op.number()
    }

    fn asks(&self, op: Op, word: bool) -> bool
        ensures { result ≡ spec.asks self.now op word }
    {
        self.says(self.is_of(op) && word)
    }

    fn writes(&self, word: bool) -> bool
        ensures { result ≡ spec.writes self.now word }
    {
        self.says(is_written(self.op) && word)
    }

    fn takes(&self, word: bool) -> bool
        ensures { result ≡ spec.takes self.now word }
    {
        self.writes(self.is_admitted && word)
    }

    fn is_about(&self, ty: Ty) -> bool
        ensures { result ≡ spec.is_about self.now ty }
    {
        match self.ty {
            Some(own) => ty.number() == own.number(),
            None => false,
        }
    }

    fn creates(&self, ty: Ty) -> bool
        ensures { result ≡ spec.creates self.now ty }
    {
        self.asks(Op::Create, self.is_about(ty))
    }

    fn is_unsaid(&self) -> bool
        ensures { result ≡ spec.is_unsaid self.now }
    {
        self.is_formed && !self.has_originator
    }

    fn is_lost(&self) -> bool
        ensures { result ≡ spec.is_lost self.now }
    {
        self.is_said() && matches!(self.place, Place::Nowhere)
    }

    fn is_conditional(&self) -> bool
        ensures { result ≡ spec.is_conditional self.now }
    {
        self.is_filtered && !self.is_discovery
    }

    /// Whether a request that says this may be refused for the cause.
    fn may_be(&self, cause: Cause) -> bool
        ensures { result ≡ spec.may_be self.now cause }
    {
        match cause {
            Cause::Form => !self.is_formed,
            Cause::Originator => self.is_unsaid(),
            Cause::Address => self.is_lost(),
            Cause::Content => self.writes(!self.is_admitted),
            Cause::OtherType => self.asks(Op::Update, self.ty.is_some()),
            Cause::NotLater => self.takes(self.names_et),
            Cause::NoPolicy => self.takes(self.names_acpi),
            Cause::NoFanPolicy => self.takes(self.names_macp),
            Cause::NoMember => self.takes(self.names_mid),
            Cause::Absent => self.is_judged(),
            Cause::Unmatched => self.says(self.is_conditional()),
            Cause::NeverUpdated => self.asks(Op::Update, true),
            Cause::NeverDeleted => self.asks(Op::Delete, true),
            Cause::NeverNotified => self.asks(Op::Notify, true),
            Cause::Expired => self.says(self.expires),
            Cause::NoCreate => self.asks(Op::Create, !self.is_about(Ty::Subscription)),
            Cause::NoSubscribe => self.creates(Ty::Subscription),
            Cause::NoRetrieve => self.asks(Op::Retrieve, !self.is_discovery),
            Cause::NoDiscovery => self.asks(Op::Retrieve, self.is_discovery),
            Cause::NoUpdate => self.asks(Op::Update, !self.is_relink),
            Cause::NoRelink => self.asks(Op::Update, self.is_relink),
            Cause::NoDelete => self.asks(Op::Delete, true),
            Cause::NoNotify => self.asks(Op::Notify, true),
            Cause::NameTaken => self.asks(Op::Create, true),
            Cause::AeIdTaken => self.creates(Ty::Ae),
            Cause::CseIdTaken => self.creates(Ty::RemoteCse),
            Cause::ChannelTaken => self.creates(Ty::PollingChannel),
            Cause::UnknownType => self.asks(Op::Create, self.ty.is_none()),
            Cause::WrongParent => self.asks(Op::Create, self.ty.is_some()),
            Cause::NotSubscribable => self.creates(Ty::Subscription),
            Cause::Deferred => self.says(self.is_deferred),
            Cause::Full => self.asks(Op::Create, true),
            Cause::TooLarge => self.creates(Ty::ContentInstance),
            Cause::TooManyDeferred => self.says(self.is_deferred),
            Cause::TooManyMembers => self.writes(true),
            Cause::WrongMember => self.writes(true),
        }
    }

    /// Whether the status and what the request says leave the cause.
    pub(crate) fn leave(&self, code: Rsc, cause: Cause) -> bool
        ensures { result ≡ spec.is_left self.now code cause }
    {
        cause.code().number() == code.number() && self.may_be(cause)
    }
}

impl Cause {
    /// All causes, in the order in which requests are refused.
    pub const ALL: [Cause; 36] = [
        Cause::Form,
        Cause::Originator,
        Cause::Address,
        Cause::Content,
        Cause::OtherType,
        Cause::NotLater,
        Cause::NoPolicy,
        Cause::NoFanPolicy,
        Cause::NoMember,
        Cause::Absent,
        Cause::Unmatched,
        Cause::NeverUpdated,
        Cause::NeverDeleted,
        Cause::NeverNotified,
        Cause::Expired,
        Cause::NoCreate,
        Cause::NoSubscribe,
        Cause::NoRetrieve,
        Cause::NoDiscovery,
        Cause::NoUpdate,
        Cause::NoRelink,
        Cause::NoDelete,
        Cause::NoNotify,
        Cause::NameTaken,
        Cause::AeIdTaken,
        Cause::CseIdTaken,
        Cause::ChannelTaken,
        Cause::UnknownType,
        Cause::WrongParent,
        Cause::NotSubscribable,
        Cause::Deferred,
        Cause::Full,
        Cause::TooLarge,
        Cause::TooManyDeferred,
        Cause::TooManyMembers,
        Cause::WrongMember,
    ];

    /// Its row of the table.
    fn row(self) -> Row
        ensures code { result.code ≡ (spec.row_of self).code }
        ensures words { result.words.now ≡ (spec.row_of self).words }
    {
        let (code, words) = match self {
            Cause::Form => (Rsc::BadRequest, "a parameter is not of its kind"),
            Cause::Originator => (Rsc::BadRequest, "no originator: send X-M2M-Origin (fr)"),
            Cause::Address => (
                Rsc::BadRequest,
                "the target is no address: each part is a name, and no slash stands at the end",
            ),
            Cause::Content => (Rsc::BadRequest, "the content is not admitted"),
            Cause::OtherType => (
                Rsc::BadRequest,
                "the target is of another type than the content",
            ),
            Cause::NotLater => (Rsc::BadRequest, "et is not later than now"),
            Cause::NoPolicy => (Rsc::BadRequest, "acpi names what is no policy"),
            Cause::NoFanPolicy => (Rsc::BadRequest, "macp names what is no policy"),
            Cause::NoMember => (Rsc::BadRequest, "mid names what is no address"),
            Cause::Absent => (Rsc::NotFound, "nothing has this address"),
            Cause::Unmatched => (
                Rsc::NotFound,
                "the conditions of the filter do not hold of the target",
            ),
            Cause::NeverUpdated => (
                Rsc::NotAllowed,
                "a CSEBase and a contentInstance are never updated",
            ),
            Cause::NeverDeleted => (Rsc::NotAllowed, "the CSEBase is never deleted"),
            Cause::NeverNotified => (
                Rsc::NotAllowed,
                "only an AE is notified; a POST that creates has ty= in its Content-Type",
            ),
            Cause::Expired => (
                Rsc::RequestTimeout,
                "the request has expired: X-M2M-RET (rqet) is over",
            ),
            Cause::NoCreate => (Rsc::NoPrivilege, "no right CREATE"),
            Cause::NoSubscribe => (
                Rsc::NoPrivilege,
                "no right CREATE, or no right RETRIEVE beside it",
            ),
            Cause::NoRetrieve => (Rsc::NoPrivilege, "no right RETRIEVE"),
            Cause::NoDiscovery => (Rsc::NoPrivilege, "no right DISCOVERY"),
            Cause::NoUpdate => (Rsc::NoPrivilege, "no right UPDATE"),
            Cause::NoRelink => (Rsc::NoPrivilege, "no right to change acpi"),
            Cause::NoDelete => (Rsc::NoPrivilege, "no right DELETE"),
            Cause::NoNotify => (Rsc::NoPrivilege, "no right NOTIFY"),
            Cause::NameTaken => (
                Rsc::Conflict,
                "a sibling has the name already: rn gives another",
            ),
            Cause::AeIdTaken => (Rsc::Conflict, "the AE-ID is that of another AE"),
            Cause::CseIdTaken => (Rsc::Conflict, "csi is that of another CSE, or of this one"),
            Cause::ChannelTaken => (Rsc::Conflict, "the target has a polling channel already"),
            Cause::UnknownType => (Rsc::BadChild, "ty is the number of no type that is served"),
            Cause::WrongParent => (Rsc::BadChild, "the target takes no child of this ty"),
            Cause::NotSubscribable => (Rsc::NotSubscribable, "the target takes no subscription"),
            Cause::Deferred => (
                Rsc::NonBlocking,
                "rt asks for an answer that is not given here: 3 is",
            ),
            Cause::Full => (
                Rsc::NotAcceptable,
                "a limit of the CSE is passed: on resources, or on how deep they stand",
            ),
            Cause::TooLarge => (
                Rsc::NotAcceptable,
                "a limit of the container is passed: mbs, or mni or mia is 0",
            ),
            Cause::TooManyDeferred => (
                Rsc::NotAcceptable,
                "too many requests wait, or their results stand",
            ),
            Cause::TooManyMembers => (
                Rsc::TooManyMembers,
                "mid has more members than mnm, or than 64",
            ),
            Cause::WrongMember => (
                Rsc::WrongMember,
                "mid has a member of another type than mt, and csy is 2",
            ),
        };
        Row { code, words }
    }

    /// The status by which a request is refused for it.
    pub fn code(self) -> Rsc
        ensures { result ≡ (spec.row_of self).code }
    {
        self.row().code
    }

    /// What is told of it.
    pub fn words(self) -> &'static str
        ensures { result.now ≡ (spec.row_of self).words }
    {
        self.row().words
    }
}

//! The attributes of each type: where their values come from, and which requests may name them.
ghost use Rattle.std.specs.Prelude.{◌≡◌, Some, None, if◌then◌else◌};
ghost use Rattle.m2m_names.specs.declared.attributes.Attr.TheVariants.{Poa, Rr};
ghost use Rattle.attribute_rules.specs.Admission as admission;
ghost use Rattle.attribute_rules.specs.Kinds as kinds;
ghost use Rattle.attribute_rules.specs.Table as spec;

use Optionality::*;
use Source::*;
use attribute_kinds::Kind;
use attribute_kinds::Kind::*;
use m2m_names::Ty::*;
use m2m_names::{Attr, LARGEST_COUNT, Ty};
use m2m_value::Val;
use resource_model::{LAST_CSE_TYPE, Resource};

/// Whether a request names an attribute (TS-0004, 7.4: M, O and NP).
#[derive(Clone, Copy, Debug, PartialEq, Eq)]
pub enum Optionality {
    /// A creation has to name it. An update may name it, and doesn't clear it.
    Mandatory,
    Optional,
    NotPermitted,
}

/// Where the value of an attribute comes from.
#[derive(Clone, Copy, Debug, PartialEq, Eq)]
pub enum Source {
    /// From a request; the resource keeps it.
    Given(Kind),
    /// From a request; it is kept beside the attributes, as the name and the moment of expiry.
    Apart(Kind),
    /// A creation asks for it by null, and the resource keeps the originator.
    Creator,
    /// From the CSE; the resource keeps it.
    Assigned(Kind),
    /// From the CSE: the number, the type, the place, the moments, the children or the home.
    Derived,
}

/// What is said of an attribute of a type.
#[derive(Clone, Copy, Debug, PartialEq, Eq)]
pub struct Rule {
    pub source: Source,
    pub create: Optionality,
    pub update: Optionality,
    /// Whether announced resources may have it too (TS-0001, 9.6.26).
    pub announced: bool,
}

/// A request that names attributes.
#[derive(Clone, Copy, Debug, PartialEq, Eq)]
pub enum Writing {
    Create,
    Update,
}

impl Optionality {
    /// Whether a request may name it.
    pub fn is_permitted(self) -> bool
        ensures { result ≡ spec.is_permitted self }
    {
        match self {
            Mandatory | Optional => true,
            NotPermitted => false,
        }
    }

    /// Whether a request has to name it.
    pub fn is_mandatory(self) -> bool
        ensures { result ≡ spec.is_mandatory self }
    {
        match self {
            Mandatory => true,
            Optional | NotPermitted => false,
        }
    }
}

impl Source {
    /// The kind of the values that a resource keeps among its attributes.
    pub fn kept(self) -> Option<Kind>
        ensures { result ≡ kinds.kept_kind self }
    {
        match self {
            Given(kind) | Assigned(kind) => Some(kind),
            Creator => Some(Originator),
            Apart(_) | Derived => None,
        }
    }

    /// Whether a request may give the value.
    pub fn gives(self, value: &Val) -> bool
        ensures { result ≡ admission.is_given self value.now }
    {
        match self {
            Given(kind) | Apart(kind) => kind.has(value),
            Creator => value.is_null(),
            Assigned(_) | Derived => false,
        }
    }

    // Of the announced attribute, where the original's is this.
    fn announced(self) -> Source
        ensures { result ≡ spec.announced_source self }
    {
        match self {
            Given(kind) | Assigned(kind) => Given(announced_kind(kind)),
            Apart(_) | Creator | Derived => self,
        }
    }
}

fn announced_kind(kind: Kind) -> Kind
    ensures { result ≡ spec.announced_kind kind }
{
    match kind {
        Originator => Label,
        _ => kind,
    }
}

impl Rule {
    fn column(self, writing: Writing) -> Optionality
        ensures { result ≡ admission.column_of writing self }
    {
        match writing {
            Writing::Create => self.create,
            Writing::Update => self.update,
        }
    }

    /// Whether the request may name the attribute.
    pub fn permits(self, writing: Writing) -> bool
        ensures { result ≡ spec.is_permitted (admission.column_of writing self) }
    {
        self.column(writing).is_permitted()
    }

    fn is_clearable(self, writing: Writing) -> bool
        ensures { result ≡ admission.is_clearable writing self }
    {
        match writing {
            Writing::Create => false,
            Writing::Update => self.update.is_permitted() && !self.update.is_mandatory(),
        }
    }

    /// Whether the request may have the value at the attribute.
    pub fn allows_value(self, writing: Writing, value: &Val) -> bool
        ensures { result ≡ admission.allows_value writing self value.now }
    {
        (value.is_null() && self.is_clearable(writing)) || self.source.gives(value)
    }

    // Of the announced attribute, where the original's can be announced.
    fn announced_rule(self) -> Option<Rule>
        ensures { result ≡ spec.announced_rule self }
    {
        if self.announced {
            Some(Rule {
                source: self.source.announced(),
                create: Optional,
                update: Optional,
                announced: false,
            })
        } else {
            None
        }
    }
}

const ANNOUNCED: [Ty; 5] = [
    AccessControlPolicyAnnc,
    AeAnnc,
    ContainerAnnc,
    ContentInstanceAnnc,
    GroupAnnc,
];

const ANNOUNCEABLE: [Ty; 5] = [AccessControlPolicy, Ae, Container, ContentInstance, Group];

// All but the CSEBase.
const CREATED: [Ty; 13] = [
    AccessControlPolicy,
    Ae,
    Container,
    ContentInstance,
    Group,
    PollingChannel,
    RemoteCse,
    Subscription,
    AccessControlPolicyAnnc,
    AeAnnc,
    ContainerAnnc,
    ContentInstanceAnnc,
    GroupAnnc,
];

const LINKED: [Ty; 10] = [
    Ae,
    Container,
    Group,
    RemoteCse,
    Subscription,
    AccessControlPolicyAnnc,
    AeAnnc,
    ContainerAnnc,
    ContentInstanceAnnc,
    GroupAnnc,
];

const AUTHORED: [Ty; 4] = [Container, ContentInstance, Group, Subscription];

// The columns for a creation and for an update: who names the attribute at the creation may change
// and clear it; who has to may change it; who has to, or may, may not change it; nobody names it.
const FREE: (Optionality, Optionality) = (Optional, Optional);

const NEEDED: (Optionality, Optionality) = (Mandatory, Mandatory);

const FIXED: (Optionality, Optionality) = (Mandatory, NotPermitted);

const ONCE: (Optionality, Optionality) = (Optional, NotPermitted);

const NEVER: (Optionality, Optionality) = (NotPermitted, NotPermitted);

// The rule of these columns, where the type is among these.
fn row(
    types: &[Ty],
    ty: Ty,
    source: Source,
    columns: (Optionality, Optionality),
    announced: bool,
) -> Option<Rule>
    ensures { result ≡ if spec.is_type_among ty types.now
        then Some (spec.rule source columns.0 columns.1 announced) else None }
{
    if types.contains(&ty) {
        Some(Rule {
            source,
            create: columns.0,
            update: columns.1,
            announced,
        })
    } else {
        None
    }
}

// Points of access, which remote CSEs don't announce.
fn points_rule(ty: Ty) -> Option<Rule>
    ensures { result ≡ spec.table_rule ty Poa }
{
    match ty {
        RemoteCse => row(&[RemoteCse], ty, Given(Points), FREE, false),
        _ => row(&[Ae], ty, Given(Points), FREE, true),
    }
}

// Whether requests reach it, which remote CSEs don't announce.
fn reachability_rule(ty: Ty) -> Option<Rule>
    ensures { result ≡ spec.table_rule ty Rr }
{
    match ty {
        RemoteCse => row(&[RemoteCse], ty, Given(Bool), NEEDED, false),
        _ => row(&[Ae], ty, Given(Bool), NEEDED, true),
    }
}

// What the table says of an attribute of a type.
fn table_rule(ty: Ty, attr: Attr) -> Option<Rule>
    ensures { result ≡ spec.table_rule ty attr }
{
    match attr {
        Attr::Aa => row(&ANNOUNCEABLE, ty, Given(Labels), FREE, false),
        Attr::Acpi => row(&LINKED, ty, Given(Policies), FREE, false),
        Attr::Aei => row(&[Ae], ty, Assigned(Originator), NEVER, true),
        Attr::Api => row(&[Ae], ty, Given(Label), FIXED, true),
        Attr::Apn => row(&[Ae], ty, Given(Text), FREE, true),
        Attr::At => row(&ANNOUNCEABLE, ty, Given(CseIds), FREE, false),
        Attr::Cb => row(&[RemoteCse], ty, Given(Label), FIXED, false),
        Attr::Cbs | Attr::Cni => row(&[Container], ty, Derived, NEVER, false),
        Attr::Cnf => row(&[ContentInstance], ty, Given(Text), ONCE, true),
        Attr::Cnm => row(&[Group], ty, Assigned(Count), NEVER, false),
        Attr::Con => row(&[ContentInstance], ty, Given(Content), FIXED, true),
        Attr::Cr => row(&AUTHORED, ty, Creator, ONCE, false),
        Attr::Cs => row(&[ContentInstance], ty, Assigned(Count), NEVER, true),
        Attr::Csi => row(&[RemoteCse], ty, Given(CseId), FIXED, false),
        Attr::Cst => row(
            &[RemoteCse],
            ty,
            Given(OneOf(1, LAST_CSE_TYPE)),
            ONCE,
            false,
        ),
        Attr::Csy => row(&[Group], ty, Given(OneOf(1, 3)), ONCE, true),
        Attr::Ct | Attr::Lt | Attr::Pi | Attr::Ri | Attr::Ty => {
            row(&Ty::ALL, ty, Derived, NEVER, false)
        }
        Attr::Enc => row(&[Subscription], ty, Given(Criteria), FREE, false),
        Attr::Et => row(&CREATED, ty, Apart(Stamp), FREE, false),
        Attr::Exc => row(
            &[Subscription],
            ty,
            Given(OneOf(1, LARGEST_COUNT)),
            FREE,
            false,
        ),
        Attr::Gn => row(&[Group], ty, Given(Text), FREE, true),
        Attr::Lbl => row(&CREATED, ty, Given(Labels), FREE, false),
        Attr::Lnk => row(&ANNOUNCED, ty, Given(Label), FIXED, false),
        Attr::Macp => row(&[Group], ty, Given(Policies), FREE, false),
        Attr::Mbs | Attr::Mia | Attr::Mni => row(&[Container], ty, Given(Count), FREE, true),
        Attr::Mid => row(&[Group], ty, Given(Points), NEEDED, true),
        Attr::Mnm => row(&[Group], ty, Given(Count), NEEDED, true),
        Attr::Mt => row(&[Group], ty, Given(MemberType), ONCE, false),
        Attr::Mtv => row(&[Group], ty, Assigned(Bool), NEVER, false),
        Attr::Nct => row(&[Subscription], ty, Given(OneOf(1, 3)), FREE, false),
        Attr::Nu => row(&[Subscription], ty, Given(Target), NEEDED, false),
        Attr::Poa => points_rule(ty),
        Attr::Pv | Attr::Pvs => row(&[AccessControlPolicy], ty, Given(Rules), NEEDED, true),
        Attr::Rn => row(&CREATED, ty, Apart(Name), ONCE, false),
        Attr::Rr => reachability_rule(ty),
        Attr::Srt => row(&[CseBase], ty, Derived, NEVER, false),
        Attr::Srv => row(&[Ae, RemoteCse], ty, Given(Labels), FREE, false),
        Attr::St => row(
            &[Container, ContentInstance],
            ty,
            Assigned(Count),
            NEVER,
            false,
        ),
        Attr::Su => row(&[Subscription], ty, Given(Label), ONCE, false),
    }
}

// The type of the resources of which those of an announced type are announced.
fn original(ty: Ty) -> Option<Ty>
    ensures { result ≡ spec.original_of ty }
{
    match ty {
        AccessControlPolicyAnnc => Some(AccessControlPolicy),
        AeAnnc => Some(Ae),
        ContainerAnnc => Some(Container),
        ContentInstanceAnnc => Some(ContentInstance),
        GroupAnnc => Some(Group),
        _ => None,
    }
}

// What the original's row says of an attribute of an announced type.
fn inherited_rule(ty: Ty, attr: Attr) -> Option<Rule>
    ensures { result ≡ spec.inherited_rule ty attr }
{
    table_rule(original(ty)?, attr)?.announced_rule()
}

/// What is said of an attribute of a type; None where the type doesn't have it.
pub fn rule_of(ty: Ty, attr: Attr) -> Option<Rule>
    ensures { result ≡ spec.rule_of ty attr }
{
    match table_rule(ty, attr) {
        Some(rule) => Some(rule),
        None => inherited_rule(ty, attr),
    }
}

/// The attributes that a creation has to name, in the order of the table.
pub fn mandatory(ty: Ty) -> &'static [Attr]
    ensures { result.now ≡ spec.mandatory_attrs ty }
{
    match ty {
        AccessControlPolicy => &[Attr::Pv, Attr::Pvs],
        Ae => &[Attr::Api, Attr::Rr],
        ContentInstance => &[Attr::Con],
        Group => &[Attr::Mnm, Attr::Mid],
        RemoteCse => &[Attr::Cb, Attr::Csi, Attr::Rr],
        Subscription => &[Attr::Nu],
        AccessControlPolicyAnnc | AeAnnc | ContainerAnnc | ContentInstanceAnnc | GroupAnnc => {
            &[Attr::Lnk]
        }
        Container | CseBase | PollingChannel => &[],
    }
}

fn kind_at_opening(ty: Ty, attr: Attr) -> Option<Kind>
    ensures { result ≡ kinds.opening_kind ty attr }
{
    match (ty, attr) {
        (CseBase, Attr::Acpi) => Some(Policies),
        _ => None,
    }
}

/// The kind of an attribute that a resource of the type keeps among its attributes, and so not of
/// one that is shown from its number, its name, its moments, its place or its children.
pub fn kind_of(ty: Ty, attr: Attr) -> Option<Kind>
    ensures { result ≡ kinds.kind_of ty attr }
{
    match rule_of(ty, attr) {
        Some(rule) => rule.source.kept(),
        None => kind_at_opening(ty, attr),
    }
}

fn is_attr_kind(ty: Ty, row: &(Attr, Val)) -> bool
    ensures { result ≡ kinds.is_attr_kind ty row.now }
{
    match kind_of(ty, row.0) {
        Some(kind) => kind.has(&row.1),
        None => false,
    }
}

/// Whether each attribute of the resource is one that its type keeps, with a value of its kind.
pub fn keeps_kinds(resource: &Resource) -> bool
    ensures { result ≡ kinds.are_kinds resource.now }
{
    let ty = resource.ty();
    resource
        .attrs()
        .entries()
        .iter()
        .all(|row| is_attr_kind(ty, row))
}

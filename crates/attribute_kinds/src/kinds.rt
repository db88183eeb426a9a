//! The kinds of attribute values.
ghost use Rattle.std.specs.Prelude.{◌≡◌};
ghost use Rattle.attribute_kinds.specs.Kinds.{has_kind};

use crate::lists::{is_cse_ids, is_labels, is_notification_target, is_points, is_texts};
use crate::objects::{is_criteria, is_rules};
use crate::values::{
    is_bool, is_content, is_count_value, is_cse_id, is_member_type, is_name_value,
    is_number_within, is_originator_value, is_stamp, is_text,
};
use m2m_value::Val;

/// A kind of attribute values (TS-0004, 6.3 and 7.4).
#[derive(Clone, Copy, Debug, PartialEq, Eq)]
pub enum Kind {
    /// A text that a resource may have as its name.
    Name,
    /// The text of a timestamp.
    Stamp,
    Text,
    /// A text of 1 to 256 bytes.
    Label,
    Labels,
    Bool,
    /// A whole number from 0 to 2^63 - 1.
    Count,
    /// A whole number from the first to the second.
    OneOf(u64, u64),
    /// The text of a CSE-ID: `/` and a name.
    CseId,
    CseIds,
    /// The text of an originator: 1 to 256 printable ASCII characters without a space.
    Originator,
    /// A list of texts, which name policies.
    Policies,
    /// A list of addresses or URLs: 1 to 512 printable ASCII characters without a space.
    Points,
    /// A list of exactly one of these.
    Target,
    /// An object with exactly `acr`, a list of access control rules.
    Rules,
    /// An object with at most `net`, kinds of event, and `atr`, labels.
    Criteria,
    /// 0, or the number of a type.
    MemberType,
    /// Any value but null.
    Content,
}

impl Kind {
    /// Whether the value is of the kind.
    pub fn has(self, value: &Val) -> bool
        ensures { result ≡ has_kind self value.now }
    {
        match self {
            Kind::Name => is_name_value(value),
            Kind::Stamp => is_stamp(value),
            Kind::Text => is_text(value),
            Kind::Label => value.is_label(),
            Kind::Labels => is_labels(value),
            Kind::Bool => is_bool(value),
            Kind::Count => is_count_value(value),
            Kind::OneOf(from, to) => is_number_within(from, to, value),
            Kind::CseId => is_cse_id(value),
            Kind::CseIds => is_cse_ids(value),
            Kind::Originator => is_originator_value(value),
            Kind::Policies => is_texts(value),
            Kind::Points => is_points(value),
            Kind::Target => is_notification_target(value),
            Kind::Rules => is_rules(value),
            Kind::Criteria => is_criteria(value),
            Kind::MemberType => is_member_type(value),
            Kind::Content => is_content(value),
        }
    }
}

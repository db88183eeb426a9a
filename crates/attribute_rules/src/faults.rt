//! Why a content isn't admitted.
use m2m_names::Attr;
use m2m_value::{OutOfMemory, Text};

/// Why a content isn't admitted: the first fault that it has, in this order. Of several keys with
/// one fault it is the first in byte order, and of what is missing the first in the table.
#[derive(Debug, PartialEq, Eq, Drop)]
pub enum AttrFault {
    /// It isn't an object with exactly one member, named by the type, whose value is an object.
    Shape,
    /// The type has no attribute of this short name.
    Unknown(Text),
    /// The request may not name the attribute.
    NotAllowed(Attr),
    /// The value isn't of the attribute's kind.
    Kind(Attr),
    /// The creation has to name the attribute.
    Missing(Attr),
    /// The update names `acpi` beside another attribute.
    AcpiNotAlone,
    OutOfMemory,
}

impl From<OutOfMemory> for AttrFault {
    ghost use Rattle.std.specs.Prelude.{◌≡◌};
    ghost use Rattle.attribute_rules.specs.declared.faults.AttrFault.{AttrFault};

    ghost from_gives = { λ _ e. e ≡ AttrFault.OutOfMemory };

    fn from(_: OutOfMemory) -> Self {
        AttrFault::OutOfMemory
    }
}

//! What comes of an operation on a resource, by what its originator sees.
ghost use Rattle.m2m_names.specs.declared.operations.Op.TheVariants.{Create, Update};
ghost use Rattle.sight_laws.specs.Laws.{CreatesAreSeenAlike, IsRefusedBySight};
ghost use Rattle.sight_laws.specs.Laws.{RuleUpdatesKeepOneShape, UpdatesAreSeenAlike};

/// On what its originator sees, a Create and an Update of the resource of a number are refused by
/// the same place as on the entity, or by none.
pub fn a_refusal_is_seen()
    ensures created { IsRefusedBySight Create }
    ensures updated { IsRefusedBySight Update }
{}

/// A Create in two sound entities, of which its originator sees the same, has the same reply, and
/// the originator sees the same of what they leave.
pub fn a_create_is_seen_alike()
    ensures { CreatesAreSeenAlike }
{}

/// So it is with an Update that names no policies and no rules.
pub fn an_update_is_seen_alike()
    ensures { UpdatesAreSeenAlike }
{}

/// An Update that names policies or rules has the same reply in two sound entities of one shape,
/// and leaves one shape.
pub fn a_rule_update_keeps_one_shape()
    ensures { RuleUpdatesKeepOneShape }
{}

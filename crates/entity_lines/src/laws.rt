//! The laws of the lines.
ghost use Rattle.entity_lines.specs.Laws.{HeadsAreReadAsSpelled, ItemsAreReadAsSpelled};
ghost use Rattle.entity_lines.specs.Laws.{ResourcesAreReadAsSpelled};

/// What spells a head, a resource or an item is read as it, whatever stands behind it; and what is
/// read as one is spelled so.
pub fn what_is_read_is_spelled()
    ensures heads { HeadsAreReadAsSpelled }
    ensures resources { ResourcesAreReadAsSpelled }
    ensures items { ItemsAreReadAsSpelled }
{}

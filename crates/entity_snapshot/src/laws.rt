//! The laws of snapshots.
ghost use Rattle.entity_snapshot.specs.Laws.{HeadsAreNoHeaders, SnapshotsAreOfOne};

/// Where two snapshots of entities of one home stand at the front of one text, they have the same
/// bytes, and the entities are equal.
pub fn a_text_is_the_snapshot_of_one_entity()
    ensures { SnapshotsAreOfOne }
{}

/// A text that begins with the head of a snapshot begins with no header of a journal.
pub fn a_snapshot_is_no_header()
    ensures { HeadsAreNoHeaders }
{}

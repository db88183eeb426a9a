//! The entity inside.
ghost use Rattle.std.specs.Prelude.{◌≡◌, IfSome};
ghost use Rattle.journal_events.specs.Steps.{KeptEntityStep};
ghost use Rattle.journaled_entity.specs.Keeping.{KeepsEntity};
ghost use Rattle.kept_object.specs.Records.{Records};

use journal_events::{KeptEvent, KeptOutcome};
use journaled_entity::Journaled;
use kept_object::Recorder;
use tree_model::Tree;

/// What comes of an event of the entity inside, which writes down what it does.
pub(crate) fn record_inside<T: Tree>(
    entity: &mut Journaled<T>,
    reading: u64,
    event: &KeptEvent,
    lines: &mut Vec<u8>,
) -> Option<KeptOutcome>
    ensures step { IfSome result
        (λ outcome. KeptEntityStep reading event.now entity.old outcome entity.new) }
    ensures records { IfSome result
        (λ _. Records KeepsEntity entity.old lines.old.items entity.new lines.new.items) }
{
    let came = entity.record(reading, event, lines)?;
    Some(came.into_outcome())
}

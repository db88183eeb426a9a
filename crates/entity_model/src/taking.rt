//! What is sent next.
ghost use Rattle.std.specs.Prelude.{◌≡◌};
ghost use Rattle.entity_model.specs.Entity as spec;

use crate::entity::Entity;
use primitive_json::Note;
use tree_model::Tree;

/// Takes the first item of the outbox that waits for no polling channel of the tree. No memory is
/// taken.
pub fn take_next<T: Tree>(entity: &mut Entity<T>) -> Option<Note>
    ensures note { result ≡ spec.next_note entity.old }
    ensures rest { entity.new ≡ spec.without_next entity.old }
{
    entity.outbox.take_next(&entity.tree)
}

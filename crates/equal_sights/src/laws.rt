//! What every sight leaves out.
ghost use Rattle.std.specs.Prelude.{◌≡◌, ℕ, List};
ghost use Rattle.notify_outbox.specs.declared.item.Item.{Item};
ghost use Rattle.entity_model.specs.Entity.{EntityData};
ghost use Rattle.equal_sights.specs.Sight.{sight, shape};

/// Two entities that differ in their outboxes alone look the same to every originator, and have the
/// same shape for it.
pub fn the_outbox_is_not_seen()
    ensures sight { (e : EntityData) (originator : List ℕ) (items : List Item) (numbered : ℕ) →
        sight originator (record e { items = items; numbered = numbered }) ≡ sight originator e }
    ensures shape { (e : EntityData) (originator : List ℕ) (items : List Item) (numbered : ℕ) →
        shape originator (record e { items = items; numbered = numbered }) ≡ shape originator e }
{}

//! What an operation tells, ready to be carried out.
ghost use Rattle.std.specs.Prelude.{◌≡◌};
ghost use Rattle.std.specs.List.Sorted.{IsStrictlySortedBy};
ghost use Rattle.std.proofs.lemmas.Map.Keys.{IsStrictlySortedBy-prop};
ghost use Rattle.std.specs.Map.{keys_of};
ghost use Rattle.std.specs.Ordering.{nat_cmp};
ghost use Rattle.entity_model.specs.Lowering.{spent_numbers};

use primitive_json::Note;

/// What an operation tells, for which all memory is taken.
#[derive(Drop)]
pub struct Told {
    /// The notes, in order: what subscriptions are told, and behind it the requests about copies.
    pub notes: Vec<Note>,
    /// The numbers of the subscriptions that count and are told something, in order of creation,
    /// each with how many notifications are left to it: none where it goes.
    pub left: Vec<(u64, u64)>,
    /// The numbers of those to which none is left, in order of creation.
    pub spent: Vec<u64>,
    ghost order: { IsStrictlySortedBy nat_cmp (keys_of left.items) } by { IsStrictlySortedBy-prop nat_cmp (keys_of left.items) },
    ghost numbers: { spent.items ≡ spent_numbers left.items },
}

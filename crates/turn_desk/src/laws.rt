//! What follows from the contracts, for every object.
ghost use Rattle.std.specs.Prelude.{List};
ghost use Rattle.std.specs.List.{All};
ghost use Rattle.turn_desk.specs.Entries.{Entry, Marked, IsOwn, Runs, all_entries};
ghost use Rattle.turn_desk.specs.Growth.{Grew};

use crate::{Desk, Object, OwnDesk};

/// A seat of an owner's desk grows by nobody else's entries, and all of them, which are its own,
/// are a run of the object's steps, from the object that it held to the one that it holds.
pub fn an_owner_sees_a_run<O: Object>()
    ensures own { (before after : O) (more : List (Marked O.Event O.Outcome))
        → ⟦<OwnDesk<O> as Desk>⟧.grown before more after → All IsOwn more }
    ensures all { (before after : O) (more : List (Marked O.Event O.Outcome))
        → ⟦<OwnDesk<O> as Desk>⟧.grown before more after
        → Runs O.step before (all_entries more) after }
    ensures mine { (before after : O) (mine : List (Entry O.Event O.Outcome))
        → Grew ⟦<OwnDesk<O> as Desk>⟧.grown before mine after → Runs O.step before mine after }
{}

//! The law of the tests.
ghost use Rattle.entity_soundness.specs.Laws.{SoundEntitiesPass, WhatPassesIsSound};

/// The tests hold of every sound entity, and what passes them is one.
pub fn tests_decide_soundness()
    ensures passes { SoundEntitiesPass }
    ensures sound { WhatPassesIsSound }
{}

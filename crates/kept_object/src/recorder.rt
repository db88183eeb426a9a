//! What writes down its steps.
ghost use Rattle.std.specs.Prelude.{ℕ, List, IfSome};
ghost use Rattle.kept_object.specs.Records.{IsKeptAtRest, Records};

/// What changes by events, answers each, and writes down what has to be played again for it.
pub trait Recorder {
    type Event: Drop;

    type Outcome: Drop;

    /// Which steps there are: the reading of the clock, the event, the object before, what it
    /// answers, and the object after.
    ghost step: { ℕ → Self.Event → Self → Self.Outcome → Self → Type 0 };

    /// Who plays this text has this object, but for what isn't kept.
    ghost keeps: { Self → List ℕ → Type 0 };

    /// Takes one step, whose reading is in seconds since 1970, and appends to the lines what has to
    /// be played again for it. None where something was done that can't be written down.
    fn record(
        &mut self,
        reading: u64,
        event: &Self::Event,
        lines: &mut Vec<u8>,
    ) -> Option<Self::Outcome>
        ensures step { IfSome result
            (λ outcome. step reading event.now self.old outcome self.new) }
        ensures records { IfSome result
            (λ _. Records keeps self.old lines.old.items self.new lines.new.items) };

    /// A text that keeps the object, at rest, so short as it knows. None where it has none, or
    /// where memory ran out for it.
    fn snapshot(&self) -> Option<Vec<u8>>
        ensures keeps { IfSome result (λ bytes. IsKeptAtRest keeps self.now bytes.items) };
}

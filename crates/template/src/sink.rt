// What takes a text piece by piece.
ghost use Rattle.std.specs.Prelude.{ℕ, List};
ghost use Rattle.template.specs.Sinks.{Adds};

pub(crate) trait Sink {
    // The bytes that were taken between two states.
    ghost Took: { Self → List ℕ → Self → Type 0 };

    fn take(&mut self, piece: &[u8])
        ensures { Adds Took self.old piece.now self.new };
}

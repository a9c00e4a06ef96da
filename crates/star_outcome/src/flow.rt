// The successor of an instruction.

ghost use Rattle.std.specs.Prelude.{◌≡◌, MatchBool};
ghost use Rattle.star_outcome.specs.declared.flow.Flow.TheVariants.{EndsTurn, GoesOn};

/// The successor of an instruction: the next one, or the next turn of the scan that contains it.
#[derive(Clone, Copy)]
pub enum Flow {
    GoesOn,
    EndsTurn,
}

impl Flow {
    /// The successor of an instruction that keeps its turn if a flag is set.
    #[inline]
    pub fn of(flag: bool) -> Flow
        ensures { MatchBool flag (result ≡ GoesOn) (result ≡ EndsTurn) }
    {
        if flag { Flow::GoesOn } else { Flow::EndsTurn }
    }
}

//! What comes after a round.

use std::fmt;

/// Why pre-copying ends. A reason is written as the word that reports use for it.
#[derive(Clone, Copy, Debug, PartialEq, Eq)]
pub enum Reason {
    /// Fewer pages than the threshold were dirtied.
    Few,
    /// The next rate would be above the greatest.
    Fast,
    /// As many rounds as were asked for are done.
    Rounds,
}

/// What comes after a round.
#[derive(Clone, Copy, Debug, PartialEq, Eq)]
pub enum Next {
    /// Another round, at this rate in pages per 1,000 ticks.
    Go(u64),
    /// The stop.
    Stop(Reason),
}

impl Reason {
    ghost use Rattle.std.specs.Prelude.{◌≡◌};
    ghost use Rattle.migration_model.specs.Rates.{word_of};
    ghost use Rattle.rate_limit.specs.Pacing.{reason_of};

    /// Returns the word that reports use for the reason: `few`, `fast` or `rounds`.
    pub fn word(&self) -> &'static str
        ensures { result.now ≡ word_of (reason_of self.now) }
    {
        match self {
            Reason::Few => "few",
            Reason::Fast => "fast",
            Reason::Rounds => "rounds",
        }
    }
}

impl fmt::Display for Reason {
    ghost use Rattle.std.specs.Prelude.{Some};
    ghost use Rattle.migration_model.specs.Rates.{word_of};
    ghost use Rattle.rate_limit.specs.Pacing.{reason_of};

    ghost output = { λ reason. Some (word_of (reason_of reason)) };

    fn fmt<W: fmt::Write>(&self, f: &mut fmt::Formatter<W>) -> fmt::Result {
        f.write_str(self.word())
    }
}

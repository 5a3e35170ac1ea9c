//! Answers that a trace gives or does not give.

ghost use Rattle.std.specs.Prelude.{◌≡◌};
ghost use Rattle.predictions.specs.Predictions.{answer, verdict_word};

/// The answer to a question about a migration.
#[derive(Clone, Copy, Debug, PartialEq, Eq)]
pub enum Verdict {
    /// It is so.
    Yes,
    /// It is not so.
    No,
    /// The trace ends before the migration does.
    Unknown,
    /// Chance, or the start, decides it.
    Uncertain,
}

impl Verdict {
    /// Returns the answer to a question by a plan that stops after the trace's last tick, or not, and whether the plan
    /// has what is asked for.
    pub fn new(is_late: bool, holds: bool) -> Verdict
        ensures { result ≡ answer is_late holds }
    {
        if is_late {
            Verdict::Unknown
        } else if holds {
            Verdict::Yes
        } else {
            Verdict::No
        }
    }

    /// Returns the answer as a word: `yes`, `no`, `unknown` or `uncertain`.
    pub fn word(&self) -> &'static str
        ensures { result.now ≡ verdict_word self.now }
    {
        match self {
            Verdict::Yes => "yes",
            Verdict::No => "no",
            Verdict::Unknown => "unknown",
            Verdict::Uncertain => "uncertain",
        }
    }
}

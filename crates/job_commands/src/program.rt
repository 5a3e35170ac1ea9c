//! The programs, by name.

ghost use Rattle.std.specs.Prelude.{◌≡◌, ◌≤◌, length};
ghost use Rattle.job_commands.specs.Ends.{name_of};

/// A program. Its name begins each of its fault lines.
#[derive(Clone, Copy, Debug, PartialEq, Eq)]
pub enum Program {
    /// `precopy`.
    Precopy,
    /// `precopy-view`.
    PrecopyView,
    /// `precopy-schedule`.
    PrecopySchedule,
}

impl Program {
    /// Returns the name of the program.
    pub fn name(self) -> &'static str
        ensures name { result.now ≡ name_of self }
        ensures short { length result.now ≤ 16 }
    {
        match self {
            Program::Precopy => "precopy",
            Program::PrecopyView => "precopy-view",
            Program::PrecopySchedule => "precopy-schedule",
        }
    }
}

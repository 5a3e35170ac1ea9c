//! The best of the starts from which a migration may begin.

// `IsBest` holds of one value alone: `one_best`.
// `AreCases` holds of one value alone: `one_list_of_cases`.

ghost use Rattle.std.specs.Prelude.{◌≡◌, ◌≤◌, IfErr, IfOk, OnOk};
ghost use Rattle.migration_model.specs.Touches.{last_tick_of};
ghost use Rattle.migration_model.specs.Trace.{GuestTrace};
ghost use Rattle.predictions.specs.Questions.{given};
ghost use Rattle.predictions.specs.Starts.{RefusesStarts};
ghost use Rattle.predictions.specs.declared.starts.error.StartsError.TheVariants.{Memory as NoMemory};
ghost use Rattle.c_answers.specs.Predictions.{IsAsked};
ghost use Rattle.c_answers.specs.Starts.{AreTaken, IsAskedOfBest, IsBestOf, IsBestOver, RefusesBest};
ghost use Rattle.c_answers.specs.Starts.{number_of_best, number_of_starts};
ghost use Rattle.c_answers.specs.declared.starts.StartsRefusal.TheVariants.{Question as OfQuestion, Starts as OfStarts};

use crate::answers::Refusal;
use crate::inquiries::{Inquiry, inquiry_of};
use crate::questions::{QuestionRefusal, SizedQuestion};
use c_layout::{BestStartNumbers, best_error_numbers, settings_number};
use guest_log::last_tick;
use open_traces::OpenTrace;
use predictions::starts::{StartCost, Starts, StartsError, best_start, cases_by};
use predictions::{ErrorNumbers, Measure, Question, Terms};
use std::alloc::Global;
use trace_readers::TouchLog;

/// How many bytes the struct of starts has.
const SIZE: u64 = 32;

/// At which ticks a migration may begin, after its first start: C's `struct precopy_starts`.
#[derive(Clone, Copy)]
#[repr(C)]
pub struct SizedStarts {
    /// How many bytes the struct has, so that a later version can add to it.
    pub size: u64,
    /// The tick after which there is no start, if `has_to` is not 0; else the last of the trace.
    pub to: u64,
    /// The ticks between two starts, if `has_every` is not 0; else some 200th of all.
    pub every: u64,
    /// Whether there is a tick after which there is no start: 0 for no.
    pub has_to: u32,
    /// Whether the ticks between two starts are given: 0 for no.
    pub has_every: u32,
}

/// Why there is no best start.
#[derive(Clone, Copy)]
pub enum StartsRefusal {
    /// The struct of the starts is longer or shorter than this library knows it.
    Size,
    /// The question has no answer over the trace.
    Question(QuestionRefusal),
    /// The starts are refused, or memory ran out.
    Starts(StartsError),
}

impl From<QuestionRefusal> for StartsRefusal {
    ghost from_gives = { λ e r. r ≡ OfQuestion e };

    fn from(error: QuestionRefusal) -> StartsRefusal {
        StartsRefusal::Question(error)
    }
}

impl From<StartsError> for StartsRefusal {
    ghost from_gives = { λ e r. r ≡ OfStarts e };

    fn from(error: StartsError) -> StartsRefusal {
        StartsRefusal::Starts(error)
    }
}

/// Returns the number of a refusal of starts.
fn starts_number(error: StartsError) -> u32
    ensures number { result ≡ number_of_starts error }
    ensures some { 1 ≤ result }
{
    match error {
        StartsError::Memory => Refusal::Memory.number(),
        StartsError::TooMany => 90,
        StartsError::Settings(error) => settings_number(error),
    }
}

impl StartsRefusal {
    ghost use Rattle.std.specs.Prelude.{◌≡◌, ◌≤◌};
    ghost use Rattle.c_answers.specs.Starts.{number_of_best};

    /// Returns the number that C sees.
    pub fn number(self) -> u32
        ensures number { result ≡ number_of_best self }
        ensures some { 1 ≤ result }
    {
        match self {
            StartsRefusal::Size => Refusal::SettingsSize.number(),
            StartsRefusal::Question(refusal) => refusal.number(),
            StartsRefusal::Starts(error) => starts_number(error),
        }
    }
}

/// Returns a number, if it is given.
fn given(has: u32, number: u64) -> Option<u64>
    ensures { result ≡ given has number }
{
    if has == 0 {
        return None;
    }
    Some(number)
}

impl SizedStarts {
    ghost use Rattle.std.specs.Prelude.{◌≡◌};
    ghost use Rattle.c_answers.specs.Starts.{starts_in};

    /// Returns the ticks at which the migration of a question may begin.
    fn of_question(&self, question: &Question) -> Starts
        ensures { result ≡ starts_in question.now self.now }
    {
        Starts {
            from: question.start,
            to: given(self.has_to, self.to),
            every: given(self.has_every, self.every),
        }
    }
}

/// What is told of the best start.
#[derive(Clone, Copy)]
pub struct ToldStart {
    pub best: BestStartNumbers,
    pub errors: ErrorNumbers,
}

/// Returns the best of the starts of a migration over a log.
fn best_over(
    alloc: Global,
    terms: &Terms,
    starts: &Starts,
    log: &TouchLog,
) -> Result<Option<StartCost>, StartsError>
    ensures made { IfOk result (IsBestOver terms.now starts.now log.now) }
    ensures refused { IfErr result (RefusesStarts terms.now.settings starts.now (last_tick_of log.now.touches)) }
    ensures only { AreTaken terms.now starts.now log.now → IfErr result (λ e. e ≡ NoMemory) }
{
    let cases = starts.cases(alloc, &terms.settings, last_tick(log))?;
    let measure = Measure {
        scale: terms.scale,
        limits: terms.limits,
        manner: terms.manner,
    };
    let cases = cases_by(alloc, log, &cases, &measure)?;
    Ok(best_start(alloc, log, &measure, &cases)?)
}

/// Returns what is told of the best start of a question over a trace. Sizes and the question are tested first, and the
/// starts last.
pub fn best_told(
    alloc: Global,
    trace: &OpenTrace<'_>,
    asked: &SizedQuestion,
    starts: &SizedStarts,
) -> Result<ToldStart, StartsRefusal>
    ensures made { IfOk result (λ told. IsBestOf trace.now asked.now.question starts.now told.best told.errors) }
    ensures accepted { OnOk result (IsAsked asked.now) }
    ensures size { OnOk result (starts.now.size ≡ 32) }
    ensures refused { IfErr result (RefusesBest trace.now asked.now starts.now) }
    ensures only { IsAskedOfBest trace.now asked.now starts.now → IfErr result (λ e. number_of_best e ≡ 16) }
{
    if starts.size != SIZE {
        return Err(StartsRefusal::Size);
    }
    let Inquiry { terms, log } = inquiry_of(alloc, trace, asked)?;
    let starts = starts.of_question(&asked.question);
    let best = best_over(alloc, &terms, &starts, &log)?;
    Ok(ToldStart {
        best: BestStartNumbers::new(terms.limits.downtime, &best),
        errors: best_error_numbers(&best),
    })
}

//! Laws of the definitions that errors, starts and refusals are proved to meet.
//!
//! A law is a function with an empty body: its contract is the law, and a call brings it into the caller's proof.

ghost use Rattle.std.specs.Prelude.{ℕ, ◌≡◌, List, Option};
ghost use Rattle.migration_model.specs.Rates.{MigrationSettings};
ghost use Rattle.migration_model.specs.Touches.{GuestTouch};
ghost use Rattle.predictions.specs.Agreements.{IsAgreement};
ghost use Rattle.predictions.specs.Questions.{RefusesQuestion};
ghost use Rattle.predictions.specs.Questions.Answers.{IsAnswer};
ghost use Rattle.predictions.specs.Redrawn.Errors.{AreErrors, SampleErrors};
ghost use Rattle.predictions.specs.Remedies.{AreRemedies};
ghost use Rattle.predictions.specs.Remedies.Trials.{MigrationTrial};
ghost use Rattle.predictions.specs.Shares.{IsLinkShare, VerdictAt};
ghost use Rattle.predictions.specs.Starts.{AreAccepted, RefusesStart};
ghost use Rattle.predictions.specs.Starts.Cases.{AreCases};
ghost use Rattle.predictions.specs.Starts.Choices.{IsBest, IsChosen, is_worse_start};
ghost use Rattle.predictions.specs.Starts.Costs.{CostAtStart};
ghost use Rattle.predictions.specs.Starts.Ranges.{AreRanges, RangesOfStarts};
ghost use Rattle.predictions.specs.Units.Limits.{RefusesLimits};
ghost use Rattle.predictions.specs.Units.Scales.{TraceScale};
ghost use Rattle.predictions.specs.declared.agreement.verdicts.Agreement.{Agreement};
ghost use Rattle.predictions.specs.declared.answer.Answer.{Answer};
ghost use Rattle.predictions.specs.declared.course.Manner.{Manner};
ghost use Rattle.predictions.specs.declared.question.Question.{Question};
ghost use Rattle.predictions.specs.declared.question.Terms.{Terms};
ghost use Rattle.predictions.specs.declared.remedies.finding.Remedies.{Remedies};
ghost use Rattle.predictions.specs.declared.shares.share.LinkShare.{LinkShare};
ghost use Rattle.predictions.specs.declared.starts.cases.Starts.{Starts};
ghost use Rattle.predictions.specs.declared.starts.planned.PlannedCase.{PlannedCase};
ghost use Rattle.predictions.specs.declared.units.error.UnitsError.{UnitsError};
ghost use Rattle.predictions.specs.declared.units.limits.Limits.{Limits};
ghost use Rattle.rate_limit.specs.declared.error.SettingsError.{SettingsError};

/// The plan of a sample has one value of its standard errors, or none.
pub fn one_errors()
    ensures { (manner : Manner) (pages : ℕ) (touches : List GuestTouch) (s : MigrationSettings) (scale : TraceScale)
        (a b : Option SampleErrors) → AreErrors manner pages touches s scale a
        → AreErrors manner pages touches s scale b → a ≡ b }
{}

/// A migration converges and keeps its limit in one number of draws, if there are any, and from one number of starts.
pub fn one_agreement()
    ensures { (manner : Manner) (pages : ℕ) (touches : List GuestTouch) (s : MigrationSettings) (scale : TraceScale)
        (limits : Limits) (a b : Agreement) → IsAgreement manner pages touches s scale limits a
        → IsAgreement manner pages touches s scale limits b → a ≡ b }
{}

/// Some settings have one list of cases, by a manner.
pub fn one_list_of_cases()
    ensures { (manner : Manner) (pages : ℕ) (touches : List GuestTouch) (scale : TraceScale)
        (settings : List MigrationSettings) (a b : List PlannedCase)
        → AreCases manner pages touches scale settings a → AreCases manner pages touches scale settings b → a ≡ b }
{}

/// Some cases have one best start, or none.
pub fn one_best()
    ensures { (manner : Manner) (pages : ℕ) (touches : List GuestTouch) (scale : TraceScale) (limits : Limits)
        (cases : List PlannedCase) (n : ℕ) (a b : Option CostAtStart)
        → IsBest manner pages touches scale limits cases n a → IsBest manner pages touches scale limits cases n b
        → a ≡ b }
{}

/// Some starts have one worst, or none.
pub fn one_worst()
    ensures { (limit : ℕ) (costs : List CostAtStart) (a b : Option CostAtStart)
        → IsChosen (is_worse_start limit) costs a → IsChosen (is_worse_start limit) costs b → a ≡ b }
{}

/// What migrations from several starts cost has one least and one greatest, or none.
pub fn one_ranges()
    ensures { (scale : TraceScale) (limits : Limits) (last_tick : ℕ) (cases : List PlannedCase)
        (a b : Option RangesOfStarts) → AreRanges scale limits last_tick cases a
        → AreRanges scale limits last_tick cases b → a ≡ b }
{}

/// One change of each kind keeps the limit of a migration, or ends it within the trace, or none does.
pub fn one_set_of_remedies()
    ensures { (pages : ℕ) (touches : List GuestTouch) (trial : MigrationTrial) (a b : Remedies)
        → AreRemedies pages touches trial a → AreRemedies pages touches trial b → a ≡ b }
{}

/// A question has one answer.
pub fn one_answer()
    ensures { (terms : Terms) (pages : ℕ) (touches : List GuestTouch) (a b : Answer) → IsAnswer terms pages touches a
        → IsAnswer terms pages touches b → a ≡ b }
{}

/// Limits are refused for one thing.
pub fn one_refused_limit()
    ensures { (scale : TraceScale) (limits : Limits) (increment : Option ℕ) (others : MigrationSettings)
        (a b : UnitsError) → RefusesLimits scale limits increment others a
        → RefusesLimits scale limits increment others b → a ≡ b }
{}

/// A question is refused for one thing.
pub fn one_refused_question()
    ensures { (q : Question) (a b : UnitsError) → RefusesQuestion q a → RefusesQuestion q b → a ≡ b }
{}

/// Starts are refused for one of them, and its one cause.
pub fn one_refused_start()
    ensures { (settings : MigrationSettings) (starts : Starts) (last_tick : ℕ) (a b : SettingsError)
        → RefusesStart settings starts last_tick a → RefusesStart settings starts last_tick b → a ≡ b }
{}

/// Starts that are in range are not refused.
pub fn accepted_starts_are_not_refused()
    ensures { (settings : MigrationSettings) (starts : Starts) (last_tick : ℕ) (e : SettingsError)
        → AreAccepted settings starts last_tick → ¬ RefusesStart settings starts last_tick e }
{}

/// A migration has one least share of its link from which on its verdict is the same.
pub fn one_link_share()
    ensures { (pages : ℕ) (touches : List GuestTouch) (trial : MigrationTrial) (a b : LinkShare)
        → IsLinkShare (VerdictAt pages touches trial) a → IsLinkShare (VerdictAt pages touches trial) b → a ≡ b }
{}

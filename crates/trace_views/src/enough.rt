//! What is enough for the limit of a migration, as an answer and as lines.

ghost use Rattle.std.specs.Prelude.{◌≡◌, ◌++◌, [], if◌then◌else◌, OnOk};
ghost use Rattle.predictions.specs.Remedies.Texts.{remedies_text};
ghost use Rattle.trace_views.specs.Enough.{answer_of, enough_line, enough_text, enough_word, finds_some, is_sure};
ghost use Rattle.trace_views.specs.Enough.{is_yes, offers};

use crate::outlook::Outlook;
use predictions::Verdict;
use predictions::remedies::{Remedies, push_remedies};
use std::alloc::AllocError;

/// What is enough for the limit of a migration.
#[derive(Clone, Copy, Debug, PartialEq, Eq)]
pub(crate) enum Enough {
    /// What is asked, and each of the amounts that are found.
    Asked,
    /// Each of the amounts that are found.
    Other,
    /// Nothing that was tried.
    Nothing,
    /// Of what is asked it is not known, since the trace ends before the migration does.
    Unknown,
    /// The plan of what is asked keeps the limit, but that is not sure.
    Uncertain,
}

/// Returns whether an amount is found.
fn finds_some(remedies: &Remedies) -> bool
    ensures { result ≡ finds_some remedies.now }
{
    remedies.link.is_some() || remedies.downtime.is_some() || remedies.speed.is_some()
}

/// Returns whether an answer is yes.
fn is_yes(verdict: Verdict) -> bool
    ensures { result ≡ is_yes verdict }
{
    matches!(verdict, Verdict::Yes)
}

/// Returns whether a migration surely converges and keeps its limit.
pub(crate) fn is_sure(limit: u64, outlook: &Outlook) -> bool
    ensures { result ≡ is_sure limit outlook.now }
{
    let (prediction, agreement) = (&outlook.prediction, &outlook.agreement);
    let kept = agreement.kept(limit, &prediction.cost, &outlook.errors);
    is_yes(agreement.verdict(prediction)) && is_yes(kept)
}

impl Enough {
    /// Returns what is enough, by what is found, and whether what is asked surely is.
    pub(crate) fn new(sure: bool, remedies: &Remedies) -> Enough
        ensures { result ≡ answer_of sure remedies.now }
    {
        if sure {
            Enough::Asked
        } else if !remedies.ending.ends {
            Enough::Unknown
        } else if remedies.is_kept {
            Enough::Uncertain
        } else if finds_some(remedies) {
            Enough::Other
        } else {
            Enough::Nothing
        }
    }

    /// Returns it as a word.
    pub(crate) fn word(self) -> &'static str
        ensures { result.now ≡ enough_word self }
    {
        match self {
            Enough::Asked => "asked",
            Enough::Other => "other",
            Enough::Nothing => "nothing",
            Enough::Unknown => "unknown",
            Enough::Uncertain => "uncertain",
        }
    }

    /// Returns whether amounts are offered beside it.
    pub(crate) fn offers(self) -> bool
        ensures { result ≡ offers self }
    {
        !matches!(self, Enough::Uncertain)
    }

    /// Returns it as a line.
    fn line(self) -> &'static str
        ensures { result.now ≡ enough_line self }
    {
        match self {
            Enough::Asked => {
                "enough: what is asked; by its plan alone also one of these, changed alone\n"
            }
            Enough::Other => "enough: by its plan alone, one of these, changed alone\n",
            Enough::Nothing => "enough: nothing that was tried\n",
            Enough::Unknown => "enough: unknown, since the trace ends before the migration does\n",
            Enough::Uncertain => "enough: uncertain; give more of the link, or a longer downtime\n",
        }
    }
}

/// Appends the amounts that are enough, if some are offered.
fn push_offered(text: &mut Vec<u8>, offers: bool, remedies: &Remedies) -> Result<(), AllocError>
    ensures { OnOk result (text.new.items ≡ text.old.items ++ (if offers then remedies_text remedies.now else [])) }
{
    if offers {
        push_remedies(text, remedies)
    } else {
        Ok(())
    }
}

/// Appends what is enough for a limit as lines, in ASCII: the answer, and each amount that is.
pub(crate) fn push_enough(
    text: &mut Vec<u8>,
    sure: bool,
    remedies: &Remedies,
) -> Result<(), AllocError>
    ensures { OnOk result (text.new.items ≡ text.old.items ++ enough_text sure remedies.now) }
{
    let answer = Enough::new(sure, remedies);
    text.extend_from_slice(answer.line().as_bytes())?;
    push_offered(text, answer.offers(), remedies)?;
    Ok(())
}

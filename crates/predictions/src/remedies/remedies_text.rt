//! What keeps a limit, and what ends a migration within the trace, as lines.

ghost use Rattle.std.specs.Prelude.{◌≡◌, ◌++◌, ◌∷◌, [], OnOk};
ghost use Rattle.predictions.specs.Remedies.Texts.{amount_line, ending_text, remedies_text};
ghost use Rattle.sweep_report.specs.Lines.{field, line};

use crate::remedies::ending::Ending;
use crate::remedies::finding::Remedies;
use std::alloc::AllocError;
use sweep_report::{end_line, push_field};

/// Appends the line on an amount.
fn push_line(text: &mut Vec<u8>, before: &str, amount: u64, after: &str) -> Result<(), AllocError>
    ensures { OnOk result (text.new.items ≡ text.old.items ++ line (field before.now amount ∷ after.now ∷ [])) }
{
    push_field(text, before, amount)?;
    text.extend_from_slice(after.as_bytes())?;
    end_line(text)?;
    Ok(())
}

/// Appends the line on an amount, if there is one.
fn push_amount(
    text: &mut Vec<u8>,
    before: &str,
    amount: Option<u64>,
    after: &str,
) -> Result<(), AllocError>
    ensures { OnOk result (text.new.items ≡ text.old.items ++ amount_line before.now amount after.now) }
{
    match amount {
        Some(amount) => push_line(text, before, amount, after),
        None => Ok(()),
    }
}

/// Appends what ends a migration within the trace.
#[tactic(auto, unfolding(crate::specs::Remedies::Texts::ending_text))]
fn push_ending(text: &mut Vec<u8>, ending: &Ending) -> Result<(), AllocError>
    ensures { OnOk result (text.new.items ≡ text.old.items ++ ending_text ending.now) }
{
    push_amount(
        text,
        "enough to end within the trace: --link ",
        ending.link,
        "Kbit",
    )?;
    push_amount(
        text,
        "enough to end within the trace: --start ",
        ending.start,
        "",
    )?;
    Ok(())
}

/// Appends what keeps a limit as lines, in ASCII, each an alternative: the link and the downtime in words of options,
/// and the guest's speed; and what ends the migration within the trace. What was not found has no line.
pub fn push_remedies(text: &mut Vec<u8>, remedies: &Remedies) -> Result<(), AllocError>
    ensures { OnOk result (text.new.items ≡ text.old.items ++ remedies_text remedies.now) }
{
    push_amount(text, "enough: --link ", remedies.link, "Kbit")?;
    push_amount(text, "enough: --downtime ", remedies.downtime, "us")?;
    push_amount(
        text,
        "enough: the guest slowed to ",
        remedies.speed,
        " per cent of its speed",
    )?;
    push_ending(text, &remedies.ending)?;
    Ok(())
}

//! By whose plan a migration goes, as members of a JSON document.

ghost use Rattle.std.specs.Prelude.{◌≡◌, ◌++◌, OnOk};
ghost use Rattle.trace_views.specs.PlanJson.{plan_member, plan_word, steps_member};

use crate::document::Document;
use predictions::Manner;
use std::alloc::AllocError;

/// Returns the word of a plan, which is what it has a number of.
fn plan_word(manner: Manner) -> &'static str
    ensures { result.now ≡ plan_word manner }
{
    match manner {
        Manner::Looks => "looks",
        Manner::Rounds => "rounds",
    }
}

/// Writes by whose plan a migration goes as a member.
pub(crate) fn write_plan(out: &mut Document, manner: Manner) -> Result<(), AllocError>
    ensures { OnOk result (out.new ≡ out.old ++ plan_member manner) }
{
    out.text_member("plan", plan_word(manner))
}

/// Writes how many looks or rounds a plan has as a member.
pub(crate) fn write_steps(out: &mut Document, manner: Manner, steps: u64) -> Result<(), AllocError>
    ensures { OnOk result (out.new ≡ out.old ++ steps_member manner steps) }
{
    out.number_member(plan_word(manner), steps)
}

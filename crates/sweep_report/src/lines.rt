//! Lines of words and numbers.

ghost use Rattle.std.specs.Prelude.{◌≡◌, ◌^◌, ◌++◌, ◌∷◌, [], OnOk};
ghost use Rattle.sweep_report.specs.Lines.{field, hot_line, page_line, round_line, stop_line, trace_line, window_line};

use guest_log::Shape;
use itoa::Buffer;
use round_planner::{Plan, Round};
use std::alloc::AllocError;
use working_sets::Window;

/// Appends some words and a number after them.
#[tactic(auto, unfolding(crate::specs::Lines::field))]
pub fn push_field(text: &mut Vec<u8>, words: &str, number: u64) -> Result<(), AllocError>
    ensures { OnOk result (text.new.items ≡ text.old.items ++ field words.now number) }
{
    text.extend_from_slice(words.as_bytes())?;
    let mut digits = Buffer::new();
    text.extend_from_slice(digits.format(number).as_bytes())
}

/// Ends a line.
pub fn end_line(text: &mut Vec<u8>) -> Result<(), AllocError>
    ensures { OnOk result (text.new.items ≡ text.old.items ++ 10 ∷ []) }
{
    Ok(text.push(b'\n')?)
}

/// Appends the line on a trace: how many pages it has, how many bytes each of them, and how many writes.
fn push_sizes(text: &mut Vec<u8>, pages: u32, size: usize, writes: u32) -> Result<(), AllocError>
    ensures { OnOk result (text.new.items ≡ text.old.items ++ trace_line pages size writes) }
{
    push_field(text, "trace pages ", pages as u64)?;
    push_field(text, " size ", size as u64)?;
    push_field(text, " writes ", writes as u64)?;
    end_line(text)?;
    Ok(())
}

/// Appends the line on a trace of this shape.
pub(crate) fn push_trace(text: &mut Vec<u8>, shape: &Shape) -> Result<(), AllocError>
    ensures { OnOk result (text.new.items ≡ text.old.items ++ trace_line shape.now.pages (2 ^ shape.now.shift)
        shape.now.writes) }
{
    push_sizes(text, shape.pages, shape.page_size(), shape.writes)
}

/// Appends the line on a window.
pub(crate) fn push_window(text: &mut Vec<u8>, window: &Window) -> Result<(), AllocError>
    ensures { OnOk result (text.new.items ≡ text.old.items ++ window_line window.now) }
{
    push_field(text, "window ", window.number)?;
    push_field(text, " writes ", window.writes as u64)?;
    push_field(text, " pages ", window.pages as u64)?;
    push_field(text, " again ", window.again as u64)?;
    push_field(text, " fresh ", window.fresh as u64)?;
    end_line(text)
}

/// Appends the line on how many pages are hot.
pub(crate) fn push_hot(text: &mut Vec<u8>, hot: u64, pages: usize) -> Result<(), AllocError>
    ensures { OnOk result (text.new.items ≡ text.old.items ++ hot_line hot pages) }
{
    push_field(text, "hot ", hot)?;
    push_field(text, " pages ", pages as u64)?;
    end_line(text)
}

/// Appends the line on one hot page.
pub(crate) fn push_page(text: &mut Vec<u8>, page: u32) -> Result<(), AllocError>
    ensures { OnOk result (text.new.items ≡ text.old.items ++ page_line page) }
{
    push_field(text, "page ", page as u64)?;
    end_line(text)
}

/// Appends the line on a round of a plan.
pub(crate) fn push_round(text: &mut Vec<u8>, number: usize, round: &Round) -> Result<(), AllocError>
    ensures { OnOk result (text.new.items ≡ text.old.items ++ round_line number round.now) }
{
    push_field(text, "round ", number as u64)?;
    push_field(text, " from ", round.from)?;
    push_field(text, " to ", round.to)?;
    push_field(text, " rate ", round.rate)?;
    push_field(text, " pages ", round.pages.len() as u64)?;
    push_field(text, " sent ", round.sent.len() as u64)?;
    push_field(text, " dirtied ", round.dirtied as u64)?;
    end_line(text)?;
    Ok(())
}

/// Appends the line on the end of a plan.
pub(crate) fn push_stop(text: &mut Vec<u8>, plan: &Plan) -> Result<(), AllocError>
    ensures { OnOk result (text.new.items ≡ text.old.items ++ stop_line plan.now) }
{
    text.extend_from_slice("stop ".as_bytes())?;
    text.extend_from_slice(plan.reason.word().as_bytes())?;
    push_field(text, " at ", plan.stop)?;
    push_field(text, " pages ", plan.last.len() as u64)?;
    push_field(text, " down ", plan.down)?;
    push_field(text, " total ", plan.total())?;
    end_line(text)
}

//! Bars of block characters for a terminal, and what their parts mean.

ghost use Rattle.std.specs.Prelude.{◌≡◌, ◌++◌, [], if◌then◌else◌, OnOk, replicate};
ghost use Rattle.std.specs.List.{concat};
ghost use Rattle.report_pictures.specs.Bars.{bar_text, dark_part, full_part, key_text, light_part, part_text};
ghost use Rattle.report_pictures.specs.Bars.{round_key, window_key};

use crate::axis::share;
use crate::words::push_words;
use std::alloc::AllocError;
use std::marker::Model;
use sweep_report::end_line;

/// What ends a color on a terminal.
const PLAIN: &str = "\x1b[0m";

/// A part of a bar: the character that it is drawn with, its color, and the number that it stands for.
#[derive(Drop)]
pub(crate) struct Part {
    block: &'static str,
    color: &'static str,
    count: u64,
}

impl Model for Part {
    ghost use Rattle.report_pictures.specs.Bars.{BarPart};

    ghost Value = { BarPart };

    ghost view = { λ p. record { block = p.block.now; color = p.color.now; count = p.count } };
}

/// Returns a part of full blocks, in blue.
pub(crate) fn full(count: u64) -> Part
    ensures { result ≡ full_part count }
{
    Part {
        block: "█",
        color: "\x1b[34m",
        count,
    }
}

/// Returns a part of dark blocks, in cyan.
pub(crate) fn dark(count: u64) -> Part
    ensures { result ≡ dark_part count }
{
    Part {
        block: "▓",
        color: "\x1b[36m",
        count,
    }
}

/// Returns a part of light blocks, in yellow.
pub(crate) fn light(count: u64) -> Part
    ensures { result ≡ light_part count }
{
    Part {
        block: "░",
        color: "\x1b[33m",
        count,
    }
}

/// Appends a block as often as there are cells.
fn push_blocks(text: &mut Vec<u8>, block: &str, cells: usize) -> Result<(), AllocError>
    ensures { OnOk result (text.new.items ≡ text.old.items ++ concat (replicate cells block.now)) }
{
    for _cell in 0..cells {
        push_words(text, block)?;
    }
    Ok(())
}

/// Appends what sets a color, if colors are on.
fn push_color(text: &mut Vec<u8>, colors: bool, color: &str) -> Result<(), AllocError>
    ensures { OnOk result (text.new.items ≡ text.old.items ++ (if colors then color.now else [])) }
{
    if colors {
        push_words(text, color)?;
    }
    Ok(())
}

/// Appends a part over some cells, in its color if colors are on.
#[tactic(auto, unfolding(crate::specs::Bars::part_text))]
fn push_part(text: &mut Vec<u8>, part: &Part, cells: usize, colors: bool) -> Result<(), AllocError>
    ensures { OnOk result (text.new.items ≡ text.old.items ++ part_text colors part.now cells) }
{
    if cells == 0 {
        return Ok(());
    }
    push_color(text, colors, part.color)?;
    push_blocks(text, part.block, cells)?;
    push_color(text, colors, PLAIN)
}

/// Appends a bar of some parts, where one for the number `most` takes all of the room.
pub(crate) fn push_bar(
    text: &mut Vec<u8>,
    colors: bool,
    most: u64,
    room: usize,
    parts: &[Part],
) -> Result<(), AllocError>
    ensures { OnOk result (text.new.items ≡ text.old.items ++ bar_text colors most room parts.now) }
{
    for part in parts {
        let cells = share(part.count, most, room as u64) as usize;
        push_part(text, part, cells, colors)?;
    }
    Ok(())
}

/// Appends what a part of a bar means.
fn push_key(text: &mut Vec<u8>, colors: bool, part: &Part, name: &str) -> Result<(), AllocError>
    ensures { OnOk result (text.new.items ≡ text.old.items ++ key_text colors part.now name.now) }
{
    push_words(text, " ")?;
    push_part(text, part, 1, colors)?;
    push_words(text, name)
}

/// Appends what the parts of a window's bar mean.
#[tactic(auto, unfolding(crate::specs::Bars::window_key))]
pub(crate) fn push_window_key(text: &mut Vec<u8>, colors: bool) -> Result<(), AllocError>
    ensures { OnOk result (text.new.items ≡ text.old.items ++ window_key colors) }
{
    push_key(text, colors, &full(0), " again")?;
    push_key(text, colors, &dark(0), " earlier")?;
    push_key(text, colors, &light(0), " fresh")?;
    end_line(text)
}

/// Appends what the parts of a round's bar mean.
#[tactic(auto, unfolding(crate::specs::Bars::round_key))]
pub(crate) fn push_round_key(text: &mut Vec<u8>, colors: bool) -> Result<(), AllocError>
    ensures { OnOk result (text.new.items ≡ text.old.items ++ round_key colors) }
{
    push_key(text, colors, &full(0), " sent")?;
    push_key(text, colors, &light(0), " skipped")?;
    end_line(text)
}

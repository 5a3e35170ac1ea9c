//! Aligned tables of numbers, with bars of block characters beside them.

ghost use Rattle.std.specs.Prelude.{◌≡◌, ◌++◌, ◌∷◌, [], IfOk, OnOk, codes, length, map, max};
ghost use Rattle.std.specs.Fmt.{decimal};
ghost use Rattle.predictions.specs.Starts.Texts.{right_in};
ghost use Rattle.report_pictures.specs.Columns.{bar_room, names_text, numbers_text, row_text, widths_of};

use crate::bar::{Part, push_bar};
use crate::words::push_words;
use itoa::Buffer;
use predictions::starts::push_right;
use std::alloc::{AllocError, Global};
use sweep_report::end_line;
use view_kinds::Style;

/// Returns how wide a column with this name and no greater number is.
fn column_width(name: &str, most: u64) -> usize
    ensures { result ≡ max (length (decimal most)) (length name.now) }
{
    let mut digits = Buffer::new();
    digits.format(most).len().max(name.len())
}

/// Returns how wide columns with these names and greatest numbers are.
pub(crate) fn column_widths(
    alloc: Global,
    names: &[&str],
    mosts: &[u64],
) -> Result<Vec<usize>, AllocError>
    requires same { length names.now ≡ length mosts.now }
    ensures { IfOk result (λ widths. widths.items ≡ widths_of (map (λ name. name.now) names.now) mosts.now) }
{
    let mut widths = Vec::with_capacity(alloc, names.len())?;
    for column in 0..names.len() {
        widths.push(column_width(names[column], mosts[column]))?;
    }
    Ok(widths)
}

/// Returns what is left of a line for a bar beside columns of these widths.
fn room_beside(width: usize, widths: &[usize]) -> usize
    ensures { result ≡ bar_room width widths.now }
{
    let mut room = width.saturating_sub(2);
    for column in widths {
        room = room.saturating_sub(*column).saturating_sub(2);
    }
    room
}

/// Appends words at the right end of a column, with two spaces before it.
fn push_cell(text: &mut Vec<u8>, width: usize, words: &[u8]) -> Result<(), AllocError>
    ensures { OnOk result (text.new.items ≡ text.old.items ++ (codes "  " ++ right_in width words.now)) }
{
    push_words(text, "  ")?;
    push_right(text, width, words)
}

/// Appends the line of the columns' names.
#[tactic(auto, unfolding(crate::specs::Columns::names_text))]
pub(crate) fn push_names(
    text: &mut Vec<u8>,
    widths: &[usize],
    names: &[&str],
) -> Result<(), AllocError>
    requires same { length widths.now ≡ length names.now }
    ensures { OnOk result (text.new.items ≡ text.old.items
        ++ (names_text widths.now (map (λ name. name.now) names.now) ++ 10 ∷ [])) }
{
    for column in 0..widths.len() {
        push_cell(text, widths[column], names[column].as_bytes())?;
    }
    end_line(text)
}

/// Appends numbers at the right ends of columns.
#[tactic(auto, unfolding(crate::specs::Columns::numbers_text))]
fn push_numbers(text: &mut Vec<u8>, widths: &[usize], numbers: &[u64]) -> Result<(), AllocError>
    requires same { length widths.now ≡ length numbers.now }
    ensures { OnOk result (text.new.items ≡ text.old.items ++ numbers_text widths.now numbers.now) }
{
    for column in 0..widths.len() {
        let mut digits = Buffer::new();
        push_cell(
            text,
            widths[column],
            digits.format(numbers[column]).as_bytes(),
        )?;
    }
    Ok(())
}

#[tactic(auto, unfolding(crate::specs::Columns::row_text))]
/// Appends the line of a row, with its bar. A bar for the number `most` takes all that is left of the line.
pub(crate) fn push_row(
    text: &mut Vec<u8>,
    style: &Style,
    widths: &[usize],
    most: u64,
    numbers: &[u64],
    parts: &[Part],
) -> Result<(), AllocError>
    requires same { length widths.now ≡ length numbers.now }
    ensures { OnOk result (text.new.items ≡ text.old.items
        ++ row_text style.now widths.now most numbers.now parts.now) }
{
    push_numbers(text, widths, numbers)?;
    push_words(text, "  ")?;
    push_bar(
        text,
        style.colors,
        most,
        room_beside(style.width, widths),
        parts,
    )?;
    end_line(text)
}

//! A panel of a picture: a plot with a title above it, and bars in it.

ghost use Rattle.std.specs.Prelude.{◌≡◌, ◌≤◌, ◌+◌, ◌++◌, IfOk, OnOk};
ghost use Rattle.report_pictures.specs.Axes.{share_of};
ghost use Rattle.report_pictures.specs.Panels.{IsPanel, bar_height, bar_mark, bottom_of, frame_text, key_mark};
ghost use Rattle.report_pictures.specs.Panels.{level_of, rule_mark, span_mark};

use crate::axis::{LEFT, SPAN, share};
use crate::svg::{Area, push_number, push_rect, push_text};
use std::alloc::AllocError;

/// A part of a picture: a plot with a title above it. Numbers go up to `most`.
#[derive(Clone, Copy)]
pub(crate) struct Panel {
    pub(crate) top: u64,
    pub(crate) height: u64,
    pub(crate) most: u64,
}

/// Appends a line across a panel, and its number at its left.
fn push_rule(text: &mut Vec<u8>, class: &str, y: u64, number: u64) -> Result<(), AllocError>
    requires near { y ≤ 10_000 }
    ensures { OnOk result (text.new.items ≡ text.old.items ++ rule_mark class.now y number) }
{
    let area = Area {
        x: LEFT,
        y,
        width: SPAN,
        height: 1,
    };
    push_rect(text, class, &area)?;
    push_number(text, "end", LEFT - 8, y.saturating_add(5), number)
}

impl Panel {
    /// Returns the height of a number in the panel.
    pub(crate) fn height_of(&self, number: u64) -> u64
        ensures share { result ≡ share_of number self.now.most self.now.height }
        ensures bound { result ≤ self.now.height }
    {
        share(number, self.most, self.height)
    }

    /// Returns the unit after the panel's last.
    pub(crate) fn bottom(&self) -> u64
        requires small { IsPanel self.now }
        ensures { result ≡ bottom_of self.now }
    {
        self.top.saturating_add(self.height)
    }

    /// Returns where a number is in the picture.
    pub(crate) fn level(&self, number: u64) -> u64
        requires small { IsPanel self.now }
        ensures { result ≡ level_of self.now number }
    {
        self.bottom().saturating_sub(self.height_of(number))
    }

    /// Appends a bar for a number, on top of another of this height. Returns the height of both.
    #[tactic(auto, unfolding(crate::specs::Panels::bar_mark))]
    pub(crate) fn push_bar(
        &self,
        text: &mut Vec<u8>,
        class: &str,
        column: (u64, u64),
        below: u64,
        number: u64,
    ) -> Result<u64, AllocError>
        requires small { IsPanel self.now }
        requires below { below ≤ 10_000 }
        ensures { IfOk result (λ high. (high ≡ below + bar_height self.now number)
            × (text.new.items ≡ text.old.items ++ bar_mark class.now self.now column below number)) }
    {
        if number == 0 {
            return Ok(below);
        }
        let height = self.height_of(number).max(1);
        let high = below.saturating_add(height);
        let area = Area {
            x: column.0,
            y: self.bottom().saturating_sub(high),
            width: column.1.saturating_sub(column.0).max(1),
            height,
        };
        push_rect(text, class, &area)?;
        Ok(high)
    }

    /// Appends the title of the panel, the lines at its top and its bottom, and their numbers.
    #[tactic(auto, unfolding(crate::specs::Panels::frame_text))]
    pub(crate) fn push_frame(&self, text: &mut Vec<u8>, title: &str) -> Result<(), AllocError>
        requires small { IsPanel self.now }
        ensures { OnOk result (text.new.items ≡ text.old.items ++ frame_text self.now title.now) }
    {
        push_text(text, "title", LEFT, self.top.saturating_sub(14), title)?;
        push_rule(text, "grid", self.top, self.most)?;
        push_rule(text, "line", self.bottom(), 0)
    }

    /// Appends the meaning of a color.
    #[tactic(auto, unfolding(crate::specs::Panels::key_mark))]
    pub(crate) fn push_key(
        &self,
        text: &mut Vec<u8>,
        class: &str,
        x: u64,
        words: &str,
    ) -> Result<(), AllocError>
        requires near { x ≤ 1_000 }
        ensures { OnOk result (text.new.items ≡ text.old.items ++ key_mark self.now class.now x words.now) }
    {
        let area = Area {
            x,
            y: self.top.saturating_sub(24),
            width: 10,
            height: 10,
        };
        push_rect(text, class, &area)?;
        let right = x.saturating_add(15);
        push_text(text, "key", right, self.top.saturating_sub(14), words)
    }

    /// Appends an area over the whole height of the panel, from one place to another.
    pub(crate) fn push_span(
        &self,
        text: &mut Vec<u8>,
        class: &str,
        from: u64,
        to: u64,
    ) -> Result<(), AllocError>
        ensures { OnOk result (text.new.items ≡ text.old.items ++ span_mark class.now self.now from to) }
    {
        let area = Area {
            x: from,
            y: self.top,
            width: to.saturating_sub(from),
            height: self.height,
        };
        push_rect(text, class, &area)
    }
}

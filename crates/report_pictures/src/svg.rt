//! Pieces of an SVG picture.

ghost use Rattle.std.specs.Prelude.{◌≡◌, ◌++◌, OnOk, codes};
ghost use Rattle.std.specs.Fmt.{decimal};
ghost use Rattle.report_pictures.specs.Svg.{corner_text, place_text, placed_text, rect_text, size_text, text_end};
ghost use Rattle.report_pictures.specs.Svg.{text_head};

use crate::words::push_words;
use predictions::push_wide;
use std::alloc::AllocError;
use sweep_report::push_field;

/// Where a rectangle is, and how large.
#[derive(Clone, Copy)]
pub(crate) struct Area {
    pub(crate) x: u64,
    pub(crate) y: u64,
    pub(crate) width: u64,
    pub(crate) height: u64,
}

/// What a picture begins with, up to its height.
const HEAD: &str =
    "<svg xmlns=\"http://www.w3.org/2000/svg\" width=\"960\" role=\"img\" font-family=\"sans-serif\" \
font-size=\"13\"";

/// The colors of a picture, in light and in dark.
const STYLE: &str = "<style>
.paper { fill: #ffffff } text { fill: #1f2328 } .end { text-anchor: end } .middle { text-anchor: middle }
.title { font-weight: bold } .line { fill: #8c959f } .grid { fill: #d8dee4 }
.again { fill: #0969da } .earlier { fill: #54aeff } .fresh { fill: #e3a008 }
.sent { fill: #0969da } .skipped { fill: #b6bfc9 } .dirtied { fill: #cf222e } .rate { fill: #2da44e }
.stop { fill: #1f2328 } .down { fill: #cf222e; fill-opacity: 0.35 } .span { fill: #57606a; fill-opacity: 0.22 }
.limit { fill: #cf222e } .best { fill: #2da44e } .worst { fill: #bc4c00 }
.known { fill: none; stroke: #0969da; stroke-width: 2 } .late { fill: none; stroke: #b6bfc9; stroke-width: 2 }
.knownkey { fill: #0969da } .latekey { fill: #b6bfc9 }
@media (prefers-color-scheme: dark) {
.paper { fill: #0d1117 } text { fill: #e6edf3 } .line { fill: #6e7681 } .grid { fill: #30363d }
.again { fill: #388bfd } .earlier { fill: #79c0ff } .fresh { fill: #d29922 }
.sent { fill: #388bfd } .skipped { fill: #484f58 } .dirtied { fill: #ff7b72 } .rate { fill: #3fb950 }
.stop { fill: #e6edf3 } .down { fill: #ff7b72 } .span { fill: #8b949e }
.limit { fill: #ff7b72 } .best { fill: #3fb950 } .worst { fill: #ffa657 }
.known { stroke: #388bfd } .late { stroke: #484f58 } .knownkey { fill: #388bfd } .latekey { fill: #484f58 }
}
</style>
";

/// Begins a picture of this height.
pub(crate) fn begin_picture(text: &mut Vec<u8>, height: u64) -> Result<(), AllocError> {
    push_words(text, HEAD)?;
    push_field(text, " height=\"", height)?;
    push_field(text, "\" viewBox=\"0 0 960 ", height)?;
    push_words(text, "\">\n")?;
    push_words(text, STYLE)?;
    let paper = Area {
        x: 0,
        y: 0,
        width: 960,
        height,
    };
    push_rect(text, "paper", &paper)
}

/// Ends a picture.
pub(crate) fn end_picture(text: &mut Vec<u8>) -> Result<(), AllocError>
    ensures { OnOk result (text.new.items ≡ text.old.items ++ codes "</svg>\n") }
{
    push_words(text, "</svg>\n")
}

/// Appends where a rectangle is.
#[tactic(auto, unfolding(crate::specs::Svg::corner_text))]
fn push_corner(text: &mut Vec<u8>, area: &Area) -> Result<(), AllocError>
    ensures { OnOk result (text.new.items ≡ text.old.items ++ corner_text area.now) }
{
    push_field(text, "\" x=\"", area.x)?;
    push_field(text, "\" y=\"", area.y)
}

/// Appends how large a rectangle is.
#[tactic(auto, unfolding(crate::specs::Svg::size_text))]
fn push_size(text: &mut Vec<u8>, area: &Area) -> Result<(), AllocError>
    ensures { OnOk result (text.new.items ≡ text.old.items ++ size_text area.now) }
{
    push_field(text, "\" width=\"", area.width)?;
    push_field(text, "\" height=\"", area.height)?;
    push_words(text, "\"/>\n")
}

/// Appends a rectangle of a class.
#[tactic(auto, unfolding(crate::specs::Svg::rect_text))]
pub(crate) fn push_rect(text: &mut Vec<u8>, class: &str, area: &Area) -> Result<(), AllocError>
    ensures { OnOk result (text.new.items ≡ text.old.items ++ rect_text class.now area.now) }
{
    push_words(text, "<rect class=\"")?;
    push_words(text, class)?;
    push_corner(text, area)?;
    push_size(text, area)
}

/// Appends where words are.
#[tactic(auto, unfolding(crate::specs::Svg::place_text))]
fn push_place(text: &mut Vec<u8>, x: u64, y: u64) -> Result<(), AllocError>
    ensures { OnOk result (text.new.items ≡ text.old.items ++ place_text x y) }
{
    push_field(text, "\" x=\"", x)?;
    push_field(text, "\" y=\"", y)?;
    push_words(text, "\">")
}

/// Begins a text of a class, at a place.
#[tactic(auto, unfolding(crate::specs::Svg::text_head))]
pub(crate) fn begin_text(text: &mut Vec<u8>, class: &str, x: u64, y: u64) -> Result<(), AllocError>
    ensures { OnOk result (text.new.items ≡ text.old.items ++ text_head class.now x y) }
{
    push_words(text, "<text class=\"")?;
    push_words(text, class)?;
    push_place(text, x, y)
}

/// Ends a text.
pub(crate) fn end_text(text: &mut Vec<u8>) -> Result<(), AllocError>
    ensures { OnOk result (text.new.items ≡ text.old.items ++ text_end) }
{
    push_words(text, "</text>\n")
}

/// Appends a text of a class, at a place.
#[tactic(auto, unfolding(crate::specs::Svg::placed_text))]
pub(crate) fn push_text(
    text: &mut Vec<u8>,
    class: &str,
    x: u64,
    y: u64,
    words: &str,
) -> Result<(), AllocError>
    ensures { OnOk result (text.new.items ≡ text.old.items ++ placed_text class.now x y words.now) }
{
    begin_text(text, class, x, y)?;
    push_words(text, words)?;
    end_text(text)
}

/// Appends a number as a text of a class, at a place.
#[tactic(auto, unfolding(crate::specs::Svg::placed_text))]
pub(crate) fn push_number(
    text: &mut Vec<u8>,
    class: &str,
    x: u64,
    y: u64,
    number: u64,
) -> Result<(), AllocError>
    ensures { OnOk result (text.new.items ≡ text.old.items ++ placed_text class.now x y (decimal number)) }
{
    begin_text(text, class, x, y)?;
    push_wide(text, number as u128)?;
    end_text(text)
}
